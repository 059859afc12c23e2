//! The turn of a seat, which rules the lines of its next written turn.
ghost use Rattle.std.specs.Prelude.{◌≡◌, ◌<◌, OnOk, IfOk, drop};
ghost use Rattle.sheets.specs.Part.{written_turns_of};
ghost use Rattle.tables.specs.Turns.{next_written_turn};
ghost use Rattle.turns.specs.RoundOfTurns.{after_written_turn, in_turn, turned};
ghost use Rattle.turns.specs.Small.{IsReady, PartsAreSmall};

use crate::rules::TurnRules;
use history::History;
use order_grammar::Order;
use sheets::PartsLeft;
use std::alloc::AllocError;
use tables::Seat;

/// Plays a seat's turn: it takes up the next written turn of its sheet, if there is one. Returns
/// whether the seat acted.
pub(crate) fn take_turn<T: TurnRules>(
    rules: &T,
    history: &mut History,
    seat: Seat,
    sheet: &mut PartsLeft,
) -> Result<bool, AllocError>
    requires at_table { seat.0 < history.old.seats }
    requires ready { IsReady sheet.old }
    requires underway { T.holds history.old }
    ensures seats { OnOk result (history.new.seats ≡ history.old.seats) }
    ensures turn { IfOk result (λ acted.
        record { state = history.new.events; acted = acted }
        ≡ turned T.rules (after_written_turn T.rules history.old.seats seat history.old.events
        (next_written_turn (written_turns_of sheet.old)))) }
    ensures left { OnOk result (written_turns_of sheet.new ≡ drop 1 (written_turns_of sheet.old)) }
    ensures ready { OnOk result (IsReady sheet.new) }
    ensures underway { OnOk result (T.holds history.new) }
{
    let Some(_head) = sheet.take_head() else {
        return Ok(rules.has_acted(rules.nothing()));
    };
    let actions = rule_lines(rules, history, seat, sheet)?;
    Ok(rules.has_acted(actions))
}

/// Rules the lines of a written turn, whose head is taken. Returns what the seat has done in them.
/// Fails only if allocation fails.
pub fn rule_lines<T: TurnRules>(
    rules: &T,
    history: &mut History,
    seat: Seat,
    sheet: &mut PartsLeft,
) -> Result<T::TurnActions, AllocError>
    requires at_table { seat.0 < history.old.seats }
    requires small { PartsAreSmall sheet.old }
    requires underway { T.holds history.old }
    ensures seats { OnOk result (history.new.seats ≡ history.old.seats) }
    ensures turn { IfOk result (λ actions. in_turn history.new.events actions
        ≡ after_written_turn T.rules history.old.seats seat history.old.events sheet.old.before) }
    ensures left { OnOk result (written_turns_of sheet.new ≡ written_turns_of sheet.old) }
    ensures ready { OnOk result (IsReady sheet.new) }
    ensures underway { OnOk result (T.holds history.new) }
{
    let mut order = Order::Blank;
    let mut actions = rules.nothing();
    while let Some(line) = sheet.take_line() {
        actions = rules.rule_line(history, seat, line, &mut order, actions)?;
    }
    Ok(actions)
}
