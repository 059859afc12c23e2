//! A coming round of turns, up to the end of the lines of a seat's first turn. No sheet is looked
//! at but the seat's own, so each seat before it passes.
ghost use Rattle.std.specs.Prelude.{◌≡◌, ◌<◌, ◌≤◌, IfOk, OnOk, length};
ghost use Rattle.foresight.specs.FirstTurn.{IsBehindFirstTurn, IsTheirTurn};
ghost use Rattle.history.specs.Sound.{IsSound};
ghost use Rattle.sheets.specs.File.{players_of};
ghost use Rattle.sheets.specs.Part.{written_turns_of};
ghost use Rattle.tables.specs.Turns.{next_written_turn};
ghost use Rattle.turns.specs.RoundOfTurns.{after_written_turn, in_turn};
ghost use Rattle.turns.specs.Small.{IsReady};

use history::History;
use sheets::{PartsLeft, Sheets};
use std::alloc::AllocError;
use tables::{Round, Seat};
use turns::{TurnRules, begin, pass, rule_lines, rule_standing};

/// Plays a coming round of turns, with the sheet of one seat, up to the end of the lines of that
/// seat's first turn. The list of events must be sound, its seats those of the sheets' players, the
/// seat at the table, and the round one that may begin. Returns what the seat has done in the turn
/// by then. Fails only if allocation fails.
pub(crate) fn play_first_turn<T: TurnRules>(
    rules: &T,
    history: &mut History,
    sheets: &Sheets,
    round: Round,
    seat: Seat,
) -> Result<T::TurnActions, AllocError>
    requires sound { IsSound history.old }
    requires seats { history.old.seats ≡ length (players_of sheets.now) }
    requires at_table { seat.0 < history.old.seats }
    requires may_begin { T.may_begin history.old.events }
    ensures turn { IfOk result
        (IsBehindFirstTurn T.rules sheets.now round seat history.old history.new) }
{
    // For the proof only: the seats are at most six.
    let _few = sheets.seats();
    let first = history.now().priority();
    begin(rules, history, round)?;
    let mut sheet = sheets.parts(seat, round);
    rule_standing(rules, history, seat, &mut sheet)?;
    pass_until(rules, history, first, seat)?;
    let actions = rule_first_lines(rules, history, seat, &mut sheet)?;
    Ok(actions)
}

/// Records that each seat from one on, to the left, passes until it is another's turn.
fn pass_until<T: TurnRules>(
    rules: &T,
    history: &mut History,
    first: Seat,
    seat: Seat,
) -> Result<(), AllocError>
    requires few { history.old.seats ≤ 6 }
    requires first { first.0 < history.old.seats }
    requires at_table { seat.0 < history.old.seats }
    requires underway { T.holds history.old }
    ensures seats { OnOk result (history.new.seats ≡ history.old.seats) }
    ensures turn { OnOk result
        (IsTheirTurn history.old.seats first seat history.old.events history.new.events) }
    ensures underway { OnOk result (T.holds history.new) }
{
    let seats = history.seats();
    let mut next = first;
    while next.index() != seat.index() {
        pass(rules, history, next)?;
        next = next.left(seats);
    }
    Ok(())
}

/// Rules the lines of the first written turn of a seat's sheet, if it has one. Returns what the
/// seat has done by them.
fn rule_first_lines<T: TurnRules>(
    rules: &T,
    history: &mut History,
    seat: Seat,
    sheet: &mut PartsLeft,
) -> Result<T::TurnActions, AllocError>
    requires few { history.old.seats ≤ 6 }
    requires at_table { seat.0 < history.old.seats }
    requires ready { IsReady sheet.old }
    requires underway { T.holds history.old }
    ensures seats { OnOk result (history.new.seats ≡ history.old.seats) }
    ensures turn { IfOk result (λ actions. in_turn history.new.events actions
        ≡ after_written_turn T.rules history.old.seats seat history.old.events
        (next_written_turn (written_turns_of sheet.old))) }
{
    let Some(_head) = sheet.take_head() else {
        return Ok(rules.nothing());
    };
    rule_lines(rules, history, seat, sheet)
}
