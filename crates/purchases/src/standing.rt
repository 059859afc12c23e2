//! The standing lines of an operating round's sheets, the lines before the first head. They are
//! ruled seat by seat, in order; for each line its condition is checked first, and then the rules
//! of its order. Only DISCARD and OFFER are allowed there.
ghost use Rattle.std.specs.Prelude.{◌≡◌, OnOk, length};
ghost use Rattle.history.specs.Sound.{IsSound};
ghost use Rattle.order_grammar.specs.declared.order.Order.TheVariants.{Play};
ghost use Rattle.purchases.specs.Standing.{after_all_standing_lines, after_operating_standing_line};
ghost use Rattle.purchases.specs.Standing.{has_place_before_companies, operating_standing_judgement};
ghost use Rattle.sheets.specs.File.{players_of};
ghost use Rattle.sheets.specs.Taken.{after_each, after_lines_before};
ghost use Rattle.totals.specs.LookBack.{with_events};

use crate::discard::judge_discard;
use crate::offer::judge_offer;
use history::{History, Refusal};
use order_grammar::{Order, PlayOrder};
use sheets::{PartsLeft, Sheets};
use std::alloc::AllocError;
use tables::{Round, Seat};
use turns::{Family, rule_line};

/// Rules the standing lines of each sheet for an operating round, seat by seat. The list of events
/// must be sound. Fails only if allocation fails.
pub fn rule_standing_lines(
    history: &mut History,
    sheets: &Sheets,
    round: Round,
) -> Result<(), AllocError>
    requires { IsSound history.old }
    ensures after { OnOk result (history.new ≡ with_events history.old
        (after_all_standing_lines (length (players_of sheets.now)) sheets.now round
        history.old.events)) }
    ensures sound { OnOk result (IsSound history.new) }
{
    for seat in 0..sheets.seats() {
        let seat = Seat::at(seat);
        rule_standing(history, seat, &mut sheets.parts(seat, round))?;
    }
    Ok(())
}

/// Rules the standing lines of a seat's sheet for an operating round. The list of events must be
/// sound. Fails only if allocation fails.
pub fn rule_standing_lines_of(
    history: &mut History,
    sheets: &Sheets,
    round: Round,
    seat: Seat,
) -> Result<(), AllocError>
    requires { IsSound history.old }
    ensures after { OnOk result (history.new ≡ with_events history.old
        (after_lines_before after_operating_standing_line sheets.now round history.old.events
        seat.0)) }
    ensures sound { OnOk result (IsSound history.new) }
{
    rule_standing(history, seat, &mut sheets.parts(seat, round))
}

/// Rules the standing lines of a seat's sheet, the lines before its first head.
fn rule_standing(history: &mut History, seat: Seat, sheet: &mut PartsLeft) -> Result<(), AllocError>
    requires { IsSound history.old }
    ensures after { OnOk result (history.new ≡ with_events history.old
        (after_each (after_operating_standing_line seat) history.old.events sheet.old.before)) }
    ensures sound { OnOk result (IsSound history.new) }
{
    let mut order = Order::Blank;
    while let Some(line) = sheet.take_line() {
        rule_line(&StandingLines, history, seat, line, &mut order)?;
    }
    Ok(())
}

/// The standing lines of a sheet, the lines before its first head. Only DISCARD and OFFER are
/// allowed there.
struct StandingLines;

impl Family for StandingLines {
    ghost place = { has_place_before_companies };

    ghost judgement = { λ lines game seat. operating_standing_judgement game.events seat };

    ghost may_judge = { λ game seat. Unit {0} };

    fn has_place(&self, order: &Order) -> bool {
        matches!(
            order,
            Order::Play(PlayOrder::Discard { .. } | PlayOrder::Offer(_))
        )
    }

    fn judge(&self, history: &History, seat: Seat, order: &Order) -> Option<Refusal> {
        match order {
            Order::Play(order) => judge_standing(history, seat, *order),
            _ => None,
        }
    }
}

/// Returns the rule that an order of a seat breaks as a standing line of an operating round; `None`
/// if it breaks none. Only DISCARD and OFFER have rules there.
pub fn judge_standing(history: &History, seat: Seat, order: PlayOrder) -> Option<Refusal>
    ensures { result ≡ operating_standing_judgement history.now.events seat (Play order) }
{
    match order {
        PlayOrder::Discard { company, kind } => {
            judge_discard(history, seat, company, kind).map(Refusal::Train)
        }
        PlayOrder::Offer(sale) => judge_offer(history, seat, sale),
        _ => None,
    }
}
