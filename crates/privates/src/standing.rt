//! The standing lines of an opening sheet, the lines before its first written turn: LIMIT and PAR.
ghost use Rattle.std.specs.Prelude.{◌≡◌, OnOk};
ghost use Rattle.order_grammar.specs.declared.order.Order.TheVariants.{Play};
ghost use Rattle.totals.specs.LookBack.{with_events};
ghost use Rattle.turns.specs.Small.{IsSmallReading};
ghost use Rattle.privates.specs.Standing.{after_opening_standing_line, has_place_before_turns};
ghost use Rattle.privates.specs.Standing.{opening_standing_judgement, opening_standing_refusal};
ghost use Rattle.privates.specs.Underway.{IsUnderway};
ghost use Rattle.sheets.specs.Part.{line_unread};

use crate::limit::judge_limit;
use crate::par_of_bo::judge_par;
use history::{History, OpeningRule, Refusal};
use order_grammar::{Order, PlayOrder};
use sheets::UnreadLine;
use std::alloc::AllocError;
use tables::Seat;
use turns::Family;

/// The standing lines of a sheet, the lines before its first written turn.
struct StandingLines;

impl Family for StandingLines {
    ghost place = { has_place_before_turns };

    ghost judgement = { λ lines game seat. opening_standing_refusal game.events };

    ghost may_judge = { λ game seat. Unit {0} };

    fn has_place(&self, order: &Order) -> bool {
        has_place_before_turns(order)
    }

    fn judge(&self, history: &History, _seat: Seat, order: &Order) -> Option<Refusal> {
        judge_line(history, order).map(Refusal::Opening)
    }
}

/// Rules a standing line of a seat. Overwrites `order`.
pub(crate) fn rule_standing_line(
    history: &mut History,
    seat: Seat,
    line: UnreadLine,
    order: &mut Order,
) -> Result<(), AllocError>
    requires small { IsSmallReading (line_unread line).reading }
    requires underway { IsUnderway history.old }
    ensures after { OnOk result (history.new ≡ with_events history.old
        (after_opening_standing_line seat history.old.events (line_unread line.entry))) }
    ensures underway { OnOk result (IsUnderway history.new) }
{
    turns::rule_line(&StandingLines, history, seat, line, order)?;
    Ok(())
}

/// Returns whether an order may be before the first written turn, as LIMIT and PAR may.
fn has_place_before_turns(order: &Order) -> bool
    ensures { result ≡ has_place_before_turns order.now }
{
    matches!(
        order,
        Order::Play(PlayOrder::Limit { .. } | PlayOrder::Par { .. })
    )
}

/// Returns the rule that a line breaks as a standing line; `None` if it breaks none.
fn judge_line(history: &History, order: &Order) -> Option<OpeningRule>
    ensures { result ≡ opening_standing_judgement history.now.events order.now }
{
    match order {
        Order::Play(order) => judge_standing(history, *order),
        _ => Some(OpeningRule::NotOfOpening),
    }
}

/// Returns the rule that an order breaks as a standing line; `None` if it breaks none. A LIMIT
/// breaks A2 if its private is sold. A PAR breaks A1 if it is not for BO or sets no par value, and
/// so does every other order.
pub fn judge_standing(history: &History, order: PlayOrder) -> Option<OpeningRule>
    ensures { result ≡ opening_standing_judgement history.now.events (Play order) }
{
    match order {
        PlayOrder::Limit { private, .. } => judge_limit(&history.now(), private),
        PlayOrder::Par { company, price } => judge_par(company, price),
        _ => Some(OpeningRule::NotOfOpening),
    }
}
