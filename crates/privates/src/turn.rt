//! The lines of a written turn: in a turn a seat may buy or bid, once.
ghost use Rattle.std.specs.Prelude.{◌≡◌, ◌<◌, OnOk, IfOk};
ghost use Rattle.order_grammar.specs.declared.order.Order.TheVariants.{Play};
ghost use Rattle.totals.specs.LookBack.{with_events};
ghost use Rattle.privates.specs.Turn.{MayAct, after_opening_line, after_opening_order, opening_judgement};
ghost use Rattle.privates.specs.Turn.{opening_refusal};
ghost use Rattle.privates.specs.Underway.{IsUnderway};
ghost use Rattle.sheets.specs.Part.{line_unread};
ghost use Rattle.turns.specs.RoundOfTurns.{in_turn};
ghost use Rattle.turns.specs.Ruling.{has_place_in_turn};
ghost use Rattle.turns.specs.Small.{IsSmallOrder, IsSmallReading};

use crate::bid::{bid, judge_bid};
use crate::buy::{buy, judge_purchase};
use history::{History, OpeningRule, Refusal};
use order_grammar::{Order, PlayOrder};
use sheets::{UnreadLine, is_of_file};
use std::alloc::AllocError;
use tables::Seat;
use turns::Family;

/// The lines of a written turn, with whether the seat has bought or bid in this turn.
#[derive(Clone, Copy, Debug)]
struct TurnLines {
    turn_used: bool,
}

impl Family for TurnLines {
    ghost place = { has_place_in_turn };

    ghost judgement = { λ lines game seat.
        opening_refusal game.seats game.events seat lines.turn_used };

    ghost may_judge = { λ game seat. Unit {0} };

    fn has_place(&self, order: &Order) -> bool {
        !is_of_file(order)
    }

    fn judge(&self, history: &History, seat: Seat, order: &Order) -> Option<Refusal> {
        judge_line(history, seat, order, self.turn_used).map(Refusal::Opening)
    }
}

/// Rules a line of a written turn, and carries it out if it is obeyed. Overwrites `order`. Returns
/// whether the seat has bought or bid in its turn so far.
pub(crate) fn rule_line(
    history: &mut History,
    seat: Seat,
    line: UnreadLine,
    order: &mut Order,
    turn_used: bool,
) -> Result<bool, AllocError>
    requires at_table { seat.0 < history.old.seats }
    requires small { IsSmallReading (line_unread line).reading }
    requires underway { IsUnderway history.old }
    ensures seats { OnOk result (history.new.seats ≡ history.old.seats) }
    ensures turn { IfOk result (λ used. in_turn history.new.events used
        ≡ after_opening_line history.old.seats seat (in_turn history.old.events turn_used)
        (line_unread line.entry)) }
    ensures underway { OnOk result (IsUnderway history.new) }
{
    if !turns::rule_line(&TurnLines { turn_used }, history, seat, line, order)? {
        return Ok(turn_used);
    }
    act(history, seat, order)?;
    Ok(true)
}

/// Returns the first rule that a line of a seat breaks in its turn, given whether it has used the
/// turn; `None` if it breaks none.
fn judge_line(history: &History, seat: Seat, order: &Order, turn_used: bool) -> Option<OpeningRule>
    ensures { result
        ≡ opening_judgement history.now.seats history.now.events seat turn_used order.now }
{
    match order {
        Order::Play(order) => judge(history, seat, *order, turn_used),
        _ => Some(OpeningRule::NotOfOpening),
    }
}

/// Returns the first rule that an order of a seat breaks in its turn, given whether it has used the
/// turn; `None` if it breaks none. `judge_standing` judges standing lines.
pub fn judge(
    history: &History,
    seat: Seat,
    order: PlayOrder,
    turn_used: bool,
) -> Option<OpeningRule>
    ensures { result
        ≡ opening_judgement history.now.seats history.now.events seat turn_used (Play order) }
{
    let now = history.now();
    match order {
        PlayOrder::BuyPrivate(private) => judge_purchase(&now, seat, private, turn_used),
        PlayOrder::Bid { private, amount } => judge_bid(&now, seat, private, amount, turn_used),
        _ => Some(OpeningRule::NotOfOpening),
    }
}

/// Carries out what a seat orders in its turn.
fn act(history: &mut History, seat: Seat, order: &Order) -> Result<(), AllocError>
    requires at_table { seat.0 < history.old.seats }
    requires small { IsSmallOrder order.now }
    requires may { MayAct history.old.seats history.old.events seat order.now }
    requires underway { IsUnderway history.old }
    ensures after { OnOk result (history.new ≡ with_events history.old
        (after_opening_order history.old.seats seat history.old.events order.now)) }
    ensures underway { OnOk result (IsUnderway history.new) }
{
    match order {
        Order::Play(PlayOrder::BuyPrivate(private)) => buy(history, seat, *private),
        Order::Play(PlayOrder::Bid { private, amount }) => bid(history, seat, *private, *amount),
        _ => Ok(()),
    }
}
