//! Which rules of an opening are broken whatever the other players order.
ghost use Rattle.std.specs.Prelude.{◌≡◌};
ghost use Rattle.desk_mending.specs.OpeningStays.{has_less, opening_stays, stays_beyond_cash, stays_for_cheapest};
ghost use Rattle.desk_mending.specs.OpeningStays.{stays_sold, stays_too_low};

use desk_rules::{is_cheapest, is_too_low};
use history::{GameView, Holder, OpeningRule, Party};
use order_grammar::PlayOrder;
use privates::price_of_private;
use tables::{Amount, Money, Seat};

/// Returns whether an order of a seat breaks a rule of an opening whatever others do, given the
/// game as the round begins.
pub(crate) fn opening_stays(
    start: &GameView,
    seat: Seat,
    order: PlayOrder,
    rule: OpeningRule,
) -> bool
    ensures { result ≡ opening_stays start.now seat order rule }
{
    match rule {
        OpeningRule::NotOfOpening => true,
        OpeningRule::Sold => stays_sold(start, order),
        OpeningRule::BidTooLow => stays_too_low(start, order),
        OpeningRule::CashTooSmall => stays_beyond_cash(start, seat, order),
        OpeningRule::BidForCheapest => stays_for_cheapest(start, order),
        OpeningRule::NotCheapest | OpeningRule::TurnUsed => false,
    }
}

/// Returns whether the private of an order is sold.
fn stays_sold(start: &GameView, order: PlayOrder) -> bool
    ensures { result ≡ stays_sold start.now.events order }
{
    match order {
        PlayOrder::BuyPrivate(private)
        | PlayOrder::Bid { private, .. }
        | PlayOrder::Limit { private, .. } => start.is_sold(private),
        _ => false,
    }
}

/// Returns whether a bid is too low.
fn stays_too_low(start: &GameView, order: PlayOrder) -> bool
    ensures { result ≡ stays_too_low start.now.events order }
{
    match order {
        PlayOrder::Bid { private, amount } => is_too_low(start, private, amount),
        _ => false,
    }
}

/// Returns whether an order costs more than the seat has, with all that is bid on other privates.
fn stays_beyond_cash(start: &GameView, seat: Seat, order: PlayOrder) -> bool
    ensures { result ≡ stays_beyond_cash start.now seat order }
{
    match order {
        PlayOrder::BuyPrivate(private) => has_less(start, seat, price_of_private(start, private)),
        PlayOrder::Bid { amount, .. } => has_less(start, seat, amount),
        _ => false,
    }
}

/// Returns whether a seat has less than a sum, in dollars.
fn has_less(start: &GameView, seat: Seat, sum: Amount) -> bool
    ensures { result ≡ has_less start.now seat sum }
{
    start.cash(Party::Holder(Holder::Seat(seat))) < Money::from(sum)
}

/// Returns whether a bid is for the cheapest private.
fn stays_for_cheapest(start: &GameView, order: PlayOrder) -> bool
    ensures { result ≡ stays_for_cheapest start.now.events order }
{
    match order {
        PlayOrder::Bid { private, .. } => is_cheapest(start, private),
        _ => false,
    }
}
