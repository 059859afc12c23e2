//! A bid: in a turn a seat bids on an unsold private that is not the cheapest, at least 5 above its
//! face value and every earlier bid on it. The bid is held until the private is sold.
ghost use Rattle.std.specs.Prelude.{◌≡◌, ◌≤◌, ◌<◌, OnOk};
ghost use Rattle.events.specs.declared.event.Event.TheVariants as event;
ghost use Rattle.totals.specs.LookBack.{with_event};
ghost use Rattle.privates.specs.Bid.{MayBid, bid_rules, is_near, is_too_low};
ghost use Rattle.privates.specs.Underway.{IsUnderway};
ghost use Rattle.tables.specs.Rules.{first_broken};

use crate::bank::{is_cheapest, is_short};
use history::{Event, GameView, History, OpeningRule};
use std::alloc::AllocError;
use tables::{Amount, BID_STEP, Private, Seat, face, rules};

/// Returns the first rule that a bid breaks.
pub(crate) fn judge_bid(
    view: &GameView,
    seat: Seat,
    private: Private,
    amount: Amount,
    turn_used: bool,
) -> Option<OpeningRule>
    ensures { result ≡ first_broken
        (bid_rules view.now.seats view.now.events seat turn_used private amount) }
{
    let owners = view.owners();
    rules! { OpeningRule
        Sold: owners.is_sold(private),
        BidTooLow: is_too_low(view, private, amount),
        CashTooSmall: is_short(view, seat, private, amount),
        TurnUsed: turn_used,
        BidForCheapest: is_cheapest(&owners, private),
    }
}

/// Returns whether a bid on a private is too low, given its face value and the highest earlier bid
/// on it.
#[tactic(auto, using(crate::proofs::BidLemmas::near_greatest))]
fn is_too_low(view: &GameView, private: Private, amount: Amount) -> bool
    ensures { result ≡ is_too_low view.now.events private amount }
{
    if u64::from(amount) < u64::from(face(private)) + u64::from(BID_STEP) {
        return true;
    }
    is_near(amount, view.greatest_bid(private))
}

/// Returns whether a sum is less than 5 above a bid, if there is one.
fn is_near(amount: Amount, bid: Option<Amount>) -> bool
    ensures { result ≡ is_near amount bid }
{
    match bid {
        Some(bid) => u64::from(amount) < u64::from(bid) + u64::from(BID_STEP),
        None => false,
    }
}

/// Bids on a private for a seat.
pub(crate) fn bid(
    history: &mut History,
    seat: Seat,
    private: Private,
    amount: Amount,
) -> Result<(), AllocError>
    requires at_table { seat.0 < history.old.seats }
    requires small { amount ≤ 99999 }
    requires may { MayBid history.old.seats history.old.events seat private amount }
    requires underway { IsUnderway history.old }
    ensures event { OnOk result (history.new
        ≡ with_event history.old (event.Bids private seat amount)) }
    ensures underway { OnOk result (IsUnderway history.new) }
{
    history.append(Event::Bids {
        private,
        seat,
        amount,
    })?;
    Ok(())
}
