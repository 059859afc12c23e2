//! The auction of a private: which bidder wins it, and what the winner pays.
ghost use Rattle.std.specs.Prelude.{◌≡◌, ◌≤◌, ◌+ℤ◌, length, pos};
ghost use Rattle.std.specs.Int.{int_max, int_min};
ghost use Rattle.privates.specs.Auction.{BidsDiffer, LimitsHold, ahead, auction_of, greater_of, highest_bid, limit_by};
ghost use Rattle.privates.specs.Auction.{second_limit, winner_among, with_limit};

use tables::{BID_STEP, Money, Seat};

/// A bidder: the seat, its bid and its limit, in dollars.
type Bidder = (Seat, Money, Money);

/// Returns the winner of an auction among some bidders, each with a bid and a limit, and what the
/// winner pays, in dollars. The greatest limit wins; if limits are equal, the higher bid. The price
/// is the second limit plus 5, but no more than the winner's limit and no less than the highest
/// bid.
///
/// There are at least two bidders, their bids differ, and no limit is under its bid.
pub fn auction(bidders: &[(Seat, Money, Money)]) -> (Seat, Money)
    requires two { 2 ≤ length bidders.now }
    requires differ { BidsDiffer bidders.now }
    requires limits { LimitsHold bidders.now }
    ensures { result ≡ auction_of bidders.now }
{
    let Some((first, others)) = bidders.split_first() else {
        return (Seat(0), 0);
    };
    let winner = winner(*first, others);
    let highest = highest_bid(*first, others);
    let second = second_limit(bidders, winner);
    (winner.0, price(winner, highest, second))
}

/// Returns what the winner pays, in dollars, given the highest bid and the second limit.
fn price(winner: Bidder, highest: Money, second: Money) -> Money
    ensures { result ≡ int_max highest (int_min (limit_by winner) (second +ℤ pos 5)) }
{
    highest.max(winner.2.min(second.saturating_add(Money::from(BID_STEP))))
}

/// Returns the winner among a bidder and others.
fn winner(first: Bidder, others: &[Bidder]) -> Bidder
    ensures { result ≡ winner_among first others.now }
{
    let mut winner = first;
    for other in others {
        winner = ahead(winner, *other);
    }
    winner
}

/// Returns who of two is ahead.
fn ahead(one: Bidder, other: Bidder) -> Bidder
    ensures { result ≡ ahead one other }
{
    let greater = one.2 < other.2;
    let higher = one.2 == other.2 && one.1 < other.1;
    if greater || higher { other } else { one }
}

/// Returns the highest bid of a bidder and others.
fn highest_bid(first: Bidder, others: &[Bidder]) -> Money
    ensures { result ≡ highest_bid first others.now }
{
    let mut highest = first.1;
    for other in others {
        highest = highest.max(other.1);
    }
    highest
}

/// Returns the greatest limit of the bidders other than the winner, or 0 if there is no other.
fn second_limit(bidders: &[Bidder], winner: Bidder) -> Money
    ensures { result ≡ second_limit winner bidders.now }
{
    let mut second = None;
    for bidder in bidders {
        second = with_limit(second, *bidder, winner);
    }
    second.unwrap_or(0)
}

/// Returns the greatest limit so far of the bidders other than the winner, with one more bidder.
fn with_limit(second: Option<Money>, bidder: Bidder, winner: Bidder) -> Option<Money>
    ensures { result ≡ with_limit winner second bidder }
{
    if bidder.1 == winner.1 {
        return second;
    }
    Some(greater(second, bidder.2))
}

/// Returns the greater of two sums, if there are two.
fn greater(one: Option<Money>, other: Money) -> Money
    ensures { result ≡ greater_of one other }
{
    match one {
        Some(one) => one.max(other),
        None => other,
    }
}
