//! Standing bids, and the limits, par values and sums that go with them.
ghost use Rattle.std.specs.Prelude.{◌≡◌, ◌^◌, ◌<◌, ◌≤◌, option_map, pos};
ghost use Rattle.totals.specs.Orders.{bid_limit_of, par_ordered_of};
ghost use Rattle.totals.specs.Bids.{AppliesBidOn, AreStanding, bid_of, bids_elsewhere_of, bids_of, bids_on};
ghost use Rattle.totals.specs.Bids.{free_cash_of, greatest_bid_of};
ghost use Rattle.totals.specs.Bids.{free_for, tied_on};

use crate::event_folds::{InRound, last_said};
use crate::event_topics::{BidOn, LimitOn, ParOrdered};
use crate::look_back::GameView;
use arrayvec::ArrayVec;
use events::{Bid, Bidding, Holder, Party};
use tables::{Amount, Money, PLAYERS_MOST, PerSeat, Private, Seat};

impl GameView<'_> {
    /// Returns a seat's standing bid on a private, in dollars.
    pub fn bid(&self, private: Private, seat: Seat) -> Option<Money>
        ensures { result ≡ option_map pos (bid_of self.now.events private seat) }
    {
        self.standing_bid(private, seat).map(Money::from)
    }

    /// Returns a seat's standing bid on a private, as the sum that an order names.
    pub fn standing_bid(&self, private: Private, seat: Seat) -> Option<Amount>
        ensures { result ≡ bid_of self.now.events private seat }
    {
        let number = seat.index();
        match self.totals() {
            Some(totals) if number < PLAYERS_MOST => totals.bids[private.index()][number],
            _ => last_said(&BidOn(private, seat), self.events()).flatten(),
        }
    }

    /// Returns the standing bids on a private, in the order of the seats.
    pub fn bids_on(&self, private: Private) -> ArrayVec<Bid, PLAYERS_MOST>
        requires { self.now.seats ≤ 6 }
        ensures { result.items ≡ bids_on self.now.seats self.now.events private }
    {
        let standing = self.standing_by_seat(private);
        let mut bids = ArrayVec::new();
        for number in 0..self.seats() {
            let seat = Seat::at(number);
            if let Some(amount) = standing[number] {
                bids.push(Bid { seat, amount });
            }
        }
        bids
    }

    /// Returns the standing bid of each of six seats on a private.
    fn standing_by_seat(&self, private: Private) -> PerSeat<Option<Amount>>
        ensures { AreStanding self.now.events private result }
    {
        match self.totals() {
            Some(totals) => totals.bids[private.index()],
            None => [None; PLAYERS_MOST],
        }
    }

    /// Returns the greatest bid that was ever made on a private, in dollars, whether or not it
    /// still holds; `None` if nobody has bid on it.
    pub fn greatest_bid(&self, private: Private) -> Option<Amount>
        ensures { result ≡ greatest_bid_of self.now.events private }
    {
        match self.totals() {
            Some(totals) => totals.greatest_bids[private.index()],
            None => None,
        }
    }

    /// Returns the limit of a seat in an auction of a private, in dollars, by its last obeyed LIMIT
    /// line of this round.
    pub fn limit(&self, private: Private, seat: Seat) -> Option<Amount>
        ensures { result ≡ bid_limit_of self.now.events private seat }
    {
        let number = seat.index();
        match self.totals() {
            Some(totals) if number < PLAYERS_MOST => totals.limits[private.index()][number],
            _ => last_said(&InRound(LimitOn(private, seat)), self.events()).flatten(),
        }
    }

    /// Returns the par value that a seat sets for BO if it buys BOP, by its last obeyed standing
    /// PAR line.
    pub fn par_ordered(&self, seat: Seat) -> Option<Amount>
        ensures { result ≡ par_ordered_of self.now.events seat }
    {
        let number = seat.index();
        match self.totals() {
            Some(totals) if number < PLAYERS_MOST => totals.par_orders[number],
            _ => last_said(&ParOrdered(seat), self.events()),
        }
    }

    /// Returns the sum of a seat's standing bids, in dollars.
    pub fn bids_of(&self, seat: Seat) -> Money
        ensures sum { result ≡ pos (bids_of self.now.events seat) }
        ensures within { bids_of self.now.events seat < 2 ^ 35 }
    {
        let mut sum: u64 = 0;
        for &private in &Private::ALL {
            sum += u64::from(self.tied_on(seat, private));
        }
        Money::from(sum)
    }

    /// Returns what a seat can spend on a private, in dollars: its cash minus its standing bids on
    /// the others.
    pub fn free_for(&self, seat: Seat, private: Private) -> Money
        ensures { result ≡ free_for self.now.seats self.now.events seat private }
    {
        self.cash(Party::Holder(Holder::Seat(seat))) - self.bids_elsewhere(seat, private)
    }

    /// Returns the sum of a seat's standing bids on all privates but one, in dollars.
    pub fn bids_elsewhere(&self, seat: Seat, private: Private) -> Money
        ensures sum { result ≡ pos (bids_elsewhere_of self.now.events seat private) }
        ensures within { bids_elsewhere_of self.now.events seat private < 2 ^ 35 }
    {
        self.bids_of(seat) - Money::from(self.tied_on(seat, private))
    }

    /// Returns a seat's cash minus its standing bids, in dollars.
    pub fn free_cash(&self, seat: Seat) -> Money
        ensures { result ≡ free_cash_of self.now.seats self.now.events seat }
    {
        self.cash(Party::Holder(Holder::Seat(seat))) - self.bids_of(seat)
    }

    /// Returns the cash that a seat's standing bid on a private ties up, in dollars.
    fn tied_on(&self, seat: Seat, private: Private) -> Amount
        ensures { result ≡ tied_on self.now.events seat private }
    {
        self.standing_bid(private, seat).unwrap_or(0)
    }
}

/// Applies what an event does to the bids on a private, in a table of the seats' standing bids.
pub(crate) fn apply_bid_on(
    standing: &mut PerSeat<Option<Amount>>,
    private: Private,
    bidding: Option<Bidding>,
)
    ensures { AppliesBidOn private bidding standing.old standing.new }
{
    match bidding {
        Some(Bidding::Made(other, bid)) => {
            let number = bid.seat.index();
            if other == private && number < PLAYERS_MOST {
                standing[number] = Some(bid.amount);
            }
        }
        Some(Bidding::Ended(other)) => {
            if other == private {
                *standing = [None; PLAYERS_MOST];
            }
        }
        None => {}
    }
}
