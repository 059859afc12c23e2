//! A view of a game after some of its events, with its readers of cash, of the owners of privates,
//! of the round, and of priority.
ghost use Rattle.std.specs.Prelude.{◌≡◌, MatchOption, None, Some, [], length};
ghost use Rattle.std.specs.Borrow.{Bor};
ghost use Rattle.std.specs.Option.{ForSome};
ghost use Rattle.events.specs.Event.{actor_of};
ghost use Rattle.totals.specs.Totals.{AreTotalsOf};
ghost use Rattle.totals.specs.Offers.{AreOffersOf};
ghost use Rattle.totals.specs.declared.totals.Totals.{Totals as TheTotals};
ghost use Rattle.totals.specs.LookBack.{FitsMemory, IsModerate, bankrupt_in, broken_in, cash_of, cheapest_in};
ghost use Rattle.totals.specs.LookBack.{cheapest_of, is_sold, is_sold_in, last_said, owner_in, owner_of, priority_of};
ghost use Rattle.totals.specs.LookBack.{round_of, start_of, sv_price_of};

use crate::balances::entry_of_party;
use crate::event_folds::balance;
use crate::event_topics::Cash;
use crate::owners::Owners;
use crate::totals::Totals;
use events::{Event, Holder, Offer, Party};
use std::marker::Model;
use tables::{Amount, Money, Private, Round, Seat, bank_start, face, start_money};

/// A game after a list of events: the number of seats and the events.
#[derive(Drop)]
pub struct GameView<'a> {
    /// How many seats there are.
    seats: usize,
    /// The events so far, oldest first.
    events: &'a [Event],
    /// Their totals; `None` only if there are no events.
    totals: Option<&'a Totals>,
    /// The sales offered in the round that began last; `None` if they are not kept.
    offers: Option<&'a [(Seat, Offer)]>,
}

/// In a contract it is its seats and its events.
impl<'a> Model for GameView<'a> {
    ghost use Rattle.std.specs.Prelude.{◌≡◌, None, Some, length};
    ghost use Rattle.std.specs.Borrow.{Bor};
    ghost use Rattle.std.specs.Option.{ForSome};
    ghost use Rattle.totals.specs.LookBack.{FitsMemory, Game};
    ghost use Rattle.totals.specs.Offers.{AreOffersOf};
    ghost use Rattle.totals.specs.Totals.{AreTotalsOf};
    ghost use Rattle.totals.specs.declared.totals.Totals.{Totals as TheTotals};

    ghost Value = { Game };

    ghost view = { λ v. record { seats = v.seats; events = v.events.now } };

    ghost invariant = { λ v. FitsMemory v.events.now
        × (v.totals ≡ None → length v.events.now ≡ 0)
        × ((all : Bor TheTotals) → v.totals ≡ Some all → AreTotalsOf all.now v.events.now)
        × ForSome v.offers (λ all. AreOffersOf all.now v.events.now) };
}

impl<'a> GameView<'a> {
    /// Returns a view of a game after these events, given their totals.
    pub fn of(seats: usize, events: &'a [Event], totals: &'a Totals) -> GameView<'a>
        requires short { FitsMemory events.now }
        requires kept { AreTotalsOf totals.now events.now }
        ensures { result ≡ record { seats = seats; events = events.now } }
    {
        GameView {
            seats,
            events,
            totals: Some(totals),
            offers: None,
        }
    }

    /// Returns a view of a game after these events, given their totals and the sales offered in the
    /// round. The totals may be missing if there are no events.
    pub fn with_totals(
        seats: usize,
        events: &'a [Event],
        totals: Option<&'a Totals>,
        offers: &'a [(Seat, Offer)],
    ) -> GameView<'a>
        requires short { FitsMemory events.now }
        requires kept { MatchOption totals (events.now ≡ []) (λ all. AreTotalsOf all.now events.now) }
        requires offered { AreOffersOf offers.now events.now }
        ensures { result ≡ record { seats = seats; events = events.now } }
    {
        GameView {
            seats,
            events,
            totals,
            offers: Some(offers),
        }
    }

    /// Returns the totals; `None` is possible only if there are no events.
    pub(crate) fn totals(&self) -> Option<&'a Totals>
        ensures short { FitsMemory self.now.events }
        ensures totals { MatchOption result (self.now.events ≡ [])
            (λ totals. AreTotalsOf totals.now self.now.events) }
    {
        self.totals
    }

    /// Returns how many seats there are.
    pub fn seats(&self) -> usize
        ensures { result ≡ self.now.seats }
    {
        self.seats
    }

    /// Returns the events so far, oldest first.
    pub fn events(&self) -> &'a [Event]
        ensures events { result.now ≡ self.now.events }
        ensures short { FitsMemory result.now }
    {
        self.events
    }

    /// Returns the sales offered in the round that began last, if they are kept.
    pub(crate) fn offers(&self) -> Option<&'a [(Seat, Offer)]>
        ensures { ForSome result (λ offers. AreOffersOf offers.now self.now.events) }
    {
        self.offers
    }
}

impl GameView<'_> {
    /// Returns a party's cash, in dollars: its start money, plus all that came in, minus all that
    /// went out. The bank's may be negative.
    pub fn cash(&self, party: Party) -> Money
        ensures sum { result ≡ cash_of self.now.seats self.now.events party }
        ensures within { IsModerate result }
    {
        let start = start_of(self.seats(), party);
        let entry = entry_of_party(party);
        match self.totals() {
            Some(totals) if entry < totals.cash.len() => Money::from(start) + totals.cash[entry],
            _ => balance(&Cash(party), start, self.events()),
        }
    }

    /// Returns who owns a private; `None` while it is unsold, and once it is closed.
    pub fn owner(&self, private: Private) -> Option<Holder>
        ensures { result ≡ owner_of self.now.events private }
    {
        self.owners().owner(private)
    }

    /// Returns whether a private has been sold.
    pub fn is_sold(&self, private: Private) -> bool
        ensures { result ≡ is_sold self.now.events private }
    {
        self.owners().is_sold(private)
    }

    /// Returns the owners of all privates, as the totals have them.
    pub fn owners(&self) -> Owners
        ensures owner { (private : Private) →
            owner_in result private ≡ owner_of self.now.events private }
        ensures sold { (private : Private) →
            is_sold_in result private ≡ is_sold self.now.events private }
        ensures cheapest { cheapest_in result ≡ cheapest_of self.now.events }
    {
        match self.totals() {
            Some(totals) => totals.owners,
            None => Owners::unsold(),
        }
    }

    /// Returns the first private in roster order that is unsold.
    pub fn cheapest_unsold(&self) -> Option<Private>
        ensures { result ≡ cheapest_of self.now.events }
    {
        self.owners().cheapest_unsold()
    }

    /// Returns the price of SV in dollars, at first its face value.
    pub fn sv_price(&self) -> Amount
        ensures { result ≡ sv_price_of self.now.events }
    {
        match self.totals() {
            Some(totals) => totals.sv_price.unwrap_or(face(Private::SchuylkillValley)),
            None => face(Private::SchuylkillValley),
        }
    }

    /// Returns whether the bank is broken.
    pub fn broken(&self) -> bool
        ensures { result ≡ broken_in self.now.events }
    {
        match self.totals() {
            Some(totals) => totals.broken,
            None => false,
        }
    }

    /// Returns whether a president is bankrupt, so that the game is over.
    pub fn bankrupt(&self) -> bool
        ensures { result ≡ bankrupt_in self.now.events }
    {
        match self.totals() {
            Some(totals) => totals.bankrupt,
            None => false,
        }
    }

    /// Returns the round that began last; `None` before the first.
    pub fn round(&self) -> Option<Round>
        ensures { result ≡ round_of self.now.events }
    {
        match self.totals() {
            Some(totals) => totals.round,
            None => None,
        }
    }

    /// Returns the holder of priority: the seat to the left of the last seat that bought a private,
    /// bid on one, or bought or sold shares in its own turn. At first it is seat 0.
    pub fn priority(&self) -> Seat
        ensures { result ≡ priority_of self.now.seats self.now.events }
    {
        match self.actor() {
            Some(actor) => actor.left(self.seats()),
            None => Seat(0),
        }
    }

    /// Returns the last seat that bought a private, bid on one, or bought or sold shares in its own
    /// turn.
    fn actor(&self) -> Option<Seat>
        ensures { result ≡ last_said actor_of self.now.events }
    {
        match self.totals() {
            Some(totals) => totals.actor,
            None => None,
        }
    }
}

/// Returns what a party begins with, in dollars.
fn start_of(seats: usize, party: Party) -> Amount
    ensures { result ≡ start_of seats party }
{
    match party {
        Party::Bank => bank_start(seats),
        Party::Holder(Holder::Seat(_)) => start_money(seats),
        Party::Holder(Holder::Company(_)) => 0,
    }
}
