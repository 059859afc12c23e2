//! Shares of the companies, their par values, squares and presidents.
ghost use Rattle.std.specs.Prelude.{◌≡◌, option_map, pos};
ghost use Rattle.totals.specs.LookBack.{IsModerate};
ghost use Rattle.totals.specs.Totals.{at_company};
ghost use Rattle.totals.specs.Shares.{arrival_of, has_sold_in_round, is_floated, is_started, par_of, president_of};
ghost use Rattle.totals.specs.Shares.{shares_of, square_of, start_shares};

use crate::balances::entry_of_shares;
use crate::event_folds::{InRound, balance, last_said};
use crate::event_topics::{SaleBy, Shares};
use crate::look_back::GameView;
use events::Shareholder;
use tables::{Amount, COMPANIES, Company, Money, PLAYERS_MOST, PerCompany, SHARES, Seat, Square};

/// A number of shares of a company: what came in minus what went out, from 0 to 10 in a sound game.
pub type ShareCount = i128;

impl GameView<'_> {
    /// Returns the shares of a company at a place.
    pub fn shares(&self, company: Company, place: Shareholder) -> ShareCount
        ensures sum { result ≡ shares_of self.now.events company place }
        ensures within { IsModerate result }
    {
        let start = start_shares(place);
        let entry = entry_of_shares(company, place);
        match self.totals() {
            Some(totals) if entry < totals.shares.len() => ShareCount::from(start)
                + totals.shares[entry],
            _ => balance(&Shares(company, place), start, self.events()),
        }
    }

    /// Returns a company's par value in dollars; `None` while it has none.
    pub fn par(&self, company: Company) -> Option<Money>
        ensures { result ≡ option_map pos (par_of self.now.events company) }
    {
        self.par_set(company).map(Money::from)
    }

    /// Returns a company's par value as the sum that an event sets.
    fn par_set(&self, company: Company) -> Option<Amount>
        ensures { result ≡ par_of self.now.events company }
    {
        match self.totals() {
            Some(totals) => totals.pars[company.index()],
            None => None,
        }
    }

    /// Returns whether a company has started: its token has a square.
    pub fn is_started(&self, company: Company) -> bool
        ensures { result ≡ is_started self.now.events company }
    {
        self.square(company).is_some()
    }

    /// Returns whether a company has floated.
    pub fn floated(&self, company: Company) -> bool
        ensures { result ≡ is_floated self.now.events company }
    {
        match self.totals() {
            Some(totals) => totals.floats[company.index()].is_some(),
            None => false,
        }
    }

    /// Returns whether a seat has sold shares of a company since the last round began.
    pub fn has_sold_in_round(&self, company: Company, seat: Seat) -> bool
        ensures { result ≡ has_sold_in_round self.now.events company seat }
    {
        let number = seat.index();
        match self.totals() {
            Some(totals) if number < PLAYERS_MOST => totals.sales[company.index()][number],
            _ => last_said(&InRound(SaleBy(company, seat)), self.events())
                .flatten()
                .is_some(),
        }
    }

    /// Returns the square of a company's token.
    pub fn square(&self, company: Company) -> Option<Square>
        ensures { result ≡ square_of self.now.events company }
    {
        match self.totals() {
            Some(totals) => totals.squares[company.index()],
            None => None,
        }
    }

    /// Returns the square of each company's token, by the places of the companies.
    pub fn squares(&self) -> PerCompany<Option<Square>>
        ensures { (company : Company) →
            at_company result company ≡ square_of self.now.events company }
    {
        match self.totals() {
            Some(totals) => totals.squares,
            None => [None; COMPANIES],
        }
    }

    /// Returns the place in the list, from 0, of the event that set the square of a company's
    /// token: the less it is, the earlier the token arrived there. It is 0 if the token has no
    /// square.
    pub fn arrival(&self, company: Company) -> usize
        ensures { result ≡ arrival_of self.now.events company }
    {
        match self.totals() {
            Some(totals) => totals.arrivals[company.index()].unwrap_or(0),
            None => 0,
        }
    }

    /// Returns a company's president.
    pub fn president(&self, company: Company) -> Option<Seat>
        ensures { result ≡ president_of self.now.events company }
    {
        match self.totals() {
            Some(totals) => totals.presidents[company.index()],
            None => None,
        }
    }

    /// Returns the president of each company, by the places of the companies.
    pub fn presidents(&self) -> PerCompany<Option<Seat>>
        ensures { (company : Company) →
            at_company result company ≡ president_of self.now.events company }
    {
        match self.totals() {
            Some(totals) => totals.presidents,
            None => [None; COMPANIES],
        }
    }
}

/// Returns how many shares of a company are at a place at first.
fn start_shares(place: Shareholder) -> Amount
    ensures { result ≡ start_shares place }
{
    match place {
        Shareholder::InitialOffering => SHARES,
        _ => 0,
    }
}
