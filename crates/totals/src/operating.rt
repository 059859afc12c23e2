//! What has happened in an operating round, and how many tokens a company has placed.
ghost use Rattle.std.specs.Prelude.{◌≡◌};
ghost use Rattle.totals.specs.Operating.{has_operated, rulings_in_round, tokens_placed};

use crate::look_back::GameView;
use events::Event;
use tables::{Company, PLAYERS_MOST, Seat};

impl GameView<'_> {
    /// Returns how many tokens a company has placed, including its home token.
    pub fn tokens_placed(&self, company: Company) -> usize
        ensures { result ≡ tokens_placed self.now.events company }
    {
        match self.totals() {
            Some(totals) => totals.tokens[company.index()],
            None => 0,
        }
    }

    /// Returns whether a company has operated since the last round began.
    pub fn has_operated(&self, company: Company) -> bool
        ensures { result ≡ has_operated self.now.events company }
    {
        match self.totals() {
            Some(totals) => totals.operated[company.index()],
            None => false,
        }
    }

    /// Returns how many lines of a seat's sheet were ruled since the last round began.
    pub fn rulings_in_round(&self, seat: Seat) -> usize
        ensures { result ≡ rulings_in_round self.now.events seat }
    {
        let number = seat.index();
        match self.totals() {
            Some(totals) if number < PLAYERS_MOST => totals.rulings[number],
            _ => count_rulings(self.events(), seat),
        }
    }
}

/// Returns how many lines of a seat's sheet were ruled since the last round began, by one pass over
/// the events.
fn count_rulings(events: &[Event], seat: Seat) -> usize
    ensures { result ≡ rulings_in_round events.now seat }
{
    let mut count = 0;
    for event in events {
        if event.round().is_some() {
            count = 0;
            continue;
        }
        if matches!(event.ruled(), Some(by) if by == seat) {
            count += 1;
        }
    }
    count
}
