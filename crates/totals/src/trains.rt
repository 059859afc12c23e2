//! Trains: their owners, how many the bank has sold, and the phase.
ghost use Rattle.std.specs.Prelude.{◌≡◌};
ghost use Rattle.totals.specs.LookBack.{IsModerate};
ghost use Rattle.totals.specs.Trains.{phase_of, at_least_zero, train_count, trains_at, trains_held, trains_sold};

use crate::balances::{entry_of_train, row_of_trains};
use crate::look_back::GameView;
use events::TrainPlace;
use tables::{Company, Kind, Money};

/// A number of trains: those that came in minus those that went out, at least 0 in a sound game.
pub type TrainCount = i64;

impl GameView<'_> {
    /// Returns the trains of a kind that a company has, or those of the bank pool if there is no
    /// owner.
    pub fn trains(&self, owner: Option<Company>, kind: Kind) -> TrainCount
        ensures sum { result ≡ trains_held self.now.events owner kind }
        ensures within { IsModerate result }
    {
        self.trains_at(TrainPlace::of_owner(owner), kind)
    }

    /// Returns the trains of a kind at a place.
    fn trains_at(&self, place: TrainPlace, kind: Kind) -> TrainCount
        ensures sum { result ≡ trains_at self.now.events place kind }
        ensures within { IsModerate result }
    {
        match self.totals() {
            Some(totals) => totals.trains[entry_of_train(place, kind)] as TrainCount,
            None => 0,
        }
    }

    /// Returns how many trains a company has, or the bank pool if there is no owner.
    pub fn train_count(&self, owner: Option<Company>) -> TrainCount
        ensures sum { result ≡ train_count self.now.events owner }
        ensures within { IsModerate result }
    {
        match self.totals() {
            Some(totals) => totals.train_owners[row_of_trains(TrainPlace::of_owner(
                owner,
            ))] as TrainCount,
            None => 0,
        }
    }

    /// Returns how many trains of a kind the bank has sold; none returns to its stock.
    pub fn trains_sold(&self, kind: Kind) -> usize
        ensures { result ≡ trains_sold self.now.events kind }
    {
        self.trains_at(TrainPlace::Bank, kind).unsigned_abs() as usize
    }

    /// Returns the phase, at first that of the 2.
    pub fn phase(&self) -> Kind
        ensures { result ≡ phase_of self.now.events }
    {
        match self.totals() {
            Some(totals) => totals.phase.unwrap_or(Kind::Two),
            None => Kind::Two,
        }
    }
}

/// Returns a count, or 0 if it is negative.
pub fn at_least_zero(count: Money) -> u128
    ensures { result ≡ at_least_zero count }
{
    if count > 0 { count as u128 } else { 0 }
}
