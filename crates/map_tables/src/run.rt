//! The run of a train, by the places that it comes to.
ghost use Rattle.std.specs.Prelude.{
  ◌≡◌,
  ◌≤◌,
  ◌<◌,
  ◌++◌,
  ◌∷◌,
  [],
  ◌↔◌,
  if◌then◌else◌,
  IsTrue,
  None,
  Some,
  length,
  nat_le,
};

use crate::place::Place;
use arrayvec::ArrayVec;
use std::marker::Model;

/// The fewest places of a run.
pub const RUN_LEAST: usize = 2;

/// The most places of a run.
pub const RUN_MOST: usize = 280;

/// The places of a run, 2 to 280, in the order in which the train comes to them.
#[derive(Debug, Drop, PartialEq, Eq)]
pub struct Run {
    places: ArrayVec<Place, RUN_MOST>,
}

/// In a contract a run is the list of its places.
impl Model for Run {
    ghost use Rattle.std.specs.Prelude.{◌≤◌, List, length};
    ghost use Rattle.map_tables.specs.declared.place.Place.{Place};

    ghost Value = { List Place };

    ghost view = { λ run. run.places.items };

    ghost invariant = { λ run. (2 ≤ length run.places.items) × (length run.places.items ≤ 280) };

    ghost inverse = { λ places. record { places = record { items = places } } };
}

impl Run {
    /// Returns a run of two places.
    pub fn new(first: Place, second: Place) -> Run
        ensures { result ≡ first ∷ second ∷ [] }
    {
        let mut places = ArrayVec::new();
        places.push(first);
        places.push(second);
        Run { places }
    }

    /// Returns the run of these places; `None` if there are fewer than two.
    pub fn from_places(places: ArrayVec<Place, RUN_MOST>) -> Option<Run>
        ensures { result ≡ (if nat_le 2 (length places.items) then Some places.items else None) }
    {
        if places.len() < RUN_LEAST {
            return None;
        }
        Some(Run { places })
    }

    /// Returns whether it has 280 places.
    pub fn is_full(&self) -> bool
        ensures full { IsTrue result ↔ (length self.now ≡ 280) }
        ensures bound { length self.now ≤ 280 }
    {
        self.places.is_full()
    }

    /// Adds a place at its end.
    pub fn push(&mut self, place: Place)
        requires { length self.old < 280 }
        ensures { self.new ≡ self.old ++ place ∷ [] }
    {
        self.places.push(place);
    }

    /// Returns the places, in order.
    pub fn as_slice(&self) -> &[Place]
        ensures places { result.now ≡ self.now }
        ensures least { 2 ≤ length self.now }
        ensures most { length self.now ≤ 280 }
    {
        self.places.as_slice()
    }

    /// Returns an equal run.
    pub fn duplicate(&self) -> Run
        ensures { result ≡ self.now }
    {
        let mut places = ArrayVec::new();
        for place in self.places.as_slice() {
            places.push(*place);
        }
        Run { places }
    }
}
