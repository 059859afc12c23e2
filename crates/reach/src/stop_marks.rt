//! Marks of the stops of the map.
ghost use Rattle.std.specs.Prelude.{◌≡◌, true, false, get_or, replicate, set};
ghost use Rattle.reach.specs.Reached.{map_stops, stop_order};

use crate::stop_numbers::{STOPS, stop_order};
use map_tables::Stop;
use std::marker::Model;

/// A mark for each stop of the map. In a contract it is the list of the marks, in the order of the
/// map. Allocates nothing.
#[derive(Clone, Copy, Debug)]
pub struct StopMarks {
    marks: [bool; STOPS],
}

impl Model for StopMarks {
    ghost use Rattle.std.specs.Prelude.{◌≡◌, Bool, List, length};
    ghost use Rattle.reach.specs.Reached.{map_stops};

    ghost Value = { List Bool };

    ghost view = { λ stops. stops.marks };

    ghost invariant = { λ stops. length stops.marks ≡ map_stops };

    ghost inverse = { λ marks. record { marks = marks } };
}

impl StopMarks {
    /// Returns marks by which no stop is marked.
    pub fn none() -> StopMarks
        ensures { result ≡ replicate map_stops false }
    {
        StopMarks {
            marks: [false; STOPS],
        }
    }

    /// Returns whether a stop is marked.
    pub fn has(&self, stop: Stop) -> bool
        ensures { result ≡ get_or self.now (stop_order stop) false }
    {
        self.marks[stop_order(stop)]
    }

    /// Marks a stop.
    pub fn mark(&mut self, stop: Stop)
        ensures { self.new ≡ set self.old (stop_order stop) true }
    {
        self.marks[stop_order(stop)] = true;
    }

    /// Removes the mark of a stop.
    pub fn unmark(&mut self, stop: Stop)
        ensures { self.new ≡ set self.old (stop_order stop) false }
    {
        self.marks[stop_order(stop)] = false;
    }
}
