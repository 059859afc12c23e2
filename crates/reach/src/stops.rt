//! The stops that a company reaches, found without allocating.
ghost use Rattle.std.specs.Prelude.{◌≡◌, ◌+◌, ◌<◌, ◌≤◌, ◌↔◌, ◌++◌, ◌∷◌, [], IsTrue, length};
ghost use Rattle.reach.specs.Position.{IsAmong};
ghost use Rattle.reach.specs.Reached.{AreSortedBy, map_stops, stop_order};
ghost use Rattle.reach.specs.Search.{AreMarkedStops, IsPushed};
ghost use Rattle.reach.specs.Stops.{AreReachedStops};

use crate::link_visitor::Forgetful;
use crate::network::Network;
use crate::search::{Marks, mark_tokens, search};
use crate::stop_marks::StopMarks;
use crate::stop_numbers::STOPS;
use map_tables::{HEXES, Hex, Stop, StopNumber};
use std::marker::Model;
use tables::Company;

/// The stops that a company reaches. In a contract it is the list of them, in the order of the map.
/// A stop that lies in two hexes is listed once, under its own name.
#[derive(Drop)]
pub struct ReachedStops {
    stops: [Stop; STOPS],
    count: usize,
    marks: StopMarks,
}

impl Model for ReachedStops {
    ghost use Rattle.std.specs.Prelude.{◌≡◌, ◌≤◌, List, length, take};
    ghost use Rattle.map_tables.specs.declared.place.Stop.{Stop};
    ghost use Rattle.reach.specs.Stops.{marks_of};
    ghost use Rattle.reach.specs.Reached.{map_stops};

    ghost Value = { List Stop };

    ghost view = { λ reached. take reached.count reached.stops };

    ghost invariant = { λ reached. (reached.count ≤ map_stops) × (length reached.stops ≡ map_stops)
        × (reached.marks ≡ marks_of (take reached.count reached.stops)) };
}

impl ReachedStops {
    /// Returns an empty list.
    fn none() -> ReachedStops
        ensures { result ≡ [] }
    {
        let any = Stop {
            hex: Hex::A9,
            number: StopNumber::First,
        };
        ReachedStops {
            stops: [any; STOPS],
            count: 0,
            marks: StopMarks::none(),
        }
    }

    /// Appends a stop.
    fn push(&mut self, stop: Stop)
        requires { length self.old < map_stops }
        ensures { self.new ≡ self.old ++ stop ∷ [] }
    {
        self.stops[self.count] = stop;
        self.count += 1;
        self.marks.mark(stop);
    }

    /// Returns the stops, in the order of the map, 186 at most.
    pub fn stops(&self) -> &[Stop]
        ensures value { result.now ≡ self.now }
        ensures bound { length self.now ≤ map_stops }
    {
        &self.stops[..self.count]
    }

    /// Returns whether a stop is one of them.
    pub fn has(&self, stop: Stop) -> bool
        ensures { IsTrue result ↔ IsAmong stop self.now }
    {
        self.marks.has(stop)
    }
}

/// Returns the stops that a company reaches: those where it has tokens, and each stop that a walk
/// from there touches. They are the stops that `reached` finds. Allocates nothing.
pub fn reached_stops<N: Network>(network: &N, company: Company) -> ReachedStops
    ensures { AreReachedStops (N.position network.now) company result }
{
    network.keeps_laws();
    let mut marks = Marks::none();
    mark_tokens(network, company, &mut marks);
    match search(network, company, &mut marks, &mut Forgetful) {
        Ok(()) => marked_stops(&marks),
        Err(never) => match never {},
    }
}

/// Returns the stops that are marked, in the order of the map.
pub(crate) fn marked_stops(marks: &Marks) -> ReachedStops
    ensures marked { AreMarkedStops marks.now.marks result }
    ensures in_order { AreSortedBy stop_order result }
{
    let mut stops = ReachedStops::none();
    for index in 0..HEXES {
        let hex = Hex::at_index(index);
        let first = StopNumber::First;
        let second = StopNumber::Second;
        push_marked(marks, Stop { hex, number: first }, &mut stops);
        push_marked(
            marks,
            Stop {
                hex,
                number: second,
            },
            &mut stops,
        );
    }
    stops
}

/// Appends a stop if it is marked and is listed under its own name.
fn push_marked(marks: &Marks, stop: Stop, stops: &mut ReachedStops)
    requires { length stops.old < map_stops }
    ensures pushed { IsPushed marks.now.marks stop stops.old stops.new }
    ensures few { length stops.new ≤ length stops.old + 1 }
{
    if marks.has_stop(stop) {
        stops.push(stop);
    }
}
