//! The spots that a search has still to look at, in few bytes.
ghost use Rattle.std.specs.Prelude.{◌≡◌, ◌+◌, ◌<◌, ◌++◌, ◌∷◌, [], MatchOption, length};
ghost use Rattle.reach.specs.HeldSpots.{end_at, held_spot};
ghost use Rattle.reach.specs.Search.{map_spots};

use crate::stop_numbers::SPOTS;
use crate::walk::Spot;
use map_tables::{Hex, Side, StopNumber, TrackEnd};
use std::marker::Model;

/// A spot in two bytes: its hex, and its end by its place in the order of the ends of a hex.
#[derive(Clone, Copy)]
struct HeldSpot {
    hex: Hex,
    end: u8,
}

/// What fills the unused part: the place of no end. (Zeros would join the marks beside it to one
/// area of more than 2 KB, which is cleared byte by byte.)
const NO_END: u8 = 255;

impl HeldSpot {
    /// Returns a spot in two bytes.
    fn of(spot: Spot) -> HeldSpot
        ensures { held_spot result ≡ spot }
    {
        HeldSpot {
            hex: spot.hex,
            end: spot.end.order() as u8,
        }
    }

    /// Returns the spot.
    fn spot(self) -> Spot
        ensures { result ≡ held_spot self }
    {
        Spot {
            hex: self.hex,
            end: end_at(self.end),
        }
    }
}

/// Returns the end at a place in the order of the ends of a hex; the last one for a greater number.
pub fn end_at(place: u8) -> TrackEnd
    ensures { result ≡ end_at place }
{
    if place > 6 {
        return TrackEnd::Stop(StopNumber::Second);
    }
    match place {
        0 => TrackEnd::Side(Side::SouthWest),
        1 => TrackEnd::Side(Side::West),
        2 => TrackEnd::Side(Side::NorthWest),
        3 => TrackEnd::Side(Side::NorthEast),
        4 => TrackEnd::Side(Side::East),
        5 => TrackEnd::Side(Side::SouthEast),
        _ => TrackEnd::Stop(StopNumber::First),
    }
}

/// The waiting spots, at most as many as the map has. In a contract they are the list of them.
#[derive(Drop)]
pub(crate) struct Waiting {
    spots: [HeldSpot; SPOTS],
    count: usize,
}

impl Model for Waiting {
    ghost use Rattle.std.specs.Prelude.{◌≡◌, ◌≤◌, List, length, map, take};
    ghost use Rattle.reach.specs.declared.walk.Spot.{Spot};
    ghost use Rattle.reach.specs.HeldSpots.{held_spot};
    ghost use Rattle.reach.specs.Search.{map_spots};

    ghost Value = { List Spot };

    ghost view = { λ waiting. map held_spot (take waiting.count waiting.spots) };

    ghost invariant = { λ waiting.
        (waiting.count ≤ map_spots) × (length waiting.spots ≡ map_spots) };
}

impl Waiting {
    /// Returns no spots.
    pub(crate) fn none() -> Waiting
        ensures { result ≡ [] }
    {
        let none = HeldSpot {
            hex: Hex::A9,
            end: NO_END,
        };
        Waiting {
            spots: [none; SPOTS],
            count: 0,
        }
    }

    /// Appends a spot. There must be room.
    pub(crate) fn push(&mut self, spot: Spot)
        requires { length self.old < map_spots }
        ensures { self.new ≡ self.old ++ spot ∷ [] }
    {
        self.spots[self.count] = HeldSpot::of(spot);
        self.count += 1;
    }

    /// Removes and returns the last spot; `None` if there is none.
    pub(crate) fn pop(&mut self) -> Option<Spot>
        ensures { MatchOption result ((self.old ≡ []) × (self.new ≡ []))
            (λ spot. self.old ≡ self.new ++ spot ∷ []) }
    {
        if self.count == 0 {
            return None;
        }
        self.count -= 1;
        Some(self.spots[self.count].spot())
    }
}
