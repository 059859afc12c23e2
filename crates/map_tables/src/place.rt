//! Stops, and places as orders name them. A stop that lies in two hexes has one name.
ghost use Rattle.std.specs.Prelude.{◌≡◌, ◌<◌, None};
ghost use Rattle.map_tables.specs.declared.hex.Hex.TheVariants.{A9};
ghost use Rattle.map_tables.specs.Place.{joined_stop_of, other_stop, place_of, stop_index_of, stop_of_place};

use crate::hex::Hex;

/// The number of a stop in its hex, 0 or 1, in the order in which the map or the tile prints them.
#[derive(Clone, Copy, Debug, PartialEq, Eq)]
pub enum StopNumber {
    /// 0, the only stop of most hexes.
    First,
    /// 1.
    Second,
}

impl StopNumber {
    /// Returns the number: 0 or 1.
    pub fn index(self) -> usize
        ensures value { result ≡ stop_index_of self }
        ensures bound { result < 2 }
    {
        self as usize
    }

    /// Returns the other number.
    pub fn other(self) -> StopNumber
        ensures { result ≡ other_stop self }
    {
        match self {
            StopNumber::First => StopNumber::Second,
            StopNumber::Second => StopNumber::First,
        }
    }
}

/// A stop: a town, a city or a red area, by its number in a hex.
#[derive(Clone, Copy, Debug, PartialEq, Eq)]
pub struct Stop {
    pub hex: Hex,
    pub number: StopNumber,
}

impl Stop {
    /// Returns the place that names the stop: `H12.0`.
    pub fn place(self) -> Place
        ensures { result ≡ place_of self }
    {
        Place {
            hex: self.hex,
            stop: Some(self.number),
        }
    }
}

/// A place as an order names it: a hex, `H12`, or a stop of one, `H12.0`.
#[derive(Clone, Copy, Debug, PartialEq, Eq)]
pub struct Place {
    pub hex: Hex,
    pub stop: Option<StopNumber>,
}

impl Place {
    /// Returns the stop that the place names; `None` for a hex.
    pub fn stop(self) -> Option<Stop>
        ensures { result ≡ stop_of_place self }
    {
        let number = self.stop?;
        Some(Stop {
            hex: self.hex,
            number,
        })
    }
}

/// Returns the stop that names a stop. The Gulf is one stop, named J2.0, and its part in I1 is that
/// stop too; the Canadian West is A11.0, and its part in A9 is that stop too. Every other stop
/// names itself.
#[inline]
pub fn joined_stop(stop: Stop) -> Stop
    ensures { result ≡ joined_stop_of stop }
{
    let hex = match stop.hex {
        Hex::I1 => Hex::J2,
        Hex::A9 => Hex::A11,
        hex => hex,
    };
    Stop {
        hex,
        number: stop.number,
    }
}

impl Default for Place {
    ghost is_default = { λ p. p ≡ record { hex = A9; stop = None } };

    /// Returns what fills the unused part of a run.
    fn default() -> Place {
        Place {
            hex: Hex::A9,
            stop: None,
        }
    }
}
