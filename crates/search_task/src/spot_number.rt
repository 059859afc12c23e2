//! The numbers of spots.
ghost use Rattle.std.specs.Prelude.{◌≡◌, ◌<◌};
ghost use Rattle.reach.specs.Search.{map_spots};

use std::marker::Model;

/// The number of a spot of the map, from 0 to 743. In a contract it is the number.
#[derive(Clone, Copy)]
pub struct SpotNumber {
    number: usize,
}

impl Model for SpotNumber {
    ghost use Rattle.std.specs.Prelude.{◌<◌, ℕ};
    ghost use Rattle.reach.specs.Search.{map_spots};

    ghost Value = { ℕ };

    ghost view = { λ spot. spot.number };

    ghost invariant = { λ spot. spot.number < map_spots };

    ghost inverse = { λ number. record { number = number } };
}

impl SpotNumber {
    /// Returns a number as that of a spot.
    #[inline(always)]
    pub fn of(number: usize) -> SpotNumber
        requires { number < map_spots }
        ensures { result ≡ number }
    {
        SpotNumber { number }
    }

    /// Returns the number, from 0 to 743, as an index.
    #[inline(always)]
    pub fn index(self) -> usize
        ensures value { result ≡ self }
        ensures bound { result < map_spots }
    {
        self.number
    }
}
