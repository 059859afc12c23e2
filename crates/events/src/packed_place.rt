//! A place of a run as a ruling keeps it.
ghost use Rattle.std.specs.Prelude.{◌≡◌};

use map_tables::{Hex, Place, StopNumber};
use std::marker::Model;

/// A place in two bytes.
#[derive(Clone, Copy)]
pub(crate) struct PackedPlace {
    hex: Hex,
    stop: PackedStop,
}

/// The stop that a place names, if it names one, in one byte.
#[derive(Clone, Copy)]
pub(crate) enum PackedStop {
    None,
    First,
    Second,
}

impl Model for PackedPlace {
    ghost use Rattle.events.specs.PackedPlace.{place_in, packed_stop};
    ghost use Rattle.map_tables.specs.declared.place.Place.{Place};

    ghost Value = { Place };

    ghost view = { λ packed. place_in packed.hex packed.stop };

    ghost inverse = { λ place. record { hex = place.hex; stop = packed_stop place.stop } };
}

impl PackedPlace {
    /// Packs a place.
    pub(crate) fn of(place: Place) -> PackedPlace
        ensures { result ≡ place }
    {
        let stop = match place.stop {
            None => PackedStop::None,
            Some(StopNumber::First) => PackedStop::First,
            Some(StopNumber::Second) => PackedStop::Second,
        };
        PackedPlace {
            hex: place.hex,
            stop,
        }
    }

    /// Returns the place that is packed.
    pub(crate) fn place(self) -> Place
        ensures { result ≡ self }
    {
        let stop = match self.stop {
            PackedStop::None => None,
            PackedStop::First => Some(StopNumber::First),
            PackedStop::Second => Some(StopNumber::Second),
        };
        Place {
            hex: self.hex,
            stop,
        }
    }
}
