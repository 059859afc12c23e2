//! The ends in hexes that a walk goes between, and the links that are its steps.
ghost use Rattle.std.specs.Prelude.{◌≡◌};
ghost use Rattle.map_tables.specs.declared.hex.Hex.TheVariants.{A9};
ghost use Rattle.map_tables.specs.declared.side.Side.TheVariants.{SouthWest};
ghost use Rattle.map_tables.specs.declared.track.TrackEnd.TheVariants.{Side as AtSide};
ghost use Rattle.reach.specs.Walk.{across, entered_at, left_at, stop_of};

use map_tables::{Hex, Link, Side, Stop, TrackEnd, joined_stop, neighbour};

/// An end in a hex: one of its sides, or one of its stops.
#[derive(Clone, Copy, Debug, PartialEq, Eq)]
pub struct Spot {
    pub hex: Hex,
    pub end: TrackEnd,
}

impl Default for Spot {
    ghost is_default = { λ spot. spot ≡ record { hex = A9; end = AtSide SouthWest } };

    /// Returns what fills the unused part of a table.
    fn default() -> Spot {
        Spot {
            hex: Hex::A9,
            end: TrackEnd::Side(Side::SouthWest),
        }
    }
}

impl Spot {
    /// Returns the stop there, under its own name; `None` for a side.
    pub fn stop(self) -> Option<Stop>
        ensures { result ≡ stop_of self }
    {
        match self.end {
            TrackEnd::Side(_) => None,
            TrackEnd::Stop(number) => Some(joined_stop(Stop {
                hex: self.hex,
                number,
            })),
        }
    }

    /// Returns the other side of the border, if it is a side; `None` at the edge of the map, or if
    /// the border is closed.
    pub fn across(self) -> Option<Spot>
        ensures { result ≡ across self }
    {
        match self.end {
            TrackEnd::Side(side) => {
                let hex = neighbour(self.hex, side)?;
                Some(Spot {
                    hex,
                    end: TrackEnd::Side(side.facing()),
                })
            }
            TrackEnd::Stop(_) => None,
        }
    }
}

/// A link in the direction of a walk: from its first end to its second, or turned, from its second
/// to its first.
#[derive(Clone, Copy, Debug, PartialEq, Eq)]
pub struct WalkStep {
    pub link: Link,
    pub turned: bool,
}

impl WalkStep {
    /// Returns where the step enters its link.
    pub fn entered(self) -> Spot
        ensures { result ≡ entered_at self }
    {
        Spot {
            hex: self.link.hex,
            end: if self.turned {
                self.link.b
            } else {
                self.link.a
            },
        }
    }

    /// Returns where the step leaves its link.
    pub fn left(self) -> Spot
        ensures { result ≡ left_at self }
    {
        Spot {
            hex: self.link.hex,
            end: if self.turned {
                self.link.a
            } else {
                self.link.b
            },
        }
    }
}
