//! How the way from one side of a hex to another bends.

use map_tables::{Rotation, Side};

/// How the way from one side of a hex to another bends.
#[derive(Clone, Copy)]
pub enum Bend {
    /// Not at all: the sides face each other.
    Straight,
    /// Round the corner after this side, to the next side.
    Sharp(Side),
    /// Past this side, between the two sides next to it.
    Gentle(Side),
}

/// Returns how the way from one side to another bends. From a side to itself it counts as straight.
pub fn bend_between(from: Side, to: Side) -> Bend {
    match (to.number() + 6 - from.number()) % 6 {
        1 => Bend::Sharp(from),
        2 => Bend::Gentle(from.turned(Rotation::One)),
        4 => Bend::Gentle(to.turned(Rotation::One)),
        5 => Bend::Sharp(to),
        _ => Bend::Straight,
    }
}

/// Returns whether the way from one side to another bends to the right: its arc is drawn clockwise.
pub(crate) fn is_clockwise(from: Side, to: Side) -> bool {
    (to.number() + 6 - from.number()) % 6 > 3
}
