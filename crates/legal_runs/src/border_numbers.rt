//! The numbers of the borders of the map.
ghost use Rattle.std.specs.Prelude.{◌≡◌, ◌<◌};
ghost use Rattle.legal_runs.specs.Legal.{border_of, map_borders};
ghost use Rattle.map_tables.specs.Border.{neighbour_of};

use map_tables::{HEXES, Hex, Side, neighbour};

/// The number of borders that get their numbers from one hex: those at its sides 0, 1 and 2.
const NUMBERED: usize = 3;

/// The number of border numbers.
pub const BORDERS: usize = NUMBERED * HEXES;

/// Returns the number of the border at a side of a hex.
pub(crate) fn border(hex: Hex, side: Side) -> usize
    ensures value { result ≡ border_of hex side }
    ensures bound { result < map_borders }
{
    border_to(hex, side, neighbour(hex, side))
}

/// Returns the number of the border at a side of a hex, given its neighbour there.
#[tactic(auto, unfolding(crate::specs::Legal::border_of))]
pub fn border_to(hex: Hex, side: Side, beyond: Option<Hex>) -> usize
    requires { beyond ≡ neighbour_of hex side }
    ensures value { result ≡ border_of hex side }
    ensures bound { result < map_borders }
{
    let number = side.number();
    if number < NUMBERED {
        return NUMBERED * hex.index() + number;
    }
    match beyond {
        Some(other) => NUMBERED * other.index() + (number - NUMBERED),
        None => number - NUMBERED,
    }
}
