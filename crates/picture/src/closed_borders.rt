//! The sides of a hex whose borders are closed.
ghost use Rattle.std.specs.Prelude.{◌≡◌};
ghost use Rattle.picture.specs.ClosedSides.{is_closed_side};

use map_tables::{Hex, Side, adjacent, neighbour};

/// Returns whether the border to another hex at a side of a hex is closed.
pub fn is_closed_side(hex: Hex, side: Side) -> bool
    ensures { result ≡ is_closed_side hex side }
{
    adjacent(hex, side).is_some() && neighbour(hex, side).is_none()
}
