//! What lies beyond a side of a hex to which no track may lead.
ghost use Rattle.std.specs.Prelude.{◌≡◌};
ghost use Rattle.desk_base.specs.Beyond.{beyond_hex, beyond_side};

use crate::text::Piece::Bytes;
use crate::text::fill;
use map_tables::{Hex, Side, adjacent, neighbour};
use std::alloc::AllocError;

/// What lies beyond a side of a hex.
#[derive(Clone, Copy)]
pub enum Beyond {
    /// Nothing: the map ends there.
    MapEnd,
    /// This hex, beyond a closed border.
    ClosedBorder(Hex),
    /// This hex, and the border is open.
    OpenBorder(Hex),
}

/// Returns what lies beyond a side of a hex.
pub fn beyond_side(hex: Hex, side: Side) -> Beyond
    ensures { result ≡ beyond_side hex side }
{
    match adjacent(hex, side) {
        Some(other) => beyond_hex(other, neighbour(hex, side)),
        None => Beyond::MapEnd,
    }
}

/// Returns what lies beyond a side at which this hex lies, with this neighbour there, if any.
fn beyond_hex(other: Hex, neighbour: Option<Hex>) -> Beyond
    ensures { result ≡ beyond_hex other neighbour }
{
    match neighbour {
        Some(_) => Beyond::OpenBorder(other),
        None => Beyond::ClosedBorder(other),
    }
}

/// Adds what lies beyond a side. Fails only if allocation fails.
pub fn push_beyond(out: &mut Vec<u8>, beyond: Beyond) -> Result<(), AllocError> {
    match beyond {
        Beyond::MapEnd => fill(out, "the map ends", &[]),
        Beyond::ClosedBorder(hex) => {
            fill(
                out,
                "the border to % is closed",
                &[Bytes(hex.text().as_slice())],
            )
        }
        Beyond::OpenBorder(hex) => fill(out, "% has no track", &[Bytes(hex.text().as_slice())]),
    }
}
