//! A tile on a hex, laid or to be laid, and the links that it gives the hex.
ghost use Rattle.std.specs.Prelude.{◌≡◌, ◌≤◌, length};
ghost use Rattle.map_tables.specs.Lay.{laid_links_of, laid_track_of};

use crate::hex::Hex;
use crate::side::Rotation;
use crate::tiles::{TileNo, tile_track};
use crate::track::{Links, Track, links_in, swapped, turned};

/// A tile on a hex, laid or to be laid.
#[derive(Clone, Copy, Debug, PartialEq, Eq)]
pub struct Lay {
    pub hex: Hex,
    pub tile: TileNo,
    /// How far the tile is turned.
    pub rot: Rotation,
    /// Whether stop 0 of the hex is the tile's stop 1, and stop 1 its stop 0.
    pub swap: bool,
}

/// Returns the links that a tile gives its hex, in order.
#[tactic(auto, unfolding(crate::specs::Lay::laid_links_of))]
pub fn laid_links(lay: Lay) -> Links
    ensures { result.items ≡ laid_links_of lay }
{
    links_in(lay.hex, laid_track(lay).as_slice())
}

/// Returns the track of a tile as laid.
#[tactic(auto, unfolding(crate::specs::Lay::laid_track_of))]
fn laid_track(lay: Lay) -> Track
    ensures track { result.items ≡ laid_track_of lay }
    ensures few { length result.items ≤ 6 }
{
    let track = turned(tile_track(lay.tile), lay.rot);
    if lay.swap {
        swapped(track.as_slice())
    } else {
        track
    }
}
