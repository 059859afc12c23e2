//! The tile on each hex of the map, and how many tiles of each number are left by them.
ghost use Rattle.std.specs.Prelude.{◌≡◌, ◌-◌, ◌≤◌, List, length, map};
ghost use Rattle.std.specs.List.{count_by};
ghost use Rattle.board.specs.LayRules.{is_tile};
ghost use Rattle.desk_base.specs.StockLeft.{tiles_left};
ghost use Rattle.map_tables.specs.Hex.{hexes};
ghost use Rattle.map_tables.specs.OnMap.{tile_on};
ghost use Rattle.map_tables.specs.Tile.{entry_of};
ghost use Rattle.map_tables.specs.declared.lay.Lay.{Lay as ALay};

use arrayvec::ArrayVec;
use desk_base::tile_on;
use map_tables::{HEXES, Hex, Lay, TileNo, tile};

/// The tile on each hex, in the order of the hexes; `None` for a hex on which none was laid.
pub(crate) type TilesShown = ArrayVec<Option<Lay>, HEXES>;

/// Returns the tile on each hex, given the tiles that were laid.
pub(crate) fn tiles_on_map(lays: &[Lay]) -> TilesShown
    ensures { result.items ≡ map (tile_on lays.now) hexes }
{
    // A law, which does nothing when it runs: these are all hexes.
    map_tables::laws::hexes_are_listed_once();
    tiles_on(lays, &Hex::ALL)
}

/// Returns the tile on each of some hexes, given the tiles that were laid.
fn tiles_on(lays: &[Lay], hexes: &[Hex]) -> TilesShown
    requires { length hexes.now ≤ 93 }
    ensures { result.items ≡ map (tile_on lays.now) hexes.now }
{
    let mut shown = ArrayVec::new();
    for hex in hexes {
        shown.push(tile_on(lays, *hex));
    }
    shown
}

/// Returns how many tiles of a number are not on the map, given the tile on each hex.
pub(crate) fn left_beside(shown: &[Option<Lay>], number: TileNo) -> usize
    ensures { (lays : List ALay) → shown.now ≡ map (tile_on lays) hexes →
        result ≡ tiles_left lays number }
{
    left_of(shown, number)
}

/// Returns how many tiles of a number there are beside some.
fn left_of(shown: &[Option<Lay>], number: TileNo) -> usize
    ensures { result ≡ (entry_of number).count - count_by (is_tile number) shown.now }
{
    usize::from(tile(number).count).saturating_sub(count_of(shown, number))
}

/// Returns how many of some tiles are of a number.
fn count_of(shown: &[Option<Lay>], number: TileNo) -> usize
    ensures { result ≡ count_by (is_tile number) shown.now }
{
    let mut count = 0;
    for tile in shown {
        if is_tile(number, *tile) {
            count += 1;
        }
    }
    count
}

/// Returns whether a tile, if there is one, is of a number.
fn is_tile(number: TileNo, tile: Option<Lay>) -> bool
    ensures { result ≡ is_tile number tile }
{
    match tile {
        Some(lay) => lay.tile.index() == number.index(),
        None => false,
    }
}
