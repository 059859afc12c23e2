//! The laws of the tables. Each is the contract of a function that does nothing.
ghost use Rattle.std.specs.Prelude.{◌≡◌};
ghost use Rattle.map_tables.specs.Fit.{NothingFits};
ghost use Rattle.map_tables.specs.Hex.{hexes};
ghost use Rattle.map_tables.specs.Laws.{
  HomesTakeTokens,
  HexesAreToldApart,
  HexesAreListedOnce,
  LaidLinksAreInOrder,
  NeighboursPair,
  PrintedLinksAreInOrder,
  PrintsAreListedOnce,
  RedAreasAreJoined,
  SixTurnsAreNone,
  TilesAreListedOnce,
  TurnsAddUp,
  ValuesAreAtMost80,
};
ghost use Rattle.map_tables.specs.Side.{rotations, sides};
ghost use Rattle.map_tables.specs.Text.{TextsAreRead};
ghost use Rattle.map_tables.specs.Tile.{tiles};

use crate::hex::Hex;
use crate::side::{Rotation, Side};
use crate::tiles::TileNo;

/// States that borders pair: the neighbour of a hex over a side has that hex as its neighbour over
/// the facing side. So a closed border is closed from both its hexes.
pub fn neighbours_pair()
    ensures { NeighboursPair }
{}

/// States that each hex is once in the list of hexes, at its index, and is the only hex of its row
/// and column.
pub fn hexes_are_listed_once()
    ensures all { Hex.ALL ≡ hexes }
    ensures once { HexesAreListedOnce }
{}

/// States that the definitions' test for the same hex is exact.
pub fn hexes_are_told_apart()
    ensures { HexesAreToldApart }
{}

/// States that each tile is once in the list of tiles, at its index, and is the only tile of its
/// number.
pub fn tiles_are_listed_once()
    ensures all { TileNo.ALL ≡ tiles }
    ensures once { TilesAreListedOnce }
{}

/// States that each hex of the map has one print.
pub fn prints_are_listed_once()
    ensures { PrintsAreListedOnce }
{}

/// States that the lists of sides and of rotations are those of the definitions.
pub fn sides_and_rotations_are_all()
    ensures sides { Side.ALL ≡ sides }
    ensures rotations { Rotation.ALL ≡ rotations }
{}

/// States that six turns by a sixth leave a tile unchanged.
pub fn six_turns_are_none()
    ensures { SixTurnsAreNone }
{}

/// States that turning a tile by a number of sixths is turning it by one sixth that many times.
pub fn turns_add_up()
    ensures { TurnsAddUp }
{}

/// States that the links of each print are in order without repeats. The ends of each are in order,
/// and the first is a side.
pub fn printed_links_are_in_order()
    ensures { PrintedLinksAreInOrder }
{}

/// States that the links of each tile, in every rotation and swapped or not, are in order without
/// repeats. The ends of each are in order, and the first is a side.
pub fn laid_links_are_in_order()
    ensures { LaidLinksAreInOrder }
{}

/// States that no stop is worth more than 80.
pub fn values_are_at_most_80()
    ensures { ValuesAreAtMost80 }
{}

/// States that if two stops are one, both are red.
pub fn red_areas_are_joined()
    ensures { RedAreasAreJoined }
{}

/// States that the printed home of each company takes a token.
pub fn homes_take_tokens()
    ensures { HomesTakeTokens }
{}

/// States that the empty map is a fit map state: each home has a slot for its token.
pub fn nothing_fits()
    ensures { NothingFits }
{}

/// States that a text names a hex, a place, a tile or a rotation exactly if it is that thing's
/// text.
pub fn texts_are_read()
    ensures { TextsAreRead }
{}
