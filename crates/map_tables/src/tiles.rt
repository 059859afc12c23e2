//! The tiles by number: how many there are of each, its colour, its kind and its track. It also has
//! the colours of hexes.
ghost use Rattle.std.specs.Prelude.{◌≡◌, ◌<◌, ◌≤◌, length};
ghost use Rattle.map_tables.specs.Tile.{entry, entry_of, number_of_tile, stops_of_kind, tile_index_of, tile_numbered};
ghost use Rattle.map_tables.specs.Tile.{tile_track_of};

use crate::segments::{
    E_0, E_1, NE_0, NE_1, NE_E, NE_SE, NW_0, NW_1, NW_E, NW_NE, SE_0, SW_0, SW_1, SW_E, SW_NE,
    SW_NW, SW_SE, SW_W, W_0, W_1, W_E, W_NE, W_NW,
};
use crate::track::TrackSegment;
use tables::Amount;

/// The colour of a hex. It is at first white, or yellow where the map is printed so, and then the
/// colour of the tile that lies on it.
#[derive(Clone, Copy, Debug, PartialEq, Eq)]
pub enum Colour {
    White,
    Yellow,
    Green,
    Brown,
}

/// What a tile shows. It is laid only on hexes of its kind.
#[derive(Clone, Copy, Debug, PartialEq, Eq)]
pub enum TileKind {
    /// Only track.
    Plain,
    /// A town.
    Town,
    /// Two towns.
    TwoTowns,
    /// A city.
    City,
    /// A city marked B: Baltimore or Boston.
    CityB,
    /// Two cities marked NY: New York.
    CitiesNY,
    /// Two cities marked OO.
    CitiesOO,
}

impl TileKind {
    /// Returns how many stops it has, from 0 to 2.
    pub fn stops(self) -> usize
        ensures { result ≡ stops_of_kind self }
    {
        match self {
            TileKind::Plain => 0,
            TileKind::Town | TileKind::City | TileKind::CityB => 1,
            TileKind::TwoTowns | TileKind::CitiesNY | TileKind::CitiesOO => 2,
        }
    }
}

/// A tile by its number.
#[derive(Clone, Copy, Debug, PartialEq, Eq)]
pub enum TileNo {
    T1,
    T2,
    T3,
    T4,
    T7,
    T8,
    T9,
    T14,
    T15,
    T16,
    T18,
    T19,
    T20,
    T23,
    T24,
    T25,
    T26,
    T27,
    T28,
    T29,
    T39,
    T40,
    T41,
    T42,
    T43,
    T44,
    T45,
    T46,
    T47,
    T53,
    T54,
    T55,
    T56,
    T57,
    T58,
    T59,
    T61,
    T62,
    T63,
    T64,
    T65,
    T66,
    T67,
    T68,
    T69,
    T70,
}

/// How many tiles have a number of their own.
pub const TILES: usize = 46;

/// The numbers of the tiles, tile by tile.
const NUMBERS: [u8; TILES] = [
    1, 2, 3, 4, 7, 8, 9, 14, 15, 16, 18, 19, 20, 23, 24, 25, 26, 27, 28, 29, 39, 40, 41, 42, 43,
    44, 45, 46, 47, 53, 54, 55, 56, 57, 58, 59, 61, 62, 63, 64, 65, 66, 67, 68, 69, 70,
];

impl TileNo {
    /// The tiles, in the order of their numbers.
    pub const ALL: [TileNo; TILES] = [
        TileNo::T1,
        TileNo::T2,
        TileNo::T3,
        TileNo::T4,
        TileNo::T7,
        TileNo::T8,
        TileNo::T9,
        TileNo::T14,
        TileNo::T15,
        TileNo::T16,
        TileNo::T18,
        TileNo::T19,
        TileNo::T20,
        TileNo::T23,
        TileNo::T24,
        TileNo::T25,
        TileNo::T26,
        TileNo::T27,
        TileNo::T28,
        TileNo::T29,
        TileNo::T39,
        TileNo::T40,
        TileNo::T41,
        TileNo::T42,
        TileNo::T43,
        TileNo::T44,
        TileNo::T45,
        TileNo::T46,
        TileNo::T47,
        TileNo::T53,
        TileNo::T54,
        TileNo::T55,
        TileNo::T56,
        TileNo::T57,
        TileNo::T58,
        TileNo::T59,
        TileNo::T61,
        TileNo::T62,
        TileNo::T63,
        TileNo::T64,
        TileNo::T65,
        TileNo::T66,
        TileNo::T67,
        TileNo::T68,
        TileNo::T69,
        TileNo::T70,
    ];

    /// Returns the place of the tile in the order of numbers, from 0 to 45.
    pub fn index(self) -> usize
        ensures value { result ≡ tile_index_of self }
        ensures bound { result < 46 }
    {
        self as usize
    }

    /// Returns the number that is printed on the tile.
    pub fn number(self) -> u8
        ensures { result ≡ number_of_tile self }
    {
        NUMBERS[self.index()]
    }

    /// Returns the tile of this number; `None` if there is none.
    pub fn from_number(number: u8) -> Option<TileNo>
        ensures { result ≡ tile_numbered number }
    {
        TileNo::ALL
            .iter()
            .find(|tile| tile.number() == number)
            .copied()
    }
}

/// A tile's entry in the manifest.
#[derive(Clone, Copy, Debug, PartialEq, Eq)]
pub struct TileEntry {
    /// How many of it there are.
    pub count: u8,
    pub colour: Colour,
    pub kind: TileKind,
    /// What each of its stops is worth, in dollars; 0 without stops.
    pub value: Amount,
    /// How many tokens each of its cities takes; 0 without cities.
    pub slots: u8,
}

/// Returns the entry of a tile in the manifest.
#[tactic(auto, unfolding(crate::specs::Tile::printed))]
pub fn tile(tile: TileNo) -> TileEntry
    ensures { result ≡ entry_of tile }
{
    match tile {
        TileNo::T1 => entry(1, Colour::Yellow, TileKind::TwoTowns, 10, 0),
        TileNo::T2 => entry(1, Colour::Yellow, TileKind::TwoTowns, 10, 0),
        TileNo::T3 => entry(2, Colour::Yellow, TileKind::Town, 10, 0),
        TileNo::T4 => entry(2, Colour::Yellow, TileKind::Town, 10, 0),
        TileNo::T7 => entry(4, Colour::Yellow, TileKind::Plain, 0, 0),
        TileNo::T8 => entry(8, Colour::Yellow, TileKind::Plain, 0, 0),
        TileNo::T9 => entry(7, Colour::Yellow, TileKind::Plain, 0, 0),
        TileNo::T14 => entry(3, Colour::Green, TileKind::City, 30, 2),
        TileNo::T15 => entry(2, Colour::Green, TileKind::City, 30, 2),
        TileNo::T16 => entry(1, Colour::Green, TileKind::Plain, 0, 0),
        TileNo::T18 => entry(1, Colour::Green, TileKind::Plain, 0, 0),
        TileNo::T19 => entry(1, Colour::Green, TileKind::Plain, 0, 0),
        TileNo::T20 => entry(1, Colour::Green, TileKind::Plain, 0, 0),
        TileNo::T23 => entry(3, Colour::Green, TileKind::Plain, 0, 0),
        TileNo::T24 => entry(3, Colour::Green, TileKind::Plain, 0, 0),
        TileNo::T25 => entry(1, Colour::Green, TileKind::Plain, 0, 0),
        TileNo::T26 => entry(1, Colour::Green, TileKind::Plain, 0, 0),
        TileNo::T27 => entry(1, Colour::Green, TileKind::Plain, 0, 0),
        TileNo::T28 => entry(1, Colour::Green, TileKind::Plain, 0, 0),
        TileNo::T29 => entry(1, Colour::Green, TileKind::Plain, 0, 0),
        TileNo::T39 => entry(1, Colour::Brown, TileKind::Plain, 0, 0),
        TileNo::T40 => entry(1, Colour::Brown, TileKind::Plain, 0, 0),
        TileNo::T41 => entry(2, Colour::Brown, TileKind::Plain, 0, 0),
        TileNo::T42 => entry(2, Colour::Brown, TileKind::Plain, 0, 0),
        TileNo::T43 => entry(2, Colour::Brown, TileKind::Plain, 0, 0),
        TileNo::T44 => entry(1, Colour::Brown, TileKind::Plain, 0, 0),
        TileNo::T45 => entry(2, Colour::Brown, TileKind::Plain, 0, 0),
        TileNo::T46 => entry(2, Colour::Brown, TileKind::Plain, 0, 0),
        TileNo::T47 => entry(1, Colour::Brown, TileKind::Plain, 0, 0),
        TileNo::T53 => entry(2, Colour::Green, TileKind::CityB, 50, 1),
        TileNo::T54 => entry(1, Colour::Green, TileKind::CitiesNY, 60, 1),
        TileNo::T55 => entry(1, Colour::Yellow, TileKind::TwoTowns, 10, 0),
        TileNo::T56 => entry(1, Colour::Yellow, TileKind::TwoTowns, 10, 0),
        TileNo::T57 => entry(4, Colour::Yellow, TileKind::City, 20, 1),
        TileNo::T58 => entry(2, Colour::Yellow, TileKind::Town, 10, 0),
        TileNo::T59 => entry(2, Colour::Green, TileKind::CitiesOO, 40, 1),
        TileNo::T61 => entry(2, Colour::Brown, TileKind::CityB, 60, 1),
        TileNo::T62 => entry(1, Colour::Brown, TileKind::CitiesNY, 80, 2),
        TileNo::T63 => entry(3, Colour::Brown, TileKind::City, 40, 2),
        TileNo::T64 => entry(1, Colour::Brown, TileKind::CitiesOO, 50, 1),
        TileNo::T65 => entry(1, Colour::Brown, TileKind::CitiesOO, 50, 1),
        TileNo::T66 => entry(1, Colour::Brown, TileKind::CitiesOO, 50, 1),
        TileNo::T67 => entry(1, Colour::Brown, TileKind::CitiesOO, 50, 1),
        TileNo::T68 => entry(1, Colour::Brown, TileKind::CitiesOO, 50, 1),
        TileNo::T69 => entry(1, Colour::Yellow, TileKind::TwoTowns, 10, 0),
        TileNo::T70 => entry(1, Colour::Brown, TileKind::Plain, 0, 0),
    }
}

/// Returns the track of a tile that is not turned, in order.
#[tactic(auto, unfolding(crate::specs::Tile::printed))]
pub fn tile_track(tile: TileNo) -> &'static [TrackSegment]
    ensures track { result.now ≡ tile_track_of tile }
    ensures few { length result.now ≤ 6 }
{
    match tile {
        TileNo::T1 => &[SW_1, W_0, NE_0, E_1],
        TileNo::T2 => &[SW_0, W_1, NW_1, NE_0],
        TileNo::T3 => &[SW_0, W_0],
        TileNo::T4 => &[SW_0, NE_0],
        TileNo::T7 => &[SW_W],
        TileNo::T8 => &[SW_NW],
        TileNo::T9 => &[SW_NE],
        TileNo::T14 => &[SW_0, W_0, NE_0, E_0],
        TileNo::T15 => &[SW_0, W_0, NW_0, NE_0],
        TileNo::T16 => &[SW_NW, W_NE],
        TileNo::T18 => &[SW_NE, W_NW],
        TileNo::T19 => &[SW_NE, NW_E],
        TileNo::T20 => &[SW_NE, W_E],
        TileNo::T23 => &[SW_NE, SW_E],
        TileNo::T24 => &[SW_NW, SW_NE],
        TileNo::T25 => &[SW_NW, SW_E],
        TileNo::T26 => &[SW_NE, SW_SE],
        TileNo::T27 => &[SW_W, SW_NE],
        TileNo::T28 => &[SW_E, SW_SE],
        TileNo::T29 => &[SW_W, SW_NW],
        TileNo::T39 => &[SW_W, SW_NW, W_NW],
        TileNo::T40 => &[SW_NW, SW_E, NW_E],
        TileNo::T41 => &[SW_W, SW_NE, W_NE],
        TileNo::T42 => &[SW_NE, SW_SE, NE_SE],
        TileNo::T43 => &[SW_NW, SW_NE, W_NW, W_NE],
        TileNo::T44 => &[SW_W, SW_NE, W_E, NE_E],
        TileNo::T45 => &[SW_NE, SW_E, NW_NE, NW_E],
        TileNo::T46 => &[SW_NW, SW_NE, NW_E, NE_E],
        TileNo::T47 => &[SW_NE, SW_E, W_NE, W_E],
        TileNo::T53 => &[SW_0, NW_0, E_0],
        TileNo::T54 => &[SW_0, W_0, NW_1, NE_1],
        TileNo::T55 => &[SW_0, W_1, NE_0, E_1],
        TileNo::T56 => &[SW_0, W_1, NW_0, NE_1],
        TileNo::T57 => &[SW_0, NE_0],
        TileNo::T58 => &[SW_0, NW_0],
        TileNo::T59 => &[SW_0, NW_1],
        TileNo::T61 => &[SW_0, W_0, NE_0, SE_0],
        TileNo::T62 => &[SW_0, W_0, NW_1, NE_1],
        TileNo::T63 => &[SW_0, W_0, NW_0, NE_0, E_0, SE_0],
        TileNo::T64 => &[SW_0, NW_0, NE_1, E_1],
        TileNo::T65 => &[SW_0, NW_1, NE_1, E_0],
        TileNo::T66 => &[SW_0, W_1, NW_1, NE_0],
        TileNo::T67 => &[SW_0, NW_1, NE_0, E_1],
        TileNo::T68 => &[SW_0, W_1, NE_0, E_1],
        TileNo::T69 => &[SW_0, NW_1, NE_0, E_1],
        TileNo::T70 => &[SW_W, SW_NW, W_NE, NW_NE],
    }
}

/// Returns an entry of the manifest.
fn entry(count: u8, colour: Colour, kind: TileKind, value: Amount, slots: u8) -> TileEntry
    ensures { result ≡ entry count colour kind value slots }
{
    TileEntry {
        count,
        colour,
        kind,
        value,
        slots,
    }
}
