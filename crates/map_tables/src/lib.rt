//! The map and the tiles of 1830 as they are played here, as tables.
//!
//! Each call returns an entry of a table, in a few steps, and allocates nothing. `specs/` has each
//! table once, in the order and the words in which the rules print it.
//!
//! Reading order: `hex` (the hexes of the map), `side` (sides and rotations), `border` (which hexes
//! are neighbours), `place` (stops), `track` (what joins sides and stops), `print` (what is printed
//! on the map), `tiles`, `segments` (each piece of track by its ends), `lay` (a tile on a hex),
//! `run` (the places of a run), `homes` (home stops, and hexes of privates), `rules` (of lays,
//! tokens and runs: which one is broken), `text` (the texts of hexes, places, tiles and rotations),
//! `laws` (what holds of all these tables).
#![tactic(auto)]

mod border;
mod hex;
mod homes;
pub mod laws;
mod lay;
mod place;
mod print;
mod rules;
mod run;
mod segments;
mod side;
mod text;
mod tiles;
mod track;

pub use border::{adjacent, neighbour};
pub use hex::{HEXES, Hex};
pub use homes::{home, private_hexes};
pub use lay::{Lay, laid_links};
pub use place::{Place, Stop, StopNumber, joined_stop};
pub use print::{
    HexKind, PrintedValue, hex_kind, printed_colour, printed_links, printed_slots, printed_stops,
    printed_value, terrain_cost,
};
pub use rules::{LayRule, RunRule, TokenRule};
pub use run::{RUN_LEAST, RUN_MOST, Run};
pub use side::{PerSide, Rotation, SIDES, Side};
pub use text::{PLACE_TEXT_MOST, PlaceText};
pub use tiles::{Colour, TILES, TileEntry, TileKind, TileNo, tile, tile_track};
pub use track::{ENDS, LINKS_MOST, Link, Links, Track, TrackEnd, TrackSegment, turned};
