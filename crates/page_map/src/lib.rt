//! The map of a game as a picture: its grounds, track, stops and labels, each hex in words, and the
//! tiles that are left.
//!
//! The routes lie between the track and the stops, and are not part of this crate. What a page
//! shows is a `Scene`, which has only the players' names from the sheets, so that no other byte of
//! a sheet gets in. The track of a hex is that of the tile that lies there, or the printed track.
//! The tiles and tokens of the last round are marked as new.
//!
//! The definitions, in `specs/`: `News` (what the last round laid, placed and moved), `TokensShown`
//! (the tokens of a stop).
//!
//! Reading order: `scene` (what a page shows), `tokens` (the contents of slots), `news`,
//! `hex_words` (a hex in words), `signs`, `legend`, `map_part`, `tiles_shown` (how many tiles are
//! left), `tiles_part`.
#![tactic(auto)]

mod hex_words;
mod legend;
mod map_part;
mod news;
mod scene;
mod signs;
mod tiles_part;
mod tiles_shown;
mod tokens;

pub use hex_words::{begin_hex, begin_hexes, put_hexes, put_sight, put_words};
pub use legend::put_key;
pub use map_part::{
    begin_ground, begin_map, begin_picture, end_map, has_drawing, put_borders, put_labels,
    put_rims, put_shade, put_stops,
};
pub use news::{
    laid_in_last_round, moved_in_last_round, placed_in_last_round, square_before_round,
};
pub use scene::Scene;
pub use signs::put_signs;
pub use tiles_part::{TILE_COLOURS, put_laid, put_tile, put_tiles_left};
