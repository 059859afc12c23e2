//! The page of all rounds of a game, with a button for each: what stays from round to round stands
//! in it once, with the rounds that have it.
//!
//! `page_of_all` makes it from the bytes of an order file, and `page_of_all_to_hexes` up to its
//! hexes in words, for `page_lays`. It is written by the parts of the page of a round: the map of
//! `page_map`, the lines of `page_routes`, the charts of `page_charts`, and the tables of `page`.
//! `replay` merges them: its contract says that the rule of style of each round leaves the parts of
//! that round, in order. The page is well-formed: `markup` defines that. `bench/page-all` compares
//! what each button shows with the page of its round.
//!
//! The definitions, in `specs/`: `Drawings` (the numbers of what stands once), `LayerNumbers`.
//!
//! The page of all rounds of an order file in memory, `FIRST`:
//!
//! ```
//! let Ok(text) = page_of_all(rt.alloc(), FIRST.as_bytes(), None, "") else {
//!     panic!(rt; "no page")
//! };
//! assert!(rt; text.as_slice().starts_with(b"<!DOCTYPE html>\n"));
//! ```
//!
//! Reading order: `drawings` (what is drawn often stands once), `lines` (of routes), `route_rows`,
//! `what_happened`, `cells` (of tables), `since` (when tiles and tokens came), `layers` (all of a
//! round), `replayed` (the rounds), `style`, `round_buttons`, `tables_part`, `whole_page` (how it
//! is written), `all_rounds` (`page_of_all`).
#![tactic(auto)]

mod all_rounds;
mod cells;
mod drawings;
mod layers;
mod lines;
mod replayed;
mod round_buttons;
mod route_rows;
mod since;
mod style;
mod tables_part;
mod what_happened;
mod whole_page;

pub use all_rounds::{page_of_all, page_of_all_to_hexes};
