//! The map state of 1830: the tiles and tokens that lie on the map, what follows from them, and
//! what may lie on the map at all.
//!
//! In a contract a map state is the tiles that were laid, oldest first, the tokens that were
//! placed, and the phase. From these follows its position as a `reach::Network`: on each hex the
//! last tile that was laid there, or its print.
//!
//! `OnMap` gives the map state: the whole position follows from what its five calls return. A
//! `PlainBoard` has only the lists, and searches them for a tile or a token; `PlainBoard::of`
//! refuses what may not lie on the map.
//!
//! The definitions, in `specs/`: `MapState` (the tiles and tokens, and the position) and `Fit`
//! (what may lie on the map at all).
//!
//! Reading order: `fault`, `stop_facts` (what shows at a hex or a stop), `fit` (what may lie on the
//! map at all), `on_map` (what follows from the map state), `plain_board`, `network` (the position
//! that is kept), `laws`.
#![tactic(auto)]

mod fault;
mod fit;
pub mod laws;
mod network;
mod on_map;
mod plain_board;
mod stop_facts;

pub use fault::BoardFault;
pub use fit::{fault_of, has_bad_side, is_open, is_wrong_kind};
pub use on_map::{OnMap, full_on_map, links_on_map, red_on_map, slots, token_on_map, value_on_map};
pub use plain_board::PlainBoard;
pub use stop_facts::{has_token, same_company, same_hex, same_stop, slots_on, tile_on};
