//! A round of a game: its part of the report, the rules that refused lines broke, what its trains
//! ran, and its turns as their players read them. The calls that write a text of a round take the
//! allocator and the bytes of an order file, and return text. No call reads or writes a stream.
//!
//! PR1 of an order file in memory, `FIRST`, as it stands in the report:
//!
//! ```
//! let Ok(text) = round(rt.alloc(), FIRST.as_bytes(), Some(Round::Opening(1))) else {
//!     panic!(rt; "not played")
//! };
//! assert!(rt; text.as_slice().starts_with(b"ROUND PR1\nANN 2 OBEYED"));
//! ```
//!
//! Reading order: `played_game` (a game, and a round that it played), `round_part` (`round`),
//! `train_runs` (`runs`), `groups` (whose turn an event belongs to), `changes` (whose cash
//! changed), `left_lines` (lines that were not reached), `bulletin_text` (`turns`). `desk_why`
//! finds why a line was refused.
#![tactic(auto)]

mod bulletin_text;
mod changes;
mod groups;
mod left_lines;
mod played_game;
mod round_part;
mod train_runs;

pub use bulletin_text::{turns, turns_in_short};
pub use round_part::{round, round_with_rules};
pub use train_runs::runs;
