//! What may be done in a game, for its players: the tiles that a company may lay, its tokens, its
//! best runs; what a player may buy, bid and sell; what a hex has; and a trial of the sheets
//! received so far.
//!
//! Each answer comes from the lists of `moves`, which use the calls that rule lines, or from the
//! search that RUN BEST uses. Each call takes the allocator and the bytes of an order file, and
//! returns text; no call reads or writes a stream.
//!
//! Words of a command line, in either case:
//!
//! ```
//! assert_eq!(rt; read_company(b"nyc"), Some(Company::NewYorkCentral));
//! assert_eq!(rt; read_hex(b"h12"), Some(Hex::H12));
//! assert_eq!(rt; read_kind(b"d"), Some(Kind::Diesel));
//! ```
//!
//! Reading order: `fault` (why there is no answer), `words` (companies, hexes and trains on a
//! command line), `questions` (`answer`: the turn that is asked), `coming` (the game before the
//! coming round), `line_text` (lays and tokens as order lines), `lay_text` (the same for a reader),
//! `lay_best` (with revenues), `best_text` (best runs), `may_text` (what a player may do, by
//! `desk_may`), `hex_text` with `hex_sides`, `trials` (`trial`).
#![tactic(auto)]

mod best_text;
mod coming;
mod fault;
mod hex_sides;
mod hex_text;
mod lay_best;
mod lay_text;
mod line_text;
mod may_text;
mod questions;
mod trials;
mod words;

pub use fault::{MovesFault, NoAnswer};
pub use questions::{LayForm, MayForm, Question, answer};
pub use trials::{TrialRound, trial};
pub use words::{read_company, read_hex, read_kind};
