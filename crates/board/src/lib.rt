//! The board of 1830's operating rounds: the tiles and tokens that lie on the map, and the rules by
//! which a company lays more.
//!
//! `board_state` says what a map state is, what its position is, and what may lie on the map at
//! all. In a contract a `Board` is a map state. `Board::of` refuses what may not lie on the map.
//! `try_lay` and `try_token` return the cost of a tile or a token, or the first rule that it
//! breaks, and change nothing; `put_lay` and `put_token` lay it. A board that begins with
//! `Board::empty` gets the map state tile by tile in this way, and the phase by `put_phase`.
//!
//! The definitions, in `specs/`: `LayRules` and `TokenRules` (each rule beside its code, in order),
//! `Powers` (of CS and DH), `Homes` and `Stock` (what the rules ensure: a slot for each home token,
//! and no more tiles of a number than the game has), and two small examples, `Example`.
//!
//! A `Board` keeps an index beside its lists. It finds a tile or a token at once, with the links of
//! each tile that lies, turned as it was laid. In a contract it is the same as a `PlainBoard`,
//! which has only the lists and is shorter to read.
//!
//! A lay is tried, and laid:
//!
//! ```
//! let home = Stop {
//!     hex: Hex::H12,
//!     number: StopNumber::First,
//! };
//! let homes = [(home.place(), Company::Pennsylvania)];
//! let Ok(mut board) = Board::of(rt.alloc(), &[], &homes, Kind::Two) else {
//!     panic!(rt; "refused")
//! };
//! let lay = Lay {
//!     hex: Hex::H10,
//!     tile: TileNo::T57,
//!     rot: Rotation::One,
//!     swap: false,
//! };
//! let asker = Asker {
//!     company: Company::Pennsylvania,
//!     cash: 100,
//!     pointer: TurnStep::Lay,
//!     lay_used: false,
//!     dh_laid: false,
//!     own_privates: [false; PRIVATES],
//!     player_privates: [false; PRIVATES],
//! };
//! assert_eq!(rt; board.try_lay(&asker, lay), Ok(0));
//! assert_eq!(rt; board.put_lay(lay), Ok(()));
//! ```
//!
//! Reading order: `fault`, `kept_links` (the links of a hex as a value), `index`, `board`,
//! `board_with_lay` (a board with one more tile), `network` (the position that is kept), `turn`
//! (the company that acts, and the step of its turn), `powers` (of CS and DH), `lay`, `token`,
//! `laws`.
#![tactic(auto)]

mod board;
mod board_with_lay;
mod fault;
mod index;
mod kept_links;
pub mod laws;
mod lay;
mod network;
mod powers;
mod token;
mod turn;

pub use board::Board;
pub use board_state::{BoardFault, PlainBoard};
pub use fault::{LayFault, TokenFault};
pub use powers::is_dh_lay;
pub use turn::{Asker, TurnStep};
