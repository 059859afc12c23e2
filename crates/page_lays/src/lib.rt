//! What may be done next, on the page of a game: under each hex what each company may lay and place
//! there, and below the hexes what each player may do, and each company step by step. Each line is
//! an order. A press adds it to the text of a sheet, and another takes it back. On the map a rim
//! and a pill show where a company of the player may lay.
//!
//! The lines are the rows of `moves`, at the start of a company's orders or of a player's turn in
//! the next round, if nobody orders anything before. Contracts say which rows there are, and that
//! the page is well-formed. Tests cover how rows are printed.
//!
//! The definitions, in `specs/`: `MoveRows` (the lays and tokens of a company, and those on a hex),
//! `Turns` (of the companies of a round), `Players` (their standing lines, and the heads of their
//! turns), `Earned` (what decides what runs bring), `NextRound` (all of it), `Allowed` (which
//! orders of players the page shows).
//!
//! Reading order: `move_rows` (lays and tokens as rows), `move_lines` (what the best runs would
//! earn after each), `earned` (what decides what runs bring), `company_turns` (the companies of the
//! round), `players`, `offers` (of trains), `may` (all of it); `pictures` (of tiles), `groups`
//! (lines on the page), `hexes_part`, `steps_part` (a company's turn, step by step), `rims` (of the
//! map), `sheet_part`, `may_part`, `style`, `ending` (`end_page`).
#![tactic(auto)]

mod company_turns;
mod earned;
mod ending;
mod groups;
mod hexes_part;
mod may;
mod may_part;
mod move_lines;
mod move_rows;
mod offers;
mod pictures;
mod players;
mod rims;
mod sheet_part;
mod steps_part;
mod style;

pub use company_turns::Wanted;
pub use ending::{Drawn, end_page};
pub use style::STYLE;
