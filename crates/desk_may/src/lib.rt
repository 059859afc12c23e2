//! What a player may do in the coming round, as text: what they may buy, bid and sell, orders
//! that are refused though one may expect them, with the rule, and a train that a company of theirs
//! must buy.
//!
//! Each line is made from a row of `moves`, at the start of the player's turn or of their company's
//! orders (`foresight`), and from what is said about that row. What is said is proved; how it is
//! printed is tested.
//!
//! Reading order: `told` (what is said about an order), `teller` (of each row), `opening_told`,
//! `stock_told`, `company_told` (of the rows of each kind of turn), `told_rows` (rows with what is
//! said about them); `may_line` (a line), `until_then` (what happens before the turn),
//! `may_opening`, `may_stock`, `may_operating` (the lines of each kind of round), `must_buy` (a
//! train that a company must buy), `offerers` (who may offer a train), `raise_rows` (the outcome of
//! a RAISE), `row_lines` (rows as lines), `may_lines` (the same as the lines of a sheet).
//!
//! For the crates above: `boards` (the board of a game), `best_after` (what a company's trains
//! would earn after a lay or a token), and `progress` (how far a long answer has got).
#![tactic(auto)]

mod best_after;
mod boards;
mod company_told;
mod may_line;
mod may_lines;
mod may_opening;
mod may_operating;
mod may_stock;
mod must_buy;
mod offerers;
mod opening_told;
mod progress;
mod raise_rows;
mod row_lines;
mod stock_told;
mod teller;
mod told;
mod told_rows;
mod until_then;

pub use best_after::Trains;
pub use boards::board_now;
pub use may_lines::{push_lines_of_operating, push_lines_of_turn, push_standing_lines};
pub use may_opening::push_of_opening;
pub use may_operating::push_of_operating;
pub use may_stock::push_of_stock;
pub use must_buy::push_end_of_turn;
pub use progress::Progress;
pub use until_then::push_until_then;
