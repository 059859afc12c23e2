//! The tables that the desk shows: their rows, and what each column shows of a row. Text, JSON and
//! pages print the same cells, each in its own layout.
//!
//! A row (`PlayerRow`, `PrivateRow`, `CompanyRow`, `TrainRow`) has the figures of one player,
//! private, company or kind of train; by contract they are those of the game. A `Cell` is what one
//! column shows of a row. It borrows nothing: it names a player, a company or a list, and whoever
//! prints it looks that up. `TableRow::cell` returns the cell of a column, exactly the one that the
//! definition gives to it.
//!
//! The definitions, in `specs/`: `Earnings` (what a company last earned), `Stack` (the tokens on a
//! square, and the order of companies), `Standing` (worths and ranks), `Leaders` (the players by
//! worth; the game before the last round), `Rows` (the rows), `TableRows` (the rows of each table,
//! in order), `Cells` (the cells).
//!
//! Reading order: `cell` (`Cell`), `field` (`Field`, `TableRow`), `rows`, `table_rows`; then the
//! figures that the readers of a game do not have: `earnings`, `stack`, `standing`, `leaders`.
#![tactic(auto)]

mod cell;
mod earnings;
mod field;
mod leader_rows;
mod rows;
mod stack;
mod standing;
mod table_rows;

pub use cell::{Cell, Holding};
pub use earnings::{Earnings, earnings_of};
pub use field::{Field, TableRow};
pub use leader_rows::{Leader, before_round, leaders};
pub use market::operates;
pub use rows::{
    CompanyRow, GameRow, PlayerRow, PrivateRow, TrainRow, company_row, game_row, player_row,
    private_row, train_row,
};
pub use stack::{all_in_order, before_in_stack, company_at};
pub use standing::{rank_of, worths_of};
pub use table_rows::{company_rows, player_rows, private_rows, train_rows};
