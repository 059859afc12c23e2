//! The report of an order file. For a refused file it is the one line that says why. Otherwise it
//! is the header, the lines of each round's events and the statement after them, the lines that are
//! in no sheet, and why play stopped. If the game is over, it also has what each player is worth.
//!
//! `refusal_text` and `report` write it. `header_text`, `next_text` and `end_text` write it part by
//! part while the game is played; `unread_text` and `outcome_text` write the two halves of
//! `end_text`, the first a few lines at a time. `round_text` writes one round of it. Each returns
//! the text, byte for byte, that `specs/Report` and `specs/Parts` define, or fails if allocation
//! fails. Each file has exactly one report. `length_of_round` cuts a list of events into its
//! rounds.
//!
//! Reading order: `column` (numbers and names in columns), `line` (an event as a line), `statement`
//! (what each player and the bank hold), `end_worth` (what each player is worth at the end), `text`
//! (`refusal_text`, `report`, `round_text`), `parts` (`header_text`, `next_text`, `end_text` and
//! its halves), `laws`.
#![tactic(auto)]

mod column;
mod end_worth;
pub mod laws;
mod line;
mod parts;
mod statement;
mod text;

pub use end_worth::player_worth;
pub use line::{holder, name, push_event};
pub use parts::{end_text, header_text, next_text, outcome_text, unread_text};
pub use text::{length_of_round, refusal_text, report, round_text};
