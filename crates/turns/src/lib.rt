//! Rounds of turns, such as the opening and the stock rounds. This crate says how a round begins,
//! how the lines of sheets are reached, whose turn it is, who passes, when the turns are over, and
//! what is recorded of lines that were not reached.
//!
//! Each kind of round has its own rules: what a line does, what counts as acting, what else ends
//! the turns and what follows them. A type with the trait `TurnRules` has these rules.
//!
//! Lines of all kinds of rounds are ruled in the same way, by `ruling`: it checks their own fault,
//! their place, their condition and their rules, in this order, and records the result. A type with
//! the trait `Family` says which orders are allowed, and judges them.
//!
//! Reading order: `ruling` (how a line is ruled), `rules` (the trait of a round), `turn` (the turn
//! of a seat), `playing` (the whole round). In `specs/`, `Ruling` says what becomes of a line,
//! `RoundOfTurns` what a round of turns is, and `Small` bounds the sums that the lines of a sheet
//! name.
#![tactic(auto)]

mod playing;
mod rules;
mod ruling;
mod turn;

pub use playing::{begin, pass, play_round, rule_standing};
pub use rules::TurnRules;
pub use ruling::{Family, record, record_fault, record_packed, rule_line, rule_order};
pub use turn::rule_lines;
