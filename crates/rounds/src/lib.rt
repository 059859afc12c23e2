//! The sequence of rounds, and the one game of an order file.
//!
//! A game is played by whole rounds, each once every seat has a sheet for it. It goes on until a
//! sheet is missing or the game is over, because a president is bankrupt, or because the bank is
//! broken and its set has ended. Other crates play an opening and a stock round. This crate plays
//! an operating round, company by company; the crate `operating` plays each company's turn.
//!
//! Reading order: `following`, `sequence` (`next`), `fault`, `operating_round`, `steps` (`Play`, a
//! round at a time), `game` (`Game`, `play_with`, `play`), `laws`, `call_laws`.
#![tactic(auto)]

mod call_laws;
mod fault;
mod following;
mod game;
pub mod laws;
mod operating_round;
mod sequence;
mod steps;

pub use fault::PlayFault;
pub use following::Next;
pub use game::{End, Game, play, play_with};
pub use sequence::next;
pub use steps::{Play, Step};
