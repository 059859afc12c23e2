//! The stock market: how a company's token moves over the chart, and the order in which companies
//! operate.
//!
//! A move returns the square that a token reaches. If the chart has no such square, the token
//! stays. The order is that of the floated companies by their squares; the next company is the
//! first in it that has not operated in the round.
//!
//! Reading order: `moves`, `token` (moves of a company's token, recorded), `order`, `laws` (a token
//! on the chart stays on it; the order is one).
#![tactic(auto)]

pub mod laws;
mod moves;
mod order;
mod token;

pub use moves::{down, fall, left, right, up};
pub use order::{next_company, operates, operating_order};
pub use token::{move_token_down, move_token_left, move_token_right, move_token_up};
