//! The train that a company without one must buy, for which its president may have to pay.
//!
//! It is the cheapest train that the bank or the pool sells. The president pays what the company
//! lacks. A president who falls short sells shares: first by the RAISE lines of the company's
//! orders, then singly, each at a lower price. A president who still falls short is bankrupt.
//!
//! The caller checks whether a company must buy; these functions take a company without a train.
//!
//! Reading order: `operator` (the company and its president), `shortfall` (what it lacks), `raise`
//! (the order RAISE), `forced` (the purchase), `laws`.
#![tactic(auto)]

mod forced;
pub mod laws;
mod operator;
mod raise;
mod shortfall;

pub use forced::buy_by_force;
pub use operator::Operator;
pub use raise::{HeldRaise, hold_if_raise, judge_raise, judge_raised_sale, rule_raises};
pub use shortfall::{cheapest, falls_short, lack};
