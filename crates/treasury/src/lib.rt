//! The treasury: the cash of each party of a game, and payments between them.
//!
//! The accounts are a small table, read from the totals of a game's events. A payment moves its sum
//! and nothing else. If a player or a company has too little, the payment is refused and nothing
//! changes. The bank pays on credit.
//!
//! Reading order: `accounts`.
#![tactic(auto)]

mod accounts;

pub use accounts::{Accounts, Short};
