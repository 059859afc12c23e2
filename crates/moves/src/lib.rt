//! What may be done: which tiles a company may lay and where it may place a token; what a seat may
//! buy, sell and bid; which trains and privates a company may buy. The lists are complete, and have
//! nothing else.
//!
//! This crate has no rules of its own. For every candidate in order it uses the call that rules a
//! line, as the contracts say. A lay or a token is listed exactly if that call refuses it by no
//! rule. For other orders there is a row for each candidate: the order and its outcome. It is
//! obeyed, it lacks a consent, or a rule refuses it.
//!
//! The least bid on CS before anybody has bid is 5 above its face value of 40:
//!
//! ```
//! let history = History::start(rt.alloc(), 3);
//! assert_eq!(rt; least_bid(&history, Private::ChamplainStLawrence), 45);
//! ```
//!
//! Reading order: `priced` (what may be done, with its price), `lay_list`, `token_list`; `row`,
//! `opening`, `stock`, `company`, `standing` (the rows of each); `laws`.
#![tactic(auto)]

mod company;
pub mod laws;
mod lay_list;
mod opening;
mod priced;
mod row;
mod standing;
mod stock;
mod token_list;

pub use company::{private_rows, train_rows};
pub use lay_list::{Lays, lays};
pub use opening::{least_bid, opening_rows};
pub use priced::Priced;
pub use row::{Answer, Row};
pub use standing::standing_rows;
pub use stock::{brought_by, stock_rows};
pub use token_list::{Tokens, tokens};
