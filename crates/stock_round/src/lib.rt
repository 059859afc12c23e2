//! Stock rounds: players buy and sell shares of the companies.
//!
//! In a turn a player may set a company's par value and so buy its president's certificate, or buy
//! one share of a company, and may sell shares before and after that. A player who does neither
//! passes. Shares of the initial offering cost the par value, those of the pool the market price,
//! which a sale lowers. A player with more shares of a company than its president becomes
//! president. A company floats once at most four shares are left in its initial offering. The round
//! is over when all seats have passed in succession; then the companies whose shares are all with
//! players move up.
//!
//! Reading order: each order has a file with its rules, its judgement and its effect: `par`, `buy`,
//! `sell`, `exchange`. They share `prices` and `float`, and `orders` takes an order to its file.
//! Then `deals` (what a seat has done in a turn), `turn` (the lines of a turn), `standing` (the
//! lines before the first written turn), `closing`, `playing` (as a round of `turns`), `laws` (what
//! holds of every stock round).
#![tactic(auto)]

mod buy;
mod closing;
mod deals;
mod exchange;
mod float;
pub mod laws;
mod orders;
mod par;
mod playing;
mod prices;
mod sell;
mod standing;
mod turn;

pub use deals::ShareDeals;
pub use exchange::{exchange_source, is_no_exchange};
pub use playing::{StockTurns, play_stock};
