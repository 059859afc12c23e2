//! The opening: players buy the private companies, or bid on them.
//!
//! In a turn a player buys the cheapest unsold private at its price, bids on another one, or
//! passes. When the cheapest is sold, bids on the next are settled at once: a single bidder buys it
//! at that bid, and several bidders hold an auction. CA comes with a share of PRR, BOP with the
//! presidency of BO. The round is over when all privates are sold, or when all seats have passed in
//! succession. In the latter case SV's price falls by 5 if it is unsold, and at 0 SV goes to the
//! holder of priority for nothing; if SV is sold, each sold private pays.
//!
//! Reading order: the four orders, each with its rules, its judgement and its effect (`buy`, `bid`,
//! `limit`, `par_of_bo`), and what they share (`bank`). Then `standing` (the lines before the first
//! written turn), `bidding` (the auction), `sale` (with what comes with it and what follows from
//! it), `turn` (the lines of a turn), `closing`, `opening` (as a round of `turns`), `laws` (what
//! holds of every opening round and auction). In `specs/`, `LimitsKept`, `UnderwayKept` and
//! `Keeping` are not rules; they prove what a round of turns needs.
#![tactic(auto)]

mod bank;
mod bid;
mod bidding;
mod buy;
mod closing;
pub mod laws;
mod limit;
mod opening;
mod par_of_bo;
mod sale;
mod standing;
mod turn;

pub use bank::price_of_private;
pub use bidding::auction;
pub use opening::{OpeningTurns, play_opening};
pub use standing::judge_standing;
pub use turn::judge;
