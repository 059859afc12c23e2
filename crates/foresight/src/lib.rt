//! A game ahead of play: at the start of a turn of the coming round, which has not been played yet.
//!
//! "May I?" is a question about a position, and that is not the game as the last round left it: in
//! the coming round the privates pay first, what was sold in the last round no longer matters, home
//! tokens are placed, and other companies operate earlier. So each call plays up to that position.
//! It does not look at anybody else's sheet for that round, and at the player's own only if they
//! ask for that.
//!
//! Reading order: `draft` (whose sheet is looked at), `round_ahead` (a coming operating round, turn
//! by turn), `orders_ahead` (a company's turn in it, at the start of its orders or after those
//! drafted), `first_turn` (a coming round of turns up to the end of a seat's first turn),
//! `turn_ahead` (an opening or a stock round up to there, or up to the head of that turn),
//! `trial_file` (the files that trials play), `laws`.
#![tactic(auto)]

mod draft;
mod first_turn;
pub mod laws;
mod orders_ahead;
mod round_ahead;
mod trial_file;
mod turn_ahead;

pub use draft::Draft;
pub use orders_ahead::OrdersAhead;
pub use round_ahead::{Ahead, RoundAhead};
pub use trial_file::TrialFile;
pub use turn_ahead::{TurnAhead, at_head, behind_opening, behind_stock};
