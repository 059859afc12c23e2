//! What a list of events says, found by looking back over it, and the totals that say the same at
//! once.
//!
//! Every fact about a game is what the list of its events says. An event has a few aspects: the
//! payment that it makes, the shares that it moves, the owner of a private that it sets, what it
//! does to the bids on one, the par value, square and president that it sets for a company, and so
//! on. There are a few ways of looking back, each generic over the aspect. An account, such as a
//! party's cash, is its start with all that came in minus all that went out, and so is a count of
//! trains. The tiles and tokens on the map are all that events laid and placed, in order. Nearly
//! every other fact is the word of the last event on it. The totals of a list hold all of this and
//! are updated an event at a time; a view of a game reads them.
//!
//! Reading order: `look_back`, `owners`, `bids`, `offers`, `shares`, `operating` and `trains` (the
//! readers of `GameView`), `totals` (what a list says, an event at a time), `balances` and
//! `apply_event` (how an event changes the totals), `event_folds` (the ways of looking back),
//! `event_topics` (the topics).
#![tactic(auto)]

mod apply_event;
mod balances;
mod bids;
mod event_folds;
mod event_topics;
mod look_back;
mod offers;
mod operating;
mod owners;
mod shares;
mod totals;
mod trains;

pub use look_back::GameView;
pub use owners::Owners;
pub use shares::ShareCount;
pub use totals::Totals;
pub use trains::{TrainCount, at_least_zero};
