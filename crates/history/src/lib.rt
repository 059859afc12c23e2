//! A game as one value: the number of its seats, and the list of its events, oldest first.
//!
//! The crate `totals` defines what the list says, and has the totals that say the same at once. The
//! crate `events` has what happens, an event at a time. This crate re-exports both. A list is sound
//! if nothing in it is against the rules, as `specs/Sound.antt` defines. Most events leave most
//! facts alone; the laws say which events keep a list sound.
//!
//! Reading order: `list` (`History`), `boxed_totals` and `offers_of_round` (what it keeps besides
//! the list), `record_event` (events that follow from the list alone), `conditions` (of orders,
//! checked against a list), `walk` (along a list, with its totals), `laws`.
#![tactic(auto)]

mod boxed_totals;
mod conditions;
pub mod laws;
mod list;
mod offers_of_round;
mod record_event;
mod walk;

pub use events::{
    Bid, Bidding, Event, Holder, Office, OpeningRule, Ownership, PackedLine, PackedRuling,
    ParValue, Party, PayRule, Payment, Placement, PrivateRule, Refusal, Ruling, SUM_MOST,
    Shareholder, StockRule, TrainMove, TrainPlace, TrainRule, TrainSeller, Transfer, Verdict,
};
pub use list::History;
pub use map_tables::{LayRule, RunRule, TokenRule};
pub use totals::{GameView, Owners, ShareCount, Totals, TrainCount, at_least_zero};
pub use walk::Walk;
