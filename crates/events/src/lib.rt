//! What happens in a game, an event at a time: what an event is, what it says, and how it packs the
//! ruling of a line in few bytes.
//!
//! An event has a few aspects: the payment that it makes, the shares that it moves, the owner of a
//! private that it sets, what it does to the bids on one, the par value, square and president that
//! it sets for a company, and so on. Each function of `Event` returns one of them, as
//! `specs/Event.antt` defines it. A few aspects belong to only one kind of order: how far a seat
//! goes in an auction, the par value that it sets for BO, the sale that it offers. The ruling has
//! those. This crate does not look at lists of events. `totals` does, and by these aspects only.
//!
//! Reading order: `event` (events and their aspects), `ruling` (what became of a line),
//! `packed_place`, `packed_run` and `packed` (how an event packs that).
#![tactic(auto)]

mod event;
mod packed;
mod packed_place;
mod packed_run;
mod ruling;

pub use event::{
    Bid, Bidding, Event, Holder, Office, Ownership, ParValue, Party, Payment, Placement, SUM_MOST,
    Shareholder, TrainMove, TrainPlace, TrainSeller, Transfer,
};
pub use order_grammar::Offer;
pub use packed::{PackedLine, PackedRuling, is_offer};
pub use ruling::{
    OpeningRule, PayRule, PrivateRule, Refusal, Ruling, StockRule, TrainRule, Verdict,
};
