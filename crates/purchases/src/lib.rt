//! What a company buys, and what follows from that: a train from the bank, the pool or another
//! company, or a private from a player.
//!
//! Each purchase has a table of rules. The first rule that it breaks refuses it; if it breaks none,
//! its events are added to the list. The first train of a later kind begins a phase: trains rust,
//! privates close, and companies discard trains over the limit. The standing lines of an operating
//! round's sheets say in advance which trains a company discards, and to which sales a seat
//! consents.
//!
//! Nothing here depends on the board, or on the step of a company's turn.
//!
//! Each order has a file with its rules, its judgement and its effect, and a file of definitions in
//! `specs/`.
//!
//! Reading order: `consents`, `train`, `phases` (the effects of the first train of a later kind),
//! `discard`, `private`, `offer`, `standing` (the lines before the first company's orders), `laws`.
#![tactic(auto)]

mod consents;
mod discard;
pub mod laws;
mod offer;
mod phases;
mod private;
mod standing;
mod train;

pub use consents::Consents;
pub use discard::{has_train, is_president};
pub use private::{buy_private, judge_private};
pub use standing::{judge_standing, rule_standing_lines, rule_standing_lines_of};
pub use train::{
    NUMBERED, TrainPurchase, buy_train, has_trains, judge_purchase, may_be_traded, purchase_of,
    sells,
};
