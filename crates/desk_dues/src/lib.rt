//! What the next train brings: what the first train of the next kind changes, which companies would
//! be left without a train, and what each of them would have to pay.
//!
//! Everything is as things stand in a game: nobody buys, sells or discards anything before.
//!
//! Reading order: `coming_kind` (what the first train of the next kind brings), `fall` (the next
//! kind that takes trains from companies), `then` (the train that must be bought then), `raised`
//! (what a president can raise), `danger` (the companies that would be left without a train),
//! `words` (the same as sentences), `laws`.
#![tactic(auto)]

mod coming_kind;
mod danger;
mod fall;
pub mod laws;
mod raised;
mod then;
mod words;

pub use coming_kind::{NextKind, discarded_with, left_before, next_kind};
pub use danger::{Danger, dangers};
pub use fall::{Fall, next_fall};
pub use raised::raised_at_most;
pub use words::{next_train_lines, next_train_text, push_danger, push_discards, push_next_kind};
