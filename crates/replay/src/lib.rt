//! The pages of a game as one list of parts, each with the pages that have it.
//!
//! A page has its parts in layers. `replay_of` merges a layer of all pages: a part that stays from
//! one page to the next stands once. The contract is the law of the list: for each page, the parts
//! that live in it are those of its layer, in order, and they are what its rule of style leaves.
//! `put_replay` writes the parts, in groups by the pages that have them, and `put_rules` the rules
//! of style by which a button for each page leaves those of that page alone. The address of a page
//! does the same as its button. Another button compares that page with an earlier one: each figure
//! stands behind the older one, if it has changed.
//!
//! The definitions, in `specs/`: `Shown` (the parts that live in a page), `Classes` (those that its
//! rule leaves).
//!
//! Reading order: `lasting` (a part with its pages), `merge` (`replay_of`), `classes`, `shown` (how
//! it is written), `rules` (of style, for buttons).
#![tactic(auto)]

mod classes;
mod lasting;
mod merge;
mod rules;
mod shown;

pub use lasting::{Lasting, Layers};
pub use merge::replay_of;
pub use rules::{put_if_before, put_if_shown, put_rules};
pub use shown::{begin_lasting, put_replay};
