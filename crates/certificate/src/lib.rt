//! Certificates of best runs: the choice tree of a company's runs, marks by which a check walks
//! over it, and their text.
//!
//! `legal_runs` has what a legal run, a legal set of runs and a claim are. `accepts` checks by
//! marks that a claim has the greatest revenue, and allocates nothing; `write_marks` writes them.
//!
//! The definitions, in `specs/`: `Tree` is the choice tree with the bound of a node, and `TreeLaws`
//! joins it to the legal sets. `Ranking` is a table of the values of reached stops, from which that
//! bound is found in a few steps. `Holding` says which marks hold at a node, how they are read over
//! the nodes ahead, and when a claim is accepted by them; `HoldingLaws` says that it then has the
//! greatest revenue. `Digits` is how marks are written in a text. `Checked` is how calls of a
//! runner use groups, each a claim with its marks. `Filled` is marks that hold however the last
//! digit of their text is padded.
//!
//! Reading order: `ranking` (what a run may still earn), `hex` (marks in a text), `bits` (marks as
//! they are kept). `accept` is the check of a claim by marks, and their writing. Both are one walk
//! over the choice tree (`tree_walk`, over `tree`, which has a table of links, `hex_links`, and one
//! of stops, `known_stops`), in which a `decider` decides at each node: a `reader` of marks or a
//! `writer`. `Walked` says what a walk is, and `Walking` where it is, by what it keeps in place.
//! `group` is what a text of certificates says of a company's best runs, and `checked` is the
//! runner that uses such groups.
#![tactic(auto)]

mod accept;
mod bits;
mod checked;
mod decider;
mod group;
mod hex;
mod hex_links;
mod known_stops;
pub mod laws;
mod link_ends;
mod ranking;
mod reader;
mod tree;
mod tree_walk;
mod writer;

pub use accept::{accepts, accepts_bits, write_marks};
pub use bits::{BitReader, Bits};
pub use checked::{Checked, shows};
pub use group::Group;
pub use hex::{HexFault, print_hex, read_hex};
pub use legal_runs::{
    Claim, ClaimedRun, ClaimedRuns, RunFault, Runner, RunnerFault, Used, border_to, can_run,
    check_run, claim_holds, write_run,
};
pub use ranking::Ranking;
