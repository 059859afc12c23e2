//! Runs of trains of 1830: what a legal run is, what a legal set of runs is, and the checks of
//! written runs.
//!
//! `check_run` rules a run of a company's train over any `reach::Network`. It returns what the run
//! earns and marks the borders that it crosses as used, or returns the first rule that it breaks.
//! `claim_holds` checks a revenue with runs that earn it, and `can_run` whether a company can run
//! at all. None of them allocates.
//!
//! The definitions, in `specs/`: `Legal` says which stops a walk visits, which borders it crosses
//! and what a legal run is, and does not depend on places. `Named` says which walk a list of places
//! names, and `Written` the places of a walk. `Fault` is the table of the rules. `Law` joins them:
//! places name a legal run exactly if they break no rule, and some places name each legal run.
//! `Marks` says which borders earlier runs crossed. `Tally` is what the check keeps of the steps
//! that it has followed.
//!
//! `Set` says what a legal set of runs is, what it earns and what the greatest revenue is;
//! `Greatest` has its laws. `Claim` says when a claim of runs holds, `InTurn` how that is checked
//! run by run, and `Places` how many places its runs have. `TwoTrain` says when a company can run.
//!
//! Reading order: `check` (the public call), `border_numbers`, `used`, `leg` (from place to place),
//! `tally`, `laws`; `claim` (a revenue with runs that earn it), `in_turn` (whether a claim holds),
//! `write` (a run by its places, from its walk), `runner` (what finds the greatest revenue),
//! `two_train`.
#![tactic(auto)]

mod border_numbers;
mod check;
mod claim;
mod in_turn;
pub mod laws;
mod leg;
mod runner;
mod tally;
mod two_train;
mod used;
mod write;

pub use border_numbers::{BORDERS, border_to};
pub use check::{RunFault, check_run};
pub use claim::{Claim, ClaimedRun, ClaimedRuns};
pub use in_turn::claim_holds;
pub use runner::{Runner, RunnerFault};
pub use tally::{has_token_at_stop, is_full, worth};
pub use two_train::can_run;
pub use used::Used;
pub use write::write_run;
