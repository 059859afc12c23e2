//! The best of a company's trains. `best` returns the greatest revenue that a legal set of runs
//! earns, on any `reach::Network`, with runs that earn it and marks that show that none earn more.
//!
//! `legal_runs` defines a legal set, the greatest revenue and a claim; `search_task` defines how
//! the position is laid out as spots, segments and legs. The definitions of this crate, in
//! `specs/`, are of the search alone:
//!
//! - `Moves`: what it tries, move by move.
//! - `MovePath`: how these moves are written down and which runs are read from that.
//! - `Room`: why its sums stay within a limit.
//! - `Extend`: what holds wherever a partial run is looked ahead from, or extended.
//! - `Suffix`: what the last trains earn by themselves, and equal trains one after another, which
//!   bounds what they earn after others.
//! - `Ahead`: what may lie ahead of a run, which bounds what it may still earn.
//! - `WaysOn`: which continuations of a run are futile.
//! - `Last`: at which of the stops ahead it ends, since it could only leave them by the border it
//!   entered by.
//! - `Kept`: which states need not be explored because another one was.
//! - `Canonical`: which of them are equivalent for the trains left.
//! - `Answer`: what the search finds at its end.
//! - `Keeping`: what is kept of each call.
//!
//! The greatest revenue of a 2 that has one city beside its home to run to:
//!
//! ```
//! let home = Stop {
//!     hex: Hex::H12,
//!     number: StopNumber::First,
//! };
//! let lay = Lay {
//!     hex: Hex::H10,
//!     tile: TileNo::T57,
//!     rot: Rotation::One,
//!     swap: false,
//! };
//! let homes = [(home.place(), Company::Pennsylvania)];
//! let Ok(board) = Board::of(rt.alloc(), &[lay], &homes, Kind::Two) else {
//!     panic!(rt; "refused")
//! };
//! let Ok(answer) = best(rt.alloc(), &board, Company::Pennsylvania, &[Kind::Two]) else {
//!     panic!(rt; "memory")
//! };
//! assert_eq!(rt; answer.claim.revenue, 30);
//! ```
//!
//! Reading order: `revenue` (the public call), `claim_and_marks`, `trains` (their order),
//! `bounded_task` (a task with what its last trains earn by themselves), `state` (the trains
//! assigned so far, and the run begun), `lookahead` (what lies ahead of that run) with
//! `value_ahead` (what that is worth), `end_stops` (at which stops ahead it ends), `ways_on` (which
//! ways on may earn more), `move_path` (the moves that earn what has been found), `search_state` (a
//! state that is kept), `memo` (what has been found, and what need not be explored again),
//! `canonical` (states that are equivalent for the trains left), `search`, `claimed` (the runs that
//! a path gives), `runner` (what finds only the revenue), `keeping` (what keeps the runs and marks
//! as well).
#![tactic(auto)]

mod bounded_task;
mod canonical;
mod claim_and_marks;
mod claimed;
mod end_stops;
mod keeping;
mod lookahead;
mod memo;
mod move_path;
mod revenue;
mod runner;
mod search;
mod search_state;
mod state;
mod trains;
mod value_ahead;
mod ways_on;

pub use claim_and_marks::Best;
pub use keeping::Keeping;
pub use revenue::best;
pub use runner::Search;
