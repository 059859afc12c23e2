//! What a search for the best runs of a company's trains works on: a position for these trains,
//! laid out once from any `reach::Network`.
//!
//! A spot is an end of a hex: a stop, or a side. A segment is plain track from one spot to another,
//! a leg is segments from one stop to the next. `Task` has the spots with what each is worth to the
//! company, the segments, the legs, the stops that have legs, the company's tokens, and how many
//! stops each train may visit. `ReadyTask` is a task whose numbers fit and whose legs are known:
//! its type says so.
//!
//! The definitions, in `specs/`:
//!
//! - `Marks`: bits in words as marks.
//! - `Crossed`: which borders a segment crosses.
//! - `Walked`: which steps a leg has.
//! - `Segments`: how the segments that lead from a spot are kept in one table.
//! - `Spots`: what is known of a spot.
//! - `Fit`: why the numbers stay within their bounds.
//! - `Described`: how a position is laid out.
//! - `Legs`: how segments make legs from stop to stop, and where runs may begin.
//!
//! Reading order: `task` (what a search works on), `spot_number` (the number of a spot, whose type
//! says so), `ready_task` (what a search reads of the task), `bit_set` (marks of borders and spots,
//! a bit each), `outgoing_segment` (a segment of track), `segments` (the segments from all spots),
//! `crossing` (the borders of a leg, a set of them), `steps` (the steps of a leg), `spots` (the
//! spots of a position, and the whole task), `legs` (from stop to stop), `mirror` (whether each leg
//! has a reverse).
#![tactic(auto)]

mod bit_set;
mod crossing;
mod legs;
mod mirror;
mod outgoing_segment;
mod ready_task;
mod segments;
mod spot_number;
mod spots;
mod steps;
mod task;

pub use bit_set::{BitPlace, BitSet, Borders, Spots, mixed_with};
pub use crossing::Crossing;
pub use ready_task::ReadyTask;
pub use segments::Segments;
pub use spot_number::SpotNumber;
pub use steps::Steps;
pub use task::{Departures, Leg, Node, Segment, Task};
