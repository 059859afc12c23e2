//! What the trains of a game ran in its last operating round, as lines on the map and as a table.
//!
//! Each run is drawn through its places. Runs that cross the same border lie side by side there,
//! each in its own lane, in the order of the runs. Their sums hide nothing that must be readable,
//! and the names of the map are beside them.
//! For `RUN BEST` it shows legal runs that earn the most.
//!
//! The definitions, in `specs/`: `ShownRuns` (what is shown of runs), `Lanes` (which lane of a
//! border each run has).
//!
//! Reading order: `routes` (what trains ran), `lanes`, `route_lines` (the lines), `frames` (what
//! must stay readable), `line_frames` (where the names of the map are), `tags` (the sums),
//! `route_table`, `laws`.
#![tactic(auto)]

mod frames;
mod lanes;
pub mod laws;
mod line_frames;
mod route_lines;
mod route_table;
mod routes;
mod tags;

pub use lanes::Border;
pub use line_frames::names_beside;
pub use route_lines::{put_line, put_line_ticks, put_lines};
pub use route_table::put_table;
pub use routes::{Route, Routes, Visit, last_routes};
pub use tags::put_tags;
