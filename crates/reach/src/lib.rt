//! What a company of 1830 can reach over the track on the map.
//!
//! A position is the tiles and tokens on the map: the links of each hex, and for each stop its
//! value, whether it is red, its slots and its tokens. A `Network` is any value that keeps a
//! position; in a contract it is that position. `reached` returns exactly what the walks of a
//! company touch, no less and no more. `reached_stops` returns only the stops, and allocates
//! nothing. `reaches_stop` and `reaches_hex`, which check one stop or hex given a list of the
//! tokens, do not allocate either.
//!
//! The definitions, in `specs/`: `Position` and its laws, `Lawful`; `Walk`, which does not depend
//! on companies or the search, and is used for legal runs too; `Reached`. `Search` is what the
//! search keeps; `Stops` has stops as marks, `Tokens` the tokens where walks begin, and `Pieces`
//! what is reached of one hex.
//!
//! Reading order: `network`, `walk`, `reach_found`, `stops` and `reaches` (the public calls),
//! `search`, `waiting` (the spots still to look at), `link_visitor` (what it does with links),
//! `stop_numbers` (of stops and of spots), `stop_marks`.
#![tactic(auto)]

mod link_visitor;
mod network;
mod reach_found;
mod reaches;
mod search;
mod stop_marks;
mod stop_numbers;
mod stops;
mod waiting;
mod walk;

pub use network::Network;
pub use reach_found::{Reach, reached};
pub use reaches::{reaches_hex, reaches_stop};
pub use search::twin;
pub use stop_marks::StopMarks;
pub use stop_numbers::{SPOTS, STOPS, spot_number, stop_order};
pub use stops::{ReachedStops, reached_stops};
pub use waiting::end_at;
pub use walk::{Spot, WalkStep};
