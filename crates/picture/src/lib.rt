//! Pictures of hexes and tiles, in whole numbers.
//!
//! The geometry is tables and a few total functions: `Look` is what shows in a hex, with the place
//! of each stop; `track_of` is its links as curves, and `strands` says which links are connected.
//! `lane_shift` is where the run in a lane crosses a border.
//!
//! The definitions, in `specs/`: `Points` (the points of a hex), `Curves` (the ends of a link, and
//! how it bends), `Lanes` (where runs cross a border), `ClosedSides` (the closed borders of a hex),
//! `Frames` (which places are free for a text), `Names` (where names and pills are).
//!
//! Reading order: `point`, `bend`, `look` (what shows in a hex, and where), `curve`, `strands`,
//! `labels` (where there is room for a label), `lanes`, `closed_borders`, `city_names`, `frames`
//! (places for texts), `taken` (the frames of a hex), `names` (where the names are), `pills` (where
//! the pills of a hex are), `drawing` (its track and stops).
#![tactic(auto)]

mod bend;
mod city_names;
mod closed_borders;
mod curve;
mod drawing;
mod frames;
mod labels;
mod lanes;
mod look;
mod names;
mod pills;
mod point;
mod strands;
mod taken;

pub use bend::{Bend, bend_between};
pub use city_names::city_name;
pub use closed_borders::is_closed_side;
pub use curve::{Curve, Curves, Way, towards, track_of, way_across};
pub use drawing::{Marker, draw_stops, draw_track, put_way};
pub use frames::{Frame, Frames};
pub use labels::{cost_point, kind_point, private_point, value_point};
pub use lanes::{LANES_MOST, lane_shift};
pub use look::{Look, Shade, Stops};
pub use names::{BASELINE, Kept, PlacedName, names_on, signs_on};
pub use pills::{pill_half, place_pill, words_of};
pub use point::{Ring, border_point, centre, on_ring};
