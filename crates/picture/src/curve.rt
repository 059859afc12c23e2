//! A link as a curve.
ghost use Rattle.std.specs.Prelude.{◌≡◌, ◌≤◌, length, map};
ghost use Rattle.picture.specs.Curves.{end_point, ends_of_curve, ends_of_link};

use crate::bend::{Bend, bend_between, is_clockwise};
use crate::look::Look;
use crate::point::{Ring, border_point, on_ring};
use arrayvec::ArrayVec;
use map_tables::{LINKS_MOST, Link, Side, StopNumber, TrackEnd};
use markup::Point;

/// How a curve goes from its first point to its last.
#[derive(Clone, Copy, Default)]
pub enum Way {
    /// Straight.
    #[default]
    Line,
    /// Along a circle of this radius; `clockwise` says which of the two arcs.
    Arc { radius: i32, clockwise: bool },
    /// Towards this point first, and from there to the end.
    Towards(Point),
    /// First towards the first point, and finally from the second point to the end.
    Between(Point, Point),
}

/// A link as a curve.
#[derive(Clone, Copy, Default)]
pub struct Curve {
    pub from: Point,
    pub way: Way,
    pub to: Point,
}

/// The track of a hex, link by link.
pub type Curves = ArrayVec<Curve, LINKS_MOST>;

/// The radius of the arc round a corner.
const SHARP: i32 = 30;

/// The radius of the arc past a side.
const GENTLE: i32 = 90;

/// Returns how the way through a hex goes from a side to another.
pub fn way_across(from: Side, to: Side) -> Way {
    let radius = match bend_between(from, to) {
        Bend::Straight => return Way::Line,
        Bend::Sharp(_) => SHARP,
        Bend::Gentle(_) => GENTLE,
    };
    Way::Arc {
        radius,
        clockwise: is_clockwise(from, to),
    }
}

/// Returns the point towards which the way between a side and a stop leaves the side.
pub fn towards(look: &Look, side: Side, stop: StopNumber) -> Point {
    match look.bend_at(stop) {
        Some(Bend::Sharp(_)) => on_ring(Ring::Far, side),
        _ => on_ring(Ring::HalfWay, side),
    }
}

/// Returns a link between two ends as a curve, given the places of the stops.
fn curve_of(look: &Look, places: (Point, Point), a: TrackEnd, b: TrackEnd) -> Curve
    ensures from { result.from ≡ end_point places a }
    ensures to { result.to ≡ end_point places b }
{
    let way = match (a, b) {
        (TrackEnd::Side(from), TrackEnd::Side(to)) => way_across(from, to),
        (TrackEnd::Side(side), TrackEnd::Stop(stop))
        | (TrackEnd::Stop(stop), TrackEnd::Side(side)) => {
            Way::Towards(towards(look, side, stop))
        }
        (TrackEnd::Stop(_), TrackEnd::Stop(_)) => Way::Line,
    };
    Curve {
        from: end_point(places, a),
        way,
        to: end_point(places, b),
    }
}

/// Returns the track of a hex: for each of its links, in order, a curve from the middle of its side
/// to the middle of another or to the place of its stop, given the places of the stops.
pub fn track_of(look: &Look, places: (Point, Point)) -> Curves
    ensures { map ends_of_curve result.items ≡ map (ends_of_link places) look.now.links.items }
{
    curves_of(look, places, look.links.as_slice())
}

/// Returns some links of a hex as curves.
fn curves_of(look: &Look, places: (Point, Point), links: &[Link]) -> Curves
    requires { length links.now ≤ 6 }
    ensures { map ends_of_curve result.items ≡ map (ends_of_link places) links.now }
{
    let mut track = ArrayVec::new();
    for link in links {
        track.push(curve_of(look, places, link.a, link.b));
    }
    track
}

/// Returns the point of an end of a link: the middle of its side, or the place of its stop.
pub fn end_point(places: (Point, Point), end: TrackEnd) -> Point
    ensures { result ≡ end_point places end }
{
    match end {
        TrackEnd::Side(side) => border_point(side),
        TrackEnd::Stop(StopNumber::First) => places.0,
        TrackEnd::Stop(StopNumber::Second) => places.1,
    }
}
