//! The sum of each route on the map: a box with the token of its company, which covers nothing that
//! must stay readable.
ghost use Rattle.std.specs.Prelude.{pos, ◌≤ℤ◌};

use crate::frames::{Frame, obstacles};
use crate::lanes::{Crossing, crossings_of};
use crate::routes::{Route, Routes, stop_point};
use history::History;
use map_tables::Place;
use markup::PagePiece::{At, Number, Point as To, Words};
use markup::{Point, Writer};
use picture::PlacedName;
use std::alloc::{AllocError, Global};
use tables::{Amount, Money};

/// The position of a route's tag: the middle of its token, and the side on which the sum is.
#[derive(Clone, Copy)]
struct Spot {
    place: Point,
    is_left: bool,
}

/// The frames of earlier tags and of the hexes, and the points where runs cross borders.
#[derive(Drop)]
struct Taken {
    frames: Vec<Frame>,
    crossings: Vec<Crossing>,
}

/// The directions in which a tag may be placed beside a stop, nearest first: right, left, below,
/// above, and between these.
const DIRECTIONS: [Point; 12] = [
    Point { x: 10, y: 0 },
    Point { x: -10, y: 0 },
    Point { x: 9, y: 5 },
    Point { x: -9, y: 5 },
    Point { x: 9, y: -5 },
    Point { x: -9, y: -5 },
    Point { x: 5, y: 9 },
    Point { x: -5, y: 9 },
    Point { x: 5, y: -9 },
    Point { x: -5, y: -9 },
    Point { x: 0, y: 10 },
    Point { x: 0, y: -10 },
];

/// How far from a stop a tag may be, in tenths of the directions.
const DISTANCES: [i32; 6] = [24, 30, 38, 48, 60, 75];

/// Adds the tags of the routes, given the names on the map. Fails only if allocation fails.
pub fn put_tags(
    alloc: Global,
    out: &mut Writer,
    history: &History,
    shown: &Routes,
    names: &[PlacedName],
) -> Result<(), AllocError> {
    let routes = shown.routes.as_slice();
    let mut taken = Taken {
        frames: obstacles(alloc, history, names)?,
        crossings: crossings_of(alloc, routes, shown.turned.as_slice())?,
    };
    for (number, route) in routes.iter().enumerate() {
        let width = width_of(route.sum);
        if let Some(spot) = taken.spot_for(history, route, number, width) {
            put_tag(out, route, spot, width);
            taken.frames.push(frame_of(spot, width))?;
        }
    }
    Ok(())
}

impl Taken {
    /// Returns whether a tag may be placed at a spot: it covers no taken frame, and no point where
    /// another run crosses a border.
    fn is_free(&self, spot: Spot, number: usize, width: i32) -> bool
        requires least { pos 0 ≤ℤ width }
        requires most { width ≤ℤ pos 100 }
    {
        let frame = frame_of(spot, width);
        for crossing in &self.crossings {
            if crossing.number != number && Frame::around(crossing.point, 4, 4).meets(frame) {
                return false;
            }
        }
        for other in &self.frames {
            if other.meets(frame) {
                return false;
            }
        }
        true
    }

    /// Returns a free spot for the tag of a route: at a border that no other run crosses, or else
    /// beside its last stop.
    fn spot_for(&self, history: &History, route: &Route, number: usize, width: i32) -> Option<Spot>
        requires least { pos 0 ≤ℤ width }
        requires most { width ≤ℤ pos 100 }
    {
        for crossing in &self.crossings {
            if crossing.number == number && crossing.lanes == 1 {
                for is_left in [false, true] {
                    let spot = Spot {
                        place: crossing.point,
                        is_left,
                    };
                    if self.is_free(spot, number, width) {
                        return Some(spot);
                    }
                }
            }
        }
        let last = route.visits.last()?;
        self.spot_beside(history, last.place, number, width)
    }

    /// Returns a free spot for a tag beside a stop.
    fn spot_beside(
        &self,
        history: &History,
        place: Place,
        number: usize,
        width: i32,
    ) -> Option<Spot>
        requires least { pos 0 ≤ℤ width }
        requires most { width ≤ℤ pos 100 }
    {
        let stop = stop_point(history, place)?;
        for distance in &DISTANCES {
            for direction in &DIRECTIONS {
                let spot = Spot {
                    place: stop.plus(Point {
                        x: direction.x * distance / 10,
                        y: direction.y * distance / 10,
                    }),
                    is_left: direction.x < 0,
                };
                if self.is_free(spot, number, width) {
                    return Some(spot);
                }
            }
        }
        None
    }
}

/// Returns the frame of a tag, with the token at its end.
fn frame_of(spot: Spot, width: i32) -> Frame
    requires least { pos 0 ≤ℤ width }
    requires most { width ≤ℤ pos 100 }
{
    let (left, right) = if spot.is_left { (width, 9) } else { (9, width) };
    Frame {
        from: spot.place.minus(Point { x: left, y: 9 }),
        to: spot.place.plus(Point { x: right, y: 9 }),
    }
}

/// Returns the width of a sum's tag beside its token.
fn width_of(sum: Amount) -> i32
    ensures least { pos 0 ≤ℤ result }
    ensures most { result ≤ℤ pos 100 }
{
    let digits = if sum < 10 {
        1
    } else if sum < 100 {
        2
    } else if sum < 1_000 {
        3
    } else {
        4
    };
    13 + 8 * digits
}

/// Adds the tag of a route: a box with the sum, and the token of the company at its end.
fn put_tag(out: &mut Writer, route: &Route, spot: Spot, width: i32)
    requires least { pos 0 ≤ℤ width }
    requires most { width ≤ℤ pos 100 }
{
    let (along, back, text) = if spot.is_left {
        (-width, width, Point { x: 3 - width, y: 4 })
    } else {
        (width, -width, Point { x: 11, y: 4 })
    };
    out.path(
        "tag",
        &[
            Words("M"),
            To(spot.place.down(-8)),
            Words("h"),
            At(along),
            Words("v16h"),
            At(back),
            Words("z"),
        ],
    );
    out.label(
        "tt",
        spot.place.plus(text),
        &[Number(Money::from(route.sum))],
    );
    out.token("#m", route.company, spot.place);
}
