//! The lines of the routes on the map: each from its first stop over its borders to its last, in
//! its own lane where runs share a border.
ghost use Rattle.std.specs.Prelude.{◌≡◌, ◌≤◌, length};

use crate::lanes::{Border, shift_at};
use crate::routes::{Route, Routes, Visit, stop_point};
use history::History;
use map_tables::Side;
use markup::PagePiece::{Number, Place, Point as To, Words};
use markup::{Attr, Point, Tag, Writer};
use picture::{Bend, Curve, Look, Way, bend_between, border_point, centre, put_way, towards};
use std::alloc::{AllocError, Global};
use tables::Money;

/// A run as drawn, among those that share its borders.
#[derive(Clone, Copy)]
struct Course<'a> {
    history: &'a History,
    routes: &'a [Route],
    turned: &'a [Border],
    /// The number of the run, from 0.
    number: usize,
    ghost listed: { number ≤ length routes.now },
}

/// Adds the lines of the routes. Fails only if allocation fails.
pub fn put_lines(
    alloc: Global,
    out: &mut Writer,
    history: &History,
    shown: &Routes,
) -> Result<(), AllocError> {
    for (number, route) in shown.routes.iter().enumerate() {
        let course = course_of(history, shown, number);
        let curves = course.curves(alloc, route)?;
        out.begin(Tag::Group);
        put_title(out, route);
        for class in ["ra", "rb", "rc"] {
            out.begin_as(Tag::Path, class);
            put_data(out, curves.as_slice());
            if class == "rc" {
                out.line_colour(route.company);
                out.line_dash(route.company);
            }
            out.end();
        }
        course.put_ticks(out, route);
        out.end();
    }
    Ok(())
}

/// Returns the run with a number among the routes.
fn course_of<'a>(history: &'a History, shown: &'a Routes, number: usize) -> Course<'a>
    requires { number ≤ length shown.now.routes.items }
    ensures { result.number ≡ number }
{
    Course {
        history,
        routes: shown.routes.as_slice(),
        turned: shown.turned.as_slice(),
        number,
    }
}

/// Adds the line of the route with a number as a path without a class; nothing if there is no such
/// route. Fails only if allocation fails.
pub fn put_line(
    alloc: Global,
    out: &mut Writer,
    history: &History,
    shown: &Routes,
    number: usize,
) -> Result<(), AllocError> {
    let curves = curves_of(alloc, history, shown, number)?;
    if !curves.is_empty() {
        out.begin(Tag::Path);
        put_data(out, curves.as_slice());
        out.end();
    }
    Ok(())
}

/// Returns the line of the route with a number, curve by curve; none if there is no such route.
/// Fails only if allocation fails.
pub(crate) fn curves_of(
    alloc: Global,
    history: &History,
    shown: &Routes,
    number: usize,
) -> Result<Vec<Curve>, AllocError> {
    match shown.routes.as_slice().get(number) {
        Some(route) => course_of(history, shown, number).curves(alloc, route),
        None => Ok(Vec::new(alloc)),
    }
}

/// Adds the data of a line.
fn put_data(out: &mut Writer, curves: &[Curve]) {
    out.attr(Attr::D);
    for (number, curve) in curves.iter().enumerate() {
        if number == 0 {
            out.put(&[Words("M"), To(curve.from)]);
        }
        put_way(out, curve.way, curve.to);
    }
}

/// Adds the ticks of the route with a number: as many at each border as trains of its company ran
/// before it; nothing if there is no such route.
pub fn put_line_ticks(out: &mut Writer, history: &History, shown: &Routes, number: usize) {
    if let Some(route) = shown.routes.as_slice().get(number) {
        course_of(history, shown, number).put_ticks(out, route);
    }
}

/// Adds a title with a route in words.
fn put_title(out: &mut Writer, route: &Route) {
    out.begin(Tag::Title);
    out.within();
    let code = Words(route.company.code());
    out.put(&[code, Words(" "), Words(route.kind.code()), Words("-train:")]);
    for visit in &route.visits {
        out.put(&[Words(" "), Place(visit.place)]);
    }
    out.put(&[Words(", "), Number(Money::from(route.sum))]);
    out.end();
}

impl Course<'_> {
    /// Returns how far from the middle of its border the run crosses it by a side of the hex of a
    /// visit.
    fn shift(&self, visit: &Visit, side: Side) -> Point {
        shift_at(self.routes, self.turned, self.number, visit.place.hex, side)
    }

    /// Returns the point of the map at which the run crosses the border at a side of the hex of a
    /// visit.
    fn crossing(&self, visit: &Visit, side: Side) -> Point {
        centre(visit.place.hex)
            .plus(border_point(side))
            .plus(self.shift(visit, side))
    }

    /// Returns the curves of the line: from its first stop over each border, and by each stop, to
    /// its last.
    fn curves(&self, alloc: Global, route: &Route) -> Result<Vec<Curve>, AllocError> {
        let mut curves = Vec::new(alloc);
        let mut came = None;
        let mut from = Point::CENTRE;
        for visit in &route.visits {
            if let Some(to) = stop_point(self.history, visit.place) {
                if let Some(side) = came {
                    let (first, last) = self.between(visit, side, to);
                    let way = Way::Between(first, last);
                    curves.push(Curve { from, way, to })?;
                }
                from = to;
            }
            if let Some(side) = visit.leaves {
                let way = self.departure(visit, came, side);
                let to = self.crossing(visit, side);
                curves.push(Curve { from, way, to })?;
                from = to;
            }
            came = match visit.leaves {
                Some(side) => Some(side.facing()),
                None => None,
            };
        }
        Ok(curves)
    }

    /// Returns the points between which the line goes from a side to the place of a stop. It stays
    /// as far beside the track as it crosses the border beside the middle, until it is near the
    /// stop.
    fn between(&self, visit: &Visit, side: Side, place: Point) -> (Point, Point) {
        let hex = visit.place.hex;
        let by = match visit.place.stop {
            Some(stop) => towards(&Look::on(self.history.lays(), hex), side, stop),
            None => Point::CENTRE,
        };
        let by = centre(hex).plus(by);
        let shift = self.shift(visit, side);
        (
            self.crossing(visit, side).towards(by.plus(shift), 13),
            place.towards(by, 13).plus(shift).plus(shift),
        )
    }

    /// Returns the way on to the next border, from a stop or from the border over which the run
    /// came.
    fn departure(&self, visit: &Visit, came: Option<Side>, side: Side) -> Way {
        match (stop_point(self.history, visit.place), came) {
            (Some(place), _) => {
                let (first, last) = self.between(visit, side, place);
                Way::Between(last, first)
            }
            (None, Some(from)) => self.way_through(visit, from, side),
            (None, None) => Way::Line,
        }
    }

    /// Returns the way through a hex without a stop, from the border at one side to that at
    /// another. It leaves both towards the centre of the hex.
    fn way_through(&self, visit: &Visit, from: Side, to: Side) -> Way {
        let twentieths = match bend_between(from, to) {
            Bend::Straight => return Way::Line,
            Bend::Gentle(_) => 11,
            Bend::Sharp(_) => 14,
        };
        let middle = centre(visit.place.hex);
        Way::Between(
            self.crossing(visit, from).towards(middle, twentieths),
            self.crossing(visit, to).towards(middle, twentieths),
        )
    }

    /// Adds a tick at each border for each train of the company that ran before this one.
    fn put_ticks(&self, out: &mut Writer, route: &Route) {
        let count = trains_before(self.routes, self.number, route);
        if count == 0 {
            return;
        }
        for class in ["tk", "tw"] {
            out.begin_as(Tag::Path, class);
            out.attr(Attr::D);
            for visit in &route.visits {
                if let Some(side) = visit.leaves {
                    put_ticks_at(out, self.crossing(visit, side), side, count);
                }
            }
            out.end();
        }
    }
}

/// The most ticks at a border.
const TICKS_MOST: usize = 7;

/// Returns how many earlier runs are of the same company, up to `TICKS_MOST`.
pub(crate) fn trains_before(routes: &[Route], number: usize, route: &Route) -> usize
    ensures { result ≤ 7 }
{
    let mut count: usize = 0;
    for other in routes.iter().take(number) {
        if other.company == route.company {
            count = count.saturating_add(1);
        }
    }
    count.min(TICKS_MOST)
}

/// Adds ticks across a line where it crosses the border at a side, next to each other along the
/// line.
fn put_ticks_at(out: &mut Writer, place: Point, side: Side, count: usize)
    requires { count ≤ 7 }
{
    let (across, down, on) = match side {
        Side::West | Side::East => (0, 4, Point { x: 3, y: 0 }),
        Side::SouthWest | Side::NorthEast => (4, 2, Point { x: 2, y: -3 }),
        Side::NorthWest | Side::SouthEast => (-4, 2, Point { x: 2, y: 3 }),
    };
    for number in 0..count {
        let half_steps = (2 * number + 1) as i32 - count as i32;
        let middle = place.plus(on.times(half_steps));
        put_tick(out, middle, Point { x: across, y: down });
    }
}

/// Adds a tick centred on a point, half of it given as a point.
fn put_tick(out: &mut Writer, middle: Point, half: Point) {
    out.put(&[
        Words("M"),
        To(middle.minus(half)),
        Words("L"),
        To(middle.plus(half)),
    ]);
}

/// Adds ticks across a horizontal line at a point.
pub(crate) fn put_sample_ticks(out: &mut Writer, place: Point, count: usize)
    requires { count ≤ 7 }
{
    for class in ["tk", "tw"] {
        out.begin_as(Tag::Path, class);
        out.attr(Attr::D);
        put_ticks_at(out, place, Side::East, count);
        out.end();
    }
}
