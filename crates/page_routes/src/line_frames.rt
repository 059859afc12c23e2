//! The frames of the lines of the routes, and the names of the map, which are placed beside them.
ghost use Rattle.std.specs.Prelude.{AllPairs, IfOk};
ghost use Rattle.picture.specs.Names.{AreApart};

use crate::frames::LEGEND;
use crate::route_lines::curves_of;
use crate::routes::Routes;
use history::History;
use markup::Point;
use picture::{Curve, Frame, Kept, PlacedName, Way, names_on, signs_on};
use std::alloc::{AllocError, Global};

/// How far a line reaches from its middle: half its width, with its black edge, rounded up.
const HALF: i32 = 5;

/// How much each of the four points of a curve counts, in parts of 512, at the ends of its eighths
/// but the last.
const WEIGHTS: [[i32; 4]; 7] = [
    [343, 147, 21, 1],
    [216, 216, 72, 8],
    [125, 225, 135, 27],
    [64, 192, 192, 64],
    [27, 135, 225, 125],
    [8, 72, 216, 216],
    [1, 21, 147, 343],
];

/// Returns the names on the map of a game. They are over no line of some routes, no sign, and no
/// part of the legend. Fails only if allocation fails.
pub fn names_beside(
    alloc: Global,
    history: &History,
    shown: &Routes,
) -> Result<Vec<PlacedName>, AllocError>
    ensures apart { IfOk result (λ names. AllPairs AreApart names.items) }
{
    let mut signs = signs_on(alloc, history.lays())?;
    for part in &LEGEND {
        signs.push(framed(part.from, part.to, 0))?;
    }
    let lines = line_frames(alloc, history, shown)?;
    let kept = Kept {
        signs: signs.as_slice(),
        lines: lines.as_slice(),
    };
    names_on(alloc, history.lays(), kept)
}

/// Returns frames along the lines of the routes: each eighth of a curve is within one. Fails only
/// if allocation fails.
fn line_frames(alloc: Global, history: &History, shown: &Routes) -> Result<Vec<Frame>, AllocError> {
    let mut frames = Vec::new(alloc);
    for number in 0..shown.routes.len() {
        for curve in &curves_of(alloc, history, shown, number)? {
            add_along(&mut frames, curve)?;
        }
    }
    Ok(frames)
}

/// Adds the frames along a curve.
fn add_along(frames: &mut Vec<Frame>, curve: &Curve) -> Result<(), AllocError> {
    let mut before = curve.from;
    for weights in &WEIGHTS {
        let place = point_on(curve, weights);
        frames.push(framed(before, place, HALF))?;
        before = place;
    }
    frames.push(framed(before, curve.to, HALF))?;
    Ok(())
}

/// Returns the point of a curve at which its four points count so much.
fn point_on(curve: &Curve, weights: &[i32; 4]) -> Point {
    let (first, last) = match curve.way {
        Way::Between(first, last) => (first, last),
        Way::Towards(by) => (by, by),
        Way::Line | Way::Arc { .. } => (curve.from, curve.to),
    };
    let sum = curve
        .from
        .times(weights[0])
        .plus(first.times(weights[1]))
        .plus(last.times(weights[2]))
        .plus(curve.to.times(weights[3]))
        .plus(Point { x: 256, y: 256 });
    Point {
        x: sum.x / 512,
        y: sum.y / 512,
    }
}

/// Returns a frame around two points and this far beyond them.
fn framed(one: Point, other: Point, beyond: i32) -> Frame {
    let from = Point {
        x: one.x.min(other.x),
        y: one.y.min(other.y),
    };
    let size = one.plus(other).minus(from).minus(from);
    Frame::around(
        from.plus(Point {
            x: size.x / 2,
            y: size.y / 2,
        }),
        (size.x / 2)
            .saturating_add(size.x % 2)
            .saturating_add(beyond),
        (size.y / 2)
            .saturating_add(size.y % 2)
            .saturating_add(beyond),
    )
}
