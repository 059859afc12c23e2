//! Which lane of a border each run has.
ghost use Rattle.std.specs.Prelude.{◌≡◌, ◌≤◌, length};
ghost use Rattle.page_routes.specs.Lanes.{border_at, crosses, crosses_at, is_among, lane_of, lanes_of, same_border, shift_of};

use crate::routes::{Route, Visit};
use board_state::same_hex;
use map_tables::{Hex, Side, neighbour};
use markup::Point;
use picture::{border_point, centre, lane_shift};
use std::alloc::{AllocError, Global};

/// A border between two hexes, named by a side of one of them.
#[derive(Clone, Copy)]
pub struct Border {
    pub hex: Hex,
    pub side: Side,
}

/// Returns the border at a side of a hex, under the one name that both its hexes give it: that of
/// the hex to the west.
pub(crate) fn border_at(hex: Hex, side: Side) -> Border
    ensures { result ≡ border_at hex side }
{
    match (side, neighbour(hex, side)) {
        (Side::SouthWest | Side::West | Side::NorthWest, Some(other)) => Border {
            hex: other,
            side: side.facing(),
        },
        _ => Border { hex, side },
    }
}

/// Returns whether two borders are the same.
fn same_border(one: Border, other: Border) -> bool
    ensures { result ≡ same_border one other }
{
    same_hex(one.hex, other.hex) && one.side.number() == other.side.number()
}

/// Returns whether a run leaves the hex of a visit over a border.
fn crosses_at(border: Border, visit: &Visit) -> bool
    ensures { result ≡ crosses_at border visit.now }
{
    match visit.leaves {
        Some(side) => same_border(border, border_at(visit.place.hex, side)),
        None => false,
    }
}

/// Returns whether a run crosses a border.
fn crosses(border: Border, route: &Route) -> bool
    ensures { result ≡ crosses border route.now }
{
    for visit in &route.visits {
        if crosses_at(border, visit) {
            return true;
        }
    }
    false
}

/// Returns how many of some runs cross a border.
fn lanes_of(border: Border, routes: &[Route]) -> usize
    ensures { result ≡ lanes_of border routes.now }
{
    let mut count = 0;
    for route in routes {
        if crosses(border, route) {
            count += 1;
        }
    }
    count
}

/// Returns whether a border is one of some.
fn is_among(border: Border, borders: &[Border]) -> bool
    ensures { result ≡ is_among border borders.now }
{
    for other in borders {
        if same_border(border, *other) {
            return true;
        }
    }
    false
}

/// A lane of a border.
#[derive(Clone, Copy)]
pub(crate) struct Lane {
    /// How many lanes the border has: one for each run that crosses it.
    pub(crate) lanes: usize,
    /// The number of the lane, from 0.
    pub(crate) lane: usize,
}

/// Returns the lane of a run at a border: in the order of the runs, or in reverse if the border is
/// turned.
pub(crate) fn lane_at(routes: &[Route], turned: &[Border], number: usize, border: Border) -> Lane
    requires { number ≤ length routes.now }
    ensures lane { result.lane ≡ lane_of border routes.now turned.now number }
    ensures lanes { result.lanes ≡ lanes_of border routes.now }
{
    let lanes = lanes_of(border, routes);
    let before = lanes_of(border, &routes[..number]);
    Lane {
        lanes,
        lane: if is_among(border, turned) {
            lanes.saturating_sub(1).saturating_sub(before)
        } else {
            before
        },
    }
}

/// Where a run crosses a border.
#[derive(Clone, Copy)]
pub(crate) struct Crossing {
    /// The number of the run, from 0.
    pub(crate) number: usize,
    /// How many runs cross the border.
    pub(crate) lanes: usize,
    /// The point of the map.
    pub(crate) point: Point,
}

/// Returns how far from the middle of its border a run crosses it by a side of a hex.
pub(crate) fn shift_at(
    routes: &[Route],
    turned: &[Border],
    number: usize,
    hex: Hex,
    side: Side,
) -> Point
    requires { number ≤ length routes.now }
    ensures { lanes_of (border_at hex side) routes.now ≤ 99 →
        result ≡ shift_of (border_at hex side) routes.now turned.now number side }
{
    let lane = lane_at(routes, turned, number, border_at(hex, side));
    lane_shift(side, lane.lane, lane.lanes)
}

/// Returns where each run crosses each of its borders, run by run. Fails only if allocation fails.
pub(crate) fn crossings_of(
    alloc: Global,
    routes: &[Route],
    turned: &[Border],
) -> Result<Vec<Crossing>, AllocError> {
    let mut crossings = Vec::new(alloc);
    for (number, route) in routes.iter().enumerate() {
        for visit in &route.visits {
            if let Some(side) = visit.leaves {
                let hex = visit.place.hex;
                let middle = centre(hex).plus(border_point(side));
                crossings.push(Crossing {
                    number,
                    lanes: lanes_of(border_at(hex, side), routes),
                    point: middle.plus(shift_at(routes, turned, number, hex, side)),
                })?;
            }
        }
    }
    Ok(crossings)
}

/// A border that several runs cross. Whether a border of a group is turned depends on the others,
/// so that runs lie side by side between them.
#[derive(Clone, Copy)]
struct Shared {
    border: Border,
    group: usize,
    is_turned: bool,
}

/// Returns the turned borders, whose lanes are numbered from the other end. With these turned, runs
/// lie side by side on their way through a hex without a stop, and do not cross there. If two runs
/// disagree about a border, the earlier run counts. Fails only if allocation fails.
pub(crate) fn turned_borders(alloc: Global, routes: &[Route]) -> Result<Vec<Border>, AllocError> {
    let mut shared = shared_borders(alloc, routes)?;
    for route in routes {
        let mut came: Option<Side> = None;
        for visit in &route.visits {
            if let (Some(from), Some(to), None) = (came, visit.leaves, visit.place.stop) {
                join(shared.as_mut_slice(), visit.place.hex, from, to);
            }
            came = match visit.leaves {
                Some(side) => Some(side.facing()),
                None => None,
            };
        }
    }
    let mut turned = Vec::new(alloc);
    for one in &shared {
        if one.is_turned {
            turned.push(one.border)?;
        }
    }
    Ok(turned)
}

/// Returns the borders that several runs cross, none of them turned, each in its own group.
fn shared_borders(alloc: Global, routes: &[Route]) -> Result<Vec<Shared>, AllocError> {
    let mut shared: Vec<Shared> = Vec::new(alloc);
    for route in routes {
        for visit in &route.visits {
            if let Some(side) = visit.leaves {
                let border = border_at(visit.place.hex, side);
                let group = shared.len();
                if find(shared.as_slice(), border).is_none() && lanes_of(border, routes) > 1 {
                    shared.push(Shared {
                        border,
                        group,
                        is_turned: false,
                    })?;
                }
            }
        }
    }
    Ok(shared)
}

/// Returns the entry of a border, if several runs cross it.
fn find(shared: &[Shared], border: Border) -> Option<Shared> {
    for one in shared {
        if same_border(one.border, border) {
            return Some(*one);
        }
    }
    None
}

/// Joins the groups of the borders at two sides of a hex, so that runs lie side by side from one to
/// the other. Lanes counted downwards cross between two eastern or two western sides: there one
/// border is turned and the other is not.
fn join(shared: &mut [Shared], hex: Hex, from: Side, to: Side) {
    let (Some(one), Some(other)) = (
        find(shared, border_at(hex, from)),
        find(shared, border_at(hex, to)),
    ) else {
        return;
    };
    if one.group == other.group {
        return;
    }
    let is_odd = is_eastern(from) == is_eastern(to);
    let is_turned = (one.is_turned != other.is_turned) != is_odd;
    for entry in shared {
        if entry.group == other.group {
            entry.group = one.group;
            entry.is_turned = entry.is_turned != is_turned;
        }
    }
}

/// Returns whether a side is in the east of a hex.
fn is_eastern(side: Side) -> bool {
    matches!(side, Side::NorthEast | Side::East | Side::SouthEast)
}
