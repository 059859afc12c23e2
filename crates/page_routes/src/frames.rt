//! The parts of the map's picture that must stay readable: stops, values, names, and the legend.

use board_state::same_hex;
use history::History;
use map_tables::{Hex, StopNumber, private_hexes, terrain_cost};
use markup::Point;
use picture::{
    Look, PlacedName, Stops, centre, cost_point, kind_point, private_point, value_point,
};
use std::alloc::{AllocError, Global};
use tables::Private;

/// A rectangle of the map, by its upper left and lower right corners.
#[derive(Clone, Copy)]
pub(crate) struct Frame {
    pub(crate) from: Point,
    pub(crate) to: Point,
}

impl Frame {
    /// Returns the frame around a point, this far to both sides and up and down.
    pub(crate) fn around(place: Point, across: i32, down: i32) -> Frame {
        let half = Point { x: across, y: down };
        Frame {
            from: place.minus(half),
            to: place.plus(half),
        }
    }

    /// Returns whether it overlaps another.
    pub(crate) fn meets(self, other: Frame) -> bool {
        self.from.x < other.to.x
            && other.from.x < self.to.x
            && self.from.y < other.to.y
            && other.from.y < self.to.y
    }
}

/// The frames of the map's legend.
pub(crate) const LEGEND: [Frame; 3] = [
    Frame {
        from: Point { x: 20, y: 0 },
        to: Point { x: 300, y: 244 },
    },
    Frame {
        from: Point { x: 1052, y: 664 },
        to: Point { x: 1302, y: 1040 },
    },
    Frame {
        from: Point { x: 840, y: 884 },
        to: Point { x: 1040, y: 1040 },
    },
];

/// Returns the parts of the map that must stay readable, given its names. Fails only if allocation
/// fails.
pub(crate) fn obstacles(
    alloc: Global,
    history: &History,
    names: &[PlacedName],
) -> Result<Vec<Frame>, AllocError> {
    let mut frames = Vec::new(alloc);
    for frame in &LEGEND {
        frames.push(*frame)?;
    }
    for name in names {
        let its = name.frame;
        frames.push(Frame::around(its.middle, its.across, its.down))?;
    }
    for &hex in &Hex::ALL {
        add_frames(&mut frames, &Look::on(history.lays(), hex))?;
    }
    Ok(frames)
}

/// Adds the parts of a hex that must stay readable.
fn add_frames(frames: &mut Vec<Frame>, look: &Look) -> Result<(), AllocError> {
    let middle = centre(look.hex);
    frames.push(Frame::around(middle.plus(Point { x: -40, y: 26 }), 11, 5))?;
    if look.lay.is_some() {
        frames.push(Frame::around(middle.down(47), 15, 5))?;
    } else if terrain_cost(look.hex) > 0 {
        frames.push(Frame::around(middle.plus(cost_point(look.hex)), 15, 14))?;
    }
    if let Stops::Area = look.stops {
        frames.push(Frame::around(middle, 36, 12))?;
    }
    if let Some(place) = value_point(look) {
        frames.push(Frame::around(middle.plus(place), 12, 12))?;
    }
    if let Some(place) = kind_point(look) {
        frames.push(Frame::around(middle.plus(place), 14, 9))?;
    }
    add_stops(frames, look, middle)?;
    for &private in &Private::ALL {
        for its in private_hexes(private) {
            if same_hex(*its, look.hex) {
                let place = middle.plus(private_point(private, look.hex));
                frames.push(Frame::around(place, 16, 9))?;
            }
        }
    }
    Ok(())
}

/// Adds the frames of the stops of a hex.
fn add_stops(frames: &mut Vec<Frame>, look: &Look, middle: Point) -> Result<(), AllocError> {
    let stops = [StopNumber::First, StopNumber::Second];
    for stop in stops.iter().take(look.count) {
        match look.stops {
            Stops::Area => {}
            Stops::Towns => frames.push(Frame::around(middle.plus(look.place(*stop)), 9, 9))?,
            Stops::Cities => {
                let (first, second) = look.slot_places(*stop);
                frames.push(Frame::around(middle.plus(first), 16, 16))?;
                frames.push(Frame::around(middle.plus(second), 16, 16))?;
                if look.count > 1 {
                    let place = middle.plus(look.number_place(*stop));
                    frames.push(Frame::around(place, 9, 9))?;
                }
            }
        }
    }
    Ok(())
}
