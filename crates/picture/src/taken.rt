//! The frames of the signs, texts and track of a hex, round its centre.

use crate::curve::{Way, track_of};
use crate::frames::{Frame, Frames, take};
use crate::labels::{cost_point, kind_point, private_point, value_point};
use crate::look::{Look, Stops};
use crate::point::centre;
use arrayvec::ArrayVec;
use board_state::same_hex;
use map_tables::{StopNumber, private_hexes, terrain_cost};
use markup::Point;
use tables::Private;

/// How much of a curve, in twentieths, is before each point where it gets a frame.
const STEPS: [i32; 5] = [2, 6, 10, 14, 18];

/// The radius of an arc that goes past a side, and not round a corner.
const WIDE: i32 = 60;

/// The frame of the coordinate of a hex.
pub(crate) const COORDINATE: Frame = Frame {
    middle: Point { x: -40, y: 26 },
    across: 10,
    down: 5,
};

/// Returns the frames of the signs and texts of a hex, but for its names.
pub fn signs_of(look: &Look) -> Frames {
    let mut frames = ArrayVec::new();
    take(&mut frames, COORDINATE);
    if look.lay.is_some() {
        take(&mut frames, Frame::around(Point { x: 0, y: 47 }, 15, 5));
    } else if terrain_cost(look.hex) > 0 {
        take(
            &mut frames,
            Frame::around(cost_point(look.hex).down(2), 12, 11),
        );
    }
    if let Stops::Area = look.stops {
        take(&mut frames, Frame::around(Point::CENTRE, 35, 12));
    }
    if let Some(place) = value_point(look) {
        take(&mut frames, Frame::around(place, 12, 12));
    }
    if let Some(place) = kind_point(look) {
        take(&mut frames, Frame::around(place, 13, 7));
    }
    if look.count > 0 {
        take_stop(&mut frames, look, StopNumber::First);
    }
    if look.count > 1 {
        take_stop(&mut frames, look, StopNumber::Second);
    }
    take_privates(&mut frames, look);
    frames
}

/// Adds the frames of a stop.
fn take_stop(frames: &mut Frames, look: &Look, stop: StopNumber) {
    match look.stops {
        Stops::Area => {}
        Stops::Towns => take(frames, Frame::around(look.place(stop), 9, 9)),
        Stops::Cities => {
            let (first, second) = look.slot_places(stop);
            take(frames, Frame::around(first, 16, 16));
            take(frames, Frame::around(second, 16, 16));
            if look.count > 1 {
                take(frames, Frame::around(look.number_place(stop), 9, 9));
            }
        }
    }
}

/// Adds the frames of the codes of privates.
fn take_privates(frames: &mut Frames, look: &Look) {
    for &private in &Private::ALL {
        let half = match private {
            Private::BaltimoreOhio => 15,
            _ => 12,
        };
        for its in private_hexes(private) {
            if same_hex(*its, look.hex) {
                take(
                    frames,
                    Frame::around(private_point(private, look.hex), half, 8),
                );
            }
        }
    }
}

/// Returns frames along the track of a hex, on the map.
pub(crate) fn track_frames(look: &Look) -> Frames {
    let middle = centre(look.hex);
    let mut frames = ArrayVec::new();
    for curve in track_of(look, look.places()).as_slice() {
        // The point towards which the curve leaves both its ends, or nearly so.
        let by = match curve.way {
            Way::Line => curve.from.towards(curve.to, 10),
            Way::Towards(by) | Way::Between(by, _) => by,
            Way::Arc { radius, .. } if radius < WIDE => {
                Point::CENTRE.towards(curve.from.plus(curve.to), 3)
            }
            Way::Arc { .. } => Point::CENTRE,
        };
        for &step in &STEPS {
            let before = curve.from.towards(by, step);
            let place = before.towards(by.towards(curve.to, step), step);
            take(&mut frames, Frame::around(place.plus(middle), 6, 6));
        }
    }
    frames
}
