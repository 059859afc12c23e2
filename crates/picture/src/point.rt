//! Points of a hex. The centre is 0,0, the side is 60 long, and y grows downwards.
ghost use Rattle.std.specs.Prelude.{◌≡◌};
ghost use Rattle.picture.specs.Points.{border_point, centre};

use map_tables::{Hex, PerSide, Side};
use markup::Point;

/// Six points round a hex, by the number of the side that they belong to.
macro_rules! round {
    ($($x:literal $y:literal),*) => { [$(Point { x: $x, y: $y }),*] };
}

/// Halfway from the centre to the middle of each side.
const HALF_WAY: PerSide<Point> = round!(-13 23, -26 0, -13 -23, 13 -23, 26 0, 13 23);

/// Two thirds of that way.
const FAR: PerSide<Point> = round!(-17 30, -35 0, -17 -30, 17 -30, 35 0, 17 30);

/// The middle of the gentle curve past each side, between the two sides next to it.
const GENTLE: PerSide<Point> = round!(-7 12, -14 0, -7 -12, 7 -12, 14 0, 7 12);

/// How far a stop that leans to an end of such a curve is moved towards the side past which it
/// goes.
const LEANING: PerSide<Point> = round!(-2 3, -4 0, -2 -3, 2 -3, 4 0, 2 3);

/// The middle of the sharp curve round the corner after each side.
const SHARP: PerSide<Point> = round!(-26 15, -26 -15, 0 -30, 26 -15, 26 15, 0 30);

/// A city on that curve.
const SHARP_CITY: PerSide<Point> = round!(-24 14, -24 -14, 0 -28, 24 -14, 24 14, 0 28);

/// How far the two slots of a city on that curve are from its place.
const SHARP_SLOT: PerSide<Point> = round!(8 13, 8 -13, 15 0, 8 13, 8 -13, 15 0);

/// The number of a city of two slots on that curve.
const SHARP_NUMBER: PerSide<Point> = round!(-11 6, -11 -6, 0 -13, 11 -6, 11 6, 0 13);

/// Labels in the corners after the sides.
const CORNER: PerSide<Point> = round!(-35 20, -35 -20, 0 -40, 35 -20, 35 20, 0 32);

/// The number of each side, outside, in pictures of tiles.
const DIGIT: PerSide<Point> = round!(-32 59, -60 4, -32 -51, 32 -51, 60 4, 32 59);

/// Returns the middle of a side.
pub fn border_point(side: Side) -> Point
    ensures { result ≡ border_point side }
{
    match side {
        Side::SouthWest => Point { x: -26, y: 45 },
        Side::West => Point { x: -52, y: 0 },
        Side::NorthWest => Point { x: -26, y: -45 },
        Side::NorthEast => Point { x: 26, y: -45 },
        Side::East => Point { x: 52, y: 0 },
        Side::SouthEast => Point { x: 26, y: 45 },
    }
}

/// Which of the points round a hex.
#[derive(Clone, Copy)]
pub enum Ring {
    HalfWay,
    Far,
    Gentle,
    Leaning,
    Sharp,
    SharpCity,
    SharpSlot,
    SharpNumber,
    Corner,
    Digit,
}

/// Returns one of the points round a hex, by the side that it belongs to.
pub fn on_ring(ring: Ring, side: Side) -> Point {
    let points = match ring {
        Ring::HalfWay => &HALF_WAY,
        Ring::Far => &FAR,
        Ring::Gentle => &GENTLE,
        Ring::Leaning => &LEANING,
        Ring::Sharp => &SHARP,
        Ring::SharpCity => &SHARP_CITY,
        Ring::SharpSlot => &SHARP_SLOT,
        Ring::SharpNumber => &SHARP_NUMBER,
        Ring::Corner => &CORNER,
        Ring::Digit => &DIGIT,
    };
    points[side.number()]
}

/// Returns the centre of a hex on the map. Columns are 52 apart and rows 90.
pub fn centre(hex: Hex) -> Point
    ensures { result ≡ centre hex }
{
    Point {
        x: 52 * i32::from(hex.column()),
        y: 90 * (i32::from(hex.row()) - 65) + 62,
    }
}
