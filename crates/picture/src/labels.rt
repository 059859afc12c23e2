//! Where a hex has room for a label.

use crate::look::Look;
use crate::point::{Ring, on_ring};
use map_tables::{Hex, Side, TileNo};
use markup::Point;
use tables::Private;

/// Where a label may be, left and right of the centre.
const BESIDE: Point = Point { x: 36, y: 0 };

/// Returns the place of a label: in the corner of this number, or with 6 and 7 to the left and the
/// right of the centre; `None` if there is none. The corner 0 has the name of the hex.
fn corner(digit: u8) -> Option<Point> {
    let side = match digit {
        b'1' => Side::West,
        b'2' => Side::NorthWest,
        b'3' => Side::NorthEast,
        b'4' => Side::East,
        b'5' => Side::SouthEast,
        b'6' => return Some(Point::CENTRE.minus(BESIDE)),
        b'7' => return Some(BESIDE),
        _ => return None,
    };
    Some(on_ring(Ring::Corner, side))
}

/// Returns where the value of the stops of a hex is printed; `None` if it has none.
pub fn value_point(look: &Look) -> Option<Point> {
    match look.lay {
        Some(lay) => corner(value_corners(lay.tile)[lay.rot.turns()]),
        None => corner(printed_value_corner(look.hex)),
    }
}

/// Returns where the kind of a hex is printed; `None` if there is no room, or if the tile's number
/// shows the kind.
pub fn kind_point(look: &Look) -> Option<Point> {
    match look.lay {
        Some(lay) => corner(kind_corners(lay.tile)[lay.rot.turns()]),
        None => corner(printed_kind_corner(look.hex)),
    }
}

/// Returns the corners of the value of a tile's stops, rotation by rotation: with those of the kind
/// they are as far as possible from slots, numbers and track.
fn value_corners(tile: TileNo) -> &'static [u8; 6] {
    match tile {
        TileNo::T1
        | TileNo::T4
        | TileNo::T14
        | TileNo::T15
        | TileNo::T53
        | TileNo::T55
        | TileNo::T57
        | TileNo::T58
        | TileNo::T61
        | TileNo::T63 => b"333333",
        TileNo::T3 => b"333133",
        TileNo::T2 => b"331333",
        TileNo::T54 | TileNo::T56 => b"343133",
        TileNo::T64 | TileNo::T69 => b"133333",
        TileNo::T62 => b"456123",
        TileNo::T59 => b"345113",
        TileNo::T65 => b"313333",
        TileNo::T66 => b"411333",
        TileNo::T67 => b"133457",
        TileNo::T68 => b"561133",
        _ => b"------",
    }
}

/// Returns the corners of the kind of a tile, rotation by rotation.
fn kind_corners(tile: TileNo) -> &'static [u8; 6] {
    match tile {
        TileNo::T53 | TileNo::T61 => b"111111",
        TileNo::T54 => b"121414",
        TileNo::T59 => b"413631",
        TileNo::T64 => b"411141",
        TileNo::T65 => b"141114",
        TileNo::T66 => b"752114",
        TileNo::T67 => b"624731",
        TileNo::T68 => b"456314",
        _ => b"------",
    }
}

/// Returns the corner of the value of a printed stop.
fn printed_value_corner(hex: Hex) -> u8 {
    match hex {
        Hex::A19 | Hex::D14 | Hex::F6 | Hex::F24 | Hex::H12 | Hex::I19 | Hex::K15 => b'3',
        Hex::C15 => b'4',
        Hex::D2 | Hex::E23 | Hex::G19 | Hex::I15 => b'1',
        _ => b'-',
    }
}

/// Returns the corner of the kind of a printed hex.
fn printed_kind_corner(hex: Hex) -> u8 {
    match hex {
        Hex::D10 | Hex::E5 | Hex::E11 | Hex::H18 => b'5',
        Hex::E23 | Hex::G19 => b'4',
        Hex::I15 => b'3',
        _ => b'-',
    }
}

/// Returns where the cost of the terrain of a hex is printed.
pub fn cost_point(hex: Hex) -> Point {
    match hex {
        Hex::D10 | Hex::E5 => on_ring(Ring::Corner, Side::NorthWest),
        Hex::F4 | Hex::F16 | Hex::F22 | Hex::J14 => on_ring(Ring::Corner, Side::NorthEast),
        Hex::G19 => Point { x: -36, y: 8 },
        _ => Point { x: 0, y: -4 },
    }
}

/// Returns where the code of a private is printed in one of its hexes.
pub fn private_point(private: Private, hex: Hex) -> Point {
    match (private, hex) {
        (Private::SchuylkillValley, _) => Point { x: 0, y: 28 },
        (Private::ChamplainStLawrence, _) => on_ring(Ring::Corner, Side::NorthEast),
        (Private::DelawareHudson, _) => on_ring(Ring::Corner, Side::West),
        (Private::CamdenAmboy, _) => on_ring(Ring::Corner, Side::NorthWest),
        (Private::BaltimoreOhio, Hex::I15) => on_ring(Ring::Corner, Side::East),
        _ => Point::CENTRE,
    }
}
