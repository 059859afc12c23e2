//! Each piece of track that a hex can have, by its two ends: a side and a farther side, or a side
//! and stop 0 or 1.

use crate::place::StopNumber;
use crate::side::Side;
use crate::track::{TrackEnd, TrackSegment};

pub(crate) const SW_W: TrackSegment = TrackSegment {
    a: TrackEnd::Side(Side::SouthWest),
    b: TrackEnd::Side(Side::West),
};

pub(crate) const SW_NW: TrackSegment = TrackSegment {
    a: TrackEnd::Side(Side::SouthWest),
    b: TrackEnd::Side(Side::NorthWest),
};

pub(crate) const SW_NE: TrackSegment = TrackSegment {
    a: TrackEnd::Side(Side::SouthWest),
    b: TrackEnd::Side(Side::NorthEast),
};

pub(crate) const SW_E: TrackSegment = TrackSegment {
    a: TrackEnd::Side(Side::SouthWest),
    b: TrackEnd::Side(Side::East),
};

pub(crate) const SW_SE: TrackSegment = TrackSegment {
    a: TrackEnd::Side(Side::SouthWest),
    b: TrackEnd::Side(Side::SouthEast),
};

pub(crate) const SW_0: TrackSegment = TrackSegment {
    a: TrackEnd::Side(Side::SouthWest),
    b: TrackEnd::Stop(StopNumber::First),
};

pub(crate) const SW_1: TrackSegment = TrackSegment {
    a: TrackEnd::Side(Side::SouthWest),
    b: TrackEnd::Stop(StopNumber::Second),
};

pub(crate) const W_NW: TrackSegment = TrackSegment {
    a: TrackEnd::Side(Side::West),
    b: TrackEnd::Side(Side::NorthWest),
};

pub(crate) const W_NE: TrackSegment = TrackSegment {
    a: TrackEnd::Side(Side::West),
    b: TrackEnd::Side(Side::NorthEast),
};

pub(crate) const W_E: TrackSegment = TrackSegment {
    a: TrackEnd::Side(Side::West),
    b: TrackEnd::Side(Side::East),
};

pub(crate) const W_SE: TrackSegment = TrackSegment {
    a: TrackEnd::Side(Side::West),
    b: TrackEnd::Side(Side::SouthEast),
};

pub(crate) const W_0: TrackSegment = TrackSegment {
    a: TrackEnd::Side(Side::West),
    b: TrackEnd::Stop(StopNumber::First),
};

pub(crate) const W_1: TrackSegment = TrackSegment {
    a: TrackEnd::Side(Side::West),
    b: TrackEnd::Stop(StopNumber::Second),
};

pub(crate) const NW_NE: TrackSegment = TrackSegment {
    a: TrackEnd::Side(Side::NorthWest),
    b: TrackEnd::Side(Side::NorthEast),
};

pub(crate) const NW_E: TrackSegment = TrackSegment {
    a: TrackEnd::Side(Side::NorthWest),
    b: TrackEnd::Side(Side::East),
};

pub(crate) const NW_SE: TrackSegment = TrackSegment {
    a: TrackEnd::Side(Side::NorthWest),
    b: TrackEnd::Side(Side::SouthEast),
};

pub(crate) const NW_0: TrackSegment = TrackSegment {
    a: TrackEnd::Side(Side::NorthWest),
    b: TrackEnd::Stop(StopNumber::First),
};

pub(crate) const NW_1: TrackSegment = TrackSegment {
    a: TrackEnd::Side(Side::NorthWest),
    b: TrackEnd::Stop(StopNumber::Second),
};

pub(crate) const NE_E: TrackSegment = TrackSegment {
    a: TrackEnd::Side(Side::NorthEast),
    b: TrackEnd::Side(Side::East),
};

pub(crate) const NE_SE: TrackSegment = TrackSegment {
    a: TrackEnd::Side(Side::NorthEast),
    b: TrackEnd::Side(Side::SouthEast),
};

pub(crate) const NE_0: TrackSegment = TrackSegment {
    a: TrackEnd::Side(Side::NorthEast),
    b: TrackEnd::Stop(StopNumber::First),
};

pub(crate) const NE_1: TrackSegment = TrackSegment {
    a: TrackEnd::Side(Side::NorthEast),
    b: TrackEnd::Stop(StopNumber::Second),
};

pub(crate) const E_SE: TrackSegment = TrackSegment {
    a: TrackEnd::Side(Side::East),
    b: TrackEnd::Side(Side::SouthEast),
};

pub(crate) const E_0: TrackSegment = TrackSegment {
    a: TrackEnd::Side(Side::East),
    b: TrackEnd::Stop(StopNumber::First),
};

pub(crate) const E_1: TrackSegment = TrackSegment {
    a: TrackEnd::Side(Side::East),
    b: TrackEnd::Stop(StopNumber::Second),
};

pub(crate) const SE_0: TrackSegment = TrackSegment {
    a: TrackEnd::Side(Side::SouthEast),
    b: TrackEnd::Stop(StopNumber::First),
};

pub(crate) const SE_1: TrackSegment = TrackSegment {
    a: TrackEnd::Side(Side::SouthEast),
    b: TrackEnd::Stop(StopNumber::Second),
};
