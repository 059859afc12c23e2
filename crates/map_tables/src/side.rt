//! The six sides of a hex, and how far a tile is turned.
ghost use Rattle.std.specs.Prelude.{◌≡◌, ◌<◌};
ghost use Rattle.map_tables.specs.Side.{facing_of, number_of, rotation_of, sixths_turned, turned_side};

/// How many sides a hex has.
pub const SIDES: usize = 6;

/// A value for each side of a hex, at the side's number.
pub type PerSide<T> = [T; SIDES];

/// A side of a hex, in order round the hex from 0 to 5.
#[derive(Clone, Copy, Debug, PartialEq, Eq)]
pub enum Side {
    SouthWest,
    West,
    NorthWest,
    NorthEast,
    East,
    SouthEast,
}

impl Side {
    /// The six sides, in order.
    pub const ALL: PerSide<Side> = [
        Side::SouthWest,
        Side::West,
        Side::NorthWest,
        Side::NorthEast,
        Side::East,
        Side::SouthEast,
    ];

    /// Returns the number of the side, from 0 to 5.
    pub fn number(self) -> usize
        ensures value { result ≡ number_of self }
        ensures bound { result < 6 }
    {
        self as usize
    }

    /// Returns the side of the neighbour at which this side lies: the opposite side.
    pub fn facing(self) -> Side
        ensures { result ≡ facing_of self }
    {
        match self {
            Side::SouthWest => Side::NorthEast,
            Side::West => Side::East,
            Side::NorthWest => Side::SouthEast,
            Side::NorthEast => Side::SouthWest,
            Side::East => Side::West,
            Side::SouthEast => Side::NorthWest,
        }
    }

    /// Returns the side that this side of a tile becomes when the tile is turned.
    pub fn turned(self, rotation: Rotation) -> Side
        ensures { result ≡ turned_side rotation self }
    {
        Side::ALL[(self.number() + rotation.turns()) % SIDES]
    }
}

/// How far a tile is turned: by this many sixths of a full turn, clockwise.
#[derive(Clone, Copy, Debug, PartialEq, Eq)]
pub enum Rotation {
    Zero,
    One,
    Two,
    Three,
    Four,
    Five,
}

impl Rotation {
    /// The six rotations, in order.
    pub const ALL: [Rotation; SIDES] = [
        Rotation::Zero,
        Rotation::One,
        Rotation::Two,
        Rotation::Three,
        Rotation::Four,
        Rotation::Five,
    ];

    /// Returns how many sixths of a turn it is, from 0 to 5.
    pub fn turns(self) -> usize
        ensures value { result ≡ sixths_turned self }
        ensures bound { result < 6 }
    {
        self as usize
    }

    /// Returns the rotation by this many sixths of a turn; `None` for six or more.
    pub fn from_turns(turns: usize) -> Option<Rotation>
        ensures { result ≡ rotation_of turns }
    {
        match turns {
            0 => Some(Rotation::Zero),
            1 => Some(Rotation::One),
            2 => Some(Rotation::Two),
            3 => Some(Rotation::Three),
            4 => Some(Rotation::Four),
            5 => Some(Rotation::Five),
            _ => None,
        }
    }
}
