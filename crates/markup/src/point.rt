//! Points of a picture.

/// A point of a picture. A side of a hex is 60 long; `x` grows to the right, `y` downwards.
#[derive(Clone, Copy, Default)]
pub struct Point {
    pub x: i32,
    pub y: i32,
}

impl Point {
    /// The centre of a hex.
    pub const CENTRE: Point = Point { x: 0, y: 0 };

    /// Returns the sum of this point and another, taken from the centre.
    pub fn plus(self, other: Point) -> Point {
        Point {
            x: self.x.saturating_add(other.x),
            y: self.y.saturating_add(other.y),
        }
    }

    /// Returns this point minus another, taken from the centre.
    pub fn minus(self, other: Point) -> Point {
        Point {
            x: self.x.saturating_sub(other.x),
            y: self.y.saturating_sub(other.y),
        }
    }

    /// Returns the point this many times as far from the centre.
    pub fn times(self, count: i32) -> Point {
        Point {
            x: self.x.saturating_mul(count),
            y: self.y.saturating_mul(count),
        }
    }

    /// Returns the point this many twentieths of the way to another, in whole numbers.
    pub fn towards(self, other: Point, twentieths: i32) -> Point {
        let way = other.minus(self);
        self.plus(Point {
            x: way.x.saturating_mul(twentieths) / 20,
            y: way.y.saturating_mul(twentieths) / 20,
        })
    }

    /// Returns the point this far below it.
    pub fn down(self, by: i32) -> Point {
        self.plus(Point { x: 0, y: by })
    }
}
