//! Where runs that share a border cross it: each in its own lane.
ghost use Rattle.std.specs.Prelude.{◌≡◌, ◌≤◌, ◌≤ℤ◌, pos, negsuc};
ghost use Rattle.picture.specs.Lanes.{across, along_side, back, down, lane_shift, tenths, upright};

use map_tables::Side;
use markup::Point;

/// The most lanes that a border is divided into.
pub const LANES_MOST: usize = 99;

/// How many lanes a border may have before they are closer together.
const WIDE_MOST: usize = 3;

/// Returns how far from the middle of a side the run in a lane crosses it, given the border's
/// number of lanes. Lanes are numbered from 0. They are centred on the border's middle, 9 apart if
/// there are at most 3, otherwise 7 apart, and the first is highest. Lanes beyond `LANES_MOST` are
/// not distinguished.
pub fn lane_shift(side: Side, lane: usize, lanes: usize) -> Point
    ensures { lane ≤ 99 → lanes ≤ 99 → result ≡ lane_shift side lane lanes }
{
    let lanes = lanes.min(LANES_MOST);
    let lane = lane.min(LANES_MOST);
    let half_steps = (2 * lane + 1) as i32 - lanes as i32;
    along_side(side, lanes <= WIDE_MOST, half_steps)
}

/// Returns the point this many half steps from the middle of a side along it, in whole numbers.
fn along_side(side: Side, is_wide: bool, half_steps: i32) -> Point
    requires least { negsuc 199 ≤ℤ half_steps }
    requires most { half_steps ≤ℤ pos 199 }
    ensures { result ≡ along_side side is_wide half_steps }
{
    match side {
        Side::West | Side::East => Point {
            x: 0,
            y: upright(is_wide) * half_steps / 2,
        },
        Side::SouthWest | Side::NorthEast => Point {
            x: tenths(across(is_wide), half_steps),
            y: tenths(down(is_wide), half_steps),
        },
        Side::NorthWest | Side::SouthEast => Point {
            x: tenths(back(is_wide), half_steps),
            y: tenths(down(is_wide), half_steps),
        },
    }
}

/// Returns this many tenths of a number of half steps, rounded towards 0.
fn tenths(parts: i32, half_steps: i32) -> i32
    requires parts_least { negsuc 39 ≤ℤ parts }
    requires parts_most { parts ≤ℤ pos 39 }
    requires least { negsuc 199 ≤ℤ half_steps }
    requires most { half_steps ≤ℤ pos 199 }
    ensures { result ≡ tenths parts half_steps }
{
    parts * half_steps / 10
}

/// Returns the length of a step along a vertical border.
fn upright(is_wide: bool) -> i32
    ensures value { result ≡ upright is_wide }
    ensures least { negsuc 39 ≤ℤ result }
    ensures most { result ≤ℤ pos 39 }
{
    if is_wide { 9 } else { 7 }
}

/// Returns how far ten half steps go to the right along a slanting border.
fn across(is_wide: bool) -> i32
    ensures value { result ≡ across is_wide }
    ensures least { negsuc 39 ≤ℤ result }
    ensures most { result ≤ℤ pos 39 }
{
    if is_wide { 39 } else { 30 }
}

/// Returns how far they go to the right along a border that leads to the left.
fn back(is_wide: bool) -> i32
    ensures value { result ≡ back is_wide }
    ensures least { negsuc 39 ≤ℤ result }
    ensures most { result ≤ℤ pos 39 }
{
    if is_wide { -39 } else { -30 }
}

/// Returns how far they go down.
fn down(is_wide: bool) -> i32
    ensures value { result ≡ down is_wide }
    ensures least { negsuc 39 ≤ℤ result }
    ensures most { result ≤ℤ pos 39 }
{
    if is_wide { 22 } else { 17 }
}
