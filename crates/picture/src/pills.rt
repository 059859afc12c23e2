//! The pills of the map, each with the code of a company and a sum: where a hex has room for them.
ghost use Rattle.std.specs.Prelude.{◌≡◌, ◌++◌, IfOk, IfSome, true};
ghost use Rattle.picture.specs.Frames.{is_free};
ghost use Rattle.picture.specs.Names.{coordinate, frames_of_pill, pill_half, pill_room, word_frames};

use crate::frames::{Frame, Site, add_reaching, place_text};
use crate::look::Look;
use crate::names::{PlacedName, frames_of, places_near};
use crate::point::centre;
use crate::taken::{COORDINATE, signs_of};
use map_tables::Hex;
use markup::Point;
use std::alloc::{AllocError, Global};
use tables::Money;

/// How far from the centre of its hex a pill may reach to both sides, and up and down.
const REACH: Point = Point { x: 52, y: 51 };

/// How far up and down from its middle a pill goes.
const DOWN: i32 = 8;

/// How far below the centre of a hex the places for pills are, the best first.
const ROWS: [i32; 15] = [
    40, 36, 43, -36, -40, -43, -30, 30, 14, 8, 0, -8, -14, -20, 22,
];

/// Returns the part of the map in which a pill of a hex may be.
fn room_of(hex: Hex) -> Frame
    ensures { result ≡ pill_room hex }
{
    Frame::around(centre(hex), REACH.x, REACH.y)
}

/// Returns the frames of the map that no pill of a hex may hide: that of its coordinate, and those
/// of the names that reach into its room. Fails only if allocation fails.
pub fn words_of(alloc: Global, hex: Hex, names: &[PlacedName]) -> Result<Vec<Frame>, AllocError>
    ensures { IfOk result (λ words. words.items ≡ word_frames hex names.now) }
{
    let mut words = Vec::new(alloc);
    words.push(coordinate_of(hex))?;
    add_reaching(
        &mut words,
        &room_of(hex),
        frames_of(alloc, names)?.as_slice(),
    )?;
    Ok(words)
}

/// Returns the frame of the coordinate of a hex, on the map.
fn coordinate_of(hex: Hex) -> Frame
    ensures { result ≡ coordinate hex }
{
    let middle = centre(hex);
    Frame::around(
        Point {
            x: middle.x - 40,
            y: middle.y + 26,
        },
        COORDINATE.across,
        COORDINATE.down,
    )
}

/// Returns where a pill of this half width is on the map, and takes its frame. It hides none of the
/// frames that are taken, and no other sign of the hex if that is possible. `None` if there is no
/// room. Fails only if allocation fails.
pub fn place_pill(
    look: &Look,
    taken: &mut Vec<Frame>,
    across: i32,
) -> Result<Option<Frame>, AllocError>
    ensures free { IfOk result (λ place. IfSome place (λ frame.
        is_free (pill_room look.now.hex) taken.old.items frame ≡ true)) }
    ensures across { IfOk result (λ place. IfSome place (λ frame. frame.across ≡ across)) }
    ensures taken { IfOk result (λ place.
        taken.new.items ≡ taken.old.items ++ frames_of_pill place) }
{
    let half = Point { x: across, y: DOWN };
    let middle = centre(look.hex);
    let mut signs = signs_of(look);
    for sign in &mut signs {
        *sign = sign.moved(middle);
    }
    let room = room_of(look.hex);
    let site = Site {
        room,
        part: room,
        track: signs.as_slice(),
    };
    let places = places_near(middle, &ROWS);
    let Some(place) = place_text(&site, taken.as_slice(), half, places.as_slice()) else {
        return Ok(None);
    };
    let frame = Frame::around(place, half.x, half.y);
    taken.push(frame)?;
    Ok(Some(frame))
}

/// Returns half the width of a pill, given the number of letters of the company's code and the sum,
/// in dollars. A sum of 0 or less is not shown.
pub fn pill_half(letters: usize, gain: Money) -> i32
    ensures { result ≡ pill_half letters gain }
{
    let sum = if gain <= 0 {
        0
    } else if gain <= 99 {
        17
    } else {
        21
    };
    if letters == 2 {
        14 + sum
    } else if letters == 3 {
        19 + sum
    } else {
        24 + sum
    }
}
