//! The names of cities, towns and areas on the map: where there is room for them.
ghost use Rattle.std.specs.Prelude.{◌≡◌, ◌++◌, ◌∷◌, [], All, AllPairs, IfOk, IfSome, None, OnOk};
ghost use Rattle.std.specs.Prelude.{map, true};
ghost use Rattle.std.specs.List.{find};
ghost use Rattle.picture.specs.Frames.{fits, frame_around, is_free, reaching};
ghost use Rattle.picture.specs.Names.{ArePlaced, IsClearOf, IsInRoom, AreApart, frame_of_name};
ghost use Rattle.picture.specs.Names.{name_room};
ghost use Rattle.picture.specs.Points.{centre};

use crate::city_names::city_name;
use crate::frames::{Frame, Frames, Site, add_reaching, place_text};
use crate::look::Look;
use crate::point::centre;
use crate::taken::{signs_of, track_frames};
use arrayvec::ArrayVec;
use map_tables::{Hex, Lay, StopNumber};
use markup::Point;
use std::alloc::{AllocError, Global};

/// A name on the map.
#[derive(Clone, Copy)]
pub struct PlacedName {
    /// The hex that has the name.
    pub hex: Hex,
    /// The name, as markup has it.
    pub words: &'static str,
    /// Where it is on the map.
    pub frame: Frame,
}

/// What names must not cover, on the map.
#[derive(Clone, Copy)]
pub struct Kept<'a> {
    /// Signs and other texts.
    pub signs: &'a [Frame],
    /// The lines of runs.
    pub lines: &'a [Frame],
}

/// How far from the centre of its hex a name may reach to both sides, and up and down.
const REACH: Point = Point { x: 84, y: 60 };

/// The same of a name that is within its hex, or nearly so.
const WITHIN: Point = Point { x: 51, y: 38 };

/// How far up and down from its middle a name goes.
const DOWN: i32 = 5;

/// How far the baseline of a name is below the middle of its frame.
pub const BASELINE: i32 = 3;

/// How far below the middle of a stop the places for its name are, the best first.
const ROWS: [i32; 21] = [
    22, 26, 30, 33, 18, -22, -26, -30, -33, -18, 14, -14, 7, -7, 0, 37, -37, 44, -44, 60, -60,
];

/// How far to the right they are.
const COLUMNS: [i32; 21] = [
    0, 4, -4, 8, -8, 13, -13, 18, -18, 24, -24, 30, -30, 36, -36, 42, -42, 48, -48, 55, -55,
];

/// How many places are tried at most: each row with each column.
const PLACES_MOST: usize = 441;

/// The room around the coordinate of a hex.
const AROUND_COORDINATE: Frame = Frame {
    middle: Point { x: -40, y: 26 },
    across: 13,
    down: 7,
};

/// The room around the number of a tile.
const AROUND_NUMBER: Frame = Frame {
    middle: Point { x: 0, y: 47 },
    across: 17,
    down: 7,
};

/// Returns the signs and texts of all hexes but for their names, on the map. Coordinates and
/// numbers of tiles have room around them, so that nothing is read as one with them. Fails only if
/// allocation fails.
pub fn signs_on(alloc: Global, lays: &[Lay]) -> Result<Vec<Frame>, AllocError> {
    let mut signs = Vec::new(alloc);
    for &hex in &Hex::ALL {
        let look = Look::on(lays, hex);
        let middle = centre(hex);
        for sign in &signs_of(&look) {
            signs.push(sign.moved(middle))?;
        }
        signs.push(AROUND_COORDINATE.moved(middle))?;
        if look.lay.is_some() {
            signs.push(AROUND_NUMBER.moved(middle))?;
        }
    }
    Ok(signs)
}

/// Returns the names on the map, given the tiles laid so far: one near each stop of a hex that has
/// a name or two. Each is within the room around its hex, over no sign and no line, and no two
/// overlap. A name without a free place is left out. Fails only if allocation fails.
#[tactic(auto, using(crate::proofs::NameLemmas::placed_none))]
pub fn names_on(alloc: Global, lays: &[Lay], kept: Kept) -> Result<Vec<PlacedName>, AllocError>
    ensures room { IfOk result (λ names. All IsInRoom names.items) }
    ensures signs { IfOk result (λ names. All (IsClearOf kept.entry.signs.now) names.items) }
    ensures lines { IfOk result (λ names. All (IsClearOf kept.entry.lines.now) names.items) }
    ensures apart { IfOk result (λ names. AllPairs AreApart names.items) }
{
    let mut names = Vec::new(alloc);
    for &hex in &Hex::ALL {
        if let Some(name) = city_name(hex) {
            let look = Look::on(lays, hex);
            let (words, other) = match name.split_once(" &amp; ") {
                Some((words, other)) => (words, Some(other)),
                None => (name, None),
            };
            add_name(&mut names, alloc, kept, &look, StopNumber::First, words)?;
            if let Some(words) = other {
                add_name(&mut names, alloc, kept, &look, StopNumber::Second, words)?;
            }
        }
    }
    Ok(names)
}

/// Adds the name near a stop of a hex, if there is a free place for it.
fn add_name(
    names: &mut Vec<PlacedName>,
    alloc: Global,
    kept: Kept,
    look: &Look,
    stop: StopNumber,
    words: &'static str,
) -> Result<(), AllocError>
    requires { ArePlaced kept.signs.now kept.lines.now names.old.items }
    ensures { OnOk result (ArePlaced kept.entry.signs.now kept.entry.lines.now names.new.items) }
{
    let near = near_to(alloc, look.hex, kept, names.as_slice())?;
    let Some(frame) = placed(look, near.as_slice(), stop, words) else {
        return Ok(());
    };
    names.push(PlacedName {
        hex: look.hex,
        words,
        frame,
    })?;
    Ok(())
}

/// Returns the room for the names of a hex, on the map.
fn room_of(hex: Hex) -> Frame
    ensures { result ≡ name_room hex }
{
    Frame::around(centre(hex), REACH.x, REACH.y)
}

/// Returns what reaches into the room for the names of a hex: signs, lines, and the names so far.
fn near_to(
    alloc: Global,
    hex: Hex,
    kept: Kept,
    names: &[PlacedName],
) -> Result<Vec<Frame>, AllocError>
    ensures { IfOk result (λ near. near.items
        ≡ (reaching (name_room hex) kept.entry.signs.now ++ reaching (name_room hex) kept.entry.lines.now)
        ++ reaching (name_room hex) (map frame_of_name names.now)) }
{
    let room = room_of(hex);
    let mut near = Vec::new(alloc);
    add_reaching(&mut near, &room, kept.signs)?;
    add_reaching(&mut near, &room, kept.lines)?;
    add_reaching(&mut near, &room, frames_of(alloc, names)?.as_slice())?;
    Ok(near)
}

/// Returns the frames of some names.
pub(crate) fn frames_of(alloc: Global, names: &[PlacedName]) -> Result<Vec<Frame>, AllocError>
    ensures { IfOk result (λ frames. frames.items ≡ map frame_of_name names.now) }
{
    let mut frames = Vec::new(alloc);
    for name in names {
        frames.push(name.frame)?;
    }
    Ok(frames)
}

/// Returns the frame of a name near a stop of a hex, given what is taken near the hex: within the
/// hex if that is possible, and off its track. `None` if no place for it is free.
fn placed(look: &Look, taken: &[Frame], stop: StopNumber, words: &str) -> Option<Frame>
    ensures { IfSome result (λ frame. is_free (name_room look.now.hex) taken.now frame ≡ true) }
{
    let middle = centre(look.hex);
    let half = Point {
        x: half_width(words),
        y: DOWN,
    };
    let track = track_frames(look);
    let site = Site {
        room: room_of(look.hex),
        part: Frame::around(middle, WITHIN.x, WITHIN.y),
        track: track.as_slice(),
    };
    let places = places_near(middle.plus(look.place(stop)), &ROWS);
    match place_text(&site, taken, half, places.as_slice()) {
        Some(place) => Some(Frame::around(place, half.x, half.y)),
        None => None,
    }
}

/// Returns the places that are tried for a text near a point, the best first, given how far below
/// the point they are.
pub(crate) fn places_near(middle: Point, rows: &[i32]) -> ArrayVec<Point, PLACES_MOST> {
    let mut places = ArrayVec::new();
    for &y in rows {
        for &x in &COLUMNS {
            if places.len() < PLACES_MOST {
                places.push(middle.plus(Point { x, y }));
            }
        }
    }
    places
}

/// How wide letters of 10.5 are, in twentieths of the width of letters of 10.
const TWENTIETHS: i32 = 21;

/// Returns half the width of a name on the map, rounded up, in letters of 10.5: its letters' widths
/// are known in tenths, as bold Arial of 10 has them.
fn half_width(words: &str) -> i32 {
    let mut tenths: i32 = 0;
    for &letter in words.as_bytes() {
        tenths = tenths.saturating_add(match letter {
            b'i' | b'l' | b' ' => 28,
            b'f' | b't' => 34,
            b'r' => 39,
            b'a' | b'c' | b'e' | b'k' | b's' | b'v' | b'x' | b'y' | b'z' => 56,
            b'w' => 78,
            b'M' => 84,
            b'm' | b'W' => 95,
            b'A'..=b'Z' => 73,
            _ => 62,
        });
    }
    tenths.saturating_mul(TWENTIETHS) / 20 / 20 + 1
}
