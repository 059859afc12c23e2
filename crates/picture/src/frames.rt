//! The rectangles that signs and texts take, and where there is room for one more text.
ghost use Rattle.std.specs.Prelude.{◌≡◌, ◌<◌, ◌≤◌, ◌+◌, ◌+ℤ◌, ◌-ℤ◌, ◌++◌, ◌∷◌, [], length, true};
ghost use Rattle.std.specs.Prelude.{None, IfSome, OnOk};
ghost use Rattle.std.specs.List.{find};
ghost use Rattle.picture.specs.Frames.{fits, frame_around, holds, is_free, is_within, meets};
ghost use Rattle.picture.specs.Frames.{meets_any, overlap, reaching};

use arrayvec::ArrayVec;
use markup::Point;
use std::alloc::AllocError;

/// How many frames a hex has room for.
pub const FRAMES_MOST: usize = 40;

/// A rectangle of a picture. Lengths are those of a picture: a side of a hex is 60 long.
#[derive(Clone, Copy, Default)]
pub struct Frame {
    /// Its middle. A frame of a hex counts from the centre of the hex.
    pub middle: Point,
    /// How far it goes to the left and to the right of its middle: half its width.
    pub across: i32,
    /// How far it goes up and down from its middle: half its height.
    pub down: i32,
}

/// The frames of a hex, from its centre.
pub type Frames = ArrayVec<Frame, FRAMES_MOST>;

impl Frame {
    /// Returns the frame around a point, this far to both sides and up and down.
    pub fn around(middle: Point, across: i32, down: i32) -> Frame
        ensures { result ≡ frame_around middle across down }
    {
        Frame {
            middle,
            across,
            down,
        }
    }

    /// Returns the same frame moved by a point.
    pub fn moved(self, by: Point) -> Frame {
        Frame::around(self.middle.plus(by), self.across, self.down)
    }

    /// Returns whether it overlaps another. Frames that only touch do not.
    pub fn meets(&self, other: &Frame) -> bool
        ensures { result ≡ meets self.now other.now }
    {
        overlap(self.middle.x, self.across, other.middle.x, other.across)
            && overlap(self.middle.y, self.down, other.middle.y, other.down)
    }

    /// Returns whether another is within it.
    pub fn holds(&self, other: &Frame) -> bool
        ensures { result ≡ holds self.now other.now }
    {
        is_within(self.middle.x, self.across, other.middle.x, other.across)
            && is_within(self.middle.y, self.down, other.middle.y, other.down)
    }
}

/// Returns where a stretch begins, given its middle and half its length.
fn begin_of(middle: i32, half: i32) -> i64
    ensures { result ≡ middle -ℤ half }
{
    i64::from(middle) - i64::from(half)
}

/// Returns where a stretch ends, given its middle and half its length.
fn end_of(middle: i32, half: i32) -> i64
    ensures { result ≡ middle +ℤ half }
{
    i64::from(middle) + i64::from(half)
}

/// Returns whether two stretches overlap, given the middle of each and half its length.
fn overlap(middle: i32, half: i32, other: i32, other_half: i32) -> bool
    ensures { result ≡ overlap middle half other other_half }
{
    begin_of(middle, half) < end_of(other, other_half)
        && begin_of(other, other_half) < end_of(middle, half)
}

/// Returns whether the second stretch is within the first, given the middle of each and half its
/// length.
fn is_within(middle: i32, half: i32, other: i32, other_half: i32) -> bool
    ensures { result ≡ is_within middle half other other_half }
{
    begin_of(middle, half) <= begin_of(other, other_half)
        && end_of(other, other_half) <= end_of(middle, half)
}

/// Returns whether a frame overlaps one of some.
pub(crate) fn meets_any(taken: &[Frame], frame: &Frame) -> bool
    ensures { result ≡ meets_any taken.now frame.now }
{
    taken.iter().any(|other| other.meets(frame))
}

/// Returns whether a frame is within the room and overlaps none of those that are taken.
pub(crate) fn is_free(room: &Frame, taken: &[Frame], frame: &Frame) -> bool
    ensures { result ≡ is_free room.now taken.now frame.now }
{
    room.holds(frame) && !meets_any(taken, frame)
}

/// Returns whether a text of these half sizes may be around a point.
fn fits(room: &Frame, taken: &[Frame], half: Point, place: Point) -> bool
    ensures { result ≡ fits room.now taken.now half place }
{
    is_free(room, taken, &Frame::around(place, half.x, half.y))
}

/// Returns the first of some places where a text of these half sizes is free; `None` if it is free
/// at none.
fn first_free(room: &Frame, taken: &[Frame], half: Point, places: &[Point]) -> Option<Point>
    ensures { result ≡ find (fits room.now taken.now half) places.now }
{
    for place in places {
        if fits(room, taken, half, *place) {
            return Some(*place);
        }
    }
    None
}

/// Returns the first of some places where a text is free, within a part of the room, and off the
/// track; `None` if there is none.
fn first_within(
    room: &Frame,
    taken: &[Frame],
    part: &Frame,
    track: &[Frame],
    half: Point,
    places: &[Point],
) -> Option<Point>
    ensures { IfSome result (λ place. fits room.now taken.now half place ≡ true) }
{
    for place in places {
        let frame = Frame::around(*place, half.x, half.y);
        if part.holds(&frame) && fits(room, taken, half, *place) && !meets_any(track, &frame) {
            return Some(*place);
        }
    }
    None
}

/// Where a text may be.
#[derive(Clone, Copy)]
pub(crate) struct Site<'a> {
    /// Its room.
    pub(crate) room: Frame,
    /// The part of the room where it is placed if that is possible.
    pub(crate) part: Frame,
    /// What it avoids if that is possible.
    pub(crate) track: &'a [Frame],
}

/// Returns the first of some places where a text is free, if possible within the part of its room,
/// and there off the track. `None` if it is over the track or beyond the part at each.
fn first_fitting(site: &Site, taken: &[Frame], half: Point, places: &[Point]) -> Option<Point>
    ensures { IfSome result (λ place. fits site.now.room taken.now half place ≡ true) }
{
    let room = &site.room;
    if let Some(place) = first_within(room, taken, &site.part, site.track, half, places) {
        return Some(place);
    }
    if let Some(place) = first_within(room, taken, &site.part, &[], half, places) {
        return Some(place);
    }
    first_within(room, taken, room, site.track, half, places)
}

/// Returns where a text of these half sizes may be: the first of some places where it is free, if
/// possible within the part of its room, and there off the track. `None` if it is free at none.
pub(crate) fn place_text(
    site: &Site,
    taken: &[Frame],
    half: Point,
    places: &[Point],
) -> Option<Point>
    ensures free { IfSome result (λ place. fits site.now.room taken.now half place ≡ true) }
    ensures none { result ≡ None → find (fits site.now.room taken.now half) places.now ≡ None }
{
    match first_fitting(site, taken, half, places) {
        Some(place) => Some(place),
        None => first_free(&site.room, taken, half, places),
    }
}

/// Adds those of some frames that reach into a room.
pub(crate) fn add_reaching(
    near: &mut Vec<Frame>,
    room: &Frame,
    frames: &[Frame],
) -> Result<(), AllocError>
    ensures { OnOk result (near.new.items ≡ near.old.items ++ reaching room.now frames.now) }
{
    for frame in frames {
        if frame.meets(room) {
            near.push(*frame)?;
        }
    }
    Ok(())
}

/// Adds a frame to those that are taken. Beyond `FRAMES_MOST` there is no room for more; no hex has
/// so many.
pub(crate) fn take(taken: &mut Frames, frame: Frame)
    ensures items { length taken.old.items < 40 → taken.new.items ≡ taken.old.items ++ frame ∷ [] }
    ensures most { length taken.new.items ≤ length taken.old.items + 1 }
{
    if taken.len() < FRAMES_MOST {
        taken.push(frame);
    }
}
