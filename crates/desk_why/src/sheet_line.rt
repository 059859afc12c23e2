//! The lines of the sheets for a round, by number: the text of each, and where it is.
ghost use Rattle.std.specs.Prelude.{◌≡◌, ◌==◌, ◌++◌, IfOk, Ok, OnOk, find, map};
ghost use Rattle.desk_why.specs.SheetLines.{TakesNext, lines_of, lines_of_seat, place_behind, placed};
ghost use Rattle.desk_why.specs.SheetLines.{order_of_play, placed_at, play_order_of};
ghost use Rattle.desk_why.specs.Why.{company_at, is_line_of, line_at};
ghost use Rattle.sheets.specs.Part.{line_unread};

use order_grammar::{Fault, Order, PlayOrder, Version};
use sheets::{PartsLeft, Sheets, UnreadLine};
use std::alloc::{AllocError, Global};
use tables::{Company, Round, Seat};

/// How many lines of a sheet are kept. All lines past the 512th have the same fault, and few sheets
/// have any.
const LINES_KEPT: u32 = 1_024;

/// A line of a sheet.
#[derive(Clone, Copy)]
pub struct SheetLine<'a> {
    /// Whose sheet it is.
    seat: Seat,
    /// Its number in the sheet.
    number: u32,
    /// The version of its file.
    version: Version,
    /// Its bytes.
    pub text: &'a [u8],
    /// Where it is in the sheet.
    pub place: LinePlace,
    /// Whether it is a head: a TURN or COMPANY line that begins a part of the sheet.
    pub is_head: bool,
}

impl SheetLine<'_> {
    /// Returns whether the line is in the sheet of a seat.
    pub fn is_of(&self, seat: Seat) -> bool
        ensures { result ≡ (self.now.seat.0 == seat.0) }
    {
        self.seat.index() == seat.index()
    }

    /// Returns its number in its sheet, from 1; blank lines have none.
    pub fn number(&self) -> u32
        ensures { result ≡ self.now.number }
    {
        self.number
    }

    /// Returns the order of play that the line has, whatever its condition; `None` if it has
    /// another one. The error is the line's own fault.
    pub fn play_order(&self) -> Result<Option<PlayOrder>, Fault>
        ensures { result ≡ play_order_of (placed self.now).line.reading }
    {
        let line = UnreadLine {
            version: self.version,
            number: self.number,
            text: self.text,
        };
        match line.read().order() {
            Ok(order) => Ok(order_of_play(order)),
            Err(fault) => Err(fault),
        }
    }
}

/// Returns the order of play that an order is, if it is one.
fn order_of_play(order: &Order) -> Option<PlayOrder>
    ensures { result ≡ order_of_play order.now }
{
    match order {
        Order::Play(order) => Some(*order),
        _ => None,
    }
}

/// Where a line is in a sheet.
#[derive(Clone, Copy)]
pub enum LinePlace {
    /// Above the first head.
    Standing,
    /// In a turn, its head included.
    Turn,
    /// Among the orders for a company, their head included.
    Orders(Company),
}

impl LinePlace {
    /// Returns the company whose orders the line is among; `None` if there is none.
    pub fn company(self) -> Option<Company>
        ensures { result ≡ company_at self }
    {
        match self {
            LinePlace::Orders(company) => Some(company),
            LinePlace::Standing | LinePlace::Turn => None,
        }
    }
}

/// Returns the lines of all sheets for a round, up to the last that is kept. Fails only if
/// allocation fails.
pub fn lines_of<'a>(
    alloc: Global,
    sheets: &Sheets<'a>,
    round: Round,
) -> Result<Vec<SheetLine<'a>>, AllocError>
    ensures { IfOk result (λ lines. map placed lines.items ≡ lines_of sheets.now round) }
{
    let mut lines = Vec::new(alloc);
    for seat in 0..sheets.seats() {
        push_sheet(&mut lines, sheets, Seat::at(seat), round)?;
    }
    Ok(lines)
}

/// Adds the lines of the sheet of a seat.
fn push_sheet<'a>(
    lines: &mut Vec<SheetLine<'a>>,
    sheets: &Sheets<'a>,
    seat: Seat,
    round: Round,
) -> Result<(), AllocError>
    ensures { OnOk result (map placed lines.new.items
        ≡ map placed lines.old.items ++ lines_of_seat sheets.now round seat) }
{
    let mut parts = sheets.parts(seat, round);
    let mut place = LinePlace::Standing;
    for _ in 0..LINES_KEPT {
        match take_next(&mut parts, seat, place) {
            Some(line) => {
                place = line.place;
                lines.push(line)?;
            }
            None => return Ok(()),
        }
    }
    Ok(())
}

/// Takes the next line of a seat's sheet, and returns it; `None` if there is none. The lines before
/// the next head are at this place.
fn take_next<'a>(parts: &mut PartsLeft<'a>, seat: Seat, place: LinePlace) -> Option<SheetLine<'a>>
    ensures { TakesNext seat place parts.old result parts.new }
{
    if let Some(line) = parts.take_line() {
        return Some(line_here(line, seat, place, false));
    }
    let head = parts.take_head()?;
    Some(line_here(head, seat, place_behind(head), true))
}

/// Returns a line of a seat's sheet, with where it is and whether it is a head.
fn line_here(line: UnreadLine, seat: Seat, place: LinePlace, is_head: bool) -> SheetLine
    ensures line { placed result ≡ placed_at seat place is_head (line_unread line.entry) }
    ensures place { result.place ≡ place }
{
    SheetLine {
        seat,
        number: line.number,
        version: line.version,
        text: line.text,
        place,
        is_head,
    }
}

/// Returns where the lines after a head are: among the orders for its company, or in a turn.
fn place_behind(head: UnreadLine) -> LinePlace
    ensures { result ≡ place_behind (line_unread head.entry).reading }
{
    match head.read().order() {
        Ok(order) => place_of(order),
        Err(_) => LinePlace::Turn,
    }
}

/// Returns where the lines after a head with this order are.
fn place_of(order: &Order) -> LinePlace
    ensures { result ≡ place_behind (Ok order.now) }
{
    match order {
        Order::Company(company) => LinePlace::Orders(*company),
        _ => LinePlace::Turn,
    }
}

/// Returns the line with this number in the sheet of a seat, among those of all sheets; `None` if
/// there is no such line, or it is not kept.
pub fn find_line<'a>(lines: &[SheetLine<'a>], seat: Seat, number: u32) -> Option<SheetLine<'a>>
    ensures { result ≡ line_at lines.now seat number }
{
    if number > LINES_KEPT {
        return None;
    }
    first_of(lines, seat, number)
}

/// Returns the first of some lines that has this number in the sheet of a seat.
fn first_of<'a>(lines: &[SheetLine<'a>], seat: Seat, number: u32) -> Option<SheetLine<'a>>
    ensures { result ≡ find (is_line_of seat number) lines.now }
{
    lines
        .iter()
        .copied()
        .find(|line| is_line_of(line, seat, number))
}

/// Returns whether a line has this number in the sheet of a seat.
fn is_line_of(line: &SheetLine, seat: Seat, number: u32) -> bool
    ensures { result ≡ is_line_of seat number line.now }
{
    line.number == number && line.seat == seat
}
