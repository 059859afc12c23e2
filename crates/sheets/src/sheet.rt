//! A sheet and its lines, numbered. A line may be kept unread; it is read by the version of its
//! file.
ghost use Rattle.std.specs.Prelude.{◌≡◌, ◌≤◌, [], length, IfOk, MatchResult, Ok, Err};
ghost use Rattle.order_grammar.specs.Version.{ordered_of};
ghost use Rattle.order_grammar.specs.Words.{AreWordsOf};
ghost use Rattle.std.specs.Iterator.{at_most};
ghost use Rattle.sheets.specs.Limits.{file_most};
ghost use Rattle.sheets.specs.Part.{faulty_line, line_read, line_unread, line_with};
ghost use Rattle.sheets.specs.Sheet.{IsReadAs, TakesLine, TakesUnread, condition_at, unruled};
ghost use Rattle.sheets.specs.Text.{written_lines};
ghost use Rattle.order_grammar.specs.declared.condition.Version.TheVariants.{One};

use crate::text::first_written;
use order_grammar::{Condition, Fault, Line, Order, Version, read_line_in, read_order_in};
use std::marker::Model;

/// The last line of a sheet that may be an order.
pub const LINES_MOST: u32 = 512;

/// A player's sheet for a round: its lines, without blank ones.
#[derive(Debug, Drop)]
pub struct Sheet<'a> {
    version: Version,
    text: &'a [u8],
}

/// In a contract a sheet is all its lines, with the version of its file.
impl<'a> Model for Sheet<'a> {
    ghost use Rattle.std.specs.Prelude.{◌≤◌, length};
    ghost use Rattle.sheets.specs.Limits.{file_most};
    ghost use Rattle.sheets.specs.Sheet.{Unruled, unruled};
    ghost use Rattle.sheets.specs.Text.{written_lines};

    ghost Value = { Unruled };

    ghost view = { λ sheet. unruled sheet.version 0 (written_lines sheet.text.now) };

    ghost invariant = { λ sheet. length sheet.text.now ≤ file_most };
}

impl<'a> Sheet<'a> {
    /// Returns the sheet with this text, of a file of this version.
    pub(crate) fn of(version: Version, text: &'a [u8]) -> Sheet<'a>
        requires { length text.now ≤ file_most }
        ensures { result ≡ unruled version 0 (written_lines text.now) }
    {
        Sheet { version, text }
    }

    /// Returns its lines in order, numbered from 1, each read by the version of its file, or a
    /// fault.
    pub fn lines(&self) -> Lines<'a>
        ensures { result ≡ self.now }
    {
        Lines {
            version: self.version,
            rest: self.text,
            number: 0,
        }
    }
}

/// A line of a sheet.
#[derive(Drop)]
pub struct NumberedLine<'a> {
    /// Its number in the sheet, from 1; blank lines have none.
    pub number: u32,
    /// The condition of its order at its place, if it has one; a line with a fault has none.
    pub condition: Option<Condition>,
    /// Its order, or its first fault, whatever its place.
    pub reading: Result<Line<'a>, Fault>,
}

impl<'a> NumberedLine<'a> {
    /// Returns the order of the line at its place in the sheet.
    ///
    /// The error is `PastLastLine` if its number is over `LINES_MOST`, whatever it says; otherwise
    /// it is the line's own first fault.
    pub fn order(&self) -> Result<&Order, Fault>
        ensures { MatchResult result
            (λ order. (line_read self.now).reading ≡ Ok order.now)
            (λ fault. (line_read self.now).reading ≡ Err fault) }
    {
        if self.number > LINES_MOST {
            return Err(Fault::PastLastLine);
        }
        match &self.reading {
            Ok(line) => Ok(&line.order),
            Err(fault) => Err(*fault),
        }
    }
}

/// A line of a sheet that has not been read.
#[derive(Clone, Copy, Debug)]
pub struct UnreadLine<'a> {
    /// The version of its file.
    pub version: Version,
    /// Its number in the sheet, from 1; blank lines have none.
    pub number: u32,
    /// Its bytes, without its LF and a CR before that.
    pub text: &'a [u8],
}

/// What a read line has besides its order.
#[derive(Clone, Copy, Debug)]
pub struct ReadLine {
    /// Its number in the sheet, from 1; blank lines have none.
    pub number: u32,
    /// The condition of its order, if that has one.
    pub condition: Option<Condition>,
}

impl<'a> UnreadLine<'a> {
    /// Reads the line by the version of its file, and overwrites `order` with its order.
    ///
    /// The error is `PastLastLine` if its number is over `LINES_MOST`, whatever it says; otherwise
    /// it is the line's own first fault. `order` may then be anything.
    pub fn read_into(self, order: &mut Order) -> Result<ReadLine, Fault>
        ensures { MatchResult result
            (λ read. line_unread self.entry ≡ line_with read order.new)
            (λ fault. line_unread self.entry ≡ faulty_line self.entry.number fault) }
    {
        if self.number > LINES_MOST {
            return Err(Fault::PastLastLine);
        }
        let condition = read_order_in(self.version, self.text, order)?;
        Ok(ReadLine {
            number: self.number,
            condition,
        })
    }

    /// Returns the line, read by the version of its file.
    pub fn read(self) -> NumberedLine<'a>
        ensures read { IsReadAs self.entry.version self.entry.number self.entry.text.now result }
        ensures line { line_read result ≡ line_unread self.entry }
    {
        let reading = read_line_in(self.version, self.text);
        NumberedLine {
            number: self.number,
            condition: condition_at(self.number, &reading),
            reading,
        }
    }
}

/// Returns the condition of the line with this number and this reading.
fn condition_at(number: u32, reading: &Result<Line, Fault>) -> Option<Condition>
    ensures { result ≡ condition_at number (ordered_of reading.now) }
{
    if number > LINES_MOST {
        return None;
    }
    match reading {
        Ok(line) => line.condition,
        Err(_) => None,
    }
}

/// The lines of a sheet that are still to come.
#[derive(Debug, Drop)]
pub struct Lines<'a> {
    version: Version,
    rest: &'a [u8],
    number: u32,
}

/// In a contract they are the lines, with the version of their file and the number of lines before
/// them.
impl<'a> Model for Lines<'a> {
    ghost use Rattle.std.specs.Prelude.{◌+◌, ◌≤◌, length};
    ghost use Rattle.sheets.specs.Limits.{file_most};
    ghost use Rattle.sheets.specs.Sheet.{Unruled, unruled};
    ghost use Rattle.sheets.specs.Text.{written_lines};

    ghost Value = { Unruled };

    ghost view = { λ lines. unruled lines.version lines.number (written_lines lines.rest.now) };

    ghost invariant = { λ lines. lines.number + length lines.rest.now ≤ file_most };
}

impl<'a> Lines<'a> {
    /// Returns no lines.
    #[tactic(auto, unfolding(crate::specs::Text::written_lines))]
    pub fn none() -> Lines<'a>
        ensures { result ≡ unruled One 0 [] }
    {
        Lines {
            version: Version::One,
            rest: &[],
            number: 0,
        }
    }

    /// Returns the same lines.
    pub fn duplicate(&self) -> Lines<'a>
        ensures { result ≡ self.now }
    {
        Lines {
            version: self.version,
            rest: self.rest,
            number: self.number,
        }
    }

    /// Takes the next line and returns it; `None` if there is none.
    pub fn take_line(&mut self) -> Option<NumberedLine<'a>>
        ensures { TakesLine self.old result self.new }
    {
        let line = self.take_unread()?;
        Some(line.read())
    }

    /// Takes the next line unread and returns it; `None` if there is none.
    pub(crate) fn take_unread(&mut self) -> Option<UnreadLine<'a>>
        ensures { TakesUnread self.old result self.new }
    {
        let piece = first_written(self.rest)?;
        self.rest = piece.rest;
        self.number += 1;
        Some(UnreadLine {
            version: self.version,
            number: self.number,
            text: piece.line,
        })
    }
}

impl<'a> Iterator for Lines<'a> {
    type Item = NumberedLine<'a>;

    ghost next_gives = { TakesLine };

    ghost remaining = { λ lines. at_most (length lines.lines) };

    fn next(&mut self) -> Option<NumberedLine<'a>> {
        self.take_line()
    }
}

impl<'a> Default for Lines<'a> {
    ghost is_default = { λ lines. lines ≡ unruled One 0 [] };

    fn default() -> Lines<'a> {
        Lines::none()
    }
}
