//! One pass over the lines of a file: its SHEET lines, lines outside sheets, and lines that look
//! like mail.
ghost use Rattle.std.specs.Prelude.{◌≡◌, ℕ, ◌<◌, ◌≤◌, ◌++◌, [], IfNone, IfOk, IfSome, List, OnOk, length};
ghost use Rattle.desk_check.specs.PlainLines.{head_on, heads_left};
ghost use Rattle.desk_trials.specs.Heads.{AreKept, came};
ghost use Rattle.desk_trials.specs.SheetLines.{head_here, heads_in};
ghost use Rattle.sheets.specs.File.{begins, players_of};
ghost use Rattle.sheets.specs.Limits.{file_most};
ghost use Rattle.sheets.specs.Text.{lines_of};

use crate::check_names::likeness_of;
use crate::check_said::names_of;
use crate::plain_lines::pass_plain;
use desk_trials::{
    Beginning, FileLine, FileLines, Found, Head, Heads, Matter, begun_by, is_like_sheet, is_mail,
};
use hints::{Faulty, line_meant};
use order_grammar::Fault;
use report::name;
use sheets::{SheetKey, Sheets, is_blank, unread_fault};
use std::alloc::{AllocError, Global};
use tables::Seat;

/// How many lines that are not blank precede the sheets: the header and the players.
const PREAMBLE: usize = 2;

/// How far a pass over a file has come.
#[derive(Drop)]
pub(crate) struct Pass<'a> {
    /// The good SHEET lines.
    pub(crate) heads: Heads<'a>,
    /// What was found.
    pub(crate) found: Found<'a>,
    /// How many lines of the preamble have come.
    preamble: usize,
    /// The number of the line that begins the open sheet; `None` if none is open.
    open: Option<usize>,
    /// The last SHEET line with a fault, unless a good one has come since.
    closing: Option<Closing<'a>>,
    /// The sheets that such lines were meant to begin.
    pub(crate) meant: Vec<Head<'a>>,
}

/// A line that was meant to begin a sheet, and has a fault.
#[derive(Clone, Copy)]
struct Closing<'a> {
    line: FileLine<'a>,
    fault: Fault,
    /// The sheet that was meant, if that is known.
    sent: Option<SheetKey>,
    /// The first line below it and the last.
    below: Option<(usize, usize)>,
}

/// Reads the lines of a file once, for its good SHEET lines and what there is to report of other
/// lines.
#[tactic(auto, using(desk_trials::proofs::HeadLemmas::heads_end))]
pub(crate) fn pass_over<'a>(
    alloc: Global,
    sheets: &Sheets,
    file: &'a [u8],
    from: usize,
) -> Result<Pass<'a>, AllocError>
    requires { length file.now ≤ file_most }
    ensures heads { IfOk result (λ pass. came pass.heads
        ≡ heads_in (players_of sheets.now) 0 (lines_of file.now)) }
    ensures seats { IfOk result (λ pass. pass.heads.seats ≡ length (players_of sheets.now)) }
    ensures kept { IfOk result (λ pass. AreKept pass.heads) }
{
    let mut pass = Pass {
        heads: Heads::none(alloc, sheets.seats()),
        found: Found::nothing(alloc, from),
        preamble: 0,
        open: None,
        closing: None,
        meant: Vec::new(alloc),
    };
    let mut lines = FileLines {
        passed: 0,
        rest: file,
    };
    while let Some(line) = pass.next_line(&mut lines) {
        pass.take(sheets, line)?;
    }
    pass.end_closing()?;
    Ok(pass)
}

impl<'a> Pass<'a> {
    /// Returns the next line that is to be taken, and passes over those before it: in a sheet all
    /// that show by their first bytes that there is nothing to say about them. Returns `None` if no
    /// line is left.
    fn next_line(&self, lines: &mut FileLines<'a>) -> Option<FileLine<'a>>
        ensures heads { (players : List (List ℕ)) → heads_left players lines.old
            ≡ head_on players result ++ heads_left players lines.new }
        ensures all { IfNone result (lines.new.rest.now ≡ []) }
        ensures shorter { IfSome result (λ _.
            length lines.new.rest.now < length lines.old.rest.now) }
    {
        if self.open.is_some() {
            pass_plain(lines);
        }
        lines.take_line()
    }

    /// Takes the next line.
    fn take(&mut self, sheets: &Sheets, line: FileLine<'a>) -> Result<(), AllocError>
        requires { AreKept self.old.heads }
        ensures heads { OnOk result (came self.new.heads ≡ came self.old.heads
            ++ head_here line.entry.number (begins (players_of sheets.now) line.entry.text.now)) }
        ensures seats { self.new.heads.seats ≡ self.old.heads.seats }
        ensures kept { OnOk result (AreKept self.new.heads) }
    {
        match begun_by(sheets, line.text) {
            Beginning::Sheet(sent) => {
                self.end_closing()?;
                self.open = Some(line.number);
                self.heads.take(line, sent)
            }
            Beginning::Closing => self.begin_closing(sheets, line),
            Beginning::Other if is_like_sheet(line.text) => self.begin_closing(sheets, line),
            Beginning::Other => match self.open {
                None => self.take_loose(sheets, &line),
                Some(sheet) if is_mail(line.text) => {
                    self.found.add_line(&line, Matter::Mail(sheet))
                }
                Some(_) => Ok(()),
            },
        }
    }

    /// Takes a line that was meant to begin a sheet, and has a fault.
    fn begin_closing(&mut self, sheets: &Sheets, line: FileLine<'a>) -> Result<(), AllocError>
        ensures { self.new.heads ≡ self.old.heads }
    {
        self.end_closing()?;
        self.open = None;
        let fault = unread_fault(sheets.version(), line.text);
        let sent = if self.found.lists(line.number) {
            sheet_meant(*self.meant.allocator(), sheets, &line, fault)?
        } else {
            None
        };
        if let Some(sent) = sent {
            self.meant.push(Head {
                line,
                sent,
                replaces: None,
            })?;
        }
        self.closing = Some(Closing {
            line,
            fault,
            sent,
            below: None,
        });
        Ok(())
    }

    /// Adds what there is to say of the last SHEET line with a fault, if there is one, once the
    /// lines below it have come.
    fn end_closing(&mut self) -> Result<(), AllocError>
        ensures { self.new.heads ≡ self.old.heads }
    {
        let Some(closing) = self.closing else {
            return Ok(());
        };
        self.closing = None;
        let matter = Matter::Closes {
            fault: closing.fault,
            sent: closing.sent,
            below: closing.below,
        };
        self.found.add_line(&closing.line, matter)
    }

    /// Takes a line where no sheet is open.
    fn take_loose(&mut self, sheets: &Sheets, line: &FileLine<'a>) -> Result<(), AllocError>
        ensures { self.new.heads ≡ self.old.heads }
    {
        if is_blank(line.text) {
            return Ok(());
        }
        if let Some(closing) = &mut self.closing {
            let first = closing.below.map_or(line.number, |below| below.0);
            closing.below = Some((first, line.number));
            return Ok(());
        }
        if self.preamble >= PREAMBLE {
            return self.take_unread(sheets, line);
        }
        self.preamble += 1;
        if self.preamble == PREAMBLE {
            look_at_names(sheets, line, &mut self.found)?;
        }
        Ok(())
    }

    /// Takes a line that belongs to no sheet. Its fault is found only if the line is listed.
    fn take_unread(&mut self, sheets: &Sheets, line: &FileLine<'a>) -> Result<(), AllocError>
        ensures { self.new.heads ≡ self.old.heads }
    {
        if !self.found.lists(line.number) {
            self.found.count(line.number);
            return Ok(());
        }
        let fault = unread_fault(sheets.version(), line.text);
        self.found.add_line(line, Matter::Unread(fault))
    }
}

/// Returns the sheet that a line with a fault was meant to begin; `None` if that is not known.
fn sheet_meant(
    alloc: Global,
    sheets: &Sheets,
    line: &FileLine,
    fault: Fault,
) -> Result<Option<SheetKey>, AllocError> {
    let names = names_of(sheets);
    let faulty = Faulty {
        version: sheets.version(),
        line: line.text,
        above: 0,
        fault,
        players: names.get(..sheets.seats()).unwrap_or(&names),
    };
    let Some(meant) = line_meant(alloc, faulty)? else {
        return Ok(None);
    };
    match begun_by(sheets, meant.as_slice()) {
        Beginning::Sheet(sent) => Ok(Some(sent)),
        Beginning::Closing | Beginning::Other => Ok(None),
    }
}

/// Looks at the names of the players, which are on this line.
fn look_at_names<'a>(
    sheets: &Sheets,
    line: &FileLine<'a>,
    found: &mut Found<'a>,
) -> Result<(), AllocError> {
    for number in 0..sheets.seats() {
        let seat = Seat::at(number);
        if let Some(likeness) = likeness_of(name(sheets, seat)) {
            found.add(line, Matter::Name { seat, likeness })?;
        }
    }
    Ok(())
}
