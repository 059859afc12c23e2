//! Collects the sheets of an order file, line by line, from the text after its players line. It
//! also keeps the fault of each line that is in no sheet.
ghost use Rattle.std.specs.Prelude.{is_some, ◌≡◌, false, ℕ, ◌+◌, ◌<◌, ◌≤◌, List, [], ◌∷◌, ◌++◌, length, IfOk, Ok, OnOk};
ghost use Rattle.std.specs.Prelude.{IfErr, MatchOption, MatchResult, option_map};
ghost use Rattle.std.specs.HashMap.{get};
ghost use Rattle.order_grammar.specs.Line.{reading_of};
ghost use Rattle.order_grammar.specs.declared.condition.Version.{Version as TheVersion};
ghost use Rattle.sheets.specs.Collecting.{AreOfVersion, HasBegun, IsInSheet, Reaches, StopsAt, StopsBy};
ghost use Rattle.sheets.specs.Collecting.{closed, lines_kept};
ghost use Rattle.sheets.specs.File.{begins, is_sheet_line, sheet_key_begun, fault_of_reading, same_sheet_key, sheet_in};
ghost use Rattle.sheets.specs.File.{unread_fault, unread_in, good_lines};
ghost use Rattle.sheets.specs.Limits.{file_most, sheets_most};
ghost use Rattle.sheets.specs.Sheet.{sent_in_version};
ghost use Rattle.sheets.specs.Text.{IsFirstLine, written_lines};
ghost use Rattle.sheets.specs.declared.sheet_key.SheetKey.{SheetKey};

use crate::fault::FileFault;
use crate::open_sheet::OpenSheet;
use crate::players::Players;
use crate::sheet::Sheet;
use crate::sheet_key::SheetKey;
use crate::text::{LineAndRest, first_line, first_written};
use order_grammar::{Fault, Order, Version, begins_with_word, read_order_in};
use std::alloc::{AllocError, Global};
use std::collections::HashMap;

/// The most good SHEET lines of an order file.
pub const SHEETS_MOST: usize = 65_536;

/// What has been collected so far from the lines after the players line.
#[derive(Drop)]
pub(crate) struct Collection<'a> {
    pub(crate) sheets: HashMap<SheetKey, Sheet<'a>>,
    pub(crate) unread: Vec<Fault>,
    current: Option<OpenSheet<'a>>,
    good: usize,
}

/// Collects the lines after the players line.
pub(crate) fn collect_body<'a>(
    alloc: Global,
    version: Version,
    players: &Players,
    body: &'a [u8],
) -> Result<Collection<'a>, FileFault>
    requires few { length players.now ≤ 6 }
    requires short { length body.now ≤ file_most }
    ensures sheets { IfOk result (λ c. (sheet_key : SheetKey) →
        get same_sheet_key c.sheets sheet_key ≡ option_map (sent_in_version version)
        (sheet_in players.now (written_lines body.now) sheet_key)) }
    ensures unread { IfOk result (λ c.
        c.unread.items ≡ unread_in version players.now false (written_lines body.now)) }
    ensures good { OnOk result (good_lines players.now (written_lines body.now) ≤ sheets_most) }
    ensures err { IfErr result (StopsBy (good_lines players.now (written_lines body.now))) }
{
    let mut collection = Collection {
        sheets: HashMap::new(alloc),
        unread: Vec::new(alloc),
        current: None,
        good: 0,
    };
    let mut rest = body;
    while let Some(piece) = first_written(rest) {
        collection.take_line(version, players, rest, piece)?;
        rest = collection.skip_open_sheet(piece.rest);
    }
    collection.close(version, &[])?;
    Ok(collection)
}

impl<'a> Collection<'a> {
    /// Takes the next line of a text, and leaves the rest.
    fn take_line(
        &mut self,
        version: Version,
        players: &Players,
        text: &'a [u8],
        piece: LineAndRest<'a>,
    ) -> Result<(), FileFault>
        requires few { length players.now ≤ 6 }
        requires short { length piece.rest.now ≤ file_most }
        requires lines { written_lines text.now ≡ piece.line.now ∷ written_lines piece.rest.now }
        requires first { IsFirstLine piece.line.now piece.rest.now text.now }
        ensures ok { OnOk result ((body : List (List ℕ)) →
            Reaches version players.now body text.now self.old.current
            (lines_kept (get same_sheet_key self.old.sheets)) self.old.unread.items self.old.good →
            Reaches version players.now body piece.entry.rest.now self.new.current
            (lines_kept (get same_sheet_key self.new.sheets)) self.new.unread.items self.new.good) }
        ensures versions { OnOk result (
            AreOfVersion version (get same_sheet_key self.old.sheets) →
            AreOfVersion version (get same_sheet_key self.new.sheets)) }
        ensures err { IfErr result (λ fault. (body : List (List ℕ)) →
            Reaches version players.now body text.now self.old.current
            (lines_kept (get same_sheet_key self.old.sheets)) self.old.unread.items self.old.good →
            StopsBy (good_lines players.now body) fault) }
    {
        if is_sheet_line(piece.line) {
            self.close(version, text)?;
            self.begin(version, players, piece)
        } else if self.current.is_some() {
            Ok(())
        } else {
            self.unread.push(unread_fault(version, piece.line))?;
            Ok(())
        }
    }

    /// Returns the rest of a text after the lines of the open sheet, which it continues; the whole
    /// text if no sheet is open.
    fn skip_open_sheet<'b>(&self, text: &'b [u8]) -> &'b [u8]
        ensures shorter { length result.now ≤ length text.now }
        ensures reaches { (version : TheVersion) (players body : List (List ℕ)) →
            Reaches version players body text.now self.now.current
            (lines_kept (get same_sheet_key self.now.sheets)) self.now.unread.items self.now.good →
            Reaches version players body result.now self.now.current
            (lines_kept (get same_sheet_key self.now.sheets)) self.now.unread.items self.now.good }
    {
        if self.current.is_some() {
            from_sheet_line(text)
        } else {
            text
        }
    }

    /// Keeps the open sheet, which ends where `rest` begins.
    fn close(&mut self, version: Version, rest: &[u8]) -> Result<(), AllocError>
        ensures current { self.new.current ≡ None }
        ensures sheets { OnOk result ((sheet_key : SheetKey) →
            lines_kept (get same_sheet_key self.new.sheets) sheet_key ≡ closed self.old.current
            rest.now (lines_kept (get same_sheet_key self.old.sheets)) sheet_key) }
        ensures versions { OnOk result (
            AreOfVersion version (get same_sheet_key self.old.sheets) →
            AreOfVersion version (get same_sheet_key self.new.sheets)) }
        ensures unread { self.new.unread.items ≡ self.old.unread.items }
        ensures good { self.new.good ≡ self.old.good }
    {
        if let Some(sheet) = self.current.take() {
            let length = sheet.text.len().saturating_sub(rest.len());
            let text = &sheet.text[..length];
            let kept = Sheet::of(version, text);
            self.sheets.insert(sheet.sheet_key, kept)?;
        }
        Ok(())
    }

    /// Takes a SHEET line while no sheet is open.
    fn begin(
        &mut self,
        version: Version,
        players: &Players,
        piece: LineAndRest<'a>,
    ) -> Result<(), FileFault>
        requires few { length players.now ≤ 6 }
        requires short { length piece.rest.now ≤ file_most }
        requires none { self.old.current ≡ None }
        ensures sheets { self.new.sheets ≡ self.old.sheets }
        ensures ok { OnOk result (
            HasBegun piece.entry.rest.now (unread_fault version piece.entry.line.now)
            self.old.good self.old.unread.items
            (sheet_key_begun players.now (reading_of piece.entry.line.now))
            self.new.current self.new.good self.new.unread.items) }
        ensures err { IfErr result
            (StopsAt self.old.good (sheet_key_begun players.now (reading_of piece.entry.line.now))) }
    {
        match sheet_key_begun(players, piece.line) {
            Some(sheet_key) => {
                if self.good >= SHEETS_MOST {
                    return Err(FileFault::TooManySheets);
                }
                self.good += 1;
                self.current = Some(OpenSheet {
                    sheet_key,
                    text: piece.rest,
                });
            }
            None => self.unread.push(unread_fault(version, piece.line))?,
        }
        Ok(())
    }
}

/// Checks that the lines after the players line have no more good SHEET lines than a file may have.
pub(crate) fn examine_body(players: &Players, body: &[u8]) -> Result<(), FileFault>
    requires few { length players.now ≤ 6 }
    ensures good { OnOk result (good_lines players.now (written_lines body.now) ≤ sheets_most) }
    ensures err { IfErr result (StopsBy (good_lines players.now (written_lines body.now))) }
{
    let mut good = 0;
    let mut rest = body;
    while let Some(piece) = first_written(rest) {
        if begins_sheet(players, piece.line) {
            if good >= SHEETS_MOST {
                return Err(FileFault::TooManySheets);
            }
            good += 1;
        }
        rest = piece.rest;
    }
    Ok(())
}

/// Returns whether a line begins a sheet.
#[tactic(auto, unfolding(crate::specs::File::begins))]
fn begins_sheet(players: &Players, line: &[u8]) -> bool
    requires { length players.now ≤ 6 }
    ensures { result ≡ is_some (begins players.now line.now) }
{
    is_sheet_line(line) && sheet_key_begun(players, line).is_some()
}

/// Returns the part of a text that begins with its first line whose first word is SHEET; empty if
/// there is no such line.
fn from_sheet_line(text: &[u8]) -> &[u8]
    ensures shorter { length result.now ≤ length text.now }
    ensures skipped { IsInSheet result.now text.now }
{
    let mut rest = text;
    while let Some(piece) = first_line(rest) {
        if is_sheet_line(piece.line) {
            break;
        }
        rest = piece.rest;
    }
    rest
}

/// Returns whether the first word of a line is SHEET.
#[tactic(auto, unfolding(crate::specs::File::is_sheet_line))]
fn is_sheet_line(line: &[u8]) -> bool
    ensures { result ≡ is_sheet_line line.now }
{
    begins_with_word(line, b"SHEET")
}

/// Returns whose sheet for which round a line begins; `None` if it begins none. (Kept apart from
/// its callers: inlined, it would zero 848 bytes for each line that they skip.)
#[inline(never)]
pub(crate) fn sheet_key_begun(players: &Players, line: &[u8]) -> Option<SheetKey>
    requires { length players.now ≤ 6 }
    ensures { result ≡ sheet_key_begun players.now (reading_of line.now) }
{
    order_grammar::laws::version_one_has_no_conditions();
    let mut order = Order::Blank;
    match read_order_in(Version::One, line, &mut order) {
        Ok(_) => sheet_key_of(players, &order),
        Err(_) => None,
    }
}

/// Returns whose sheet for which round an order begins; `None` if it begins none.
fn sheet_key_of(players: &Players, order: &Order) -> Option<SheetKey>
    requires { length players.now ≤ 6 }
    ensures { result ≡ sheet_key_begun players.now (Ok order.now) }
{
    let Order::Sheet { name, round } = order else {
        return None;
    };
    let seat = players.seat_of(name)?;
    Some(SheetKey {
        seat,
        round: *round,
    })
}

/// Returns the fault of a line of a file of some version that is in no sheet: its own fault, or
/// else that its sheet is for somebody who is not a player, or that it is out of place.
#[tactic(auto, unfolding(crate::specs::File::unread_fault))]
pub fn unread_fault(version: Version, line: &[u8]) -> Fault
    ensures { result ≡ unread_fault version line.now }
{
    let mut order = Order::Blank;
    match read_order_in(version, line, &mut order) {
        Ok(_) => fault_of_order(&order),
        Err(fault) => fault,
    }
}

/// Returns the fault of a line with this order that is in no sheet: its sheet is for somebody who
/// is not a player, or it is out of place.
fn fault_of_order(order: &Order) -> Fault
    ensures { result ≡ fault_of_reading (Ok order.now) }
{
    match order {
        Order::Sheet { .. } => Fault::UnknownPlayer,
        _ => Fault::OutOfPlace,
    }
}
