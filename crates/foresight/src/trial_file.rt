//! The order files that trials play: a copy of the order file, with empty sheets added at its end.
ghost use Rattle.std.specs.Prelude.{◌≡◌, ◌++◌, IfOk, OnOk, take};
ghost use Rattle.foresight.specs.TrialFile.{IsBegun, alone_file, empty_sheet, empty_sheets, has_open_line};
ghost use Rattle.foresight.specs.TrialFile.{is_among, sheet_if, tried_file, with_line_end};

use order_grammar::{NAME_MOST, print_round};
use sheets::Sheets;
use std::alloc::{AllocError, Global};
use tables::{PLAYERS_MOST, Round, Seat};

/// The most bytes of a line with an empty sheet: its words, a name and a round.
const SHEET_LINE_MOST: usize = 32 + NAME_MOST;

/// Who gets an empty sheet at the end of the file.
#[derive(Clone, Copy)]
enum Emptied {
    /// Each player but the one of this seat.
    Others(Seat),
    /// Each player who owes a sheet.
    Owing,
}

/// The file of a trial: an order file, followed by empty sheets. In the trial of a player's sheet
/// alone each other player has one, and in that of all sheets each player who owes a sheet. The
/// sheets of the next trial overwrite those of the last, so that there is only one copy of the
/// file.
#[derive(Drop)]
pub struct TrialFile {
    /// The file with its sheets.
    pub bytes: Vec<u8>,
    /// The number of bytes before the empty sheets.
    begun: usize,
}

impl TrialFile {
    /// Returns a copy of an order file whose last line is ended, with room for empty sheets. Fails
    /// only if allocation fails.
    pub fn begin(alloc: Global, file: &[u8]) -> Result<TrialFile, AllocError>
        ensures { IfOk result (IsBegun file.now) }
    {
        let room = file.len().saturating_add(PLAYERS_MOST * SHEET_LINE_MOST);
        let mut bytes = Vec::with_capacity(alloc, room)?;
        bytes.extend_from_slice(file)?;
        end_line(&mut bytes)?;
        let begun = bytes.len();
        Ok(TrialFile { bytes, begun })
    }

    /// Puts the empty sheets of a trial of a round in place of those of the last trial. Fails only
    /// if allocation fails.
    fn put(&mut self, sheets: &Sheets, round: Round, whose: Emptied) -> Result<(), AllocError>
        requires { IsBegun sheets.now self.old }
        ensures file { OnOk result (self.new.bytes.items
            ≡ with_line_end sheets.now ++ empty_sheets sheets.now round whose) }
        ensures begun { OnOk result (IsBegun sheets.now self.new) }
    {
        self.bytes.truncate(self.begun);
        for seat in 0..sheets.seats() {
            push_sheet_if(&mut self.bytes, sheets, Seat::at(seat), round, whose)?;
        }
        Ok(())
    }

    /// Makes it the file of the trial of a seat's sheet for a round alone. Fails only if allocation
    /// fails.
    pub fn put_alone(&mut self, sheets: &Sheets, round: Round, seat: Seat) -> Result<(), AllocError>
        requires { IsBegun sheets.now self.old }
        ensures file { OnOk result (self.new.bytes.items ≡ alone_file sheets.now round seat) }
        ensures begun { OnOk result (IsBegun sheets.now self.new) }
    {
        self.put(sheets, round, Emptied::Others(seat))
    }

    /// Makes it the file of the trial of all sheets for a round that the file has. Fails only if
    /// allocation fails.
    pub fn put_all(&mut self, sheets: &Sheets, round: Round) -> Result<(), AllocError>
        requires { IsBegun sheets.now self.old }
        ensures file { OnOk result (self.new.bytes.items ≡ tried_file sheets.now round) }
        ensures begun { OnOk result (IsBegun sheets.now self.new) }
    {
        self.put(sheets, round, Emptied::Owing)
    }
}

/// Ends the last line of a text, if it is not ended.
fn end_line(text: &mut Vec<u8>) -> Result<(), AllocError>
    ensures { OnOk result (text.new.items ≡ with_line_end text.old.items) }
{
    if has_open_line(text.as_slice()) {
        text.push(b'\n')?;
    }
    Ok(())
}

/// Returns whether the last line of a text is not ended.
fn has_open_line(text: &[u8]) -> bool
    ensures { result ≡ has_open_line text.now }
{
    match text.get(text.len().saturating_sub(1)) {
        Some(last) => *last != b'\n',
        None => false,
    }
}

/// Adds an empty sheet for a round, if the player of a seat gets one in the trial.
fn push_sheet_if(
    out: &mut Vec<u8>,
    sheets: &Sheets,
    seat: Seat,
    round: Round,
    whose: Emptied,
) -> Result<(), AllocError>
    ensures { OnOk result (out.new.items
        ≡ out.old.items ++ sheet_if sheets.now round whose seat.0) }
{
    if is_among(sheets, seat, round, whose) {
        push_empty_sheet(out, sheets, seat, round)?;
    }
    Ok(())
}

/// Returns whether the player of a seat gets an empty sheet in a trial.
fn is_among(sheets: &Sheets, seat: Seat, round: Round, whose: Emptied) -> bool
    ensures { result ≡ is_among sheets.now round whose seat.0 }
{
    match whose {
        Emptied::Others(tried) => seat.index() != tried.index(),
        Emptied::Owing => sheets.sheet(seat, &round).is_none(),
    }
}

/// Adds an empty sheet of the player of a seat for a round.
fn push_empty_sheet(
    out: &mut Vec<u8>,
    sheets: &Sheets,
    seat: Seat,
    round: Round,
) -> Result<(), AllocError>
    ensures { OnOk result (out.new.items ≡ out.old.items ++ empty_sheet sheets.now round seat.0) }
{
    out.extend_from_slice(b"SHEET ")?;
    out.extend_from_slice(sheets.name(seat).unwrap_or(&[]))?;
    out.push(b' ')?;
    print_round(out, &round)?;
    out.push(b'\n')?;
    Ok(())
}
