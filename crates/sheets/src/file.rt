//! An order file: its version, its players and their sheets, found by seat and round. `collect`
//! keeps the sheets of a file; `examine` keeps none and returns only its version.
ghost use Rattle.std.specs.Prelude.{◌≡◌, ℕ, ◌≤◌, List, length, MatchResult, IfOk, OnOk, option_copied, option_map};
ghost use Rattle.std.specs.Prelude.{slice_get, is_none, is_some, Err};
ghost use Rattle.order_grammar.specs.Line.{reading_of};
ghost use Rattle.sheets.specs.CompanyOrders.{company_orders_for};
ghost use Rattle.sheets.specs.File.{Fails, IsAccepted, all_posted, body_content, content_of, header_version};
ghost use Rattle.sheets.specs.File.{lines_content};
ghost use Rattle.sheets.specs.File.{players_content, players_of, seat_from, sheet_key_begun, sheet_of, unread_of};
ghost use Rattle.sheets.specs.File.{version_in, version_numbered, version_of};
ghost use Rattle.sheets.specs.Part.{parts_for};
ghost use Rattle.sheets.specs.Sheet.{sent_in_version};
ghost use Rattle.sheets.specs.Text.{written_lines};

use crate::collecting::{collect_body, examine_body, sheet_key_begun};
use crate::fault::FileFault;
use crate::parts::PartsLeft;
use crate::players::{Players, players_named};
use crate::sheet::{Lines, Sheet};
use crate::sheet_key::SheetKey;
use crate::text::first_written;
use order_grammar::{Fault, Name, Order, Version, read_line};
use std::alloc::Global;
use std::collections::HashMap;
use std::marker::Model;
use tables::{Company, Round, Seat};

/// The game that an order file is for, as its header line names it.
pub const GAME: u32 = 1830;

/// The most bytes of an order file.
pub const FILE_MOST: usize = 67_108_864;

/// The sheets of an order file.
#[derive(Drop)]
pub struct Sheets<'a> {
    file: &'a [u8],
    version: Version,
    players: Players,
    sheets: HashMap<SheetKey, Sheet<'a>>,
    unread: Vec<Fault>,
}

/// In a contract they are the file that they were collected from.
impl<'a> Model for Sheets<'a> {
    ghost use Rattle.std.specs.Prelude.{ℕ, List};
    ghost use Rattle.std.specs.HashMap.{get};
    ghost use Rattle.sheets.specs.Collecting.{IsCollected};
    ghost use Rattle.sheets.specs.File.{same_sheet_key};

    ghost Value = { List ℕ };

    ghost view = { λ sheets. sheets.file.now };

    ghost invariant = { λ sheets.
        IsCollected sheets.file.now sheets.version sheets.players
        (get same_sheet_key sheets.sheets) sheets.unread.items };
}

impl<'a> Sheets<'a> {
    /// Returns the version of the file, as its header line names it.
    pub fn version(&self) -> Version
        ensures { result ≡ version_of self.now }
    {
        self.version
    }

    /// Returns the last sheet that the player of this seat sent for this round; `None` if they sent
    /// none, or the seat is empty.
    pub fn sheet(&self, seat: Seat, round: &Round) -> Option<&Sheet<'a>>
        ensures sheet { option_copied result
            ≡ option_map (sent_in_version (version_of self.now)) (sheet_of self.now seat.0 round.now) }
        ensures sent { is_some result ≡ is_some (sheet_of self.now seat.0 round.now) }
        ensures owed { is_none result ≡ is_none (sheet_of self.now seat.0 round.now) }
    {
        let sheet_key = SheetKey {
            seat,
            round: *round,
        };
        self.sheets.get(&sheet_key)
    }

    /// Returns whether every seat has a sheet for a round.
    pub fn are_all_posted(&self, round: &Round) -> bool
        ensures { result ≡ all_posted self.now round.now }
    {
        (0..self.seats()).all(|seat| self.sheet(Seat::at(seat), round).is_some())
    }

    /// Returns the parts of the sheet of this seat for this round; none without a sheet.
    pub fn parts(&self, seat: Seat, round: Round) -> PartsLeft<'a>
        ensures { result ≡ parts_for self.now round seat.0 }
    {
        match self.sheet(seat, &round) {
            Some(sheet) => PartsLeft::of(sheet.lines(), round),
            None => PartsLeft::of(Lines::none(), round),
        }
    }

    /// Returns the parts of the sheet of this seat for this round from the first of a company's
    /// orders on; none if the sheet has no orders for the company, or there is no sheet. If two
    /// heads name the company, the first counts.
    pub fn company_orders(&self, seat: Seat, round: &Round, company: Company) -> PartsLeft<'a>
        ensures { result.before ≡ company_orders_for self.now round.now seat.0 company }
    {
        let mut parts = self.parts(seat, *round);
        parts.take_to_orders_of(company);
        parts
    }

    /// Returns the codes of the unread lines, in order.
    pub fn unread(&self) -> &[Fault]
        ensures { result.now ≡ unread_of self.now }
    {
        self.unread.as_slice()
    }

    /// Returns how many players there are, 3 to 6.
    pub fn seats(&self) -> usize
        ensures value { result ≡ length (players_of self.now) }
        ensures least { 3 ≤ result }
        ensures most { result ≤ 6 }
    {
        self.players.len()
    }

    /// Returns the name of the player of a seat, in upper case; `None` if the seat is empty.
    pub fn name(&self, seat: Seat) -> Option<&[u8]>
        ensures { option_map (λ name. name.now) result ≡ slice_get (players_of self.now) seat.0 }
    {
        let name = self.players.name(seat)?;
        Some(name.text())
    }

    /// Returns the seat of the player with a name; `None` if no player has it.
    pub fn seat_of(&self, name: &Name) -> Option<Seat>
        ensures { result ≡ seat_from 0 (players_of self.now) name.now }
    {
        self.players.seat_of(name)
    }

    /// Returns whose sheet for which round a line begins whose first word is SHEET; `None` if it
    /// begins none.
    pub fn sheet_begun(&self, line: &[u8]) -> Option<SheetKey>
        ensures { result ≡ sheet_key_begun (players_of self.now) (reading_of line.now) }
    {
        sheet_key_begun(&self.players, line)
    }
}

/// Collects the sheets of an order file. The last good SHEET line for a player and a round counts,
/// and its sheet ends before the next line whose first word is SHEET.
///
/// A file is refused by the first of these errors that applies: `TooLong`, `Header`, `Players`,
/// `TooManySheets`. The error is `Memory` if an allocation fails.
pub fn collect(alloc: Global, file: &[u8]) -> Result<Sheets<'_>, FileFault>
    ensures file { MatchResult result
        (λ sheets. sheets ≡ file.now)
        (λ fault. Fails fault (content_of file.now)) }
    ensures accepted { OnOk result (IsAccepted file.now) }
{
    if file.len() > FILE_MOST {
        return Err(FileFault::TooLong);
    }
    let (version, after_header) = read_header(file)?;
    let (players, body) = read_players(alloc, after_header)?;
    let collection = collect_body(alloc, version, &players, body)?;
    Ok(Sheets {
        file,
        version,
        players,
        sheets: collection.sheets,
        unread: collection.unread,
    })
}

/// Returns the version of an order file. It fails as `collect` does. It keeps no sheet, and
/// allocates only the names of the players.
pub fn examine(alloc: Global, file: &[u8]) -> Result<Version, FileFault>
    ensures version { MatchResult result
        (λ version. version ≡ version_of file.now)
        (λ fault. Fails fault (content_of file.now)) }
    ensures accepted { OnOk result (IsAccepted file.now) }
{
    if file.len() > FILE_MOST {
        return Err(FileFault::TooLong);
    }
    let (version, after_header) = read_header(file)?;
    let (players, body) = read_players(alloc, after_header)?;
    examine_body(&players, body)?;
    Ok(version)
}

/// Returns the version that the header line names, and what follows that line. The error is
/// `Header`.
fn read_header(file: &[u8]) -> Result<(Version, &[u8]), FileFault>
    ensures shorter { IfOk result (λ read. length read.1.now ≤ length file.now) }
    ensures version { IfOk result (λ read. read.0 ≡ version_in (written_lines file.now)) }
    ensures content { MatchResult result
        (λ read. lines_content (written_lines file.now)
        ≡ players_content (written_lines read.1.now))
        (λ fault. lines_content (written_lines file.now) ≡ Err fault) }
{
    let Some(piece) = first_written(file) else {
        return Err(FileFault::Header);
    };
    match header_version(piece.line) {
        Some(version) => Ok((version, piece.rest)),
        None => Err(FileFault::Header),
    }
}

/// Returns the version of a file whose header line is this one, `GAME 1830 1` or `GAME 1830 2`;
/// `None` for other lines.
fn header_version(line: &[u8]) -> Option<Version>
    ensures { result ≡ header_version (reading_of line.now) }
{
    let Ok(line) = read_line(line) else {
        return None;
    };
    match &line.order {
        Order::Game {
            game: GAME,
            version,
        } => version_numbered(*version),
        _ => None,
    }
}

/// Returns the version with this number.
fn version_numbered(number: u32) -> Option<Version>
    ensures { result ≡ version_numbered number }
{
    match number {
        1 => Some(Version::One),
        2 => Some(Version::Two),
        _ => None,
    }
}

/// Returns the players, and what follows their line. The error is `Players`, or `Memory` if an
/// allocation fails.
fn read_players(alloc: Global, text: &[u8]) -> Result<(Players, &[u8]), FileFault>
    ensures shorter { IfOk result (λ read. length read.1.now ≤ length text.now) }
    ensures least { IfOk result (λ read. 3 ≤ length read.0) }
    ensures most { IfOk result (λ read. length read.0 ≤ 6) }
    ensures content { MatchResult result
        (λ read. players_content (written_lines text.now)
        ≡ body_content (written_lines read.1.now) (Some read.0))
        (λ fault. Fails fault (players_content (written_lines text.now))) }
{
    let Some(piece) = first_written(text) else {
        return Err(FileFault::Players);
    };
    match players_named(alloc, piece.line)? {
        Some(players) => Ok((players, piece.rest)),
        None => Err(FileFault::Players),
    }
}
