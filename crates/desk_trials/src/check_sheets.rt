//! The SHEET lines of a file: whose sheet for which round each begins, and which it replaces.
ghost use Rattle.std.specs.Prelude.{◌≡◌, ◌≤◌, OnOk, []};
ghost use Rattle.desk_trials.specs.Heads.{AreKept, came, with_head};
ghost use Rattle.desk_trials.specs.SheetLines.{Begins, complete_by, is_at, last_line};
ghost use Rattle.sheets.specs.File.{players_of};

use crate::check_lines::FileLine;
use order_grammar::begins_with_word;
use sheets::{SheetKey, Sheets};
use std::alloc::{AllocError, Global};
use std::collections::HashMap;
use tables::{Round, Seat};

/// A good SHEET line.
#[derive(Clone, Copy)]
pub struct Head<'a> {
    /// The line.
    pub line: FileLine<'a>,
    /// The sheet that it begins.
    pub sent: SheetKey,
    /// The number of the last line above that began the same sheet; `None` if there is none.
    pub replaces: Option<usize>,
}

/// The good SHEET lines of a file.
#[derive(Drop)]
pub struct Heads<'a> {
    /// Each of them, in the order of the file.
    pub heads: Vec<Head<'a>>,
    /// How many players there are.
    pub seats: usize,
    /// The number of the first line that begins each sheet.
    first: HashMap<SheetKey, usize>,
    /// The number of the last line that does.
    last: HashMap<SheetKey, usize>,
}

impl<'a> Heads<'a> {
    /// Returns no heads yet, in a game of this many players.
    pub fn none(alloc: Global, seats: usize) -> Heads<'a>
        requires { seats ≤ 6 }
        ensures none { came result ≡ [] }
        ensures seats { result.seats ≡ seats }
        ensures kept { AreKept result }
    {
        Heads {
            heads: Vec::new(alloc),
            seats,
            first: HashMap::new(alloc),
            last: HashMap::new(alloc),
        }
    }

    /// Takes the next of them: a line, and the sheet that it begins. Fails only if allocation
    /// fails.
    pub fn take(&mut self, line: FileLine<'a>, sent: SheetKey) -> Result<(), AllocError>
        requires { AreKept self.old }
        ensures came { OnOk result (came self.new ≡ with_head (came self.old) line.entry sent) }
        ensures seats { self.new.seats ≡ self.old.seats }
        ensures kept { OnOk result (AreKept self.new) }
    {
        let replaces = self.last.insert(sent, line.number)?;
        self.heads.push(Head {
            line,
            sent,
            replaces,
        })?;
        if replaces.is_some() {
            return Ok(());
        }
        self.first.insert(sent, line.number)?;
        Ok(())
    }

    /// Returns the number of the line by which every player had a sheet for a round; `None` if some
    /// player has none.
    pub fn complete_by(&self, round: Round) -> Option<usize>
        requires { AreKept self.now }
        ensures { result ≡ complete_by self.now.seats round (came self.now) }
    {
        let mut by = 0;
        for number in 0..self.seats {
            let seat = Seat::at(number);
            let first = self.first.get(&SheetKey { seat, round })?;
            by = by.max(*first);
        }
        Some(by)
    }

    /// Returns whether the sheet that a line begins counts, because no later one replaces it.
    pub fn counts(&self, head: &Head) -> bool
        requires { AreKept self.now }
        ensures { result ≡ is_at (last_line head.now.sent (came self.now)) head.now.line.number }
    {
        match self.last.get(&head.sent) {
            Some(last) => *last == head.line.number,
            None => false,
        }
    }
}

/// What a line begins.
#[derive(Clone, Copy)]
pub enum Beginning {
    /// A sheet.
    Sheet(SheetKey),
    /// Nothing, though its first word is SHEET: it closes the sheet before it.
    Closing,
    /// Nothing, and its first word is another.
    Other,
}

/// Returns what a line begins in a file with these players.
#[tactic(auto, unfolding(sheets::specs::File::begins, sheets::specs::File::is_sheet_line))]
pub fn begun_by(sheets: &Sheets, line: &[u8]) -> Beginning
    ensures { Begins (players_of sheets.now) line.now result }
{
    if !begins_with_word(line, b"SHEET") {
        return Beginning::Other;
    }
    match sheets.sheet_begun(line) {
        Some(sent) => Beginning::Sheet(sent),
        None => Beginning::Closing,
    }
}
