//! The faults for which an order file is refused as a whole, each with its code and its sentence.
ghost use Rattle.std.specs.Prelude.{◌≡◌};
ghost use Rattle.sheets.specs.File.{code_of_fault, sentence_of_fault};
ghost use Rattle.sheets.specs.declared.fault.FileFault.TheVariants.{Memory};
ghost use Rattle.tables.specs.RuleTexts.{ListsEachRule};

use std::alloc::{AllocError, AllocFailed};
use std::fmt::{self, Display, Formatter, Write};
use tables::{Printed, RuleRow, rule_rows};
use thiserror::Error;

/// Why a file has no sheets. It is refused as a whole, by the first of F3, F1, F2, F4 that applies.
/// After a failed allocation the file may well be accepted.
#[derive(Clone, Copy, Debug, PartialEq, Eq, Drop, Error)]
pub enum FileFault {
    /// F1: the first line that is not blank is neither `GAME 1830 1` nor `GAME 1830 2`.
    Header,
    /// F2: the next line does not name three to six different players.
    Players,
    /// F3: the file has more than 67,108,864 bytes.
    TooLong,
    /// F4: the file has more than 65,536 good SHEET lines.
    TooManySheets,
    /// F5: allocation failed.
    Memory,
}

/// The faults of a file, in the order of their codes.
static FILE_FAULTS: [RuleRow<FileFault>; FileFault::Memory as usize + 1] = rule_rows! { FileFault
    Header: "F1", "the first line that is not blank is neither `GAME 1830 1` nor `GAME 1830 2`",
        "write one of these lines first; save the file as plain text, without a byte order mark",
        Some("F1-another-game"),
    Players: "F2", "the next line does not name three to six different players",
        "write `PLAYERS` and the names: each a letter and up to seven letters or digits",
        Some("F2-two-players"),
    TooLong: "F3", "the file has more than 67,108,864 bytes",
        "take out comments, and sheets that later ones replace", None,
    TooManySheets: "F4", "the file has more than 65,536 good SHEET lines",
        "take out sheets that later ones replace", None,
    Memory: "F5", "allocation failed",
        "free memory, and run the program again", None,
};

impl FileFault {
    /// Returns the table of all these: each with its code and its sentence.
    pub fn rows() -> &'static [RuleRow<FileFault>]
        ensures { ListsEachRule code_of_fault result.now }
    {
        &FILE_FAULTS
    }

    /// Returns its row of the table.
    pub fn row(self) -> &'static RuleRow<FileFault>
        ensures code { result.now.code.now ≡ code_of_fault self }
        ensures sentence { result.now.sentence.now ≡ sentence_of_fault self }
    {
        &FILE_FAULTS[self as usize]
    }

    /// Returns the code of the fault. The report of a refused file prints it. No report prints the
    /// code of a failed allocation.
    pub fn code(self) -> &'static str
        ensures { result.now ≡ code_of_fault self }
    {
        FILE_FAULTS[self as usize].code
    }

    /// Returns what is wrong, in a player's words. The desk and the tables of the docs print no
    /// other.
    pub fn sentence(self) -> &'static str
        ensures { result.now ≡ sentence_of_fault self }
    {
        FILE_FAULTS[self as usize].sentence
    }
}

impl Printed for FileFault {
    ghost code_of = { code_of_fault };

    fn printed(self) -> &'static str {
        self.code()
    }
}

/// Its sentence.
impl Display for FileFault {
    fn fmt<W: Write>(&self, f: &mut Formatter<W>) -> fmt::Result {
        f.write_str(self.sentence())
    }
}

impl From<AllocError> for FileFault {
    ghost from_gives = { λ _ fault. fault ≡ Memory };

    fn from(_error: AllocError) -> FileFault {
        // An allocation failed: passed on.
        FileFault::Memory
    }
}

impl<T: Drop> From<AllocFailed<T>> for FileFault {
    ghost from_gives = { λ _ fault. fault ≡ Memory };

    fn from(_error: AllocFailed<T>) -> FileFault {
        // An allocation failed: passed on.
        FileFault::Memory
    }
}
