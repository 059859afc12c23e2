//! The faults of lines that are obeyed in no game, each with its code and its sentence.
ghost use Rattle.std.specs.Prelude.{◌≡◌};
ghost use Rattle.order_grammar.specs.Fault.{code_of, sentence_of};
ghost use Rattle.tables.specs.RuleTexts.{ListsEachRule};

use std::fmt::{self, Display, Formatter, Write};
use tables::{Printed, RuleRow, rule_rows};
use thiserror::Error;

/// Why a line is not obeyed in any game: the first of these that applies. In the text of a
/// certificate a line may have up to 2,048 bytes.
#[derive(Clone, Copy, Debug, PartialEq, Eq, Drop, Error)]
pub enum Fault {
    /// G1: the line has more than 1,024 bytes, its comment counted.
    TooLong,
    /// G2: a byte before its comment is not printable ASCII: a tab, a hard space, an accent.
    StrayByte,
    /// G3: no order begins with its first word. In a file of version 1 none begins with IF.
    UnknownWord,
    /// G4: the words after the first fit no form; or after IF they are not a condition followed by
    /// an order.
    WrongWords,
    /// G5: a number is more than 99,999.
    NumberTooLarge,
    /// G6: the order is out of place, with or without a condition, or the line is in no sheet.
    OutOfPlace,
    /// G7: the SHEET line does not name a player.
    UnknownPlayer,
    /// G8: the line is past the 512th of its sheet.
    PastLastLine,
}

/// The faults of a line, in the order in which they apply.
static FAULTS: [RuleRow<Fault>; Fault::PastLastLine as usize + 1] = rule_rows! { Fault
    TooLong: "G1", "the line has more than 1,024 bytes, its comment counted",
        "write it shorter", Some("G1-line-of-1025-bytes"),
    StrayByte: "G2",
        "a byte before the comment is not printable ASCII (for example a tab or an accented \
        letter)",
        "write plain letters and spaces", Some("G2-tab"),
    UnknownWord: "G3",
        "no order begins with its first word; in a file of version 1 none begins with IF",
        "check that word for a typo; put `#` before anything that is not an order; to use \
        conditions, begin the file with `GAME 1830 2`",
        Some("G3-unknown-word"),
    WrongWords: "G4",
        "the words after the first do not fit any of its forms; after IF, they are not a \
        condition followed by an order",
        "compare them with the table of forms", Some("G4-wrong-words"),
    NumberTooLarge: "G5", "a number is more than 99,999",
        "write a smaller one", Some("G5-number-over-99999"),
    OutOfPlace: "G6",
        "the order is not allowed where it stands, with or without a condition, or the line \
        belongs to no sheet",
        "see which lines may stand before the first TURN or COMPANY, in a turn, or in a \
        company's orders",
        Some("G6-before-the-first-turn"),
    UnknownPlayer: "G7", "the SHEET line names nobody who plays",
        "write the name as the PLAYERS line has it", Some("G7-unknown-player"),
    PastLastLine: "G8", "the line is past the 512th of its sheet",
        "write fewer lines", Some("G8-past-line-512"),
};

impl Fault {
    /// Returns the table of all these: each with its code and its sentence.
    pub fn rows() -> &'static [RuleRow<Fault>]
        ensures { ListsEachRule code_of result.now }
    {
        &FAULTS
    }

    /// Returns its row of the table.
    pub fn row(self) -> &'static RuleRow<Fault>
        ensures code { result.now.code.now ≡ code_of self }
        ensures sentence { result.now.sentence.now ≡ sentence_of self }
    {
        &FAULTS[self as usize]
    }

    /// Returns the code that a report prints.
    pub fn code(self) -> &'static str
        ensures { result.now ≡ code_of self }
    {
        self.row().code
    }

    /// Returns what is wrong, in a player's words. The desk and the tables of the docs print these
    /// words and no others.
    pub fn sentence(self) -> &'static str
        ensures { result.now ≡ sentence_of self }
    {
        self.row().sentence
    }
}

impl Printed for Fault {
    ghost code_of = { code_of };

    fn printed(self) -> &'static str {
        self.code()
    }
}

/// Its sentence.
impl Display for Fault {
    fn fmt<W: Write>(&self, f: &mut Formatter<W>) -> fmt::Result {
        f.write_str(self.sentence())
    }
}
