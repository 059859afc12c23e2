//! The round that is asked for, as a command line names it.
ghost use Rattle.std.specs.Prelude.{◌≡◌, option_map};
ghost use Rattle.std.specs.List.{list_all};
ghost use Rattle.order_grammar.specs.Line.{reading_of};
ghost use Rattle.desk_state.specs.RoundName.{is_in_name, round_of_sheet, round_named, sheet_line};

use arrayvec::ArrayVec;
use order_grammar::{Line, Order, read_line};
use tables::Round;

/// The start of a SHEET line of some player.
const SHEET: &[u8; 8] = b"SHEET A ";

/// The most bytes of a SHEET line that begins so: the name of a round has at most 9.
const SHEET_MOST: usize = 17;

/// Returns the round that a word names as a SHEET line would, in either case: `PR1`, `SR1` or
/// `OR1.1`; `None` if it names none.
pub fn read_round(word: &[u8]) -> Option<Round>
    ensures { result ≡ round_named word.now }
{
    if !is_name(word) {
        return None;
    }
    let line = sheet_line(word)?;
    round_of_sheet(line.as_slice())
}

/// Returns whether a word has only bytes that the name of a round may have.
fn is_name(word: &[u8]) -> bool
    ensures { result ≡ list_all is_in_name word.now }
{
    word.iter().all(|byte| is_in_name(*byte))
}

/// Returns whether the name of a round may have a byte: a letter, a digit or a dot.
fn is_in_name(byte: u8) -> bool
    ensures { result ≡ is_in_name byte }
{
    byte.is_ascii_alphanumeric() || byte == b'.'
}

/// Returns a SHEET line for the round with this name; `None` if no round has so long a name.
fn sheet_line(name: &[u8]) -> Option<ArrayVec<u8, SHEET_MOST>>
    ensures { option_map (λ line. line.items) result ≡ sheet_line name.now }
{
    let mut line = ArrayVec::new();
    line.try_extend_from_slice(SHEET).ok()?;
    line.try_extend_from_slice(name).ok()?;
    Some(line)
}

/// Returns the round of a SHEET line; `None` for other lines.
fn round_of_sheet(line: &[u8]) -> Option<Round>
    ensures { result ≡ round_of_sheet (reading_of line.now) }
{
    match read_line(line) {
        Ok(
            Line {
                order: Order::Sheet { round, .. },
                ..
            },
        ) => Some(round),
        _ => None,
    }
}
