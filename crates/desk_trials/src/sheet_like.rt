//! Lines at which a sheet ends, or was meant to.
ghost use Rattle.std.specs.Prelude.{◌≡◌};
ghost use Rattle.desk_trials.specs.SheetLike.{begins_with_sign, closes, is_like_sheet};

use order_grammar::begins_with_word;

/// How many letters SHEET has.
const LETTERS: usize = 5;

/// Returns whether a sheet ends at a line, or was meant to: its first word is SHEET, or SHEET is
/// followed by a sign in place of a space.
#[tactic(auto, unfolding(sheets::specs::File::is_sheet_line))]
pub fn closes(line: &[u8]) -> bool
    ensures { result ≡ closes line.now }
{
    begins_with_word(line, b"SHEET") || is_like_sheet(line)
}

/// Returns whether a line begins with SHEET, in either case, and a sign in place of a space.
pub fn is_like_sheet(line: &[u8]) -> bool
    ensures { result ≡ is_like_sheet line.now }
{
    if line.len() < LETTERS {
        return false;
    }
    line[..LETTERS].eq_ignore_ascii_case(b"SHEET") && begins_with_sign(&line[LETTERS..])
}

/// Returns whether a text begins with a byte that people write after SHEET in place of a space: a
/// colon, a comma, a semicolon, a full stop, a tab, or the first byte of a no-break space.
fn begins_with_sign(text: &[u8]) -> bool
    ensures { result ≡ begins_with_sign text.now }
{
    match text {
        [byte, ..] => {
            *byte == b':'
                || *byte == b','
                || *byte == b';'
                || *byte == b'.'
                || *byte == b'\t'
                || *byte == 0xA0
                || *byte == 0xC2
        }
        [] => false,
    }
}
