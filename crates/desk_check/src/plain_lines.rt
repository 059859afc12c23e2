//! Lines of sheets that show by their first bytes that there is nothing to say about them.
ghost use Rattle.std.specs.Prelude.{◌≡◌, IfSome};
ghost use Rattle.desk_check.specs.PlainLines.{IsBehindPlain, IsPassed, is_plain_start};
ghost use Rattle.sheets.specs.Text.{IsNewline};

use desk_trials::FileLines;

/// Passes over the next lines, as long as their first bytes show that they are no SHEET lines and
/// do not look like mail. (Most lines of a sheet are such. They are not looked at any further.)
pub(crate) fn pass_plain(lines: &mut FileLines)
    ensures { IsPassed lines.old lines.new }
{
    while let Some(rest) = behind_plain(lines.rest) {
        lines.passed += 1;
        lines.rest = rest;
    }
}

/// Returns what follows the first line of a text, if the first byte of that line shows that it is
/// no SHEET line and does not look like mail.
fn behind_plain(text: &[u8]) -> Option<&[u8]>
    ensures { IfSome result (λ rest. IsBehindPlain text.now rest.now) }
{
    if text.is_empty() || !is_plain_start(text[0]) {
        return None;
    }
    let end = newline(text)?;
    Some(&text[end + 1..])
}

/// Returns where the first LF of a text is; `None` if it has none.
fn newline(text: &[u8]) -> Option<usize>
    ensures { IfSome result (IsNewline text.now) }
{
    text.iter().position(|byte| *byte == b'\n')
}

/// Returns whether a line that begins with this byte is no SHEET line and does not look like mail,
/// whatever follows.
fn is_plain_start(byte: u8) -> bool
    ensures { result ≡ is_plain_start byte }
{
    !matches!(
        byte,
        b' ' | b'S' | b's' | b'F' | b'T' | b'C' | b'D' | b'M' | b'O' | b'>' | b'|' | b'-'
    )
}
