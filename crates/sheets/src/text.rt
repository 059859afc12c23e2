//! The lines of a text, taken one at a time, and which of them are blank.
ghost use Rattle.std.specs.Prelude.{◌≡◌, ◌<◌, ℕ, List, [], ◌∷◌, ◌≢◌, EachIndex, IfSome, MatchOption, length};
ghost use Rattle.std.specs.Prelude.{slice_index};
ghost use Rattle.sheets.specs.Text.{BeginsWith, IsFirstLine, IsNewline, is_blank, lines_from, lines_of, rest_of};
ghost use Rattle.sheets.specs.Text.{without_return, written, written_lines};

use order_grammar::{LINE_MOST, has_word};

/// A line of a text, and what follows it.
#[derive(Clone, Copy, Debug)]
pub struct LineAndRest<'a> {
    /// The line, without its LF and a CR before that.
    pub line: &'a [u8],
    /// The text after its LF.
    pub rest: &'a [u8],
}

/// Returns the first line of a text; `None` if nothing is left. A last line without LF counts, and
/// a CR at its end belongs to it.
pub fn first_line(text: &[u8]) -> Option<LineAndRest<'_>>
    ensures shorter { IfSome result (λ piece. length piece.rest.now < length text.now) }
    ensures lines { MatchOption result (text.now ≡ [])
        (λ piece. lines_of text.now ≡ piece.line.now ∷ lines_of piece.rest.now) }
    ensures rest { IfSome result (λ piece. piece.rest.now ≡ rest_of text.now) }
    ensures first { MatchOption result (text.now ≡ [])
        (λ piece. (prefix : List ℕ) ×
        BeginsWith prefix (written (piece.line.now ∷ [])) piece.rest.now text.now) }
{
    if text.is_empty() {
        return None;
    }
    match newline(text) {
        Some(end) => Some(LineAndRest {
            line: without_return(&text[..end]),
            rest: &text[end + 1..],
        }),
        None => Some(LineAndRest {
            line: text,
            rest: &[],
        }),
    }
}

/// Returns where the first LF of a text is; `None` if it has none.
fn newline(text: &[u8]) -> Option<usize>
    ensures { MatchOption result
        (EachIndex text.now (λ k. slice_index text.now k ≢ 10))
        (IsNewline text.now) }
{
    text.iter().position(|byte| *byte == b'\n')
}

/// Returns a line that ended in LF, without a CR at its end.
fn without_return(line: &[u8]) -> &[u8]
    ensures { result.now ≡ without_return line.now }
{
    let Some((last, prefix)) = line.split_last() else {
        return line;
    };
    if *last == b'\r' { prefix } else { line }
}

/// Returns whether a line is blank, and so counts nowhere: it has no words and at most 1,024 bytes.
#[tactic(auto, unfolding(crate::specs::Text::is_blank))]
pub fn is_blank(line: &[u8]) -> bool
    ensures { result ≡ is_blank line.now }
{
    line.len() <= LINE_MOST && !has_word(line)
}

/// Returns the first line of a text that is not blank, and what follows it.
pub(crate) fn first_written(text: &[u8]) -> Option<LineAndRest<'_>>
    ensures shorter { IfSome result (λ piece. length piece.rest.now < length text.now) }
    ensures lines { MatchOption result
        (written_lines text.now ≡ [])
        (λ piece. written_lines text.now ≡ piece.line.now ∷ written_lines piece.rest.now) }
    ensures first { IfSome result (λ piece. IsFirstLine piece.line.now piece.rest.now text.now) }
{
    let mut rest = text;
    while let Some(piece) = first_line(rest) {
        if !is_blank(piece.line) {
            return Some(piece);
        }
        rest = piece.rest;
    }
    None
}
