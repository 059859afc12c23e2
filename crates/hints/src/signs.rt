//! Signs in and around words: those for "at least", and those that people write around a word.
ghost use Rattle.std.specs.Prelude.{◌≡◌};
ghost use Rattle.hints.specs.Words.{is_sign};

use crate::edits::push_word;
use crate::words::DIGITS_MOST;
use order_grammar::print_number;
use std::alloc::AllocError;

/// The sign > as HTML mail writes it.
const HTML_SIGN: &[u8] = b"&gt;";

/// A sign that was meant as `>=`.
#[derive(Clone, Copy)]
pub(crate) struct Sign {
    /// Whether it says "more than", so that the number after it does not count itself.
    pub(crate) is_over: bool,
}

/// A word in three parts.
#[derive(Clone, Copy)]
pub(crate) struct Signed<'a> {
    /// What is before the sign.
    pub(crate) before: &'a [u8],
    /// The sign; `None` if the word has none.
    pub(crate) sign: Option<Sign>,
    /// What is after it.
    pub(crate) after: &'a [u8],
}

/// Returns a word without the signs around it, such as a colon, a comma, a full stop or quotation
/// marks.
pub(crate) fn bare(word: &[u8]) -> &[u8] {
    let start = word.iter().position(|byte| !is_around(*byte));
    let rest = word.get(start.unwrap_or(word.len())..).unwrap_or(&[]);
    let end = rest.iter().rposition(|byte| !is_around(*byte));
    rest.get(..end.map_or(0, |end| end.saturating_add(1)))
        .unwrap_or(&[])
}

/// Returns whether a byte is a sign that may be around a word.
fn is_around(byte: u8) -> bool {
    !byte.is_ascii_alphanumeric() && !is_sign(byte)
}

/// Returns whether a byte is part of a sign for "at least".
fn is_sign(byte: u8) -> bool
    ensures { result ≡ is_sign byte }
{
    matches!(byte, b'<' | b'>' | b'=')
}

/// Splits a word at its sign for "at least" or "more than".
pub(crate) fn by_sign(word: &[u8]) -> Signed<'_> {
    if let Some(after) = word.strip_prefix(HTML_SIGN) {
        return of_html(after);
    }
    let Some(start) = word.iter().position(|byte| is_sign(*byte)) else {
        return Signed {
            before: word,
            sign: None,
            after: &[],
        };
    };
    let rest = word.get(start..).unwrap_or(&[]);
    let end = rest.iter().position(|byte| !is_sign(*byte));
    let end = end.unwrap_or(rest.len());
    let sign = rest.get(..end).unwrap_or(rest);
    Signed {
        before: word.get(..start).unwrap_or(word),
        sign: Some(Sign {
            is_over: matches!(sign, [b'>']),
        }),
        after: rest.get(end..).unwrap_or(&[]),
    }
}

/// Returns the parts of a word that begins with the sign as HTML mail writes it, given what is
/// after that.
fn of_html(after: &[u8]) -> Signed<'_> {
    let rest = after.strip_prefix(b"=");
    Signed {
        before: &[],
        sign: Some(Sign {
            is_over: rest.is_none(),
        }),
        after: rest.unwrap_or(after),
    }
}

/// Adds a word to a line, as `push_word` does; a number of a sum is one more if the sign before it
/// was for "more than". Returns whether that sign is still without its number.
pub(crate) fn push_amount(
    line: &mut Vec<u8>,
    word: &[u8],
    is_over: bool,
) -> Result<bool, AllocError> {
    if word.is_empty() {
        return Ok(is_over);
    }
    match number_of(word) {
        Some(number) if is_over => {
            line.push(b' ')?;
            print_number(line, number.saturating_add(1))?;
        }
        _ => push_word(line, word)?,
    }
    Ok(false)
}

/// Returns the number that a word of at most five digits is; `None` for other words.
fn number_of(word: &[u8]) -> Option<usize> {
    if word.len() > DIGITS_MOST || !word.iter().all(|byte| byte.is_ascii_digit()) {
        return None;
    }
    let mut number: usize = 0;
    for byte in word {
        let digit = usize::from(byte.saturating_sub(b'0'));
        number = number.saturating_mul(10).saturating_add(digit);
    }
    Some(number)
}
