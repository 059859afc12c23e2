//! The words of a line, as they are written.
ghost use Rattle.std.specs.Prelude.{◌≡◌};
ghost use Rattle.hints.specs.Slip.{texts};
ghost use Rattle.hints.specs.Words.{are_within, ends_word, has_at_most_unknown, has_digit};
ghost use Rattle.hints.specs.Words.{has_other_than_digits, has_other_than_letters, is_long_number};
ghost use Rattle.hints.specs.Words.{is_mendable, is_unknown, is_without_long_number};

use crate::slips::is_code;

/// How many words of a line are looked at.
pub(crate) const WORDS_MOST: usize = 12;

/// The most letters of a word of an order.
pub(crate) const LETTERS_MOST: usize = 9;

/// The most digits of a number of an order.
pub(crate) const DIGITS_MOST: usize = 5;

/// The most unknown words of a line that one edit can mend: two that were one word.
pub(crate) const UNKNOWN_MOST: usize = 2;

/// The most letters of the words that are mended, taken together.
const MENDED_MOST: usize = WORDS_MOST * LETTERS_MOST;

/// Returns whether some words are few and short enough for an order with a slip in it: they have at
/// most 108 letters, and none is a number of more than five digits.
pub(crate) fn is_mendable(words: &[&[u8]]) -> bool
    ensures { result ≡ is_mendable (texts words.now) }
{
    are_within(MENDED_MOST, words) && is_without_long_number(words)
}

/// Returns whether some words have at most this many letters, digits and signs.
fn are_within(most: usize, words: &[&[u8]]) -> bool
    ensures { result ≡ are_within most (texts words.now) }
{
    match words {
        [] => true,
        [word, rest @ ..] => word.len() <= most && are_within(most - word.len(), rest),
    }
}

/// Returns whether none of some words is a number of more digits than any sum has.
fn is_without_long_number(words: &[&[u8]]) -> bool
    ensures { result ≡ is_without_long_number (texts words.now) }
{
    match words {
        [] => true,
        [word, rest @ ..] => !is_long_number(word) && is_without_long_number(rest),
    }
}

/// Returns whether at most so many of some words are unknown: neither first words of lines nor
/// other words of orders. An edit changes at most two words, so a line with three of them is near
/// to no order.
pub(crate) fn has_at_most_unknown(
    most: usize,
    firsts: &[&[u8]],
    codes: &[&[u8]],
    words: &[&[u8]],
) -> bool
    ensures { result ≡ has_at_most_unknown most (texts firsts.now) (texts codes.now) (texts words.now) }
{
    match words {
        [] => true,
        [word, rest @ ..] if is_unknown(firsts, codes, word) => {
            most > 0 && has_at_most_unknown(most - 1, firsts, codes, rest)
        }
        [_, rest @ ..] => has_at_most_unknown(most, firsts, codes, rest),
    }
}

/// Returns whether a word has two letters or more, nothing else, and is neither a first word of
/// lines nor another word of orders.
fn is_unknown(firsts: &[&[u8]], codes: &[&[u8]], word: &[u8]) -> bool
    ensures { result ≡ is_unknown (texts firsts.now) (texts codes.now) word.now }
{
    word.len() > 1
        && !has_other_than_letters(word)
        && !(is_code(word, firsts) || is_code(word, codes))
}

/// Returns whether a word has a digit or a sign.
fn has_other_than_letters(word: &[u8]) -> bool
    ensures { result ≡ has_other_than_letters word.now }
{
    word.iter().any(|byte| !byte.is_ascii_alphabetic())
}

/// Returns whether a word is a number of more than five digits.
fn is_long_number(word: &[u8]) -> bool
    ensures { result ≡ is_long_number word.now }
{
    word.len() > DIGITS_MOST && !has_other_than_digits(word)
}

/// Returns whether a word has a letter or a sign.
fn has_other_than_digits(word: &[u8]) -> bool
    ensures { result ≡ has_other_than_digits word.now }
{
    word.iter().any(|byte| !byte.is_ascii_digit())
}

/// Returns the first words of a line before its comment, at most 12, and how many words it has
/// there.
pub fn words_of(line: &[u8]) -> ([&[u8]; 12], usize) {
    let mut words: [&[u8]; WORDS_MOST] = [b""; WORDS_MOST];
    let mut count = 0;
    let mut is_inside = false;
    for (at, byte) in line.iter().enumerate() {
        if *byte == b'#' {
            break;
        }
        let is_space = *byte == b' ';
        if !is_inside && !is_space {
            if count < WORDS_MOST {
                words[count] = word_in_front(&line[at..]);
            }
            count += 1;
        }
        is_inside = !is_space;
    }
    (words, count)
}

/// Returns a text up to its first space or comment.
fn word_in_front(text: &[u8]) -> &[u8] {
    for (length, byte) in text.iter().enumerate() {
        if ends_word(*byte) {
            return &text[..length];
        }
    }
    text
}

/// Returns whether a byte ends a word: it is a space, or begins a comment.
fn ends_word(byte: u8) -> bool
    ensures { result ≡ ends_word byte }
{
    byte == b' ' || byte == b'#'
}

/// Returns whether a word has a digit, as numbers and places have.
pub(crate) fn has_digit(word: &[u8]) -> bool
    ensures { result ≡ has_digit word.now }
{
    word.iter().any(|byte| byte.is_ascii_digit())
}
