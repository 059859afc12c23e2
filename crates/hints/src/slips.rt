//! Words that are nearly a known one: `C&O` for CO, `NYHN` for NYNH.
ghost use Rattle.std.specs.Prelude.{◌≡◌, drop, option_map};
ghost use Rattle.std.specs.Str.{str_eq_ignore_ascii_case};
ghost use Rattle.hints.specs.Slip.{are_turned, differ_at_first, is_code, is_near, is_slip, is_slip_in};
ghost use Rattle.hints.specs.Slip.{nearest_code, only_slip, text, texts};

/// The most bytes of a word that can be a slip in another.
const WORD_MOST: usize = 9;

/// Returns whether a word becomes a code by one slip: a letter more, a letter less, another letter,
/// or two letters swapped. Case does not matter.
fn is_slip_of(word: &[u8], code: &[u8]) -> bool
    ensures { result ≡ is_slip word.now code.now }
{
    match (word, code) {
        ([], []) => false,
        ([byte, rest @ ..], [letter, others @ ..]) if byte.eq_ignore_ascii_case(letter) => {
            is_slip_of(rest, others)
        }
        _ => differ_at_first(word, code) || are_turned(word, code),
    }
}

/// Returns whether a word and a code differ only at their first letter, which is added, missing or
/// another one.
fn differ_at_first(word: &[u8], code: &[u8]) -> bool
    ensures { result ≡ differ_at_first word.now code.now }
{
    let (word_rest, code_rest) = (without_first(word), without_first(code));
    are_equal(word_rest, code_rest) || are_equal(word_rest, code) || are_equal(word, code_rest)
}

/// Returns whether a word becomes a code if its first two letters change places.
fn are_turned(word: &[u8], code: &[u8]) -> bool
    ensures { result ≡ are_turned word.now code.now }
{
    match (word, code) {
        ([first, second, word @ ..], [letter, next, code @ ..]) => {
            first.eq_ignore_ascii_case(next)
                && second.eq_ignore_ascii_case(letter)
                && are_equal(word, code)
        }
        _ => false,
    }
}

/// Returns whether two words are equal. Case does not matter.
fn are_equal(word: &[u8], other: &[u8]) -> bool
    ensures { result ≡ str_eq_ignore_ascii_case word.now other.now }
{
    word.eq_ignore_ascii_case(other)
}

/// Returns a word without its first letter.
fn without_first(word: &[u8]) -> &[u8]
    ensures { result.now ≡ drop 1 word.now }
{
    word.get(1..).unwrap_or(&[])
}

/// Returns whether a word of at most nine bytes becomes a code by one slip.
pub(crate) fn is_near(word: &[u8], code: &[u8]) -> bool
    ensures { result ≡ is_near word.now code.now }
{
    word.len() <= WORD_MOST && is_slip_of(word, code)
}

/// Returns the only code that is one slip away from a word; `None` if the word is itself a code, if
/// no code or several are one slip away, or if the word has more than 9 bytes.
pub(crate) fn nearest<'a>(word: &[u8], codes: &[&'a [u8]]) -> Option<&'a [u8]>
    ensures { option_map text result ≡ nearest_code word.now (texts codes.now) }
{
    if word.len() > WORD_MOST || is_code(word, codes) {
        return None;
    }
    only_slip(word, codes)
}

/// Returns the only one of some codes that is one slip away from a word; `None` if there is none,
/// or several.
fn only_slip<'a>(word: &[u8], codes: &[&'a [u8]]) -> Option<&'a [u8]>
    ensures { option_map text result ≡ only_slip word.now (texts codes.now) }
{
    match codes {
        [] => None,
        [code, rest @ ..] if is_slip_of(word, code) => {
            if is_slip_in(word, rest) {
                None
            } else {
                Some(*code)
            }
        }
        [_, rest @ ..] => only_slip(word, rest),
    }
}

/// Returns whether a word becomes one of some codes by one slip.
fn is_slip_in(word: &[u8], codes: &[&[u8]]) -> bool
    ensures { result ≡ is_slip_in word.now (texts codes.now) }
{
    match codes {
        [] => false,
        [code, rest @ ..] => is_slip_of(word, code) || is_slip_in(word, rest),
    }
}

/// Returns whether a word is one of some codes.
pub(crate) fn is_code(word: &[u8], codes: &[&[u8]]) -> bool
    ensures { result ≡ is_code word.now (texts codes.now) }
{
    match codes {
        [] => false,
        [code, rest @ ..] => are_equal(word, code) || is_code(word, rest),
    }
}
