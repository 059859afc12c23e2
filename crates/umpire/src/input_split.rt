//! Splits the input of a check of certificates into the order file and the text of the certificates
//! after it.
ghost use Rattle.std.specs.Prelude.{◌≡◌, true, None, Some, MatchOption};
ghost use Rattle.umpire.specs.InputSplit.{certificates_of_input, from_divider, is_divider, order_file_of};
ghost use Rattle.umpire.specs.InputSplit.{without_newline};

use order_grammar::{Line, Order, begins_with_word, read_cert_line};
use sheets::first_line;

/// The most bytes of the text of certificates.
pub const CERTIFICATES_MOST: usize = 67_108_864;

/// The two parts of the input of a check of certificates.
#[derive(Clone, Copy, Debug)]
pub struct Parted<'a> {
    /// The order file.
    pub file: &'a [u8],
    /// The text of the certificates after it, from its line `CERTS 1` on.
    pub certificates: &'a [u8],
}

/// Splits the input of a check of certificates at its last line `CERTS 1` of at most 2,048 bytes.
/// The order file is everything before that line, without the one LF at its end. If there is no
/// such line, the order file is the whole input, and there are no certificates.
pub fn part(input: &[u8]) -> Parted<'_>
    ensures file { result.file.now ≡ order_file_of input.now }
    ensures certificates { result.certificates.now ≡ certificates_of_input input.now }
{
    match from_divider(input) {
        Some(certificates) => Parted {
            file: without_newline(&input[..input.len() - certificates.len()]),
            certificates,
        },
        None => Parted {
            file: input,
            certificates: &[],
        },
    }
}

/// Returns the part of a text from its last line `CERTS 1` on.
fn from_divider(text: &[u8]) -> Option<&[u8]>
    ensures { MatchOption result (from_divider true text.now ≡ None)
        (λ found. from_divider true text.now ≡ Some found.now) }
{
    let mut found = None;
    let mut rest = text;
    while let Some(piece) = first_line(rest) {
        if is_divider(piece.line) {
            found = Some(rest);
        }
        rest = piece.rest;
    }
    found
}

/// Returns whether a line is `CERTS 1`, of at most 2,048 bytes. Most lines are ruled out by their
/// first word, and not read further.
#[tactic(auto, unfolding(crate::specs::InputSplit::is_divider))]
fn is_divider(line: &[u8]) -> bool
    ensures { result ≡ is_divider line.now }
{
    // A law, which does nothing when it runs: a line that is read as an order has the order's
    // words.
    order_grammar::laws::cert_line_read_where_spelt();
    begins_with_word(line, b"CERTS")
        && matches!(
            read_cert_line(line),
            Ok(Line {
                order: Order::Certs,
                ..
            })
        )
}

/// Returns a text without the one LF at its end.
fn without_newline(text: &[u8]) -> &[u8]
    ensures { result.now ≡ without_newline text.now }
{
    let Some((last, prefix)) = text.split_last() else {
        return text;
    };
    if *last == b'\n' { prefix } else { text }
}
