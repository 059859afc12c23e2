//! How a line of an order file or of a certificate is read: into its order, its condition and its
//! words, or its fault.
ghost use Rattle.std.specs.Prelude.{◌≡◌, ◌≤◌, IfOk, IfSome, None, is_some, length};
ghost use Rattle.std.specs.List.{list_all, position_or_len};
ghost use Rattle.order_grammar.specs.Condition.{put_ordered};
ghost use Rattle.order_grammar.specs.Line.{cert_reading_of, order_of, reading_by, reading_of, words_within};
ghost use Rattle.order_grammar.specs.Row.{rows_of};
ghost use Rattle.order_grammar.specs.Version.{ordered_of, reading_in, words_reading_in};
ghost use Rattle.order_grammar.specs.Readable.{is_end};
ghost use Rattle.order_grammar.specs.Words.{AreWordsOf, before_comment, is_printable, texts_of};

use crate::condition::{Condition, Version, read_ordered};
use crate::fault::Fault;
use crate::form::{Grammar, read_order};
use crate::order::Order;
use crate::words::Words;

/// The most bytes of a line, without its LF and a CR before that.
pub const LINE_MOST: usize = 1024;

/// The most bytes of a line of the text of a certificate, counted the same way.
pub const CERT_LINE_MOST: usize = 2048;

const _: () = prove!(size_of::<Line>() <= 1024);

const _: () = prove!(size_of::<Words>() <= 1024);

/// A line that was read: its order with its condition, and its words as written.
#[derive(Drop)]
pub struct Line<'a> {
    pub condition: Option<Condition>,
    pub order: Order,
    pub words: Words<'a>,
}

/// Reads a line of an order file of version 1, without its LF and a CR before that. A line without
/// words is the order `Blank`. CERTS, MARKS and IF are unknown words.
pub fn read_line(line: &[u8]) -> Result<Line<'_>, Fault>
    // The order, or the fault.
    ensures order { order_of result ≡ reading_of line.now }
    // The order has no condition.
    ensures condition { IfOk result (λ read. read.condition ≡ None) }
    // The words, at their places before the comment.
    ensures words { IfOk result (λ read. AreWordsOf line.now read.words) }
{
    read_by(LINE_MOST, Grammar::OrderFile, line)
}

/// Reads a line of an order file of some version, without its LF and a CR before that. A line of
/// version 1 is read as `read_line` does. In version 2 an order may have a condition, and IF is a
/// known word.
pub fn read_line_in(version: Version, line: &[u8]) -> Result<Line<'_>, Fault>
    // The order with its condition, or the fault.
    ensures order { ordered_of result ≡ reading_in version line.now }
    // The words, at their places before the comment.
    ensures words { IfOk result (λ read. AreWordsOf line.now read.words) }
{
    let words = words_within(LINE_MOST, line)?;
    let mut order = Order::Blank;
    let condition = read_words(version, &words, &mut order)?;
    Ok(Line {
        condition,
        order,
        words,
    })
}

/// Reads a line as `read_line_in` does, overwrites `order` with its order, and returns its
/// condition. If the line has a fault, the error is that fault, and `order` may be anything.
pub fn read_order_in(
    version: Version,
    line: &[u8],
    order: &mut Order,
) -> Result<Option<Condition>, Fault>
    // The order with its condition, or the fault.
    ensures { put_ordered result order.new ≡ reading_in version line.now }
{
    let words = words_within(LINE_MOST, line)?;
    read_words(version, &words, order)
}

/// Overwrites `order` with the order that the words of a line of some version spell, and returns
/// its condition.
fn read_words(
    version: Version,
    words: &Words,
    order: &mut Order,
) -> Result<Option<Condition>, Fault>
    ensures { put_ordered result order.new ≡ words_reading_in version (texts_of words.now) }
{
    match version {
        Version::One => {
            read_order(Grammar::OrderFile, words, order)?;
            Ok(None)
        }
        Version::Two => read_ordered(words, order),
    }
}

/// Reads a line of the text of a certificate, without its LF and a CR before that. CERTS, CERT,
/// CLAIM and MARKS lines have a form; all other words are unknown. A line without words is `Blank`.
pub fn read_cert_line(line: &[u8]) -> Result<Line<'_>, Fault>
    // What the line says, or the fault.
    ensures order { order_of result ≡ cert_reading_of line.now }
    // It has no condition.
    ensures condition { IfOk result (λ read. read.condition ≡ None) }
    // The words, at their places before the comment.
    ensures words { IfOk result (λ read. AreWordsOf line.now read.words) }
{
    read_by(CERT_LINE_MOST, Grammar::Certificate, line)
}

/// Reads a line of at most this many bytes by the forms of a grammar.
fn read_by<'a>(most: usize, grammar: Grammar, line: &'a [u8]) -> Result<Line<'a>, Fault>
    ensures order { order_of result ≡ reading_by most (rows_of grammar) line.now }
    ensures condition { IfOk result (λ read. read.condition ≡ None) }
    ensures words { IfOk result (λ read. AreWordsOf line.now read.words) }
{
    let words = words_within(most, line)?;
    let mut order = Order::Blank;
    read_order(grammar, &words, &mut order)?;
    Ok(Line {
        condition: None,
        order,
        words,
    })
}

/// Returns the words of a line of at most this many bytes, all printable before its comment. The
/// error is the fault of any other line.
fn words_within(most: usize, line: &[u8]) -> Result<Words<'_>, Fault>
    ensures { result ≡ words_within most line.now }
{
    if line.len() > most {
        return Err(Fault::TooLong);
    }
    match printable_part(line) {
        Some(text) => Ok(Words::within(text)),
        None => Err(Fault::StrayByte),
    }
}

/// Returns the part of a line before its comment; `None` if a byte of it is not printable.
fn printable_part(line: &[u8]) -> Option<&[u8]>
    ensures printable { is_some result ≡ list_all is_printable (before_comment line.now) }
    ensures part { IfSome result (λ text. text.now ≡ before_comment line.now) }
{
    let end = printable_length(line);
    if end == line.len() {
        return Some(line);
    }
    if line[end] == b'#' {
        Some(&line[..end])
    } else {
        None
    }
}

/// Returns how many bytes of a line come before the first that is not printable or begins its
/// comment.
fn printable_length(line: &[u8]) -> usize
    ensures value { result ≡ position_or_len is_end line.now }
    ensures within { result ≤ length line.now }
{
    line.iter()
        .position(|byte| *byte == b'#' || !is_printable(*byte))
        .unwrap_or(line.len())
}

/// Returns whether a byte may be before a comment.
pub fn is_printable(byte: u8) -> bool
    ensures { result ≡ is_printable byte }
{
    (0x20..=0x7E).contains(&byte)
}
