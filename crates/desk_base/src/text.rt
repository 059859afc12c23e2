//! Builds a text piece by piece. Each call adds at its end. A `Text` keeps the error of a failed
//! allocation, so that a layout is written without a `?`; the functions return it.
ghost use Rattle.std.specs.Prelude.{◌≡◌, [], IfOk, IsOk, None};

use crate::wrapped::{push_wrapped, push_wrapped_lines};
use order_grammar::{print_number, print_round};
use std::alloc::{AllocError, Global};
use tables::{Money, Round, Square};

/// The least and the greatest byte that are printed unchanged.
const PRINTABLE: (u8, u8) = (b' ', b'~');

/// The byte that stands for a piece among words.
const PLACE: u8 = b'%';

/// A piece of a text.
#[derive(Clone, Copy)]
pub enum Piece<'a> {
    /// Words as they are.
    Words(&'a str),
    /// Bytes as they are, of a name or a place.
    Bytes(&'a [u8]),
    /// A number in digits.
    Number(Money),
    /// A count, or the number of a line, a side or a rotation, in digits.
    Count(usize),
    /// A number at the right of a column of this many bytes.
    Right(usize, Money),
    /// A round: `OR2.1`.
    Round(Round),
    /// A square of the stock market, by the letter of its row and its column: `A7`.
    Square(Square),
    /// Spaces up to this column of the last line, counted from 0; none if the line is that long.
    Column(usize),
    /// A line of a file, cut to this many bytes. A byte that is not printable ASCII becomes `?`.
    Cut(&'a [u8], usize),
}

/// A text that is built piece by piece. Once an allocation has failed nothing more is added, and
/// `finish` returns the error.
#[derive(Drop)]
pub struct Text {
    bytes: Vec<u8>,
    fault: Option<AllocError>,
}

impl Text {
    /// Returns an empty text.
    pub fn new(alloc: Global) -> Text
        ensures bytes { result.bytes.items ≡ [] }
        ensures fault { result.fault ≡ None }
    {
        Text {
            bytes: Vec::new(alloc),
            fault: None,
        }
    }

    /// Adds words, with the next of some pieces in place of each `%`; nothing once no piece is
    /// left.
    pub fn fill(&mut self, words: &str, pieces: &[Piece])
        ensures before { self.new.fault ≡ None → self.old.fault ≡ None }
    {
        if self.fault.is_none() {
            let added = fill(&mut self.bytes, words, pieces);
            self.note(added);
        }
    }

    /// Adds pieces in their order.
    pub fn push(&mut self, pieces: &[Piece])
        ensures before { self.new.fault ≡ None → self.old.fault ≡ None }
    {
        if self.fault.is_none() {
            let added = push(&mut self.bytes, pieces);
            self.note(added);
        }
    }

    /// Adds the words of a text to the current line, and ends it. A word that would end past column
    /// 80 begins a new line at this column.
    pub fn push_wrapped(&mut self, column: usize, text: &[u8])
        ensures before { self.new.fault ≡ None → self.old.fault ≡ None }
    {
        if self.fault.is_none() {
            let added = push_wrapped(&mut self.bytes, column, text);
            self.note(added);
        }
    }

    /// Adds the lines of a text from this column on, each wrapped.
    pub fn push_wrapped_lines(&mut self, column: usize, text: &[u8])
        ensures before { self.new.fault ≡ None → self.old.fault ≡ None }
    {
        if self.fault.is_none() {
            let added = push_wrapped_lines(&mut self.bytes, column, text);
            self.note(added);
        }
    }

    /// Keeps the error of an allocation that failed as bytes were added.
    fn note(&mut self, added: Result<(), AllocError>)
        ensures bytes { self.new.bytes.items ≡ self.old.bytes.items }
        ensures before { self.new.fault ≡ None → self.old.fault ≡ None }
        ensures added { self.new.fault ≡ None → IsOk added }
    {
        if let Err(error) = added {
            self.fault = Some(error);
        }
    }

    /// Returns the bytes so far; after a failed allocation they may lack some.
    pub fn bytes(&self) -> &[u8]
        ensures { result.now ≡ self.now.bytes.items }
    {
        self.bytes.as_slice()
    }

    /// Returns the bytes of the text, or the error if an allocation has failed.
    pub fn finish(self) -> Result<Vec<u8>, AllocError>
        ensures fault { self.fault ≡ None → IsOk result }
        ensures bytes { IfOk result (λ bytes. bytes.items ≡ self.bytes.items) }
        ensures none { IfOk result (λ _. self.fault ≡ None) }
    {
        let Text { bytes, fault } = self;
        match fault {
            None => Ok(bytes),
            Some(error) => Err(error),
        }
    }
}

/// Adds words, with the next of some pieces in place of each `%`; nothing once no piece is left.
pub fn fill(out: &mut Vec<u8>, words: &str, pieces: &[Piece]) -> Result<(), AllocError> {
    let mut left = pieces.iter();
    for byte in words.as_bytes() {
        if *byte != PLACE {
            out.push(*byte)?;
        } else if let Some(piece) = left.next() {
            push_piece(out, *piece)?;
        }
    }
    Ok(())
}

/// Adds pieces in their order.
pub fn push(out: &mut Vec<u8>, pieces: &[Piece]) -> Result<(), AllocError> {
    for piece in pieces {
        push_piece(out, *piece)?;
    }
    Ok(())
}

/// Adds a piece.
fn push_piece(out: &mut Vec<u8>, piece: Piece) -> Result<(), AllocError> {
    match piece {
        Piece::Words(words) => out.extend_from_slice(words.as_bytes()),
        Piece::Bytes(bytes) => out.extend_from_slice(bytes),
        Piece::Number(number) => print_number(out, number),
        Piece::Count(count) => print_number(out, count),
        Piece::Right(width, number) => push_right(out, width, number),
        Piece::Round(round) => print_round(out, &round),
        Piece::Square(square) => push_square(out, square),
        Piece::Column(column) => push_spaces(out, column.saturating_sub(width_in_hand(out))),
        Piece::Cut(line, most) => push_cut(out, line.get(..most).unwrap_or(line)),
    }
}

/// Returns how many bytes the last line of a text has, which has not ended yet.
pub fn width_in_hand(text: &[u8]) -> usize {
    for (width, byte) in text.iter().rev().enumerate() {
        if *byte == b'\n' {
            return width;
        }
    }
    text.len()
}

/// Adds the letter of a square's row, and its column.
fn push_square(out: &mut Vec<u8>, square: Square) -> Result<(), AllocError> {
    out.push(b'A'.saturating_add(square.row))?;
    print_number(out, square.column)
}

/// Adds a number at the right of a column of this many bytes. A wider number is printed whole.
fn push_right(out: &mut Vec<u8>, width: usize, number: Money) -> Result<(), AllocError> {
    let mut buffer = itoa::Buffer::new();
    let digits = buffer.format(number).as_bytes();
    push_spaces(out, width.saturating_sub(digits.len()))?;
    out.extend_from_slice(digits)
}

/// Adds this many spaces.
fn push_spaces(out: &mut Vec<u8>, count: usize) -> Result<(), AllocError> {
    for _ in 0..count {
        out.push(b' ')?;
    }
    Ok(())
}

/// Adds the bytes of a line of a file, each as it is printed.
fn push_cut(out: &mut Vec<u8>, line: &[u8]) -> Result<(), AllocError> {
    for byte in line {
        out.push(printed(*byte))?;
    }
    Ok(())
}

/// Returns a byte as it is printed.
fn printed(byte: u8) -> u8 {
    if PRINTABLE.0 <= byte && byte <= PRINTABLE.1 {
        byte
    } else {
        b'?'
    }
}
