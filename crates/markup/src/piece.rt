//! What a writer puts into a page besides tags.
ghost use Rattle.std.specs.Prelude.{◌≡◌, ◌++◌, filter, true};
ghost use Rattle.std.specs.List.{flat_map};
ghost use Rattle.std.specs.Char.{is_ascii_alphanumeric};
ghost use Rattle.markup.specs.Escaped.{escape_of, escaped};
ghost use Rattle.markup.specs.Written.{is_apart, plain_of};

use crate::point::Point;
use crate::writer::Writer;
use map_tables::{Hex, Place};
use tables::{Money, Round};

/// A piece of a text or of a value.
#[derive(Clone, Copy)]
pub enum PagePiece<'a> {
    /// Constant words.
    Words(&'static str),
    /// The name of a player. Only its letters and digits are written.
    Name(&'a [u8]),
    /// A letter, such as that of a row.
    Letter(u8),
    /// A number in digits.
    Number(Money),
    /// A count, or the number of a line, a side or a rotation, in digits.
    Count(usize),
    /// A small number in digits, such as a coordinate.
    At(i32),
    /// A point as the data of a path have it: its coordinates, separated by a space or by the minus
    /// of the second.
    Point(Point),
    /// A round: `OR2.1`.
    Round(Round),
    /// A hex: `H12`.
    Hex(Hex),
    /// A place: `H12.0`.
    Place(Place),
    /// A number in eight hexadecimal digits.
    Checksum(u32),
}

/// Adds a piece where a writer is.
pub(crate) fn put_piece(out: &mut Writer, piece: PagePiece) {
    out.settle();
    match piece {
        PagePiece::Words(words) => put_bytes(out, words.as_bytes()),
        PagePiece::Name(name) => put_name(out, name),
        PagePiece::Letter(letter) => put_name(out, &[letter]),
        PagePiece::Number(number) => put_number(out, number),
        PagePiece::Count(count) => put_number(out, count as Money),
        PagePiece::At(number) => put_small(out, number),
        PagePiece::Point(point) => put_point(out, point),
        PagePiece::Round(round) => put_round(out, round),
        PagePiece::Hex(hex) => put_bytes(out, hex.text().as_slice()),
        PagePiece::Place(place) => put_bytes(out, place.text().as_slice()),
        PagePiece::Checksum(number) => put_checksum(out, number),
    }
}

/// Adds bytes of constant words or of digits, except those that have a meaning in tags.
#[tactic(auto, using(tables::proofs::OneMore::elements_step))]
pub(crate) fn put_bytes(out: &mut Writer, bytes: &[u8])
    ensures spot { is_apart out.old.spot ≡ true → out.new.spot ≡ out.old.spot }
    ensures before { out.new.fault ≡ None → out.old.fault ≡ None }
    ensures added { is_apart out.old.spot ≡ true → out.new.fault ≡ None →
        out.new.text.items ≡ out.old.text.items ++ flat_map plain_of bytes.now }
{
    for byte in bytes {
        out.put_byte(*byte);
    }
}

/// Adds a text of any bytes where a writer is outside tags.
#[tactic(auto, using(tables::proofs::OneMore::elements_step))]
pub(crate) fn put_text(out: &mut Writer, text: &[u8])
    requires { is_apart out.old.spot ≡ true }
    ensures spot { out.new.spot ≡ out.old.spot }
    ensures before { out.new.fault ≡ None → out.old.fault ≡ None }
    ensures added { out.new.fault ≡ None →
        out.new.text.items ≡ out.old.text.items ++ escaped text.now }
{
    for byte in text {
        put_escaped(out, *byte);
    }
}

/// Adds a byte of a text, as a reference if it has a meaning in a page.
fn put_escaped(out: &mut Writer, byte: u8)
    requires { is_apart out.old.spot ≡ true }
    ensures spot { out.new.spot ≡ out.old.spot }
    ensures before { out.new.fault ≡ None → out.old.fault ≡ None }
    ensures added { out.new.fault ≡ None →
        out.new.text.items ≡ out.old.text.items ++ escape_of byte }
{
    match byte {
        b'&' => put_bytes(out, b"&amp;"),
        b'<' => put_bytes(out, b"&lt;"),
        b'>' => put_bytes(out, b"&gt;"),
        b'"' => put_bytes(out, b"&quot;"),
        _ => out.put_byte(byte),
    }
}

/// Adds a number in eight hexadecimal digits.
fn put_checksum(out: &mut Writer, number: u32) {
    for byte in number.to_be_bytes() {
        put_digit(out, byte / 16);
        put_digit(out, byte % 16);
    }
}

/// Adds a hexadecimal digit.
fn put_digit(out: &mut Writer, digit: u8) {
    let digits = b"0123456789abcdef";
    if let Some(digit) = digits.get(usize::from(digit)) {
        out.put_byte(*digit);
    }
}

/// Adds the letters and digits of a name, and nothing else.
fn put_name(out: &mut Writer, name: &[u8])
    requires { is_apart out.old.spot ≡ true }
    ensures { out.new.fault ≡ None →
        out.new.text.items ≡ out.old.text.items ++ filter is_ascii_alphanumeric name.now }
{
    for byte in name {
        if byte.is_ascii_alphanumeric() {
            out.put_byte(*byte);
        }
    }
}

/// Adds a number in digits.
fn put_number(out: &mut Writer, number: Money) {
    let mut buffer = itoa::Buffer::new();
    put_bytes(out, buffer.format(number).as_bytes());
}

/// Adds a small number in digits.
fn put_small(out: &mut Writer, number: i32) {
    let mut buffer = itoa::Buffer::new();
    put_bytes(out, buffer.format(number).as_bytes());
}

/// Adds the coordinates of a point.
fn put_point(out: &mut Writer, point: Point) {
    put_small(out, point.x);
    if point.y >= 0 {
        out.put_byte(b' ');
    }
    put_small(out, point.y);
}

/// Adds a round.
fn put_round(out: &mut Writer, round: Round) {
    let (word, number) = match round {
        Round::Opening(number) => ("PR", number),
        Round::Stock(number) => ("SR", number),
        Round::Operating { set, .. } => ("OR", set),
    };
    put_bytes(out, word.as_bytes());
    put_number(out, Money::from(number));
    if let Round::Operating { number, .. } = round {
        out.put_byte(b'.');
        put_number(out, Money::from(number));
    }
}
