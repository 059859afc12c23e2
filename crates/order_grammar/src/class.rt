//! The classes of words, and how a word reads as a text of each.
ghost use Rattle.std.specs.Prelude.{◌≡◌};
ghost use Rattle.std.specs.List.{list_all};
ghost use Rattle.order_grammar.specs.Class.{
  capped_value,
  class_reading,
  is_hex_digit,
  number_in_set,
  operating_reading,
  round_number_reading,
  round_of_series,
  round_reading,
};
ghost use Rattle.order_grammar.specs.Words.{raised};
ghost use Rattle.order_grammar.specs.declared.class.Class.TheVariants as class;

use crate::keyword::Keyword;
use crate::name::Name;
use crate::order::Value;
use crate::words::is_word;
use map_tables::{Hex, Place, Rotation, TileNo};
use tables::{Company, Kind, NUMBER_MOST, OPERATING_MOST, Private, Round};

/// The most hexadecimal digits of a MARKS line.
pub const MARKS_DIGITS_MOST: usize = 1000;

/// A class of words: the texts that may be at one place of a form.
#[derive(Clone, Copy)]
pub(crate) enum Class {
    /// Digits, with leading zeros allowed; the value is at most 99,999.
    Number,
    /// A letter, then up to seven letters or digits.
    Name,
    /// `PR` or `SR` and a number from 1 without leading zeros; or `OR` and such a number, and then
    /// a point and a number from 1 to 3.
    Round,
    /// The code of a private: SV, CS, DH, MH, CA or BOP.
    Private,
    /// The code of a company: PRR, NYC, CPR, BO, CO, ERIE, NYNH or BM.
    Company,
    /// A kind of train: 2, 3, 4, 5, 6 or D.
    Kind,
    /// The number of a tile of the manifest, without leading zeros.
    Tile,
    /// A hex of the map, such as `H12`.
    Hex,
    /// 0 to 5.
    Rotation,
    /// A hex of the map, such as `H12`, or one with the number of a stop, `H12.0` or `H12.1`.
    Place,
    /// 1 to 1,000 hexadecimal digits, in either case.
    HexDigits,
    /// This exact word.
    Word(Keyword),
}

/// The rounds that are numbered one after another.
#[derive(Clone, Copy)]
pub(crate) enum Series {
    Opening,
    Stock,
    /// The operating rounds with this number in their sets, by the numbers of the sets.
    Operating(u8),
}

impl Series {
    fn round(self, number: u32) -> Round
        ensures { result ≡ round_of_series self number }
    {
        match self {
            Series::Opening => Round::Opening(number),
            Series::Stock => Round::Stock(number),
            Series::Operating(in_set) => Round::Operating {
                set: number,
                number: in_set,
            },
        }
    }
}

/// How a word reads as a text of a class.
#[derive(Clone, Copy)]
pub(crate) enum Reading {
    /// It is a text of the class.
    Value(Value),
    /// It would be a text of the class if its number were not too large.
    TooLarge,
    /// It is not a text of the class.
    Wrong,
}

impl Class {
    /// Reads a word as a text of this class.
    pub(crate) fn read(self, word: &[u8]) -> Reading
        ensures { result ≡ class_reading self (raised word.now) }
    {
        match self {
            Class::Number => read_number(word),
            Class::Name => match Name::from_word(word) {
                Some(name) => Reading::Value(Value::Name(name)),
                None => Reading::Wrong,
            },
            Class::Round => read_round(word),
            Class::Private => read_private(word),
            Class::Company => read_company(word),
            Class::Kind => read_kind(word),
            Class::Tile => match TileNo::from_text(word) {
                Some(tile) => Reading::Value(Value::Tile(tile)),
                None => Reading::Wrong,
            },
            Class::Hex => match Hex::from_text(word) {
                Some(hex) => Reading::Value(Value::Hex(hex)),
                None => Reading::Wrong,
            },
            Class::Rotation => match Rotation::from_text(word) {
                Some(rotation) => Reading::Value(Value::Rotation(rotation)),
                None => Reading::Wrong,
            },
            Class::Place => match Place::from_text(word) {
                Some(place) => Reading::Value(Value::Place(place)),
                None => Reading::Wrong,
            },
            Class::HexDigits => read_hex_digits(word),
            Class::Word(keyword) if is_word(word, keyword.text()) => {
                Reading::Value(Value::Word(keyword))
            }
            Class::Word(_) => Reading::Wrong,
        }
    }
}

/// Returns the value of a word of digits, or `NUMBER_MOST + 1` if it is over that; `None` for other
/// words.
fn digits_value(word: &[u8]) -> Option<u32>
    ensures { result ≡ capped_value word.now }
{
    if word.is_empty() {
        return None;
    }
    let mut value = 0;
    for byte in word {
        if !byte.is_ascii_digit() {
            return None;
        }
        value = (value * 10 + u32::from(*byte - b'0')).min(NUMBER_MOST + 1);
    }
    Some(value)
}

fn read_number(word: &[u8]) -> Reading
    ensures { result ≡ class_reading class.Number (raised word.now) }
{
    match digits_value(word) {
        None => Reading::Wrong,
        Some(value) if value > NUMBER_MOST => Reading::TooLarge,
        Some(value) => Reading::Value(Value::Number(value)),
    }
}

fn read_round(word: &[u8]) -> Reading
    ensures { result ≡ round_reading (raised word.now) }
{
    if word.len() < 2 {
        return Reading::Wrong;
    }
    let (letters, digits) = word.split_at(2);
    if is_word(letters, b"PR") {
        return read_round_number(Series::Opening, digits);
    }
    if is_word(letters, b"SR") {
        return read_round_number(Series::Stock, digits);
    }
    if is_word(letters, b"OR") {
        return read_operating(digits);
    }
    Reading::Wrong
}

/// Reads the numbers of an operating round: that of its set, and that in its set.
fn read_operating(word: &[u8]) -> Reading
    ensures { result ≡ operating_reading (raised word.now) }
{
    let (set, number) = word.split_at(word.len().saturating_sub(2));
    match number_in_set(number) {
        Some(number) => read_round_number(Series::Operating(number), set),
        None => Reading::Wrong,
    }
}

/// Reads the number of an operating round in its set, after a point; `None` for other texts.
fn number_in_set(text: &[u8]) -> Option<u8>
    ensures { result ≡ number_in_set (raised text.now) }
{
    match text {
        [b'.', digit] if b'1' <= *digit && *digit <= b'0' + OPERATING_MOST => Some(*digit - b'0'),
        _ => None,
    }
}

fn read_round_number(series: Series, digits: &[u8]) -> Reading
    ensures { result ≡ round_number_reading series (raised digits.now) }
{
    let [first, ..] = digits else {
        return Reading::Wrong;
    };
    if *first == b'0' {
        return Reading::Wrong;
    }
    match digits_value(digits) {
        None => Reading::Wrong,
        Some(number) if number > NUMBER_MOST => Reading::TooLarge,
        Some(number) => Reading::Value(Value::Round(series.round(number))),
    }
}

fn read_private(word: &[u8]) -> Reading
    ensures { result ≡ class_reading class.Private (raised word.now) }
{
    for &private in &Private::ALL {
        if is_word(word, private.code().as_bytes()) {
            return Reading::Value(Value::Private(private));
        }
    }
    Reading::Wrong
}

fn read_company(word: &[u8]) -> Reading
    ensures { result ≡ class_reading class.Company (raised word.now) }
{
    for &company in &Company::ALL {
        if is_word(word, company.code().as_bytes()) {
            return Reading::Value(Value::Company(company));
        }
    }
    Reading::Wrong
}

fn read_kind(word: &[u8]) -> Reading
    ensures { result ≡ class_reading class.Kind (raised word.now) }
{
    for &kind in &Kind::ALL {
        if is_word(word, kind.code().as_bytes()) {
            return Reading::Value(Value::Kind(kind));
        }
    }
    Reading::Wrong
}

fn read_hex_digits(word: &[u8]) -> Reading
    ensures { result ≡ class_reading class.HexDigits (raised word.now) }
{
    if word.is_empty() || word.len() > MARKS_DIGITS_MOST || !are_hex_digits(word) {
        return Reading::Wrong;
    }
    Reading::Value(Value::HexDigits)
}

/// Returns whether each byte is a hexadecimal digit, in either case.
fn are_hex_digits(word: &[u8]) -> bool
    ensures { result ≡ list_all is_hex_digit (raised word.now) }
{
    word.iter().all(|byte| byte.is_ascii_hexdigit())
}
