//! The texts that name hexes, places, tiles and rotations in order sheets and reports.
ghost use Rattle.std.specs.Char.{to_ascii_uppercase};
ghost use Rattle.std.specs.Prelude.{◌≡◌, ◌<◌, ◌≤◌, ◌+◌, ◌++◌, IfSome, decimal, length, map};
ghost use Rattle.map_tables.specs.Place.{stop_index_of};
ghost use Rattle.map_tables.specs.Text.{
  hex_of_text,
  place_of_text,
  rotation_of_text,
  short_number,
  stop_of_text,
  text_of_hex,
  text_of_place,
  tile_of_text,
};

use crate::hex::Hex;
use crate::place::{Place, StopNumber};
use crate::side::Rotation;
use crate::tiles::TileNo;
use arrayvec::ArrayVec;

/// The most bytes of the text of a place.
pub const PLACE_TEXT_MOST: usize = 5;

/// The text of a place or of a hex.
pub type PlaceText = ArrayVec<u8, PLACE_TEXT_MOST>;

impl Hex {
    /// Returns its text: the letter of its row, and its column, as in `H12`.
    pub fn text(self) -> PlaceText
        ensures text { result.items ≡ text_of_hex self }
        ensures bound { length result.items ≤ 3 }
    {
        let (row, column) = (self.row(), self.column());
        let mut text = ArrayVec::new();
        text.push(row);
        push_number(&mut text, column);
        text
    }

    /// Returns the hex that a text names, in either case; `None` if it names none.
    pub fn from_text(text: &[u8]) -> Option<Hex>
        ensures { result ≡ hex_of_text (map to_ascii_uppercase text.now) }
    {
        let [row, digits @ ..] = text else {
            return None;
        };
        let column = short_number(digits)?;
        Hex::at(row.to_ascii_uppercase(), column)
    }
}

impl Place {
    /// Returns its text: that of the hex, then the number of the stop if it names one, as in
    /// `H12.0`.
    pub fn text(self) -> PlaceText
        ensures { result.items ≡ text_of_place self }
    {
        let mut text = self.hex.text();
        let Some(number) = self.stop else {
            return text;
        };
        text.push(b'.');
        text.push(digit_of(number));
        text
    }

    /// Returns the place that a text names, in either case; `None` if it names none.
    pub fn from_text(text: &[u8]) -> Option<Place>
        ensures { result ≡ place_of_text (map to_ascii_uppercase text.now) }
    {
        if let Some(hex) = Hex::from_text(text) {
            return Some(Place { hex, stop: None });
        }
        let (hex, stop) = text.split_at(text.len().saturating_sub(2));
        Some(Place {
            hex: Hex::from_text(hex)?,
            stop: Some(stop_from_text(stop)?),
        })
    }
}

impl TileNo {
    /// Returns the tile that a text names by its number; `None` if it names none.
    pub fn from_text(text: &[u8]) -> Option<TileNo>
        ensures { result ≡ tile_of_text (map to_ascii_uppercase text.now) }
    {
        let number = short_number(text)?;
        TileNo::from_number(number)
    }
}

impl Rotation {
    /// Returns the rotation that a text names, from `0` to `5`; `None` if it names none.
    pub fn from_text(text: &[u8]) -> Option<Rotation>
        ensures { result ≡ rotation_of_text (map to_ascii_uppercase text.now) }
    {
        let turns = short_number(text)?;
        Rotation::from_turns(usize::from(turns))
    }
}

/// Returns the digit of a stop's number.
fn digit_of(number: StopNumber) -> u8
    ensures { result ≡ 48 + stop_index_of number }
{
    match number {
        StopNumber::First => b'0',
        StopNumber::Second => b'1',
    }
}

/// Returns the stop that a text names after its hex: `.0` or `.1`.
fn stop_from_text(text: &[u8]) -> Option<StopNumber>
    ensures { result ≡ stop_of_text (map to_ascii_uppercase text.now) }
{
    match text {
        [b'.', b'0'] => Some(StopNumber::First),
        [b'.', b'1'] => Some(StopNumber::Second),
        _ => None,
    }
}

/// Returns the number of one or two digits, without leading zeros; `None` for any other text.
fn short_number(text: &[u8]) -> Option<u8>
    ensures number { result ≡ short_number (map to_ascii_uppercase text.now) }
    ensures bound { IfSome result (λ number. number < 100) }
{
    match text {
        [ones] if ones.is_ascii_digit() => Some(*ones - b'0'),
        [tens, ones] if b'0' < *tens && tens.is_ascii_digit() && ones.is_ascii_digit() => {
            Some((*tens - b'0') * 10 + (*ones - b'0'))
        }
        _ => None,
    }
}

/// Adds the digits of a number less than 100.
fn push_number(text: &mut PlaceText, number: u8)
    requires under { number < 100 }
    requires room { length text.old.items ≤ 3 }
    ensures { text.new.items ≡ text.old.items ++ decimal number }
{
    if number < 10 {
        text.push(b'0' + number);
        return;
    }
    text.push(b'0' + number / 10);
    text.push(b'0' + number % 10);
}
