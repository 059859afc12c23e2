//! The map as text, with the tiles and the tokens that lie on it.

use crate::layout::end_open_line;
use desk_base::Piece::{Bytes, Column, Count, Number, Words};
use desk_base::{Text, has_token, slots_on, tile_on};
use history::History;
use map_tables::{Hex, HexKind, Lay, Stop, StopNumber, TileKind, hex_kind, printed_stops, tile};
use tables::{Company, Money};

/// The letter after that of the map's last row.
const ROWS_END: u8 = b'L';

/// The width of a column; a hex takes two.
const COLUMN: usize = 3;

/// Adds the map: a row of hexes with what is on each, and below it the tokens of its cities.
pub(crate) fn put_map(out: &mut Text, history: &History) {
    out.push(&[
        Words(
            "\nMAP\n\
            57/2 is a tile and its rotation, 59/2s one with its stops swapped. Without a\n\
            tile: .. plain; town, towns, city, B, NY, OO as printed; grey and red take none.\n\
            Below are the tokens of a city, - a free slot, / between two cities.\n",
        ),
        Column(2),
        Words("1  2  3  4  5  6  7  8  9  10 11 12 13 14 15 16 17 18 19 20 21 22 23 24\n"),
    ]);
    for row in b'A'..ROWS_END {
        out.push(&[Bytes(&[row])]);
        for hex in &Hex::ALL {
            if hex.row() == row {
                put_tile(out, history.lays(), *hex);
            }
        }
        out.push(&[Words("\n")]);
        for hex in &Hex::ALL {
            if hex.row() == row {
                put_cities(out, history, *hex);
            }
        }
        end_open_line(out);
    }
}

/// Returns the column at which a hex begins.
fn column_of(hex: Hex) -> usize {
    COLUMN * usize::from(hex.column()) - 1
}

/// Adds what is on a hex: the number and the rotation of the tile that lies there, or what is
/// printed on it.
fn put_tile(out: &mut Text, lays: &[Lay], hex: Hex) {
    let column = Column(column_of(hex));
    match tile_on(lays, hex) {
        Some(lay) => out.push(&[
            column,
            Number(Money::from(lay.tile.number())),
            Words("/"),
            Count(lay.rot.turns()),
            Words(if lay.swap { "s" } else { "" }),
        ]),
        None => out.push(&[column, Words(print_of(hex))]),
    }
}

/// Returns the words for what is printed on a hex.
fn print_of(hex: Hex) -> &'static str {
    match hex_kind(hex) {
        HexKind::Grey => "grey",
        HexKind::Red => "red",
        HexKind::Open(kind) => match kind {
            TileKind::Plain => "..",
            TileKind::Town => "town",
            TileKind::TwoTowns => "towns",
            TileKind::City => "city",
            TileKind::CityB => "B",
            TileKind::CitiesNY => "NY",
            TileKind::CitiesOO => "OO",
        },
    }
}

/// Adds the tokens in the cities of a hex, if it has any, and a mark for each slot that is free.
fn put_cities(out: &mut Text, history: &History, hex: Hex) {
    let slots = slots_on(history.lays(), hex);
    if slots == 0 {
        return;
    }
    for number in &[StopNumber::First, StopNumber::Second] {
        if number.index() < printed_stops(hex) {
            let before = match number {
                StopNumber::First => Column(column_of(hex)),
                StopNumber::Second => Words("/"),
            };
            out.push(&[before]);
            let city = Stop {
                hex,
                number: *number,
            };
            put_slots(out, history, city, slots);
        }
    }
}

/// Adds the tokens in a city with this many slots, and a mark for each slot that is free.
fn put_slots(out: &mut Text, history: &History, city: Stop, slots: u8) {
    let mut free = slots;
    for company in &Company::ALL {
        if has_token(history, city, *company) {
            out.push(&[Words(company.letter())]);
            free = free.saturating_sub(1);
        }
    }
    for _ in 0..free {
        out.push(&[Words("-")]);
    }
}
