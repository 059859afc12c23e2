//! The tiles that lie on the map, and the tiles that are left.

use crate::layout::{end_open_line, move_on};
use desk_base::Piece::{Bytes, Column, Count, Number, Words};
use desk_base::{Text, tile_on, tiles_left};
use history::History;
use map_tables::{Colour, Hex, TileNo, tile};
use tables::Money;

/// The width of a tile that lies on a hex: `59 E11 2 SWAP`.
const LAID: usize = 16;

/// The width of the number of a tile and how many there are: `23 x3`.
const LEFT: usize = 8;

/// The colours of tiles in the order in which phases bring them, with their names.
const COLOURS: [(Colour, &str); 3] = [
    (Colour::Yellow, "yellow"),
    (Colour::Green, "green"),
    (Colour::Brown, "brown"),
];

/// The width of the name of a colour.
const COLOUR: usize = 8;

/// Adds the tiles that lie on the map, hex by hex, each as the order that lays it.
pub(crate) fn put_laid(out: &mut Text, history: &History) {
    out.push(&[Words("\nTILES LAID\n")]);
    for hex in &Hex::ALL {
        if let Some(lay) = tile_on(history.lays(), *hex) {
            move_on(out, LAID);
            let hex = lay.hex.text();
            out.push(&[
                Number(Money::from(lay.tile.number())),
                Words(" "),
                Bytes(hex.as_slice()),
                Words(" "),
                Count(lay.rot.turns()),
                Words(if lay.swap { " SWAP" } else { "" }),
            ]);
        }
    }
    end_open_line(out);
}

/// Adds how many tiles of each number are left, by colour, after the name of the colour.
pub(crate) fn put_tiles_left(out: &mut Text, history: &History) {
    out.push(&[Words("\nTILES LEFT\n")]);
    for (colour, name) in &COLOURS {
        out.push(&[Words(name)]);
        for number in &TileNo::ALL {
            if tile(*number).colour == *colour {
                move_on(out, LEFT);
                out.push(&[
                    Column(COLOUR),
                    Number(Money::from(number.number())),
                    Words(" x"),
                    Count(tiles_left(history.lays(), *number)),
                ]);
            }
        }
        out.push(&[Words("\n")]);
    }
}
