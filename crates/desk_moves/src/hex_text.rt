//! A hex as it is now: its colour and tile, its terrain, its stops, and what meets at its sides.
ghost use Rattle.std.specs.Prelude.{◌≡◌, length};
ghost use Rattle.desk_moves.specs.HexFacts.{closed_by, colour_of, ground_of, is_of_private};
ghost use Rattle.history.specs.Sound.{IsSound};
ghost use Rattle.sheets.specs.File.{players_of};

use crate::hex_sides::push_sides;
use board::Board;
use board_state::{OnMap, same_hex, slots};
use desk_base::Piece::{Bytes, Column, Count, Number, Right, Words};
use desk_base::{Position, fill, push};
use desk_may::board_now;
use forced_purchase::Operator;
use foresight::{Draft, RoundAhead};
use history::{History, Holder};
use map_tables::{
    Colour, Hex, HexKind, Lay, Stop, StopNumber, TileKind, hex_kind, joined_stop, printed_colour,
    printed_stops, private_hexes, terrain_cost, tile,
};
use reach::Network;
use report::name;
use rounds::End;
use sheets::Sheets;
use std::alloc::{AllocError, Global};
use tables::{Company, Money, Private, Round, Seat};

/// What a hex is to tiles.
#[derive(Clone, Copy)]
enum Ground {
    /// It is grey: no tile is laid there.
    Grey,
    /// It is a red area.
    Red,
    /// It takes tiles, and has this colour now.
    Tiles(Colour),
}

/// The column in front of the tokens of a stop.
const TOKENS: usize = 21;

/// Returns a hex as text, at the start of the first turn of the coming round, or at the end of the
/// game. Fails only if allocation fails.
pub(crate) fn hex_text(alloc: Global, coming: Position, hex: Hex) -> Result<Vec<u8>, AllocError>
    requires sound { IsSound coming.history }
    requires seats { coming.history.seats ≡ length (players_of coming.sheets.now) }
{
    let Position {
        sheets,
        history,
        end,
        ..
    } = coming;
    let End::Awaiting(round @ Round::Operating { .. }) = end else {
        return text_of(alloc, sheets, &history, hex);
    };
    let draft = Draft {
        sheets,
        drafter: None,
    };
    let ahead = RoundAhead::open(alloc, history, draft, round)?;
    let Some(company) = ahead.next_company() else {
        return text_of(alloc, sheets, ahead.history(), hex);
    };
    match ahead.history().now().president(company) {
        Some(president) if ahead.is_led_by(company, president) => {
            let orders = ahead.turn_of(Operator { company, president })?;
            text_of(alloc, sheets, orders.history(), hex)
        }
        _ => text_of(alloc, sheets, ahead.history(), hex),
    }
}

/// Returns a hex of a game as text.
fn text_of(
    alloc: Global,
    sheets: &Sheets,
    history: &History,
    hex: Hex,
) -> Result<Vec<u8>, AllocError> {
    let board = board_now(alloc, history)?;
    let mut text = Vec::new(alloc);
    push_ground(&mut text, &board, hex)?;
    push_blocked(&mut text, sheets, history, hex)?;
    push_stops(&mut text, &board, hex)?;
    push_sides(&mut text, &board, hex)?;
    Ok(text)
}

/// Adds the hex, its colour, the tile that lies there, what tiles it takes, and the cost of its
/// terrain.
fn push_ground(out: &mut Vec<u8>, board: &Board, hex: Hex) -> Result<(), AllocError> {
    let text = hex.text();
    let name = Bytes(text.as_slice());
    let takes = Words(takes_of(hex));
    let colour = match ground_of(hex, board.tile_on(hex)) {
        Ground::Grey => "grey",
        Ground::Red => "red",
        Ground::Tiles(colour) => name_of(colour),
    };
    fill(
        out,
        "HEX               %\nTAKES             %\nCOLOUR            %\nTILE",
        &[name, takes, Words(colour)],
    )?;
    match board.tile_on(hex) {
        Some(lay) => {
            let number = Number(Money::from(lay.tile.number()));
            let turns = Count(lay.rot.turns());
            let swap = Words(if lay.swap { " SWAP" } else { "" });
            fill(out, "%%, rotation %%\n", &[Column(18), number, turns, swap])?;
        }
        None => fill(out, "%none\n", &[Column(18)])?,
    }
    let cost = Number(Money::from(terrain_cost(hex)));
    let paid = if board.tile_on(hex).is_some() {
        ", paid"
    } else {
        ""
    };
    match terrain_cost(hex) {
        0 => Ok(()),
        _ => fill(out, "TERRAIN           %%\n", &[cost, Words(paid)]),
    }
}

/// Returns what a hex is to tiles, given the tile that lies there, if any.
fn ground_of(hex: Hex, lay: Option<Lay>) -> Ground
    ensures { result ≡ ground_of hex lay }
{
    match hex_kind(hex) {
        HexKind::Open(_) => Ground::Tiles(colour_of(hex, lay)),
        HexKind::Grey => Ground::Grey,
        HexKind::Red => Ground::Red,
    }
}

/// Returns the colour of the tile that lies on a hex, or of its print.
fn colour_of(hex: Hex, lay: Option<Lay>) -> Colour
    ensures { result ≡ colour_of hex lay }
{
    match lay {
        Some(lay) => tile(lay.tile).colour,
        None => printed_colour(hex),
    }
}

/// Returns what tiles a hex takes, in words.
fn takes_of(hex: Hex) -> &'static str {
    match hex_kind(hex) {
        HexKind::Grey | HexKind::Red => "no tile",
        HexKind::Open(kind) => match kind {
            TileKind::Plain => "tiles with track alone",
            TileKind::Town => "tiles with a town",
            TileKind::TwoTowns => "tiles with two towns",
            TileKind::City => "tiles with a city",
            TileKind::CityB => "tiles with a city B",
            TileKind::CitiesNY => "tiles with the cities NY",
            TileKind::CitiesOO => "tiles with two cities OO",
        },
    }
}

/// Returns the name of a colour.
fn name_of(colour: Colour) -> &'static str {
    match colour {
        Colour::White => "white",
        Colour::Yellow => "yellow",
        Colour::Green => "green",
        Colour::Brown => "brown",
    }
}

/// Adds that no tile may be laid if a player owns the private of the hex.
fn push_blocked(
    out: &mut Vec<u8>,
    sheets: &Sheets,
    history: &History,
    hex: Hex,
) -> Result<(), AllocError> {
    for private in &Private::ALL {
        if let Some(seat) = closed_by(history, hex, *private) {
            let code = Words(private.code());
            let owner = Bytes(name(sheets, seat));
            fill(out, "CLOSED            while % owns %\n", &[owner, code])?;
        }
    }
    Ok(())
}

/// Returns the player who blocks a hex because they own its private, if any.
fn closed_by(history: &History, hex: Hex, private: Private) -> Option<Seat>
    ensures { result ≡ closed_by history.now.events hex private }
{
    if !is_of_private(hex, private) {
        return None;
    }
    match history.owner(private) {
        Some(Holder::Seat(seat)) => Some(seat),
        _ => None,
    }
}

/// Returns whether a hex belongs to a private.
fn is_of_private(hex: Hex, private: Private) -> bool
    ensures { result ≡ is_of_private hex private }
{
    private_hexes(private).iter().any(|one| same_hex(*one, hex))
}

/// Adds the stops of a hex: what each is worth now, and its slots with their tokens.
fn push_stops(out: &mut Vec<u8>, board: &Board, hex: Hex) -> Result<(), AllocError> {
    if printed_stops(hex) == 0 {
        return Ok(());
    }
    fill(out, "\nSTOP    VALUE  SLOTS  TOKENS\n", &[])?;
    for number in &[StopNumber::First, StopNumber::Second] {
        let stop = Stop {
            hex,
            number: *number,
        };
        if number.index() < printed_stops(hex) {
            push_stop(out, board, stop)?;
        }
    }
    Ok(())
}

/// Adds a stop: its name, its value, how many slots it has, and the companies whose tokens are
/// there.
fn push_stop(out: &mut Vec<u8>, board: &Board, stop: Stop) -> Result<(), AllocError> {
    let place = stop.place().text();
    let value = Money::from(board.value(stop));
    push(
        out,
        &[
            Bytes(place.as_slice()),
            Column(8),
            Right(5, value),
            Right(7, slots(board, stop) as Money),
        ],
    )?;
    for company in &Company::ALL {
        if board.token(joined_stop(stop), *company) {
            fill(out, "% %", &[Column(TOKENS), Words(company.code())])?;
        }
    }
    fill(out, "\n", &[])
}
