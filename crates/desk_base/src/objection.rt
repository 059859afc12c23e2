//! Why an order breaks a rule: which of the rule's causes it is, and what would be right if that is
//! known.

use crate::beyond::{Beyond, push_beyond};
use crate::text::Piece::{Bytes, Count, Number, Words};
use crate::text::{Piece, fill};
use history::Holder;
use map_tables::{Hex, HexKind, Lay, Side, TileKind, hex_kind, printed_stops, tile};
use sheets::Sheets;
use std::alloc::AllocError;
use tables::{Company, Kind, Money, Private, Seat};

/// Why an order breaks a rule.
#[derive(Clone, Copy)]
pub enum Objection {
    /// What the rule says, and no more.
    Nothing,
    /// The orders above it have passed its step.
    Passed,
    /// There is no RUN above it.
    NoRun,
    /// There is a RUN BEST above it.
    Best,
    /// It names no stop of this hex where it has to.
    Stops(Hex),
    /// This hex has no city.
    NoCity(Hex),
    /// No track can lead from this hex to that one.
    Apart(Hex, Hex),
    /// The hex does not take this kind of tile, or the tile's stops are swapped though it does not
    /// have two.
    Kind(Lay),
    /// Its track leads over this side, beyond which this lies.
    Side(Side, Beyond),
    /// It is not BO's par value.
    NotBaltimore,
    /// It is not a par value.
    NoPar,
    /// The private is not the player's. It belongs to this holder, if it belongs to anybody.
    Owner(Private, Option<Holder>),
    /// Another player presides over the company, this one, or nobody does.
    President(Company, Option<Seat>),
    /// The company has no such train.
    NoTrain(Company, Kind),
}

/// Returns the name of a player, if there is one.
pub fn who<'a>(sheets: &'a Sheets, seat: Option<Seat>) -> Piece<'a> {
    match seat {
        Some(seat) => Bytes(sheets.name(seat).unwrap_or(&[])),
        None => Words("nobody"),
    }
}

/// Adds why an order is wrong, and what would be right if that is known.
pub fn push_objection(
    out: &mut Vec<u8>,
    sheets: &Sheets,
    reason: Objection,
) -> Result<(), AllocError> {
    match reason {
        Objection::Nothing => Ok(()),
        Objection::Passed => fill(out, "; the orders above it have passed its step", &[]),
        Objection::NoRun => fill(out, "; there is no valid RUN above it", &[]),
        Objection::Best => fill(out, "; there is a RUN BEST above it", &[]),
        Objection::Stops(hex) => push_stops(out, hex),
        Objection::NoCity(hex) => fill(out, "; % has no city", &[Bytes(hex.text().as_slice())]),
        Objection::Apart(hex, other) => push_apart(out, hex, other),
        Objection::Kind(lay) => push_kinds(out, lay),
        Objection::Side(side, beyond) => push_side(out, side, beyond),
        Objection::NotBaltimore => fill(out, "; write it in a stock round, or write BO", &[]),
        Objection::NoPar => fill(out, "; write 100, 90, 82, 76, 71 or 67", &[]),
        Objection::Owner(private, owner) => {
            push_two(out, "; % owns %", owned_by(sheets, owner), private.code())
        }
        Objection::President(company, president) => {
            push_two(
                out,
                "; % presides over %",
                who(sheets, president),
                company.code(),
            )
        }
        Objection::NoTrain(company, kind) => {
            push_two(out, "; % has no %", Words(company.code()), kind.code())
        }
    }
}

/// Adds words with two pieces filled in.
fn push_two(
    out: &mut Vec<u8>,
    words: &str,
    first: Piece,
    second: &'static str,
) -> Result<(), AllocError> {
    fill(out, words, &[first, Words(second)])
}

/// Returns the name of a private's owner.
fn owned_by<'a>(sheets: &'a Sheets, owner: Option<Holder>) -> Piece<'a> {
    match owner {
        Some(Holder::Seat(seat)) => who(sheets, Some(seat)),
        Some(Holder::Company(company)) => Words(company.code()),
        None => Words("nobody"),
    }
}

/// Adds that no track joins two hexes.
fn push_apart(out: &mut Vec<u8>, hex: Hex, other: Hex) -> Result<(), AllocError> {
    let (hex, other) = (hex.text(), other.text());
    let pieces = [Bytes(hex.as_slice()), Bytes(other.as_slice())];
    fill(out, "; no track leads from % to %", &pieces)
}

/// Adds how the stops of a hex are named.
fn push_stops(out: &mut Vec<u8>, hex: Hex) -> Result<(), AllocError> {
    let text = hex.text();
    let hex_name = Bytes(text.as_slice());
    match printed_stops(hex) {
        0 => fill(out, "; % has no stop", &[hex_name]),
        1 => fill(out, "; write %.0", &[hex_name]),
        _ => fill(out, "; write %.0 or %.1", &[hex_name, hex_name]),
    }
}

/// Adds the kinds of a tile and its hex.
fn push_kinds(out: &mut Vec<u8>, lay: Lay) -> Result<(), AllocError> {
    let HexKind::Open(kind) = hex_kind(lay.hex) else {
        return Ok(());
    };
    let (text, number) = (lay.hex.text(), Number(Money::from(lay.tile.number())));
    let hex_name = Bytes(text.as_slice());
    let its = tile(lay.tile).kind;
    if its == kind {
        return fill(out, "; % has not two stops", &[hex_name]);
    }
    let pieces = [hex_name, Words(word_of(kind)), number, Words(word_of(its))];
    fill(out, "; % is a hex for %, and % a tile for %", &pieces)
}

/// Returns what hexes and tiles of a kind have.
fn word_of(kind: TileKind) -> &'static str {
    match kind {
        TileKind::Plain => "track alone",
        TileKind::Town => "a town",
        TileKind::TwoTowns => "two towns",
        TileKind::City => "a city",
        TileKind::CityB => "a city B",
        TileKind::CitiesNY => "the cities NY",
        TileKind::CitiesOO => "two cities OO",
    }
}

/// Adds which side is bad, and where it leads.
fn push_side(out: &mut Vec<u8>, side: Side, beyond: Beyond) -> Result<(), AllocError> {
    fill(out, "; at side % ", &[Count(side.number())])?;
    push_beyond(out, beyond)
}
