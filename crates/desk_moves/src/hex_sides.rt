//! What meets at the sides of a hex.
ghost use Rattle.std.specs.Prelude.{◌≡◌};
ghost use Rattle.desk_moves.specs.HexFacts.{other_end};
ghost use Rattle.map_tables.specs.Fit.{has_print_at, is_shut, is_side};

use board::Board;
use board_state::is_open;
use desk_base::Piece::{Bytes, Column, Count, Words};
use desk_base::{Beyond, beyond_side, fill, push};
use map_tables::{Hex, HexKind, Link, Place, Side, TrackEnd, hex_kind, printed_links};
use reach::Network;
use std::alloc::AllocError;

/// The column of the neighbour.
const NEIGHBOUR: usize = 13;

/// The column of the track of the hex.
const HERE: usize = 18;

/// The column of the track of the neighbour.
const THERE: usize = 32;

/// Adds each side of a hex with its neighbour, where the hex's track leads from that side, and
/// where the neighbour's does.
pub(crate) fn push_sides(out: &mut Vec<u8>, board: &Board, hex: Hex) -> Result<(), AllocError> {
    fill(out, "\nSIDE         HEX  TRACK TO      ITS TRACK TO\n", &[])?;
    for side in &Side::ALL {
        push_side(out, board, hex, *side)?;
    }
    Ok(())
}

/// Adds a side.
fn push_side(out: &mut Vec<u8>, board: &Board, hex: Hex, side: Side) -> Result<(), AllocError> {
    let number = Count(side.number());
    fill(
        out,
        "% %%",
        &[number, Words(name_of(side)), Column(NEIGHBOUR)],
    )?;
    match beyond_side(hex, side) {
        Beyond::OpenBorder(other) => {
            push(out, &[Bytes(other.text().as_slice()), Column(HERE)])?;
            push_track(out, board, hex, side)?;
            push(out, &[Column(THERE)])?;
            push_track(out, board, other, side.facing())?;
            fill(out, "%\n", &[Words(closed_by(other, side.facing()))])
        }
        Beyond::ClosedBorder(other) => fill(
            out,
            "%%the border is closed\n",
            &[Bytes(other.text().as_slice()), Column(HERE)],
        ),
        Beyond::MapEnd => fill(out, "-%the map ends\n", &[Column(HERE)]),
    }
}

/// Returns the name of a side.
fn name_of(side: Side) -> &'static str {
    match side {
        Side::SouthWest => "south-west",
        Side::West => "west",
        Side::NorthWest => "north-west",
        Side::NorthEast => "north-east",
        Side::East => "east",
        Side::SouthEast => "south-east",
    }
}

/// Adds to which stops and sides the track of a hex leads from a side; `-` where none lies.
fn push_track(out: &mut Vec<u8>, board: &Board, hex: Hex, side: Side) -> Result<(), AllocError> {
    let mut before = "";
    for link in board.links(hex).as_slice() {
        if let Some(end) = other_end(link, side) {
            fill(out, before, &[])?;
            push_end(out, hex, end)?;
            before = " ";
        }
    }
    let none = if before.is_empty() { "-" } else { "" };
    push(out, &[Words(none)])
}

/// Returns the end of a link that is not this side; `None` if the link has no end at this side.
fn other_end(link: &Link, side: Side) -> Option<TrackEnd>
    ensures { result ≡ other_end link.now side }
{
    if is_side(side, link.a) {
        Some(link.b)
    } else if is_side(side, link.b) {
        Some(link.a)
    } else {
        None
    }
}

/// Adds an end of track in a hex: a stop as a run names it, or the number of a side.
fn push_end(out: &mut Vec<u8>, hex: Hex, end: TrackEnd) -> Result<(), AllocError> {
    match end {
        TrackEnd::Side(side) => push(out, &[Count(side.number())]),
        TrackEnd::Stop(number) => {
            let place = Place {
                hex,
                stop: Some(number),
            };
            push(out, &[Bytes(place.text().as_slice())])
        }
    }
}

/// Returns what is said of a neighbour to which no track may lead: one that is grey or red and has
/// no track at that side.
fn closed_by(hex: Hex, side: Side) -> &'static str {
    match hex_kind(hex) {
        HexKind::Grey if is_shut(hex, side) => ", closed: it is grey",
        HexKind::Red if is_shut(hex, side) => ", closed: it is red",
        _ => "",
    }
}

/// Returns whether no track may reach a hex over this side of it: it is grey or red, and its print
/// has none there.
fn is_shut(hex: Hex, side: Side) -> bool
    ensures { result ≡ is_shut hex side }
{
    !is_open(hex_kind(hex)) && !has_print_at(hex, side)
}

/// Returns whether the print of a hex has track at a side.
fn has_print_at(hex: Hex, side: Side) -> bool
    ensures { result ≡ has_print_at hex side }
{
    printed_links(hex)
        .as_slice()
        .iter()
        .any(|link| is_side(side, link.a) || is_side(side, link.b))
}

/// Returns whether an end of track is this side.
fn is_side(side: Side, end: TrackEnd) -> bool
    ensures { result ≡ is_side side end }
{
    match end {
        TrackEnd::Side(other) => other.number() == side.number(),
        TrackEnd::Stop(_) => false,
    }
}
