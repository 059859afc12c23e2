//! From where a tile or a stop can be reached, as text.

use crate::track::{hexes_behind, touches};
use board::Board;
use desk_base::Piece::{Bytes, Words};
use desk_base::{fill, push};
use map_tables::{Hex, Lay, Place, laid_links};
use reach::Network;
use std::alloc::AllocError;

/// Adds the hexes from which the track of a tile can be reached.
pub(crate) fn push_ways_to_tile(out: &mut Vec<u8>, lay: Lay) -> Result<(), AllocError> {
    let mut before = BEFORE_FIRST;
    for link in laid_links(lay).as_slice() {
        for hex in &hexes_behind(lay.hex, link) {
            before = push_way(out, before, *hex)?;
        }
    }
    end_ways(out, before)
}

/// Adds the hexes from which a stop can be reached by the track there.
pub(crate) fn push_ways_to_stop(
    out: &mut Vec<u8>,
    board: &Board,
    place: Place,
) -> Result<(), AllocError> {
    let Some(stop) = place.stop() else {
        return Ok(());
    };
    let mut before = BEFORE_FIRST;
    for link in board.links(place.hex).as_slice() {
        if touches(link, stop) {
            for hex in &hexes_behind(place.hex, link) {
                before = push_way(out, before, *hex)?;
            }
        }
    }
    end_ways(out, before)
}

/// The words before the first hex, and before each later one.
const BEFORE_FIRST: &str = " (its track comes from %";

const BEFORE_NEXT: &str = ", %";

/// Adds a hex, if there is one, after some words. Returns the words before the next one.
fn push_way(
    out: &mut Vec<u8>,
    before: &'static str,
    hex: Option<Hex>,
) -> Result<&'static str, AllocError> {
    let Some(hex) = hex else {
        return Ok(before);
    };
    fill(out, before, &[Bytes(hex.text().as_slice())])?;
    Ok(BEFORE_NEXT)
}

/// Ends the list of hexes, if there is one.
fn end_ways(out: &mut Vec<u8>, before: &'static str) -> Result<(), AllocError> {
    let end = if before == BEFORE_NEXT { ")" } else { "" };
    push(out, &[Words(end)])
}
