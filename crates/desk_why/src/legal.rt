//! What a company may lay on a hex in place of a tile that a rule refused, as text.

use crate::refusal_detail::{Ruled, push_colour};
use desk_base::Piece::{Bytes, Count, Words};
use desk_base::{board_at, fill};
use desk_map_rules::legal_lays;
use history::LayRule;
use map_tables::{Lay, TileNo};
use moves::Priced;
use std::alloc::{AllocError, Global};

/// Adds what shows that a lay breaks a rule: the colours of the tile and its hex, or what may be
/// laid there instead.
pub(crate) fn push_of_lay(
    alloc: Global,
    out: &mut Vec<u8>,
    ruled: Ruled,
    rule: LayRule,
    lay: Lay,
) -> Result<(), AllocError> {
    match rule {
        LayRule::WrongTile => push_colour(out, ruled.view, lay),
        LayRule::NoneLeft | LayRule::TrackLost => push_legal(alloc, out, ruled, rule, lay),
        _ => Ok(()),
    }
}

/// Adds the rotations in which a tile may be laid on its hex, or, if none of the tile is left, the
/// other tiles that may be laid there.
fn push_legal(
    alloc: Global,
    out: &mut Vec<u8>,
    ruled: Ruled,
    rule: LayRule,
    lay: Lay,
) -> Result<(), AllocError> {
    let Some(company) = ruled.company() else {
        return Ok(());
    };
    let board = board_at(alloc, ruled.view)?;
    let lays = legal_lays(alloc, &board, ruled.view, company, lay.hex)?;
    match rule {
        LayRule::TrackLost => push_turns(out, lays.as_slice(), lay.tile),
        _ => push_tiles(out, lays.as_slice()),
    }
}

/// Adds in which rotations a tile is among some lays, with SWAP or without.
fn push_turns(out: &mut Vec<u8>, lays: &[Priced<Lay>], tile: TileNo) -> Result<(), AllocError> {
    let number = tile.number() as usize;
    let mut before = "; legal there: % in rotation %%";
    for lay in lays {
        if lay.what.tile == tile {
            let swap = Words(if lay.what.swap { " SWAP" } else { "" });
            let turns = Count(lay.what.rot.turns());
            if before == NEXT {
                fill(out, before, &[turns, swap])?;
            } else {
                fill(out, before, &[Count(number), turns, swap])?;
            }
            before = NEXT;
        }
    }
    if before == NEXT {
        return Ok(());
    }
    fill(out, "; no rotation of % is legal there", &[Count(number)])
}

/// What comes before each later rotation, and before its SWAP.
const NEXT: &str = ", %%";

/// Adds the tiles of some lays.
fn push_tiles(out: &mut Vec<u8>, lays: &[Priced<Lay>]) -> Result<(), AllocError> {
    if lays.is_empty() {
        return fill(out, "; no other tile is legal there", &[]);
    }
    let (mut words, mut last) = ("; left and legal there: %", None);
    for lay in lays {
        if last != Some(lay.what.tile) {
            fill(out, words, &[Count(lay.what.tile.number() as usize)])?;
            (words, last) = (", %", Some(lay.what.tile));
        }
    }
    Ok(())
}
