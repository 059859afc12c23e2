//! Lays and tokens, each with what the company's best runs would earn after it.
ghost use Rattle.std.specs.Prelude.{◌≡◌, IfOk, filter, map};
ghost use Rattle.board_state.specs.MapState.{position_of};
ghost use Rattle.legal_runs.specs.Set.{IsGreatestMoney};
ghost use Rattle.operating.specs.MapState.{map_state_now};
ghost use Rattle.page_lays.specs.MoveRows.{is_on, row_of, with_move};

use crate::move_rows::Move;
use board_state::same_hex;
use desk_may::{Progress, Trains};
use map_tables::{Hex, laid_links};
use moves::Priced;
use std::alloc::{AllocError, Global};
use tables::Money;

/// A lay or a token, with what the best runs would earn after it.
#[derive(Clone, Copy)]
pub(crate) struct Line {
    pub(crate) row: Priced<Move>,
    /// In dollars; `None` if not requested.
    pub(crate) best: Option<Money>,
}

/// Returns some lays and tokens, each with what the trains would earn after it, if trains are
/// given. Fails only if allocation fails.
pub(crate) fn lines_of<P: Progress>(
    alloc: Global,
    rows: &[Priced<Move>],
    trains: Option<Trains>,
    progress: &mut P,
) -> Result<Vec<Line>, AllocError>
    ensures { IfOk result (λ lines. map row_of lines.items ≡ rows.now) }
{
    let mut lines = Vec::new(alloc);
    for row in rows {
        let best = match trains {
            Some(trains) => Some(best_of(trains, lines.as_slice(), row.what)?),
            None => None,
        };
        lines.push(Line { row: *row, best })?;
        if trains.is_some() {
            progress.tell(lines.len(), rows.len());
        }
    }
    Ok(lines)
}

/// Returns what the trains would earn after a lay or a token. An earlier line with the same track
/// has the same revenue, and no trains earn nothing.
fn best_of(trains: Trains, before: &[Line], what: Move) -> Result<Money, AllocError> {
    if trains.kinds.is_empty() {
        return Ok(0);
    }
    for line in before {
        if let Some(best) = line.best
            && is_same_track(line.row.what, what)
        {
            return Ok(best);
        }
    }
    best_after(trains, what)
}

/// Returns the greatest revenue of the trains after a lay or a token, in dollars. Fails only if
/// allocation fails.
fn best_after(trains: Trains, what: Move) -> Result<Money, AllocError>
    ensures { let its = trains.entry in IfOk result (IsGreatestMoney
        (position_of (with_move (map_state_now its.history.now.events) what its.company))
        its.company its.kinds.now) }
{
    match what {
        Move::Lay(lay) => trains.best_after_lay(lay),
        Move::Token(place) => trains.best_after_token(place),
    }
}

/// Returns whether two moves lay the same track: the same tile on the same hex, in rotations that
/// look alike.
fn is_same_track(a: Move, b: Move) -> bool {
    match (a, b) {
        (Move::Lay(a), Move::Lay(b)) => {
            a.hex == b.hex
                && a.tile == b.tile
                && laid_links(a).as_slice() == laid_links(b).as_slice()
        }
        _ => false,
    }
}

/// Returns the lines on a hex, in order. Fails only if allocation fails.
pub(crate) fn lines_on(alloc: Global, lines: &[Line], hex: Hex) -> Result<Vec<Line>, AllocError>
    ensures { IfOk result (λ found. found.items ≡ filter (is_on hex) lines.now) }
{
    let mut found = Vec::new(alloc);
    for line in lines {
        if same_hex(line.row.what.hex(), hex) {
            found.push(*line)?;
        }
    }
    Ok(found)
}
