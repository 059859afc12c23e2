//! The tiles and tokens on the map, as a board that is kept through a turn. It is brought up to
//! date before a line uses it.
ghost use Rattle.std.specs.Prelude.{◌≡◌, OnOk};
ghost use Rattle.totals.specs.Operating.{lays_of, tokens_of};
ghost use Rattle.operating.specs.MapState.{BeginsWith, IsPrefix, map_state_now};

use board::Board;
use history::History;
use std::alloc::AllocError;

/// Brings the board up to date: adds the tiles and tokens that it lacks, and sets the phase. Fails
/// only if allocation fails.
pub(crate) fn update_map_state(board: &mut Board, history: &History) -> Result<(), AllocError>
    requires { IsPrefix board.old history.now.events }
    ensures map_state { OnOk result (board.new ≡ map_state_now history.now.events) }
    ensures prefix { OnOk result (IsPrefix board.new history.now.events) }
{
    put_lays(board, history)?;
    put_tokens(board, history)?;
    board.put_phase(history.phase());
    Ok(())
}

/// Lays the tiles that a board lacks.
fn put_lays(board: &mut Board, history: &History) -> Result<(), AllocError>
    requires { BeginsWith board.old.lays (lays_of history.now.events) }
    ensures lays { OnOk result (board.new.lays ≡ lays_of history.now.events) }
    ensures tokens { OnOk result (board.new.tokens ≡ board.old.tokens) }
{
    while let Some(lay) = history.laid(board.tiles_laid()) {
        board.put_lay(lay)?;
    }
    Ok(())
}

/// Places the tokens that it lacks.
fn put_tokens(board: &mut Board, history: &History) -> Result<(), AllocError>
    requires { BeginsWith board.old.tokens (tokens_of history.now.events) }
    ensures tokens { OnOk result (board.new.tokens ≡ tokens_of history.now.events) }
    ensures lays { OnOk result (board.new.lays ≡ board.old.lays) }
{
    while let Some((place, company)) = history.token(board.tokens_placed()) {
        board.put_token(place, company)?;
    }
    Ok(())
}
