//! The board of a game.
ghost use Rattle.std.specs.Prelude.{◌≡◌, IfOk};
ghost use Rattle.operating.specs.MapState.{map_state_now};

use board::Board;
use history::History;
use std::alloc::{AllocError, Global};

/// Returns the board as it is, from the tiles and tokens that the totals keep. It does not read the
/// events again, since `lays --best` needs a board after each lay. Fails only if allocation fails.
pub fn board_now(alloc: Global, history: &History) -> Result<Board, AllocError>
    ensures { IfOk result (λ board. board ≡ map_state_now history.now.events) }
{
    let mut board = Board::empty(alloc, history.phase());
    for lay in history.lays() {
        board.put_lay(*lay)?;
    }
    for token in history.tokens() {
        board.put_token(token.0, token.1)?;
    }
    Ok(board)
}
