//! A game and the board of its map.
ghost use Rattle.std.specs.Prelude.{◌≡◌, [], IfOk};
ghost use Rattle.board_state.specs.MapState.{map_state_of};
ghost use Rattle.history.specs.Sound.{IsSound};
ghost use Rattle.operating.specs.GameAndBoard.{IsLaidOut};
ghost use Rattle.tables.specs.declared.rolling_stock.Kind.TheVariants as kind;

use board::Board;
use history::History;
use std::alloc::{AllocError, Global};
use tables::Kind;

/// A game, and a board with the first of the tiles and tokens that were laid in it. Both go from
/// the turn of one company to that of the next, so that a round builds its board only once.
#[derive(Drop)]
pub struct GameAndBoard {
    /// The game so far.
    pub history: History,
    /// The board, in a box, so that the game and the board are few bytes to pass on.
    pub board: Box<Board>,
}

impl GameAndBoard {
    /// Returns a game with a board on which nothing lies yet. Fails only if allocation fails.
    pub fn lay_out(alloc: Global, history: History) -> Result<GameAndBoard, AllocError>
        requires { IsSound history }
        ensures history { IfOk result (λ game. game.history ≡ history) }
        ensures laid { IfOk result IsLaidOut }
    {
        let board = empty_board(alloc)?;
        Ok(GameAndBoard { history, board })
    }
}

/// Returns a board on which nothing lies, in a box. No other function keeps a board among its
/// locals, since each of its calls would pay for the board's bytes.
#[inline(never)]
fn empty_board(alloc: Global) -> Result<Box<Board>, AllocError>
    ensures { IfOk result (λ board. board.value ≡ map_state_of [] [] kind.Two) }
{
    Ok(Box::new(alloc, Board::empty(alloc, Kind::Two))?)
}
