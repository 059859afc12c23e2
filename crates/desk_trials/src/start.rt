//! A game as a round begins, with its board.
ghost use Rattle.std.specs.Prelude.{◌≡◌, IfOk};
ghost use Rattle.operating.specs.MapState.{map_state_now};

use board::Board;
use desk_base::board_at;
use history::GameView;
use std::alloc::{AllocError, Global};

/// A game as a round begins, once the privates have paid, with its board.
#[derive(Drop)]
pub(crate) struct Start<'x> {
    /// The game.
    pub(crate) view: &'x GameView<'x>,
    /// What lies on its map.
    pub(crate) board: Board,
    pub(crate) ghost same: { board ≡ map_state_now view.now.events },
}

impl<'x> Start<'x> {
    /// Returns a game with its board. Fails only if allocation fails.
    pub(crate) fn of(alloc: Global, view: &'x GameView<'x>) -> Result<Start<'x>, AllocError>
        ensures { IfOk result (λ start. start.view.now ≡ view.now) }
    {
        let board = board_at(alloc, view)?;
        Ok(Start { view, board })
    }
}
