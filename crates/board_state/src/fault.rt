//! Why some tiles and tokens cannot lie on the map.
ghost use Rattle.std.specs.Prelude.{◌≡◌};
ghost use Rattle.board_state.specs.declared.fault.BoardFault.TheVariants.{Memory};

use std::alloc::AllocError;
use thiserror::Error;

/// Why tiles and tokens are not a board: the first of these that applies. After a failed allocation
/// they may well be one.
#[derive(Clone, Copy, Debug, PartialEq, Eq, Drop, Error)]
pub enum BoardFault {
    /// B1: a tile is of a kind that its hex does not take, or has its stops swapped though it does
    /// not have two.
    #[error("a tile is of another kind than its hex")]
    Kind,
    /// B2: the track of a tile leads to a bad side: off the map, over a closed border, or to a grey
    /// or red hex without track there.
    #[error("the track of a tile leads to a bad side")]
    BadSide,
    /// B3: a token has no slot of its own in a city.
    #[error("a token has no slot")]
    NoSlot,
    /// An allocation failed.
    #[error("memory was refused")]
    Memory,
}

impl From<AllocError> for BoardFault {
    ghost from_gives = { λ _ fault. fault ≡ Memory };

    fn from(_error: AllocError) -> BoardFault {
        // An allocation failed: passed on.
        BoardFault::Memory
    }
}
