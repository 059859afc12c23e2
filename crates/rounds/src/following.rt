//! What comes after a round: another round, or the end of the game.

use tables::Round;

/// What comes after a round.
#[derive(Clone, Copy, Debug, PartialEq, Eq)]
pub enum Next {
    /// This round.
    Round(Round),
    /// Nothing: the game is over.
    Ended,
}
