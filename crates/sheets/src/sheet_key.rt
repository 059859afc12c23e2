//! The key of the sheets of a file.

use tables::{Round, Seat};

/// Whose sheet for which round.
#[derive(Clone, Copy, Debug, PartialEq, Eq, Hash)]
pub struct SheetKey {
    /// The player whose sheet it is.
    pub seat: Seat,
    /// The round that it is for.
    pub round: Round,
}
