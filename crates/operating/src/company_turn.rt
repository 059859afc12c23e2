//! The turn of a company: what lasts while it operates.
ghost use Rattle.std.specs.Prelude.{◌≡◌};
ghost use Rattle.operating.specs.Progress.{at_start};

use crate::progress::Progress;
use board::Board;
use forced_purchase::Operator;
use history::History;
use std::alloc::Global;
use tables::Round;

/// The turn of a company that has a president. The runner is not part of it, since only RUN BEST
/// calls it.
#[derive(Drop)]
pub struct CompanyTurn {
    pub(crate) alloc: Global,
    /// The company, and the seat that gives its orders.
    pub by: Operator,
    /// The operating round.
    pub round: Round,
    /// The game so far.
    pub history: History,
    /// The step of the turn, and what its trains have done.
    pub progress: Progress,
    /// The tiles and tokens that lie on the map, or the first of them: in a box, so that a turn is
    /// few bytes to pass on.
    pub board: Box<Board>,
}

impl CompanyTurn {
    /// Returns a turn at its start, once the company's home token lies, with a board that has the
    /// first of the tiles and tokens.
    pub(crate) fn begin(
        alloc: Global,
        by: Operator,
        round: Round,
        history: History,
        board: Box<Board>,
    ) -> CompanyTurn
        ensures by { result.by ≡ by }
        ensures round { result.round ≡ round }
        ensures history { result.history ≡ history }
        ensures progress { result.progress ≡ at_start }
        ensures board { result.board ≡ board }
    {
        CompanyTurn {
            alloc,
            by,
            round,
            history,
            progress: Progress::start(),
            board,
        }
    }
}
