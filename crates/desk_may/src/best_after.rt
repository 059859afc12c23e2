//! The greatest revenue of a company's trains: now, and after a lay or a token.
ghost use Rattle.std.specs.Prelude.{IfOk};
ghost use Rattle.board_state.specs.MapState.{position_of, with_lay, with_token};
ghost use Rattle.legal_runs.specs.Set.{IsGreatestMoney};
ghost use Rattle.operating.specs.MapState.{map_state_now};

use crate::boards::board_now;
use best_run::Search;
use board::Board;
use history::History;
use legal_runs::Runner;
use map_tables::{Lay, Place};
use std::alloc::{AllocError, Global};
use tables::{Company, Kind, Money, Round};

/// A company with its trains, in a game, at the start of its orders or after some of them.
#[derive(Clone, Copy)]
pub struct Trains<'a> {
    /// Where the board and the search are allocated.
    pub alloc: Global,
    /// The game.
    pub history: &'a History,
    /// The company.
    pub company: Company,
    /// The kinds of its trains.
    pub kinds: &'a [Kind],
}

impl Trains<'_> {
    /// Returns the greatest revenue of the trains now, in dollars. Fails only if allocation fails.
    pub fn best_now(self) -> Result<Money, AllocError>
        ensures { let its = self.entry in IfOk result (IsGreatestMoney
            (position_of (map_state_now its.history.now.events)) its.company its.kinds.now) }
    {
        let board = board_now(self.alloc, self.history)?;
        self.best_on(&board)
    }

    /// Returns the greatest revenue of the trains after a lay, in dollars. Fails only if allocation
    /// fails.
    pub fn best_after_lay(self, lay: Lay) -> Result<Money, AllocError>
        ensures { let its = self.entry in IfOk result (IsGreatestMoney
            (position_of (with_lay (map_state_now its.history.now.events) lay))
            its.company its.kinds.now) }
    {
        let mut board = board_now(self.alloc, self.history)?;
        board.put_lay(lay)?;
        self.best_on(&board)
    }

    /// Returns the greatest revenue of the trains after a token, in dollars. Fails only if
    /// allocation fails.
    pub fn best_after_token(self, place: Place) -> Result<Money, AllocError>
        ensures { let its = self.entry in IfOk result (IsGreatestMoney
            (position_of (with_token (map_state_now its.history.now.events) place its.company))
            its.company its.kinds.now) }
    {
        let mut board = board_now(self.alloc, self.history)?;
        board.put_token(place, self.company)?;
        self.best_on(&board)
    }

    /// Returns the greatest revenue of the trains on a board, in dollars. Fails only if allocation
    /// fails.
    fn best_on(self, board: &Board) -> Result<Money, AllocError>
        ensures { let its = self.entry in
            IfOk result (IsGreatestMoney (position_of board.now) its.company its.kinds.now) }
    {
        // A search ignores the round.
        let any_round = Round::Operating { set: 1, number: 1 };
        let mut search = Search::new(self.alloc);
        match search.earn(board, any_round, self.company, self.kinds) {
            Ok(revenue) => Ok(revenue),
            // An allocation failed: passed on.
            Err(_) => Err(AllocError),
        }
    }
}
