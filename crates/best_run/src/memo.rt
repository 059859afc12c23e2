//! What has been found, and which states have been explored. A state is not explored again if no
//! more can be earned from it than from one of these.
ghost use Rattle.std.specs.Prelude.{◌≡◌, ◌<◌, [], ◌∷◌, IsOk, IsTrue, None, length};
ghost use Rattle.best_run.specs.Memo.{IsDominated, IsHeld, IsKept, IsNothing, unless_refused};
ghost use Rattle.best_run.specs.Moves.{Traces};
ghost use Rattle.best_run.specs.MovePath.{go_along};

use crate::move_path::{Mark, MovePath};
use crate::search_state::SearchState;
use search_task::Steps;
use std::alloc::{AllocError, Global};
use tables::Amount;

/// How many explored states are kept at most.
const MOST_PLACES: usize = 16_384;

/// How many places there are for each state kept, until the most is reached. With too few places,
/// states would overwrite others that are still useful.
const PLACES_EACH: usize = 4;

/// What has been found.
#[derive(Drop)]
pub(crate) struct Found {
    /// The greatest total so far, in dollars.
    pub(crate) amount: Amount,
    /// The moves that earn it.
    pub(crate) move_path: MovePath,
    /// States that have been explored: no way on from there earns more. Each is at one place, and
    /// overwrites the one that was there. There are no places at first; their number doubles
    /// whenever there are too few.
    pub(crate) memo: Vec<SearchState>,
    /// How many times a state has been kept.
    pub(crate) kept: usize,
}

impl Found {
    /// Returns the state before the search: nothing is found yet, and no state is kept.
    pub(crate) fn nothing(alloc: Global) -> Found
        ensures { IsNothing result }
    {
        Found {
            amount: 0,
            move_path: MovePath::new(alloc),
            memo: Vec::new(alloc),
            kept: 0,
        }
    }

    /// Returns what is found. Fails only if the allocation of a mark or a place had failed.
    pub(crate) fn unless_refused(self) -> Result<Found, AllocError>
        ensures { result ≡ unless_refused self }
    {
        match self.move_path.refused {
            Some(error) => Err(error),
            None => Ok(self),
        }
    }

    /// Writes the mark of a move that led on to what has been found, if it is more than before.
    #[inline(always)]
    pub(crate) fn trace(&mut self, before: Amount, mark: Mark)
        ensures { Traces before (mark ∷ []) self.old self.new }
    {
        if self.amount > before {
            self.move_path.write(mark);
        }
    }

    /// Writes the marks of the steps that led on to what has been found, if it is more than before.
    #[inline(always)]
    pub(crate) fn trace_steps(&mut self, before: Amount, steps: &Steps)
        ensures { Traces before (go_along steps.now.items) self.old self.new }
    {
        if self.amount > before {
            self.move_path.write_steps(steps.as_slice());
        }
    }

    /// Returns whether a state that was explored is known to earn no less than another. It may be
    /// false even if that holds.
    pub(crate) fn dominates(&self, search_state: &SearchState) -> bool
        ensures { IsTrue result → IsDominated self.now search_state.now }
    {
        let places = self.memo.len();
        if places == 0 {
            return false;
        }
        self.memo[search_state.place() % places].dominates(search_state)
    }

    /// Doubles the number of places. The first half is copied to the second, so that a state is
    /// found at its new place too. If there are no places yet, the given state fills the first.
    /// Fails only if allocation fails.
    fn widen(&mut self, search_state: &SearchState) -> Result<(), AllocError>
        ensures kept { IsKept search_state.now self.old self.new }
        ensures places { IsOk result → 0 < length self.new.memo.items }
    {
        let places = self.memo.len();
        if places == 0 {
            self.memo.push(search_state.copy())?;
        }
        for place in 0..places {
            let twin = self.memo[place].copy();
            self.memo.push(twin)?;
        }
        Ok(())
    }

    /// Puts a state that has been explored at its place, if there are places.
    fn put(&mut self, search_state: &SearchState)
        ensures kept { IsKept search_state.now self.old self.new }
        ensures held { 0 < length self.old.memo.items → IsHeld self.new search_state.now }
    {
        let places = self.memo.len();
        if places > 0 {
            self.memo[search_state.place() % places] = search_state.copy();
            self.kept = self.kept.saturating_add(1);
        }
    }

    /// Keeps a state that has been explored. If allocation fails, the error is kept.
    pub(crate) fn keep(&mut self, search_state: &SearchState)
        ensures kept { IsKept search_state.now self.old self.new }
        ensures held { self.new.move_path.refused ≡ None → IsHeld self.new search_state.now }
    {
        let places = self.memo.len();
        if places < MOST_PLACES && self.kept >= places / PLACES_EACH {
            if let Err(error) = self.widen(search_state) {
                self.move_path.refuse(error);
            }
        }
        self.put(search_state);
    }
}
