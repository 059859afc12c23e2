//! How far the search has come: states, as they are kept once they have been explored.
ghost use Rattle.std.specs.Prelude.{◌≡◌, IsTrue};
ghost use Rattle.best_run.specs.Memo.{DominatesAny, DominatesStage};

use crate::state::{Assigned, PartialRun};
use search_task::mixed_with;

/// A state of the search: between runs, or with a run begun.
#[derive(Drop)]
pub(crate) struct SearchState {
    /// The trains assigned so far.
    pub(crate) assigned: Assigned,
    /// The run that has begun; `None` between runs.
    pub(crate) run: Option<PartialRun>,
}

/// Returns whether a run dominates another, or there is none in either state. If a train ran
/// before, it may be false: its run may not earn more than that one did.
fn dominates_run(kind: usize, run: &Option<PartialRun>, other: &Option<PartialRun>) -> bool
    ensures { IsTrue result → DominatesAny kind run.now other.now }
{
    match run {
        None => other.is_none(),
        Some(run) => match other {
            None => false,
            Some(other) => kind == 0 && run.dominates(other),
        },
    }
}

impl SearchState {
    /// Returns the same state.
    pub(crate) fn copy(&self) -> SearchState
        ensures { result ≡ self.now }
    {
        let run = match &self.run {
            None => None,
            Some(run) => Some(run.copy()),
        };
        SearchState {
            assigned: self.assigned.copy(),
            run,
        }
    }

    /// Returns whether whatever may follow another state may follow this one too, and earns as
    /// much. It may be false even if that holds.
    pub(crate) fn dominates(&self, other: &SearchState) -> bool
        ensures { IsTrue result → DominatesStage self.now other.now }
    {
        self.assigned.dominates(&other.assigned)
            && dominates_run(self.assigned.kind, &self.run, &other.run)
    }

    /// Returns the place at which the state is kept. Any place would do: states that use the same
    /// borders and have visited the same stops share one.
    pub(crate) fn place(&self) -> usize {
        let mut sum = self
            .assigned
            .used
            .mixed(0)
            .wrapping_add(self.assigned.next as u64);
        if let Some(run) = &self.run {
            sum = run.visited.mixed(sum).wrapping_add(run.head.index() as u64);
        }
        (mixed_with(sum, 0) >> 40) as usize
    }
}
