//! A task with what its last trains earn by themselves.
ghost use Rattle.best_run.specs.Suffix.{AreBounds};

use search_task::ReadyTask;
use tables::Amount;

/// A task, and what its last trains earn at most by themselves. The search leaves out what can earn
/// no more by these bounds than what has been found.
#[derive(Clone, Copy)]
pub(crate) struct BoundedTask<'a> {
    /// The task.
    pub(crate) task: &'a ReadyTask,
    /// For no train, for the last one, for the last two, and so on: what they earn at most, in
    /// dollars.
    pub(crate) bounds: &'a [Amount],
    ghost are_bounds: { AreBounds task.now bounds.now },
}
