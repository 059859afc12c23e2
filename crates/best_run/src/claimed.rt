//! The runs that a path gives, in full by their places.
ghost use Rattle.std.specs.Prelude.{◌≡◌, IfOk};
ghost use Rattle.best_run.specs.MovePath.{CanBeRead, IsRead, IsWalkRead, turned_about, turned_step};

use crate::move_path::{Mark, MovePath};
use legal_runs::{ClaimedRun, ClaimedRuns, write_run};
use reach::WalkStep;
use std::alloc::{AllocError, Global};
use tables::Kind;

/// Returns a step, taken the other way over its link.
fn turned_step(step: WalkStep) -> WalkStep
    ensures { result ≡ turned_step step }
{
    WalkStep {
        link: step.link,
        turned: !step.turned,
    }
}

/// Reverses a walk: each step is taken the other way over its link, the last one first.
fn turn_about(walk: &mut [WalkStep])
    ensures { walk.new ≡ turned_about walk.old }
{
    walk.reverse();
    for step in walk.iter_mut() {
        *step = turned_step(*step);
    }
}

/// Reads the marks of the next train, and removes them. Returns the walk that it runs, the latest
/// step first, or `None` if it does not run. Fails only if allocation fails.
fn read_walk(alloc: Global, marks: &mut Vec<Mark>) -> Result<Option<Vec<WalkStep>>, AllocError>
    ensures { IfOk result (IsWalkRead marks.old.items marks.new.items) }
{
    let mut walk = Vec::new(alloc);
    while let Some(mark) = marks.pop() {
        match mark {
            Mark::Pass => return Ok(None),
            Mark::Go(step) => walk.push(step)?,
            Mark::Turn => turn_about(&mut walk),
            Mark::Finish => {
                walk.reverse();
                return Ok(Some(walk));
            }
        }
    }
    Ok(None)
}

/// Returns the runs that a path gives for some trains. Fails only if allocation fails.
pub(crate) fn claimed_runs(
    alloc: Global,
    kinds: &[Kind],
    move_path: MovePath,
) -> Result<ClaimedRuns, AllocError>
    requires { CanBeRead kinds.now move_path }
    ensures { IfOk result (IsRead kinds.now move_path) }
{
    let mut marks = move_path.marks;
    let mut runs = ClaimedRuns::new(alloc);
    for kind in kinds {
        if let Some(walk) = read_walk(alloc, &mut marks)? {
            runs.push(ClaimedRun {
                kind: *kind,
                run: write_run(&walk),
            })?;
        }
    }
    Ok(runs)
}
