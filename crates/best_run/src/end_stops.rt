//! Stops ahead at which a run ends, though others may pass them: from there it would go on over the
//! border by which it comes.
ghost use Rattle.std.specs.Prelude.{◌≡◌, ℕ, ◌<◌, ◌≤◌, IsTrue, Some, false, get_or, length, set, true};
ghost use Rattle.best_run.specs.Ahead.{IsWorth};
ghost use Rattle.best_run.specs.EndStops.{CountsAsPassed, CrossIt, HasWorth, IsLast};
ghost use Rattle.legal_runs.specs.Legal.{map_borders};
ghost use Rattle.search_task.specs.Spots.{ends_in, node_at};
ghost use Rattle.search_task.specs.Legs.{legs_at};

use crate::lookahead::Outlook;
use crate::state::{Assigned, PartialRun};
use search_task::{ReadyTask, SpotNumber};

/// Returns a border that is crossed by the first two of a stop's legs that cross no used border, or
/// by the only such leg. Returns `None` if these two share none, or there is no such leg.
fn exit(task: &ReadyTask, assigned: &Assigned, spot: SpotNumber) -> Option<usize>
    ensures { (border : ℕ) → result ≡ Some border → border < map_borders }
{
    let from = task.departures(spot);
    let mut first = None;
    for index in 0..from.legs.len() {
        let borders = &from.legs[index].segment.borders;
        if borders.misses(&assigned.used) {
            match first {
                None => first = Some(borders),
                Some(other) => return borders.shared(other),
            }
        }
    }
    match first {
        None => None,
        Some(only) => only.shared(only),
    }
}

/// Returns whether all legs from a stop that cross no used border cross this border.
fn cross_it(task: &ReadyTask, assigned: &Assigned, spot: SpotNumber, border: usize) -> bool
    requires { border < map_borders }
    ensures { IsTrue result → CrossIt task.now assigned.now.used spot border }
{
    let from = task.departures(spot);
    for index in 0..from.legs.len() {
        let borders = &from.legs[index].segment.borders;
        if !borders.crosses(border) && borders.misses(&assigned.used) {
            return false;
        }
    }
    true
}

/// Returns whether a run that reaches a stop ahead ends there, since all its legs that cross no
/// used border cross the one by which it comes. It may be false even if that holds, and it is false
/// for a run that visits no stops.
fn is_last(task: &ReadyTask, assigned: &Assigned, run: &PartialRun, spot: SpotNumber) -> bool
    ensures { IsTrue result → (0 < run.now.most) × IsLast task.now assigned.now.used spot }
{
    task.is_ready();
    if !task.mirrored() || run.most == 0 {
        return false;
    }
    match exit(task, assigned, spot) {
        Some(border) => cross_it(task, assigned, spot, border),
        None => false,
    }
}

/// Counts one more stop ahead, which the run may pass, or at which all runs end.
pub(crate) fn count(
    task: &ReadyTask,
    assigned: &Assigned,
    run: &PartialRun,
    spot: SpotNumber,
    outlook: &mut Outlook,
)
    requires free { get_or outlook.old.ahead spot false ≡ false }
    requires known { HasWorth task.now assigned.now run.now outlook.old.ahead outlook.old.worth }
    ensures marked { outlook.new.ahead ≡ set outlook.old.ahead spot true }
    ensures known { HasWorth task.now assigned.now run.now outlook.new.ahead outlook.new.worth }
    ensures passed { ends_in (node_at task.now spot) ≡ false
        → CountsAsPassed task.now assigned.now run.now spot outlook.new.ahead outlook.new.worth }
{
    task.is_ready();
    let node = task.node(spot);
    outlook.ahead.is_whole();
    outlook.ahead.mark(spot.index());
    outlook.stops = outlook.stops.wrapping_add(1);
    if node.ends {
        outlook.worth.end(node.value);
    } else {
        outlook.worth.pass(node.value);
    }
}

/// Counts a stop ahead as one at which the run ends, if it is last; before that it counts as one
/// that may be passed. It is kept out of line, so that its caller stays short.
#[inline(never)]
pub(crate) fn end_at(
    task: &ReadyTask,
    assigned: &Assigned,
    run: &PartialRun,
    spot: SpotNumber,
    outlook: &mut Outlook,
)
    requires lies { get_or outlook.old.ahead spot false ≡ true }
    requires passed { CountsAsPassed task.now assigned.now run.now spot outlook.old.ahead
        outlook.old.worth }
    ensures same { outlook.new.ahead ≡ outlook.old.ahead }
    ensures known { HasWorth task.now assigned.now run.now outlook.new.ahead outlook.new.worth }
{
    task.is_ready();
    let node = task.node(spot);
    if is_last(task, assigned, run, spot) {
        outlook.worth.take_back(node.value);
        outlook.worth.end(node.value);
    }
}
