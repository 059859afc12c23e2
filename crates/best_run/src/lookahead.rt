//! What lies ahead of a run: the stops that it may still reach, how many these are and what they
//! are worth. The search uses it to bound what the run may still earn.
ghost use Rattle.std.specs.Prelude.{◌≡◌, ◌<◌, ◌≤◌, List, true, false, get_or, replicate};
ghost use Rattle.search_task.specs.declared.task.Node.{Node};
ghost use Rattle.best_run.specs.Ahead.{IsWorth, WidensAt, WidensBack, WidensBy, WidensFrom, leads_on};
ghost use Rattle.best_run.specs.EndStops.{HasWorth};
ghost use Rattle.reach.specs.Search.{map_spots};
ghost use Rattle.search_task.specs.Spots.{node_at, stop_in};

use crate::end_stops::{count, end_at};
use crate::state::{Assigned, PartialRun};
use crate::value_ahead::{LEVELS, Worth};
use search_task::{ReadyTask, Segment, SpotNumber, Spots};

/// What lies ahead of a run.
#[derive(Drop)]
pub(crate) struct Outlook {
    /// The stops that it may reach.
    pub(crate) ahead: Spots,
    /// How many these are.
    pub(crate) stops: usize,
    /// What they are worth.
    pub(crate) worth: Worth,
}

impl Outlook {
    /// Returns an outlook in which nothing lies ahead. It has this many levels.
    fn nothing(levels: usize) -> Outlook
        requires levels { 0 < levels }
        requires few { levels ≤ 9 }
        ensures ahead { result.ahead ≡ replicate map_spots false }
        ensures known { (nodes : List Node)
            → IsWorth nodes (replicate map_spots false) result.worth }
    {
        Outlook {
            ahead: Spots::none(),
            stops: 0,
            worth: Worth::nothing(levels),
        }
    }

    /// Returns the same outlook.
    pub(crate) fn copy(&self) -> Outlook
        ensures { result ≡ self.now }
    {
        Outlook {
            ahead: self.ahead.copy(),
            stops: self.stops,
            worth: self.worth,
        }
    }
}

/// Returns an outlook in which nothing lies ahead of a run that may visit this many more stops. If
/// it may visit all, it earns least by the first level.
pub(crate) fn nothing_ahead(task: &ReadyTask, left: usize) -> Outlook
    ensures ahead { result.ahead ≡ replicate map_spots false }
    ensures known { (nodes : List Node) → IsWorth nodes (replicate map_spots false) result.worth }
{
    Outlook::nothing(if left >= task.stop_count() { 1 } else { LEVELS })
}

/// Returns whether a segment takes a run to a stop that is not among those ahead yet.
pub(crate) fn leads_on(
    task: &ReadyTask,
    assigned: &Assigned,
    run: &PartialRun,
    segment: &Segment,
    ahead: &Spots,
) -> bool
    requires { stop_in (node_at task.now segment.now.to) ≡ true }
    ensures { result ≡ leads_on task.now assigned.now run.now ahead.now segment.now }
{
    !ahead.either_has(&run.visited, &segment.to)
        && segment.borders.misses(&assigned.used)
        && run.left > 0
}

/// Adds what a run may reach from a stop to what lies ahead of it. Returns whether there is
/// anything.
#[cycle(look)]
fn look_from(
    task: &ReadyTask,
    assigned: &Assigned,
    run: &PartialRun,
    spot: SpotNumber,
    outlook: &mut Outlook,
) -> bool
    requires stop { stop_in (node_at task.now spot) ≡ true }
    requires known { HasWorth task.now assigned.now run.now outlook.old.ahead outlook.old.worth }
    ensures widens { WidensFrom task.now assigned.now run.now spot outlook.old.ahead
        outlook.new.ahead }
    ensures known { HasWorth task.now assigned.now run.now outlook.new.ahead outlook.new.worth }
    ensures same { result ≡ false → outlook.new ≡ outlook.old }
{
    task.is_ready();
    if task.node(spot).ends {
        return false;
    }
    let from = task.departures(spot);
    let legs = from.legs.as_slice();
    let mut leads = false;
    for index in 0..legs.len() {
        let leg = &legs[index];
        if leads_on(task, assigned, run, &leg.segment, &outlook.ahead) {
            look_at(task, assigned, run, leg.segment.to.number(), outlook);
            leads = true;
        }
    }
    leads
}

/// Adds a stop, and what a run may reach from there, to what lies ahead of it. If the run reaches
/// nothing from there, the stop may be last.
#[cycle(look)]
#[inline(always)]
pub(crate) fn look_at(
    task: &ReadyTask,
    assigned: &Assigned,
    run: &PartialRun,
    spot: SpotNumber,
    outlook: &mut Outlook,
)
    requires stop { stop_in (node_at task.now spot) ≡ true }
    requires free { get_or outlook.old.ahead spot false ≡ false }
    requires known { HasWorth task.now assigned.now run.now outlook.old.ahead outlook.old.worth }
    ensures widens { WidensAt task.now assigned.now run.now spot outlook.old.ahead
        outlook.new.ahead }
    ensures known { HasWorth task.now assigned.now run.now outlook.new.ahead outlook.new.worth }
{
    task.is_ready();
    outlook.ahead.is_whole();
    count(task, assigned, run, spot, outlook);
    if task.node(spot).ends {
        return;
    }
    if !look_from(task, assigned, run, spot, outlook) {
        end_at(task, assigned, run, spot, outlook);
    }
}

/// Adds what a run may reach by a segment to what lies ahead of it.
#[inline(always)]
pub(crate) fn look_along(
    task: &ReadyTask,
    assigned: &Assigned,
    run: &PartialRun,
    segment: &Segment,
    outlook: &mut Outlook,
)
    requires stop { stop_in (node_at task.now segment.now.to) ≡ true }
    requires known { HasWorth task.now assigned.now run.now outlook.old.ahead outlook.old.worth }
    ensures widens { WidensBy task.now assigned.now run.now segment.now outlook.old.ahead
        outlook.new.ahead }
    ensures known { HasWorth task.now assigned.now run.now outlook.new.ahead outlook.new.worth }
{
    if leads_on(task, assigned, run, segment, &outlook.ahead) {
        look_at(task, assigned, run, segment.to.number(), outlook);
    }
}

/// Adds what a run may reach from where it began, once it turns back, to what lies ahead of it. It
/// may not take a leg before the one by which it began.
pub(crate) fn look_back(
    task: &ReadyTask,
    assigned: &Assigned,
    run: &PartialRun,
    outlook: &mut Outlook,
)
    requires begun { stop_in (node_at task.now run.now.home) ≡ true }
    requires known { HasWorth task.now assigned.now run.now outlook.old.ahead outlook.old.worth }
    ensures widens { WidensBack task.now assigned.now run.now outlook.old.ahead
        outlook.new.ahead }
    ensures known { HasWorth task.now assigned.now run.now outlook.new.ahead outlook.new.worth }
{
    task.is_ready();
    if task.node(run.home).ends {
        return;
    }
    let from = task.departures(run.home);
    let legs = from.legs.as_slice();
    for index in 0..legs.len() {
        let leg = &legs[index];
        if run.first <= leg.first {
            look_along(task, assigned, run, &leg.segment, outlook);
        }
    }
}
