//! States that are equivalent for the trains that are left: they differ only in borders that
//! neither the run begun nor a later one can cross.
ghost use Rattle.std.specs.Prelude.{◌≡◌, ◌<◌, ◌≤◌, IsTrue, None, Some, false, length, true};
ghost use Rattle.best_run.specs.Ahead.{IsWorth, LiesAhead};
ghost use Rattle.best_run.specs.Canonical.{AreCapped, AreOpen, Holds, IsCanonical, IsInReach, IsNear, IsShut};
ghost use Rattle.best_run.specs.Canonical.{IsShutOff, Opens, ReachesToken};
ghost use Rattle.best_run.specs.Canonical.{ReachesAt, WidensTo, anywhere, sets_out};
ghost use Rattle.best_run.specs.Moves.{EarnsAtMost};
ghost use Rattle.search_task.specs.Spots.{ends_in, node_at, stop_in};
ghost use Rattle.reach.specs.Search.{map_spots};
ghost use Rattle.search_task.specs.Legs.{IsStop};

use crate::bounded_task::BoundedTask;
use crate::end_stops::count;
use crate::lookahead::{Outlook, look_along, nothing_ahead};
use crate::search::are_pruned_by_cap;
use crate::search_state::SearchState;
use crate::state::{Assigned, PartialRun};
use reach::SPOTS;
use search_task::{Borders, ReadyTask, SpotNumber, Spots};
use tables::Amount;

/// What is in reach of the trains that are left.
#[derive(Drop)]
pub(crate) struct InReach {
    /// How many stops a run of the next train may visit, or how many spots there are.
    pub(crate) left: usize,
    /// The stops that a run may visit.
    pub(crate) ahead: Spots,
    /// The most that a run of that many stops can earn, in dollars.
    pub(crate) cap: Amount,
}

/// Returns a run that has visited nothing, and may reach any stop.
fn anywhere() -> PartialRun
    ensures { result ≡ anywhere }
{
    PartialRun {
        home: SpotNumber::of(0),
        first: 0,
        turned: false,
        head: SpotNumber::of(0),
        most: 0,
        left: 1,
        value: 0,
        visited: Spots::none(),
    }
}

/// Adds what a run may reach from a token to what is in reach of the trains that are left.
fn reach_from(task: &ReadyTask, assigned: &Assigned, stop: SpotNumber, reach: &mut Outlook)
    requires stops { stop_in (node_at task.now stop) ≡ true }
    requires known { IsWorth task.now.spots.items reach.old.ahead reach.old.worth }
    ensures reaches { WidensTo task.now assigned.now stop reach.old.ahead reach.new.ahead }
    ensures known { IsWorth task.now.spots.items reach.new.ahead reach.new.worth }
{
    task.is_ready();
    let run = anywhere();
    let from = task.departures(stop);
    for index in 0..from.legs.len() {
        let leg = &from.legs[index];
        look_along(task, assigned, &run, &leg.segment, reach);
    }
}

/// Puts a stop in reach.
fn hold(task: &ReadyTask, assigned: &Assigned, stop: SpotNumber, reach: &mut Outlook)
    requires { IsWorth task.now.spots.items reach.old.ahead reach.old.worth }
    ensures holds { Holds stop reach.old.ahead reach.new.ahead }
    ensures known { IsWorth task.now.spots.items reach.new.ahead reach.new.worth }
{
    reach.ahead.is_whole();
    if !reach.ahead.has(stop.index()) {
        count(task, assigned, &anywhere(), stop, reach);
    }
}

/// Returns what is in reach of a run that sets out from a stop: the stop, and those to which it may
/// come. Their worth is known for a run that may visit this many stops.
#[inline(always)]
fn reach_of(task: &ReadyTask, assigned: &Assigned, stop: SpotNumber, left: usize) -> Outlook
    requires { stop_in (node_at task.now stop) ≡ true }
    ensures near { IsNear task.now assigned.now.used stop result.ahead }
    ensures known { IsWorth task.now.spots.items result.ahead result.worth }
{
    let mut near = nothing_ahead(task, left);
    hold(task, assigned, stop, &mut near);
    reach_from(task, assigned, stop, &mut near);
    near
}

/// Returns whether a stop lies in reach and may be passed: all that is in reach of it is in reach
/// already.
fn is_passed(task: &ReadyTask, stop: SpotNumber, ahead: &Spots) -> bool
    ensures lies { IsTrue result → LiesAhead ahead.now stop }
    ensures passes { IsTrue result → ends_in (node_at task.now stop) ≡ false }
{
    let node = task.node(stop);
    !node.ends && ahead.has(stop.index())
}

/// Adds what is in reach of a token, unless it is in reach already.
fn reach_token(task: &ReadyTask, assigned: &Assigned, stop: SpotNumber, reach: &mut InReach)
    requires stops { stop_in (node_at task.now stop) ≡ true }
    requires left { reach.old.left ≤ map_spots }
    ensures { ReachesToken task.now assigned.now.used stop reach.old reach.new }
{
    task.is_ready();
    if is_passed(task, stop, &reach.ahead) {
        return;
    }
    let near = reach_of(task, assigned, stop, reach.left);
    let most = near.worth.least(reach.left as Amount, true, true);
    reach.ahead = reach.ahead.with(&near.ahead);
    if most > reach.cap {
        reach.cap = most;
    }
}

/// Returns how many stops a train may visit, but no more than there are spots.
fn left_to(most: usize) -> usize
    ensures { result ≤ map_spots }
{
    if most > SPOTS { SPOTS } else { most }
}

/// Returns the stops that a run of the trains that are left may visit: where it may begin, and to
/// which it may come. A run of the next train earns no more than is in reach of the token where it
/// begins.
pub(crate) fn reach(task: &ReadyTask, assigned: &Assigned) -> InReach
    requires next { assigned.now.next < length task.now.trains.items }
    ensures reaches { IsInReach task.now assigned.now.used result.ahead }
    ensures capped { AreCapped task.now assigned.now.used result }
{
    task.is_ready();
    let most = task.most_stops(assigned.next);
    let mut reach = InReach {
        left: left_to(most),
        ahead: Spots::none(),
        cap: 0,
    };
    for place in 0..task.stop_count() {
        let stop = task.stop(place);
        if task.node(stop).own {
            reach_token(task, assigned, stop, &mut reach);
        }
    }
    reach
}

/// Returns whether the trains that are left can earn no more than what has been found, by what is
/// in reach. Each of the next trains of one kind earns no more than that allows, and the others no
/// more than they earn by themselves. It may be false even if that holds.
pub(crate) fn is_pruned_by_reach(
    bounded: &BoundedTask,
    assigned: &Assigned,
    reach: &InReach,
    best: Amount,
) -> bool
    requires next { assigned.now.next < length bounded.now.task.now.trains.items }
    requires capped { AreCapped bounded.now.task.now assigned.now.used reach.now }
    ensures { IsTrue result → EarnsAtMost bounded.now.task.now assigned.now best }
{
    bounded.task.is_ready();
    assigned.marks_all_borders();
    let total = assigned.total;
    are_pruned_by_cap(bounded, assigned.next, reach.left, reach.cap, total, best)
}

/// Opens the legs from a stop that cross no used border.
fn open_from(task: &ReadyTask, assigned: &Assigned, stop: SpotNumber, shut: &mut Borders)
    requires { stop_in (node_at task.now stop) ≡ true }
    ensures opens { Opens assigned.now.used shut.old shut.new }
    ensures open { AreOpen task.now assigned.now.used stop shut.new }
{
    task.is_ready();
    let from = task.departures(stop);
    for index in 0..from.legs.len() {
        let leg = &from.legs[index];
        if leg.segment.borders.misses(&assigned.used) {
            leg.segment.borders.clear_in(shut);
        }
    }
}

/// Returns whether a run may set out from a stop: the company has a token there, or it lies in
/// reach and may be passed.
fn sets_out(task: &ReadyTask, stop: SpotNumber, reach: &Spots) -> bool
    ensures { result ≡ sets_out task.now reach.now stop }
{
    let node = task.node(stop);
    node.stop && (node.own || (reach.has(stop.index()) && !node.ends))
}

/// Returns all borders except those that a run of the trains that are left may cross.
fn shut(task: &ReadyTask, assigned: &Assigned, reach: &Spots) -> Borders
    ensures { IsShut task.now assigned.now.used reach.now result }
{
    task.is_ready();
    assigned.marks_all_borders();
    let mut shut = Borders::all();
    for place in 0..task.stop_count() {
        let stop = task.stop(place);
        if sets_out(task, stop, reach) {
            open_from(task, assigned, stop, &mut shut);
        }
    }
    shut
}

/// Returns a state with the same trains assigned. In it all borders are used except those that a
/// run of the trains that are left may cross, which sets out from a stop in reach.
fn shut_off(task: &ReadyTask, assigned: &Assigned, reach: &Spots) -> Assigned
    ensures { IsShutOff task.now assigned.now reach.now result }
{
    Assigned {
        next: assigned.next,
        total: assigned.total,
        kind: assigned.kind,
        cap: assigned.cap,
        used: shut(task, assigned, reach),
    }
}

/// Returns a state that is equivalent to one between runs, in which all borders are used that no
/// later run can cross.
pub(crate) fn canonical(task: &ReadyTask, assigned: &Assigned, reach: &Spots) -> SearchState
    requires reaches { IsInReach task.now assigned.now.used reach.now }
    ensures { IsCanonical task.now assigned.now None result }
{
    SearchState {
        assigned: shut_off(task, assigned, reach),
        run: None,
    }
}

/// Adds a stop, and what a run may reach from there, to what is in reach.
fn reach_at(task: &ReadyTask, assigned: &Assigned, stop: SpotNumber, ahead: &mut Spots)
    requires { stop_in (node_at task.now stop) ≡ true }
    ensures { ReachesAt task.now assigned.now.used stop ahead.old ahead.new }
{
    if is_passed(task, stop, ahead) {
        return;
    }
    let near = reach_of(task, assigned, stop, SPOTS);
    *ahead = ahead.with(&near.ahead);
}

/// Returns a state that is equivalent to one with a run begun. In it all borders are used that
/// neither that run nor a later one can cross, and all stops that they cannot reach count as
/// visited.
pub(crate) fn canonical_begun(
    task: &ReadyTask,
    assigned: &Assigned,
    run: &PartialRun,
) -> SearchState
    requires next { assigned.now.next < length task.now.trains.items }
    requires at_stop { IsStop task.now run.now.head }
    requires begun { IsStop task.now run.now.home }
    ensures { IsCanonical task.now assigned.now (Some run.now) result }
{
    run.visited.is_whole();
    let mut ahead = reach(task, assigned).ahead;
    reach_at(task, assigned, run.head, &mut ahead);
    reach_at(task, assigned, run.home, &mut ahead);
    SearchState {
        assigned: shut_off(task, assigned, &ahead),
        run: Some(run.within(&ahead)),
    }
}
