//! The search itself. It tries all ways to run or pass the trains, and leaves out those that can
//! earn no more than what has been found, or that were tried before.
ghost use Rattle.std.specs.Prelude.{◌≡◌, ◌+◌, ◌<◌, ◌≤◌, true, false, IsTrue, length};
ghost use Rattle.best_run.specs.Ahead.{IsInVain};
ghost use Rattle.best_run.specs.Extend.{MayExtend, MayLookAhead};
ghost use Rattle.best_run.specs.Room.{HasRoom, revenue_most};
ghost use Rattle.search_task.specs.Fit.{SegmentFits};
ghost use Rattle.search_task.specs.Legs.{IsStop};
ghost use Rattle.best_run.specs.Suffix.{ArePrunedByCap, AreEqual, ArePrunedBySuffix};
ghost use Rattle.best_run.specs.Moves.{Any, Explores, IsBegin, IsBeginAt, IsGo, IsTurn, Takes, Tries, between};
ghost use Rattle.best_run.specs.Moves.{own_before, partial};
ghost use Rattle.best_run.specs.WaysOn.{AreWaysOn};
ghost use Rattle.legal_runs.specs.Legal.{map_borders};
ghost use Rattle.search_task.specs.Spots.{node_at, own_in, stop_in};

use crate::bounded_task::BoundedTask;
use crate::canonical::{canonical, canonical_begun, is_pruned_by_reach, reach};
use crate::memo::Found;
use crate::move_path::Mark;
use crate::state::{Assigned, PartialRun, along, begun, can_take, mark_own, may_finish};
use crate::ways_on::{WaysOn, earns_too_much, ways_on};
use search_task::{ReadyTask, Segment, SpotNumber, Spots};
use tables::Amount;

/// The fewest stops ahead of a run with which the search looks up whether the run has been tried
/// before.
const MANY: usize = 8;

/// Returns whether the trains that are left can earn no more than what has been found, by what they
/// earn by themselves. It may be false even if that holds.
fn is_pruned_by_suffix(bounded: &BoundedTask, assigned: &Assigned, best: Amount) -> bool
    requires { assigned.now.next ≤ length bounded.now.task.now.trains.items }
    ensures short { let bounds = bounded.now.bounds.now in
        IsTrue result → ArePrunedBySuffix bounded.now.task.now bounds assigned.now best }
    ensures whole { length assigned.now.used ≡ map_borders }
{
    assigned.marks_all_borders();
    let bounds = bounded.bounds;
    let left = bounded.task.train_count() - assigned.next;
    left < bounds.len() && assigned.total <= best && bounds[left] <= best - assigned.total
}

/// Returns how many trains from a place on may visit this many stops, of the first eight of them.
fn equals(task: &ReadyTask, next: usize, most: usize) -> usize
    requires { next ≤ length task.now.trains.items }
    ensures equal { AreEqual task.now next result most }
    ensures within { next + result ≤ length task.now.trains.items }
    ensures few { result ≤ 8 }
{
    for count in 0..8 {
        if count >= task.train_count() - next {
            return count;
        }
        if task.most_stops(next + count) != most {
            return count;
        }
    }
    8
}

/// Returns whether the trains from a place on can earn no more than what has been found. Each train
/// of the kind that ran last earns no more than the cap, in dollars. It may be false even if that
/// holds.
pub(crate) fn are_pruned_by_cap(
    bounded: &BoundedTask,
    next: usize,
    kind: usize,
    cap: Amount,
    total: Amount,
    best: Amount,
) -> bool
    requires { next ≤ length bounded.now.task.now.trains.items }
    ensures { IsTrue result → ArePrunedByCap bounded.now.task.now next kind cap total best }
{
    if kind == 0 || cap > 200_000 {
        return false;
    }
    let task = bounded.task;
    let bounds = bounded.bounds;
    let equal = equals(task, next, kind);
    let left = task.train_count() - next - equal;
    let most = equal as Amount * cap;
    if left >= bounds.len() || total > best || most > best - total {
        return false;
    }
    bounds[left] <= best - total - most
}

/// Tries all ways from a state between runs to the end. Runs come first: what they earn bounds what
/// is tried if the next train passes.
#[cycle(explore)]
pub(crate) fn assign_next(bounded: &BoundedTask, assigned: &Assigned, best: &mut Found)
    requires next { assigned.now.next ≤ length bounded.now.task.now.trains.items }
    requires room { HasRoom assigned.now.used assigned.now.total 44640 }
    ensures { Explores bounded.now.task.now (between assigned.now) best.old best.new }
{
    let task = bounded.task;
    task.is_ready();
    if assigned.next == task.train_count() {
        if best.amount < assigned.total {
            best.amount = assigned.total;
            best.move_path.clear();
        }
        return;
    }
    if is_pruned_by_suffix(bounded, assigned, best.amount) {
        return;
    }
    if are_pruned_by_cap(
        bounded,
        assigned.next,
        assigned.kind,
        assigned.cap,
        assigned.total,
        best.amount,
    ) {
        return;
    }
    let reach = reach(task, assigned);
    if is_pruned_by_reach(bounded, assigned, &reach, best.amount) {
        return;
    }
    let canonical = canonical(task, assigned, &reach.ahead);
    if best.dominates(&canonical) {
        return;
    }
    begin_runs(bounded, assigned, best);
    let before = best.amount;
    let passed = assigned.passed();
    assign_next(bounded, &passed, best);
    best.trace(before, Mark::Pass);
    best.keep(&canonical);
}

/// Tries all runs of the next train, from each token of the company.
#[cycle(explore)]
fn begin_runs(bounded: &BoundedTask, assigned: &Assigned, best: &mut Found)
    requires next { assigned.now.next < length bounded.now.task.now.trains.items }
    requires room { HasRoom assigned.now.used assigned.now.total 44640 }
    ensures { Tries bounded.now.task.now (between assigned.now) (IsBegin Any) best.old best.new }
{
    let task = bounded.task;
    task.is_ready();
    let mut before = Spots::none();
    for place in 0..task.home_count() {
        let stop = task.home(place);
        let node = task.node(stop);
        if node.stop {
            begin_at(bounded, assigned, stop, &before, best);
        }
        mark_own(task, stop, &mut before);
    }
}

/// Returns whether a run of the last train that has begun at a token can earn no more than what has
/// been found. It may be false even if that holds, and is false for an earlier train.
fn is_in_vain(bounded: &BoundedTask, assigned: &Assigned, run: &PartialRun, best: Amount) -> bool
    requires { MayLookAhead bounded.now.task.now assigned.now run.now }
    ensures { IsTrue result → IsInVain bounded.now.task.now assigned.now run.now best }
{
    let task = bounded.task;
    if assigned.next + 1 != task.train_count() || task.node(run.head).ends {
        return false;
    }
    ways_on(bounded, assigned, run, best).all_in_vain
}

/// Tries all runs of the next train that begin at a token of the company. The tokens before that
/// one are given.
#[cycle(explore)]
fn begin_at(
    bounded: &BoundedTask,
    assigned: &Assigned,
    stop: SpotNumber,
    before: &Spots,
    best: &mut Found,
)
    requires next { assigned.now.next < length bounded.now.task.now.trains.items }
    requires room { HasRoom assigned.now.used assigned.now.total 44640 }
    requires begins { IsStop bounded.now.task.now stop }
    requires token { own_in (node_at bounded.now.task.now stop) ≡ true }
    requires before { before.now ≡ own_before bounded.now.task.now stop }
    ensures { let from = between assigned.now in
        Tries bounded.now.task.now from (IsBeginAt stop Any) best.old best.new }
{
    let task = bounded.task;
    task.is_ready();
    assigned.marks_all_borders();
    let from = task.departures(stop);
    let begun = begun(task, assigned, stop, 0, before);
    if is_in_vain(bounded, assigned, &begun, best.amount) {
        return;
    }
    for index in 0..from.legs.len() {
        let leg = &from.legs[index];
        let run = begun.by(leg.first);
        let before = best.amount;
        take(bounded, assigned, &run, &leg.segment, best);
        best.trace_steps(before, &leg.steps);
    }
}

/// Tries all ways on from a segment, if the run may take it. Most segments may not be taken: it is
/// kept in line, so that these cost no call.
#[cycle(explore)]
#[inline(always)]
fn take(
    bounded: &BoundedTask,
    assigned: &Assigned,
    run: &PartialRun,
    segment: &Segment,
    best: &mut Found,
)
    requires next { assigned.now.next < length bounded.now.task.now.trains.items }
    requires segment { SegmentFits bounded.now.task.now false segment.now }
    requires to { stop_in (node_at bounded.now.task.now segment.now.to) ≡ true }
    requires begun { IsStop bounded.now.task.now run.now.home }
    requires room { HasRoom assigned.now.used (assigned.now.total + run.now.value) revenue_most }
    ensures { Takes bounded.now.task.now assigned.now run.now segment.now best.old best.new }
{
    let task = bounded.task;
    task.is_ready();
    if can_take(task, run, assigned, segment) {
        let next = along(task, run, segment);
        let using = assigned.using(segment);
        extend(bounded, &using, &next, best);
    }
}

/// Tries all ways to the end from a run that has begun. If it is the first one, others are left
/// after it, and many stops lie ahead, it looks up whether they have been tried before.
#[cycle(explore)]
fn extend(bounded: &BoundedTask, assigned: &Assigned, run: &PartialRun, best: &mut Found)
    requires { MayExtend bounded.now.task.now assigned.now run.now }
    ensures { Explores bounded.now.task.now (partial assigned.now run.now) best.old best.new }
{
    let task = bounded.task;
    if earns_too_much(task, assigned, run) {
        return;
    }
    let ways = ways_on(bounded, assigned, run, best.amount);
    if ways.all_in_vain {
        return;
    }
    if ways.stops < MANY || assigned.kind != 0 || assigned.next + 1 == task.train_count() {
        extend_without_memo(bounded, assigned, run, &ways, best);
    } else {
        extend_with_memo(bounded, assigned, run, &ways, best);
    }
}

/// Tries all ways to the end from a run that has begun, unless that was done before. It is kept out
/// of line, so that its caller stays short.
#[cycle(explore)]
#[inline(never)]
fn extend_with_memo(
    bounded: &BoundedTask,
    assigned: &Assigned,
    run: &PartialRun,
    ways: &WaysOn,
    best: &mut Found,
)
    requires may { MayExtend bounded.now.task.now assigned.now run.now }
    requires ways { AreWaysOn bounded.now.task.now assigned.now run.now best.old.amount ways.now }
    ensures { Explores bounded.now.task.now (partial assigned.now run.now) best.old best.new }
{
    let task = bounded.task;
    task.is_ready();
    assigned.marks_all_borders();
    let canonical = canonical_begun(task, assigned, run);
    if best.dominates(&canonical) {
        return;
    }
    extend_without_memo(bounded, assigned, run, ways, best);
    best.keep(&canonical);
}

/// Tries all ways to the end from a run that has begun. Longer runs come first, since they earn
/// more.
#[cycle(explore)]
#[inline(always)]
fn extend_without_memo(
    bounded: &BoundedTask,
    assigned: &Assigned,
    run: &PartialRun,
    ways: &WaysOn,
    best: &mut Found,
)
    requires may { MayExtend bounded.now.task.now assigned.now run.now }
    requires ways { AreWaysOn bounded.now.task.now assigned.now run.now best.old.amount ways.now }
    ensures { Explores bounded.now.task.now (partial assigned.now run.now) best.old best.new }
{
    go_on(bounded, assigned, run, ways, best);
    turn_back(bounded, assigned, run, ways, best);
    if may_finish(bounded.task, assigned, run) {
        let before = best.amount;
        let with_run_finished = assigned.with_run_finished(run);
        assign_next(bounded, &with_run_finished, best);
        best.trace(before, Mark::Finish);
    }
}

/// Tries all ways on from where a run is, except to stops where that is in vain.
#[cycle(explore)]
fn go_on(
    bounded: &BoundedTask,
    assigned: &Assigned,
    run: &PartialRun,
    ways: &WaysOn,
    best: &mut Found,
)
    requires may { MayExtend bounded.now.task.now assigned.now run.now }
    requires ways { AreWaysOn bounded.now.task.now assigned.now run.now best.old.amount ways.now }
    ensures { let from = partial assigned.now run.now in
        Tries bounded.now.task.now from (IsGo Any) best.old best.new }
{
    let task = bounded.task;
    task.is_ready();
    let head = task.node(run.head);
    if head.ends {
        return;
    }
    assigned.marks_all_borders();
    let from = task.departures(run.head);
    for index in 0..from.legs.len() {
        let leg = &from.legs[index];
        if !ways.vain.has_at(&leg.segment.to) {
            let before = best.amount;
            take(bounded, assigned, run, &leg.segment, best);
            best.trace_steps(before, &leg.steps);
        }
    }
}

/// Tries all ways on from where a run began, if it is at a stop, has not turned back before, and
/// does not turn back in vain.
#[cycle(explore)]
fn turn_back(
    bounded: &BoundedTask,
    assigned: &Assigned,
    run: &PartialRun,
    ways: &WaysOn,
    best: &mut Found,
)
    requires may { MayExtend bounded.now.task.now assigned.now run.now }
    requires ways { AreWaysOn bounded.now.task.now assigned.now run.now best.old.amount ways.now }
    ensures { let from = partial assigned.now run.now in
        Tries bounded.now.task.now from (IsTurn Any) best.old best.new }
{
    let task = bounded.task;
    task.is_ready();
    if run.turned || task.node(run.home).ends {
        return;
    }
    assigned.marks_all_borders();
    if ways.turns_in_vain {
        return;
    }
    let back = run.turned_back();
    let from = task.departures(run.home);
    for index in 0..from.legs.len() {
        let leg = &from.legs[index];
        if run.first <= leg.first {
            let before = best.amount;
            take(bounded, assigned, &back, &leg.segment, best);
            best.trace_steps(before, &leg.steps);
            best.trace(before, Mark::Turn);
        }
    }
}
