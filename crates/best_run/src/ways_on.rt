//! The ways on from a run that are worth trying: to which stops it may go on, and whether it may
//! turn back.
ghost use Rattle.std.specs.Prelude.{◌≡◌, ℕ, ◌<◌, ◌≤◌, IsTrue, List, false, replicate, true};
ghost use Rattle.search_task.specs.declared.task.Node.{Node};
ghost use Rattle.best_run.specs.Ahead.{EndsAtMost, IsWorth, goes_back, goes_on};
ghost use Rattle.best_run.specs.EndStops.{EarnsAhead, HasWorth};
ghost use Rattle.best_run.specs.Extend.{MayLookAhead};
ghost use Rattle.best_run.specs.WaysOn.{AreFound, AreWaysOn, IsLow, IsWayAdded, KnowsHome, TurnsInVain};
ghost use Rattle.reach.specs.Search.{map_spots};
ghost use Rattle.search_task.specs.Legs.{IsStop};

use crate::bounded_task::BoundedTask;
use crate::lookahead::{Outlook, leads_on, look_at, look_back, nothing_ahead};
use crate::search::are_pruned_by_cap;
use crate::state::{Assigned, PartialRun, can_take};
use reach::SPOTS;
use search_task::{ReadyTask, SpotNumber, Spots};
use tables::Amount;

/// The ways on from a run: to the stops ahead, or back to where it began.
#[derive(Drop)]
pub(crate) struct WaysOn {
    /// The stops that lie ahead.
    pub(crate) ahead: Spots,
    /// How many these are. A stop at which runs end counts once for each way to it.
    pub(crate) stops: usize,
    /// The stops to which the run goes on in vain: it cannot earn more than what has been found.
    pub(crate) vain: Spots,
    /// Whether it turns back in vain.
    pub(crate) turns_in_vain: bool,
    /// Whether all ways on are in vain.
    pub(crate) all_in_vain: bool,
}

impl WaysOn {
    /// Returns ways on of which nothing is known: none is known to be in vain.
    fn unknown() -> WaysOn
        ensures vain { result.vain ≡ replicate map_spots false }
        ensures turns { result.turns_in_vain ≡ false }
        ensures all { result.all_in_vain ≡ false }
    {
        WaysOn {
            ahead: Spots::none(),
            stops: 0,
            vain: Spots::none(),
            turns_in_vain: false,
            all_in_vain: false,
        }
    }

    /// Adds the stops of one more way. A run that takes it may earn too little.
    fn add(&mut self, way: &Outlook, in_vain: bool)
        ensures { IsWayAdded way.now.ahead in_vain self.old self.new }
    {
        self.ahead = self.ahead.with(&way.ahead);
        self.stops = self.stops.wrapping_add(way.stops);
        if in_vain {
            self.vain = self.vain.with(&way.ahead);
        } else {
            self.all_in_vain = false;
        }
    }
}

/// Returns whether a run may go on from where it is.
fn goes_on(task: &ReadyTask, run: &PartialRun) -> bool
    ensures { result ≡ goes_on task.now run.now }
{
    let node = task.node(run.head);
    !node.ends
}

/// Returns whether a run may still go on from where it began.
fn goes_back(task: &ReadyTask, run: &PartialRun) -> bool
    ensures { result ≡ goes_back task.now run.now }
{
    let node = task.node(run.home);
    !run.turned && !node.ends
}

/// Returns the most that a run may still earn, in dollars, by what lies ahead.
fn most_ahead(task: &ReadyTask, assigned: &Assigned, run: &PartialRun, outlook: &Outlook) -> Amount
    requires left { run.now.left ≤ map_spots }
    requires known { HasWorth task.now assigned.now run.now outlook.now.ahead outlook.now.worth }
    ensures most { EarnsAhead task.now assigned.now run.now outlook.now.ahead result }
    ensures bound { result ≤ 119200 }
{
    task.is_ready();
    let on = goes_on(task, run);
    let back = goes_back(task, run);
    outlook.worth.least(run.left as Amount, on, back)
}

/// Returns whether a run and the trains after it can earn no more than what has been found, by what
/// lies ahead and by what those trains earn by themselves. It may be false even if that holds.
fn earns_too_little(
    bounded: &BoundedTask,
    assigned: &Assigned,
    run: &PartialRun,
    outlook: &Outlook,
    best: Amount,
) -> bool
    requires may { MayLookAhead bounded.now.task.now assigned.now run.now }
    requires known { let task = bounded.now.task.now in
        HasWorth task assigned.now run.now outlook.now.ahead outlook.now.worth }
    ensures { let task = bounded.now.task.now in
        IsTrue result → IsLow task assigned.now run.now outlook.now.ahead best }
{
    let task = bounded.task;
    let later = task.train_count() - assigned.next - 1;
    if run.left > SPOTS || later >= bounded.bounds.len() {
        return false;
    }
    let most = run.value + most_ahead(task, assigned, run, outlook);
    let total = assigned.total + most;
    if total > best {
        return false;
    }
    if bounded.bounds[later] <= best - total {
        return true;
    }
    are_pruned_by_cap(bounded, assigned.next + 1, run.most, most, total, best)
}

/// Returns whether a run earns more than it may after another one of a train of its kind.
pub(crate) fn earns_too_much(task: &ReadyTask, assigned: &Assigned, run: &PartialRun) -> bool
    ensures { IsTrue result → (best : ℕ) → EndsAtMost task.now assigned.now run.now best }
{
    if assigned.kind == 0 || assigned.kind != run.most {
        return false;
    }
    run.value > assigned.cap
}

/// Finds what lies ahead of a run once it turns back, for which nothing has been found yet.
fn look_home(task: &ReadyTask, assigned: &Assigned, run: &PartialRun, home: &mut Outlook)
    requires begun { IsStop task.now run.now.home }
    requires nothing { home.old.ahead ≡ replicate map_spots false }
    requires known { (nodes : List Node)
        → IsWorth nodes (replicate map_spots false) home.old.worth }
    ensures { KnowsHome task.now assigned.now run.now home.new }
{
    assigned.marks_all_borders();
    run.visited.is_whole();
    if !run.turned {
        look_back(task, assigned, run, home);
    }
}

/// Returns whether a run that turns back can earn no more than what has been found, by what lies
/// ahead then. It may be false even if that holds.
fn turns_in_vain(
    bounded: &BoundedTask,
    assigned: &Assigned,
    run: &PartialRun,
    home: &Outlook,
    best: Amount,
) -> bool
    requires may { MayLookAhead bounded.now.task.now assigned.now run.now }
    requires home { KnowsHome bounded.now.task.now assigned.now run.now home.now }
    ensures { IsTrue result → TurnsInVain bounded.now.task.now assigned.now run.now best }
{
    bounded.task.is_ready();
    if run.turned {
        return true;
    }
    let back = run.turned_back();
    earns_too_little(bounded, assigned, &back, home, best)
}

/// Returns the ways on to the stops that lie ahead once the run turns back. The others are not yet
/// looked at.
fn ways_home(
    bounded: &BoundedTask,
    assigned: &Assigned,
    run: &PartialRun,
    home: &Outlook,
    best: Amount,
) -> WaysOn
    requires may { MayLookAhead bounded.now.task.now assigned.now run.now }
    requires home { KnowsHome bounded.now.task.now assigned.now run.now home.now }
    ensures { AreFound bounded.now.task.now assigned.now run.now best home.now.ahead 0 result }
{
    bounded.task.is_ready();
    let turns_in_vain = turns_in_vain(bounded, assigned, run, home, best);
    let mut ways = WaysOn {
        ahead: home.ahead.copy(),
        stops: home.stops,
        vain: Spots::none(),
        turns_in_vain,
        all_in_vain: false,
    };
    if earns_too_little(bounded, assigned, run, home, best) {
        ways.vain = home.ahead.copy();
        ways.all_in_vain = turns_in_vain;
    }
    ways
}

/// Returns the ways on from a run by the legs from where it is, with those home. What lies ahead
/// once it turns back is given.
fn look_on(
    bounded: &BoundedTask,
    assigned: &Assigned,
    run: &PartialRun,
    home: &Outlook,
    best: Amount,
) -> WaysOn
    requires may { MayLookAhead bounded.now.task.now assigned.now run.now }
    requires home { KnowsHome bounded.now.task.now assigned.now run.now home.now }
    ensures ways { AreWaysOn bounded.now.task.now assigned.now run.now best result }
    ensures most { result.all_in_vain ≡ true
        → EndsAtMost bounded.now.task.now assigned.now run.now best }
{
    let task = bounded.task;
    task.is_ready();
    let mut ways = ways_home(bounded, assigned, run, home, best);
    if task.node(run.head).ends {
        return ways;
    }
    let from = task.departures(run.head);
    let legs = from.legs.as_slice();
    for index in 0..legs.len() {
        let leg = &legs[index];
        if leads_on(task, assigned, run, &leg.segment, &ways.ahead) {
            let mut way = home.copy();
            look_at(task, assigned, run, leg.segment.to.number(), &mut way);
            let in_vain = earns_too_little(bounded, assigned, run, &way, best);
            way.stops = way.stops.wrapping_sub(home.stops);
            ways.add(&way, in_vain);
        }
    }
    ways
}

/// Returns how many legs from a stop a run may take, of those that begin by a segment at this place
/// or later, up to two. Any number would do: it decides whether the search looks ahead.
fn count_ways(
    task: &ReadyTask,
    assigned: &Assigned,
    run: &PartialRun,
    stop: SpotNumber,
    first: usize,
) -> usize
    requires stop { IsStop task.now stop }
{
    task.is_ready();
    let mut count: usize = 0;
    if task.node(stop).ends {
        return count;
    }
    let from = task.departures(stop);
    for index in 0..from.legs.len() {
        let leg = &from.legs[index];
        if first <= leg.first && can_take(task, run, assigned, &leg.segment) {
            if count > 0 {
                return 2;
            }
            count = 1;
        }
    }
    count
}

/// Returns whether a run has one way on at most. To try that way costs less than to look ahead.
fn has_one_way(task: &ReadyTask, assigned: &Assigned, run: &PartialRun) -> bool
    requires at_stop { IsStop task.now run.now.head }
    requires begun { IsStop task.now run.now.home }
{
    let on = count_ways(task, assigned, run, run.head, 0);
    if on > 1 || run.turned {
        return on <= 1;
    }
    on.saturating_add(count_ways(task, assigned, run, run.home, run.first)) <= 1
}

/// Returns the ways on from a run. Ways that are not known to be in vain may be so too. For a run
/// with one way on nothing is known.
pub(crate) fn ways_on(
    bounded: &BoundedTask,
    assigned: &Assigned,
    run: &PartialRun,
    best: Amount,
) -> WaysOn
    requires { MayLookAhead bounded.now.task.now assigned.now run.now }
    ensures ways { AreWaysOn bounded.now.task.now assigned.now run.now best result }
    ensures most { result.all_in_vain ≡ true
        → EndsAtMost bounded.now.task.now assigned.now run.now best }
{
    let task = bounded.task;
    if has_one_way(task, assigned, run) {
        return WaysOn::unknown();
    }
    let mut home = nothing_ahead(task, run.left);
    look_home(task, assigned, run, &mut home);
    look_on(bounded, assigned, run, &home, best)
}
