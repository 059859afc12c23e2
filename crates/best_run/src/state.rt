//! The states of the search: the trains assigned so far, and a run that has begun. Each has the
//! moves that lead on from it, and can be compared with another to see whether it is at least as
//! good.
ghost use Rattle.std.specs.Prelude.{◌≡◌, ◌+◌, ◌-◌, ◌*◌, ◌^◌, ◌<◌, ◌≤◌, IsTrue, false, length, true};
ghost use Rattle.search_task.specs.Fit.{BordersFit};
ghost use Rattle.best_run.specs.Memo.{Dominates, DominatesRun, IsBarred, TurnsAs};
ghost use Rattle.search_task.specs.Marks.{Freer};
ghost use Rattle.best_run.specs.Moves.{along, begun, begun_by, can_take, left_after, may_come, may_earn, may_finish};
ghost use Rattle.best_run.specs.Moves.{own_before, passed, with_run_finished, turned_back, using};
ghost use Rattle.legal_runs.specs.Legal.{map_borders};
ghost use Rattle.search_task.specs.Crossed.{marked_all, misses};
ghost use Rattle.search_task.specs.Spots.{node_at, stop_in};

use legal_runs::BORDERS;
use search_task::{BitPlace, Borders, ReadyTask, Segment, SpotNumber, Spots};
use tables::Amount;

/// The trains assigned so far.
#[derive(Drop)]
pub(crate) struct Assigned {
    /// The first train that is not assigned.
    pub(crate) next: usize,
    /// What the runs so far earn, in dollars.
    pub(crate) total: Amount,
    /// The most stops of the last train that ran; 0 if none has run.
    pub(crate) kind: usize,
    /// What the last run earned, in dollars: no later run of a train of this kind may earn more.
    pub(crate) cap: Amount,
    /// The borders that runs cross, including those of the run begun.
    pub(crate) used: Borders,
}

/// A run that has begun.
#[derive(Drop)]
pub(crate) struct PartialRun {
    /// Where it began: at a token of the company.
    pub(crate) home: SpotNumber,
    /// Which of the segments from there it begins by.
    pub(crate) first: usize,
    /// Whether it has turned back to where it began, and goes on from there.
    pub(crate) turned: bool,
    /// Where it is.
    pub(crate) head: SpotNumber,
    /// The most stops of its train.
    pub(crate) most: usize,
    /// How many more stops it may visit.
    pub(crate) left: usize,
    /// What its stops are worth, in dollars.
    pub(crate) value: Amount,
    /// The stops that it visits, and the company's tokens that are passed over.
    pub(crate) visited: Spots,
}

impl Assigned {
    /// States that each border has its mark. It does nothing; a proof calls it to use the law.
    pub(crate) fn marks_all_borders(&self)
        ensures { length self.now.used ≡ map_borders }
    {
        self.used.is_whole();
    }

    /// Returns the same state.
    pub(crate) fn copy(&self) -> Assigned
        ensures { result ≡ self.now }
    {
        Assigned {
            next: self.next,
            total: self.total,
            kind: self.kind,
            cap: self.cap,
            used: self.used.copy(),
        }
    }

    /// Returns whether each run that may follow another state may follow this one too, and earns as
    /// much. It may be false even if that holds.
    pub(crate) fn dominates(&self, other: &Assigned) -> bool
        ensures { IsTrue result → Dominates self.now other.now }
    {
        self.next == other.next
            && self.kind == other.kind
            && self.cap >= other.cap
            && self.total >= other.total
            && self.used.is_within(&other.used)
    }

    /// Returns the state after the next train does not run.
    pub(crate) fn passed(&self) -> Assigned
        requires { self.now.next < 2 ^ 63 }
        ensures { result ≡ passed self.now }
    {
        Assigned {
            next: self.next + 1,
            total: self.total,
            kind: self.kind,
            cap: self.cap,
            used: self.used.copy(),
        }
    }

    /// Returns whether a run earns no more than the last one of a train of its kind.
    fn may_earn(&self, run: &PartialRun) -> bool
        ensures { result ≡ may_earn self.now.kind self.now.cap run.now.most run.now.value }
    {
        self.kind == 0 || self.kind != run.most || run.value <= self.cap
    }

    /// Returns the state after the run begun is finished.
    pub(crate) fn with_run_finished(&self, run: &PartialRun) -> Assigned
        requires next { self.now.next < 2 ^ 63 }
        requires room { self.now.total + run.now.value ≤ 44640 }
        ensures { result ≡ with_run_finished self.now run.now }
    {
        Assigned {
            next: self.next + 1,
            total: self.total + run.value,
            kind: run.most,
            cap: run.value,
            used: self.used.copy(),
        }
    }

    /// Returns the state with the borders of a segment used.
    pub(crate) fn using(&self, segment: &Segment) -> Assigned
        ensures using { result ≡ using self.now segment.now }
        ensures whole { length self.now.used ≡ map_borders }
    {
        self.used.is_whole();
        Assigned {
            next: self.next,
            total: self.total,
            kind: self.kind,
            cap: self.cap,
            used: segment.borders.marked_in(&self.used),
        }
    }
}

impl PartialRun {
    /// Returns the same run.
    pub(crate) fn copy(&self) -> PartialRun
        ensures { result ≡ self.now }
    {
        self.by(self.first)
    }

    /// Returns whether the run may go on wherever another one may, and then earns no less. It may
    /// be false even if that holds.
    pub(crate) fn dominates(&self, other: &PartialRun) -> bool
        ensures { IsTrue result → DominatesRun self.now other.now }
    {
        self.head.index() == other.head.index()
            && self.turned == other.turned
            && self.most == other.most
            && self.may_turn_as(other)
            && (self.left >= other.left || self.left >= BORDERS)
            && self.value >= other.value
            && self.visited.is_within(&other.visited)
    }

    /// Returns whether the run may turn back if another one may. Neither may if both have done so.
    fn may_turn_as(&self, other: &PartialRun) -> bool
        ensures { IsTrue result → TurnsAs self.now other.now }
    {
        other.turned || (self.home.index() == other.home.index() && self.first == other.first)
    }

    /// Returns the same run, with all stops that are not in reach counted as visited.
    pub(crate) fn within(&self, reach: &Spots) -> PartialRun
        ensures { IsBarred reach.now self.now result }
    {
        PartialRun {
            home: self.home,
            first: self.first,
            turned: self.turned,
            head: self.head,
            most: self.most,
            left: self.left,
            value: self.value,
            visited: self.visited.or_out_of(reach),
        }
    }

    /// Returns the same run, begun by the segment at another place.
    pub(crate) fn by(&self, first: usize) -> PartialRun
        ensures { result ≡ begun_by self.now first }
    {
        PartialRun {
            home: self.home,
            first,
            turned: self.turned,
            head: self.head,
            most: self.most,
            left: self.left,
            value: self.value,
            visited: self.visited.copy(),
        }
    }

    /// Returns the run turned back to where it began.
    pub(crate) fn turned_back(&self) -> PartialRun
        ensures { result ≡ turned_back self.now }
    {
        PartialRun {
            home: self.home,
            first: self.first,
            turned: true,
            head: self.home,
            most: self.most,
            left: self.left,
            value: self.value,
            visited: self.visited.copy(),
        }
    }

    /// Returns whether the run may still visit a stop.
    fn may_come(&self, stop: &BitPlace) -> bool
        ensures { result ≡ may_come true self.now stop.now }
    {
        !self.visited.has_at(stop) && self.left > 0
    }
}

/// Returns how many stops are left after a spot, which may be a stop.
fn left_after(stop: bool, left: usize) -> usize
    ensures { result ≡ left_after stop left }
{
    if stop { left.saturating_sub(1) } else { left }
}

/// Returns whether a run may take a segment to a stop.
pub(crate) fn can_take(
    task: &ReadyTask,
    run: &PartialRun,
    assigned: &Assigned,
    segment: &Segment,
) -> bool
    requires { stop_in (node_at task.now segment.now.to) ≡ true }
    ensures { result ≡ can_take task.now run.now assigned.now.used segment.now }
{
    run.may_come(&segment.to) && segment.borders.misses(&assigned.used)
}

/// Marks a spot after those before it, if the company has a token there.
pub(crate) fn mark_own(task: &ReadyTask, spot: SpotNumber, marks: &mut Spots)
    requires { marks.old ≡ own_before task.now spot }
    ensures { marks.new ≡ own_before task.now (spot + 1) }
{
    if task.node(spot).own {
        marks.mark(spot.index());
    }
}

/// Returns a run that is at the token where it begins, by the segment at a place. The tokens before
/// that one are given.
pub(crate) fn begun(
    task: &ReadyTask,
    assigned: &Assigned,
    stop: SpotNumber,
    first: usize,
    before: &Spots,
) -> PartialRun
    requires next { assigned.now.next < length task.now.trains.items }
    requires before { before.now ≡ own_before task.now stop }
    ensures { result ≡ begun task.now assigned.now stop first }
{
    let mut visited = before.copy();
    visited.mark(stop.index());
    PartialRun {
        home: stop,
        first,
        turned: false,
        head: stop,
        most: task.most_stops(assigned.next),
        left: task.most_stops(assigned.next).saturating_sub(1),
        value: task.node(stop).value,
        visited,
    }
}

/// Returns whether a run may be finished.
pub(crate) fn may_finish(task: &ReadyTask, assigned: &Assigned, run: &PartialRun) -> bool
    ensures { result ≡ may_finish task.now assigned.now run.now }
{
    task.node(run.head).stop && assigned.may_earn(run)
}

/// Returns a run after a segment.
pub(crate) fn along(task: &ReadyTask, run: &PartialRun, segment: &Segment) -> PartialRun
    requires { run.now.value ≤ 50000 }
    ensures { result ≡ along task.now run.now segment.now }
{
    task.is_ready();
    let to = segment.to.number();
    let node = task.node(to);
    let mut visited = run.visited.copy();
    if node.stop {
        visited.mark(to.index());
    }
    PartialRun {
        home: run.home,
        first: run.first,
        turned: run.turned,
        head: to,
        most: run.most,
        left: left_after(node.stop, run.left),
        value: run.value + node.value,
        visited,
    }
}
