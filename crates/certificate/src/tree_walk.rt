//! The walk over the choice tree of a company's trains. It is at a node, and changes its marks in
//! place: it marks a border or a stop, goes on, and removes the mark again.
ghost use Rattle.std.specs.Prelude.{◌≡◌, ◌+◌, ◌-◌, ◌*◌, ◌<◌, ◌≤◌, ◌∷◌, [], ◌++◌, ◌||◌, ◌==◌, List, Bool, Option, None};
ghost use Rattle.std.specs.Prelude.{Some, false, get_or, length, drop, option_map, not, nat_lt};
ghost use Rattle.std.specs.List.{list_any};
ghost use Rattle.map_tables.specs.Place.{joined_stop_of};
ghost use Rattle.map_tables.specs.declared.place.Stop.{Stop};
ghost use Rattle.map_tables.specs.Track.{end_order};
ghost use Rattle.map_tables.specs.declared.track.Link.{Link};
ghost use Rattle.map_tables.specs.declared.track.TrackEnd.{TrackEnd};
ghost use Rattle.reach.specs.Position.{IsAmong, Position, is_red, links_of, value_of};
ghost use Rattle.reach.specs.Reached.{stop_order};
ghost use Rattle.reach.specs.Walk.{across, entered_at, left_at, stop_of};
ghost use Rattle.reach.specs.declared.walk.WalkStep.{WalkStep};
ghost use Rattle.legal_runs.specs.Fault.{has_token_at_stop, is_full};
ghost use Rattle.legal_runs.specs.Legal.{listed, visited};
ghost use Rattle.legal_runs.specs.Set.{TrainRun, revenue_of_runs};
ghost use Rattle.certificate.specs.LinkEnds.{ends_of, place_left, way_into};
ghost use Rattle.certificate.specs.Tree.{bound, from_stop, goes_over, leads_on, node_if, run_borders, setting_out};
ghost use Rattle.certificate.specs.Tree.{taken_borders, with_step, with_steps, steps_at, steps_by, steps_from};
ghost use Rattle.certificate.specs.Walked.{capped};
ghost use Rattle.certificate.specs.Walking.{AreCrossed, AreVisited, Continues, Descends, IsTree, is_none_left, IsOnRun};
ghost use Rattle.certificate.specs.Walking.{IsBetweenRuns, WalksOver, may_take, node_at, node_from, reached_in};
ghost use Rattle.certificate.specs.Walking.{trains_of_tree};

use crate::decider::{Decider, Decision};
use crate::link_ends::{LinkEnds, order};
use crate::tree::Tree;
use legal_runs::{Used, border_to};
use map_tables::{Hex, Stop, TrackEnd};
use reach::{Network, Spot, StopMarks, end_at, twin};
use tables::Kind;

/// A run that is begun, and the trains after it.
#[derive(Clone, Copy)]
pub(crate) struct Begun {
    /// The train.
    pub(crate) kind: Kind,
    /// The place of the next train in the order of the trains.
    pub(crate) next: usize,
    /// What the trains from there on may earn, in dollars.
    pub(crate) later: u64,
    /// What the assigned runs and the stops of this run earn, in dollars.
    pub(crate) value: u64,
    /// How many stops the run may still visit; `None` for any number.
    pub(crate) left: Option<usize>,
    /// Whether the company has a token at a stop of the run.
    pub(crate) own_token: bool,
}

impl Begun {
    /// Returns the run, once it has visited one more stop.
    fn visiting<N: Network>(self, network: &N, tree: &Tree, stop: Stop) -> Begun
        ensures train { result.kind ≡ self.kind }
        ensures next { result.next ≡ self.next }
        ensures later { result.later ≡ self.later }
        ensures value { let position = N.position network.now in IsTree position tree.now →
            result.value ≡ capped (self.value + value_of position stop) }
        ensures left { result.left ≡ option_map (λ n. n - 1) self.left }
        ensures own { let position = N.position network.now in IsTree position tree.now →
            result.own_token
            ≡ (has_token_at_stop position tree.now.company stop || self.own_token) }
    {
        let facts = tree.known.at(network, tree.company, stop);
        Begun {
            kind: self.kind,
            next: self.next,
            later: self.later,
            value: self.value.saturating_add(facts.value as u64),
            left: match self.left {
                Some(most) => Some(most.saturating_sub(1)),
                None => None,
            },
            own_token: facts.own_token || self.own_token,
        }
    }

    /// Returns whether the run ends at a stop to which it has come.
    fn ends_at<N: Network>(&self, network: &N, tree: &Tree, stop: Stop) -> bool
        ensures { let position = N.position network.now in IsTree position tree.now →
            result ≡ (is_red position stop || (is_full position tree.now.company stop
            || is_none_left self.now.left)) }
    {
        tree.known.at(network, tree.company, stop).ends || self.left == Some(0)
    }
}

/// Returns the place of the end to which a link leads from an end, which is given by its place.
fn leads_to(ends: LinkEnds, entered: u8) -> Option<u8>
    ensures { (link : Link) (end : TrackEnd) → ends_of link ≡ ends → end_order end ≡ entered →
        result ≡ option_map place_left (way_into end link) }
{
    if ends.a == entered {
        return Some(ends.b);
    }
    if ends.b == entered {
        return Some(ends.a);
    }
    None
}

/// Decides at a node where a run is begun.
#[inline(always)]
fn ask<D: Decider>(tree: &Tree, begun: &Begun, seen: &StopMarks, decider: &mut D) -> Decision
    ensures { (position : Position) (crossed : List Bool) (assigned : List TrainRun)
        (steps : List WalkStep) →
        IsOnRun position tree.now begun.now crossed seen.now assigned steps (visited steps) →
        let node = node_at tree.now begun.now assigned steps in
        let amount = capped (bound position (reached_in tree.now) node) in
        D.decides decider.old amount false result decider.new }
{
    if decider.splits() {
        return Decision::Split;
    }
    let still = tree.may_earn(begun.left, seen) as u64;
    let bound = begun
        .value
        .saturating_add(still)
        .saturating_add(begun.later);
    decider.decide(bound, false)
}

/// Decides at the nodes at which no run is begun, beginning at a place in the order of the trains.
/// Each node is the first child of the one before, down to the first that is not split, or to the
/// leaf. Returns how far it came: the trains before that place must set out. Returns `None` if the
/// walk ends.
fn descend<D: Decider>(tree: &Tree, value: u64, first: usize, decider: &mut D) -> Option<usize>
    ensures { (position : Position) (assigned : List TrainRun) →
        IsBetweenRuns position tree.now value assigned →
        first ≤ length (trains_of_tree tree.now) →
        Descends D.decides position tree.now assigned first decider.old result decider.new }
{
    for place in first..tree.count {
        let bound = value.saturating_add(tree.may_earn_from(place));
        match decider.decide(bound, false) {
            Decision::Cut => return Some(place),
            Decision::Split => {}
            Decision::Stop => return None,
        }
    }
    match decider.decide(value, true) {
        Decision::Cut => Some(tree.count),
        Decision::Split => Some(tree.count),
        Decision::Stop => None,
    }
}

/// Walks over a node at which no run is begun.
#[cycle(walk)]
pub(crate) fn choose<N: Network, D: Decider>(
    network: &N,
    tree: &Tree,
    value: u64,
    first: usize,
    used: &mut Used,
    decider: &mut D,
) -> bool
    ensures walks { (assigned : List TrainRun) →
        IsBetweenRuns (N.position network.now) tree.now value assigned →
        AreCrossed used.old (run_borders assigned) →
        first ≤ length (trains_of_tree tree.now) →
        let nodes = node_from tree.now assigned first ∷ [] in
        WalksOver D.decides (N.position network.now) tree.now decider.old nodes result decider.new }
    ensures used { used.new ≡ used.old }
{
    let Some(deepest) = descend(tree, value, first, decider) else {
        return false;
    };
    let mut place = deepest;
    'trains: while first < place {
        place -= 1;
        if !set_out(network, tree, value, place, used, decider) {
            return false;
        }
    }
    true
}

/// Walks over the nodes at which the train at a place has set out, from each reached stop.
#[cycle(walk)]
fn set_out<N: Network, D: Decider>(
    network: &N,
    tree: &Tree,
    value: u64,
    place: usize,
    used: &mut Used,
    decider: &mut D,
) -> bool
    ensures walks { (assigned : List TrainRun) →
        IsBetweenRuns (N.position network.now) tree.now value assigned →
        AreCrossed used.old (run_borders assigned) →
        place < length (trains_of_tree tree.now) →
        let position = N.position network.now in
        let node = node_from tree.now assigned place in
        let nodes = setting_out position tree.now.company (reached_in tree.now) node in
        WalksOver D.decides position tree.now decider.old nodes result decider.new }
    ensures used { used.new ≡ used.old }
{
    let Some(kind) = tree.kind_at(place) else {
        return true;
    };
    let next = place.saturating_add(1);
    let still = Begun {
        kind,
        next,
        later: tree.may_earn_from(next),
        value,
        left: kind.stops(),
        own_token: false,
    };
    let mut seen = StopMarks::none();
    for stop in tree.reached.stops() {
        let begun = still.visiting(network, tree, *stop);
        seen.mark(*stop);
        let whole = leave(network, tree, *stop, &begun, used, &mut seen, decider);
        seen.unmark(*stop);
        if !whole {
            return false;
        }
    }
    true
}

/// Walks over the nodes at which the run has left a stop, in each hex where it lies.
#[cycle(walk)]
fn leave<N: Network, D: Decider>(
    network: &N,
    tree: &Tree,
    stop: Stop,
    begun: &Begun,
    used: &mut Used,
    seen: &mut StopMarks,
    decider: &mut D,
) -> bool
    ensures walks { (assigned : List TrainRun) (steps : List WalkStep) (stops : List Stop) →
        IsOnRun (N.position network.now) tree.now begun.now used.old seen.old assigned steps stops →
        ((step : WalkStep) → stop_of (entered_at step) ≡ Some stop → Continues steps stops step) →
        joined_stop_of stop ≡ stop →
        let position = N.position network.now in
        let node = node_at tree.now begun.now assigned steps in
        let nodes = with_steps (goes_over (taken_borders node)) node (steps_from position stop) in
        WalksOver D.decides position tree.now decider.old nodes result decider.new }
    ensures used { used.new ≡ used.old }
    ensures seen { seen.new ≡ seen.old }
{
    let end = TrackEnd::Stop(stop.number);
    let hex = stop.hex;
    let Some(other) = twin(hex) else {
        return follow(network, tree, Spot { hex, end }, begun, used, seen, decider);
    };
    let hex_first = Spot { hex: other, end };
    if !follow(network, tree, hex_first, begun, used, seen, decider) {
        return false;
    }
    follow(network, tree, Spot { hex, end }, begun, used, seen, decider)
}

/// Walks over the nodes at which the run has gone on by a link at a spot.
#[cycle(walk)]
fn follow<N: Network, D: Decider>(
    network: &N,
    tree: &Tree,
    at: Spot,
    begun: &Begun,
    used: &mut Used,
    seen: &mut StopMarks,
    decider: &mut D,
) -> bool
    ensures walks { (assigned : List TrainRun) (steps : List WalkStep) (stops : List Stop) →
        IsOnRun (N.position network.now) tree.now begun.now used.old seen.old assigned steps stops →
        ((step : WalkStep) → entered_at step ≡ at → Continues steps stops step) →
        let position = N.position network.now in
        let node = node_at tree.now begun.now assigned steps in
        let test = may_take (reached_in tree.now) node at.end in
        let nodes = with_steps test node (steps_at position at.hex at.end) in
        WalksOver D.decides position tree.now decider.old nodes result decider.new }
    ensures used { used.new ≡ used.old }
    ensures seen { seen.new ≡ seen.old }
{
    let entered = order(at.end);
    for ends in tree.links.at(at.hex) {
        if !take(
            network, tree, *ends, entered, at, begun, used, seen, decider,
        ) {
            return false;
        }
    }
    true
}

/// Walks over the node at which the run has gone on by a link at a spot, if it may. It may go over
/// a border that was not crossed, or from a border to a reached stop that it has not visited.
#[cycle(walk)]
#[inline(always)]
fn take<N: Network, D: Decider>(
    network: &N,
    tree: &Tree,
    ends: LinkEnds,
    entered: u8,
    at: Spot,
    begun: &Begun,
    used: &mut Used,
    seen: &mut StopMarks,
    decider: &mut D,
) -> bool
    ensures walks { (assigned : List TrainRun) (steps : List WalkStep) (stops : List Stop) →
        (link : Link) →
        IsOnRun (N.position network.now) tree.now begun.now used.old seen.old assigned steps stops →
        IsAmong link (links_of (N.position network.now) at.hex) → ends_of link ≡ ends →
        end_order at.end ≡ entered →
        ((step : WalkStep) → entered_at step ≡ at → Continues steps stops step) →
        let node = node_at tree.now begun.now assigned steps in
        let test = may_take (reached_in tree.now) node at.end in
        let nodes = with_steps test node (steps_by at.end link) in
        WalksOver D.decides (N.position network.now) tree.now
        decider.old nodes result decider.new }
    ensures used { used.new ≡ used.old }
    ensures seen { seen.new ≡ seen.old }
{
    let Some(place) = leads_to(ends, entered) else {
        return true;
    };
    let left = Spot {
        hex: at.hex,
        end: end_at(place),
    };
    let Some(stop) = left.stop() else {
        return cross(network, tree, left, begun, used, seen, decider);
    };
    let TrackEnd::Side(_) = at.end else {
        return true;
    };
    if !tree.reaches(stop) {
        return true;
    }
    if seen.has(stop) {
        return true;
    }
    arrive(network, tree, stop, begun, used, seen, decider)
}

/// Walks over the node at which the run has gone on to a stop, which it has not visited.
#[cycle(walk)]
fn arrive<N: Network, D: Decider>(
    network: &N,
    tree: &Tree,
    stop: Stop,
    begun: &Begun,
    used: &mut Used,
    seen: &mut StopMarks,
    decider: &mut D,
) -> bool
    ensures walks { (assigned : List TrainRun) (steps : List WalkStep) (stops : List Stop) →
        (step : WalkStep) →
        IsOnRun (N.position network.now) tree.now begun.now used.old seen.old assigned steps stops →
        Continues steps stops step → stop_of (left_at step) ≡ Some stop →
        let node = node_at tree.now begun.now assigned steps in
        let nodes = with_step node step ∷ [] in
        WalksOver D.decides (N.position network.now) tree.now
        decider.old nodes result decider.new }
    ensures used { used.new ≡ used.old }
    ensures seen { get_or seen.old (stop_order stop) false ≡ false → seen.new ≡ seen.old }
{
    let here = begun.visiting(network, tree, stop);
    seen.mark(stop);
    let whole = at_stop(network, tree, stop, &here, used, seen, decider);
    seen.unmark(stop);
    whole
}

/// Walks over the node at which the run has its head at a border, if the border was not crossed.
#[cycle(walk)]
fn cross<N: Network, D: Decider>(
    network: &N,
    tree: &Tree,
    head: Spot,
    begun: &Begun,
    used: &mut Used,
    seen: &mut StopMarks,
    decider: &mut D,
) -> bool
    ensures walks { (assigned : List TrainRun) (steps : List WalkStep) (stops : List Stop) →
        (step : WalkStep) →
        IsOnRun (N.position network.now) tree.now begun.now used.old seen.old assigned steps stops →
        Continues steps stops step → left_at step ≡ head → stop_of head ≡ None →
        let node = node_at tree.now begun.now assigned steps in
        let nodes = node_if (goes_over (taken_borders node) step) (with_step node step) in
        WalksOver D.decides (N.position network.now) tree.now
        decider.old nodes result decider.new }
    ensures used { used.new ≡ used.old }
    ensures seen { seen.new ≡ seen.old }
{
    let Some(beyond) = head.across() else {
        return true;
    };
    let TrackEnd::Side(side) = head.end else {
        return true;
    };
    let number = border_to(head.hex, side, Some(beyond.hex));
    if used.has(number) {
        return true;
    }
    used.add(number);
    let whole = at_border(network, tree, beyond, begun, used, seen, decider);
    used.remove(number);
    whole
}

/// Walks over the node at which the run has its head at a border, given the other side of that
/// border.
#[cycle(walk)]
fn at_border<N: Network, D: Decider>(
    network: &N,
    tree: &Tree,
    beyond: Spot,
    begun: &Begun,
    used: &mut Used,
    seen: &mut StopMarks,
    decider: &mut D,
) -> bool
    ensures walks { (assigned : List TrainRun) (before : List WalkStep) (step : WalkStep) →
        let steps = step ∷ before in let stops = visited steps in
        IsOnRun (N.position network.now) tree.now begun.now used.old seen.old assigned steps stops →
        stop_of (left_at step) ≡ None → across (left_at step) ≡ Some beyond →
        let nodes = node_at tree.now begun.now assigned steps ∷ [] in
        WalksOver D.decides (N.position network.now) tree.now
        decider.old nodes result decider.new }
    ensures used { used.new ≡ used.old }
    ensures seen { seen.new ≡ seen.old }
{
    match ask(tree, begun, seen, decider) {
        Decision::Cut => true,
        Decision::Split => follow(network, tree, beyond, begun, used, seen, decider),
        Decision::Stop => false,
    }
}

/// Walks over the node at which the run has reached a stop.
#[cycle(walk)]
fn at_stop<N: Network, D: Decider>(
    network: &N,
    tree: &Tree,
    stop: Stop,
    begun: &Begun,
    used: &mut Used,
    seen: &mut StopMarks,
    decider: &mut D,
) -> bool
    ensures walks { (assigned : List TrainRun) (before : List WalkStep) (step : WalkStep) →
        let steps = step ∷ before in let stops = visited steps in
        IsOnRun (N.position network.now) tree.now begun.now used.old seen.old assigned steps stops →
        2 ≤ length stops → stop_of (left_at step) ≡ Some stop →
        let nodes = node_at tree.now begun.now assigned steps ∷ [] in
        WalksOver D.decides (N.position network.now) tree.now
        decider.old nodes result decider.new }
    ensures used { used.new ≡ used.old }
    ensures seen { seen.new ≡ seen.old }
{
    match ask(tree, begun, seen, decider) {
        Decision::Cut => return true,
        Decision::Split => {}
        Decision::Stop => return false,
    }
    if !begun.own_token {
        return pass(network, tree, stop, begun, used, seen, decider);
    }
    if !choose(network, tree, begun.value, begun.next, used, decider) {
        return false;
    }
    pass(network, tree, stop, begun, used, seen, decider)
}

/// Walks over the nodes at which the run has passed the stop to which it has come.
#[cycle(walk)]
fn pass<N: Network, D: Decider>(
    network: &N,
    tree: &Tree,
    stop: Stop,
    begun: &Begun,
    used: &mut Used,
    seen: &mut StopMarks,
    decider: &mut D,
) -> bool
    ensures walks { (assigned : List TrainRun) (before : List WalkStep) (step : WalkStep) →
        let steps = step ∷ before in let stops = visited steps in
        IsOnRun (N.position network.now) tree.now begun.now used.old seen.old assigned steps stops →
        stop_of (left_at step) ≡ Some stop →
        let position = N.position network.now in
        let node = node_at tree.now begun.now assigned steps in
        let reached = reached_in tree.now in
        let nodes = from_stop position tree.now.company reached node begun.now.kind stop in
        WalksOver D.decides position tree.now decider.old nodes result decider.new }
    ensures used { used.new ≡ used.old }
    ensures seen { seen.new ≡ seen.old }
{
    if begun.ends_at(network, tree, stop) {
        return true;
    }
    leave(network, tree, stop, begun, used, seen, decider)
}
