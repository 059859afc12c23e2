//! The spots of a position, and the segments of track that lead from them.
ghost use Rattle.std.specs.Prelude.{◌≡◌, ◌+◌, ◌<◌, ◌≤◌, ◌%◌, IfOk, OnOk, Some, option_to_list};
ghost use Rattle.legal_runs.specs.Legal.{border_at};
ghost use Rattle.search_task.specs.Described.{AreLaid, AreNumbered, AreNumberedBefore, Describes, IsSegmentOf};
ghost use Rattle.search_task.specs.Described.{IsSideNode, IsStopNode, LaidBefore, TakesStep, most_of, most_of_all};
ghost use Rattle.search_task.specs.Described.{number_before, number_or_none};
ghost use Rattle.search_task.specs.Fit.{IsFit};
ghost use Rattle.search_task.specs.Legs.{AreHomes};
ghost use Rattle.map_tables.specs.Hex.{index_of};
ghost use Rattle.map_tables.specs.Place.{stop_index_of};
ghost use Rattle.reach.specs.Lawful.{IsLawful};
ghost use Rattle.reach.specs.Search.{map_spots};
ghost use Rattle.reach.specs.Walk.{entered_at};
ghost use Rattle.tables.specs.Train.{stops_of};

use crate::outgoing_segment::Stretch;
use crate::ready_task::ReadyTask;
use crate::segments::Segments;
use crate::spot_number::SpotNumber;
use crate::task::{Node, Task};
use legal_runs::border_to;
use map_tables::{ENDS, HEXES, Hex, SIDES, Stop, StopNumber, TrackEnd, neighbour};
use reach::{Network, SPOTS, Spot, WalkStep, spot_number};
use std::alloc::{AllocError, Global};
use tables::{Company, Kind};

/// The spot from which a step may be taken.
#[derive(Clone, Copy)]
struct Origin {
    /// The number of the spot: the stop where the step is entered, or the other side of the border;
    /// `SPOTS` if there is none.
    number: usize,
    /// The border that is then crossed; `None` at a stop.
    border: Option<usize>,
}

/// Returns the spot from which a step that is entered at a spot may be taken.
fn origin_of(spot: Spot) -> Origin
    ensures number { result.number ≡ number_or_none (number_before spot.hex spot.end) }
    ensures border { option_to_list result.border ≡ border_at spot.hex spot.end }
{
    match spot.end {
        TrackEnd::Stop(_) => Origin {
            number: spot_number(spot),
            border: None,
        },
        TrackEnd::Side(side) => {
            let beyond = neighbour(spot.hex, side);
            let border = Some(border_to(spot.hex, side, beyond));
            match beyond {
                Some(hex) => {
                    let end = TrackEnd::Side(side.facing());
                    Origin {
                        number: spot_number(Spot { hex, end }),
                        border,
                    }
                }
                None => Origin {
                    number: SPOTS,
                    border,
                },
            }
        }
    }
}

/// Returns the segment of a step, over the border at which it is entered.
fn segment_of(step: WalkStep, border: Option<usize>) -> Stretch
    requires { let entered = entered_at step in option_to_list border ≡ border_at entered.hex
        entered.end }
    ensures { IsSegmentOf step result }
{
    let to = SpotNumber::of(spot_number(step.left()));
    Stretch::of(to, step, border)
}

/// Returns a side, which is worth nothing and holds no token.
fn side_node() -> Node
    ensures node { IsSideNode (Some result) }
    ensures value { result.value ≤ 80 }
{
    Node {
        stop: false,
        value: 0,
        own: false,
        ends: false,
    }
}

/// Returns what a stop is to a company.
fn stop_node<N: Network>(network: &N, company: Company, stop: Stop) -> Node
    ensures node { IsStopNode (N.position network.now) company stop (Some result) }
    ensures value { result.value ≤ 80 }
{
    network.keeps_laws();
    Node {
        stop: true,
        value: network.value(stop),
        own: network.token(stop, company),
        ends: network.red(stop) || network.full(stop, company),
    }
}

/// Returns the number of a stop, by its place among the ends of its hex.
fn stop_numbered(place: usize) -> StopNumber
    requires least { 6 ≤ place }
    requires most { place < 8 }
    ensures { 6 + stop_index_of result ≡ place }
{
    if place == SIDES {
        StopNumber::First
    } else {
        StopNumber::Second
    }
}

/// Sets what the next stop is to a company.
fn lay_stop<N: Network>(network: &N, company: Company, stop: usize, nodes: &mut Vec<Node>)
    requires least { 6 ≤ stop % 8 }
    requires most { stop < map_spots }
    requires before { AreNumberedBefore (N.position network.now) company stop nodes.old.items }
    ensures { let position = N.position network.now in
        AreNumberedBefore position company (stop + 1) nodes.new.items }
{
    let hex = Hex::at_index(stop / ENDS);
    let number = stop_numbered(stop % ENDS);
    nodes[stop] = stop_node(network, company, Stop { hex, number });
}

/// Returns all spots, by their numbers. Fails only if allocation fails.
fn all_spots<N: Network>(
    alloc: Global,
    network: &N,
    company: Company,
) -> Result<Vec<Node>, AllocError>
    ensures { let position = N.position network.now in
        IfOk result (λ nodes. AreNumbered position company nodes.items) }
{
    let mut nodes = Vec::new(alloc);
    nodes.resize(SPOTS, side_node())?;
    for hex in 0..HEXES {
        let stop = ENDS * hex + SIDES;
        lay_stop(network, company, stop, &mut nodes);
        lay_stop(network, company, stop + 1, &mut nodes);
    }
    Ok(nodes)
}

/// Adds the segment of a step to those of the spot from which it may be taken, if there is one.
/// Fails only if allocation fails.
fn add_step(step: WalkStep, segments: &mut Segments) -> Result<(), AllocError>
    ensures { OnOk result (TakesStep step segments.old segments.new) }
{
    let from = origin_of(step.entered());
    if from.number < SPOTS {
        let segment = segment_of(step, from.border);
        segments.add(SpotNumber::of(from.number), segment)?;
    }
    Ok(())
}

/// Adds the segments of the steps in a hex: each link in both directions. Fails only if allocation
/// fails.
fn add_steps<N: Network>(network: &N, hex: Hex, segments: &mut Segments) -> Result<(), AllocError>
    requires lawful { IsLawful (N.position network.now) }
    requires laid { LaidBefore (N.position network.now) (index_of hex) segments.old }
    ensures { let position = N.position network.now in
        OnOk result (LaidBefore position (index_of hex + 1) segments.new) }
{
    let links = network.links(hex);
    for link in links.as_slice() {
        let link = *link;
        add_step(
            WalkStep {
                link,
                turned: false,
            },
            segments,
        )?;
        add_step(WalkStep { link, turned: true }, segments)?;
    }
    Ok(())
}

/// Returns the segments from all spots. Fails only if allocation fails.
fn all_segments<N: Network>(alloc: Global, network: &N) -> Result<Segments, AllocError>
    requires { IsLawful (N.position network.now) }
    ensures { IfOk result (AreLaid (N.position network.now)) }
{
    let mut segments = Segments::new(alloc)?;
    for index in 0..HEXES {
        add_steps(network, Hex::at_index(index), &mut segments)?;
    }
    Ok(segments)
}

/// Returns the most stops of a run of a train. The number of borders allows no more than 280, so a
/// D gets more than it can use.
fn most_of(kind: Kind) -> usize
    ensures { result ≡ most_of (stops_of kind) }
{
    match kind.stops() {
        Some(most) => most,
        None => 560,
    }
}

/// Returns the most stops of a run, for each train. Fails only if allocation fails.
fn most_of_all(alloc: Global, kinds: &[Kind]) -> Result<Vec<usize>, AllocError>
    ensures { IfOk result (λ most. most.items ≡ most_of_all kinds.now) }
{
    let mut most = Vec::with_capacity(alloc, kinds.len())?;
    for kind in kinds {
        most.push(most_of(*kind))?;
    }
    Ok(most)
}

impl Task {
    /// Lists the next spot, if the company has a token there. Fails only if allocation fails.
    fn list_home(&self, spot: usize, homes: &mut Vec<SpotNumber>) -> Result<(), AllocError>
        requires fit { IsFit self.now }
        requires spot { spot < map_spots }
        requires before { AreHomes self.now 0 spot homes.old.items }
        ensures { OnOk result (AreHomes self.now 0 (spot + 1) homes.new.items) }
    {
        if self.spots[spot].own {
            homes.push(SpotNumber::of(spot))?;
        }
        Ok(())
    }

    /// Returns the spots where the company has tokens, by their numbers, in order. Fails only if
    /// allocation fails.
    fn all_homes(&self, alloc: Global) -> Result<Vec<SpotNumber>, AllocError>
        requires { IsFit self.now }
        ensures { IfOk result (λ homes. AreHomes self.now 0 map_spots homes.items) }
    {
        let mut homes = Vec::new(alloc);
        for hex in 0..HEXES {
            let stop = ENDS * hex + SIDES;
            self.list_home(stop, &mut homes)?;
            self.list_home(stop + 1, &mut homes)?;
        }
        Ok(homes)
    }
}

impl ReadyTask {
    /// Returns the task of a search for the trains of a company. Fails only if allocation fails.
    pub fn of<N: Network>(
        alloc: Global,
        network: &N,
        company: Company,
        kinds: &[Kind],
    ) -> Result<ReadyTask, AllocError>
        requires { IsLawful (N.position network.now) }
        ensures { let position = N.position network.now in
            IfOk result (Describes position company kinds.now) }
    {
        let spots = all_spots(alloc, network, company)?;
        let segments = all_segments(alloc, network)?;
        let trains = most_of_all(alloc, kinds)?;
        let mut task = Task {
            spots,
            segments,
            departures: Vec::new(alloc),
            stops: Vec::new(alloc),
            homes: Vec::new(alloc),
            trains,
            mirrored: false,
        };
        let departures = task.all_departures(alloc)?;
        task.departures = departures;
        let stops = task.all_stops(alloc)?;
        task.stops = stops;
        let homes = task.all_homes(alloc)?;
        task.homes = homes;
        task.mirrored = task.is_mirrored();
        Ok(ReadyTask { task })
    }
}
