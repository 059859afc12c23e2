//! What a search works on: the spots of the map with what they are to a company, the segments and
//! legs that lead from them, and the trains.
ghost use Rattle.std.specs.Prelude.{◌≡◌};

use crate::bit_set::BitPlace;
use crate::crossing::Crossing;
use crate::segments::Segments;
use crate::spot_number::SpotNumber;
use crate::steps::Steps;
use reach::WalkStep;
use tables::Amount;

/// Track from one spot to another: the end of a leg, and in a contract each `Stretch`.
#[derive(Drop)]
pub struct Segment {
    /// The spot to which it leads, by its number.
    pub to: BitPlace,
    /// Its step; for a leg the last one.
    pub step: WalkStep,
    /// The borders that it crosses, by their numbers.
    pub borders: Crossing,
}

/// A spot, which is an end of a hex, with what it is to a company.
#[derive(Clone, Copy)]
pub struct Node {
    /// What it is worth, in dollars.
    pub value: Amount,
    /// Whether it is a stop.
    pub stop: bool,
    /// Whether the company has a token there.
    pub own: bool,
    /// Whether no run may pass through it: it is red, or full for the company.
    pub ends: bool,
}

/// A leg of plain track from a stop to the next one.
#[derive(Drop)]
pub struct Leg {
    /// The place of its first segment among those that lead from the stop.
    pub first: usize,
    /// The steps of its segments, in order.
    pub steps: Steps,
    /// The stop to which it leads, and the borders that it crosses.
    pub segment: Segment,
}

/// The legs from a stop.
#[derive(Drop)]
pub struct Departures {
    /// The legs, those of the fewest steps first.
    pub legs: Vec<Leg>,
}

/// What a search works on: the spots of the map, and how many stops each train may visit.
#[derive(Drop)]
pub struct Task {
    /// The spots, by their numbers.
    pub spots: Vec<Node>,
    /// The segments of track that lead from them.
    pub segments: Segments,
    /// For each spot that is a stop, by its number, the legs from there.
    pub departures: Vec<Departures>,
    /// The stops from which legs lead, by their numbers.
    pub stops: Vec<SpotNumber>,
    /// The spots where the company has tokens, by their numbers, in order.
    pub homes: Vec<SpotNumber>,
    /// For each train, the most stops of a run.
    pub trains: Vec<usize>,
    /// Whether each leg has a reverse.
    pub mirrored: bool,
}
