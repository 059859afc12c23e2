//! A run in full by its places, from the steps of its walk.
ghost use Rattle.std.specs.Prelude.{◌≡◌, ◌≤◌, length};
ghost use Rattle.reach.specs.Walk.{entered_at, left_at};
ghost use Rattle.legal_runs.specs.Written.{number_at, place_at, place_over, places_of};

use arrayvec::ArrayVec;
use map_tables::{Place, Run, StopNumber, TrackEnd};
use reach::{Spot, WalkStep};

/// Writes out a run by its places, from the steps of its walk. The latest step comes first, as in
/// the definitions. Each legal run has 2 to 280 places, which name its walk.
pub fn write_run(steps: &[WalkStep]) -> Run
    requires least { 2 ≤ length (places_of steps.now) }
    requires most { length (places_of steps.now) ≤ 280 }
    ensures { result ≡ places_of steps.now }
{
    let first = steps[steps.len() - 1];
    let mut places = ArrayVec::new();
    places.push(place_at(first.entered()));
    for step in steps.iter().rev() {
        if let Some(place) = place_over(*step) {
            places.push(place);
        }
    }
    Run::from_places(places).unwrap()
}

/// Returns the place that a step reaches over a border; `None` if it is entered at a stop.
fn place_over(step: WalkStep) -> Option<Place>
    ensures { result ≡ place_over (entered_at step).end (left_at step) }
{
    match step.entered().end {
        TrackEnd::Side(_) => Some(place_at(step.left())),
        TrackEnd::Stop(_) => None,
    }
}

/// Returns how a spot is written: by its hex, with the number of the stop if it is one.
fn place_at(spot: Spot) -> Place
    ensures { result ≡ place_at spot }
{
    Place {
        hex: spot.hex,
        stop: number_at(spot.end),
    }
}

/// Returns the number of the stop at an end, if it is one.
fn number_at(end: TrackEnd) -> Option<StopNumber>
    ensures { result ≡ number_at end }
{
    match end {
        TrackEnd::Side(_) => None,
        TrackEnd::Stop(number) => Some(number),
    }
}
