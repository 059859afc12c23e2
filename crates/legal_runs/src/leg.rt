//! The leg by which a train goes from one written place to the next, found in the track of both
//! hexes.
ghost use Rattle.std.specs.List.{list_any};
ghost use Rattle.std.specs.Prelude.{◌≡◌, ◌<◌, IfSome, find};
ghost use Rattle.map_tables.specs.Border.{neighbour_of};
ghost use Rattle.reach.specs.Position.{links_of};
ghost use Rattle.legal_runs.specs.Named.{is_hex, leg_to, same_link, side_towards, step_between, step_over};

use map_tables::{Hex, Link, Links, Place, Side, TrackEnd, neighbour};
use reach::{Network, Spot, WalkStep};

/// What leads a train from where it is to its next place. It is a step to the border between their
/// hexes, and, if the place has a stop, a step on to that stop.
#[derive(Clone, Copy)]
pub(crate) struct Leg {
    pub(crate) first: WalkStep,
    pub(crate) second: Option<WalkStep>,
    /// Where the train is then: at the stop, or at the side of the hex at that border.
    pub(crate) at: Spot,
}

/// Returns the leg that leads a train to a place, if there is such track. `links` has the links of
/// the hex where the train is, and then those of the place's hex, so that the network is asked for
/// the links of a hex only once.
#[tactic(auto, unfolding(crate::specs::Named::leg_to))]
pub(crate) fn leg_to<N: Network>(
    network: &N,
    at: Spot,
    place: Place,
    links: &mut Links,
) -> Option<Leg>
    requires { links.old.items ≡ links_of (N.position network.now) at.hex }
    ensures leg { result ≡ leg_to (N.position network.now) at place }
    ensures links { IfSome result (λ leg.
        links.new.items ≡ links_of (N.position network.now) leg.at.hex) }
{
    let side = side_towards(at.hex, place.hex)?;
    let first = step_between(network, links, at.hex, at.end, TrackEnd::Side(side))?;
    let border = TrackEnd::Side(side.facing());
    *links = network.links(place.hex);
    match place.stop {
        None => Some(Leg {
            first,
            second: None,
            at: Spot {
                hex: place.hex,
                end: border,
            },
        }),
        Some(number) => {
            let stop = TrackEnd::Stop(number);
            let second = step_between(network, links, place.hex, border, stop)?;
            Some(Leg {
                first,
                second: Some(second),
                at: Spot {
                    hex: place.hex,
                    end: stop,
                },
            })
        }
    }
}

/// Returns the side of a hex at which another lies; `None` if they are not neighbours.
#[tactic(auto, unfolding(crate::specs::Named::side_towards))]
fn side_towards(hex: Hex, other: Hex) -> Option<Side>
    ensures { result ≡ side_towards hex other }
{
    map_tables::laws::sides_and_rotations_are_all();
    first_towards(&Side::ALL, hex, other)
}

/// Returns the first of some sides of a hex at which another lies.
fn first_towards(sides: &[Side], hex: Hex, other: Hex) -> Option<Side>
    ensures { result ≡ find (λ side. is_hex other (neighbour_of hex side)) sides.now }
{
    sides
        .iter()
        .copied()
        .find(|side| is_hex(other, neighbour(hex, *side)))
}

/// Returns whether a hex is the one sought.
fn is_hex(hex: Hex, found: Option<Hex>) -> bool
    ensures { result ≡ is_hex hex found }
{
    match found {
        Some(other) => other.index() == hex.index(),
        None => false,
    }
}

/// Returns the step from one end of a hex to another, if one of these links, which are those of the
/// hex, joins them.
#[tactic(auto, unfolding(crate::specs::Named::step_between))]
#[inline(always)]
fn step_between<N: Network>(
    _network: &N,
    links: &Links,
    hex: Hex,
    from: TrackEnd,
    to: TrackEnd,
) -> Option<WalkStep>
    requires { links.now.items ≡ links_of (N.position _network.now) hex }
    ensures { result ≡ step_between (N.position _network.now) hex from to }
{
    let step = step_over(hex, from, to);
    if has_link(links.as_slice(), step.link) {
        Some(step)
    } else {
        None
    }
}

/// Returns whether a link is among some.
fn has_link(links: &[Link], link: Link) -> bool
    ensures { result ≡ list_any (λ other. same_link other link) links.now }
{
    links.iter().any(|other| same_link(*other, link))
}

/// Returns whether two links are the same, by their numbers, with which the prover can compute.
fn same_link(link: Link, other: Link) -> bool
    ensures { result ≡ same_link link other }
{
    link.hex.index() == other.hex.index()
        && link.a.order() == other.a.order()
        && link.b.order() == other.b.order()
}

/// Returns the step from one end of a hex to another by the link that would join them.
fn step_over(hex: Hex, from: TrackEnd, to: TrackEnd) -> WalkStep
    ensures { result ≡ step_over hex from to }
{
    if to.order() < from.order() {
        WalkStep {
            link: Link {
                hex,
                a: to,
                b: from,
            },
            turned: true,
        }
    } else {
        WalkStep {
            link: Link {
                hex,
                a: from,
                b: to,
            },
            turned: false,
        }
    }
}
