//! Whether a company can run a 2-train.
ghost use Rattle.std.specs.Prelude.{◌≡◌, ◌<◌, ◌⊎◌, ◌↔◌, IsTrue};
ghost use Rattle.map_tables.specs.Hex.{index_of};
ghost use Rattle.map_tables.specs.Place.{stop_at};
ghost use Rattle.map_tables.specs.declared.place.StopNumber.TheVariants.{First, Second};
ghost use Rattle.reach.specs.Lawful.{IsLawful};
ghost use Rattle.reach.specs.Position.{HasToken, IsAmong, links_of};
ghost use Rattle.reach.specs.Walk.{entered_at};
ghost use Rattle.reach.specs.declared.walk.WalkStep.{WalkStep};
ghost use Rattle.legal_runs.specs.TwoTrain.{CanRun, LeadsFrom, LeadsOn, LeavesToken, none_used};

use crate::used::Used;
use map_tables::{HEXES, Hex, Link, Stop, StopNumber};
use reach::{Network, Spot, WalkStep, stop_order};
use tables::Company;

/// Returns whether some run of a company is legal for a 2-train if no border is used. Track then
/// leads from a stop with its token to another stop, with no stop between. Allocates nothing.
pub fn can_run<N: Network>(network: &N, company: Company) -> bool
    ensures { IsTrue result ↔ CanRun (N.position network.now) company }
{
    network.keeps_laws();
    for index in 0..HEXES {
        if leaves_hex(network, company, Hex::at_index(index)) {
            return true;
        }
    }
    false
}

/// Returns whether such a run leaves its first stop by a link of a hex. It does not look at the
/// links of a hex without a token of the company.
fn leaves_hex<N: Network>(network: &N, company: Company, hex: Hex) -> bool
    requires { IsLawful (N.position network.now) }
    ensures { let position = N.position network.now in
        IsTrue result ↔ ((step : WalkStep) × IsAmong step.link (links_of position hex)
        × LeavesToken position company step) }
{
    has_token_in(network, company, hex) && leaves_in(network, company, hex)
}

/// Returns whether a company has a token at a stop of a hex.
fn has_token_in<N: Network>(network: &N, company: Company, hex: Hex) -> bool
    ensures { let position = N.position network.now in
        IsTrue result ↔ (HasToken position (stop_at hex First) company
        ⊎ HasToken position (stop_at hex Second) company) }
{
    let first = StopNumber::First;
    let second = StopNumber::Second;
    network.token(Stop { hex, number: first }, company)
        || network.token(
            Stop {
                hex,
                number: second,
            },
            company,
        )
}

/// Returns whether such a run leaves its first stop by a link of a hex.
fn leaves_in<N: Network>(network: &N, company: Company, hex: Hex) -> bool
    requires { IsLawful (N.position network.now) }
    ensures { let position = N.position network.now in
        IsTrue result ↔ ((step : WalkStep) × IsAmong step.link (links_of position hex)
        × LeavesToken position company step) }
{
    let links = network.links(hex);
    for link in links.as_slice() {
        if leaves_by(network, company, *link) {
            return true;
        }
    }
    false
}

/// Returns whether such a run leaves its first stop by a link, in either direction.
fn leaves_by<N: Network>(network: &N, company: Company, link: Link) -> bool
    requires { IsLawful (N.position network.now) }
    ensures { let position = N.position network.now in
        IsTrue result ↔ ((step : WalkStep) × (step.link ≡ link) × LeavesToken position company step) }
{
    let forward = WalkStep {
        link,
        turned: false,
    };
    let back = WalkStep { link, turned: true };
    leaves(network, company, forward) || leaves(network, company, back)
}

/// Returns whether such a run begins with a step.
fn leaves<N: Network>(network: &N, company: Company, step: WalkStep) -> bool
    requires { IsLawful (N.position network.now) }
    ensures { IsTrue result ↔ LeavesToken (N.position network.now) company step }
{
    match step.entered().stop() {
        Some(start) => leaves_stop(network, company, start, step),
        None => false,
    }
}

/// Returns whether a stop has a token of the company, and a step leads on from it.
fn leaves_stop<N: Network>(network: &N, company: Company, start: Stop, step: WalkStep) -> bool
    requires { IsLawful (N.position network.now) }
    ensures { let position = N.position network.now in
        IsTrue result
        ↔ (HasToken position start company × LeadsOn position start none_used step) }
{
    network.token(start, company) && leads_on(network, start, step, &Used::new())
}

/// Returns whether a step, and others after it, lead over unused borders to a stop that is not the
/// first one.
#[cycle(track)]
fn leads_on<N: Network>(network: &N, start: Stop, step: WalkStep, used: &Used) -> bool
    requires { IsLawful (N.position network.now) }
    ensures { let position = N.position network.now in
        IsTrue result ↔ LeadsOn position start used.now step }
{
    let left = step.left();
    if let Some(stop) = left.stop() {
        return is_other(stop, start);
    }
    let Some(next) = left.across() else {
        return false;
    };
    let Some(crossing) = used.over(next) else {
        return false;
    };
    let links = network.links(next.hex);
    for link in links.as_slice() {
        if leads_by_link(network, start, *link, next, &crossing) {
            return true;
        }
    }
    false
}

/// Returns whether a step by a link, in either direction, is entered at a spot and leads on.
#[cycle(track)]
fn leads_by_link<N: Network>(network: &N, start: Stop, link: Link, spot: Spot, used: &Used) -> bool
    requires { IsLawful (N.position network.now) }
    ensures { let leads = LeadsFrom (N.position network.now) start used.now spot in
        IsTrue result ↔ ((step : WalkStep) × (step.link ≡ link) × leads step) }
{
    let forward = WalkStep {
        link,
        turned: false,
    };
    let back = WalkStep { link, turned: true };
    leads_from(network, start, forward, spot, used) || leads_from(network, start, back, spot, used)
}

/// Returns whether a step is entered at a spot and leads on.
#[cycle(track)]
fn leads_from<N: Network>(network: &N, start: Stop, step: WalkStep, spot: Spot, used: &Used) -> bool
    requires { IsLawful (N.position network.now) }
    ensures { let position = N.position network.now in
        IsTrue result ↔ LeadsFrom position start used.now spot step }
{
    is_entered(step, spot) && leads_on(network, start, step, used)
}

/// Returns whether a stop is not the first one.
fn is_other(stop: Stop, start: Stop) -> bool
    ensures { IsTrue result ↔ (¬ (stop ≡ start)) }
{
    stop_order(stop) != stop_order(start)
}

/// Returns whether a step is entered at a spot.
fn is_entered(step: WalkStep, spot: Spot) -> bool
    ensures { IsTrue result ↔ (entered_at step ≡ spot) }
{
    let entered = step.entered();
    entered.hex.index() == spot.hex.index() && entered.end.order() == spot.end.order()
}
