//! The check of a run place by place: what the run earns, or the first rule that it breaks.
ghost use Rattle.std.specs.Prelude.{◌≡◌, ◌↔◌, IfOk, IfErr, IsOk, None, Some, pos};
ghost use Rattle.legal_runs.specs.Fault.{named_steps, run_fault};
ghost use Rattle.legal_runs.specs.Law.{NameLegalRun};
ghost use Rattle.legal_runs.specs.Legal.{crossed, earned};
ghost use Rattle.legal_runs.specs.Marks.{AreAdded, borders_used, marked};
ghost use Rattle.legal_runs.specs.Named.{made_along};
ghost use Rattle.legal_runs.specs.Tally.{counted, no_steps};

use crate::leg::leg_to;
use crate::tally::Tally;
use crate::used::Used;
use map_tables::{Run, RunRule, TrackEnd};
use reach::{Network, Spot};
use tables::{Company, Kind, Money};

/// The first rule that a run breaks, of R3 to R9, which depend on the map state.
pub type RunFault = RunRule;

/// Rules a run of a company's train of a kind, given place by place. Returns `Ok` exactly if
/// the run is legal given the used borders. The value is what it earns, in dollars, and `used`
/// gains the borders that it crosses and no others. Otherwise the error is the first rule that the
/// run breaks, and `used` does not change.
pub fn check_run<N: Network>(
    network: &N,
    company: Company,
    kind: Kind,
    run: &Run,
    used: &mut Used,
) -> Result<Money, RunFault>
    ensures exact { let name_legal = NameLegalRun (N.position network.now) company kind in
        IsOk result ↔ name_legal (borders_used used.old) run.now }
    ensures first_fault { let found = run_fault (N.position network.now) company kind in
        IfErr result (λ fault. found (borders_used used.old) run.now ≡ Some fault) }
    ensures kept { IfErr result (λ fault. used.new ≡ used.old) }
    ensures no_fault { let found = run_fault (N.position network.now) company kind in
        IfOk result (λ earns. found (borders_used used.old) run.now ≡ None) }
    ensures earns { let steps = named_steps (N.position network.now) run.now in
        IfOk result (λ earns. earns ≡ pos (earned (N.position network.now) steps)) }
    ensures crosses { let steps = named_steps (N.position network.now) run.now in
        IfOk result (λ earns. used.new ≡ marked used.old (crossed steps)) }
    ensures added { let steps = named_steps (N.position network.now) run.now in
        let old = borders_used used.old in
        IfOk result (λ earns. AreAdded (crossed steps) old (borders_used used.new)) }
{
    let Some(tally) = tally_of(network, company, run, used) else {
        return Err(RunFault::NoTrack);
    };
    if let Some(fault) = tally.fault(kind) {
        return Err(fault);
    }
    used.crossed = tally.crossed;
    Ok(Money::from(tally.value))
}

/// Follows the walk that the places of a run name; `None` if there is none.
#[tactic(auto, using(crate::proofs::Along::legs))]
fn tally_of<N: Network>(network: &N, company: Company, run: &Run, used: &Used) -> Option<Tally>
    ensures { let position = N.position network.now in
        result ≡ made_along (counted position company) position (no_steps used.now) run.now }
{
    let places = run.as_slice();
    let start = places[0];
    let mut at = Spot {
        hex: start.hex,
        end: TrackEnd::Stop(start.stop?),
    };
    let mut tally = Tally::none(used);
    let mut links = network.links(start.hex);
    for place in &places[1..] {
        let leg = leg_to(network, at, *place, &mut links)?;
        tally.count_leg(network, company, leg);
        at = leg.at;
    }
    match at.end {
        TrackEnd::Stop(_) => Some(tally),
        TrackEnd::Side(_) => None,
    }
}
