//! Whether a claim holds: the check rules its runs one after another, and counts its trains.
ghost use Rattle.std.specs.List.{list_all};
ghost use Rattle.std.specs.Prelude.{◌≡◌, ◌↔◌, IsTrue};
ghost use Rattle.legal_runs.specs.Claim.{ClaimHolds};
ghost use Rattle.legal_runs.specs.InTurn.{AreLegalInTurn, has_enough};
ghost use Rattle.legal_runs.specs.TwoTrain.{none_used};
ghost use Rattle.tables.specs.Train.{kinds, same_kind};

use crate::check::check_run;
use crate::claim::{Claim, ClaimedRun};
use crate::used::Used;
use reach::Network;
use tables::{Amount, Company, Kind, Money, same_kind};

/// Returns whether a claim for a company's trains holds: its places name the walks of a legal set
/// of runs for them that earns the claimed revenue. Allocates nothing.
pub fn claim_holds<N: Network>(
    network: &N,
    company: Company,
    trains: &[Kind],
    claim: &Claim,
) -> bool
    ensures { let position = N.position network.now in
        IsTrue result ↔ ClaimHolds position company trains.now claim.now }
{
    let claimed = claim.runs.as_slice();
    are_taken(trains, claimed) && are_legal_in_turn(network, company, claimed, claim.revenue)
}

/// Returns whether claimed runs are legal one after another, and together earn this much.
fn are_legal_in_turn<N: Network>(
    network: &N,
    company: Company,
    claimed: &[ClaimedRun],
    revenue: Amount,
) -> bool
    ensures { let position = N.position network.now in
        IsTrue result ↔ AreLegalInTurn position company none_used revenue claimed.now }
{
    let mut used = Used::new();
    let mut left = Money::from(revenue);
    for run in claimed {
        match check_run(network, company, run.kind, &run.run, &mut used) {
            Ok(earns) if earns <= left => left -= earns,
            _ => return false,
        }
    }
    left == 0
}

/// Returns whether there are at least as many trains of each kind as claimed runs of that kind.
fn are_taken(trains: &[Kind], claimed: &[ClaimedRun]) -> bool
    ensures { result ≡ list_all (has_enough trains.now claimed.now) kinds }
{
    Kind::ALL
        .iter()
        .all(|kind| has_enough(trains, claimed, *kind))
}

/// Returns whether there are at least as many trains of a kind as claimed runs of that kind.
fn has_enough(trains: &[Kind], claimed: &[ClaimedRun], kind: Kind) -> bool
    ensures { result ≡ has_enough trains.now claimed.now kind }
{
    let runs = claimed.iter().filter(|run| same_kind(run.kind, kind));
    let of_kind = trains.iter().filter(|train| same_kind(**train, kind));
    runs.count() <= of_kind.count()
}
