//! What is claimed of a company's trains. The check of runs rules each run of a claim, one after
//! another with the borders used so far, and together they earn the claimed revenue.

use best_run::best;
use certificate::{ClaimedRun, Used, check_run};
use reach::Network;
use std::alloc::{AllocError, Global};
use tables::{Amount, Company, Kind, Money};

/// Returns whether a claim has no more runs of each kind than there are trains.
fn are_taken_from(trains: &[Kind], runs: &[ClaimedRun]) -> bool {
    for &kind in &Kind::ALL {
        let have = trains.iter().filter(|train| **train == kind).count();
        if have < runs.iter().filter(|run| run.kind == kind).count() {
            return false;
        }
    }
    true
}

/// Returns the best that these trains can do: how many run, and what they earn. `None` if the runs
/// are not legal one after another, are not of these trains, or do not earn the claimed revenue.
pub(crate) fn claimed<N: Network>(
    alloc: Global,
    network: &N,
    company: Company,
    trains: &[Kind],
) -> Result<Option<(usize, Amount)>, AllocError> {
    let answer = best(alloc, network, company, trains)?;
    let runs = answer.claim.runs.as_slice();
    let mut used = Used::new();
    let mut total: Money = 0;
    for run in runs {
        match check_run(network, company, run.kind, &run.run, &mut used) {
            Ok(money) => total = total.saturating_add(money),
            Err(_) => return Ok(None),
        }
    }
    let revenue = answer.claim.revenue;
    if !are_taken_from(trains, runs) || total != revenue as Money {
        return Ok(None);
    }
    Ok(Some((runs.len(), revenue)))
}
