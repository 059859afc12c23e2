//! A runner that searches for the greatest revenue and keeps nothing.
ghost use Rattle.std.specs.Prelude.{◌≡◌, IfOk, false};
ghost use Rattle.legal_runs.specs.Set.{IsGreatestMoney};

use crate::revenue::greatest_revenue;
use legal_runs::{Runner, RunnerFault};
use reach::Network;
use std::alloc::{AllocError, Global};
use tables::{Company, Kind, Money, Round};

/// A runner that searches for the greatest revenue. It keeps nothing from one call to the next, and
/// never refuses.
#[derive(Drop)]
pub struct Search {
    alloc: Global,
}

impl Search {
    /// Returns a search that allocates from an allocator.
    pub fn new(alloc: Global) -> Search {
        Search { alloc }
    }
}

impl Runner for Search {
    ghost may_refuse = { false };

    ghost earns = { λ before position round company trains answer after. after ≡ before };

    fn earn<N: Network>(
        &mut self,
        network: &N,
        _round: Round,
        company: Company,
        trains: &[Kind],
    ) -> Result<Money, RunnerFault> {
        match greatest_money(self.alloc, network, company, trains) {
            Ok(money) => Ok(money),
            // An allocation failed: passed on.
            Err(_) => Err(RunnerFault::Memory),
        }
    }
}

/// Returns the greatest revenue, as a sum of money. Fails only if allocation fails.
fn greatest_money<N: Network>(
    alloc: Global,
    network: &N,
    company: Company,
    trains: &[Kind],
) -> Result<Money, AllocError>
    ensures { let position = N.position network.now in
        IfOk result (IsGreatestMoney position company trains.now) }
{
    let revenue = greatest_revenue(alloc, network, company, trains)?;
    Ok(Money::from(revenue))
}
