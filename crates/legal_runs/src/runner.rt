//! Runners, which find the greatest revenue of a company's trains: their trait, and why they may
//! fail.
ghost use Rattle.std.specs.Prelude.{◌≡◌, Bool, true, List, Result, IfOk, IfErr, ℤ};
ghost use Rattle.legal_runs.specs.Set.{IsGreatestMoney};
ghost use Rattle.legal_runs.specs.declared.runner.RunnerFault.{RunnerFault};
ghost use Rattle.legal_runs.specs.declared.runner.RunnerFault.TheVariants.{Memory, Refused};
ghost use Rattle.reach.specs.Position.{Position};
ghost use Rattle.tables.specs.declared.rolling_stock.Kind.{Kind};
ghost use Rattle.tables.specs.declared.roster.Company.{Company};
ghost use Rattle.tables.specs.declared.round.Round.{Round};

use reach::Network;
use std::alloc::AllocError;
use tables::{Company, Kind, Money, Round};
use thiserror::Error;

/// Why a runner returns no revenue.
#[derive(Clone, Copy, Debug, PartialEq, Eq, Drop, Error)]
pub enum RunnerFault {
    /// An allocation failed.
    #[error("an allocation failed")]
    Memory,
    /// The runner has no accepted result for this round and company.
    #[error("the runner refused a company in an operating round")]
    Refused,
}

impl From<AllocError> for RunnerFault {
    ghost from_gives = { λ _ fault. fault ≡ Memory };

    fn from(_error: AllocError) -> RunnerFault {
        // An allocation failed: passed on.
        RunnerFault::Memory
    }
}

/// Finds the greatest revenue of a company's trains.
pub trait Runner {
    /// Whether it may return `Refused`.
    ghost may_refuse: { Bool };

    /// What a call makes of the runner: its value before, the position, the round, the company, the
    /// trains, the result, and its value after.
    ghost earns: { Self → Position → Round → Company → List Kind → Result ℤ RunnerFault → Self → Type 0 };

    /// Returns the greatest revenue that any legal set of runs for these trains of a company earns
    /// on a network, in dollars. The round is the operating round of the company's turn. The error
    /// is `Memory` if an allocation fails, and `Refused` if the runner refuses.
    fn earn<N: Network>(
        &mut self,
        network: &N,
        round: Round,
        company: Company,
        trains: &[Kind],
    ) -> Result<Money, RunnerFault>
        ensures greatest { let position = N.position network.now in
            IfOk result (IsGreatestMoney position company trains.now) }
        ensures refuses { IfErr result (λ fault. fault ≡ Refused → may_refuse ≡ true) }
        ensures earns { let position = N.position network.now in
            earns self.old position round company trains.now result self.new };
}
