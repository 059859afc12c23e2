//! Why a game was not played: an allocation failed, or the runner refused a company.
ghost use Rattle.std.specs.Prelude.{◌≡◌};
ghost use Rattle.rounds.specs.Faults.{fault_in_turn};
ghost use Rattle.rounds.specs.declared.fault.PlayFault.TheVariants.{Memory};

use legal_runs::RunnerFault;
use std::alloc::AllocError;
use tables::{Company, Round};
use thiserror::Error;

/// Why a game was not played.
#[derive(Clone, Copy, Debug, PartialEq, Eq, Drop, Error)]
pub enum PlayFault {
    /// An allocation failed.
    #[error("an allocation failed")]
    Memory,
    /// The runner refused a company in this operating round.
    #[error("the runner refused a company in an operating round")]
    Refused(Round, Company),
}

impl From<AllocError> for PlayFault {
    ghost from_gives = { λ _ fault. fault ≡ Memory };

    fn from(_error: AllocError) -> PlayFault {
        // An allocation failed: passed on.
        PlayFault::Memory
    }
}

impl PlayFault {
    /// Returns the error of play with a runner that never refuses, which is a failed allocation.
    pub fn want_of_memory(self) -> AllocError
        requires { self ≡ Memory }
    {
        // An allocation failed: passed on.
        AllocError
    }

    /// Returns why play stops at the turn of a company in a round, given the fault of the runner.
    pub(crate) fn in_turn(fault: RunnerFault, round: Round, company: Company) -> PlayFault
        ensures { result ≡ fault_in_turn fault round company }
    {
        match fault {
            // An allocation failed: passed on.
            RunnerFault::Memory => PlayFault::Memory,
            RunnerFault::Refused => PlayFault::Refused(round, company),
        }
    }
}
