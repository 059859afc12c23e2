//! A claim: a revenue of a company's trains, and the runs said to earn it.
ghost use Rattle.std.specs.Prelude.{◌≡◌, [], ◌∷◌, ◌++◌, OnOk, OnErr};

use map_tables::Run;
use std::alloc::{AllocError, Global};
use std::marker::Model;
use tables::{Amount, Kind};

/// A run that is claimed: a train's kind, and the run, in full.
#[derive(Drop)]
pub struct ClaimedRun {
    pub kind: Kind,
    pub run: Run,
}

/// The runs of a claim. In a contract they are a list.
#[derive(Drop)]
pub struct ClaimedRuns {
    runs: Vec<ClaimedRun>,
}

impl Model for ClaimedRuns {
    ghost use Rattle.std.specs.Prelude.{List};
    ghost use Rattle.legal_runs.specs.declared.claim.ClaimedRun.{ClaimedRun};

    ghost Value = { List ClaimedRun };

    ghost view = { λ claimed. claimed.runs.items };
}

impl ClaimedRuns {
    /// Returns no runs.
    pub fn new(alloc: Global) -> ClaimedRuns
        ensures { result ≡ [] }
    {
        ClaimedRuns {
            runs: Vec::new(alloc),
        }
    }

    /// Adds a run at the end. Fails only if allocation fails, which leaves the runs unchanged.
    pub fn push(&mut self, run: ClaimedRun) -> Result<(), AllocError>
        ensures added { OnOk result (self.new ≡ self.old ++ run ∷ []) }
        ensures kept { OnErr result (self.new ≡ self.old) }
    {
        self.runs.push(run)?;
        Ok(())
    }

    /// Returns the runs, in order.
    pub fn as_slice(&self) -> &[ClaimedRun]
        ensures { result.now ≡ self.now }
    {
        self.runs.as_slice()
    }
}

/// What is claimed of a company's trains: a revenue, in dollars, and runs that earn it.
#[derive(Drop)]
pub struct Claim {
    pub revenue: Amount,
    pub runs: ClaimedRuns,
}
