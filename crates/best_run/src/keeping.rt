//! A runner that keeps what it finds: the best runs of each call, with the marks by which a reader
//! checks them.
ghost use Rattle.std.specs.Prelude.{◌≡◌, [], false, IfOk, OnErr};
ghost use Rattle.best_run.specs.Keeping.{KeepsBest, KeepsOne};
ghost use Rattle.legal_runs.specs.Set.{IsGreatestMoney};

use crate::revenue::best;
use certificate::{Group, Runner, RunnerFault};
use reach::Network;
use std::alloc::{AllocError, Global};
use std::marker::Model;
use tables::{Company, Kind, Money, Round};

/// A runner that searches for the greatest revenue and keeps what it found. Each call that succeeds
/// adds a group: the round and the company of the call, the runs, and marks. By the marks a reader
/// checks without a search that no runs earn more. It never refuses. In a contract it is the list
/// of the groups.
#[derive(Drop)]
pub struct Keeping {
    alloc: Global,
    groups: Vec<Group>,
}

impl Model for Keeping {
    ghost use Rattle.std.specs.Prelude.{List};
    ghost use Rattle.certificate.specs.declared.group.Group.{Group};

    ghost Value = { List Group };

    ghost view = { λ keeping. keeping.groups.items };
}

impl Keeping {
    /// Returns a search that has kept nothing, and allocates from an allocator.
    pub fn new(alloc: Global) -> Keeping
        ensures { result ≡ [] }
    {
        Keeping {
            alloc,
            groups: Vec::new(alloc),
        }
    }

    /// Returns what was kept, a group for each call that succeeded, in order.
    pub fn kept(&self) -> &[Group]
        ensures { result.now ≡ self.now }
    {
        self.groups.as_slice()
    }

    /// Finds the best that a company's trains can do, keeps it, and returns what it earns, in
    /// dollars. Fails only if allocation fails; then it keeps nothing.
    fn keep<N: Network>(
        &mut self,
        network: &N,
        round: Round,
        company: Company,
        trains: &[Kind],
    ) -> Result<Money, AllocError>
        ensures greatest { let position = N.position network.now in
            IfOk result (IsGreatestMoney position company trains.now) }
        ensures kept { let position = N.position network.now in
            IfOk result (λ money.
            KeepsOne position round company trains.now money self.old self.new) }
        ensures same { OnErr result (self.new ≡ self.old) }
    {
        let found = best(self.alloc, network, company, trains)?;
        let earned = Money::from(found.claim.revenue);
        self.groups.push(Group {
            round,
            company,
            claim: found.claim,
            bits: found.marks,
        })?;
        Ok(earned)
    }
}

impl Runner for Keeping {
    ghost may_refuse = { false };

    ghost earns = { KeepsBest };

    fn earn<N: Network>(
        &mut self,
        network: &N,
        round: Round,
        company: Company,
        trains: &[Kind],
    ) -> Result<Money, RunnerFault> {
        match self.keep(network, round, company, trains) {
            Ok(money) => Ok(money),
            // An allocation failed: passed on.
            Err(_) => Err(RunnerFault::Memory),
        }
    }
}
