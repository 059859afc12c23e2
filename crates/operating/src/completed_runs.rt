//! What the trains of a company have done in its turn: how many have run, which borders they have
//! crossed and what they have earned.
ghost use Rattle.std.specs.Prelude.{◌≡◌};

use history::TrainCount;
use legal_runs::Used;
use std::marker::Model;
use tables::{Amount, KINDS, Kind, PerKind};

/// What a train did.
#[derive(Clone, Copy, Debug)]
pub(crate) struct CompletedRun {
    /// Its kind.
    pub(crate) kind: Kind,
    /// What it earned, in dollars.
    pub(crate) earned: Amount,
    /// The used borders after its run.
    pub(crate) borders: Used,
}

/// What the trains of a company have done in its turn.
#[derive(Clone, Copy, Debug)]
pub struct Runs {
    /// How many of each kind have run, by the place of the kind.
    trains: PerKind<TrainCount>,
    /// The borders that they have crossed.
    pub(crate) borders: Used,
    /// What they have earned, in dollars: at most 160 for each used border, or after RUN BEST the
    /// greatest revenue.
    pub(crate) revenue: Amount,
}

/// In a contract it is the record of its fields.
impl Model for Runs {
    ghost use Rattle.operating.specs.CompletedRuns.{RunsOfTurn, IsBounded};

    ghost Value = { RunsOfTurn };

    ghost view = { λ runs. record {
      trains = runs.trains;
      borders = runs.borders;
      revenue = runs.revenue;
    } };

    ghost invariant = { λ runs. IsBounded runs.trains runs.borders runs.revenue };

    ghost inverse = { λ done. record {
      trains = done.trains;
      borders = done.borders;
      revenue = done.revenue;
    } };
}

impl Runs {
    ghost use Rattle.operating.specs.CompletedRuns.{IsCounted, has_run, no_runs, with_ran};
    ghost use Rattle.std.specs.List.{list_any};
    ghost use Rattle.std.specs.Prelude.{◌≤◌, pos};
    ghost use lib.Signed.{lt_z};

    /// Returns no runs.
    pub(crate) fn none() -> Runs
        ensures { result ≡ no_runs }
    {
        Runs {
            trains: [0; KINDS],
            borders: Used::new(),
            revenue: 0,
        }
    }

    /// Counts a train that has run.
    pub(crate) fn count(&mut self, ran: &CompletedRun)
        requires { IsCounted self.old ran.now }
        ensures { self.new ≡ with_ran self.old ran.now }
    {
        self.trains[ran.kind.index()] += 1;
        self.borders = ran.borders;
        self.revenue += ran.earned;
    }

    /// Sets what the best runs earned, in dollars.
    pub(crate) fn set_revenue(&mut self, revenue: Amount)
        requires { revenue ≤ 50000 }
        ensures { self.new ≡ record self.old { revenue = revenue } }
    {
        self.revenue = revenue;
    }

    /// Returns whether some train has run by a RUN order.
    pub(crate) fn are_any(&self) -> bool
        ensures { result ≡ list_any (λ count. lt_z (pos 0) count) self.now.trains }
    {
        self.trains.iter().any(|count| *count > 0)
    }

    /// Returns how many trains of a kind have run.
    pub(crate) fn of_kind(&self, kind: Kind) -> TrainCount
        ensures { result ≡ has_run self.now kind }
    {
        self.trains[kind.index()]
    }
}
