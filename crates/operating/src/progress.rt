//! The progress of a company's turn: the first step still open to it, and what it has done.
ghost use Rattle.std.specs.Prelude.{◌≡◌, ◌≤◌};
ghost use Rattle.operating.specs.Progress.{at_start, best_done, has_any_run, is_past_pay};
ghost use Rattle.operating.specs.Progress.{is_past_runs, is_unpaid, lay_done, pay_done, run_done};
ghost use Rattle.operating.specs.Progress.{token_done};
ghost use Rattle.operating.specs.CompletedRuns.{IsCounted};

use crate::completed_runs::{CompletedRun, Runs};
use board::{Asker, Board, TurnStep, is_dh_lay};
use map_tables::Lay;
use tables::Amount;

/// The progress of a company's turn.
#[derive(Clone, Copy, Debug)]
pub struct Progress {
    /// The first step that is still open.
    pub(crate) pointer: TurnStep,
    /// Whether the company has used its lay.
    pub(crate) lay_used: bool,
    /// Whether that was DH's lay, so that the turn's token may be DH's.
    pub(crate) dh_laid: bool,
    /// Whether the company has obeyed RUN BEST, after which no train is left to run.
    pub(crate) best_run: bool,
    /// What the trains of the company have done.
    pub(crate) runs: Runs,
}

impl Progress {
    /// Returns the progress at the start of a turn.
    pub(crate) fn start() -> Progress
        ensures { result ≡ at_start }
    {
        Progress {
            pointer: TurnStep::Lay,
            lay_used: false,
            dh_laid: false,
            best_run: false,
            runs: Runs::none(),
        }
    }

    /// Counts a tile that is laid. CS's lay does not count as the lay of the turn, and DH's is
    /// remembered for its token.
    pub(crate) fn count_lay(&mut self, board: &Board, asker: &Asker, lay: Lay)
        ensures { self.new ≡ lay_done board.now.lays asker.now lay self.old }
    {
        self.lay_used = self.lay_used || !board.is_cs_lay(asker, lay.hex);
        self.dh_laid = self.dh_laid || is_dh_lay(asker, lay);
    }

    /// Ends the steps of lay and token.
    pub(crate) fn pass_token(&mut self)
        ensures { self.new ≡ token_done self.old }
    {
        self.pointer = TurnStep::Run;
    }

    /// Counts a train that has run, which also ends the step of tokens.
    pub(crate) fn count_run(&mut self, ran: &CompletedRun)
        requires { IsCounted self.old.runs ran.now }
        ensures { self.new ≡ run_done self.old ran.now }
    {
        self.runs.count(ran);
        self.pass_token();
    }

    /// Counts the best runs, which earned this much; that also ends the step of tokens.
    pub(crate) fn count_best(&mut self, revenue: Amount)
        requires { revenue ≤ 50000 }
        ensures { self.new ≡ best_done self.old revenue }
    {
        self.best_run = true;
        self.runs.set_revenue(revenue);
        self.pass_token();
    }

    /// Ends the step of payment, once the company has paid or withheld.
    pub(crate) fn pass_pay(&mut self)
        ensures { self.new ≡ pay_done self.old }
    {
        self.pointer = TurnStep::Trains;
    }

    /// Returns whether the step of runs is over.
    pub(crate) fn is_past_runs(&self) -> bool
        ensures { result ≡ is_past_runs self.now }
    {
        TurnStep::Run.number() < self.pointer.number()
    }

    /// Returns whether some train has run in the turn.
    pub(crate) fn has_any_run(&self) -> bool
        ensures { result ≡ has_any_run self.now }
    {
        self.best_run || self.runs.are_any()
    }

    /// Returns whether the company has paid or withheld.
    pub(crate) fn is_past_pay(&self) -> bool
        ensures { result ≡ is_past_pay self.now }
    {
        TurnStep::Pay.number() < self.pointer.number()
    }

    /// Returns whether the company has neither paid nor withheld.
    pub(crate) fn is_unpaid(&self) -> bool
        ensures { result ≡ is_unpaid self.now }
    {
        self.pointer.number() < TurnStep::Trains.number()
    }
}
