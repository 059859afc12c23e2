//! RUN: a train of a company runs. The rules of the turn are that the step of runs is not over, and
//! that a train of the kind has not run. The run itself must keep the rules of runs
//! (`legal_runs::check_run`), given the borders used by earlier runs. It earns what its stops are
//! worth, and ends the step of tokens.
ghost use Rattle.std.specs.Prelude.{◌≡◌, ◌≤◌, ◌≤ℤ◌, false, IfOk, None, OnOk};
ghost use Rattle.events.specs.declared.event.Event.TheVariants as event;
ghost use Rattle.board_state.specs.MapState.{position_of};
ghost use Rattle.totals.specs.LookBack.{with_event};
ghost use Rattle.history.specs.Sound.{IsSound};
ghost use Rattle.operating.specs.CompanyTurn.{GoesOn, IsInOrder, state};
ghost use Rattle.operating.specs.Run.{after_run, have_all_run, judged_run, ran_unless_fault};
ghost use Rattle.operating.specs.Run.{rules_of_turn, run_ruled};
ghost use Rattle.operating.specs.CompletedRuns.{IsCounted, has_run, runs_most};
ghost use Rattle.sheets.specs.Part.{line_with};
ghost use Rattle.tables.specs.Rules.{first_broken};

use crate::company_turn::CompanyTurn;
use crate::completed_runs::{CompletedRun, Runs};
use crate::map_state::update_map_state;
use crate::progress::Progress;
use board::Board;
use history::{Event, History, Refusal, RunRule};
use legal_runs::check_run;
use map_tables::Run;
use order_grammar::Order;
use reach::Network;
use sheets::ReadLine;
use std::alloc::AllocError;
use tables::{Amount, Company, Kind, rules};
use turns::record;

/// Returns the first rule of the turn that a run of a train of a kind breaks.
fn judge_turn(
    history: &History,
    company: Company,
    kind: Kind,
    progress: &Progress,
) -> Option<RunRule>
    ensures rule { result ≡ first_broken (rules_of_turn history.now company progress.now kind) }
    ensures few { result ≡ None → has_run progress.now.runs kind ≤ℤ runs_most }
{
    rules! { RunRule
        StepUsed: progress.is_past_runs(),
        NoTrain: have_all_run(history, company, kind, progress),
    }
}

/// Returns whether all trains of a kind that a company has, if any, have run in the turn, by RUN or
/// by RUN BEST.
fn have_all_run(history: &History, company: Company, kind: Kind, progress: &Progress) -> bool
    ensures all { result ≡ have_all_run history.now company progress.now kind }
    ensures few { result ≡ false → has_run progress.now.runs kind ≤ℤ runs_most }
{
    progress.best_run || history.now().trains(Some(company), kind) <= progress.runs.of_kind(kind)
}

/// Returns what a run does in this map state, or the first rule of runs that it breaks.
fn run_on(
    board: &Board,
    company: Company,
    kind: Kind,
    run: &Run,
    runs: &Runs,
) -> Result<CompletedRun, RunRule>
    requires few { has_run runs.now kind ≤ℤ runs_most }
    ensures ran { result
        ≡ ran_unless_fault (position_of board.now) company kind runs.now.borders run.now }
    ensures counted { IfOk result (λ ran. IsCounted runs.now ran) }
{
    board.keeps_laws();
    legal_runs::laws::runs_earn_by_borders();
    let mut borders = runs.borders;
    match check_run(board, company, kind, run, &mut borders) {
        Ok(money) => Ok(CompletedRun {
            kind,
            earned: money as Amount,
            borders,
        }),
        Err(rule) => Err(rule),
    }
}

impl CompanyTurn {
    /// Rules an order of this line to run a train of a kind, and runs it if the order is obeyed.
    pub(crate) fn rule_run(
        &mut self,
        line: ReadLine,
        order: &Order,
        kind: Kind,
        run: &Run,
    ) -> Result<(), AllocError>
        requires { IsInOrder self.old }
        ensures turn { OnOk result (state self.new
            ≡ after_run self.old.by (state self.old) (line_with line order.now) order.now kind
            run.now) }
        ensures order { OnOk result (GoesOn self.old self.new) }
    {
        let judged = self.judge_run(kind, run)?;
        self.rule_judged_run(line, order, &judged)
    }

    /// Returns what a run of the company's train does, or the first rule that it breaks. Fails only
    /// if allocation fails.
    fn judge_run(
        &mut self,
        kind: Kind,
        run: &Run,
    ) -> Result<Result<CompletedRun, RunRule>, AllocError>
        requires { IsInOrder self.old }
        ensures judged { IfOk result (λ judged. judged
            ≡ judged_run (state self.old) self.old.by.company kind run.now) }
        ensures counted { IfOk result (λ judged.
            IfOk judged (λ ran. IsCounted self.old.progress.runs ran)) }
        ensures state { OnOk result (state self.new ≡ state self.old) }
        ensures order { OnOk result (GoesOn self.old self.new) }
    {
        let company = self.by.company;
        if let Some(rule) = judge_turn(&self.history, company, kind, &self.progress) {
            return Ok(Err(rule));
        }
        let board = &mut *self.board;
        update_map_state(board, &self.history)?;
        Ok(run_on(board, company, kind, run, &self.progress.runs))
    }

    /// Rules the order of this line, given what its run does or which rule it breaks.
    fn rule_judged_run(
        &mut self,
        line: ReadLine,
        order: &Order,
        judged: &Result<CompletedRun, RunRule>,
    ) -> Result<(), AllocError>
        requires order { IsInOrder self.old }
        requires counted { IfOk judged.now (λ ran. IsCounted self.old.progress.runs ran) }
        ensures turn { OnOk result (state self.new
            ≡ run_ruled self.old.by (state self.old) (line_with line order.now) order.now
            judged.now) }
        ensures order { OnOk result (GoesOn self.old self.new) }
    {
        let by = self.by;
        match judged {
            Ok(ran) => {
                record(&mut self.history, by.president, line, order, None)?;
                record_runs(&mut self.history, by.company, ran.earned)?;
                self.progress.count_run(ran);
                Ok(())
            }
            Err(rule) => {
                let refusal = Refusal::Run(*rule);
                record(&mut self.history, by.president, line, order, Some(refusal))?;
                Ok(())
            }
        }
    }
}

/// Records what a run of a company earned.
pub(crate) fn record_runs(
    history: &mut History,
    company: Company,
    revenue: Amount,
) -> Result<(), AllocError>
    requires sound { IsSound history.old }
    requires sum { revenue ≤ 1000000 }
    ensures event { OnOk result (history.new
        ≡ with_event history.old (event.Runs company revenue)) }
    ensures sound { OnOk result (IsSound history.new) }
{
    history.record_event(Event::Runs { company, revenue })?;
    Ok(())
}
