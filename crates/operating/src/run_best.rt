//! RUN BEST: a company runs its trains at their best. The step of runs must not be over, the
//! company must have a train, and no train may have run in the turn. The company is credited the
//! greatest revenue that any legal set of runs for its trains earns in this map state, which the
//! runner finds. That ends the step of tokens, and no train is left to run.
ghost use Rattle.std.specs.Prelude.{◌≡◌, ◌++◌, ◌≤◌, ◌≤ℤ◌, IfErr, IfOk, OnOk, pos, replicate, true};
ghost use Rattle.legal_runs.specs.Set.{IsGreatest};
ghost use Rattle.legal_runs.specs.declared.runner.RunnerFault.TheVariants.{Refused as runner_refuses};
ghost use Rattle.events.specs.declared.ruling.Refusal.TheVariants as refusal;
ghost use Rattle.events.specs.declared.ruling.Ruling.TheVariants.{Refused};
ghost use Rattle.totals.specs.Trains.{at_least_zero};
ghost use Rattle.operating.specs.Calls.{Makes};
ghost use Rattle.operating.specs.CompanyTurn.{GoesOn, IsInOrder, state};
ghost use Rattle.operating.specs.MapState.{position_now};
ghost use Rattle.operating.specs.RunBest.{BestLeads, best_earned, best_judgement, has_none_to_run};
ghost use Rattle.operating.specs.RunBest.{trains_now};
ghost use Rattle.operating.specs.TurnCalls.{Asks, BestCalls, led_to};
ghost use Rattle.operating.specs.TurnState.{turn_state, line_recorded};
ghost use Rattle.order_grammar.specs.declared.order.Order.TheVariants as order;
ghost use Rattle.order_grammar.specs.declared.play.PlayOrder.TheVariants as play;
ghost use Rattle.sheets.specs.Part.{line_with};

use crate::company_turn::CompanyTurn;
use crate::map_state::update_map_state;
use crate::progress::Progress;
use crate::run::record_runs;
use history::{GameView, History, Refusal, RunRule, TrainCount, at_least_zero};
use legal_runs::{Runner, RunnerFault};
use order_grammar::{Order, PlayOrder};
use purchases::has_trains;
use reach::Network;
use sheets::ReadLine;
use smallvec::SmallVec;
use std::alloc::{AllocError, Global};
use tables::{Amount, Company, Kind, Money, rules};
use turns::record;

/// The most trains that a company may have in any phase. That many are kept without allocating.
const TRAINS_MOST: usize = 4;

/// The trains of a company.
type CompanyTrains = SmallVec<Kind, TRAINS_MOST>;

/// Returns the first rule that a RUN BEST breaks; `None` if it breaks none.
fn judge_best(history: &History, company: Company, progress: &Progress) -> Option<RunRule>
    ensures { result ≡ best_judgement (turn_state history.now progress.now) company }
{
    rules! { RunRule
        StepUsed: progress.is_past_runs(),
        NoTrain: has_none_to_run(history, company, progress),
    }
}

/// Returns whether a company has no train, or some train of it has run in the turn.
fn has_none_to_run(history: &History, company: Company, progress: &Progress) -> bool
    ensures { result ≡ has_none_to_run history.now.events company progress.now }
{
    !has_trains(&history.now(), company) || progress.has_any_run()
}

impl CompanyTurn {
    /// Rules a RUN BEST in this line, and carries it out if it is obeyed: the company is credited
    /// the greatest revenue, which the runner finds. Fails if the runner fails or allocation fails.
    pub(crate) fn rule_best<R: Runner>(
        &mut self,
        line: ReadLine,
        runner: &mut R,
    ) -> Result<(), RunnerFault>
        requires { IsInOrder self.old }
        ensures turn { OnOk result (BestLeads self.old.by (state self.old)
            (line_with line (order.Play play.RunBest)) (state self.new)) }
        ensures calls { let turn = state self.old in
            Makes R.earns runner.old (BestCalls self.old.by self.old.round
            (line_with line (order.Play play.RunBest)) (best_judgement turn self.old.by.company) turn
            (led_to (state self.new) result))
            runner.new }
        ensures order { OnOk result (GoesOn self.old self.new) }
        ensures refuses { IfErr result (λ fault. fault ≡ runner_refuses → R.may_refuse ≡ true) }
    {
        if let Some(rule) = judge_best(&self.history, self.by.company, &self.progress) {
            self.refuse_best(line, rule)?;
            return Ok(());
        }
        let revenue = self.best_revenue(runner)?;
        self.obey_best(line, revenue)?;
        Ok(())
    }

    /// Records that the RUN BEST of this line breaks a rule.
    fn refuse_best(&mut self, line: ReadLine, rule: RunRule) -> Result<(), AllocError>
        requires { IsInOrder self.old }
        ensures recorded { OnOk result (state self.new ≡ line_recorded self.old.by (state self.old)
            (line_with line (order.Play play.RunBest))
            (Refused (refusal.Run rule) line.condition (order.Play play.RunBest))) }
        ensures order { OnOk result (GoesOn self.old self.new) }
    {
        let (seat, refusal) = (self.by.president, Refusal::Run(rule));
        record(
            &mut self.history,
            seat,
            line,
            &Order::Play(PlayOrder::RunBest),
            Some(refusal),
        )?;
        Ok(())
    }

    /// Records that the RUN BEST of this line is obeyed, and what it earns.
    fn obey_best(&mut self, line: ReadLine, revenue: Amount) -> Result<(), AllocError>
        requires order { IsInOrder self.old }
        requires small { revenue ≤ 50000 }
        ensures recorded { OnOk result (state self.new
            ≡ best_earned self.old.by (state self.old) (line_with line (order.Play play.RunBest)) revenue) }
        ensures order { OnOk result (GoesOn self.old self.new) }
    {
        let by = self.by;
        record(
            &mut self.history,
            by.president,
            line,
            &Order::Play(PlayOrder::RunBest),
            None,
        )?;
        record_runs(&mut self.history, by.company, revenue)?;
        self.progress.count_best(revenue);
        Ok(())
    }

    /// Returns the greatest revenue of the company's trains in this map state, in dollars: at most
    /// 50,000. Fails if the runner fails or allocation fails.
    fn best_revenue<R: Runner>(&mut self, runner: &mut R) -> Result<Amount, RunnerFault>
        requires { IsInOrder self.old }
        ensures greatest { let events = self.old.history.events in
            let company = self.old.by.company in
            IfOk result (IsGreatest (position_now events) company (trains_now events company)) }
        ensures small { IfOk result (λ revenue. revenue ≤ 50000) }
        ensures state { OnOk result (state self.new ≡ state self.old) }
        ensures order { OnOk result (GoesOn self.old self.new) }
        ensures calls { Makes R.earns runner.old
            (Asks self.old.by.company self.old.round self.old.history.events result) runner.new }
        ensures refuses { IfErr result (λ fault. fault ≡ runner_refuses → R.may_refuse ≡ true) }
    {
        // Laws, which do nothing when they run: they bound the greatest revenue.
        legal_runs::laws::a_greatest_exists();
        legal_runs::laws::one_greatest();
        let board = &mut *self.board;
        update_map_state(board, &self.history)?;
        board.keeps_laws();
        let company = self.by.company;
        let trains = trains_of(self.alloc, &self.history.now(), company)?;
        let money = runner.earn(&*board, self.round, company, trains.as_slice())?;
        Ok(amount(money))
    }
}

/// Returns a sum of money, in dollars, as an amount, which it fits.
fn amount(money: Money) -> Amount
    requires least { pos 0 ≤ℤ money }
    requires most { money ≤ℤ pos 50000 }
    ensures { pos result ≡ money }
{
    money as Amount
}

/// Returns the trains that a company has, kind by kind. Fails only if allocation fails.
fn trains_of(alloc: Global, view: &GameView, company: Company) -> Result<CompanyTrains, AllocError>
    ensures { IfOk result (λ trains. trains.items ≡ trains_now view.now.events company) }
{
    let mut trains = CompanyTrains::new(alloc);
    for &kind in &Kind::ALL {
        push_trains(&mut trains, kind, view.trains(Some(company), kind))?;
    }
    Ok(trains)
}

/// Adds this many trains of a kind at the end; adds none if the number is negative.
fn push_trains(trains: &mut CompanyTrains, kind: Kind, count: TrainCount) -> Result<(), AllocError>
    ensures { OnOk result (trains.new.items
        ≡ trains.old.items ++ replicate (at_least_zero count) kind) }
{
    for _ in 0..at_least_zero(Money::from(count)) {
        trains.push(kind)?;
    }
    Ok(())
}
