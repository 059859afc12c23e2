//! The steps of a company's turn that the orders of a sheet have passed.
ghost use Rattle.std.specs.Prelude.{◌≡◌};
ghost use Rattle.desk_check.specs.OrderSteps.{beside_best, block_then, is_best, is_past, is_run, no_orders};
ghost use Rattle.desk_check.specs.OrderSteps.{later, objection_behind, objection_in_step, passed_by, passed_rule};
ghost use Rattle.desk_check.specs.OrderSteps.{step_of, without_run};

use board::TurnStep;
use desk_base::Objection;
use history::{PayRule, Refusal};
use map_tables::{LayRule, RunRule, TokenRule};
use order_grammar::{Order, PlayOrder};

/// The step that the orders of a company's turn have reached. Conditional orders do not count.
#[derive(Clone, Copy)]
pub(crate) struct Block {
    /// The last step of these orders.
    step: TurnStep,
    /// Whether a RUN is among them, even a conditional one.
    has_run: bool,
    /// Whether RUN BEST is among them.
    has_best: bool,
}

/// Returns the step of an order; `None` if it may come at any step.
fn step_of(order: &Order) -> Option<TurnStep>
    ensures { result ≡ step_of order.now }
{
    match order {
        Order::Play(PlayOrder::Lay(_)) => Some(TurnStep::Lay),
        Order::Play(PlayOrder::Token(_)) => Some(TurnStep::Token),
        Order::Run { .. } | Order::Play(PlayOrder::RunBest) => Some(TurnStep::Run),
        Order::Play(PlayOrder::Pay | PlayOrder::Withhold) => Some(TurnStep::Pay),
        Order::Play(PlayOrder::BuyTrain { .. }) => Some(TurnStep::Trains),
        _ => None,
    }
}

/// Returns the later of a step and another, if there is another.
fn later(step: TurnStep, other: Option<TurnStep>) -> TurnStep
    ensures { result ≡ later step other }
{
    match other {
        Some(other) if other.number() >= step.number() => other,
        _ => step,
    }
}

/// Returns whether an order has trains run.
fn is_run(order: &Order) -> bool
    ensures { result ≡ is_run order.now }
{
    matches!(order, Order::Run { .. } | Order::Play(PlayOrder::RunBest))
}

/// Returns whether an order has trains run their best.
fn is_best(order: &Order) -> bool
    ensures { result ≡ is_best order.now }
{
    matches!(order, Order::Play(PlayOrder::RunBest))
}

/// Returns the rule of an order whose step is past, if it has a step.
fn passed_rule(order: &Order) -> Option<Refusal>
    ensures { result ≡ passed_rule order.now }
{
    match order {
        Order::Play(PlayOrder::Lay(_)) => Some(Refusal::Lay(LayRule::StepUsed)),
        Order::Play(PlayOrder::Token(_)) => Some(Refusal::Token(TokenRule::StepUsed)),
        Order::Run { .. } | Order::Play(PlayOrder::RunBest) => Some(Refusal::Run(
            RunRule::StepUsed,
        )),
        Order::Play(PlayOrder::Pay | PlayOrder::Withhold) => Some(Refusal::Pay(
            PayRule::NothingToPay,
        )),
        _ => None,
    }
}

/// Returns that a step is past by this rule, if there is one.
fn passed_by(rule: Option<Refusal>) -> Option<(Refusal, Objection)>
    ensures { result ≡ passed_by rule }
{
    match rule {
        Some(rule) => Some((rule, Objection::Passed)),
        None => None,
    }
}

/// Returns why a run is not obeyed beside RUN BEST, if that is among the orders.
fn beside_best(has_best: bool) -> Option<(Refusal, Objection)>
    ensures { result ≡ beside_best has_best }
{
    if has_best {
        Some((Refusal::Run(RunRule::NoTrain), Objection::Best))
    } else {
        None
    }
}

/// Returns why nothing is paid, if no train is to run.
fn without_run(has_run: bool) -> Option<(Refusal, Objection)>
    ensures { result ≡ without_run has_run }
{
    if has_run {
        None
    } else {
        Some((Refusal::Pay(PayRule::NothingToPay), Objection::NoRun))
    }
}

impl Block {
    /// Returns a block without orders.
    pub(crate) fn none() -> Block
        ensures { result ≡ no_orders }
    {
        Block {
            step: TurnStep::Lay,
            has_run: false,
            has_best: false,
        }
    }

    /// Returns the block with one more order, which may be under a condition.
    pub(crate) fn with(self, order: &Order, is_conditional: bool) -> Block
        ensures { result ≡ block_then self order.now is_conditional }
    {
        let has_run = self.has_run || is_run(order);
        if is_conditional {
            return Block { has_run, ..self };
        }
        Block {
            step: later(self.step, step_of(order)),
            has_run,
            has_best: self.has_best || is_best(order),
        }
    }

    /// Returns why an order cannot be obeyed after these, with the rule that it breaks; `None` if
    /// it may be.
    pub(crate) fn objection(self, order: &Order) -> Option<(Refusal, Objection)>
        ensures { result ≡ objection_behind self order.now }
    {
        if self.is_past(step_of(order)) {
            return passed_by(passed_rule(order));
        }
        self.objection_in_step(order)
    }

    /// Returns whether a step, if there is one, is before that of the orders so far.
    fn is_past(self, step: Option<TurnStep>) -> bool
        ensures { result ≡ is_past self step }
    {
        match step {
            Some(step) => step.number() < self.step.number(),
            None => false,
        }
    }

    /// Returns why an order whose step is not past cannot be obeyed.
    fn objection_in_step(self, order: &Order) -> Option<(Refusal, Objection)>
        ensures { result ≡ objection_in_step self order.now }
    {
        match order {
            Order::Play(PlayOrder::Pay) => without_run(self.has_run),
            Order::Run { .. } | Order::Play(PlayOrder::RunBest) => beside_best(self.has_best),
            _ => None,
        }
    }
}
