//! The orders that a president has for a company, ruled line by line. The checks of a line are in
//! this order: its own fault, its place, its condition, and the rules of its order.
ghost use Rattle.std.specs.Prelude.{◌≡◌, ◌≢◌, ◌≤◌, ◌++◌, ◌∷◌, [], IfErr, OnOk, not, true};
ghost use Rattle.std.specs.Bool.{OnTrue};
ghost use Rattle.std.specs.Option.{option_copied};
ghost use Rattle.legal_runs.specs.declared.runner.RunnerFault.TheVariants.{Refused};
ghost use Rattle.events.specs.declared.ruling.Ruling.TheVariants.{Faulty};
ghost use Rattle.forced_purchase.specs.Raise.{raises_in};
ghost use Rattle.operating.specs.Calls.{Makes};
ghost use Rattle.operating.specs.CompanyOrders.{AskedLeads, LineLeads, LinesLead, OrderLeads};
ghost use Rattle.operating.specs.CompanyOrders.{is_held, is_ruled_there};
ghost use Rattle.operating.specs.CompanyTurn.{GoesOn, IsInOrder, state};
ghost use Rattle.operating.specs.TurnCalls.{AskedCalls, LineCalls, LinesCall, OrderCalls, led_to};
ghost use Rattle.operating.specs.TurnState.{line_recorded};
ghost use Rattle.order_grammar.specs.declared.order.Order.TheVariants.{Play};
ghost use Rattle.order_grammar.specs.declared.play.PlayOrder.TheVariants.{RunBest};
ghost use Rattle.sheets.specs.Part.{faulty_line, line_unread, line_with};
ghost use Rattle.turns.specs.Small.{AreSmall, IsSmallOrder, IsSmallReading};

use crate::company_turn::CompanyTurn;
use forced_purchase::{HeldRaise, hold_if_raise};
use history::{History, Refusal};
use legal_runs::{Runner, RunnerFault};
use order_grammar::{Condition, Fault, Order, PlayOrder};
use sheets::{PartsLeft, ReadLine, UnreadLine};
use std::alloc::AllocError;
use turns::{record, record_fault};

impl CompanyTurn {
    /// Rules the lines of the company's orders, and adds the RAISE lines among them to `raises`.
    pub(crate) fn rule_lines<R: Runner>(
        &mut self,
        orders: &mut PartsLeft,
        raises: &mut Vec<HeldRaise>,
        runner: &mut R,
    ) -> Result<(), RunnerFault>
        requires few { self.old.history.seats ≤ 6 }
        requires small { AreSmall orders.old.before }
        requires order { IsInOrder self.old }
        ensures turn { OnOk result (LinesLead self.old.by (state self.old) orders.old.before
            (state self.new)) }
        ensures calls { Makes R.earns runner.old (LinesCall self.old.by self.old.round
            orders.old.before (state self.old) (led_to (state self.new) result)) runner.new }
        ensures by { OnOk result (self.new.by ≡ self.old.by) }
        ensures seats { OnOk result (self.new.history.seats ≡ self.old.history.seats) }
        ensures order { OnOk result (IsInOrder self.new) }
        ensures raises { OnOk result (raises.new.items
            ≡ raises.old.items ++ raises_in orders.old.before) }
        ensures refuses { IfErr result (λ fault. fault ≡ Refused → R.may_refuse ≡ true) }
    {
        let mut order = Order::Blank;
        while let Some(line) = orders.take_line() {
            self.rule_line(line, &mut order, raises, runner)?;
        }
        Ok(())
    }

    /// Rules a line of the company's orders, and carries it out if it is obeyed. Adds it to
    /// `raises` if it is a RAISE. Overwrites `order`.
    fn rule_line<R: Runner>(
        &mut self,
        line: UnreadLine,
        order: &mut Order,
        raises: &mut Vec<HeldRaise>,
        runner: &mut R,
    ) -> Result<(), RunnerFault>
        requires few { self.old.history.seats ≤ 6 }
        requires small { IsSmallReading (line_unread line).reading }
        requires order { IsInOrder self.old }
        ensures turn { OnOk result (LineLeads self.old.by (state self.old) (line_unread line.entry)
            (state self.new)) }
        ensures calls { Makes R.earns runner.old (LineCalls self.old.by self.old.round
            (line_unread line.entry) (state self.old) (led_to (state self.new) result)) runner.new }
        ensures order { OnOk result (GoesOn self.old self.new) }
        ensures raises { OnOk result (raises.new.items
            ≡ raises.old.items ++ raises_in (line_unread line.entry ∷ [])) }
        ensures refuses { IfErr result (λ fault. fault ≡ Refused → R.may_refuse ≡ true) }
    {
        match line.read_into(order) {
            Ok(read) => {
                hold_if_raise(raises, &self.history, read, order)?;
                self.rule_asked(read, order, runner)
            }
            Err(fault) => Ok(self.rule_faulty(line.number, fault)?),
        }
    }

    /// Rules an order in this line. If it is ruled at its place, its condition is checked first. If
    /// that is not met, the order is refused and nothing else happens.
    fn rule_asked<R: Runner>(
        &mut self,
        line: ReadLine,
        order: &Order,
        runner: &mut R,
    ) -> Result<(), RunnerFault>
        requires few { self.old.history.seats ≤ 6 }
        requires small { IsSmallOrder order.now }
        requires order { IsInOrder self.old }
        ensures turn { OnOk result (AskedLeads self.old.by (state self.old)
            (line_with line order.now) order.now
            (is_held self.old.history.events line.condition order.now)
            (state self.new)) }
        ensures calls { Makes R.earns runner.old (AskedCalls self.old.by self.old.round
            (line_with line order.now) order.now
            (is_held self.old.history.events line.condition order.now)
            (state self.old) (led_to (state self.new) result)) runner.new }
        ensures order { OnOk result (GoesOn self.old self.new) }
        ensures refuses { IfErr result (λ fault. fault ≡ Refused → R.may_refuse ≡ true) }
    {
        if is_held(&self.history, line.condition.as_ref(), order) {
            return Ok(self.refuse_held(line, order)?);
        }
        self.rule_order(line, order, runner)
    }

    /// Records that the order in this line is refused because its condition is not met.
    fn refuse_held(&mut self, line: ReadLine, order: &Order) -> Result<(), AllocError>
        requires { IsInOrder self.old }
        ensures turn { OnOk result (AskedLeads self.old.by (state self.old)
            (line_with line order.now) order.now true (state self.new)) }
        ensures order { OnOk result (GoesOn self.old self.new) }
    {
        let refusal = Some(Refusal::Condition);
        record(&mut self.history, self.by.president, line, order, refusal)?;
        Ok(())
    }

    /// Rules the line with this number, which has a fault of its own.
    fn rule_faulty(&mut self, line: u32, fault: Fault) -> Result<(), AllocError>
        requires { IsInOrder self.old }
        ensures turn { OnOk result (state self.new
            ≡ line_recorded self.old.by (state self.old) (faulty_line line fault) (Faulty fault)) }
        ensures order { OnOk result (GoesOn self.old self.new) }
    {
        record_fault(&mut self.history, self.by.president, line, fault)
    }

    /// Rules an order in this line whose condition is met or absent, and carries it out if it is
    /// obeyed. The runner is called only for the best runs.
    fn rule_order<R: Runner>(
        &mut self,
        line: ReadLine,
        order: &Order,
        runner: &mut R,
    ) -> Result<(), RunnerFault>
        requires few { self.old.history.seats ≤ 6 }
        requires small { IsSmallOrder order.now }
        requires order { IsInOrder self.old }
        ensures turn { OnOk result (OrderLeads self.old.by (state self.old)
            (line_with line order.now) order.now (state self.new)) }
        ensures calls { Makes R.earns runner.old (OrderCalls self.old.by self.old.round
            (line_with line order.now) order.now (state self.old) (led_to (state self.new) result))
            runner.new }
        ensures order { OnOk result (GoesOn self.old self.new) }
        ensures refuses { IfErr result (λ fault. fault ≡ Refused → R.may_refuse ≡ true) }
    {
        if is_best(order) {
            return self.rule_best(line, runner);
        }
        Ok(self.rule_other(line, order)?)
    }

    /// Rules an order other than RUN BEST. What is no order of play is out of place.
    fn rule_other(&mut self, line: ReadLine, order: &Order) -> Result<(), AllocError>
        requires few { self.old.history.seats ≤ 6 }
        requires small { IsSmallOrder order.now }
        requires order { IsInOrder self.old }
        requires other { order.now ≢ Play RunBest }
        ensures turn { OnOk result (OrderLeads self.old.by (state self.old)
            (line_with line order.now) order.now (state self.new)) }
        ensures order { OnOk result (GoesOn self.old self.new) }
    {
        match order {
            Order::Run { kind, run } => self.rule_run(line, order, *kind, run),
            Order::Play(play) => self.rule_play(line, order, *play),
            _ => self.rule_faulty(line.number, Fault::OutOfPlace),
        }
    }

    /// Rules an order of play other than a run. A RAISE is ruled at the end of the turn. Any order
    /// that is not of companies is out of place.
    fn rule_play(
        &mut self,
        line: ReadLine,
        order: &Order,
        play: PlayOrder,
    ) -> Result<(), AllocError>
        requires few { self.old.history.seats ≤ 6 }
        requires small { IsSmallOrder order.now }
        requires order { IsInOrder self.old }
        requires is { order.now ≡ Play play }
        requires other { order.now ≢ Play RunBest }
        ensures turn { OnOk result (OrderLeads self.old.by (state self.old)
            (line_with line order.now) order.now (state self.new)) }
        ensures order { OnOk result (GoesOn self.old self.new) }
    {
        match play {
            PlayOrder::Lay(lay) => self.rule_lay(line, order, lay),
            PlayOrder::Token(place) => self.rule_token(line, order, place),
            PlayOrder::Pay => self.rule_pay(line, order),
            PlayOrder::Withhold => self.rule_withhold(line, order),
            PlayOrder::BuyTrain { kind, from } => {
                self.withhold_if_unpaid()?;
                self.rule_train(line, order, kind, from)?;
                Ok(())
            }
            PlayOrder::BuyOwnedPrivate { private, price } => {
                self.rule_private(line, order, private, price)
            }
            PlayOrder::Raise { .. } => Ok(()),
            _ => self.rule_faulty(line.number, Fault::OutOfPlace),
        }
    }
}

/// Returns whether an order is RUN BEST.
fn is_best(order: &Order) -> bool
    ensures best { OnTrue result (order.now ≡ Play RunBest) }
    ensures other { OnTrue (not result) (order.now ≢ Play RunBest) }
{
    matches!(order, Order::Play(PlayOrder::RunBest))
}

/// Returns whether an order that is ruled at its place in a company's orders has a condition that
/// is not met. The condition of a RAISE is checked at the end of the turn, and that of an order out
/// of place never.
fn is_held(history: &History, condition: Option<&Condition>, order: &Order) -> bool
    ensures { result
        ≡ is_held history.now.events (option_copied condition.entry) order.now }
{
    is_ruled_there(order) && !history.is_met(condition)
}

/// Returns whether an order is ruled at its place in a company's orders: a RAISE waits for the end
/// of the turn, and some orders are out of place.
fn is_ruled_there(order: &Order) -> bool
    ensures { result ≡ is_ruled_there order.now }
{
    matches!(
        order,
        Order::Play(PlayOrder::Lay(_) | PlayOrder::Token(_))
            | Order::Run { .. }
            | Order::Play(
                PlayOrder::RunBest
                    | PlayOrder::Pay
                    | PlayOrder::Withhold
                    | PlayOrder::BuyTrain { .. }
                    | PlayOrder::BuyOwnedPrivate { .. }
            )
    )
}
