//! PAY and WITHHOLD: a company pays out what its trains earned in its turn, or withholds it. Both
//! are allowed only once in a turn, and PAY only with a revenue. A company that withholds gets all
//! of it from the bank, and its token on the chart moves left. A company that has done neither
//! withholds by itself before it buys a train, and when its orders end.
ghost use Rattle.std.specs.Prelude.{◌≡◌, ◌≤◌, OnOk};
ghost use Rattle.history.specs.Games.{IsGame};
ghost use Rattle.history.specs.Sound.{IsSound};
ghost use Rattle.operating.specs.CompanyTurn.{GoesOn, IsInOrder, state};
ghost use Rattle.operating.specs.Pay.{after_pay, after_withhold, pay_judgement, withheld};
ghost use Rattle.operating.specs.Pay.{withheld_if_unpaid, withhold_judgement};
ghost use Rattle.operating.specs.TurnState.{turn_state};
ghost use Rattle.sheets.specs.Part.{line_with};

use crate::company_turn::CompanyTurn;
use crate::progress::Progress;
use certs::pay_out;
use forced_purchase::Operator;
use history::{Event, History, PayRule, Refusal};
use market::move_token_left;
use order_grammar::Order;
use sheets::ReadLine;
use std::alloc::AllocError;
use tables::{Amount, Company, rules};
use turns::record;

/// Returns the rule that a PAY breaks; `None` if it breaks none.
fn judge_pay(progress: &Progress) -> Option<PayRule>
    ensures { result ≡ pay_judgement progress.now }
{
    rules! { PayRule
        NothingToPay: progress.is_past_pay() || progress.runs.revenue == 0,
    }
}

/// Returns the rule that a WITHHOLD breaks; `None` if it breaks none.
fn judge_withhold(progress: &Progress) -> Option<PayRule>
    ensures { result ≡ withhold_judgement progress.now }
{
    rules! { PayRule
        NothingToPay: progress.is_past_pay(),
    }
}

impl CompanyTurn {
    /// Rules a PAY in this line, and pays if it is obeyed.
    pub(crate) fn rule_pay(&mut self, line: ReadLine, order: &Order) -> Result<(), AllocError>
        requires few { self.old.history.seats ≤ 6 }
        requires order { IsInOrder self.old }
        ensures turn { OnOk result (state self.new
            ≡ after_pay self.old.by (state self.old) (line_with line order.now) order.now) }
        ensures order { OnOk result (GoesOn self.old self.new) }
    {
        rule_pay(&mut self.history, self.by, line, order, &mut self.progress)
    }

    /// Rules a WITHHOLD in this line, and withholds if it is obeyed.
    pub(crate) fn rule_withhold(&mut self, line: ReadLine, order: &Order) -> Result<(), AllocError>
        requires { IsInOrder self.old }
        ensures turn { OnOk result (state self.new
            ≡ after_withhold self.old.by (state self.old) (line_with line order.now) order.now) }
        ensures order { OnOk result (GoesOn self.old self.new) }
    {
        let by = self.by;
        let broken = judge_withhold(&self.progress).map(Refusal::Pay);
        if record(&mut self.history, by.president, line, order, broken)? {
            withhold(&mut self.history, by.company, self.progress.runs.revenue)?;
            self.progress.pass_pay();
        }
        Ok(())
    }

    /// Withholds what the company earned, unless it has paid or withheld already.
    pub fn withhold_if_unpaid(&mut self) -> Result<(), AllocError>
        requires { IsInOrder self.old }
        ensures turn { OnOk result (state self.new
            ≡ withheld_if_unpaid self.old.by.company (state self.old)) }
        ensures order { OnOk result (GoesOn self.old self.new) }
        ensures board { OnOk result (self.new.board ≡ self.old.board) }
    {
        if !self.progress.is_unpaid() {
            return Ok(());
        }
        withhold(
            &mut self.history,
            self.by.company,
            self.progress.runs.revenue,
        )?;
        self.progress.pass_pay();
        Ok(())
    }
}

/// Rules a PAY in this line, and pays if it is obeyed: that ends the step of payment.
fn rule_pay(
    history: &mut History,
    by: Operator,
    line: ReadLine,
    order: &Order,
    progress: &mut Progress,
) -> Result<(), AllocError>
    requires { IsGame history.old }
    ensures turn { OnOk result (turn_state history.new progress.new
        ≡ after_pay by (turn_state history.old progress.old) (line_with line order.now) order.now) }
    ensures sound { OnOk result (IsSound history.new) }
{
    let broken = judge_pay(progress).map(Refusal::Pay);
    if record(history, by.president, line, order, broken)? {
        pay_out(history, by.company, progress.runs.revenue)?;
        progress.pass_pay();
    }
    Ok(())
}

/// Pays a company from the bank what it withholds, and moves its token on the chart left.
pub(crate) fn withhold(
    history: &mut History,
    company: Company,
    amount: Amount,
) -> Result<(), AllocError>
    requires sound { IsSound history.old }
    requires sum { amount ≤ 1000000 }
    ensures after { OnOk result (history.new ≡ withheld history.old company amount) }
    ensures sound { OnOk result (IsSound history.new) }
{
    history.append(Event::Withheld { company, amount })?;
    history.record_broken()?;
    move_token_left(history, company)?;
    Ok(())
}
