//! The sheet for the coming round that is looked at, if any, and its orders, which are ruled ahead
//! of play.
ghost use Rattle.std.specs.Prelude.{◌≡◌, ◌≤◌, [], IfOk, OnOk, if◌then◌else◌};
ghost use Rattle.foresight.specs.Draft.{after_standing_of, file_of, is_drafters, opened_ahead, orders_of};
ghost use Rattle.forced_purchase.specs.Raise.{raises_in};
ghost use Rattle.history.specs.Sound.{IsSound};
ghost use Rattle.operating.specs.CompanyOrders.{LinesLead};
ghost use Rattle.operating.specs.CompanyTurn.{IsInOrder, state};
ghost use Rattle.totals.specs.LookBack.{with_events};
ghost use Rattle.totals.specs.Shares.{president_of};

use best_run::Search;
use forced_purchase::HeldRaise;
use history::{Event, History};
use legal_runs::RunnerFault;
use operating::CompanyTurn;
use purchases::{is_president, rule_standing_lines_of};
use sheets::Sheets;
use std::alloc::{AllocError, Global};
use tables::{Company, Round, Seat};

/// Which sheet for the coming round is looked at.
#[derive(Clone, Copy)]
pub struct Draft<'a> {
    /// The sheets of the order file.
    pub sheets: &'a Sheets<'a>,
    /// The player whose own sheet for that round is looked at; `None` if no sheet is.
    pub drafter: Option<Seat>,
}

impl Draft<'_> {
    /// Returns whether a company's orders are looked at, because its president's sheet is.
    pub(crate) fn has_orders(&self, history: &History, company: Company) -> bool
        ensures { file_of self.now.sheets.now (president_of history.now.events company)
            self.now.drafter ≡ (if result then self.now.sheets.now else []) }
    {
        match self.drafter {
            Some(drafter) => is_president(history.now().president(company), drafter),
            None => false,
        }
    }

    /// Rules the orders of a company in the sheet that is looked at, if that is its president's.
    /// Returns the RAISE lines among them, which are ruled at the end of the turn. Fails only if
    /// allocation fails.
    pub(crate) fn rule_orders(
        &self,
        alloc: Global,
        turn: &mut CompanyTurn,
    ) -> Result<Vec<HeldRaise>, AllocError>
        requires few { turn.old.history.seats ≤ 6 }
        requires order { IsInOrder turn.old }
        ensures turn { OnOk result (LinesLead turn.old.by (state turn.old)
            (orders_of self.now.sheets.now self.now.drafter turn.old.round turn.old.by)
            (state turn.new)) }
        ensures raises { IfOk result (λ raises. raises.items
            ≡ raises_in (orders_of self.now.sheets.now self.now.drafter turn.old.round
            turn.old.by)) }
        ensures by { OnOk result (turn.new.by ≡ turn.old.by) }
        ensures seats { OnOk result (turn.new.history.seats ≡ turn.old.history.seats) }
        ensures order { OnOk result (IsInOrder turn.new) }
    {
        let by = turn.by;
        if !self.is_drafters(by.president) {
            return Ok(Vec::new(alloc));
        }
        let orders = self
            .sheets
            .company_orders(by.president, &turn.round, by.company);
        let mut search = Search::new(alloc);
        match turn.rule_orders(&orders, &mut search) {
            Ok(raises) => Ok(raises),
            // An allocation failed: passed on.
            Err(RunnerFault::Memory | RunnerFault::Refused) => Err(AllocError),
        }
    }

    /// Returns whether the sheet that is looked at is that of a seat.
    fn is_drafters(&self, seat: Seat) -> bool
        ensures { result ≡ is_drafters self.now.drafter seat }
    {
        self.drafter == Some(seat)
    }

    /// Opens an operating round: the standing lines of the sheet that is looked at are ruled, and
    /// the privates pay. Fails only if allocation fails.
    pub(crate) fn open(&self, history: &mut History, round: Round) -> Result<(), AllocError>
        requires { IsSound history.old }
        ensures opened { OnOk result (history.new
            ≡ opened_ahead self.now.sheets.now self.now.drafter round history.old) }
        ensures sound { OnOk result (IsSound history.new) }
    {
        history.record_event(Event::Round(round))?;
        self.rule_standing(history, round)?;
        history.record_revenues()
    }

    /// Rules the standing lines of the sheet that is looked at, if one is.
    fn rule_standing(&self, history: &mut History, round: Round) -> Result<(), AllocError>
        requires { IsSound history.old }
        ensures after { OnOk result (history.new ≡ with_events history.old
            (after_standing_of self.now.sheets.now self.now.drafter round history.old.events)) }
        ensures sound { OnOk result (IsSound history.new) }
    {
        match self.drafter {
            Some(seat) => rule_standing_lines_of(history, self.sheets, round, seat),
            None => Ok(()),
        }
    }
}
