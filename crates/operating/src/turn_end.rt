//! The end of a company's turn: it buys a train if it must.
ghost use Rattle.std.specs.Prelude.{◌≡◌, ◌≤◌, ◌<◌, ◌↔◌, IfOk, IsTrue, OnOk};
ghost use Rattle.board_state.specs.MapState.{position_of};
ghost use Rattle.history.specs.Sound.{IsSound};
ghost use Rattle.legal_runs.specs.TwoTrain.{CanRun};
ghost use Rattle.operating.specs.CompanyTurn.{IsInOrder, state};
ghost use Rattle.operating.specs.MapState.{IsPrefix, map_state_now};
ghost use Rattle.operating.specs.TurnEnd.{EndLeads, IsDue};

use crate::company_turn::CompanyTurn;
use crate::map_state::update_map_state;
use board::Board;
use forced_purchase::{HeldRaise, buy_by_force, rule_raises};
use history::History;
use legal_runs::can_run;
use purchases::has_trains;
use std::alloc::AllocError;
use tables::Company;

impl CompanyTurn {
    /// Returns whether the company must buy a train if its turn ends here: it has none, and could
    /// run one. Fails only if allocation fails.
    pub fn must_buy(&mut self) -> Result<bool, AllocError>
        requires { IsInOrder self.old }
        ensures due { IfOk result (λ due. IsTrue due ↔ IsDue self.old.history self.old.by.company) }
        ensures turn { OnOk result (state self.new ≡ state self.old) }
        ensures by { OnOk result (self.new.by ≡ self.old.by) }
        ensures order { OnOk result (IsInOrder self.new) }
    {
        is_due(&mut *self.board, &self.history, self.by.company)
    }

    /// Returns whether the company could run a train of kind 2, if it had one. Fails only if
    /// allocation fails.
    pub fn could_run(&mut self) -> Result<bool, AllocError>
        requires { IsInOrder self.old }
        ensures could { IfOk result (λ could. IsTrue could
            ↔ CanRun (position_of (map_state_now self.old.history.events)) self.old.by.company) }
        ensures turn { OnOk result (state self.new ≡ state self.old) }
        ensures by { OnOk result (self.new.by ≡ self.old.by) }
        ensures order { OnOk result (IsInOrder self.new) }
    {
        let board = &mut *self.board;
        update_map_state(board, &self.history)?;
        Ok(can_run(&*board, self.by.company))
    }

    /// Ends the turn once the company has paid or withheld: it buys a train if it must, and the
    /// RAISE lines of its orders that were held are ruled. Fails only if allocation fails.
    pub(crate) fn end(&mut self, raises: Vec<HeldRaise>) -> Result<(), AllocError>
        requires few { self.old.history.seats ≤ 6 }
        requires at_table { self.old.by.president.0 < self.old.history.seats }
        requires order { IsInOrder self.old }
        ensures turn { OnOk result (EndLeads self.old.by raises.items self.old.history
            self.new.history) }
        ensures sound { OnOk result (IsSound self.new.history) }
        ensures prefix { OnOk result (IsPrefix self.new.board.value self.old.history.events) }
    {
        let due = is_due(&mut *self.board, &self.history, self.by.company)?;
        if due {
            buy_by_force(self.alloc, &mut self.history, self.by, raises)?;
            return Ok(());
        }
        rule_raises(&mut self.history, self.by, raises, false)?;
        Ok(())
    }
}

/// Returns whether a company must buy a train: it has none, and could run one of kind 2.
fn is_due(board: &mut Board, history: &History, company: Company) -> Result<bool, AllocError>
    requires { IsPrefix board.old history.now.events }
    ensures due { IfOk result (λ due. IsTrue due ↔ IsDue history.now company) }
    ensures prefix { OnOk result (IsPrefix board.new history.now.events) }
{
    if has_trains(&history.now(), company) {
        return Ok(false);
    }
    update_map_state(board, history)?;
    Ok(can_run(&*board, company))
}
