//! A company's turn in parts, for looking ahead of play: its beginning, the effect of some of its
//! orders, its end, and a whole turn without orders.
ghost use Rattle.std.specs.Prelude.{◌≡◌, ◌≤◌, ◌<◌, [], IfErr, IfOk, OnOk, true};
ghost use Rattle.forced_purchase.specs.Raise.{raises_in};
ghost use Rattle.history.specs.Sound.{IsSound};
ghost use Rattle.legal_runs.specs.declared.runner.RunnerFault.TheVariants.{Refused};
ghost use Rattle.operating.specs.BoardAsker.{asker_of};
ghost use Rattle.operating.specs.CompanyOrders.{LinesLead};
ghost use Rattle.operating.specs.CompanyTurn.{IsInOrder, state};
ghost use Rattle.operating.specs.GameAndBoard.{IsLaidOut};
ghost use Rattle.operating.specs.Pay.{withheld_if_unpaid};
ghost use Rattle.operating.specs.Turn.{IsCompanyTurn, begun};
ghost use Rattle.operating.specs.TurnEnd.{EndLeads};
ghost use Rattle.totals.specs.Shares.{is_floated};
ghost use Rattle.turns.specs.Small.{AreSmall};

use crate::board_asker::asker;
use crate::company_turn::CompanyTurn;
use crate::game_and_board::GameAndBoard;
use crate::home_token::place_home;
use crate::pay::withhold;
use board::Asker;
use forced_purchase::{HeldRaise, Operator};
use legal_runs::{Runner, RunnerFault};
use sheets::PartsLeft;
use std::alloc::{AllocError, Global};
use tables::{Company, Round};

/// Returns the turn of a company at the start of its orders, with its home token placed. Fails only
/// if allocation fails.
pub fn begin_turn(
    alloc: Global,
    game: GameAndBoard,
    round: Round,
    by: Operator,
) -> Result<CompanyTurn, AllocError>
    requires { IsLaidOut game }
    ensures turn { IfOk result (λ turn. state turn ≡ begun game.history by.company) }
    ensures by { IfOk result (λ turn. turn.by ≡ by) }
    ensures round { IfOk result (λ turn. turn.round ≡ round) }
    ensures seats { IfOk result (λ turn. turn.history.seats ≡ game.history.seats) }
    ensures order { IfOk result IsInOrder }
{
    let GameAndBoard { mut history, board } = game;
    place_home(&mut history, by.company)?;
    Ok(CompanyTurn::begin(alloc, by, round, history, board))
}

/// Plays the turn of a company without orders, as if the order file had no sheet. Fails only if
/// allocation fails.
pub fn pass_turn(
    alloc: Global,
    game: GameAndBoard,
    round: Round,
    company: Company,
) -> Result<GameAndBoard, AllocError>
    requires floated { is_floated game.history.events company ≡ true }
    requires few { game.history.seats ≤ 6 }
    requires laid { IsLaidOut game }
    ensures turn { IfOk result (λ next. IsCompanyTurn [] round company game.history next.history) }
    ensures seats { IfOk result (λ next. next.history.seats ≡ game.history.seats) }
    ensures laid { IfOk result IsLaidOut }
{
    let GameAndBoard { mut history, board } = game;
    let president = history.now().president(company);
    place_home(&mut history, company)?;
    let Some(president) = president else {
        withhold(&mut history, company, 0)?;
        return Ok(GameAndBoard { history, board });
    };
    let by = Operator { company, president };
    let turn = CompanyTurn::begin(alloc, by, round, history, board);
    let next = turn.finish(Vec::new(alloc))?;
    Ok(next)
}

impl CompanyTurn {
    /// Returns the company as the rules of the board see it, with its turn so far.
    pub fn asker(&self) -> Asker
        ensures { result ≡ asker_of self.now.history self.now.by.company self.now.progress }
    {
        asker(&self.history, self.by.company, self.progress)
    }

    /// Rules the lines of some orders of the company. Returns the RAISE lines among them, which are
    /// ruled at the end of the turn. Fails if allocation fails or the runner refuses.
    pub fn rule_orders<R: Runner>(
        &mut self,
        orders: &PartsLeft,
        runner: &mut R,
    ) -> Result<Vec<HeldRaise>, RunnerFault>
        requires few { self.old.history.seats ≤ 6 }
        requires small { AreSmall orders.now.before }
        requires order { IsInOrder self.old }
        ensures turn { OnOk result (LinesLead self.old.by (state self.old) orders.now.before
            (state self.new)) }
        ensures by { OnOk result (self.new.by ≡ self.old.by) }
        ensures seats { OnOk result (self.new.history.seats ≡ self.old.history.seats) }
        ensures order { OnOk result (IsInOrder self.new) }
        ensures raises { IfOk result (λ raises. raises.items ≡ raises_in orders.now.before) }
        ensures refuses { IfErr result (λ fault. fault ≡ Refused → R.may_refuse ≡ true) }
    {
        let mut lines = orders.duplicate();
        let mut raises = Vec::new(self.alloc);
        self.rule_lines(&mut lines, &mut raises, runner)?;
        Ok(raises)
    }

    /// Ends the turn with the RAISE lines of its orders that were held: the company withholds if it
    /// has neither paid nor withheld, and buys a train if it must. Fails only if allocation fails.
    pub fn finish(self, raises: Vec<HeldRaise>) -> Result<GameAndBoard, AllocError>
        requires few { self.history.seats ≤ 6 }
        requires at_table { self.by.president.0 < self.history.seats }
        requires order { IsInOrder self }
        ensures turn { IfOk result (λ next. EndLeads self.by raises.items
            (withheld_if_unpaid self.by.company (state self)).game next.history) }
        ensures laid { IfOk result IsLaidOut }
    {
        let mut turn = self;
        turn.withhold_if_unpaid()?;
        turn.end(raises)?;
        Ok(GameAndBoard {
            history: turn.history,
            board: turn.board,
        })
    }
}
