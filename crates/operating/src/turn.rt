//! The turn of a company, from its home token to its end.
ghost use Rattle.std.specs.Prelude.{◌≡◌, ◌≤◌, ◌<◌, IfErr, IfOk, OnOk, length, true};
ghost use Rattle.legal_runs.specs.declared.runner.RunnerFault.TheVariants.{Refused};
ghost use Rattle.totals.specs.Shares.{is_floated};
ghost use Rattle.history.specs.Sound.{IsSound};
ghost use Rattle.operating.specs.Calls.{Makes};
ghost use Rattle.operating.specs.CompanyTurn.{IsInOrder, state};
ghost use Rattle.operating.specs.GameAndBoard.{IsLaidOut, game_on};
ghost use Rattle.operating.specs.MapState.{IsPrefix};
ghost use Rattle.operating.specs.Turn.{IsCompanyTurn, OrdersLead};
ghost use Rattle.operating.specs.TurnCalls.{OrdersCall, TurnCalls, led_to};
ghost use Rattle.sheets.specs.File.{players_of};
ghost use Rattle.turns.specs.Small.{AreSmall};

use crate::company_turn::CompanyTurn;
use crate::game_and_board::GameAndBoard;
use crate::home_token::place_home;
use crate::pay::withhold;
use forced_purchase::Operator;
use history::History;
use legal_runs::{Runner, RunnerFault};
use sheets::{PartsLeft, Sheets};
use std::alloc::Global;
use tables::{Company, Round};

/// Plays the turn of a company in an operating round, with the sheets for it. The list of events
/// must be sound, and its seats must be those of the sheets' players; the company must have
/// floated. It is meant for a company that has not operated in this round. The turn begins with
/// HOME if the company has no token at its home: in play, at its first turn. (In lists that no play
/// makes, the tokens on the map decide that, not earlier turns or HOME events.) The runner finds
/// the greatest revenue for a RUN BEST. Fails if allocation fails or the runner refuses, and then
/// drops the game.
pub fn play_company<R: Runner>(
    alloc: Global,
    history: History,
    sheets: &Sheets,
    round: Round,
    company: Company,
    runner: &mut R,
) -> Result<History, RunnerFault>
    requires floated { is_floated history.events company ≡ true }
    requires sound { IsSound history }
    requires seats { history.seats ≡ length (players_of sheets.now) }
    ensures turn { IfOk result (IsCompanyTurn sheets.now round company history) }
    ensures calls { Makes R.earns runner.old (TurnCalls sheets.now round company history result)
        runner.new }
    ensures seats { IfOk result (λ new. new.seats ≡ history.seats) }
    ensures sound { IfOk result IsSound }
    ensures refuses { IfErr result (λ fault. fault ≡ Refused → R.may_refuse ≡ true) }
{
    let game = GameAndBoard::lay_out(alloc, history)?;
    let played = play_on(alloc, game, sheets, round, company, runner)?;
    Ok(played.history)
}

/// Plays the turn of a company as `play_company` does, with a board that has the first of the tiles
/// and tokens laid so far. So has the board that it returns.
pub fn play_on<R: Runner>(
    alloc: Global,
    game: GameAndBoard,
    sheets: &Sheets,
    round: Round,
    company: Company,
    runner: &mut R,
) -> Result<GameAndBoard, RunnerFault>
    requires floated { is_floated game.history.events company ≡ true }
    requires laid { IsLaidOut game }
    requires seats { game.history.seats ≡ length (players_of sheets.now) }
    ensures turn { IfOk result (λ next.
        IsCompanyTurn sheets.now round company game.history next.history) }
    ensures calls { Makes R.earns runner.old
        (TurnCalls sheets.now round company game.history (game_on result)) runner.new }
    ensures seats { IfOk result (λ next. next.history.seats ≡ game.history.seats) }
    ensures laid { IfOk result IsLaidOut }
    ensures refuses { IfErr result (λ fault. fault ≡ Refused → R.may_refuse ≡ true) }
{
    let GameAndBoard { mut history, board } = game;
    let president = history.now().president(company);
    // For the proof only: the number is at most six, and so is that of the seats of the game.
    let _few = sheets.seats();
    place_home(&mut history, company)?;
    let Some(president) = president else {
        withhold(&mut history, company, 0)?;
        return Ok(GameAndBoard { history, board });
    };
    let by = Operator { company, president };
    let orders = sheets.company_orders(president, &round, company);
    let mut turn = CompanyTurn::begin(alloc, by, round, history, board);
    turn.play(&orders, runner)?;
    Ok(GameAndBoard {
        history: turn.history,
        board: turn.board,
    })
}

impl CompanyTurn {
    /// Plays the turn after the home token is placed: rules the orders, withholds if the company
    /// has neither paid nor withheld, and ends the turn.
    fn play<R: Runner>(&mut self, orders: &PartsLeft, runner: &mut R) -> Result<(), RunnerFault>
        requires few { self.old.history.seats ≤ 6 }
        requires at_table { self.old.by.president.0 < self.old.history.seats }
        requires small { AreSmall orders.now.before }
        requires order { IsInOrder self.old }
        ensures turn { OnOk result (OrdersLead self.old.by orders.now.before (state self.old)
            self.new.history) }
        ensures calls { Makes R.earns runner.old (OrdersCall self.old.by self.old.round
            orders.now.before (state self.old) (led_to self.new.history result)) runner.new }
        ensures sound { OnOk result (IsSound self.new.history) }
        ensures prefix { OnOk result (IsPrefix self.new.board.value self.new.history.events) }
        ensures refuses { IfErr result (λ fault. fault ≡ Refused → R.may_refuse ≡ true) }
    {
        let mut lines = orders.duplicate();
        let mut raises = Vec::new(self.alloc);
        self.rule_lines(&mut lines, &mut raises, runner)?;
        self.withhold_if_unpaid()?;
        self.end(raises)?;
        Ok(())
    }
}
