//! An operating round: the standing lines, the revenues of the privates, and then the turn of each
//! company in operating order.
ghost use Rattle.std.specs.Prelude.{◌≡◌, IfErr, IfOk, OnOk, length, true};
ghost use Rattle.totals.specs.LookBack.{with_events};
ghost use Rattle.totals.specs.Shares.{is_floated};
ghost use Rattle.history.specs.Sound.{IsSound};
ghost use Rattle.history.specs.Record.{left_recorded};
ghost use Rattle.operating.specs.Calls.{Makes};
ghost use Rattle.operating.specs.GameAndBoard.{IsLaidOut, game_on};
ghost use Rattle.operating.specs.Turn.{IsCompanyTurn};
ghost use Rattle.rounds.specs.Faults.{IsRefused};
ghost use Rattle.rounds.specs.GameCalls.{CompanyCalls, OperatingCalls, TurnsCall};
ghost use Rattle.rounds.specs.OperatingRound.{IsOperatingRound, TurnsLead, lines_left, operating_round_finished};
ghost use Rattle.rounds.specs.OperatingRound.{operating_round_opened};
ghost use Rattle.sheets.specs.File.{players_of};

use crate::fault::PlayFault;
use history::{Event, History};
use legal_runs::Runner;
use market::next_company;
use operating::{GameAndBoard, play_on};
use purchases::rule_standing_lines;
use sheets::Sheets;
use std::alloc::{AllocError, Global};
use tables::{Company, Round, Seat};

/// Plays an operating round with the sheets for it. The standing lines and the revenues of the
/// privates come first, and then the turn of each company, in the operating order at the time. The
/// list of events must be sound, and its seats must be those of the sheets' players. Fails if
/// allocation fails or the runner refuses, and then drops the game.
pub(crate) fn play_operating<R: Runner>(
    alloc: Global,
    history: History,
    sheets: &Sheets,
    round: Round,
    runner: &mut R,
) -> Result<History, PlayFault>
    requires sound { IsSound history }
    requires seats { history.seats ≡ length (players_of sheets.now) }
    ensures round { IfOk result (λ new. IsOperatingRound sheets.now round history new) }
    ensures calls { Makes R.earns runner.old (OperatingCalls sheets.now round history result)
        runner.new }
    ensures seats { IfOk result (λ new. new.seats ≡ history.seats) }
    ensures sound { IfOk result IsSound }
    ensures refuses { IfErr result (λ fault. IsRefused fault → R.may_refuse ≡ true) }
{
    let mut history = history;
    open(&mut history, sheets, round)?;
    let mut history = take_turns(alloc, history, sheets, round, runner)?;
    record_all_left(&mut history, sheets, round)?;
    Ok(history)
}

/// Opens the round: the standing lines are ruled, and the privates pay their revenues.
fn open(history: &mut History, sheets: &Sheets, round: Round) -> Result<(), AllocError>
    requires sound { IsSound history.old }
    requires seats { history.old.seats ≡ length (players_of sheets.now) }
    ensures opened { OnOk result (history.new
        ≡ operating_round_opened sheets.now round history.old) }
    ensures sound { OnOk result (IsSound history.new) }
{
    history.record_event(Event::Round(round))?;
    rule_standing_lines(history, sheets, round)?;
    history.record_revenues()
}

/// Plays the turns of companies, until each that operates has had one, or a president is bankrupt.
fn take_turns<R: Runner>(
    alloc: Global,
    history: History,
    sheets: &Sheets,
    round: Round,
    runner: &mut R,
) -> Result<History, PlayFault>
    requires sound { IsSound history }
    requires seats { history.seats ≡ length (players_of sheets.now) }
    ensures turns { IfOk result (λ turned. TurnsLead sheets.now round history turned) }
    ensures calls { Makes R.earns runner.old (TurnsCall sheets.now round history result)
        runner.new }
    ensures seats { IfOk result (λ turned. turned.seats ≡ history.seats) }
    ensures sound { IfOk result IsSound }
    ensures refuses { IfErr result (λ fault. IsRefused fault → R.may_refuse ≡ true) }
{
    // Laws, which do nothing when they run: they show that the next company has floated, and that
    // the loop ends.
    market::laws::floated_companies_in_order();
    operating::laws::company_operates();
    let mut game = GameAndBoard::lay_out(alloc, history)?;
    while let Some(company) = next_company(&game.history) {
        game = take_turn(alloc, game, sheets, round, company, runner)?;
    }
    Ok(game.history)
}

/// Plays the turn of a company, with a board that has the first of the tiles and tokens.
fn take_turn<R: Runner>(
    alloc: Global,
    game: GameAndBoard,
    sheets: &Sheets,
    round: Round,
    company: Company,
    runner: &mut R,
) -> Result<GameAndBoard, PlayFault>
    requires floated { is_floated game.history.events company ≡ true }
    requires laid { IsLaidOut game }
    requires seats { game.history.seats ≡ length (players_of sheets.now) }
    ensures turn { IfOk result (λ next.
        IsCompanyTurn sheets.now round company game.history next.history) }
    ensures calls { Makes R.earns runner.old
        (CompanyCalls sheets.now round company game.history (game_on result)) runner.new }
    ensures seats { IfOk result (λ next. next.history.seats ≡ game.history.seats) }
    ensures laid { IfOk result IsLaidOut }
    ensures refuses { IfErr result (λ fault. IsRefused fault → R.may_refuse ≡ true) }
{
    match play_on(alloc, game, sheets, round, company, runner) {
        Ok(game) => Ok(game),
        Err(fault) => Err(PlayFault::in_turn(fault, round, company)),
    }
}

/// Records how many lines of each sheet were not reached; heads do not count.
fn record_all_left(history: &mut History, sheets: &Sheets, round: Round) -> Result<(), AllocError>
    requires { IsSound history.old }
    ensures after { OnOk result (history.new ≡ with_events history.old
        (operating_round_finished sheets.now round (length (players_of sheets.now))
        history.old.events)) }
    ensures sound { OnOk result (IsSound history.new) }
{
    // A law, which does nothing when it runs: recording the lines left does not change the count of
    // rulings.
    history::laws::rulings_are_counted();
    for seat in 0..sheets.seats() {
        record_left(history, sheets, round, Seat::at(seat))?;
    }
    Ok(())
}

/// Records how many lines of a seat's sheet were not reached.
fn record_left(
    history: &mut History,
    sheets: &Sheets,
    round: Round,
    seat: Seat,
) -> Result<(), AllocError>
    requires { IsSound history.old }
    ensures after { OnOk result (history.new
        ≡ left_recorded seat (lines_left sheets.now round history.old.events seat) history.old) }
    ensures sound { OnOk result (IsSound history.new) }
{
    let lines = sheets.parts(seat, round).count() as usize;
    let left = lines.saturating_sub(history.now().rulings_in_round(seat));
    history.record_left(seat, left as u32)
}
