//! A game between two rounds: after the last that its sheets play, after a round, or before one.
ghost use Rattle.std.specs.Prelude.{◌≡◌, IfErr, IfOk, MatchOption, None, Ok, Some, false, true};
ghost use Rattle.desk_base.specs.Moments.{IsBefore, IsBehind, IsFromStart, IsNumbered, ShowsBetween, StandsIn};
ghost use Rattle.desk_base.specs.Moments.{end_shown, is_awaited, is_last};
ghost use Rattle.desk_base.specs.Played.{IsRoundFault};
ghost use Rattle.desk_base.specs.SetNumber.{number_in_set};
ghost use Rattle.rounds.specs.Steps.{ComesNext, game_so_far};
ghost use Rattle.rounds.specs.Play.{Between};
ghost use Rattle.rounds.specs.declared.game.End.TheVariants.{Awaiting};

use crate::fault::DeskFault;
use crate::set_number::{end_after, number_after};
use best_run::Search;
use history::History;
use rounds::{End, Play, Step};
use sheets::Sheets;
use std::alloc::{AllocError, Global};
use tables::{Round, same_round};

/// A moment between two rounds of a game.
#[derive(Clone, Copy)]
pub enum Moment {
    /// After the last round that its sheets play.
    Last,
    /// After this round.
    After(Round),
    /// Before this round, which was played.
    Before(Round),
    /// Before the last round that its sheets play.
    BeforeLast,
}

/// A game at a moment between two rounds.
#[derive(Clone, Copy)]
pub struct Stood<'a> {
    /// The sheets of the whole game.
    pub sheets: &'a Sheets<'a>,
    /// The events so far.
    pub history: &'a History,
    /// The next round, or how the game ended.
    pub end: End,
    /// The number of operating rounds of the set, or of the set that the next round begins.
    pub in_set: u8,
}

/// Returns a game after the rounds that were played; `None` once a fault has stopped play.
pub fn stood_now<'a>(play: &'a Play<'a>) -> Option<Stood<'a>>
    ensures { MatchOption result (game_so_far play.now ≡ None) (λ stood. StandsIn play.now stood) }
{
    match play.history() {
        Some(history) => Some(stood_in(play, history)),
        None => None,
    }
}

/// Returns a game after the rounds that were played, in which this happened.
fn stood_in<'a>(play: &'a Play<'a>, history: &'a History) -> Stood<'a>
    requires { game_so_far play.now ≡ Some history.now }
    ensures file { result.sheets.now ≡ play.now.file }
    ensures game { result.history.now ≡ history.now }
    ensures end { IsNumbered play.now.last_round → result.end
        ≡ end_shown play.now.outcome play.now.last_round history.now.events }
    ensures in_set { result.in_set ≡ number_in_set result.end history.now.events }
    ensures there { (there : Between) → play.now.there ≡ Ok there → IsFromStart play.now.file play.now
        → ShowsBetween there result }
{
    // Laws, which do nothing when they run, and the number of players, at least three: a round that
    // all of them have sent sheets for has a number that a line may have.
    rounds::laws::rounds_only_add();
    sheets::laws::sheets_are_numbered();
    let _players = play.sheets().seats();
    let end = end_shown(play.outcome(), play.last_round(), history);
    Stood {
        sheets: play.sheets(),
        history,
        end,
        in_set: number_after(history, end),
    }
}

/// Returns what comes after all that has happened, or how the game ended: by the end that a step
/// has returned, or else by the round that was played last.
fn end_shown(outcome: Option<End>, last: Option<Round>, history: &History) -> End
    ensures { IsNumbered last → result ≡ end_shown outcome last history.now.events }
{
    match (outcome, last) {
        (Some(end), _) => end,
        (None, Some(round)) => end_after(history, round),
        (None, None) => End::Awaiting(Round::Opening(1)),
    }
}

/// Plays the game of some sheets up to the end of a round. Fails with `Round` if that round is not
/// played.
#[tactic(auto, using(crate::proofs::MomentLemmas::at_start, crate::proofs::MomentLemmas::one_step_on, crate::proofs::PlayedLemmas::none_at_first, crate::proofs::PlayedLemmas::none_one_step_on, crate::proofs::PlayedLemmas::last_is_other, crate::proofs::PlayedLemmas::not_played_at_end))]
pub(crate) fn play_behind<'a>(
    alloc: Global,
    sheets: &'a Sheets<'a>,
    asked: Round,
) -> Result<Play<'a>, DeskFault>
    ensures behind { IfOk result (IsBehind sheets.now asked) }
    ensures fault { IfErr result (IsRoundFault sheets.now (Some asked)) }
{
    // Laws, which do nothing when they run, and the number of players, at least three.
    rounds::laws::rounds_only_add();
    sheets::laws::sheets_are_numbered();
    let _players = sheets.seats();
    let mut play = Play::start(alloc, sheets)?;
    let mut search = Search::new(alloc);
    loop {
        match play.step(&mut search) {
            Ok(Step::Played(_)) if is_last(play.last_round(), asked) => return Ok(play),
            Ok(Step::Played(_)) => {}
            Ok(Step::Ended(_)) => return Err(DeskFault::Round),
            Err(fault) => return Err(DeskFault::from(fault.want_of_memory())),
        }
    }
}

/// Plays the game of some sheets up to the start of a round. Fails with `Round` if that round is
/// not played.
#[tactic(auto, using(crate::proofs::MomentLemmas::at_start, crate::proofs::MomentLemmas::one_step_on, crate::proofs::PlayedLemmas::none_at_first, crate::proofs::PlayedLemmas::none_one_step_on, crate::proofs::PlayedLemmas::next_is_other, crate::proofs::PlayedLemmas::not_played_at_end))]
pub(crate) fn play_before<'a>(
    alloc: Global,
    sheets: &'a Sheets<'a>,
    asked: Round,
) -> Result<Play<'a>, DeskFault>
    ensures before { IfOk result (IsBefore sheets.now asked) }
    ensures fault { IfErr result (IsRoundFault sheets.now (Some asked)) }
{
    // A law, which does nothing when it runs.
    rounds::laws::rounds_only_add();
    let mut play = Play::start(alloc, sheets)?;
    let mut search = Search::new(alloc);
    loop {
        if comes_next(&play, asked) {
            return Ok(play);
        }
        match play.step(&mut search) {
            Ok(Step::Played(_)) => {}
            Ok(Step::Ended(_)) => return Err(DeskFault::Round),
            Err(fault) => return Err(DeskFault::from(fault.want_of_memory())),
        }
    }
}

/// Returns whether the round that was played last is this.
fn is_last(last: Option<Round>, asked: Round) -> bool
    ensures { result ≡ is_last last asked }
{
    match last {
        Some(round) => same_round(round, asked),
        None => false,
    }
}

/// Returns whether a round comes next, and each player has a sheet for it.
#[tactic(auto, using(crate::proofs::PlayedLemmas::not_awaited, crate::proofs::PlayedLemmas::not_posted, crate::proofs::PlayedLemmas::not_shown))]
fn comes_next(play: &Play, asked: Round) -> bool
    ensures next { result ≡ true → IsFromStart play.now.file play.now → ComesNext play.now asked }
    ensures other { result ≡ false → IsFromStart play.now.file play.now → ComesNext play.now asked → ⊥ }
{
    match stood_now(play) {
        Some(stood) => is_awaited(stood.end, asked) && play.sheets().are_all_posted(&asked),
        None => false,
    }
}

/// Returns whether a game awaits this round.
fn is_awaited(end: End, asked: Round) -> bool
    ensures { result ≡ is_awaited end asked }
{
    match end {
        End::Awaiting(round) => same_round(round, asked),
        End::Bank | End::Bankrupt => false,
    }
}
