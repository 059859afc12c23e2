//! A game that was played to its end or as far as its sheets go, and why play stopped.
ghost use Rattle.std.specs.Prelude.{◌≡◌, IfErr, IfOk, length, true};
ghost use Rattle.history.specs.Sound.{IsSound};
ghost use Rattle.operating.specs.Calls.{Makes};
ghost use Rattle.rounds.specs.declared.fault.PlayFault.TheVariants.{Memory};
ghost use Rattle.rounds.specs.Faults.{IsRefused};
ghost use Rattle.rounds.specs.GameCalls.{GameCalls};
ghost use Rattle.rounds.specs.Play.{IsTheGame};
ghost use Rattle.sheets.specs.File.{players_of};

use crate::fault::PlayFault;
use crate::steps::{Play, Step};
use best_run::Search;
use history::History;
use legal_runs::Runner;
use sheets::Sheets;
use std::alloc::{AllocError, Global};
use std::marker::Model;
use tables::Round;

/// Why play stopped.
#[derive(Clone, Copy, Debug, PartialEq, Eq)]
pub enum End {
    /// This round is next, and some seat has no sheet for it.
    Awaiting(Round),
    /// The game is over: the bank is broken, and the operating rounds of its set are over, or of
    /// the next set if it broke in an opening or a stock round.
    Bank,
    /// The game is over: a president is bankrupt.
    Bankrupt,
}

/// A game that was played as far as its sheets go, or to its end.
#[derive(Drop)]
pub struct Game<'a> {
    sheets: &'a Sheets<'a>,
    history: History,
    end: End,
}

/// In a contract it is its file, its events and its end. It has a seat for each player of its file.
impl<'a> Model for Game<'a> {
    ghost use Rattle.std.specs.Prelude.{◌≡◌, length};
    ghost use Rattle.rounds.specs.Play.{Played};
    ghost use Rattle.sheets.specs.File.{players_of};

    ghost Value = { Played };

    ghost view = { λ game. record { file = game.sheets.now; game = game.history; end = game.end } };

    ghost invariant = { λ game. game.history.seats ≡ length (players_of game.sheets.now) };
}

impl<'a> Game<'a> {
    /// Returns its events.
    pub fn history(&self) -> &History
        ensures events { result.now ≡ self.now.game }
        ensures seats { self.now.game.seats ≡ length (players_of self.now.file) }
    {
        &self.history
    }

    /// Returns its events, and drops the sheets.
    pub fn into_history(self) -> History
        ensures events { result ≡ self.entry.game }
        ensures seats { result.seats ≡ length (players_of self.entry.file) }
    {
        self.history
    }

    /// Returns why play stopped.
    pub fn outcome(&self) -> End
        ensures { result ≡ self.now.end }
    {
        self.end
    }

    /// Returns the sheets that it was played from.
    pub fn sheets(&self) -> &'a Sheets<'a>
        ensures { result.now ≡ self.now.file }
    {
        self.sheets
    }
}

/// Plays the game of the sheets. For each RUN BEST it searches for the greatest revenue. Fails only
/// if allocation fails.
pub fn play<'a>(alloc: Global, sheets: &'a Sheets<'a>) -> Result<Game<'a>, AllocError>
    ensures file { IfOk result (λ game. game.file ≡ sheets.now) }
    ensures game { IfOk result IsTheGame }
    ensures sound { IfOk result (λ game. IsSound game.game) }
{
    let mut search = Search::new(alloc);
    match play_with(alloc, sheets, &mut search) {
        Ok(game) => Ok(game),
        Err(fault) => Err(fault.want_of_memory()),
    }
}

/// Plays the game of the sheets. The runner finds the greatest revenue for each RUN BEST. The error
/// is `Memory` if allocation fails, or `Refused` with the round and the company that the runner
/// refuses.
pub fn play_with<'a, R: Runner>(
    alloc: Global,
    sheets: &'a Sheets<'a>,
    runner: &mut R,
) -> Result<Game<'a>, PlayFault>
    ensures file { IfOk result (λ game. game.file ≡ sheets.now) }
    ensures game { IfOk result IsTheGame }
    ensures calls { Makes R.earns runner.old (GameCalls sheets.now result) runner.new }
    ensures sound { IfOk result (λ game. IsSound game.game) }
    ensures refuses { IfErr result (λ fault. IsRefused fault → R.may_refuse ≡ true) }
{
    let mut play = Play::start(alloc, sheets)?;
    loop {
        if let Step::Ended(end) = play.step(runner)? {
            return Ok(Game {
                sheets,
                history: play.into_history(),
                end,
            });
        }
    }
}
