//! A game played a round at a time.
ghost use Rattle.std.specs.Prelude.{◌≡◌, ◌≤◌, IfErr, IfOk, MatchOption, Ok, Some, false, length, option_map, true};
ghost use Rattle.std.specs.Option.{ForSome};
ghost use Rattle.history.specs.Sound.{IsSound};
ghost use Rattle.operating.specs.Calls.{Makes};
ghost use Rattle.rounds.specs.Faults.{IsRefused};
ghost use Rattle.rounds.specs.GameCalls.{PlayedCalls};
ghost use Rattle.rounds.specs.Gifts.{GiftsWait};
ghost use Rattle.rounds.specs.Play.{IsPlayed, IsToPlay, coming, end_of, goes_on, in_set_before};
ghost use Rattle.rounds.specs.Play.{rounds_of_new_set};
ghost use Rattle.rounds.specs.Sequence.{turn_in_set};
ghost use Rattle.rounds.specs.Steps.{ComesNearer, ComesNext, IsOver, IsUnbroken, StepCalls, StepLeads, game_so_far};
ghost use Rattle.rounds.specs.Steps.{started};
ghost use Rattle.sheets.specs.File.{players_of};
ghost use Rattle.sheets.specs.Laws.{number_of};
ghost use Rattle.tables.specs.Round.{number_most, operating_most};

use crate::fault::PlayFault;
use crate::following::Next;
use crate::game::End;
use crate::operating_round::play_operating;
use crate::sequence::next;
use history::History;
use legal_runs::Runner;
use privates::play_opening;
use sheets::Sheets;
use std::alloc::{AllocError, Global};
use std::marker::Model;
use std::mem;
use stock_round::play_stock;
use tables::{Round, rounds_in_set};

/// The result of a step of play.
#[derive(Clone, Copy, Debug, PartialEq, Eq)]
pub enum Step {
    /// This round was played.
    Played(Round),
    /// No round can be played: play has stopped, for this reason.
    Ended(End),
}

/// A game that is played a round at a time, as far as its sheets go or to its end.
#[derive(Drop)]
pub struct Play<'a> {
    alloc: Global,
    sheets: &'a Sheets<'a>,
    /// The game so far; after play was broken off, a game without events.
    history: History,
    /// The number of operating rounds of the set.
    in_set: u8,
    upcoming: Next,
    /// Why play was broken off, if it was.
    fault: Option<PlayFault>,
    /// The last round played.
    last_round: Option<Round>,
    /// Why play stopped, once a step has returned that.
    outcome: Option<End>,
}

/// In a contract it is its file, the two rounds that it is between or the fault that broke it off,
/// the round played last, and why play stopped.
impl<'a> Model for Play<'a> {
    ghost use Rattle.std.specs.Prelude.{◌≡◌, None};
    ghost use Rattle.rounds.specs.Steps.{HasComeTo, Underway, there_unless};

    ghost Value = { Underway };

    ghost view = { λ play. record {
      file = play.sheets.now;
      there = there_unless play.fault
          (record { game = play.history; in_set = play.in_set; next = play.upcoming });
      last_round = play.last_round;
      outcome = play.outcome;
    } };

    ghost invariant = { λ play. play.fault ≡ None → HasComeTo play.sheets.now
        (record { game = play.history; in_set = play.in_set; next = play.upcoming }) };
}

impl<'a> Play<'a> {
    /// Returns the game of these sheets, before its first round. Play uses this allocator. Fails
    /// only if allocation fails.
    pub fn start(alloc: Global, sheets: &'a Sheets<'a>) -> Result<Play<'a>, AllocError>
        ensures { IfOk result (λ play. play ≡ started sheets.now) }
    {
        let history = History::start(alloc, sheets.seats());
        let in_set = rounds_of_new_set(&history);
        Ok(Play {
            alloc,
            sheets,
            history,
            in_set,
            upcoming: Next::Round(Round::Opening(1)),
            fault: None,
            last_round: None,
            outcome: None,
        })
    }

    /// Plays the next round, if there is one and every seat has a sheet for it; otherwise returns
    /// why play stopped, and so does each later step. The runner finds the greatest revenue for
    /// each RUN BEST. Fails if allocation fails or the runner refuses. That breaks play off, and
    /// each later step returns the same error.
    pub fn step<R: Runner>(&mut self, runner: &mut R) -> Result<Step, PlayFault>
        ensures step { StepLeads self.old result self.new }
        ensures calls { Makes R.earns runner.old (StepCalls self.old self.new) runner.new }
        ensures nearer { ComesNearer self.old result self.new }
        ensures refuses { IsUnbroken self.old →
            IfErr result (λ fault. IsRefused fault → R.may_refuse ≡ true) }
    {
        if let Some(fault) = self.fault {
            return Err(fault);
        }
        match round_to_play(self.sheets, self.upcoming) {
            Some(round) => self.play_next(round, runner),
            None => Ok(self.stop()),
        }
    }

    /// Plays the next round.
    fn play_next<R: Runner>(&mut self, round: Round, runner: &mut R) -> Result<Step, PlayFault>
        requires { ComesNext self.old round }
        ensures step { StepLeads self.old result self.new }
        ensures calls { Makes R.earns runner.old (StepCalls self.old self.new) runner.new }
        ensures nearer { ComesNearer self.old result self.new }
        ensures refuses { IfErr result (λ fault. IsRefused fault → R.may_refuse ≡ true) }
    {
        // A law, which does nothing when it runs: it shows that steps end.
        sheets::laws::sheets_are_numbered();
        let history = mem::replace(&mut self.history, History::start(self.alloc, 0));
        match play_round(self.alloc, history, self.sheets, round, runner) {
            Ok(history) => {
                self.upcoming = coming(&history, round, self.in_set);
                self.in_set = in_set_before(&history, self.upcoming, self.in_set);
                self.history = history;
                self.last_round = Some(round);
                Ok(Step::Played(round))
            }
            Err(fault) => {
                self.fault = Some(fault);
                Err(fault)
            }
        }
    }

    /// Stops play. Returns why.
    fn stop(&mut self) -> Step
        requires { IsOver self.old }
        ensures { StepLeads self.old (Ok result) self.new }
    {
        let end = end_after(&self.history, self.upcoming);
        self.outcome = Some(end);
        Step::Ended(end)
    }

    /// Returns the game so far; `None` once play was broken off.
    pub fn history(&self) -> Option<&History>
        ensures game { option_map (λ history. history.now) result ≡ game_so_far self.now }
        ensures seats { ForSome result
            (λ history. history.now.seats ≡ length (players_of self.now.file)) }
        ensures sound { ForSome result (λ history. IsSound history.now) }
    {
        match self.fault {
            None => Some(&self.history),
            Some(_) => None,
        }
    }

    /// Returns the sheets that it is played from.
    pub fn sheets(&self) -> &'a Sheets<'a>
        ensures { result.now ≡ self.now.file }
    {
        self.sheets
    }

    /// Returns the last round played; `None` before the first. A round in which play was broken off
    /// does not count.
    pub fn last_round(&self) -> Option<Round>
        ensures { result ≡ self.now.last_round }
    {
        self.last_round
    }

    /// Returns why play stopped; `None` until a step has returned that.
    pub fn outcome(&self) -> Option<End>
        ensures { result ≡ self.now.outcome }
    {
        self.outcome
    }

    /// Returns the game so far, and drops the sheets. Play must not have been broken off.
    pub fn into_history(self) -> History
        requires { IsUnbroken self }
        ensures game { game_so_far self.entry ≡ Some result }
        ensures seats { result.seats ≡ length (players_of self.entry.file) }
        ensures sound { IsSound result }
    {
        self.history
    }
}

/// Returns the next round, if there is one and every seat has a sheet for it.
fn round_to_play(sheets: &Sheets, upcoming: Next) -> Option<Round>
    ensures { MatchOption result (goes_on sheets.now upcoming ≡ false)
        (λ round. IsToPlay sheets.now upcoming round) }
{
    match upcoming {
        Next::Round(round) if sheets.are_all_posted(&round) => Some(round),
        _ => None,
    }
}

/// Returns what comes after a round: nothing once a president is bankrupt, otherwise what the
/// sequence says.
fn coming(history: &History, round: Round, in_set: u8) -> Next
    requires number { number_of round ≤ number_most }
    requires least { 1 ≤ in_set }
    requires most { in_set ≤ operating_most }
    requires within { turn_in_set round ≤ in_set }
    ensures { result ≡ coming round in_set history.now.events }
{
    if history.now().bankrupt() {
        return Next::Ended;
    }
    let all_sold = history.now().cheapest_unsold().is_none();
    next(round, in_set, all_sold, history.broken())
}

/// Returns why play stops, given what comes next.
fn end_after(history: &History, upcoming: Next) -> End
    ensures { result ≡ end_of upcoming history.now.events }
{
    match upcoming {
        Next::Round(round) => End::Awaiting(round),
        Next::Ended if history.now().bankrupt() => End::Bankrupt,
        Next::Ended => End::Bank,
    }
}

/// Plays a round, by its kind. Fails if allocation fails or the runner refuses, and then drops the
/// game.
fn play_round<R: Runner>(
    alloc: Global,
    history: History,
    sheets: &Sheets,
    round: Round,
    runner: &mut R,
) -> Result<History, PlayFault>
    requires sound { IsSound history }
    requires seats { history.seats ≡ length (players_of sheets.now) }
    requires gifts { GiftsWait round history.events }
    ensures round { IfOk result (IsPlayed sheets.now round history) }
    ensures calls { Makes R.earns runner.old (PlayedCalls sheets.now round history result)
        runner.new }
    ensures seats { IfOk result (λ new. new.seats ≡ history.seats) }
    ensures sound { IfOk result IsSound }
    ensures gifts { IfOk result (λ new. GiftsWait round new.events) }
    ensures refuses { IfErr result (λ fault. IsRefused fault → R.may_refuse ≡ true) }
{
    match round {
        Round::Opening(_) => Ok(play_opening(alloc, history, sheets, round)?),
        Round::Stock(_) => Ok(play_stock(alloc, history, sheets, round)?),
        Round::Operating { .. } => play_operating(alloc, history, sheets, round, runner),
    }
}

/// Returns how many operating rounds a set that begins now has, by the phase.
fn rounds_of_new_set(history: &History) -> u8
    ensures { result ≡ rounds_of_new_set history.now.events }
{
    rounds_in_set(history.phase())
}

/// Returns how many operating rounds the set has, given what comes next. The number is fixed when
/// the stock round of the set begins.
fn in_set_before(history: &History, upcoming: Next, in_set: u8) -> u8
    ensures { result ≡ in_set_before upcoming history.now.events in_set }
{
    match upcoming {
        Next::Round(Round::Stock(_)) => rounds_of_new_set(history),
        Next::Round(Round::Opening(_) | Round::Operating { .. }) | Next::Ended => in_set,
    }
}
