//! How many operating rounds the set has.
ghost use Rattle.std.specs.Prelude.{◌≡◌, ◌≤◌, false};
ghost use Rattle.desk_base.specs.SetNumber.{IsNumberPlayed, at_round, in_phase, number_in_set, set_of, set_then};
ghost use Rattle.desk_base.specs.SetNumber.{end_after};
ghost use Rattle.rounds.specs.Play.{IsTheGame};
ghost use Rattle.sheets.specs.Laws.{number_of};
ghost use Rattle.totals.specs.LookBack.{bankrupt_in};
ghost use Rattle.tables.specs.Round.{number_most};
ghost use Rattle.tables.specs.declared.round.Round.TheVariants.{Operating};

use history::{Event, History};
use rounds::{End, Game};
use tables::{Kind, Round, rounds_in_set};

/// The phase, and how many operating rounds the set has that began last. At the start of a game it
/// is that of a set that begins in the first phase.
#[derive(Clone, Copy)]
pub(crate) struct SetSoFar {
    phase: Kind,
    rounds: u8,
}

impl SetSoFar {
    /// Returns the set after one more event.
    fn then(self, event: &Event) -> SetSoFar
        ensures { result ≡ set_then self event.now }
    {
        self.in_phase(event.phase()).at_round(event.round())
    }

    /// Returns the set after an event that begins this phase, if it begins one.
    fn in_phase(self, begun: Option<Kind>) -> SetSoFar
        ensures { result ≡ in_phase self begun }
    {
        match begun {
            Some(phase) => SetSoFar { phase, ..self },
            None => self,
        }
    }

    /// Returns the set after an event that begins this round, if it begins one. A stock round
    /// begins a set.
    fn at_round(self, begun: Option<Round>) -> SetSoFar
        ensures { result ≡ at_round self begun }
    {
        match begun {
            Some(Round::Stock(_)) => SetSoFar {
                rounds: rounds_in_set(self.phase),
                ..self
            },
            _ => self,
        }
    }
}

/// Returns how many operating rounds the set has that began last, or that begins with the awaited
/// round: the number by which the game has been played so far, and goes on.
#[tactic(auto, using(crate::proofs::SetLemmas::is_number_played))]
pub fn number_in_set(game: &Game) -> u8
    requires { IsTheGame game.now }
    ensures { IsNumberPlayed game.now result }
{
    // A law, which does nothing when it runs: a round adds the event that begins it, and none that
    // begins another.
    rounds::laws::rounds_only_add();
    number_after(game.history(), game.outcome())
}

/// Returns that number by the list of events and the reason why play stopped.
pub(crate) fn number_after(history: &History, end: End) -> u8
    ensures { result ≡ number_in_set end history.now.events }
{
    match end {
        End::Awaiting(Round::Stock(_)) => rounds_in_set(history.phase()),
        _ => set_of(history.events()).rounds,
    }
}

/// Returns the phase and the set that a list of events has reached.
fn set_of(events: &[Event]) -> SetSoFar
    ensures { result ≡ set_of events.now }
{
    let mut set = SetSoFar {
        phase: Kind::Two,
        rounds: rounds_in_set(Kind::Two),
    };
    for event in events {
        set = set.then(event);
    }
    set
}

/// Returns what comes after the round that was played last: the next one, or how the game ended.
pub fn end_after(history: &History, round: Round) -> End
    ensures { number_of round ≤ number_most → result ≡ end_after round history.now.events }
{
    if history.now().bankrupt() {
        return End::Bankrupt;
    }
    match round {
        Round::Opening(_) if history.now().cheapest_unsold().is_none() => {
            End::Awaiting(Round::Stock(1))
        }
        Round::Opening(number) => End::Awaiting(Round::Opening(number.saturating_add(1))),
        Round::Stock(set) => End::Awaiting(Round::Operating { set, number: 1 }),
        Round::Operating { set, number } => after_operating(history, set, number),
    }
}

/// Returns what comes after an operating round, by its set and its number in that set.
fn after_operating(history: &History, set: u32, number: u8) -> End
    requires { bankrupt_in history.now.events ≡ false }
    ensures { set ≤ number_most → result ≡ end_after (Operating set number) history.now.events }
{
    let most = set_of(history.events()).rounds;
    if number < most {
        End::Awaiting(Round::Operating {
            set,
            number: number.saturating_add(1),
        })
    } else if history.broken() {
        End::Bank
    } else {
        End::Awaiting(Round::Stock(set.saturating_add(1)))
    }
}
