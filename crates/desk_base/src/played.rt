//! Which rounds of a game were played.
ghost use Rattle.std.specs.Prelude.{◌≡◌};
ghost use Rattle.desk_base.specs.Played.{begins, round_asked, was_played};

use history::Event;
use rounds::Game;
use tables::{Round, same_round};

/// Returns whether a round was played, by the events of a game.
pub fn was_played(events: &[Event], round: Round) -> bool
    ensures { result ≡ was_played events.now round }
{
    for event in events {
        if begins(round, event) {
            return true;
        }
    }
    false
}

/// Returns whether an event begins a round.
fn begins(round: Round, event: &Event) -> bool
    ensures { result ≡ begins round event.now }
{
    match event.round() {
        Some(begun) => same_round(begun, round),
        None => false,
    }
}

/// Returns the named round, or if none is named the last one played; `None` before the first.
pub fn round_asked(game: &Game, asked: Option<Round>) -> Option<Round>
    ensures { result ≡ round_asked game.now asked }
{
    match asked {
        Some(round) => Some(round),
        None => game.history().now().round(),
    }
}
