//! The ways of looking back over a list of events, each generic over the aspect of an event that it
//! looks at.
ghost use Rattle.std.specs.Prelude.{◌≡◌, ℕ, Option};
ghost use Rattle.events.specs.declared.event.Event.{Event};
ghost use Rattle.totals.specs.LookBack.{IsModerate, balance, in_round, last_said};

use events::Event;
use tables::{Amount, Money};

/// A topic of some events.
pub(crate) trait Topic {
    /// The word of an event on it.
    type Word;

    ghost word: { Self → Event → Option Self.Word };

    /// Returns an event's word on it; `None` if the event has none.
    fn word(&self, event: &Event) -> Option<Self::Word>
        ensures { result ≡ word self.now event.now };
}

/// A topic that lasts only for a round: an event that begins a round clears it.
#[derive(Clone, Copy)]
pub(crate) struct InRound<T>(pub T);

impl<T: Topic> Topic for InRound<T> {
    type Word = Option<T::Word>;

    ghost word = { λ a event. in_round (T.word a.0) event };

    fn word(&self, event: &Event) -> Option<Option<T::Word>> {
        if event.round().is_some() {
            return Some(None);
        }
        match self.0.word(event) {
            Some(word) => Some(Some(word)),
            None => None,
        }
    }
}

/// Returns the last word of some events on a topic.
pub(crate) fn last_said<T: Topic>(topic: &T, events: &[Event]) -> Option<T::Word>
    ensures { result ≡ last_said (T.word topic.now) events.now }
{
    for event in events.iter().rev() {
        if let Some(word) = topic.word(event) {
            return Some(word);
        }
    }
    None
}

/// An account that some events add to and some take from.
pub(crate) trait Account {
    ghost brings: { Self → Event → ℕ };

    ghost takes: { Self → Event → ℕ };

    /// Returns what an event adds.
    fn brings(&self, event: &Event) -> Amount
        ensures { result ≡ brings self.now event.now };

    /// Returns what an event takes.
    fn takes(&self, event: &Event) -> Amount
        ensures { result ≡ takes self.now event.now };
}

/// Returns an account's start, plus all that came in, minus all that went out.
pub(crate) fn balance<A: Account>(account: &A, start: Amount, events: &[Event]) -> Money
    ensures sum { result ≡ balance start (A.brings account.now) (A.takes account.now) events.now }
    ensures within { IsModerate result }
{
    let mut came_in = Money::from(start);
    let mut went_out = 0;
    for event in events {
        came_in += Money::from(account.brings(event));
        went_out += Money::from(account.takes(event));
    }
    came_in - went_out
}
