//! A walk along a list of events, with the totals of those passed so far.
ghost use Rattle.std.specs.Prelude.{◌≡◌, ◌+◌, ◌<◌, ◌≤◌, length, take};
ghost use Rattle.totals.specs.Totals.{AreTotalsOf};
ghost use Rattle.totals.specs.LookBack.{FitsMemory};

use events::Event;
use totals::{GameView, Totals};

/// A list of events, the number passed so far, and the totals of those. To look at a game at one
/// point and then at a later one, it applies each event only once.
#[derive(Clone, Copy)]
pub struct Walk<'a> {
    /// All events.
    pub events: &'a [Event],
    /// How many of them have been passed.
    pub passed: usize,
    totals: Totals,
    ghost short: { FitsMemory events.now },
    ghost within: { passed ≤ length events.now },
    ghost kept: { AreTotalsOf totals (take passed events.now) },
}

impl<'a> Walk<'a> {
    /// Returns a walk before the first of these events.
    pub fn along(events: &'a [Event]) -> Walk<'a>
        requires { FitsMemory events.now }
        ensures events { result.events.now ≡ events.now }
        ensures passed { result.passed ≡ 0 }
    {
        Walk {
            events,
            passed: 0,
            totals: Totals::start(),
        }
    }

    /// Goes to the place after this many events, back to the start first if that place lies before
    /// it.
    pub fn go(&mut self, end: usize)
        requires { end ≤ length self.old.events.now }
        ensures events { self.new.events.now ≡ self.old.events.now }
        ensures passed { self.new.passed ≡ end }
    {
        if self.passed > end {
            self.restart();
        }
        while self.passed < end {
            self.pass();
        }
    }

    /// Goes back to the start.
    #[inline(never)]
    fn restart(&mut self)
        ensures events { self.new.events.now ≡ self.old.events.now }
        ensures passed { self.new.passed ≡ 0 }
    {
        *self = Walk::along(self.events);
    }

    /// Passes the next event.
    fn pass(&mut self)
        requires { self.old.passed < length self.old.events.now }
        ensures events { self.new.events.now ≡ self.old.events.now }
        ensures passed { self.new.passed ≡ self.old.passed + 1 }
    {
        let events = self.events;
        self.totals.apply(&events[self.passed]);
        self.passed += 1;
    }

    /// Returns a view of the game after the events passed so far.
    pub fn view(&self, seats: usize) -> GameView<'_>
        ensures { result ≡ record { seats = seats; events = take self.now.passed self.now.events.now } }
    {
        GameView::of(seats, &self.events[..self.passed], &self.totals)
    }
}
