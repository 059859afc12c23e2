//! What the stops ahead of a run are worth: those that it may pass, and those at which it ends.
ghost use Rattle.std.specs.Prelude.{◌≡◌, ℕ, ◌+◌, ◌-◌, ◌<◌, ◌≤◌, get_or};
ghost use Rattle.best_run.specs.Ahead.{HasPassed, HasRanked, HasTakenBack, at_level, ends_by, IsLeast};
ghost use Rattle.reach.specs.Search.{map_spots};

use tables::Amount;

/// How many levels there are: no dollars, ten, twenty, .., eighty. A stop is worth eighty at most.
pub(crate) const LEVELS: usize = 9;

/// The distance from one level to the next, in dollars.
const STEP: Amount = 10;

/// What some stops are worth, in dollars.
#[derive(Clone, Copy)]
pub(crate) struct Worth {
    /// How many of the levels are looked at: at least one. A run that may visit all stops earns
    /// least by the first.
    pub(crate) levels: usize,
    /// For each level, what the stops that may be passed are worth beyond it.
    pub(crate) beyond: [Amount; LEVELS],
    /// The greatest value of the stops at which runs end; 0 if there is none.
    pub(crate) first: Amount,
    /// The next greatest value of these.
    pub(crate) second: Amount,
}

impl Worth {
    /// Returns the worth of no stop, for this many levels.
    pub(crate) fn nothing(levels: usize) -> Worth
        ensures levels { result.levels ≡ levels }
        ensures beyond { (place : ℕ) → get_or result.beyond place 0 ≡ 0 }
        ensures first { result.first ≡ 0 }
        ensures second { result.second ≡ 0 }
    {
        Worth {
            levels,
            beyond: [0; LEVELS],
            first: 0,
            second: 0,
        }
    }

    /// Adds a stop that may be passed.
    pub(crate) fn pass(&mut self, value: Amount)
        requires value { value ≤ 80 }
        requires levels { 0 < self.old.levels }
        requires few { self.old.levels ≤ 9 }
        requires room { (place : ℕ) → place < self.old.levels → get_or self.old.beyond place 0 ≤
            59520 }
        ensures { HasPassed value self.old self.new }
    {
        self.beyond[0] += value;
        for place in 1..self.levels {
            self.beyond[place] += value.saturating_sub(STEP * place as Amount);
        }
    }

    /// Removes a stop that may be passed.
    pub(crate) fn take_back(&mut self, value: Amount)
        requires { self.old.levels ≤ 9 }
        ensures { HasTakenBack value self.old self.new }
    {
        for place in 0..self.levels {
            let more = value.saturating_sub(STEP * place as Amount);
            self.beyond[place] = self.beyond[place].saturating_sub(more);
        }
    }

    /// Adds a stop at which runs end.
    pub(crate) fn end(&mut self, value: Amount)
        requires { self.old.second ≤ self.old.first }
        ensures { HasRanked value self.old self.new }
    {
        if value > self.first {
            self.second = self.first;
            self.first = value;
        } else if value > self.second {
            self.second = value;
        }
    }

    /// Returns what the stops at which runs end are worth at most beyond a level, in dollars. It
    /// depends on whether the run may go on from where it is, and from where it began.
    fn ends(&self, level: Amount, on: bool, back: bool) -> Amount
        requires first { self.now.first ≤ 80 }
        requires second { self.now.second ≤ self.now.first }
        ensures value { let first = self.now.first - level in
            result ≡ ends_by on back first (first + (self.now.second - level)) }
        ensures bound { result ≤ 160 }
    {
        let first = self.first.saturating_sub(level);
        if on && back {
            return first + self.second.saturating_sub(level);
        }
        if on || back { first } else { 0 }
    }

    /// Returns what a run may earn at most by the level at a place, in dollars, with this many
    /// stops left. It depends on whether the run may go on from where it is, and from where it
    /// began.
    fn at_level(&self, place: usize, left: Amount, on: bool, back: bool) -> Amount
        requires place { place < self.now.levels }
        requires few { self.now.levels ≤ 9 }
        requires left { left ≤ map_spots }
        requires room { (each : ℕ) → each < self.now.levels → get_or self.now.beyond each 0 ≤
            59520 }
        requires first { self.now.first ≤ 80 }
        requires second { self.now.second ≤ self.now.first }
        ensures value { result ≡ at_level self.now place left on back }
        ensures bound { result ≤ 119200 }
    {
        let level = STEP * place as Amount;
        left * level + self.beyond[place] + self.ends(level, on, back)
    }

    /// Returns the least of these, over all levels.
    pub(crate) fn least(&self, left: Amount, on: bool, back: bool) -> Amount
        requires levels { 0 < self.now.levels }
        requires few { self.now.levels ≤ 9 }
        requires left { left ≤ map_spots }
        requires room { (each : ℕ) → each < self.now.levels → get_or self.now.beyond each 0 ≤
            59520 }
        requires first { self.now.first ≤ 80 }
        requires second { self.now.second ≤ self.now.first }
        ensures least { IsLeast self.now left on back result }
        ensures bound { result ≤ 119200 }
    {
        let mut least = self.at_level(0, left, on, back);
        for place in 1..self.levels {
            let here = self.at_level(place, left, on, back);
            if here < least {
                least = here;
            }
        }
        least
    }
}
