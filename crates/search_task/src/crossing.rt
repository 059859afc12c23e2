//! The set of the borders that a leg crosses.
ghost use Rattle.std.specs.Prelude.{◌≡◌, ℕ, ◌<◌, IsTrue, Some, length};
ghost use Rattle.legal_runs.specs.Legal.{map_borders};
ghost use Rattle.search_task.specs.Crossed.{cleared_all};
ghost use Rattle.search_task.specs.Crossed.{IsShared, numbers_in};
ghost use Rattle.search_task.specs.Crossed.{marked_all, misses};
ghost use Rattle.reach.specs.Position.{IsAmong};

use crate::bit_set::Borders;
use std::marker::Model;

/// Some borders. In a contract they are the list of their numbers, in order.
#[derive(Drop)]
pub struct Crossing {
    set: Borders,
}

impl Model for Crossing {
    ghost use Rattle.std.specs.Prelude.{◌≡◌, length};
    ghost use Rattle.search_task.specs.Crossed.{Crossed};

    ghost Value = { Crossed };

    ghost use Rattle.search_task.specs.Crossed.{numbers_in};
    ghost use Rattle.legal_runs.specs.Legal.{map_borders};

    ghost view = { λ crossing. record { items = numbers_in crossing.set } };

    ghost invariant = { λ crossing. length crossing.set ≡ map_borders };
}

impl Crossing {
    /// Returns the borders that are marked.
    pub(crate) fn of(set: Borders) -> Crossing
        ensures { result.items ≡ numbers_in set }
    {
        set.is_whole();
        Crossing { set }
    }

    /// Returns whether none of them is used.
    pub fn misses(&self, used: &Borders) -> bool
        ensures { result ≡ misses used.now self.now.items }
    {
        used.is_apart_from(&self.set)
    }

    /// Returns the used borders, with these.
    pub fn marked_in(&self, used: &Borders) -> Borders
        ensures { result ≡ marked_all used.now self.now.items }
    {
        used.is_whole();
        used.with(&self.set)
    }

    /// Removes the marks of these borders.
    pub fn clear_in(&self, marks: &mut Borders)
        ensures { marks.new ≡ cleared_all marks.old self.now.items }
    {
        marks.clear(&self.set)
    }

    /// Returns a border that is one of these and of others; `None` if there is none.
    pub fn shared(&self, other: &Crossing) -> Option<usize>
        ensures shared { IsShared self.now.items other.now.items result }
        ensures low { (border : ℕ) → result ≡ Some border → border < map_borders }
    {
        if self.set.is_apart_from(&other.set) {
            return None;
        }
        let mut rest = self.set.copy();
        rest.clear(&other.set);
        let mut shared = self.set.copy();
        shared.clear(&rest);
        shared.first()
    }

    /// Returns whether a border is one of these.
    pub fn crosses(&self, border: usize) -> bool
        requires { border < map_borders }
        ensures { IsTrue result → IsAmong border self.now.items }
    {
        self.set.has(border)
    }

    /// Returns whether all of these are among others.
    pub(crate) fn is_within(&self, other: &Crossing) -> bool
        ensures { IsTrue result
            → (border : ℕ) → IsAmong border self.now.items → IsAmong border other.now.items }
    {
        self.set.is_within(&other.set)
    }
}
