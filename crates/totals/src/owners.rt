//! The owners of the privates, kept up to date an event at a time.
ghost use Rattle.std.specs.Prelude.{◌≡◌};
ghost use Rattle.std.specs.Option.{option_or};
ghost use Rattle.events.specs.Event.{ownership_of};
ghost use Rattle.totals.specs.Totals.{word_in};
ghost use Rattle.tables.specs.declared.roster.Private.TheVariants.{SchuylkillValley};
ghost use Rattle.totals.specs.LookBack.{cheapest_in, is_sold_in, owner_in, owner_said};

use events::{Event, Holder};
use tables::{PRIVATES, PerPrivate, Private};

/// The last word on the owner of each private, in a list of events.
#[derive(Clone, Copy, Debug)]
pub struct Owners {
    /// By the private's place in the roster; `None` if it is unsold.
    pub(crate) said: PerPrivate<Option<Option<Holder>>>,
}

impl Owners {
    /// Returns the owners before any private is sold.
    pub(crate) fn unsold() -> Owners
        ensures word { (private : Private) → word_in result private ≡ None }
        ensures cheapest { cheapest_in result ≡ Some SchuylkillValley }
    {
        Owners {
            said: [None; PRIVATES],
        }
    }

    /// Applies an event's word on the owner of a private, if it has one.
    pub(crate) fn apply(&mut self, event: &Event)
        ensures { (private : Private) → word_in self.new private
            ≡ option_or (owner_said private (ownership_of event.now)) (word_in self.old private) }
    {
        if let Some(ownership) = event.ownership() {
            self.said[ownership.private.index()] = Some(ownership.owner);
        }
    }

    /// Returns who owns a private; `None` while it is unsold, and once it is closed.
    pub fn owner(&self, private: Private) -> Option<Holder>
        ensures { result ≡ owner_in self.now private }
    {
        self.said[private.index()].flatten()
    }

    /// Returns whether a private has been sold.
    pub fn is_sold(&self, private: Private) -> bool
        ensures { result ≡ is_sold_in self.now private }
    {
        self.said[private.index()].is_some()
    }

    /// Returns the first private in roster order that is unsold.
    pub fn cheapest_unsold(&self) -> Option<Private>
        ensures { result ≡ cheapest_in self.now }
    {
        for &private in &Private::ALL {
            if !self.is_sold(private) {
                return Some(private);
            }
        }
        None
    }
}
