//! Events that follow from the list alone.
ghost use Rattle.std.specs.Prelude.{◌≡◌, ◌≤◌, OnErr, OnOk};
ghost use Rattle.events.specs.Event.{IsQuiet, sum_of};
ghost use Rattle.totals.specs.LookBack.{with_event};
ghost use Rattle.history.specs.Sound.{IsSound};
ghost use Rattle.history.specs.Record.{broken_recorded, left_recorded, revenue_recorded, revenues_recorded};

use crate::list::History;
use events::{Event, Party};
use std::alloc::AllocError;
use tables::{Private, Seat, revenue};

impl History {
    /// Adds an event that changes nothing that parties have and own, and nothing on the map. Fails
    /// only if allocation fails, which leaves the list unchanged.
    pub fn record_event(&mut self, event: Event) -> Result<(), AllocError>
        requires sum { sum_of event ≤ 1000000 }
        requires quiet { IsQuiet event }
        requires sound { IsSound self.old }
        ensures ok { OnOk result (self.new ≡ with_event self.old event) }
        ensures err { OnErr result (self.new ≡ self.old) }
        ensures sound { IsSound self.new }
    {
        self.append(event)?;
        Ok(())
    }

    /// Records that the bank is broken if its cash is 0 or less, unless that is recorded already.
    /// It is called after each payment of the bank. Fails only if allocation fails, which leaves
    /// the list unchanged.
    pub fn record_broken(&mut self) -> Result<(), AllocError>
        ensures ok { OnOk result (self.new ≡ broken_recorded self.old) }
        ensures err { OnErr result (self.new ≡ self.old) }
        ensures sound { IsSound self.old → IsSound self.new }
    {
        if self.cash(Party::Bank) > 0 || self.broken() {
            return Ok(());
        }
        self.append(Event::Broken)?;
        Ok(())
    }

    /// Records that each private with an owner pays its revenue to them, in roster order; that may
    /// break the bank. Fails only if allocation fails; then the list may have the first of these
    /// revenues.
    pub fn record_revenues(&mut self) -> Result<(), AllocError>
        requires { IsSound self.old }
        ensures ok { OnOk result (self.new ≡ revenues_recorded self.old) }
        ensures sound { IsSound self.new }
    {
        for &private in &Private::ALL {
            self.record_revenue(private)?;
        }
        Ok(())
    }

    /// Records that a private pays its owner, if it has one.
    fn record_revenue(&mut self, private: Private) -> Result<(), AllocError>
        requires { IsSound self.old }
        ensures ok { OnOk result (self.new ≡ revenue_recorded private self.old) }
        ensures sound { IsSound self.new }
    {
        let Some(owner) = self.owner(private) else {
            return Ok(());
        };
        self.append(Event::Revenue {
            private,
            owner,
            amount: revenue(private),
        })?;
        self.record_broken()
    }

    /// Records that this many lines of a seat's sheet were not reached, if there are any. Fails
    /// only if allocation fails, which leaves the list unchanged.
    pub fn record_left(&mut self, seat: Seat, lines: u32) -> Result<(), AllocError>
        requires { IsSound self.old }
        ensures ok { OnOk result (self.new ≡ left_recorded seat lines self.old) }
        ensures err { OnErr result (self.new ≡ self.old) }
        ensures sound { IsSound self.new }
    {
        if lines == 0 {
            return Ok(());
        }
        self.record_event(Event::Left { seat, lines })
    }
}
