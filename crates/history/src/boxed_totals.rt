//! The totals of a game as the game keeps them: in a box, so that a game is few bytes to pass on.
ghost use Rattle.std.specs.Prelude.{◌++◌, ◌∷◌, ◌<◌, ◌^◌, [], ◌≡◌, IfOk, List, MatchOption, OnOk, length};
ghost use Rattle.events.specs.declared.event.Event.{Event as TheEvent};
ghost use Rattle.totals.specs.Totals.{AreTotalsOf};
ghost use Rattle.history.specs.BoxedTotals.{HasBox, HasTotalsOf};

use events::Event;
use std::alloc::{AllocError, Global};
use totals::Totals;

/// The totals of a list of events. There is no box before the first event.
#[derive(Drop)]
pub(crate) struct BoxedTotals {
    boxed: Option<Box<Totals>>,
}

impl BoxedTotals {
    /// Returns the totals of no events; allocates nothing.
    pub(crate) fn start() -> BoxedTotals
        ensures { HasTotalsOf result [] }
    {
        BoxedTotals { boxed: None }
    }

    /// Returns the totals; `None` if nothing has happened.
    pub(crate) fn totals(&self) -> Option<&Totals>
        ensures { (events : List TheEvent) → HasTotalsOf self.now events →
            MatchOption result (events ≡ []) (λ totals. AreTotalsOf totals.now events) }
    {
        match &self.boxed {
            Some(totals) => Some(&**totals),
            None => None,
        }
    }

    /// Makes the box, if there is none, so that an event can be applied. The totals do not change,
    /// even if the allocation of the box fails.
    pub(crate) fn reserve(&mut self, alloc: Global) -> Result<(), AllocError>
        ensures same { (events : List TheEvent) →
            HasTotalsOf self.old events → HasTotalsOf self.new events }
        ensures room { OnOk result (HasBox self.new) }
    {
        if self.boxed.is_none() {
            self.boxed = Some(boxed(alloc)?);
        }
        Ok(())
    }

    /// Applies one more event.
    pub(crate) fn apply(&mut self, event: &Event)
        requires { HasBox self.old }
        ensures { (events : List TheEvent) →
            length events < 2 ^ 63 → HasTotalsOf self.old events →
            HasTotalsOf self.new (events ++ event.now ∷ []) }
    {
        if let Some(totals) = &mut self.boxed {
            totals.apply(event);
        }
    }
}

/// Returns the totals of no events in a box. No other function keeps a game's totals among its
/// locals, since each of its calls would pay for their bytes.
#[inline(never)]
fn boxed(alloc: Global) -> Result<Box<Totals>, AllocError>
    ensures { IfOk result (λ totals. AreTotalsOf totals.value []) }
{
    Ok(Box::new(alloc, Totals::start())?)
}
