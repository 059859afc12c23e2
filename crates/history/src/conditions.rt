//! Conditions of orders, checked against a list.
ghost use Rattle.std.specs.Prelude.{◌≡◌};
ghost use Rattle.std.specs.Option.{option_copied};
ghost use Rattle.history.specs.Conditions.{has_begun, holds, is_met, is_priced_at_least};

use crate::list::History;
use order_grammar::Condition;
use tables::{Amount, Kind, Square, price};

impl History {
    /// Returns whether the condition of an order holds, if it has one.
    pub fn is_met(&self, condition: Option<&Condition>) -> bool
        ensures { result ≡ is_met self.now.events (option_copied condition.entry) }
    {
        match condition {
            Some(condition) => self.holds(condition),
            None => true,
        }
    }

    /// Returns whether a condition holds.
    fn holds(&self, condition: &Condition) -> bool
        ensures { result ≡ holds self.now.events condition.now }
    {
        match *condition {
            Condition::Price(company, sum) => is_priced_at_least(sum, self.square(company)),
            Condition::Phase(kind) => has_begun(kind, self.phase()),
            Condition::Floated(company) => self.floated(company),
        }
    }
}

/// Returns whether a token has a square whose price is at least a sum.
fn is_priced_at_least(sum: Amount, square: Option<Square>) -> bool
    ensures { result ≡ is_priced_at_least sum square }
{
    match square {
        Some(square) => sum <= price(square),
        None => false,
    }
}

/// Returns whether a phase is the one of a kind of train, or a later one.
fn has_begun(kind: Kind, phase: Kind) -> bool
    ensures { result ≡ has_begun kind phase }
{
    kind.index() <= phase.index()
}
