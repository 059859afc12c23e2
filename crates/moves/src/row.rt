//! A row: an order and its outcome.
ghost use Rattle.std.specs.Prelude.{◌≡◌, ◌++◌, ◌∷◌, [], OnOk};
ghost use Rattle.moves.specs.Rows.{answer_of};

use history::Refusal;
use order_grammar::{Offer, PlayOrder};
use std::alloc::AllocError;
use tables::{Money, Seat};

/// An order of play, but no run through places, and its outcome as the next line of a turn or as
/// the first standing line.
#[derive(Drop)]
pub struct Row {
    /// The order.
    pub order: PlayOrder,
    /// Its outcome.
    pub answer: Answer,
}

/// The outcome of an order.
#[derive(Clone, Copy, Debug, PartialEq, Eq)]
pub enum Answer {
    /// It is obeyed.
    Obeyed {
        /// What it costs, in dollars; for a sale of shares what it brings, for a bid or a limit its
        /// sum, and 0 if no money moves.
        price: Money,
    },
    /// It is refused only because the seller has not consented.
    WithConsent {
        /// What it costs, in dollars.
        price: Money,
        /// The player whose consent is lacking.
        giver: Seat,
        /// What they would have to offer.
        offer: Offer,
    },
    /// It is refused, and this is the first rule that it breaks.
    Refused(Refusal),
}

/// Returns the outcome of an order at this price, in dollars, given the first rule that it breaks,
/// if any.
pub(crate) fn answer_of(price: Money, broken: Option<Refusal>) -> Answer
    ensures { result ≡ answer_of price broken }
{
    match broken {
        None => Answer::Obeyed { price },
        Some(rule) => Answer::Refused(rule),
    }
}

/// Adds an order with its outcome. Fails only if allocation fails.
pub(crate) fn push_row(
    rows: &mut Vec<Row>,
    order: PlayOrder,
    answer: Answer,
) -> Result<(), AllocError>
    ensures { OnOk result (rows.new.items
        ≡ rows.old.items ++ record { order = order; answer = answer } ∷ []) }
{
    rows.push(Row { order, answer })?;
    Ok(())
}
