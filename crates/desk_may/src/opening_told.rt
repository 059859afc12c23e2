//! What is said about the rows of an opening: for each unsold private the one order that matters,
//! BUY of the cheapest and the lowest BID on each other.
ghost use Rattle.std.specs.Prelude.{◌≡◌};
ghost use Rattle.desk_may.specs.OpeningTold.{cash_on, is_asked, not_told, note_on, price_on};
ghost use Rattle.desk_may.specs.OpeningTold.{told_in_opening, told_of_answer};
ghost use Rattle.privates.specs.Bank.{is_cheapest};

use crate::teller::Teller;
use crate::told::{Held, Note, Told, lacks_money, not_by};
use history::{History, Refusal};
use moves::{Answer, Row, least_bid};
use order_grammar::PlayOrder;
use privates::price_of_private;
use tables::{Money, Private, Seat};

/// A seat in an opening, at the start of its turn.
#[derive(Clone, Copy)]
pub(crate) struct OpeningTeller<'a> {
    pub(crate) history: &'a History,
    pub(crate) seat: Seat,
}

impl Teller for OpeningTeller<'_> {
    ghost told = { λ teller row.
        told_in_opening teller.history.now teller.seat row };

    fn tell(&self, row: &Row) -> Option<Told> {
        told_in_opening(self.history, self.seat, row)
    }
}

/// Returns what is said about a row of an opening.
fn told_in_opening(history: &History, seat: Seat, row: &Row) -> Option<Told>
    ensures { result ≡ told_in_opening history.now seat row.now }
{
    if !is_asked(history, row.order) {
        return None;
    }
    told_of_answer(history, seat, row.order, row.answer)
}

/// Returns whether an order is the one that matters for an unsold private: BUY of the cheapest, and
/// the lowest BID on another.
fn is_asked(history: &History, order: PlayOrder) -> bool
    ensures { result ≡ is_asked history.now.events order }
{
    match order {
        PlayOrder::BuyPrivate(private) => is_cheapest(history, private),
        PlayOrder::Bid { private, amount } => {
            !history.now().is_sold(private)
                && !is_cheapest(history, private)
                && amount == least_bid(history, private)
        }
        _ => false,
    }
}

/// Returns whether a private is the cheapest unsold one.
fn is_cheapest(history: &History, private: Private) -> bool
    ensures { result ≡ is_cheapest history.now.events private }
{
    match history.now().cheapest_unsold() {
        Some(cheapest) => cheapest == private,
        None => false,
    }
}

/// Returns what is said about an order with this outcome.
fn told_of_answer(history: &History, seat: Seat, order: PlayOrder, answer: Answer) -> Option<Told>
    ensures { result
        ≡ told_of_answer history.now seat order answer }
{
    match answer {
        Answer::Obeyed { price } => {
            let note = note_on(order);
            Some(Told::May { price, note })
        }
        Answer::Refused(rule) => Some(not_told(history, seat, order, rule)),
        Answer::WithConsent { .. } => None,
    }
}

/// Returns what is said about an order that a rule refuses.
fn not_told(history: &History, seat: Seat, order: PlayOrder, rule: Refusal) -> Told
    ensures { result ≡ not_told history.now seat order rule }
{
    if !lacks_money(rule) {
        return not_by(rule);
    }
    let price = price_on(history, order);
    let held = cash_on(history, seat, order);
    Told::Not { rule, price, held }
}

/// Returns what is said of an order that may be given.
fn note_on(order: PlayOrder) -> Note
    ensures { result ≡ note_on order }
{
    match order {
        PlayOrder::Bid { .. } => Note::OrMore,
        _ => Note::Nothing,
    }
}

/// Returns what an order costs, in dollars.
fn price_on(history: &History, order: PlayOrder) -> Option<Money>
    ensures { result ≡ price_on history.now.events order }
{
    match order {
        PlayOrder::BuyPrivate(private) => Some(Money::from(price_of_private(
            &history.now(),
            private,
        ))),
        PlayOrder::Bid { amount, .. } => Some(Money::from(amount)),
        _ => None,
    }
}

/// Returns what the player can spend on the private of an order.
fn cash_on(history: &History, seat: Seat, order: PlayOrder) -> Held
    ensures { result ≡ cash_on history.now seat order }
{
    match order {
        PlayOrder::BuyPrivate(private) => Held::YourCash(history.now().free_for(seat, private)),
        PlayOrder::Bid { private, .. } => Held::YourCash(history.now().free_for(seat, private)),
        _ => Held::Unsaid,
    }
}
