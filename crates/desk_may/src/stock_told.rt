//! What is said about the rows of a stock round: each order that would be obeyed, and those of the
//! others that a player may expect to give.
ghost use Rattle.std.specs.Prelude.{◌≡◌};
ghost use Rattle.desk_may.specs.StockTold.{cost_of_order, fall_on, has_any, has_shares, held_by, held_of};
ghost use Rattle.desk_may.specs.StockTold.{holds_mohawk, is_brown, is_expected, is_on_offer, not_told, note_on};
ghost use Rattle.desk_may.specs.StockTold.{several_if, shares_held, shares_on, told_in_stock};

use crate::teller::Teller;
use crate::told::{Held, Note, Told, lacks_money};
use certs::{Purchase, purchase_cost};
use history::{History, Holder, Refusal, Shareholder, StockRule};
use market::fall;
use moves::{Answer, Row};
use order_grammar::{PlayOrder, ShareSource};
use stock_round::exchange_source;
use tables::{Amount, Company, LEAST_PAR, Money, Private, Seat, Zone, zone};

/// A seat in a stock round, at the start of its turn.
#[derive(Clone, Copy)]
pub(crate) struct StockTeller<'a> {
    pub(crate) history: &'a History,
    pub(crate) seat: Seat,
}

impl Teller for StockTeller<'_> {
    ghost told = { λ teller row.
        told_in_stock teller.history.now teller.seat row };

    fn tell(&self, row: &Row) -> Option<Told> {
        told_in_stock(self.history, self.seat, row)
    }
}

/// Returns what is said about a row of a stock round.
fn told_in_stock(history: &History, seat: Seat, row: &Row) -> Option<Told>
    ensures { result ≡ told_in_stock history.now seat row.now }
{
    match row.answer {
        Answer::Obeyed { price } => {
            let note = note_on(history, row.order);
            Some(Told::May { price, note })
        }
        Answer::Refused(rule) => {
            if is_expected(history, seat, row.order) {
                Some(not_told(history, seat, row.order, rule))
            } else {
                None
            }
        }
        Answer::WithConsent { .. } => None,
    }
}

/// Returns what is said of an order that may be given.
fn note_on(history: &History, order: PlayOrder) -> Note
    ensures { result ≡ note_on history.now.events order }
{
    match order {
        PlayOrder::BuyShare { company, .. } => several_if(is_brown(history, company)),
        PlayOrder::Sell { company, shares } => fall_on(history, company, shares),
        PlayOrder::ExchangeMohawk => Note::Source(exchange_source(history)),
        _ => Note::Nothing,
    }
}

/// Returns the note that several may be bought in a turn, if so.
fn several_if(is_brown: bool) -> Note
    ensures { result ≡ several_if is_brown }
{
    if is_brown {
        Note::Several
    } else {
        Note::Nothing
    }
}

/// Returns whether the price of a company is brown, so that several of its shares may be bought in
/// one turn.
fn is_brown(history: &History, company: Company) -> bool
    ensures { result ≡ is_brown history.now.events company }
{
    match history.square(company) {
        Some(square) => matches!(zone(square), Zone::Brown),
        None => false,
    }
}

/// Returns where the token of a company is before a sale of this many shares, and after it.
fn fall_on(history: &History, company: Company, shares: Amount) -> Note
    ensures { result ≡ fall_on history.now.events company shares }
{
    match history.square(company) {
        Some(from) => {
            let squares = if shares < 255 { shares as u8 } else { u8::MAX };
            let to = fall(from, squares);
            Note::Falls { from, to }
        }
        None => Note::Nothing,
    }
}

/// Returns whether a player may have expected to give a refused order: to start a company that has
/// not started, to buy a share of a started one from where there are shares, to sell a share that
/// the player has, or to exchange MH if the player owns it.
fn is_expected(history: &History, seat: Seat, order: PlayOrder) -> bool
    ensures { result ≡ is_expected history.now.events seat order }
{
    match order {
        PlayOrder::Par { company, price } => {
            price == LEAST_PAR && !history.now().is_started(company)
        }
        PlayOrder::BuyShare { company, from } => is_on_offer(history, company, from),
        PlayOrder::Sell { company, shares } => shares == 1 && has_shares(history, seat, company),
        PlayOrder::ExchangeMohawk => holds_mohawk(history, seat),
        _ => false,
    }
}

/// Returns whether a company has started, and has shares where one is to be bought.
fn is_on_offer(history: &History, company: Company, from: ShareSource) -> bool
    ensures { result ≡ is_on_offer history.now.events company from }
{
    history.now().is_started(company) && has_any(history, company, Shareholder::of_source(from))
}

/// Returns whether there are shares of a company at a place.
fn has_any(history: &History, company: Company, place: Shareholder) -> bool
    ensures { result ≡ has_any history.now.events company place }
{
    history.shares(company, place) > 0
}

/// Returns whether a seat has shares of a company.
fn has_shares(history: &History, seat: Seat, company: Company) -> bool
    ensures { result ≡ has_shares history.now.events seat company }
{
    has_any(history, company, Shareholder::Seat(seat))
}

/// Returns whether a seat owns MH.
fn holds_mohawk(history: &History, seat: Seat) -> bool
    ensures { result ≡ holds_mohawk history.now.events seat }
{
    match history.owner(Private::MohawkHudson) {
        Some(Holder::Seat(owner)) => owner == seat,
        _ => false,
    }
}

/// Returns what is said about an order that a rule refuses.
fn not_told(history: &History, seat: Seat, order: PlayOrder, rule: Refusal) -> Told
    ensures { result ≡ not_told history.now seat order rule }
{
    let price = cost_of_order(history, order);
    let held = held_of(history, seat, order, rule);
    Told::Not { rule, price, held }
}

/// Returns what a purchase would cost, in dollars; `None` for other orders.
fn cost_of_order(history: &History, order: PlayOrder) -> Option<Money>
    ensures { result ≡ cost_of_order history.now.events order }
{
    match order {
        PlayOrder::Par { company, price } => {
            Some(purchase_cost(&history.now(), Purchase::Par { company, price }))
        }
        PlayOrder::BuyShare { company, from } => {
            Some(purchase_cost(&history.now(), Purchase::Share { company, from }))
        }
        _ => None,
    }
}

/// Returns what a player has too little or too much of by a rule: cash, or shares of the company.
fn held_of(history: &History, seat: Seat, order: PlayOrder, rule: Refusal) -> Held
    ensures { result ≡ held_of history.now seat order rule }
{
    if lacks_money(rule) {
        return Held::YourCash(history.now().free_cash(seat));
    }
    match rule {
        Refusal::Stock(rule) => held_by(history, seat, order, rule),
        _ => Held::Unsaid,
    }
}

/// Returns how many shares of a company a player has, if the rule is the limit of six.
fn held_by(history: &History, seat: Seat, order: PlayOrder, rule: StockRule) -> Held
    ensures { result ≡ held_by history.now.events seat order rule }
{
    match rule {
        StockRule::OverSixShares => shares_on(history, seat, order),
        _ => Held::Unsaid,
    }
}

/// Returns how many shares a player has of the company of a purchase.
fn shares_on(history: &History, seat: Seat, order: PlayOrder) -> Held
    ensures { result ≡ shares_on history.now.events seat order }
{
    match order {
        PlayOrder::BuyShare { company, .. } => shares_held(history, seat, company),
        _ => Held::Unsaid,
    }
}

/// Returns how many shares of a company a player has.
fn shares_held(history: &History, seat: Seat, company: Company) -> Held
    ensures { result ≡ shares_held history.now.events seat company }
{
    Held::YourShares(history.shares(company, Shareholder::Seat(seat)))
}
