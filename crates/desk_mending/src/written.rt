//! What a player's own sheet orders beside a line.
ghost use Rattle.std.specs.Prelude.{◌≡◌};
ghost use Rattle.std.specs.List.{list_any};
ghost use Rattle.desk_mending.specs.Written.{brings_of, buys_kind, is_from, lessens, offers_of, parts_of, sells_of};
ghost use Rattle.desk_mending.specs.Written.{places_token};

use order_grammar::{Offer, PlayOrder, TrainSource};
use tables::{Company, Kind};

/// What a player's own sheet orders beside a line, whatever conditions these orders have.
#[derive(Clone, Copy)]
pub struct Written<'a> {
    /// The orders above the line.
    pub above: &'a [PlayOrder],
    /// The orders of the whole sheet.
    pub sheet: &'a [PlayOrder],
    /// The number of the turn in which the line is, from 1; 0 if it is in none.
    pub turn: u32,
}

/// Returns whether an order sells shares of a company.
fn sells_of(company: Company, order: PlayOrder) -> bool
    ensures { result ≡ sells_of company order }
{
    matches!(order, PlayOrder::Sell { company: its, .. } if its == company)
}

/// Returns whether after an order fewer certificates of its player may count.
fn lessens(order: PlayOrder) -> bool
    ensures { result ≡ lessens order }
{
    matches!(order, PlayOrder::Sell { .. } | PlayOrder::ExchangeMohawk)
}

/// Returns whether an order brings shares of a company.
fn brings_of(company: Company, order: PlayOrder) -> bool
    ensures { result ≡ brings_of company order }
{
    match order {
        PlayOrder::Par { company: its, .. } | PlayOrder::BuyShare { company: its, .. } => {
            its == company
        }
        PlayOrder::ExchangeMohawk => company == Company::NewYorkCentral,
        _ => false,
    }
}

/// Returns whether by an order a company may part with a train.
fn parts_of(company: Company, order: PlayOrder) -> bool
    ensures { result ≡ parts_of company order }
{
    match order {
        PlayOrder::BuyTrain { from, .. } => is_from(company, from),
        PlayOrder::Offer(offer) => offers_of(company, offer),
        _ => false,
    }
}

/// Returns whether a train is bought from a company.
fn is_from(company: Company, from: TrainSource) -> bool
    ensures { result ≡ is_from company from }
{
    matches!(from, TrainSource::Company { seller, .. } if seller == company)
}

/// Returns whether a train of a company is offered.
fn offers_of(company: Company, offer: Offer) -> bool
    ensures { result ≡ offers_of company offer }
{
    matches!(offer, Offer::Train { seller, .. } if seller == company)
}

/// Returns whether an order buys a train of a kind.
fn buys_kind(kind: Kind, order: PlayOrder) -> bool
    ensures { result ≡ buys_kind kind order }
{
    matches!(order, PlayOrder::BuyTrain { kind: its, .. } if its == kind)
}

/// Returns whether an order places a token.
fn places_token(order: PlayOrder) -> bool
    ensures { result ≡ places_token order }
{
    matches!(order, PlayOrder::Token(_))
}

/// Returns whether one of some orders sells shares of a company.
pub(crate) fn any_sells_of(company: Company, orders: &[PlayOrder]) -> bool
    ensures { result ≡ list_any (sells_of company) orders.now }
{
    orders.iter().any(|order| sells_of(company, *order))
}

/// Returns whether after one of some orders fewer certificates of its player may count.
pub(crate) fn any_lessens(orders: &[PlayOrder]) -> bool
    ensures { result ≡ list_any lessens orders.now }
{
    orders.iter().any(|order| lessens(*order))
}

/// Returns whether one of some orders brings shares of a company.
pub(crate) fn any_brings_of(company: Company, orders: &[PlayOrder]) -> bool
    ensures { result ≡ list_any (brings_of company) orders.now }
{
    orders.iter().any(|order| brings_of(company, *order))
}

/// Returns whether by one of some orders a company may part with a train.
pub(crate) fn any_parts_of(company: Company, orders: &[PlayOrder]) -> bool
    ensures { result ≡ list_any (parts_of company) orders.now }
{
    orders.iter().any(|order| parts_of(company, *order))
}

/// Returns whether one of some orders buys a train of a kind.
pub(crate) fn any_buys_kind(kind: Kind, orders: &[PlayOrder]) -> bool
    ensures { result ≡ list_any (buys_kind kind) orders.now }
{
    orders.iter().any(|order| buys_kind(kind, *order))
}

/// Returns whether one of some orders places a token.
pub(crate) fn any_places_token(orders: &[PlayOrder]) -> bool
    ensures { result ≡ list_any places_token orders.now }
{
    orders.iter().any(|order| places_token(*order))
}
