//! All rules of its kind that an order breaks.
ghost use Rattle.std.specs.Prelude.{◌≡◌, ◌∷◌, [], IfOk};
ghost use Rattle.desk_rules.specs.Asked.{broken_rules, company_broken, seat_broken};
ghost use Rattle.events.specs.declared.ruling.Refusal.TheVariants as refusal;
ghost use Rattle.events.specs.declared.ruling.StockRule.TheVariants as of_stock;

use crate::opening_rules::{before_turns_broken, opening_broken};
use crate::private_rules::private_broken;
use crate::purchase_rules::purchase_broken;
use crate::sale_rules::{exchange_broken, sale_broken};
use crate::site::Site;
use crate::standing_rules::before_companies_broken;
use crate::train_rules::{purchase_of, train_broken};
use certs::{Purchase, Sale};
use desk_map_rules::{best_broken, pay_broken};
use history::{GameView, Refusal, StockRule};
use order_grammar::PlayOrder;
use std::alloc::{AllocError, Global};
use tables::{Company, Seat};

/// Returns all rules of its kind that an order of a seat breaks, given the game before it and where
/// the order stands, in the order in which the umpire asks them. Kinds of which only the first rule
/// is told have none, and rules of steps are not asked. Those of the map are asked by
/// `broken_on_map` of `desk_map_rules`. Fails only if allocation fails.
pub fn broken_rules(
    alloc: Global,
    view: &GameView,
    seat: Seat,
    site: Site,
    order: PlayOrder,
) -> Result<Vec<Refusal>, AllocError>
    ensures { IfOk result (λ rules. rules.items ≡ broken_rules view.now seat site order) }
{
    match site {
        Site::BeforeTurns => before_turns_broken(alloc, view, order),
        Site::OpeningTurn => opening_broken(alloc, view, seat, order),
        Site::StockTurn => seat_broken(alloc, view, seat, order),
        Site::BeforeCompanies => before_companies_broken(alloc, view, seat, order),
        Site::Orders(company) => company_broken(alloc, view, company, order),
    }
}

/// Returns the rules that an order of a seat in a turn of a stock round breaks.
fn seat_broken(
    alloc: Global,
    view: &GameView,
    seat: Seat,
    order: PlayOrder,
) -> Result<Vec<Refusal>, AllocError>
    ensures { IfOk result (λ rules. rules.items ≡ seat_broken view.now seat order) }
{
    match order {
        PlayOrder::Par { company, price } => {
            purchase_broken(alloc, view, seat, Purchase::Par { company, price })
        }
        PlayOrder::BuyShare { company, from } => {
            purchase_broken(alloc, view, seat, Purchase::Share { company, from })
        }
        PlayOrder::Sell { company, shares } => {
            sale_broken(alloc, view, seat, Sale { company, shares })
        }
        PlayOrder::ExchangeMohawk => exchange_broken(alloc, view, seat),
        _ => not_of_stock(alloc),
    }
}

/// Returns the rules that an order for a company breaks.
fn company_broken(
    alloc: Global,
    view: &GameView,
    company: Company,
    order: PlayOrder,
) -> Result<Vec<Refusal>, AllocError>
    ensures { IfOk result (λ rules. rules.items ≡ company_broken view.now company order) }
{
    match order {
        PlayOrder::BuyTrain { kind, from } => {
            train_broken(alloc, view, company, purchase_of(kind, from))
        }
        PlayOrder::BuyOwnedPrivate { private, price } => {
            private_broken(alloc, view, company, private, price)
        }
        PlayOrder::RunBest => best_broken(alloc, view, company),
        PlayOrder::Pay => pay_broken(alloc, view, company),
        _ => Ok(Vec::new(alloc)),
    }
}

/// Returns the rule that an order breaks which has no place in a turn of a stock round.
fn not_of_stock(alloc: Global) -> Result<Vec<Refusal>, AllocError>
    ensures { IfOk result (λ rules. rules.items
        ≡ refusal.Stock of_stock.NotOfStock ∷ []) }
{
    let mut rules = Vec::new(alloc);
    rules.push(Refusal::Stock(StockRule::NotOfStock))?;
    Ok(rules)
}
