//! The rules that a company breaks by the purchase of a train.
ghost use Rattle.std.specs.Prelude.{◌≡◌, ◌≤◌, IfOk, pos};
ghost use Rattle.desk_rules.specs.Asked.{train_broken};
ghost use Rattle.events.specs.declared.ruling.Refusal.TheVariants as refusal;
ghost use Rattle.purchases.specs.Train.{is_at_train_limit, is_no_trade_in, is_not_sellers, is_on_sale};
ghost use Rattle.purchases.specs.Train.{lacks_consent, may_trade, presidents_agree, price_of_train, purchase_of};
ghost use Rattle.purchases.specs.Train.{traded_count, train_costs_too_much, train_purchase_cost};

use desk_map_rules::{Row, rules_of};
use history::{GameView, Party, Refusal, TrainRule, TrainSeller};
use order_grammar::{Offer, TrainSource};
use purchases::{TrainPurchase, has_train, may_be_traded, sells};
use std::alloc::{AllocError, Global};
use tables::{Amount, Company, Kind, Money, Seat, limit, train};

/// Returns the rules that a company breaks by the purchase of a train. Fails only if allocation
/// fails.
pub(crate) fn train_broken(
    alloc: Global,
    view: &GameView,
    company: Company,
    purchase: TrainPurchase,
) -> Result<Vec<Refusal>, AllocError>
    ensures { IfOk result (λ rules. rules.items ≡ train_broken view.now company purchase) }
{
    let (kind, from, trade_in) = (purchase.kind, purchase.from, purchase.trade_in);
    let is_not_sellers = is_not_sellers(view, company, kind, from);
    let lacks_consent = !is_not_sellers && lacks_consent(view, company, purchase);
    let rows = [
        of_train(TrainRule::NotOnSale, !is_on_sale(view, from, kind)),
        of_train(TrainRule::TrainLimit, is_full(view, company, trade_in)),
        of_train(
            TrainRule::CashTooSmall,
            train_costs_too_much(view, company, purchase),
        ),
        of_train(TrainRule::NoConsent, lacks_consent),
        of_train(TrainRule::NotSellers, is_not_sellers),
        of_train(
            TrainRule::NoTradeIn,
            is_no_trade_in(view, company, kind, trade_in),
        ),
    ];
    rules_of(alloc, &rows)
}

/// Returns a row of a rule of trains.
fn of_train(rule: TrainRule, is_broken: bool) -> Row
    ensures { result ≡ record { rule = refusal.Train rule; is_broken = is_broken } }
{
    Row {
        rule: Refusal::Train(rule),
        is_broken,
    }
}

/// Returns the purchase that a TRAIN line orders.
pub fn purchase_of(kind: Kind, from: TrainSource) -> TrainPurchase
    ensures { result ≡ purchase_of kind from }
{
    let (from, trade_in, asked) = match from {
        TrainSource::Bank => (TrainSeller::Bank, None, None),
        TrainSource::Trade(trade_in) => (TrainSeller::Bank, Some(trade_in), None),
        TrainSource::BankPool => (TrainSeller::BankPool, None, None),
        TrainSource::Company { seller, price } => (TrainSeller::Company(seller), None, Some(price)),
    };
    TrainPurchase {
        kind,
        from,
        trade_in,
        asked,
    }
}

/// Returns whether such a train is on sale there.
fn is_on_sale(view: &GameView, from: TrainSeller, kind: Kind) -> bool
    ensures { result ≡ is_on_sale view.now.events from kind }
{
    match from {
        TrainSeller::Bank => sells(view, kind),
        TrainSeller::BankPool => view.trains(None, kind) > 0,
        TrainSeller::Company(_) => true,
    }
}

/// Returns whether a company would have more trains than the phase allows. A train to be traded in
/// does not count, whether or not the company has it.
fn is_full(view: &GameView, company: Company, trade_in: Option<Kind>) -> bool
    ensures { result ≡ is_at_train_limit view.now.events company trade_in }
{
    let kept = Money::from(view.train_count(Some(company))) - traded_trains(trade_in);
    kept >= limit(view.phase()) as Money
}

/// Returns how many trains are traded in, as a sum.
fn traded_trains(trade_in: Option<Kind>) -> Money
    ensures { result ≡ pos (traded_count trade_in) }
{
    match trade_in {
        None => 0,
        Some(_) => 1,
    }
}

/// Returns how many trains are traded in: 0 or 1.
pub fn traded_count(trade_in: Option<Kind>) -> usize
    ensures traded { result ≡ traded_count trade_in }
    ensures few { result ≤ 1 }
{
    match trade_in {
        None => 0,
        Some(_) => 1,
    }
}

/// Returns what a train costs, in dollars.
pub fn cost_of_train(purchase: TrainPurchase) -> Amount
    ensures { result ≡ train_purchase_cost purchase }
{
    match purchase.asked {
        Some(asked) => asked,
        None => price_of_train(purchase.kind, purchase.trade_in),
    }
}

/// What a D costs a company that trades in a train, in dollars.
const TRADED_DIESEL: Amount = 800;

/// Returns what a train of the bank or the pool costs, in dollars.
fn price_of_train(kind: Kind, trade_in: Option<Kind>) -> Amount
    ensures { result ≡ price_of_train kind trade_in }
{
    match (trade_in, kind) {
        (Some(_), Kind::Diesel) => TRADED_DIESEL,
        _ => train(kind).price,
    }
}

/// Returns whether a train costs more than the company has.
pub fn train_costs_too_much(view: &GameView, company: Company, purchase: TrainPurchase) -> bool
    ensures { result ≡ train_costs_too_much view.now company purchase }
{
    view.cash(Party::of_company(company)) < Money::from(cost_of_train(purchase))
}

/// Returns whether the selling company has not consented, or the price is 0.
fn lacks_consent(view: &GameView, buyer: Company, purchase: TrainPurchase) -> bool
    ensures { result ≡ lacks_consent view.now.events buyer purchase }
{
    let TrainSeller::Company(seller) = purchase.from else {
        return false;
    };
    let (kind, price) = (purchase.kind, cost_of_train(purchase));
    let sale = Offer::Train {
        kind,
        seller,
        buyer,
        price,
    };
    price == 0 || !presidents_agree(view, view.president(seller), view.president(buyer), sale)
}

/// Returns whether one president consents to a sale to the other; `false` if either is missing.
fn presidents_agree(view: &GameView, giver: Option<Seat>, taker: Option<Seat>, sale: Offer) -> bool
    ensures { result ≡ presidents_agree view.now.events giver taker sale }
{
    match (giver, taker) {
        (Some(giver), Some(taker)) => view.has_consent(giver, taker, sale),
        _ => false,
    }
}

/// Returns whether the selling company has no train of the kind, or is the buyer.
fn is_not_sellers(view: &GameView, buyer: Company, kind: Kind, from: TrainSeller) -> bool
    ensures { result ≡ is_not_sellers view.now.events buyer kind from }
{
    match from {
        TrainSeller::Company(seller) => !has_train(view, seller, kind) || buyer == seller,
        TrainSeller::Bank | TrainSeller::BankPool => false,
    }
}

/// Returns whether the train to be traded in is missing, or may not be traded in.
fn is_no_trade_in(view: &GameView, company: Company, kind: Kind, trade_in: Option<Kind>) -> bool
    ensures { result ≡ is_no_trade_in view.now.events company kind trade_in }
{
    match trade_in {
        None => false,
        Some(old) => !may_trade(view, company, kind, old),
    }
}

/// Returns whether a train that the company has may be traded in for one of this kind.
fn may_trade(view: &GameView, company: Company, kind: Kind, trade_in: Kind) -> bool
    ensures { result ≡ may_trade view.now.events company kind trade_in }
{
    kind == Kind::Diesel && may_be_traded(trade_in) && view.trains(Some(company), trade_in) > 0
}
