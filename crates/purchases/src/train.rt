//! TRAIN: the purchase of a train by a company.
//!
//! The bank sells the lowest kind from 2 to 6 that it has left, and once the first 6 is sold also
//! Ds, without limit. The bank pool sells what it has. A company may trade in a 4, 5 or 6 for a D
//! from the bank, which is then cheaper. Another company sells a train that it has, if its
//! president consents, at the price named by the order, at least 1 dollar.
//!
//! A train that is traded in goes to the pool, and then the train goes to the company. BOP closes
//! when BO buys a train. The first train of a later kind from the bank begins its phase.
ghost use Rattle.std.specs.Prelude.{◌≡◌, ◌≤◌, OnOk, None, pos};
ghost use Rattle.history.specs.Sound.{IsSound};
ghost use Rattle.purchases.specs.Train.{IsSmallPurchase, after_train, begins_phase, first_left, first_left_of};
ghost use Rattle.purchases.specs.Train.{has_trains, is_at_train_limit, is_left, is_no_trade_in, is_not_sellers};
ghost use Rattle.purchases.specs.Train.{is_on_sale, lacks_consent_by, may_be_traded, may_trade, presidents_agree_by};
ghost use Rattle.purchases.specs.Train.{price_for_trade, price_of_train, purchase_of, sells, sells_diesels};
ghost use Rattle.purchases.specs.Train.{traded_count, train_bought, train_costs_too_much, train_judgement};
ghost use Rattle.purchases.specs.Train.{train_judgement_by, train_purchase_cost, with_bop_closed, with_trade};
ghost use Rattle.order_grammar.specs.declared.order.Order.TheVariants.{Play};
ghost use Rattle.order_grammar.specs.declared.play.PlayOrder.TheVariants.{BuyTrain};
ghost use Rattle.turns.specs.Small.{IsSmallOrder};

use crate::consents::Consents;
use crate::discard::has_train;
use crate::phases::{begin_phase, close};
use history::{Event, GameView, History, Party, TrainRule, TrainSeller};
use order_grammar::{Offer, TrainSource};
use std::alloc::{AllocError, Global};
use tables::{Amount, Company, Kind, Money, Private, Seat, limit, train};

/// The purchase of a train.
#[derive(Clone, Copy, Debug, PartialEq, Eq)]
pub struct TrainPurchase {
    /// Its kind.
    pub kind: Kind,
    /// Where it is bought.
    pub from: TrainSeller,
    /// The kind of train traded in for it, if any.
    pub trade_in: Option<Kind>,
    /// The price named by the order, in dollars, if another company sells it.
    pub asked: Option<Amount>,
}

impl TrainPurchase {
    /// Returns what it costs, in dollars.
    pub fn price(&self) -> Amount
        requires { IsSmallPurchase self.now }
        ensures price { result ≡ train_purchase_cost self.now }
        ensures small { result ≤ 99999 }
    {
        match self.asked {
            Some(asked) => asked,
            None => price_of_train(self.kind, self.trade_in),
        }
    }
}

/// Returns the purchase that a TRAIN line orders.
pub fn purchase_of(kind: Kind, from: TrainSource) -> TrainPurchase
    requires { IsSmallOrder (Play (BuyTrain kind from)) }
    ensures purchase { result ≡ purchase_of kind from }
    ensures small { IsSmallPurchase result }
{
    let (from, trade_in, asked) = match from {
        TrainSource::Bank => (TrainSeller::Bank, None, None),
        TrainSource::Trade(trade_in) => (TrainSeller::Bank, Some(trade_in), None),
        TrainSource::BankPool => (TrainSeller::BankPool, None, None),
        TrainSource::Company { seller, price } => (TrainSeller::Company(seller), None, Some(price)),
    };
    TrainPurchase {
        kind,
        from,
        trade_in,
        asked,
    }
}

/// Returns the first rule that a purchase by a company breaks, given these consents; `None` if it
/// breaks none.
pub fn judge_purchase(
    history: &History,
    company: Company,
    purchase: TrainPurchase,
    consents: Consents,
) -> Option<TrainRule>
    requires { IsSmallPurchase purchase }
    ensures { result ≡ train_judgement_by consents history.now company purchase }
{
    judge_terms(&history.now(), company, purchase, consents)
}

/// Returns the first rule that a purchase breaks.
fn judge_terms(
    view: &GameView,
    company: Company,
    purchase: TrainPurchase,
    consents: Consents,
) -> Option<TrainRule>
    requires { IsSmallPurchase purchase }
    ensures { result ≡ train_judgement_by consents
        view.now company purchase }
{
    let (kind, from, trade_in) = (purchase.kind, purchase.from, purchase.trade_in);
    tables::rules! { TrainRule
        NotOnSale: !is_on_sale(view, from, kind),
        TrainLimit: is_full(view, company, trade_in),
        CashTooSmall: train_costs_too_much(view, company, purchase),
        NoConsent: lacks_consent(view, company, purchase, consents),
        NotSellers: is_not_sellers(view, company, kind, from),
        NoTradeIn: is_no_trade_in(view, company, kind, trade_in),
    }
}

/// Returns whether such a train is on sale there.
fn is_on_sale(view: &GameView, from: TrainSeller, kind: Kind) -> bool
    ensures { result ≡ is_on_sale view.now.events from kind }
{
    match from {
        TrainSeller::Bank => sells(view, kind),
        TrainSeller::BankPool => view.trains(None, kind) > 0,
        TrainSeller::Company(_) => true,
    }
}

/// Returns whether the bank sells trains of a kind.
pub fn sells(view: &GameView, kind: Kind) -> bool
    ensures { result ≡ sells view.now.events kind }
{
    first_left(view) == Some(kind) || (kind == Kind::Diesel && sells_diesels(view))
}

/// Returns whether the bank sells a D: it has sold a 6.
fn sells_diesels(view: &GameView) -> bool
    ensures { result ≡ sells_diesels view.now.events }
{
    view.trains_sold(Kind::Six) > 0
}

/// The kinds of which the bank sells only the lowest that is left.
pub const NUMBERED: [Kind; 5] = [Kind::Two, Kind::Three, Kind::Four, Kind::Five, Kind::Six];

/// Returns the lowest kind from 2 to 6 that the bank has left.
fn first_left(view: &GameView) -> Option<Kind>
    ensures { result ≡ first_left view.now.events }
{
    first_of(view, &NUMBERED)
}

/// Returns the first of these kinds that the bank has left.
fn first_of(view: &GameView, kinds: &[Kind]) -> Option<Kind>
    ensures { result ≡ first_left_of view.now.events kinds.now }
{
    for kind in kinds {
        if is_left(view, *kind) {
            return Some(*kind);
        }
    }
    None
}

/// Returns whether the bank has trains of a kind left.
fn is_left(view: &GameView, kind: Kind) -> bool
    ensures { result ≡ is_left view.now.events kind }
{
    match train(kind).number {
        None => true,
        Some(number) => view.trains_sold(kind) < usize::from(number),
    }
}

/// Returns whether a company would have more trains than the phase allows. A train to be traded in
/// does not count, whether or not the company has it.
fn is_full(view: &GameView, company: Company, trade_in: Option<Kind>) -> bool
    ensures { result ≡ is_at_train_limit view.now.events company trade_in }
{
    let kept = Money::from(view.train_count(Some(company))) - traded_count(trade_in);
    kept >= limit(view.phase()) as Money
}

/// Returns how many trains are traded in.
fn traded_count(trade_in: Option<Kind>) -> Money
    ensures { result ≡ pos (traded_count trade_in) }
{
    match trade_in {
        None => 0,
        Some(_) => 1,
    }
}

/// Returns whether a train costs more than the company has.
fn train_costs_too_much(view: &GameView, company: Company, purchase: TrainPurchase) -> bool
    requires { IsSmallPurchase purchase }
    ensures { result ≡ train_costs_too_much
        view.now company purchase }
{
    view.cash(Party::of_company(company)) < Money::from(purchase.price())
}

/// Returns what a train of the bank or the pool costs, in dollars.
fn price_of_train(kind: Kind, trade_in: Option<Kind>) -> Amount
    ensures price { result ≡ price_of_train kind trade_in }
    ensures small { result ≤ 1100 }
{
    match trade_in {
        None => train(kind).price,
        Some(_) => price_for_trade(kind),
    }
}

/// Returns what a train of a kind costs a company that trades in a train, in dollars: then a D is
/// cheaper.
fn price_for_trade(kind: Kind) -> Amount
    ensures price { result ≡ price_for_trade kind }
    ensures small { result ≤ 1100 }
{
    match kind {
        Kind::Diesel => 800,
        other => train(other).price,
    }
}

/// Returns whether, given these consents, the selling company has not consented, or the price is 0.
fn lacks_consent(
    view: &GameView,
    buyer: Company,
    purchase: TrainPurchase,
    consents: Consents,
) -> bool
    requires { IsSmallPurchase purchase }
    ensures { result ≡ lacks_consent_by consents view.now.events buyer purchase }
{
    let TrainSeller::Company(seller) = purchase.from else {
        return false;
    };
    let (kind, price) = (purchase.kind, purchase.price());
    let sale = Offer::Train {
        kind,
        seller,
        buyer,
        price,
    };
    let (giver, taker) = (view.president(seller), view.president(buyer));
    price == 0 || !presidents_agree(view, giver, taker, sale, consents)
}

/// Returns whether one president consents to a sale to the other, given these consents; `false` if
/// either is missing.
fn presidents_agree(
    view: &GameView,
    giver: Option<Seat>,
    taker: Option<Seat>,
    sale: Offer,
    consents: Consents,
) -> bool
    ensures { result ≡ presidents_agree_by consents view.now.events giver taker sale }
{
    match (giver, taker) {
        (Some(giver), Some(taker)) => consents.agrees(view, giver, taker, sale),
        _ => false,
    }
}

/// Returns whether the selling company has no train of the kind, or is the buyer.
fn is_not_sellers(view: &GameView, buyer: Company, kind: Kind, from: TrainSeller) -> bool
    ensures { result ≡ is_not_sellers view.now.events buyer kind from }
{
    match from {
        TrainSeller::Company(seller) => !has_train(view, seller, kind) || buyer == seller,
        TrainSeller::Bank | TrainSeller::BankPool => false,
    }
}

/// Returns whether the train to be traded in is missing, or may not be traded in.
fn is_no_trade_in(view: &GameView, company: Company, kind: Kind, trade_in: Option<Kind>) -> bool
    ensures { result ≡ is_no_trade_in view.now.events company kind trade_in }
{
    match trade_in {
        None => false,
        Some(old) => !may_trade(view, company, kind, old),
    }
}

/// Returns whether a train that the company has may be traded in for one of this kind.
fn may_trade(view: &GameView, company: Company, kind: Kind, trade_in: Kind) -> bool
    ensures { result ≡ may_trade view.now.events company kind trade_in }
{
    kind == Kind::Diesel && may_be_traded(trade_in) && view.trains(Some(company), trade_in) > 0
}

/// Returns whether a train of a kind may be traded in for a D.
pub fn may_be_traded(kind: Kind) -> bool
    ensures { result ≡ may_be_traded kind }
{
    matches!(kind, Kind::Four | Kind::Five | Kind::Six)
}

/// Returns whether a company has a train.
pub fn has_trains(view: &GameView, company: Company) -> bool
    ensures { result ≡ has_trains view.now.events company }
{
    view.train_count(Some(company)) > 0
}

/// Buys a legal train and applies its consequences. Fails only if allocation fails.
pub fn buy_train(
    alloc: Global,
    history: &mut History,
    company: Company,
    purchase: TrainPurchase,
) -> Result<(), AllocError>
    requires small { IsSmallPurchase purchase }
    requires may { train_judgement history.old company purchase ≡ None }
    requires sound { IsSound history.old }
    ensures after { OnOk result (history.new ≡ after_train history.old company purchase) }
    ensures sound { OnOk result (IsSound history.new) }
{
    let begins = begins_phase(history, purchase.from, purchase.kind);
    take_train(history, company, purchase)?;
    if begins {
        begin_phase(alloc, history, purchase.kind)?;
    }
    Ok(())
}

/// Returns whether a purchase is of the first train of a later kind from the bank.
fn begins_phase(history: &History, from: TrainSeller, kind: Kind) -> bool
    ensures { result ≡ begins_phase history.now.events from kind }
{
    match from {
        TrainSeller::Bank => {
            history.now().trains_sold(kind) == 0 && history.phase().index() < kind.index()
        }
        TrainSeller::BankPool | TrainSeller::Company(_) => false,
    }
}

/// Moves a train to a company, for its price and the train that is traded in.
fn take_train(
    history: &mut History,
    company: Company,
    purchase: TrainPurchase,
) -> Result<(), AllocError>
    requires small { IsSmallPurchase purchase }
    requires may { train_judgement history.old company purchase ≡ None }
    requires sound { IsSound history.old }
    ensures after { OnOk result (history.new ≡ train_bought history.old company purchase) }
    ensures sound { OnOk result (IsSound history.new) }
{
    trade_in(history, company, purchase.trade_in)?;
    history.append(Event::Train {
        company,
        kind: purchase.kind,
        from: purchase.from,
        price: purchase.price(),
    })?;
    close_bop(history, company)
}

/// Trades in a train of a company, if the order says so.
fn trade_in(history: &mut History, company: Company, kind: Option<Kind>) -> Result<(), AllocError>
    ensures { OnOk result (history.new ≡ with_trade history.old company kind) }
{
    if let Some(kind) = kind {
        history.append(Event::Traded { company, kind })?;
    }
    Ok(())
}

/// Closes BOP if BO has bought a train and BOP is open.
fn close_bop(history: &mut History, buyer: Company) -> Result<(), AllocError>
    requires { IsSound history.old }
    ensures after { OnOk result (history.new ≡ with_bop_closed history.old buyer) }
    ensures sound { OnOk result (IsSound history.new) }
{
    if buyer == Company::BaltimoreOhio {
        close(history, Private::BaltimoreOhio)?;
    }
    Ok(())
}
