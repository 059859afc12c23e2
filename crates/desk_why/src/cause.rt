//! Which of a rule's several causes it was for which a line was refused.
ghost use Rattle.std.specs.Prelude.{◌≡◌};
ghost use Rattle.desk_why.specs.Cause.{cause_above, cause_in_orders, cause_in_turn, cause_of};
ghost use Rattle.desk_why.specs.Cause.{cause_of_lay, cause_of_pay, cause_of_price, cause_of_purchase, cause_of_raise};
ghost use Rattle.desk_why.specs.Cause.{cause_of_run, cause_of_sale, cause_of_stay, cause_of_trade};
ghost use Rattle.desk_why.specs.Cause.{cause_of_best, cause_of_kind, cause_of_owner, cause_of_seller};
ghost use Rattle.desk_why.specs.Cause.{cause_of_shares, cause_of_source};
ghost use Rattle.desk_why.specs.Cause.{cause_of_trade_in, cause_out_of_place, cause_there};
ghost use Rattle.desk_why.specs.Cause.{price_named};
ghost use Rattle.purchases.specs.Discard.{has_train};
ghost use Rattle.purchases.specs.Train.{may_be_traded};

use crate::done::{Done, last_done};
use crate::sheet_line::LinePlace;
use certs::{Sale, none_is_left};
use desk_base::Cause;
use history::{GameView, LayRule, OpeningRule, Refusal, RunRule, StockRule, TrainRule};
use order_grammar::{Offer, Order, PlayOrder, TrainSource};
use purchases::{has_train, has_trains, may_be_traded};
use tables::{Amount, Company, Kind, Round, Seat};

/// Returns why a line of a round is out of place.
pub(crate) fn cause_out_of_place(round: Round, place: LinePlace) -> Cause
    ensures { result ≡ cause_out_of_place round place }
{
    match place {
        LinePlace::Standing => cause_above(round),
        LinePlace::Turn => Cause::InTurn,
        LinePlace::Orders(_) => Cause::InOrders,
    }
}

/// Returns why a line has no place above the first head of a sheet for a round.
fn cause_above(round: Round) -> Cause
    ensures { result ≡ cause_above round }
{
    match round {
        Round::Opening(_) => Cause::AboveTurnOfOpening,
        Round::Stock(_) => Cause::AboveTurnOfStock,
        Round::Operating { .. } => Cause::AboveCompany,
    }
}

/// Returns the cause for which a rule refused an order of a seat at this place, given the game
/// before it; `None` if the rule has only one cause, or the other details show which it is.
pub(crate) fn cause_of(
    view: &GameView,
    seat: Seat,
    place: LinePlace,
    order: &Order,
    rule: Refusal,
) -> Option<Cause>
    ensures { result
        ≡ cause_of view.now seat place order.now rule }
{
    match rule {
        Refusal::Train(TrainRule::NoConsent) => cause_of_price(price_named(order)?),
        Refusal::Stock(StockRule::PresidentMustStay) => cause_of_stay(view, seat, order),
        _ => cause_there(view, place, order, rule),
    }
}

/// Returns the cause for which a rule refused an order, for a rule whose cause depends on where the
/// order is.
fn cause_there(view: &GameView, place: LinePlace, order: &Order, rule: Refusal) -> Option<Cause>
    ensures { result ≡ cause_there view.now.events place order.now rule }
{
    match place {
        LinePlace::Standing => None,
        LinePlace::Turn => cause_in_turn(rule),
        LinePlace::Orders(company) => cause_in_orders(view, company, order, rule),
    }
}

/// Returns the cause for which a rule refused an order of a turn.
fn cause_in_turn(rule: Refusal) -> Option<Cause>
    ensures { result ≡ cause_in_turn rule }
{
    match rule {
        Refusal::Opening(OpeningRule::NotOfOpening) => Some(Cause::TurnOfOpening),
        Refusal::Stock(StockRule::NotOfStock) => Some(Cause::TurnOfStock),
        _ => None,
    }
}

/// Returns the cause for which a rule refused an order of a company.
fn cause_in_orders(view: &GameView, company: Company, order: &Order, rule: Refusal) -> Option<Cause>
    ensures { result
        ≡ cause_in_orders view.now.events company order.now rule }
{
    match rule {
        Refusal::Lay(LayRule::StepUsed) => Some(cause_of_lay(last_done(view.events(), company))),
        Refusal::Pay(_) => Some(cause_of_pay(last_done(view.events(), company))),
        Refusal::Run(RunRule::NoTrain) => Some(cause_of_run(view, company, order)),
        Refusal::Stock(StockRule::NotOfStock) => Some(cause_of_raise(view, company)),
        Refusal::Train(TrainRule::NotSellers) => cause_of_seller(view, order),
        Refusal::Train(TrainRule::NoTradeIn) => cause_of_trade_in(order),
        _ => None,
    }
}

/// Returns why a company may not lay a tile, given the last step of its turn.
fn cause_of_lay(done: Option<Done>) -> Cause
    ensures { result ≡ cause_of_lay done }
{
    match done {
        None => Cause::LayUsed,
        Some(Done::Token) => Cause::TokenPlaced,
        Some(Done::Run) => Cause::HasRun,
        Some(Done::Pay | Done::Purchase) => Cause::PaidOrWithheld,
    }
}

/// Returns why a company may neither pay nor withhold, given the last step of its turn.
fn cause_of_pay(done: Option<Done>) -> Cause
    ensures { result ≡ cause_of_pay done }
{
    match done {
        Some(Done::Pay) => Cause::PaidOrWithheld,
        _ => Cause::NothingEarned,
    }
}

/// Returns why a company has no train left to run, for an order to run one of a kind or to run the
/// best.
fn cause_of_run(view: &GameView, company: Company, order: &Order) -> Cause
    ensures { result ≡ cause_of_run view.now.events company order.now }
{
    match order {
        Order::Run { kind, .. } => cause_of_kind(view, company, *kind),
        _ => cause_of_best(view, company),
    }
}

/// Returns why a company has no train of a kind left to run.
fn cause_of_kind(view: &GameView, company: Company, kind: Kind) -> Cause
    ensures { result ≡ cause_of_kind view.now.events company kind }
{
    if has_train(view, company, kind) {
        Cause::AllHaveRun
    } else {
        Cause::NoSuchTrain
    }
}

/// Returns why the trains of a company cannot run their best.
fn cause_of_best(view: &GameView, company: Company) -> Cause
    ensures { result ≡ cause_of_best view.now.events company }
{
    if has_trains(view, company) {
        Cause::SomeHaveRun
    } else {
        Cause::NoTrain
    }
}

/// Returns why no money may be raised for a company's train.
fn cause_of_raise(view: &GameView, company: Company) -> Cause
    ensures { result ≡ cause_of_raise view.now.events company }
{
    if has_trains(view, company) {
        Cause::HasTrain
    } else {
        cause_of_purchase(last_done(view.events(), company))
    }
}

/// Returns why no money may be raised for a company without a train, given the last step of its
/// turn.
fn cause_of_purchase(done: Option<Done>) -> Cause
    ensures { result ≡ cause_of_purchase done }
{
    match done {
        Some(Done::Purchase) => Cause::NotShort,
        _ => Cause::RunsNone,
    }
}

/// Returns the price of a train that an order or an offer names; `None` if it names none.
fn price_named(order: &Order) -> Option<Amount>
    ensures { result ≡ price_named order.now }
{
    match order {
        Order::Play(
            PlayOrder::BuyTrain {
                from: TrainSource::Company { price, .. },
                ..
            }
            | PlayOrder::Offer(Offer::Train { price, .. }),
        ) => Some(*price),
        _ => None,
    }
}

/// Returns the cause that a price is 0; `None` if it is not.
fn cause_of_price(price: Amount) -> Option<Cause>
    ensures { result ≡ cause_of_price price }
{
    if price == 0 {
        Some(Cause::PriceIsZero)
    } else {
        None
    }
}

/// Returns why a company may not sell a train that it has: it is the buyer. `None` if it has none.
fn cause_of_seller(view: &GameView, order: &Order) -> Option<Cause>
    ensures { result ≡ cause_of_seller view.now.events order.now }
{
    match order {
        Order::Play(PlayOrder::BuyTrain { kind, from }) => cause_of_source(view, *kind, *from),
        _ => None,
    }
}

/// Returns the same for a train of a kind, given where it is bought.
fn cause_of_source(view: &GameView, kind: Kind, from: TrainSource) -> Option<Cause>
    ensures { result ≡ cause_of_source view.now.events kind from }
{
    match from {
        TrainSource::Company { seller, .. } => cause_of_owner(has_train(view, seller, kind)),
        _ => None,
    }
}

/// Returns why a company may not sell a train, given whether it has one; `None` if it has none.
fn cause_of_owner(has_train: bool) -> Option<Cause>
    ensures { result ≡ cause_of_owner has_train }
{
    if has_train {
        Some(Cause::BuysFromItself)
    } else {
        None
    }
}

/// Returns why a train is not traded in; `None` for orders without a trade-in.
fn cause_of_trade_in(order: &Order) -> Option<Cause>
    ensures { result ≡ cause_of_trade_in order.now }
{
    match order {
        Order::Play(
            PlayOrder::BuyTrain {
                kind,
                from: TrainSource::Trade(trade_in),
            },
        ) => Some(cause_of_trade(*kind, *trade_in)),
        _ => None,
    }
}

/// Returns why a train of a kind is not traded in for one of another.
fn cause_of_trade(kind: Kind, trade_in: Kind) -> Cause
    ensures { result ≡ cause_of_trade kind trade_in }
{
    match kind {
        Kind::Diesel if may_be_traded(trade_in) => Cause::NoSuchTrain,
        Kind::Diesel => Cause::NeverTraded,
        _ => Cause::NotForDiesel,
    }
}

/// Returns why a president who orders a sale must stay; `None` for other orders.
fn cause_of_stay(view: &GameView, seat: Seat, order: &Order) -> Option<Cause>
    ensures { result
        ≡ cause_of_stay view.now seat order.now }
{
    match order {
        Order::Play(PlayOrder::Sell { company, shares }) => Some(cause_of_shares(
            view, seat, *company, *shares,
        )),
        Order::Play(PlayOrder::Raise { company, shares }) => Some(cause_of_shares(
            view, seat, *company, *shares,
        )),
        _ => None,
    }
}

/// Returns why a president who would sell this many shares of a company must stay.
fn cause_of_shares(view: &GameView, seat: Seat, company: Company, shares: Amount) -> Cause
    ensures { result
        ≡ cause_of_shares view.now seat company shares }
{
    cause_of_sale(view, seat, Sale { company, shares })
}

/// Returns why a president who would make this sale must stay.
fn cause_of_sale(view: &GameView, seat: Seat, sale: Sale) -> Cause
    ensures { result
        ≡ cause_of_sale view.now seat sale }
{
    if none_is_left(view, seat, sale) {
        Cause::NobodyElse
    } else {
        Cause::PresidencyMoves
    }
}
