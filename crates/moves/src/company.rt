//! The rows of a company's turn: the trains and the privates that it could buy.
ghost use Rattle.std.specs.Prelude.{◌≡◌, ◌++◌, ◌∷◌, [], IfOk, OnOk, map, pos};
ghost use Rattle.moves.specs.CompanyRows.{asked_for_private, asked_for_train, orders_of_private};
ghost use Rattle.moves.specs.CompanyRows.{private_answer, private_order, private_orders, private_refusal_by};
ghost use Rattle.moves.specs.CompanyRows.{private_row, train_answer, train_cost, train_refusal_by};
ghost use Rattle.moves.specs.CompanyRows.{train_of, train_order, train_orders, train_row, trains_of_bank};
ghost use Rattle.moves.specs.CompanyRows.{trains_of_kind, trains_of_sellers};
ghost use Rattle.moves.specs.Rows.{answer_if_given};
ghost use Rattle.order_grammar.specs.declared.order.Order.TheVariants.{Play};
ghost use Rattle.order_grammar.specs.declared.play.PlayOrder.TheVariants.{BuyTrain};
ghost use Rattle.turns.specs.Small.{IsSmallOrder};

use crate::row::{Answer, Row, push_row};
use history::{History, Holder, Refusal};
use order_grammar::{Offer, PlayOrder, TrainSource};
use purchases::{Consents, has_train, judge_private, judge_purchase, purchase_of};
use std::alloc::{AllocError, Global};
use tables::{Amount, Company, Kind, Money, Private, Seat, face};

/// Where a train can be bought, other than from companies, with each trade-in.
const SOURCES: [TrainSource; 5] = [
    TrainSource::Bank,
    TrainSource::Trade(Kind::Four),
    TrainSource::Trade(Kind::Five),
    TrainSource::Trade(Kind::Six),
    TrainSource::BankPool,
];

/// The price of a train of another company: its president may ask for more.
const LEAST: Amount = 1;

/// Returns the outcome of each order of a company to buy a train: from the bank with and without a
/// trade-in, from the pool, and from each company that has one, at 1 dollar. A company withholds
/// before it buys, so the game given is the one after that. Fails only if allocation fails.
pub fn train_rows(
    alloc: Global,
    history: &History,
    company: Company,
) -> Result<Vec<Row>, AllocError>
    ensures { IfOk result (λ rows. rows.items
        ≡ map (train_row history.now company) (train_orders history.now.events)) }
{
    let mut rows = Vec::new(alloc);
    push_trains(&mut rows, history, company)?;
    Ok(rows)
}

/// Returns the outcome of each order of a company to buy a private, at half and at twice its face
/// value. Fails only if allocation fails.
pub fn private_rows(
    alloc: Global,
    history: &History,
    company: Company,
) -> Result<Vec<Row>, AllocError>
    ensures { IfOk result (λ rows. rows.items
        ≡ map (private_row history.now company) private_orders) }
{
    let mut rows = Vec::new(alloc);
    push_privates(&mut rows, history, company)?;
    Ok(rows)
}

/// Adds the rows of trains.
fn push_trains(rows: &mut Vec<Row>, history: &History, company: Company) -> Result<(), AllocError>
    ensures { OnOk result (rows.new.items ≡ rows.old.items
        ++ map (train_row history.now company) (train_orders history.now.events)) }
{
    for kind in &Kind::ALL {
        push_trains_of_kind(rows, history, company, *kind)?;
    }
    Ok(())
}

/// Adds the rows of the trains of a kind.
fn push_trains_of_kind(
    rows: &mut Vec<Row>,
    history: &History,
    company: Company,
    kind: Kind,
) -> Result<(), AllocError>
    ensures { OnOk result (rows.new.items ≡ rows.old.items
        ++ map (train_row history.now company) (trains_of_kind history.now.events kind)) }
{
    push_trains_of_bank(rows, history, company, kind)?;
    push_trains_of_sellers(rows, history, company, kind)?;
    Ok(())
}

/// Adds the rows of the trains of a kind that the bank and the pool could sell.
fn push_trains_of_bank(
    rows: &mut Vec<Row>,
    history: &History,
    company: Company,
    kind: Kind,
) -> Result<(), AllocError>
    ensures { OnOk result (rows.new.items ≡ rows.old.items
        ++ map (train_row history.now company) (trains_of_bank kind)) }
{
    for from in &SOURCES {
        push_train(rows, history, company, kind, *from)?;
    }
    Ok(())
}

/// Adds the rows of the trains of a kind that companies have.
fn push_trains_of_sellers(
    rows: &mut Vec<Row>,
    history: &History,
    company: Company,
    kind: Kind,
) -> Result<(), AllocError>
    ensures { OnOk result (rows.new.items ≡ rows.old.items
        ++ map (train_row history.now company) (trains_of_sellers history.now.events kind)) }
{
    for seller in &Company::ALL {
        push_train_of(rows, history, company, kind, *seller)?;
    }
    Ok(())
}

/// Adds the row of this company's train of a kind, if it has one.
fn push_train_of(
    rows: &mut Vec<Row>,
    history: &History,
    company: Company,
    kind: Kind,
    seller: Company,
) -> Result<(), AllocError>
    ensures { OnOk result (rows.new.items ≡ rows.old.items
        ++ map (train_row history.now company) (train_of history.now.events kind seller)) }
{
    if !has_train(&history.now(), seller, kind) {
        return Ok(());
    }
    let price = LEAST;
    push_train(
        rows,
        history,
        company,
        kind,
        TrainSource::Company { seller, price },
    )
}

/// Adds the row of a train.
fn push_train(
    rows: &mut Vec<Row>,
    history: &History,
    company: Company,
    kind: Kind,
    from: TrainSource,
) -> Result<(), AllocError>
    requires { IsSmallOrder (Play (BuyTrain kind from)) }
    ensures { OnOk result (rows.new.items ≡ rows.old.items
        ++ train_row history.now company (train_order kind from) ∷ []) }
{
    let answer = answer_to_train(history, company, kind, from);
    push_row(rows, PlayOrder::BuyTrain { kind, from }, answer)
}

/// Returns the outcome of the order to buy a train as the first line of a company's orders.
fn answer_to_train(history: &History, company: Company, kind: Kind, from: TrainSource) -> Answer
    requires { IsSmallOrder (Play (BuyTrain kind from)) }
    ensures { result ≡ train_answer history.now company kind from }
{
    answer_if_given(
        train_cost(kind, from),
        judge_train(history, company, kind, from, Consents::OfGame),
        judge_train(history, company, kind, from, Consents::All),
        asked_for_train(history, company, kind, from),
    )
}

/// Returns what a train costs, in dollars.
fn train_cost(kind: Kind, from: TrainSource) -> Money
    requires { IsSmallOrder (Play (BuyTrain kind from)) }
    ensures { result ≡ pos (train_cost kind from) }
{
    Money::from(purchase_of(kind, from).price())
}

/// Returns the first rule that the order to buy a train breaks, given these consents; `None` if it
/// breaks none.
#[tactic(auto, unfolding(crate::specs::CompanyRows::train_refusal_by))]
fn judge_train(
    history: &History,
    company: Company,
    kind: Kind,
    from: TrainSource,
    consents: Consents,
) -> Option<Refusal>
    requires { IsSmallOrder (Play (BuyTrain kind from)) }
    ensures { result ≡ train_refusal_by consents history.now company kind from }
{
    judge_purchase(history, company, purchase_of(kind, from), consents).map(Refusal::Train)
}

/// Returns who is asked for a train, and for what: the president of the company that sells it.
fn asked_for_train(
    history: &History,
    buyer: Company,
    kind: Kind,
    from: TrainSource,
) -> Option<(Seat, Offer)>
    ensures { result ≡ asked_for_train history.now.events buyer kind from }
{
    let TrainSource::Company { seller, price } = from else {
        return None;
    };
    let giver = history.now().president(seller)?;
    let sale = Offer::Train {
        kind,
        seller,
        buyer,
        price,
    };
    Some((giver, sale))
}

/// Adds the rows of privates.
fn push_privates(rows: &mut Vec<Row>, history: &History, company: Company) -> Result<(), AllocError>
    ensures { OnOk result (rows.new.items ≡ rows.old.items
        ++ map (private_row history.now company) private_orders) }
{
    for private in &Private::ALL {
        push_private(rows, history, company, *private)?;
    }
    Ok(())
}

/// Adds the rows of a private: at half and at twice its face value.
fn push_private(
    rows: &mut Vec<Row>,
    history: &History,
    company: Company,
    private: Private,
) -> Result<(), AllocError>
    ensures { OnOk result (rows.new.items ≡ rows.old.items
        ++ map (private_row history.now company) (orders_of_private private)) }
{
    push_private_at(rows, history, company, private, face(private) / 2)?;
    push_private_at(rows, history, company, private, face(private) * 2)?;
    Ok(())
}

/// Adds the row of a private at a price.
fn push_private_at(
    rows: &mut Vec<Row>,
    history: &History,
    company: Company,
    private: Private,
    price: Amount,
) -> Result<(), AllocError>
    ensures { OnOk result (rows.new.items ≡ rows.old.items
        ++ private_row history.now company (private_order private price) ∷ []) }
{
    let answer = answer_to_private(history, company, private, price);
    push_row(rows, PlayOrder::BuyOwnedPrivate { private, price }, answer)
}

/// Returns the outcome of the order to buy a private as the first line of a company's orders.
fn answer_to_private(history: &History, company: Company, private: Private, price: Amount) -> Answer
    ensures { result ≡ private_answer history.now company private price }
{
    answer_if_given(
        Money::from(price),
        judge_owned(history, company, private, price, Consents::OfGame),
        judge_owned(history, company, private, price, Consents::All),
        asked_for_private(history, company, private, price),
    )
}

/// Returns the first rule that the order to buy a private breaks, given these consents; `None` if
/// it breaks none.
#[tactic(auto, unfolding(crate::specs::CompanyRows::private_refusal_by))]
fn judge_owned(
    history: &History,
    company: Company,
    private: Private,
    price: Amount,
    consents: Consents,
) -> Option<Refusal>
    ensures { result ≡ private_refusal_by consents history.now company private price }
{
    judge_private(history, company, private, price, consents).map(Refusal::Private)
}

/// Returns who is asked for a private, and for what: the player who owns it.
fn asked_for_private(
    history: &History,
    buyer: Company,
    private: Private,
    price: Amount,
) -> Option<(Seat, Offer)>
    ensures { result ≡ asked_for_private history.now.events buyer private price }
{
    let Some(Holder::Seat(giver)) = history.owner(private) else {
        return None;
    };
    let sale = Offer::Private {
        private,
        buyer,
        price,
    };
    Some((giver, sale))
}

/// Returns the outcome of an order at this price, in dollars, given the rule that it breaks in the
/// game, if any, and the rule that it breaks if everybody consents, if any.
fn answer_if_given(
    price: Money,
    broken: Option<Refusal>,
    given: Option<Refusal>,
    asked: Option<(Seat, Offer)>,
) -> Answer
    ensures { result ≡ answer_if_given price broken given asked }
{
    match (broken, given, asked) {
        (None, _, _) => Answer::Obeyed { price },
        (Some(_), None, Some((giver, offer))) => Answer::WithConsent {
            price,
            giver,
            offer,
        },
        (Some(rule), _, _) => Answer::Refused(rule),
    }
}
