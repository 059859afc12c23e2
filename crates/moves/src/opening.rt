//! The rows of an opening: for each private its purchase, the lowest bid on it, and a bid that is a
//! dollar lower.
ghost use Rattle.std.specs.Prelude.{◌≡◌, ◌++◌, ◌∷◌, [], IfOk, OnOk, map, pos};
ghost use Rattle.moves.specs.Bids.{least_bid_of};
ghost use Rattle.moves.specs.OpeningRows.{opening_answer, opening_cost, opening_orders, opening_row, orders_on};
ghost use Rattle.order_grammar.specs.declared.order.Order.TheVariants.{Play};

use crate::row::{Answer, Row, answer_of, push_row};
use history::{History, Refusal};
use order_grammar::PlayOrder;
use privates::{judge, price_of_private};
use std::alloc::{AllocError, Global};
use tables::{Amount, BID_STEP, Money, Private, Seat, face};

/// Returns the outcome of each order to buy a private, to make the lowest bid on it, and to bid a
/// dollar less, as the next line of a seat's turn of an opening, in which it has bought or bid, or
/// has not. Fails only if allocation fails.
pub fn opening_rows(
    alloc: Global,
    history: &History,
    seat: Seat,
    used: bool,
) -> Result<Vec<Row>, AllocError>
    ensures { IfOk result (λ rows. rows.items
        ≡ map (opening_row history.now seat used)
        (opening_orders history.now.events)) }
{
    let mut rows = Vec::new(alloc);
    push_privates(&mut rows, history, seat, used)?;
    Ok(rows)
}

/// Adds the rows of each private.
fn push_privates(
    rows: &mut Vec<Row>,
    history: &History,
    seat: Seat,
    used: bool,
) -> Result<(), AllocError>
    ensures { OnOk result (rows.new.items ≡ rows.old.items
        ++ map (opening_row history.now seat used)
        (opening_orders history.now.events)) }
{
    for private in &Private::ALL {
        push_private(rows, history, seat, used, *private)?;
    }
    Ok(())
}

/// Adds the rows of a private.
fn push_private(
    rows: &mut Vec<Row>,
    history: &History,
    seat: Seat,
    used: bool,
    private: Private,
) -> Result<(), AllocError>
    ensures { OnOk result (rows.new.items ≡ rows.old.items
        ++ map (opening_row history.now seat used)
        (orders_on history.now.events private)) }
{
    let least = least_bid(history, private);
    push_order(rows, history, seat, used, PlayOrder::BuyPrivate(private))?;
    let bid = PlayOrder::Bid {
        private,
        amount: least,
    };
    push_order(rows, history, seat, used, bid)?;
    let lower = PlayOrder::Bid {
        private,
        amount: least.saturating_sub(1),
    };
    push_order(rows, history, seat, used, lower)?;
    Ok(())
}

/// Adds the row of an order.
fn push_order(
    rows: &mut Vec<Row>,
    history: &History,
    seat: Seat,
    used: bool,
    order: PlayOrder,
) -> Result<(), AllocError>
    ensures { OnOk result (rows.new.items ≡ rows.old.items
        ++ opening_row history.now seat used order ∷ []) }
{
    let answer = answer_to(history, seat, used, order);
    push_row(rows, order, answer)
}

/// Returns the outcome of an order as the next line of a seat's turn.
fn answer_to(history: &History, seat: Seat, used: bool, order: PlayOrder) -> Answer
    ensures { result ≡ opening_answer history.now seat used (Play order) }
{
    let broken = judge(history, seat, order, used).map(Refusal::Opening);
    answer_of(cost(history, order), broken)
}

/// Returns what an order costs, in dollars: a private its price, a bid its sum.
fn cost(history: &History, order: PlayOrder) -> Money
    ensures { result ≡ pos (opening_cost history.now.events (Play order)) }
{
    match order {
        PlayOrder::BuyPrivate(private) => Money::from(price_of_private(&history.now(), private)),
        PlayOrder::Bid { amount, .. } => Money::from(amount),
        _ => 0,
    }
}

/// Returns the lowest bid on a private, in dollars: 5 above its face value and the highest earlier
/// bid.
pub fn least_bid(history: &History, private: Private) -> Amount
    ensures { result ≡ least_bid_of history.now.events private }
{
    let least = face(private).saturating_add(BID_STEP);
    match history.now().greatest_bid(private) {
        Some(bid) => least.max(bid.saturating_add(BID_STEP)),
        None => least,
    }
}
