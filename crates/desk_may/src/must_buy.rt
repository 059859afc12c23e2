//! A train that a company must buy as its turn ends, as text: what it costs and who pays, what its
//! president may sell for it, and what happens otherwise.

use crate::may_line::push_may;
use crate::raise_rows::raise_rows;
use crate::until_then::{SAID, push_events};
use desk_base::Piece::{Bytes, Column, Number, Words};
use desk_base::{fill, push};
use desk_dues::raised_at_most;
use forced_purchase::{Operator, cheapest, falls_short, lack};
use foresight::{OrdersAhead, RoundAhead};
use history::{History, Party, TrainSeller};
use moves::{Answer, Row};
use report::name;
use sheets::Sheets;
use std::alloc::{AllocError, Global};
use tables::Money;

/// When it is that a company must buy a train.
#[derive(Clone, Copy)]
struct Occasion {
    label: &'static str,
    /// The words for it.
    when: &'static str,
    /// What the company has besides its cash.
    beside: &'static str,
    /// Whether the company will have only its cash then, so that it is known what it lacks.
    is_lack_known: bool,
}

/// As its turn ends, since it has no train.
const AT_THE_END: Occasion = Occasion {
    label: "MUST BUY",
    when: ", as its turn ends without a train",
    beside: "",
    is_lack_known: true,
};

/// If it sells the one train that it has, at a price that is not known yet.
const IF_SOLD: Occasion = Occasion {
    label: "IF IT SELLS IT",
    when: "",
    beside: " and what it gets for it",
    is_lack_known: false,
};

/// Ends the turn of a company. If it must buy a train then, adds that, and what follows. Returns
/// the round after the turn. Fails only if allocation fails.
pub fn push_end_of_turn<'a>(
    alloc: Global,
    out: &mut Vec<u8>,
    orders: OrdersAhead<'a>,
) -> Result<RoundAhead<'a>, AllocError> {
    let sheets = orders.sheets();
    let (orders, due) = orders.withheld()?.must_buy()?;
    if !due {
        return push_if_sold(out, orders)?.finish();
    }
    push_purchase(alloc, out, sheets, orders.history(), orders.by())?;
    let from = orders.history().events().len();
    let ahead = orders.finish()?;
    push_what_follows(alloc, out, sheets, ahead.history(), from)?;
    Ok(ahead)
}

/// Adds what a company with one train left must buy if it sells that train. Returns its turn.
fn push_if_sold<'a>(
    out: &mut Vec<u8>,
    orders: OrdersAhead<'a>,
) -> Result<OrdersAhead<'a>, AllocError> {
    let by = orders.by();
    if orders.history().now().train_count(Some(by.company)) != 1 {
        return Ok(orders);
    }
    let (orders, could) = orders.could_run()?;
    if could {
        push_cost(out, orders.history(), by, IF_SOLD)?;
        push_president(out, orders.sheets(), orders.history(), by, IF_SOLD)?;
    }
    Ok(orders)
}

/// Adds what a company must buy, and who pays for it.
fn push_purchase(
    alloc: Global,
    out: &mut Vec<u8>,
    sheets: &Sheets,
    history: &History,
    by: Operator,
) -> Result<(), AllocError> {
    push_cost(out, history, by, AT_THE_END)?;
    push_president(out, sheets, history, by, AT_THE_END)?;
    if falls_short(history, by) {
        push_raises(out, raise_rows(alloc, history, by)?.as_slice())?;
    }
    Ok(())
}

/// Adds which train a company must buy, with its price, and what the company has.
fn push_cost(
    out: &mut Vec<u8>,
    history: &History,
    by: Operator,
    occasion: Occasion,
) -> Result<(), AllocError> {
    let purchase = cheapest(&history.now());
    let seller = match purchase.from {
        TrainSeller::BankPool => "POOL",
        TrainSeller::Bank | TrainSeller::Company(_) => "BANK",
    };
    let code = Words(by.company.code());
    let pieces = [
        Words(occasion.label),
        Column(SAID),
        code,
        Words(purchase.kind.code()),
        Words(seller),
        Number(Money::from(purchase.price())),
        Words(occasion.when),
        Number(history.cash(Party::of_company(by.company))),
        Words(occasion.beside),
    ];
    fill(out, "%%% must buy TRAIN % % for %%; it has %%\n", &pieces)
}

/// Adds what the president pays, has and can raise.
fn push_president(
    out: &mut Vec<u8>,
    sheets: &Sheets,
    history: &History,
    by: Operator,
    occasion: Occasion,
) -> Result<(), AllocError> {
    let lacking = lack(history, by.company);
    if lacking <= 0 {
        return Ok(());
    }
    let lacks = if occasion.is_lack_known {
        Number(lacking)
    } else {
        Words("what is lacking")
    };
    let president = Bytes(name(sheets, by.president));
    push(out, &[president, Words(" ADDS"), Column(SAID), lacks])?;
    let free = Number(history.now().free_cash(by.president));
    fill(
        out,
        ", has %, and can raise %\n",
        &[free, Number(Money::from(raised_at_most(history, by)))],
    )
}

/// Adds each RAISE that would be obeyed as the first one, with what it brings.
fn push_raises(out: &mut Vec<u8>, rows: &[Row]) -> Result<(), AllocError> {
    for row in rows {
        if let Answer::Obeyed { price } = row.answer {
            push_may(out, row.order, price)?;
            fill(out, "\n", &[])?;
        }
    }
    Ok(())
}

/// Adds what happens at the end of the turn without further orders, as the report words it.
fn push_what_follows(
    alloc: Global,
    out: &mut Vec<u8>,
    sheets: &Sheets,
    history: &History,
    from: usize,
) -> Result<(), AllocError> {
    let events = history.events().get(from..).unwrap_or(&[]);
    push_events(alloc, out, sheets, "OTHERWISE", events)
}
