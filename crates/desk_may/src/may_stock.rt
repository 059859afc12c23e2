//! What a player may buy, sell and exchange in a stock round.

use crate::may_line::{push_may_noted, push_not_given, push_note_column};
use crate::told::Told;
use crate::told_rows::{ToldRows, stock_told};
use certs::{Holdings, Sale};
use desk_base::Piece::{Bytes, Number, Words};
use desk_base::{fill, push};
use foresight::TurnAhead;
use history::{History, ShareCount, Shareholder, Transfer};
use order_grammar::PlayOrder;
use report::name;
use sheets::Sheets;
use std::alloc::{AllocError, Global};
use tables::{Company, Money, Seat};

/// Adds what a player may buy, sell and exchange in the next line of their turn, and orders that
/// are refused though one may expect them. Fails only if allocation fails.
pub fn push_of_stock(
    alloc: Global,
    out: &mut Vec<u8>,
    sheets: &Sheets,
    turn: &TurnAhead,
    seat: Seat,
) -> Result<(), AllocError> {
    let history = &turn.history;
    let list = stock_told(alloc, history, seat, turn.bought)?;
    fill(out, "\n", &[])?;
    push_purchases(out, sheets, &list)?;
    push_sales(out, sheets, history, seat, &list)?;
    push_exchange(out, sheets, &list)?;
    push_not_given(alloc, out, &list, true)?;
    push_not_given(alloc, out, &list, false)
}

/// Adds what may be bought: each share, and each company that may be started, with the par values.
fn push_purchases(out: &mut Vec<u8>, sheets: &Sheets, list: &ToldRows) -> Result<(), AllocError> {
    let mut started = None;
    for (place, row) in list.rows.iter().enumerate() {
        let Some(Told::May { price, note }) = list.told_at(place) else {
            continue;
        };
        match row.order {
            PlayOrder::Par { company, .. } if started != Some(company) => {
                push_may_noted(out, sheets, row.order, price, note)?;
                push_other_pars(out, list, place, company)?;
                started = Some(company);
            }
            PlayOrder::BuyShare { .. } => {
                push_may_noted(out, sheets, row.order, price, note)?;
                fill(out, "\n", &[])?;
            }
            _ => {}
        }
    }
    Ok(())
}

/// Adds the par values of a company that may be chosen, after a place in a list, and ends the line.
fn push_other_pars(
    out: &mut Vec<u8>,
    list: &ToldRows,
    from: usize,
    company: Company,
) -> Result<(), AllocError> {
    let mut words = "or at";
    for (place, row) in list.rows.iter().enumerate() {
        if let PlayOrder::Par {
            company: its,
            price,
        } = row.order
            && its == company
            && place > from
            && matches!(list.told_at(place), Some(Told::May { .. }))
        {
            if !words.is_empty() {
                push_note_column(out)?;
            }
            push(out, &[Words(words), Words(" "), Number(Money::from(price))])?;
            words = "";
        }
    }
    fill(out, "\n", &[])
}

/// Adds the greatest sale of each company, with the square of its token before and after.
fn push_sales(
    out: &mut Vec<u8>,
    sheets: &Sheets,
    history: &History,
    seat: Seat,
    list: &ToldRows,
) -> Result<(), AllocError> {
    for (place, row) in list.rows.iter().enumerate() {
        if let (PlayOrder::Sell { company, shares }, Some(Told::May { price, note })) = (
            row.order,
            list.told_at(place),
        )
            && !is_sold_after(list, place, company)
        {
            push_may_noted(out, sheets, row.order, price, note)?;
            push_successor(out, sheets, history, seat, Sale { company, shares })?;
            fill(out, "\n", &[])?;
        }
    }
    Ok(())
}

/// Returns whether a greater sale of a company may be made, after a place in a list.
fn is_sold_after(list: &ToldRows, from: usize, company: Company) -> bool {
    for (place, row) in list.rows.iter().enumerate() {
        if let PlayOrder::Sell { company: its, .. } = row.order
            && its == company
            && place > from
            && matches!(list.told_at(place), Some(Told::May { .. }))
        {
            return true;
        }
    }
    false
}

/// Adds who would preside over a company once a seat has sold shares of it, if that changes.
fn push_successor(
    out: &mut Vec<u8>,
    sheets: &Sheets,
    history: &History,
    seat: Seat,
    sale: Sale,
) -> Result<(), AllocError> {
    let company = sale.company;
    let shares = u8::try_from(sale.shares).unwrap_or(u8::MAX);
    let mut holdings = Holdings::of(history);
    let before = holdings.president(company);
    let from = Shareholder::Seat(seat);
    if holdings.shares(company, from) < ShareCount::from(shares) {
        return Ok(());
    }
    holdings.transfer(Transfer {
        company,
        shares,
        from,
        to: Shareholder::BankPool,
    });
    match holdings.president(company) {
        Some(after) if before != Some(after) => {
            fill(out, ", % presides", &[Bytes(name(sheets, after))])
        }
        _ => Ok(()),
    }
}

/// Adds the exchange of MH, if the player may make it.
fn push_exchange(out: &mut Vec<u8>, sheets: &Sheets, list: &ToldRows) -> Result<(), AllocError> {
    for (place, row) in list.rows.iter().enumerate() {
        if let (PlayOrder::ExchangeMohawk, Some(Told::May { price, note })) = (
            row.order,
            list.told_at(place),
        ) {
            push_may_noted(out, sheets, row.order, price, note)?;
            fill(out, "\n", &[])?;
        }
    }
    Ok(())
}
