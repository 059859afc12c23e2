//! A line that says what a player may or may not do.

use crate::told::{Held, Note, Told};
use crate::told_rows::ToldRows;
use desk_base::Piece::{Bytes, Column, Number, Right, Words};
use desk_base::{Piece, Reason, fill, push, push_wrapped};
use history::Refusal;
use order_grammar::{PlayOrder, print_play_order};
use report::name;
use sheets::Sheets;
use std::alloc::{AllocError, Global};
use tables::{Money, Square, price};

/// The column before a price, which has at most six digits.
const PRICE: usize = 22;

/// The column of a note after a price, or of why something is not allowed.
const NOTE: usize = 30;

/// Adds an order that may be given, with its price in dollars. It does not end the line.
pub(crate) fn push_may(
    out: &mut Vec<u8>,
    order: PlayOrder,
    price: Money,
) -> Result<(), AllocError> {
    print_play_order(out, order)?;
    push(out, &[Column(PRICE), Right(6, price)])
}

/// Moves to the column of a note, in a line that has not ended.
pub(crate) fn push_note_column(out: &mut Vec<u8>) -> Result<(), AllocError> {
    push(out, &[Column(NOTE)])
}

/// Adds a line for each order that may be given: either the bids or the other orders.
pub(crate) fn push_given(
    out: &mut Vec<u8>,
    sheets: &Sheets,
    list: &ToldRows,
    is_bid: bool,
) -> Result<(), AllocError> {
    for (place, row) in list.rows.iter().enumerate() {
        if let Some(Told::May { price, note }) = list.told_at(place)
            && matches!(row.order, PlayOrder::Bid { .. }) == is_bid
        {
            push_may_noted(out, sheets, row.order, price, note)?;
            fill(out, "\n", &[])?;
        }
    }
    Ok(())
}

/// Adds a line for each order that may not be given: either the exchange of MH or the other orders.
pub(crate) fn push_not_given(
    alloc: Global,
    out: &mut Vec<u8>,
    list: &ToldRows,
    is_exchange: bool,
) -> Result<(), AllocError> {
    for (place, row) in list.rows.iter().enumerate() {
        if let Some(Told::Not { rule, price, held }) = list.told_at(place)
            && matches!(row.order, PlayOrder::ExchangeMohawk) == is_exchange
        {
            push_may_not(alloc, out, row.order, rule, price, held)?;
        }
    }
    Ok(())
}

/// Adds an order that may be given, with its price in dollars and what is said of it. It does not
/// end the line.
pub(crate) fn push_may_noted(
    out: &mut Vec<u8>,
    sheets: &Sheets,
    order: PlayOrder,
    price: Money,
    note: Note,
) -> Result<(), AllocError> {
    push_may(out, order, price)?;
    if let Note::Nothing = note {
        return Ok(());
    }
    push_note_column(out)?;
    push_note(out, sheets, note)
}

/// Adds what is said of an order that may be given.
fn push_note(out: &mut Vec<u8>, sheets: &Sheets, note: Note) -> Result<(), AllocError> {
    match note {
        Note::Nothing => Ok(()),
        Note::OrMore => fill(out, "or more", &[]),
        Note::Several => fill(
            out,
            "as many as you like in a turn: its price is brown",
            &[],
        ),
        Note::Falls { from, to } => {
            push_square(out, from)?;
            fill(out, " -> ", &[])?;
            push_square(out, to)
        }
        Note::Source(from) => fill(out, "for a share of NYC from %", &[Bytes(from.text())]),
        Note::UpTo { most, giver: None } => fill(out, "up to %", &[Number(most)]),
        Note::UpTo {
            most,
            giver: Some(giver),
        } => fill(
            out,
            "up to %, if % offers it",
            &[Number(most), Bytes(name(sheets, giver))],
        ),
    }
}

/// Adds the price of a square with its name.
fn push_square(out: &mut Vec<u8>, square: Square) -> Result<(), AllocError> {
    let price = Number(Money::from(price(square)));
    fill(out, "% %", &[price, Piece::Square(square)])
}

/// Adds an order that may not be given, with its price in dollars if that is said, the first rule
/// that it breaks, and what the player or company has of what the rule is about.
fn push_may_not(
    alloc: Global,
    out: &mut Vec<u8>,
    order: PlayOrder,
    rule: Refusal,
    price: Option<Money>,
    held: Held,
) -> Result<(), AllocError> {
    fill(out, "NOT ", &[])?;
    match price {
        Some(price) => push_may(out, order, price)?,
        None => print_play_order(out, order)?,
    }
    push_note_column(out)?;
    let mut why = Vec::new(alloc);
    let reason = Reason::Order(rule);
    let pieces = [Words(reason.code()), Words(reason.sentence())];
    fill(&mut why, "%: %", &pieces)?;
    push_held(&mut why, held)?;
    push_wrapped(out, NOTE, why.as_slice())
}

/// Adds what the player or company has of what a rule is about.
fn push_held(out: &mut Vec<u8>, held: Held) -> Result<(), AllocError> {
    match held {
        Held::Unsaid => Ok(()),
        Held::YourCash(cash) => fill(out, "; you have %", &[Number(cash)]),
        Held::ItsCash(cash) => fill(out, "; it has %", &[Number(cash)]),
        Held::YourShares(shares) => fill(out, "; you hold %", &[Number(Money::from(shares))]),
    }
}
