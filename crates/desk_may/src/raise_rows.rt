//! The rows of RAISE lines, for a company that must buy a train and cannot pay for it.
ghost use Rattle.std.specs.Prelude.{◌≡◌, ◌++◌, IfOk, OnOk, map};
ghost use Rattle.desk_may.specs.RaiseRows.{is_held, raise_answer, raise_if_held, raise_row, raises, raises_of};

use certs::Sale;
use forced_purchase::{Operator, judge_raise};
use history::{History, ShareCount, Shareholder};
use moves::{Answer, Row, brought_by};
use order_grammar::PlayOrder;
use std::alloc::{AllocError, Global};
use tables::{Amount, Company};

/// The numbers of shares that a RAISE may name: a company has ten.
const NUMBERS: [Amount; 10] = [1, 2, 3, 4, 5, 6, 7, 8, 9, 10];

/// Returns the outcome of each RAISE as the first one, when a train must be bought: for one share
/// of a company up to all that the president has. Fails only if allocation fails.
pub(crate) fn raise_rows(
    alloc: Global,
    history: &History,
    by: Operator,
) -> Result<Vec<Row>, AllocError>
    ensures { IfOk result (λ rows. rows.items
        ≡ map (raise_row history.now by) (raises history.now.events by.president)) }
{
    let mut rows = Vec::new(alloc);
    push_raises(&mut rows, history, by)?;
    Ok(rows)
}

/// Adds the rows of all companies.
fn push_raises(rows: &mut Vec<Row>, history: &History, by: Operator) -> Result<(), AllocError>
    ensures { OnOk result (rows.new.items ≡ rows.old.items
        ++ map (raise_row history.now by) (raises history.now.events by.president)) }
{
    for company in &Company::ALL {
        push_raises_of(rows, history, by, *company)?;
    }
    Ok(())
}

/// Adds the rows of shares of a company.
fn push_raises_of(
    rows: &mut Vec<Row>,
    history: &History,
    by: Operator,
    company: Company,
) -> Result<(), AllocError>
    ensures { OnOk result (rows.new.items ≡ rows.old.items
        ++ map (raise_row history.now by) (raises_of history.now.events by.president company)) }
{
    for shares in &NUMBERS {
        push_if_held(rows, history, by, company, *shares)?;
    }
    Ok(())
}

/// Adds the row of this many shares of a company, if the president has them.
fn push_if_held(
    rows: &mut Vec<Row>,
    history: &History,
    by: Operator,
    company: Company,
    shares: Amount,
) -> Result<(), AllocError>
    ensures { OnOk result (rows.new.items ≡ rows.old.items ++ map (raise_row history.now by)
        (raise_if_held history.now.events by.president company shares)) }
{
    if !is_held(history, by, company, shares) {
        return Ok(());
    }
    let answer = raise_answer(history, by, Sale { company, shares });
    rows.push(Row {
        order: PlayOrder::Raise { company, shares },
        answer,
    })?;
    Ok(())
}

/// Returns whether a president has at least this many shares of a company.
fn is_held(history: &History, by: Operator, company: Company, shares: Amount) -> bool
    ensures { result ≡ is_held history.now.events by.president company shares }
{
    ShareCount::from(shares) <= history.shares(company, Shareholder::Seat(by.president))
}

/// Returns the outcome of a RAISE as the first one, when a train must be bought.
fn raise_answer(history: &History, by: Operator, sale: Sale) -> Answer
    ensures { result ≡ raise_answer history.now by sale }
{
    match judge_raise(history, by, None, sale, true) {
        Some(rule) => Answer::Refused(rule),
        None => Answer::Obeyed {
            price: brought_by(&history.now(), sale),
        },
    }
}
