//! Rows as lines: each order as a sheet could hold it, four spaces, and its outcome.
ghost use Rattle.std.specs.Prelude.{◌≡◌, ◌++◌, OnOk};
ghost use Rattle.desk_may.specs.RowLines.{answer_text, offered_lines, row_line, row_lines};

use crate::offerers::as_offered;
use moves::{Answer, Row};
use order_grammar::{PlayOrder, print_number, print_play_order};
use report::name;
use sheets::Sheets;
use std::alloc::AllocError;
use tables::Seat;

/// Adds the lines of some rows. Fails only if allocation fails.
pub(crate) fn push_rows(out: &mut Vec<u8>, sheets: &Sheets, rows: &[Row]) -> Result<(), AllocError>
    ensures { OnOk result (out.new.items ≡ out.old.items ++ row_lines sheets.now rows.now) }
{
    for row in rows {
        push_row(out, sheets, row.order, row.answer)?;
    }
    Ok(())
}

/// Adds the lines of some rows, given who presides as the round begins: a train whose offer would
/// come too late is refused. Fails only if allocation fails.
pub(crate) fn push_offered_rows(
    out: &mut Vec<u8>,
    sheets: &Sheets,
    rows: &[Row],
    presidents: &[Option<Seat>],
) -> Result<(), AllocError>
    ensures { OnOk result (out.new.items ≡ out.old.items
        ++ offered_lines presidents.now sheets.now rows.now) }
{
    for row in rows {
        let answer = as_offered(presidents, row.answer);
        push_row(out, sheets, row.order, answer)?;
    }
    Ok(())
}

/// Adds the line of an order, with its outcome.
fn push_row(
    out: &mut Vec<u8>,
    sheets: &Sheets,
    order: PlayOrder,
    answer: Answer,
) -> Result<(), AllocError>
    ensures { OnOk result (out.new.items ≡ out.old.items
        ++ row_line sheets.now (record { order = order; answer = answer })) }
{
    print_play_order(out, order)?;
    out.extend_from_slice(b"    ")?;
    push_answer(out, sheets, answer)?;
    out.push(b'\n')?;
    Ok(())
}

/// Adds the outcome of an order: OK with its price and whose offer it needs, or the code of the
/// rule that refuses it.
fn push_answer(out: &mut Vec<u8>, sheets: &Sheets, answer: Answer) -> Result<(), AllocError>
    ensures { OnOk result (out.new.items ≡ out.old.items ++ answer_text sheets.now answer) }
{
    match answer {
        Answer::Obeyed { price } => {
            out.extend_from_slice(b"OK ")?;
            print_number(out, price)
        }
        Answer::WithConsent {
            price,
            giver,
            offer,
        } => {
            out.extend_from_slice(b"OK ")?;
            print_number(out, price)?;
            out.extend_from_slice(b" with ")?;
            out.extend_from_slice(name(sheets, giver))?;
            out.push(b' ')?;
            print_play_order(out, PlayOrder::Offer(offer))
        }
        Answer::Refused(rule) => out.extend_from_slice(rule.code().as_bytes()),
    }
}
