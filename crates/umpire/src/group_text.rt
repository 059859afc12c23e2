//! Writes the text of certificates: its first line, and the CERT, CLAIM and MARKS lines of a group.
ghost use Rattle.std.specs.Prelude.{◌≡◌, ◌++◌, OnOk, drop};
ghost use Rattle.std.specs.List.{flat_map};
ghost use Rattle.umpire.specs.Written.{claim_line, claim_text, marks_line, order_line};
ghost use Rattle.order_grammar.specs.declared.order.Order.TheVariants.{Certs};

use certificate::{BitReader, ClaimedRun, Group};
use order_grammar::{MARKS_DIGITS_MOST, Order, print_order};
use std::alloc::AllocError;

/// Adds the first line of a text of certificates. Fails only if allocation fails; then a part of it
/// may have been added.
pub(crate) fn print_certs(text: &mut Vec<u8>) -> Result<(), AllocError>
    ensures { OnOk result (text.new.items ≡ text.old.items ++ order_line Certs) }
{
    print_order_line(text, &Order::Certs)
}

/// Adds the lines of a group before its marks: its CERT line, and a CLAIM line for each run. Fails
/// only if allocation fails; then a part may have been added.
pub(crate) fn print_claim(text: &mut Vec<u8>, group: &Group) -> Result<(), AllocError>
    ensures { OnOk result (text.new.items ≡ text.old.items ++ claim_text group.now) }
{
    let head = Order::Cert {
        round: group.round,
        company: group.company,
        revenue: group.claim.revenue,
    };
    print_order_line(text, &head)?;
    print_runs(text, group.claim.runs.as_slice())
}

/// Adds a MARKS line of the next marks: 1,000 digits, or all if fewer are left. Fails only if
/// allocation fails; then a part may have been added.
pub(crate) fn print_marks(text: &mut Vec<u8>, marks: &mut BitReader) -> Result<(), AllocError>
    ensures printed { OnOk result (text.new.items ≡ text.old.items ++ marks_line marks.old) }
    ensures left { OnOk result (marks.new ≡ drop 4000 marks.old) }
{
    text.extend_from_slice(b"MARKS ")?;
    marks.print_digits(MARKS_DIGITS_MOST, text)?;
    text.push(b'\n')?;
    Ok(())
}

/// Adds the line of an order.
fn print_order_line(text: &mut Vec<u8>, order: &Order) -> Result<(), AllocError>
    ensures { OnOk result (text.new.items ≡ text.old.items ++ order_line order.now) }
{
    print_order(text, order)?;
    text.push(b'\n')?;
    Ok(())
}

/// Adds a CLAIM line for each run.
fn print_runs(text: &mut Vec<u8>, runs: &[ClaimedRun]) -> Result<(), AllocError>
    ensures { OnOk result (text.new.items ≡ text.old.items ++ flat_map claim_line runs.now) }
{
    for claimed in runs {
        let claim = Order::Claim {
            kind: claimed.kind,
            run: claimed.run.duplicate(),
        };
        print_order_line(text, &claim)?;
    }
    Ok(())
}
