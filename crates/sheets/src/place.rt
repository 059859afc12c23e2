//! Orders that are out of place in every part of a sheet, and the fault of a line where every order
//! is out of place.
ghost use Rattle.std.specs.Prelude.{◌≡◌, Err};
ghost use Rattle.sheets.specs.Part.{line_unread};
ghost use Rattle.sheets.specs.Place.{has_no_place, is_of_file, placed};

use crate::sheet::UnreadLine;
use order_grammar::{Fault, Order};

/// Returns whether an order belongs to the file and its sheets, or to the text of a certificate,
/// and is not an order of play. It is out of place in every part of a sheet. These are GAME,
/// PLAYERS and SHEET, a TURN or COMPANY that is not a head, CERTS, CERT, CLAIM and MARKS.
pub fn is_of_file(order: &Order) -> bool
    ensures { result ≡ is_of_file order.now }
{
    matches!(
        order,
        Order::Game { .. }
            | Order::Players(_)
            | Order::Sheet { .. }
            | Order::Turn
            | Order::Company(_)
            | Order::Certs
            | Order::Cert { .. }
            | Order::Claim { .. }
            | Order::Marks
    )
}

/// Returns the fault of a line where every order is out of place: its first fault, or else
/// `OutOfPlace`. Overwrites `order`.
pub fn fault_out_of_place(line: UnreadLine, order: &mut Order) -> Fault
    ensures { placed has_no_place (line_unread line.entry).reading ≡ Err result }
{
    match line.read_into(order) {
        Ok(_) => Fault::OutOfPlace,
        Err(fault) => fault,
    }
}
