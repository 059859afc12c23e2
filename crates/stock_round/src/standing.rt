//! The standing lines of a sheet for a stock round. Each has a fault, since every order is out of
//! place there.
ghost use Rattle.std.specs.Prelude.{◌≡◌, OnOk};
ghost use Rattle.totals.specs.LookBack.{with_events};
ghost use Rattle.history.specs.Games.{IsGame};
ghost use Rattle.sheets.specs.Part.{line_unread};
ghost use Rattle.stock_round.specs.Standing.{after_stock_standing_line};

use history::History;
use order_grammar::Order;
use sheets::{UnreadLine, fault_out_of_place};
use std::alloc::AllocError;
use tables::Seat;
use turns::record_fault;

/// Rules a standing line of a seat, before the first written turn of its sheet. Every order is out
/// of place there. Overwrites `order`.
pub(crate) fn rule_standing_line(
    history: &mut History,
    seat: Seat,
    line: UnreadLine,
    order: &mut Order,
) -> Result<(), AllocError>
    requires { IsGame history.old }
    ensures after { OnOk result (history.new ≡ with_events history.old
        (after_stock_standing_line seat history.old.events (line_unread line.entry))) }
    ensures game { OnOk result (IsGame history.new) }
{
    let fault = fault_out_of_place(line, order);
    record_fault(history, seat, line.number, fault)?;
    Ok(())
}
