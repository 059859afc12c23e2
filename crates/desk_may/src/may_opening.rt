//! What a player may buy and bid in an opening.

use crate::may_line::{push_given, push_not_given};
use crate::told_rows::opening_told;
use desk_base::fill;
use foresight::TurnAhead;
use sheets::Sheets;
use std::alloc::{AllocError, Global};
use tables::Seat;

/// Adds the private that a player may buy in the next line of their turn, and the least bid on each
/// on which they may bid; and for the other unsold ones why not. Fails only if allocation fails.
pub fn push_of_opening(
    alloc: Global,
    out: &mut Vec<u8>,
    sheets: &Sheets,
    turn: &TurnAhead,
    seat: Seat,
) -> Result<(), AllocError> {
    let list = opening_told(alloc, &turn.history, seat, turn.used)?;
    fill(out, "\n", &[])?;
    push_given(out, sheets, &list, false)?;
    push_given(out, sheets, &list, true)?;
    push_not_given(alloc, out, &list, false)
}
