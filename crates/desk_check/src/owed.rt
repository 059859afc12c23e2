//! Who still owes a sheet.

use desk_base::Piece::{Bytes, Round as RoundPiece, Words};
use desk_base::{owes, push};
use report::name;
use sheets::Sheets;
use std::alloc::AllocError;
use tables::{Round, Seat};

/// Adds who owes a sheet for a round, if some players, but not all, have one for it.
pub(crate) fn push_owed(
    out: &mut Vec<u8>,
    sheets: &Sheets,
    round: Round,
) -> Result<(), AllocError> {
    let count = count_owing(sheets, round);
    if count == 0 || count == sheets.seats() {
        return Ok(());
    }
    push(out, &[Words("OWED for "), RoundPiece(round)])?;
    let mut before = ": ";
    for number in 0..sheets.seats() {
        let seat = Seat::at(number);
        if owes(sheets, seat, &round) {
            push(out, &[Words(before), Bytes(name(sheets, seat))])?;
            before = ", ";
        }
    }
    push(out, &[Words("\n")])
}

/// Returns how many players owe a sheet for a round.
fn count_owing(sheets: &Sheets, round: Round) -> usize {
    let mut count: usize = 0;
    for number in 0..sheets.seats() {
        if owes(sheets, Seat::at(number), &round) {
            count = count.saturating_add(1);
        }
    }
    count
}
