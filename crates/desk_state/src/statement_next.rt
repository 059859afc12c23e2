//! What comes after a round: the next round, with the order of its turns and who owes a sheet for
//! it, or the result.

use crate::whole_statement::VALUES;
use desk_base::Piece::{Bytes, Column, Count, Cut, Right, Words};
use desk_base::{Piece, Stood, Text, owes};
use desk_cells::{game_row, leaders, operates};
use report::name;
use rounds::End;
use std::alloc::{AllocError, Global};
use tables::{Company, Round, Seat};

/// The column of further lines of a list.
const LISTED: usize = 6;

/// The most columns shown of the umpire's words on when sheets are due.
const DUE_COLUMNS: usize = 60;

/// Adds the next round, the order of its turns, and who owes a sheet for it; or how the game ended,
/// and the result.
pub(crate) fn put_next(
    alloc: Global,
    out: &mut Text,
    stood: &Stood,
    order: &[Company],
    due: &str,
) -> Result<(), AllocError> {
    match stood.end {
        End::Awaiting(round) => {
            put_order(alloc, out, stood, order, round)?;
            put_owed(alloc, out, stood, round, due)
        }
        End::Bank => put_result(alloc, out, stood, "the bank is broken"),
        End::Bankrupt => put_result(alloc, out, stood, "a president is bankrupt"),
    }
}

/// Adds the order of the turns of a round: that of the companies, or of the players from the one
/// with priority.
fn put_order(
    alloc: Global,
    out: &mut Text,
    stood: &Stood,
    order: &[Company],
    round: Round,
) -> Result<(), AllocError> {
    let mut names = Text::new(alloc);
    let view = stood.history.now();
    if let Round::Operating { .. } = round {
        for company in order {
            if operates(&view, *company) {
                names.fill("% ", &[Words(company.code())]);
            }
        }
    } else {
        let mut seat = game_row(&view).priority;
        for _ in 0..stood.sheets.seats() {
            names.fill("% ", &[Bytes(name(stood.sheets, seat))]);
            seat = seat.left(stood.sheets.seats());
        }
    }
    let names = names.finish()?;
    out.fill("\nORDER OF %%", &[Piece::Round(round), Column(VALUES)]);
    out.push_wrapped(VALUES, words_or(names.as_slice(), b"nobody"));
    Ok(())
}

/// Returns a text, or other words if it is empty.
pub(crate) fn words_or<'a>(text: &'a [u8], other: &'a [u8]) -> &'a [u8] {
    if text.is_empty() { other } else { text }
}

/// Adds who owes a sheet for a round, and when it is due if the umpire has said so; or that the
/// round has been played.
fn put_owed(
    alloc: Global,
    out: &mut Text,
    stood: &Stood,
    round: Round,
    due: &str,
) -> Result<(), AllocError> {
    if stood.sheets.are_all_posted(&round) {
        out.fill("NEXT %, which is played\n", &[Piece::Round(round)]);
        return Ok(());
    }
    out.fill("NEXT %: sheets are owed by", &[Piece::Round(round)]);
    let mut names = Text::new(alloc);
    for seat in 0..stood.sheets.seats() {
        let seat = Seat::at(seat);
        if owes(stood.sheets, seat, &round) {
            names.fill(" %", &[Bytes(name(stood.sheets, seat))]);
        }
    }
    if !due.is_empty() {
        names.fill(", due %", &[Cut(due.as_bytes(), DUE_COLUMNS)]);
    }
    out.push_wrapped(LISTED, names.finish()?.as_slice());
    Ok(())
}

/// Adds why the game is over, and what each player is worth, the greatest first. Players who are
/// worth the same have the same rank, and are in the order of their seats.
fn put_result(alloc: Global, out: &mut Text, stood: &Stood, why: &str) -> Result<(), AllocError> {
    out.fill("\nTHE END: %\nRESULT        WORTH\n", &[Words(why)]);
    for row in leaders(alloc, stood.history, stood.sheets.seats())? {
        out.push(&[
            Count(row.rank),
            Words("  "),
            Bytes(name(stood.sheets, row.seat)),
            Column(11),
            Right(8, row.worth),
            Words("\n"),
        ]);
    }
    Ok(())
}
