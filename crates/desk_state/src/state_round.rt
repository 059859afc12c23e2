//! The awaited round and who owes a sheet for it, or how the game ended; and the limits of the
//! phase and the set.

use desk_base::Piece::{Bytes, Count, Number, Words};
use desk_base::{Piece, Stood, Text, owes};
use desk_cells::game_row;
use report::name;
use rounds::End;
use tables::{Money, Round, Seat};

/// Adds the round that was played last, and the awaited round with those who owe a sheet for it, or
/// how the game ended.
pub(crate) fn put_awaited(out: &mut Text, stood: &Stood) {
    let last = match stood.history.now().round() {
        Some(round) => Piece::Round(round),
        None => Words("none"),
    };
    out.fill("LAST ROUND        %\n", &[last]);
    match stood.end {
        End::Awaiting(round) => put_owing(out, stood, round),
        End::Bank => out.push(&[Words("ENDED             by the broken bank\n")]),
        End::Bankrupt => out.push(&[Words("ENDED             by a bankruptcy\n")]),
    }
}

/// Adds the awaited round, and who owes a sheet for it.
fn put_owing(out: &mut Text, stood: &Stood, round: Round) {
    let awaited = [Piece::Round(round)];
    out.fill("AWAITED           %\nSHEETS OWED BY   ", &awaited);
    let mut end = " nobody\n";
    for seat in 0..stood.sheets.seats() {
        let seat = Seat::at(seat);
        if owes(stood.sheets, seat, &round) {
            out.fill(" %", &[Bytes(name(stood.sheets, seat))]);
            end = "\n";
        }
    }
    out.push(&[Words(end)]);
}

/// Adds the phase, the holder of priority, how many operating rounds the set has, and the limit of
/// certificates.
pub(crate) fn put_matters(out: &mut Text, stood: &Stood) {
    let row = game_row(&stood.history.now());
    out.fill(
        "PHASE             %\nPRIORITY          %\nROUNDS IN SET     %\nCERTIFICATES      % at most\n",
        &[
            Words(row.phase.code()),
            Bytes(name(stood.sheets, row.priority)),
            Number(Money::from(stood.in_set)),
            Count(row.certificates),
        ],
    );
}
