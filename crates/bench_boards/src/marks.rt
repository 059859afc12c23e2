//! The marks that show a greatest revenue, measured: how many there are, how long it takes to write
//! and to check them, and whether the check accepts them.

use crate::fault::LinesFault;
use crate::game::BoardLines;
use best_run::best;
use board::Board;
use certificate::{Bits, Claim, accepts_bits, write_marks};
use std::rt::Runtime;
use std::time::{Duration, Instant};
use tables::Company;

/// What the marks of a board cost.
#[derive(Clone, Copy, Debug)]
pub struct Cost {
    /// How many marks there are.
    pub marks: u64,
    /// How long it took to write them, once the greatest revenue was known.
    pub write: Duration,
    /// How long it took to check the claim by them.
    pub check: Duration,
    /// Whether they were accepted.
    pub accepted: bool,
}

/// Writes the marks for the greatest revenue of the company's trains on a board, and checks them.
/// The error is `Company`, `Board`, `Memory`, or `Io` if the clock fails.
pub fn measure(rt: &HostRuntime, game: &BoardLines) -> Result<Cost, LinesFault> {
    let company = game.company()?;
    let board = game.board(rt.alloc())?;
    let found = best(rt.alloc(), &board, company, game.trains())?;
    let (marks, write) = write(rt, game, &board, company, found.claim.revenue)?;
    let (accepted, check) = check(rt, game, &board, company, &found.claim, &marks)?;
    Ok(Cost {
        marks: number_of(&marks),
        write,
        check,
        accepted,
    })
}

/// Returns the marks for a revenue of the company's trains on a board, and how long it took to
/// write them. The error is `Memory`, or `Io` if the clock fails.
fn write(
    rt: &HostRuntime,
    game: &BoardLines,
    board: &Board,
    company: Company,
    revenue: u32,
) -> Result<(Bits, Duration), LinesFault> {
    let begun = Instant::now(rt)?;
    let marks = write_marks(rt.alloc(), board, company, game.trains(), revenue)?;
    Ok((marks, begun.elapsed(rt)?))
}

/// Returns whether a claim is accepted by these marks, and how long the check took. The error is
/// `Io` if the clock fails.
fn check(
    rt: &HostRuntime,
    game: &BoardLines,
    board: &Board,
    company: Company,
    claim: &Claim,
    marks: &Bits,
) -> Result<(bool, Duration), LinesFault> {
    let begun = Instant::now(rt)?;
    let accepted = accepts_bits(board, company, game.trains(), claim, marks);
    Ok((accepted, begun.elapsed(rt)?))
}

/// Returns how many bits there are.
fn number_of(bits: &Bits) -> u64 {
    let mut reader = bits.reader();
    let mut count: u64 = 0;
    while let Some(_) = reader.read() {
        count = count.saturating_add(1);
    }
    count
}
