//! What became of a round that was played, which decides what is reported of the trials of its
//! sheets alone; and what these found, which decides what is reported of the trial of all sheets.
ghost use Rattle.std.specs.Prelude.{◌≡◌, ◌==◌, ◌&&◌, []};

use crate::check_changed::are_alike;
use crate::forced::{Forced, forced_of};
use crate::refusals::{RefusedLine, refused_of};
use history::Verdict;
use rounds::Game;
use sheets::SheetKey;
use std::alloc::{AllocError, Global};
use tables::{Round, Seat};

/// A line of the sheet of a seat for a round that was refused or has a fault.
#[derive(Clone, Copy)]
struct SeatLine {
    seat: Seat,
    number: u32,
    /// Which rule it broke, or which fault it has.
    verdict: Verdict,
}

/// What became of a round that was played, or of sheets that were tried alone.
#[derive(Drop)]
pub struct Outcome {
    /// The lines that have a fault, or were refused for another reason than their condition.
    refused: Vec<SeatLine>,
    /// What happened when companies had to buy trains.
    forced: Vec<Forced>,
}

impl Outcome {
    /// Returns that nothing was refused and nothing had to be bought.
    pub(crate) fn none(alloc: Global) -> Outcome
        ensures refused { result.refused.items ≡ [] }
        ensures forced { result.forced.items ≡ [] }
    {
        Outcome {
            refused: Vec::new(alloc),
            forced: Vec::new(alloc),
        }
    }

    /// Returns what became of a round of a game. Fails only if allocation fails.
    pub fn of(alloc: Global, game: &Game, round: Round) -> Result<Outcome, AllocError> {
        let events = game.history().events();
        let mut outcome = Outcome::none(alloc);
        for number in 0..game.sheets().seats() {
            let seat = Seat::at(number);
            let sent = SheetKey { seat, round };
            let rows = refused_of(alloc, events, sent)?;
            let forced = forced_of(alloc, game, sent)?;
            outcome.add(seat, rows.as_slice(), forced.as_slice())?;
        }
        Ok(outcome)
    }

    /// Adds the lines of the sheet of a seat that were refused, and what happened when its
    /// companies had to buy trains. Fails only if allocation fails.
    pub(crate) fn add(
        &mut self,
        seat: Seat,
        rows: &[RefusedLine],
        forced: &[Forced],
    ) -> Result<(), AllocError> {
        for row in rows {
            self.refused.push(SeatLine {
                seat,
                number: row.number,
                verdict: row.verdict,
            })?;
        }
        self.forced.extend_from_slice(forced)
    }

    /// Returns what happened both in a trial and in the round when companies had to buy trains.
    /// Fails only if allocation fails.
    pub(crate) fn also_forced(
        &self,
        alloc: Global,
        forced: &[Forced],
    ) -> Result<Vec<Forced>, AllocError> {
        let mut both = Vec::new(alloc);
        for one in forced {
            if self.forced.iter().any(|fact| *fact == *one) {
                both.push(*one)?;
            }
        }
        Ok(both)
    }

    /// Returns what happens when companies must buy trains, of each company for which not all of it
    /// happened here. Fails only if allocation fails.
    pub(crate) fn forced_beyond(
        &self,
        alloc: Global,
        forced: &[Forced],
    ) -> Result<Vec<Forced>, AllocError> {
        let mut beyond = Vec::new(alloc);
        for one in forced {
            let differs = forced.iter().any(|other| {
                other.company == one.company && !self.forced.iter().any(|fact| *fact == *other)
            });
            if differs {
                beyond.push(*one)?;
            }
        }
        Ok(beyond)
    }

    /// Returns the lines of the sheet of a seat that both a trial and the round refused for the
    /// same rule. Fails only if allocation fails.
    pub(crate) fn also_refused(
        &self,
        alloc: Global,
        seat: Seat,
        rows: &[RefusedLine],
    ) -> Result<Vec<RefusedLine>, AllocError> {
        let mut refused = Vec::new(alloc);
        for row in rows {
            let is_refused = self.refused.iter().any(|line| {
                is_line(line, seat, row.number) && are_alike(line.verdict, row.verdict)
            });
            if is_refused {
                refused.push(*row)?;
            }
        }
        Ok(refused)
    }

    /// Returns those of some lines of the sheet of a seat that have no fault and were not refused
    /// here. (A fault is told by the line itself, whatever is played.) Fails only if allocation
    /// fails.
    pub(crate) fn rows_beyond(
        &self,
        alloc: Global,
        seat: Seat,
        rows: &[RefusedLine],
    ) -> Result<Vec<RefusedLine>, AllocError> {
        let mut beyond = Vec::new(alloc);
        for row in rows {
            let has_fault = matches!(row.verdict, Verdict::Faulty(_));
            if !has_fault
                && !self
                    .refused
                    .iter()
                    .any(|line| is_line(line, seat, row.number))
            {
                beyond.push(*row)?;
            }
        }
        Ok(beyond)
    }
}

/// Returns whether a line is the one with this number in the sheet of a seat.
fn is_line(line: &SeatLine, seat: Seat, number: u32) -> bool
    ensures { result ≡ (line.now.seat.0 == seat.0 && line.now.number == number) }
{
    line.seat == seat && line.number == number
}
