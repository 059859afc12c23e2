//! The lines of a sheet that were not reached in a round, and why not.

use crate::bulletin_text::BROUGHT;
use desk_base::Piece::{Bytes, Column, Count, Cut, Right, Words};
use desk_base::{fill, push, push_wrapped, who};
use desk_why::{FAULTY_COLUMNS, LinePlace, SheetLine};
use history::Event;
use report::name;
use sheets::Sheets;
use std::alloc::{AllocError, Global};
use tables::{Company, Money, Round, Seat, same_round};

/// A company that has had its turn in a round.
#[derive(Clone, Copy)]
pub(crate) struct Presided {
    pub(crate) company: Company,
    /// Its president as the turn began.
    pub(crate) president: Option<Seat>,
}

/// A seat's sheet for a round in which some lines were not reached.
#[derive(Clone, Copy)]
pub(crate) struct Left<'a> {
    pub(crate) alloc: Global,
    pub(crate) sheets: &'a Sheets<'a>,
    /// The lines of all sheets for the round.
    pub(crate) lines: &'a [SheetLine<'a>],
    /// The numbers of the seat's lines that were ruled in it.
    pub(crate) ruled: &'a [u32],
    /// The companies that had a turn in it.
    pub(crate) presided: &'a [Presided],
    pub(crate) seat: Seat,
}

/// Returns the numbers of the lines of a seat's sheet that were ruled in a round, in the order of
/// their rulings. Fails only if allocation fails.
pub(crate) fn ruled_in(
    alloc: Global,
    events: &[Event],
    round: Round,
    seat: Seat,
) -> Result<Vec<u32>, AllocError> {
    let mut ruled = Vec::new(alloc);
    let mut within = false;
    for event in events {
        match event {
            Event::Round(begun) => within = same_round(*begun, round),
            Event::Ruled {
                seat: its,
                line,
                ..
            } if within && *its == seat => ruled.push(*line)?,
            _ => {}
        }
    }
    ruled.sort()?;
    Ok(ruled)
}

impl Left<'_> {
    /// Adds the lines that were not reached, this many, and below those of each turn or company's
    /// orders the reason. Lines that are not kept are only counted.
    pub(crate) fn push_lines(&self, out: &mut Vec<u8>, count: u32) -> Result<(), AllocError> {
        let mut turn: usize = 0;
        let mut told: u32 = 0;
        let mut open = None;
        for line in self.lines.iter().filter(|line| line.is_of(self.seat)) {
            if line.is_head {
                self.push_cause(out, open, turn)?;
                open = None;
                turn = turn.saturating_add(1);
            } else if self.ruled.binary_search(&line.number()).is_err() {
                push_line(out, line)?;
                open = Some(line.place);
                told = told.saturating_add(1);
            }
        }
        self.push_cause(out, open, turn)?;
        if told < count {
            fill(
                out,
                "%and % more\n",
                &[Column(BROUGHT), Count((count - told) as usize)],
            )?;
        }
        Ok(())
    }

    /// Adds why the lines at a place were not reached, if there are some. In an opening or a stock
    /// round `turn` is the turn of the sheet that they are in.
    fn push_cause(
        &self,
        out: &mut Vec<u8>,
        place: Option<LinePlace>,
        turn: usize,
    ) -> Result<(), AllocError> {
        let Some(place) = place else {
            return Ok(());
        };
        let mut why = Vec::new(self.alloc);
        match place {
            LinePlace::Orders(company) => self.push_why_of_orders(&mut why, company)?,
            LinePlace::Turn | LinePlace::Standing => {
                let player = Bytes(name(self.sheets, self.seat));
                fill(
                    &mut why,
                    "the round was over before %'s turn %",
                    &[player, Count(turn)],
                )?;
            }
        }
        fill(out, "%NOT TAKEN UP: ", &[Column(BROUGHT)])?;
        push_wrapped(out, BROUGHT + 4, why.as_slice())
    }

    /// Adds why the orders for a company were not reached.
    fn push_why_of_orders(&self, why: &mut Vec<u8>, company: Company) -> Result<(), AllocError> {
        let code = Words(company.code());
        match self
            .presided
            .iter()
            .find(|presided| presided.company == company)
        {
            None => fill(why, "% had no turn in this round", &[code]),
            Some(presided) if presided.president == Some(self.seat) => {
                fill(why, "only the first orders for % in a sheet count", &[code])
            }
            Some(presided) => {
                let president = who(self.sheets, presided.president);
                fill(
                    why,
                    "% presided over % as its turn began",
                    &[president, code],
                )
            }
        }
    }
}

/// Adds a line of a sheet with its number.
fn push_line(out: &mut Vec<u8>, line: &SheetLine) -> Result<(), AllocError> {
    push(out, &[Right(4, Money::from(line.number())), Words("  ")])?;
    fill(out, "%\n", &[Cut(line.text.trim_ascii(), FAULTY_COLUMNS)])
}
