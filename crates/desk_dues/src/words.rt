//! What the next train brings, as sentences for players.
//!
//! The figures are those of the other modules; the games of `games/desk/` test the words.

use crate::coming_kind::{NextKind, discarded_with, left_before, next_kind};
use crate::danger::{Danger, dangers};
use crate::words::Word::{Name, Number, Words};
use history::History;
use map_tables::Colour;
use order_grammar::print_number;
use sheets::Sheets;
use std::alloc::{AllocError, Global};
use tables::{Company, Kind, Money};

/// The heading above what the next train brings, with an empty line before it.
const HEADING: &str = "\nWHAT THE NEXT TRAIN BRINGS\n";

/// Numbers as words; a company or the bank has fewer trains.
static NUMBERS: [&str; 7] = ["no", "one", "two", "three", "four", "five", "six"];

/// A part of a sentence.
#[derive(Clone, Copy)]
enum Word<'a> {
    /// Words as they are.
    Words(&'a str),
    /// A player's name.
    Name(&'a [u8]),
    /// A number in digits.
    Number(Money),
}

/// Returns what `next_train_lines` returns below a heading, or nothing if that is empty. Fails only
/// if allocation fails.
pub fn next_train_text(
    alloc: Global,
    sheets: &Sheets,
    history: &History,
) -> Result<Vec<u8>, AllocError> {
    let lines = next_train_lines(alloc, sheets, history)?;
    let mut out = Vec::new(alloc);
    if !lines.is_empty() {
        out.extend_from_slice(HEADING.as_bytes())?;
        out.extend_from_slice(lines.as_slice())?;
    }
    Ok(out)
}

/// Returns what the next train brings, a paragraph a line: what the first train of the next kind
/// changes, who discards trains, and the companies that would be left without one. It is empty
/// before the bank has sold a train, and once no kind comes. Fails only if allocation fails.
pub fn next_train_lines(
    alloc: Global,
    sheets: &Sheets,
    history: &History,
) -> Result<Vec<u8>, AllocError> {
    let mut out = Vec::new(alloc);
    if history.now().trains_sold(Kind::Two) == 0 {
        return Ok(out);
    }
    if let Some(next) = next_kind(history) {
        push_next_kind(&mut out, history, &next)?;
        push_discards(&mut out, history, next.kind)?;
    }
    push_dangers(&mut out, sheets, history)?;
    Ok(out)
}

/// Adds the companies that would be left without a train, each on a line, and before them when the
/// kind comes that takes their trains, unless it is the next one.
fn push_dangers(out: &mut Vec<u8>, sheets: &Sheets, history: &History) -> Result<(), AllocError> {
    let dangers = dangers(history);
    let phase = history.phase().index();
    for (place, danger) in dangers.as_slice().iter().enumerate() {
        if place == 0 && danger.falls_with.index() > phase.saturating_add(1) {
            push_when(out, history, danger.falls_with)?;
        }
        push_danger(out, sheets, danger)?;
        put(out, &[Words("\n")])?;
    }
    Ok(())
}

/// Adds when the first train of a kind comes that is not on sale yet, on a line.
fn push_when(out: &mut Vec<u8>, history: &History, kind: Kind) -> Result<(), AllocError> {
    let head = [Words("The first "), Words(kind.code()), Words(" comes")];
    put(out, &head)?;
    push_before(out, history, kind, " after ")?;
    put(out, &[Words(".\n")])
}

/// Adds the trains that the bank sells before the first of a kind, with a word in front: ` after
/// two 5s and one 6`; nothing if it sells the kind now.
fn push_before(
    out: &mut Vec<u8>,
    history: &History,
    new: Kind,
    head: &str,
) -> Result<(), AllocError> {
    let last = last_before(history, new);
    let mut joint = head;
    for kind in &Kind::ALL {
        let left = left_before(history, new, *kind);
        if left > 0 {
            put(out, &[Words(joint)])?;
            push_trains(out, left, *kind)?;
            joint = if is_next_to(*kind, last) {
                " and "
            } else {
                ", "
            };
        }
    }
    Ok(())
}

/// Returns the last kind of which the bank sells some before the first of another; `None` if it
/// sells that one now.
fn last_before(history: &History, new: Kind) -> Option<Kind> {
    let mut last = None;
    for kind in &Kind::ALL {
        if left_before(history, new, *kind) > 0 {
            last = Some(*kind);
        }
    }
    last
}

/// Returns whether a kind comes just before the last one.
fn is_next_to(kind: Kind, last: Option<Kind>) -> bool {
    match last {
        Some(last) => kind.index().saturating_add(1) == last.index(),
        None => false,
    }
}

/// Adds a number of trains of a kind: `two 5s`.
fn push_trains(out: &mut Vec<u8>, count: usize, kind: Kind) -> Result<(), AllocError> {
    let number = NUMBERS.get(count).copied().unwrap_or("many");
    let plural = if count == 1 { "" } else { "s" };
    put(
        out,
        &[Words(number), Words(" "), Words(kind.code()), Words(plural)],
    )
}

/// Adds what the first train of the next kind changes, on a line. Fails only if allocation fails.
pub fn push_next_kind(
    out: &mut Vec<u8>,
    history: &History,
    next: &NextKind,
) -> Result<(), AllocError> {
    push_when_next(out, history, next.kind)?;
    let mut changes = Changes {
        out,
        is_first: true,
    };
    if let Some(kind) = next.rusts {
        changes.push(&[Words("all "), Words(kind.code()), Words("s rust")])?;
    }
    if next.limit != next.limit_before {
        let (limit, before) = (next.limit as Money, next.limit_before as Money);
        changes.push(&[
            Words("a company may have "),
            Number(limit),
            Words(" trains, not "),
            Number(before),
        ])?;
    }
    changes.push_of_privates_and_tiles(next)?;
    if next.rounds != next.rounds_before {
        let (rounds, before) = (Money::from(next.rounds), Money::from(next.rounds_before));
        changes.push(&[
            Words("a set has "),
            Number(rounds),
            Words(" operating rounds, not "),
            Number(before),
        ])?;
    }
    put(out, &[Words(".\n")])
}

/// Adds when the first train of the next kind comes, before what it changes.
fn push_when_next(out: &mut Vec<u8>, history: &History, kind: Kind) -> Result<(), AllocError> {
    put(out, &[Words("The first "), Words(kind.code())])?;
    if last_before(history, kind).is_none() {
        return put(out, &[Words(", which is on sale now")]);
    }
    push_before(out, history, kind, ", which comes after ")
}

/// The changes of a phase, as they are added to a sentence.
#[derive(Drop)]
struct Changes<'a> {
    out: &'a mut Vec<u8>,
    is_first: bool,
}

impl Changes<'_> {
    /// Adds a change.
    fn push(&mut self, words: &[Word]) -> Result<(), AllocError> {
        let joint = if self.is_first { ": " } else { "; " };
        self.is_first = false;
        put(self.out, &[Words(joint)])?;
        put(self.out, words)
    }

    /// Adds what changes for privates and tiles.
    fn push_of_privates_and_tiles(&mut self, next: &NextKind) -> Result<(), AllocError> {
        if next.closes {
            self.push(&[Words("all privates close")])?;
        }
        if next.sells_privates {
            self.push(&[Words("companies may buy privates")])?;
        }
        match next.opens {
            Some(Colour::Green) => self.push(&[Words("green tiles may be laid")]),
            Some(Colour::Brown) => self.push(&[Words("brown tiles may be laid")]),
            Some(Colour::White | Colour::Yellow) | None => Ok(()),
        }
    }
}

/// Adds the companies that have to discard trains with the first train of a kind, each on a line.
/// Fails only if allocation fails.
pub fn push_discards(out: &mut Vec<u8>, history: &History, new: Kind) -> Result<(), AllocError> {
    for company in &Company::ALL {
        let count = discarded_with(history, *company, new);
        if count > 0 {
            let trains = if count == 1 { " train" } else { " trains" };
            put(
                out,
                &[
                    Words(company.code()),
                    Words(" must then discard "),
                    Words(number_of(count)),
                    Words(trains),
                    Words(".\n"),
                ],
            )?;
        }
    }
    Ok(())
}

/// Returns a number of trains as a word.
fn number_of(count: u128) -> &'static str {
    let place = if count < 7 { count as usize } else { 7 };
    NUMBERS.get(place).copied().unwrap_or("several")
}

/// Adds what a company has to fear, as two or three sentences. Fails only if allocation fails.
pub fn push_danger(out: &mut Vec<u8>, sheets: &Sheets, danger: &Danger) -> Result<(), AllocError> {
    let president = sheets.name(danger.president).unwrap_or(&[]);
    push_trains_of(out, danger)?;
    put(
        out,
        &[
            Words(" with the first "),
            Words(danger.falls_with.code()),
            Words(". It would have to buy a "),
            Words(danger.buys.code()),
            Words(if danger.pooled {
                " from the pool for "
            } else {
                " for "
            }),
            Number(Money::from(danger.price)),
            Words(": it has "),
            Number(danger.cash),
        ],
    )?;
    if danger.lacking > 0 {
        put(
            out,
            &[
                Words(", "),
                Name(president),
                Words(" has "),
                Number(danger.presidents_cash),
            ],
        )?;
        put(out, &[Words(" and can raise "), Number(danger.raised)])?;
    }
    put(out, &[Words(".")])?;
    if danger.bankrupt {
        put(
            out,
            &[Words(" "), Name(president), Words(" would be bankrupt.")],
        )?;
    }
    Ok(())
}

/// Adds the trains of a company, which rust.
fn push_trains_of(out: &mut Vec<u8>, danger: &Danger) -> Result<(), AllocError> {
    let (company, kind) = (Words(danger.company.code()), Words(danger.kind.code()));
    if danger.trains == 1 {
        return put(
            out,
            &[company, Words("'s only train, a "), kind, Words(", rusts")],
        );
    }
    let count = number_of(u128::from(danger.trains.unsigned_abs()));
    put(
        out,
        &[
            company,
            Words("'s trains, "),
            Words(count),
            Words(" "),
            kind,
            Words("s, rust"),
        ],
    )
}

/// Adds the parts of a sentence.
fn put(out: &mut Vec<u8>, words: &[Word]) -> Result<(), AllocError> {
    for word in words {
        match *word {
            Words(words) => out.extend_from_slice(words.as_bytes())?,
            Name(name) => out.extend_from_slice(name)?,
            Number(number) => print_number(out, number)?,
        }
    }
    Ok(())
}
