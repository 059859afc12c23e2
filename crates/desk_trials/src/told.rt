//! Adds the findings of a trial: the lines that it did not obey, each with the rule, its figures
//! and its cause, and what happens when companies must buy trains.

use crate::check_found::{Found, Matter};
use crate::check_lines::FileLine;
use crate::check_sheets::Head;
use crate::consent::push_consent;
use crate::forced::{Forced, push_forced};
use crate::numbered::{head_of, line_numbered};
use crate::refusals::RefusedLine;
use crate::taken::push_taker;
use crate::told_alone::is_told;
use desk_base::Piece::Words;
use desk_base::{push, view_behind};
use desk_why::{Ruled, SheetLine, find_line, is_fallback, lines_of, push_rule};
use history::{Event, GameView, PackedRuling, Ruling, Verdict, Walk};
use rounds::Game;
use sheets::SheetKey;
use std::alloc::{AllocError, Global};
use tables::Seat;

/// Which trial it is.
#[derive(Clone, Copy)]
pub(crate) enum Trial {
    /// A player's sheet alone.
    Alone,
    /// A player's sheet alone, for a round that was played.
    Played,
    /// All sheets that the file has.
    All,
}

impl Trial {
    /// Returns the words that begin its findings.
    fn words(self) -> &'static str {
        match self {
            Trial::Alone => "as things stand: ",
            Trial::Played => "tried alone: ",
            Trial::All => "with all sheets: ",
        }
    }
}

/// A sheet, and the game of a trial that played it.
#[derive(Clone, Copy)]
pub(crate) struct TriedSheet<'g, 'h, 'n, 'a> {
    pub(crate) trial: Trial,
    pub(crate) game: &'g Game<'g>,
    /// The SHEET line.
    pub(crate) head: &'h Head<'a>,
    /// The lines of the sheet.
    pub(crate) numbered: &'n [FileLine<'a>],
}

/// Adds the lines of a sheet that a trial did not obey, unless the line has a finding with the same
/// code already. Lines that are not needed because an earlier line for the same purpose is obeyed
/// are left out.
pub(crate) fn tell_refused<'a>(
    alloc: Global,
    played: TriedSheet<'_, '_, '_, 'a>,
    rows: &[RefusedLine],
    found: &mut Found<'a>,
) -> Result<(), AllocError> {
    let game = played.game;
    let lines = lines_of(alloc, game.sheets(), played.head.sent.round)?;
    let coded = found.coded_within(alloc, played.numbered)?;
    let mut walk = Walk::along(game.history().events());
    for row in rows {
        let Some(line) = line_numbered(played.numbered, row.number) else {
            continue;
        };
        if line.number < found.from || is_told(coded.as_slice(), &line, row.verdict) {
            continue;
        }
        let view = view_behind(&mut walk, row.place, game.history().seats());
        if !is_unneeded(lines.as_slice(), &view, played.head.sent.seat, row, rows) {
            tell_row(alloc, played, lines.as_slice(), &view, row, &line, found)?;
        }
    }
    Ok(())
}

/// Adds a finding of a line of a sheet: the part of the trials' texts from a place on.
pub(crate) fn add_told<'a>(
    played: TriedSheet<'_, '_, '_, 'a>,
    line: &FileLine<'a>,
    from: usize,
    costs: bool,
    found: &mut Found<'a>,
) -> Result<(), AllocError> {
    let matter = Matter::Tried {
        sent: played.head.sent,
        from,
        to: found.told.len(),
        costs,
    };
    if costs {
        found.add(line, matter)
    } else {
        found.add_line(line, matter)
    }
}

/// Returns whether a line of the sheet of a seat was refused only because an earlier line for the
/// same purpose was obeyed, given all that were not obeyed. Below a line with a fault in the same
/// turn or the orders for the same company that is not known: that line may have been meant to
/// begin others. The game is given as it was before the line.
pub(crate) fn is_unneeded(
    lines: &[SheetLine],
    view: &GameView,
    seat: Seat,
    row: &RefusedLine,
    rows: &[RefusedLine],
) -> bool {
    let (Verdict::Refused(rule), Some(line)) = (row.verdict, find_line(lines, seat, row.number))
    else {
        return false;
    };
    is_fallback(view, line.place, rule)
        && !rows
            .iter()
            .any(|other| is_fault_above(lines, seat, other, row.number))
}

/// Returns whether a line of the sheet of a seat has a fault, and no turn or company's orders begin
/// between it and the line with this number.
fn is_fault_above(lines: &[SheetLine], seat: Seat, row: &RefusedLine, number: u32) -> bool {
    let is_faulty = matches!(row.verdict, Verdict::Faulty(_));
    is_faulty
        && row.number < number
        && !lines.iter().any(|line| {
            line.is_head
                && line.is_of(seat)
                && line.number() > row.number
                && line.number() <= number
        })
}

/// Adds a line that a trial did not obey. The game is given as it was before the line.
fn tell_row<'a>(
    alloc: Global,
    played: TriedSheet<'_, '_, '_, 'a>,
    lines: &[SheetLine],
    view: &GameView,
    row: &RefusedLine,
    line: &FileLine<'a>,
    found: &mut Found<'a>,
) -> Result<(), AllocError> {
    let sent = played.head.sent;
    let events = played.game.history().events();
    let Some(Event::Ruled { ruling, .. }) = events.get(row.place) else {
        return Ok(());
    };
    let from = found.told.len();
    let ruled = Ruled {
        sheets: played.game.sheets(),
        lines,
        view,
        round: sent.round,
        seat: sent.seat,
        place: None,
    };
    push(&mut found.told, &[Words(played.trial.words())])?;
    push_rule(alloc, &mut found.told, ruled, row.number, ruling)?;
    push_others(&mut found.told, played.trial, ruled, row.number, ruling)?;
    add_told(played, line, from, false, found)
}

/// Adds what others have to do with the refusal of a line: whose offer is lacking, or who took the
/// last of what it wanted.
fn push_others(
    out: &mut Vec<u8>,
    trial: Trial,
    ruled: Ruled,
    number: u32,
    ruling: &PackedRuling,
) -> Result<(), AllocError> {
    let ruling = ruling.ruling();
    let Ruling::Refused { rule, order, .. } = &ruling else {
        return Ok(());
    };
    let (sheets, view) = (ruled.sheets, ruled.view);
    if let Trial::All = trial {
        return push_taker(out, sheets, view.events(), ruled.seat, order, *rule);
    }
    let place = find_line(ruled.lines, ruled.seat, number).map(|line| line.place);
    match place.and_then(|place| place.company()) {
        Some(company) => push_consent(out, sheets, view, ruled.seat, company, order, *rule),
        None => Ok(()),
    }
}

/// Adds what happens when a company must buy a train, to the line with which its orders begin, or
/// to the SHEET line if it has none. It is said before all other findings, and is always listed.
pub(crate) fn tell_forced<'a>(
    played: TriedSheet<'_, '_, '_, 'a>,
    forced: Forced,
    found: &mut Found<'a>,
) -> Result<(), AllocError> {
    let sheets = played.game.sheets();
    let head = head_of(sheets.version(), played.numbered, forced.company);
    let line = head.unwrap_or(played.head.line);
    let from = found.told.len();
    push(&mut found.told, &[Words(played.trial.words())])?;
    push_forced(&mut found.told, sheets, forced)?;
    add_told(played, &line, from, true, found)
}
