//! Adds the findings of the trial of a sheet alone for a round that comes: each line that is
//! refused, with all rules that it breaks; other lines that are refused whatever others do; and
//! what fails below a line with a fault.

use crate::below::push_below;
use crate::check_found::{CodedLine, Fallback, Found};
use crate::check_lines::FileLine;
use crate::check_mail::is_mail;
use crate::numbered::line_numbered;
use crate::reasons::{Asked, IF_NOBODY, push_lasting, push_reasons, site_of};
use crate::refusals::RefusedLine;
use crate::sheet_orders::{OrderLine, SheetOrders, start_of};
use crate::start::Start;
use crate::told::{TriedSheet, add_told, is_unneeded};
use desk_base::Piece::Words;
use desk_base::{push, view_behind};
use desk_rules::Site;
use desk_why::{LinePlace, Ruled, SheetLine, lines_of, push_rule};
use history::{Event, GameView, PackedRuling, Ruling, Verdict, Walk};
use order_grammar::Order;
use std::alloc::{AllocError, Global};
use tables::Round;

/// What is known of a sheet that is tried alone.
#[derive(Clone, Copy)]
struct Known<'x, 'a> {
    /// The lines of the sheets of the trial.
    lines: &'x [SheetLine<'x>],
    /// The orders of the sheet.
    orders: &'x SheetOrders,
    /// The game as the round begins, with its board.
    start: &'x Start<'x>,
    /// The codes that its lines have been told.
    coded: &'x [CodedLine],
    /// The lines that the trial did not obey.
    rows: &'x [RefusedLine],
    /// The sheet, and the game of its trial.
    played: TriedSheet<'x, 'x, 'x, 'a>,
}

/// Adds what the trial of a sheet alone finds in its lines, given those that it did not obey. Lines
/// that are not needed, because an earlier line for the same purpose is obeyed, are listed apart.
pub(crate) fn tell_alone_refused<'a>(
    alloc: Global,
    played: TriedSheet<'_, '_, '_, 'a>,
    rows: &[RefusedLine],
    found: &mut Found<'a>,
) -> Result<(), AllocError> {
    let (game, sent) = (played.game, played.head.sent);
    let (events, seats) = (game.history().events(), game.history().seats());
    let lines = lines_of(alloc, game.sheets(), sent.round)?;
    let orders = SheetOrders::of(alloc, lines.as_slice(), sent.seat)?;
    let coded = found.coded_within(alloc, played.numbered)?;
    let mut walk = Walk::along(events);
    let start = view_behind(&mut walk, start_of(events, sent.round), seats);
    let start = Start::of(alloc, &start)?;
    let known = Known {
        lines: lines.as_slice(),
        orders: &orders,
        start: &start,
        coded: coded.as_slice(),
        rows,
        played,
    };
    let mut along = Walk::along(events);
    for row in rows {
        let view = view_behind(&mut along, row.place, seats);
        tell_row(alloc, known, &view, row, found)?;
    }
    for line in &orders.lines {
        tell_lasting(alloc, known, *line, found)?;
        tell_below(alloc, known, *line, found)?;
    }
    Ok(())
}

/// Adds a line that the trial did not obey, or lists it as not needed. The game is given as it was
/// before the line.
fn tell_row<'a>(
    alloc: Global,
    known: Known<'_, 'a>,
    view: &GameView,
    row: &RefusedLine,
    found: &mut Found<'a>,
) -> Result<(), AllocError> {
    let (played, sent) = (known.played, known.played.head.sent);
    let events = played.game.history().events();
    let Some(line) = line_numbered(played.numbered, row.number) else {
        return Ok(());
    };
    let Some(Event::Ruled { ruling, .. }) = events.get(row.place) else {
        return Ok(());
    };
    if line.number < found.from {
        return Ok(());
    }
    let is_known = is_told(known.coded, &line, row.verdict);
    if !is_known && is_unneeded(known.lines, view, sent.seat, row, known.rows) {
        found.fallbacks.push(Fallback {
            sent,
            line: line.number,
        })?;
        return Ok(());
    }
    let mut text = Vec::new(alloc);
    push_row(alloc, &mut text, known, view, row, &line, ruling)?;
    add_text(known, &line, text.as_slice(), found)
}

/// Adds a finding of a line with a text, if that is not empty.
fn add_text<'a>(
    known: Known<'_, 'a>,
    line: &FileLine<'a>,
    text: &[u8],
    found: &mut Found<'a>,
) -> Result<(), AllocError> {
    if text.is_empty() {
        return Ok(());
    }
    let from = found.told.len();
    found.told.extend_from_slice(text)?;
    add_told(known.played, line, from, false, found)
}

/// Returns a line of the sheet as it was ruled, given the game before it.
fn ruled_at<'r>(known: Known<'r, '_>, view: &'r GameView<'r>) -> Ruled<'r> {
    let sent = known.played.head.sent;
    Ruled {
        sheets: known.played.game.sheets(),
        lines: known.lines,
        view,
        round: sent.round,
        seat: sent.seat,
        place: None,
    }
}

/// Adds why a line was not obeyed: the rules that its order breaks, or its fault, unless the line
/// has been told that.
fn push_row(
    alloc: Global,
    out: &mut Vec<u8>,
    known: Known,
    view: &GameView,
    row: &RefusedLine,
    line: &FileLine,
    ruling: &PackedRuling,
) -> Result<(), AllocError> {
    let ruled = ruled_at(known, view);
    if let Ruling::Refused {
        rule,
        condition,
        order,
    } = ruling.ruling()
        && let Some(its) = known.orders.at(row.number)
    {
        let asked = Asked {
            start: known.start,
            orders: known.orders,
            line: its,
            order: &order,
            coded: known.coded,
            number: line.number,
        };
        return push_reasons(alloc, out, ruled, asked, condition, rule);
    }
    if is_told(known.coded, line, row.verdict) {
        return Ok(());
    }
    push(out, &[Words(IF_NOBODY)])?;
    push_rule(alloc, out, ruled, row.number, ruling)
}

/// Returns whether a line has a finding already with the code for which it was refused, or one that
/// says it looks like mail, so that a fault is expected.
pub(crate) fn is_told(coded: &[CodedLine], line: &FileLine, verdict: Verdict) -> bool {
    let code = match verdict {
        Verdict::Obeyed => return true,
        Verdict::Faulty(_) if is_mail(line.text) => return true,
        Verdict::Faulty(fault) => fault.code(),
        Verdict::Refused(rule) => rule.code(),
    };
    coded
        .iter()
        .any(|told| told.number == line.number && told.code == code)
}

/// Adds the rules that the order of a line breaks whatever others do, if the trial refused it for
/// its condition, did not reach it, or does not need it.
fn tell_lasting<'a>(
    alloc: Global,
    known: Known<'_, 'a>,
    its: OrderLine,
    found: &mut Found<'a>,
) -> Result<(), AllocError> {
    let is_refused = known.rows.iter().any(|row| row.number == its.number);
    let (Some(order), Some(line)) = (its.order, line_numbered(known.played.numbered, its.number))
    else {
        return Ok(());
    };
    let is_listed = found
        .fallbacks
        .iter()
        .any(|listed| listed.line == line.number);
    if line.number < found.from || is_refused && !is_listed || !is_asked(known, its.place) {
        return Ok(());
    }
    let order = Order::Play(order);
    let asked = Asked {
        start: known.start,
        orders: known.orders,
        line: its,
        order: &order,
        coded: known.coded,
        number: line.number,
    };
    let mut text = Vec::new(alloc);
    push_lasting(alloc, &mut text, ruled_at(known, known.start.view), asked)?;
    add_text(known, &line, text.as_slice(), found)
}

/// Returns whether the lines at a place may be reached: they are among no orders for a company, or
/// for one that operates and over which the player presides as the round begins.
fn is_asked(known: Known, place: LinePlace) -> bool {
    let sent = known.played.head.sent;
    match site_of(sent.round, place) {
        Some(Site::Orders(company)) => {
            known.start.view.floated(company)
                && known.start.view.president(company) == Some(sent.seat)
        }
        Some(_) => true,
        None => false,
    }
}

/// Adds what fails below a line of a turn that was meant to start a company or to begin a turn, if
/// it has a fault.
fn tell_below<'a>(
    alloc: Global,
    known: Known<'_, 'a>,
    its: OrderLine,
    found: &mut Found<'a>,
) -> Result<(), AllocError> {
    let (version, numbered) = (known.played.game.sheets().version(), known.played.numbered);
    let Some(line) = line_numbered(numbered, its.number) else {
        return Ok(());
    };
    let is_of_turns = !matches!(known.played.head.sent.round, Round::Operating { .. });
    if line.number < found.from || !is_of_turns {
        return Ok(());
    }
    let mut text = Vec::new(alloc);
    push_below(
        alloc,
        &mut text,
        version,
        known.orders,
        known.start.view,
        its,
        numbered,
    )?;
    add_text(known, &line, text.as_slice(), found)
}
