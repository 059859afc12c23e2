//! What fails below a line with a fault: purchases of a company that its PAR does not start, and
//! the lines of a turn that its TURN does not begin.

use crate::check_lines::FileLine;
use crate::numbered::line_numbered;
use crate::sheet_orders::{OrderLine, SheetOrders};
use desk_base::Piece::{Count, Words};
use desk_base::{fill, push};
use hints::{Faulty, line_meant, words_of};
use history::GameView;
use order_grammar::{Order, PlayOrder, Version, begins_with_word, read_line_in};
use std::alloc::{AllocError, Global};
use tables::{Company, par_square};

/// What a line was meant to do for the lines below it.
#[derive(Clone, Copy)]
enum Meant {
    /// It was to start a company.
    Starts(Company),
    /// It was to begin a turn.
    Begins,
}

/// The most bytes of a line that may have been meant as a PAR or a TURN, a remark counted.
const MEANT_MOST: usize = 60;

/// Adds which lines fail below a line of a sheet, if the line was to start a company and has a
/// fault or names no par value, or if it was to begin a turn and has a fault. The game is given as
/// the round begins.
pub(crate) fn push_below(
    alloc: Global,
    out: &mut Vec<u8>,
    version: Version,
    orders: &SheetOrders,
    start: &GameView,
    its: OrderLine,
    numbered: &[FileLine],
) -> Result<(), AllocError> {
    let Some(line) = line_numbered(numbered, its.number) else {
        return Ok(());
    };
    let Some(meant) = meant_by(alloc, version, its, line.text)? else {
        return Ok(());
    };
    if is_done(meant, start) {
        return Ok(());
    }
    let mut numbers = Vec::new(alloc);
    for below in orders.below(its) {
        if ends(meant, below) {
            return push_failing(out, meant, numbers.as_slice());
        }
        if fails_with(meant, below)
            && let Some(failing) = line_numbered(numbered, below.number)
        {
            numbers.push(failing.number)?;
        }
    }
    push_failing(out, meant, numbers.as_slice())
}

/// Adds the numbers of the lines that fail below a line, if there are any, and why.
fn push_failing(out: &mut Vec<u8>, meant: Meant, numbers: &[usize]) -> Result<(), AllocError> {
    let (mut before, end) = match (meant, numbers) {
        (_, []) => return Ok(()),
        (Meant::Starts(_), [_]) => ("then line ", " fails: % is not started"),
        (Meant::Starts(_), _) => ("then lines ", " fail: % is not started"),
        (Meant::Begins, [_]) => ("then line ", " belongs to the turn above"),
        (Meant::Begins, _) => ("then lines ", " belong to the turn above"),
    };
    for number in numbers {
        push(out, &[Words(before), Count(*number)])?;
        before = ", ";
    }
    match meant {
        Meant::Starts(company) => fill(out, end, &[Words(company.code())]),
        Meant::Begins => fill(out, end, &[]),
    }
}

/// Returns what a line was to do for those below it, if it is a PAR without a par value, or has a
/// fault and was meant as a PAR or a TURN.
fn meant_by(
    alloc: Global,
    version: Version,
    its: OrderLine,
    text: &[u8],
) -> Result<Option<Meant>, AllocError> {
    match its.fault {
        Some(fault) if text.len() <= MEANT_MOST && is_like_these(text) => {
            let faulty = Faulty {
                version,
                line: text,
                above: 0,
                fault,
                players: &[],
            };
            meant_by_fault(alloc, faulty)
        }
        Some(_) => Ok(None),
        None => Ok(its.order.and_then(started_without_par)),
    }
}

/// Returns that a company was to be started, if the order is a PAR without a par value.
fn started_without_par(order: PlayOrder) -> Option<Meant> {
    match order {
        PlayOrder::Par { company, price } => match par_square(price) {
            Some(_) => None,
            None => Some(Meant::Starts(company)),
        },
        _ => None,
    }
}

/// Returns whether the first word of a line is short, and begins with a letter of PAR or TURN other
/// than N. (Only then is it asked what was meant.)
fn is_like_these(text: &[u8]) -> bool {
    let (words, _) = words_of(text);
    let Some([first, rest @ ..]) = words.first().copied() else {
        return false;
    };
    rest.len() < 5 && matches!(first.to_ascii_uppercase(), b'P' | b'A' | b'R' | b'T' | b'U')
}

/// Returns what a line with a fault was to do for those below it, by the line that was meant, or by
/// its own words.
fn meant_by_fault(alloc: Global, faulty: Faulty) -> Result<Option<Meant>, AllocError> {
    let Some(meant) = line_meant(alloc, faulty)? else {
        return Ok(begun_by_words(faulty.line));
    };
    match read_line_in(faulty.version, meant.as_slice()) {
        Ok(line) => match line.order {
            Order::Turn => Ok(Some(Meant::Begins)),
            Order::Play(PlayOrder::Par { company, .. }) => Ok(Some(Meant::Starts(company))),
            _ => Ok(None),
        },
        Err(_) => Ok(None),
    }
}

/// Returns what a line of which nothing else is known was to do, by its first two words.
fn begun_by_words(line: &[u8]) -> Option<Meant> {
    if begins_with_word(line, b"TURN") {
        return Some(Meant::Begins);
    }
    if !begins_with_word(line, b"PAR") {
        return None;
    }
    let (words, _) = words_of(line);
    let named = words.get(1)?;
    for company in &Company::ALL {
        if company.code().as_bytes().eq_ignore_ascii_case(named) {
            return Some(Meant::Starts(*company));
        }
    }
    None
}

/// Returns whether the company that was to be started has started as the round begins.
fn is_done(meant: Meant, start: &GameView) -> bool {
    match meant {
        Meant::Starts(company) => start.is_started(company),
        Meant::Begins => false,
    }
}

/// Returns whether from a line on nothing depends on the one above it that has a fault: it starts
/// the company, or begins a turn.
fn ends(meant: Meant, line: &OrderLine) -> bool {
    match (meant, line.order) {
        (Meant::Starts(company), Some(PlayOrder::Par { company: its, .. })) => its == company,
        (Meant::Begins, _) => line.is_head,
        _ => false,
    }
}

/// Returns whether a line fails because a line above it has a fault: it buys a share of the company
/// that was to be started, or belongs to the turn above.
fn fails_with(meant: Meant, line: &OrderLine) -> bool {
    match (meant, line.order) {
        (Meant::Starts(company), Some(PlayOrder::BuyShare { company: its, .. })) => its == company,
        (Meant::Begins, Some(_)) => true,
        _ => false,
    }
}
