//! Calls on texts: an order file, a line, marks.

use crate::call::{Call, made};
use crate::fault::OutcomeFault;
use crate::outcome::Outcome;
use crate::texts::{FIRST, UNREAD};
use certificate::{HexFault, print_hex, read_hex};
use order_grammar::{Version, print_conditional, print_line, read_line, read_line_in};
use sheets::{FileFault, collect};
use std::rt::Runtime;
use tables::{Round, Seat};

/// A conditional order, in its one spelling.
const OWED: &[u8; 30] = b"IF PRICE PRR >= 90 BUY PRR IPO";

/// Collects the sheets of the first game: three players, and a sheet of ANN's.
pub fn collects(rt: &HostRuntime) -> Result<Outcome, OutcomeFault> {
    Call::Collect.begin(rt)?;
    let answer = collect(rt.alloc(), FIRST.as_bytes());
    made(rt)?;
    Ok(match answer {
        Ok(sheets) => {
            let sheet = sheets.sheet(Seat(0), &Round::Opening(1));
            Outcome::of_answer(sheets.seats() == 3 && sheet.is_some())
        }
        Err(fault) => Outcome::of_refusal(fault == FileFault::Memory),
    })
}

/// Collects the sheets of a file with unread lines: their faults are kept.
pub fn collects_unread(rt: &HostRuntime) -> Result<Outcome, OutcomeFault> {
    Call::CollectUnread.begin(rt)?;
    let answer = collect(rt.alloc(), UNREAD.as_bytes());
    made(rt)?;
    Ok(match answer {
        Ok(sheets) => Outcome::of_answer(sheets.unread().len() == 3),
        Err(fault) => Outcome::of_refusal(fault == FileFault::Memory),
    })
}

/// Prints the order of a line in another spelling.
pub fn prints_line(rt: &HostRuntime) -> Result<Outcome, OutcomeFault> {
    let Ok(line) = read_line(b"run 2 h12.0  H10.0 # x") else {
        return Err(OutcomeFault::Position);
    };
    Call::PrintLine.begin(rt)?;
    let answer = print_line(rt.alloc(), &line.order);
    made(rt)?;
    Ok(match answer {
        Ok(text) => Outcome::of_answer(text.as_slice() == b"RUN 2 H12.0 H10.0".as_slice()),
        Err(_) => Outcome::of_refusal(true),
    })
}

/// Prints the conditional order of a line in another spelling.
pub fn prints_conditional(rt: &HostRuntime) -> Result<Outcome, OutcomeFault> {
    let Ok(line) = read_line_in(Version::Two, b"if price prr  >= 090 buy PRR ipo") else {
        return Err(OutcomeFault::Position);
    };
    Call::PrintConditional.begin(rt)?;
    let answer = print_conditional(rt.alloc(), line.condition.as_ref(), &line.order);
    made(rt)?;
    Ok(match answer {
        Ok(text) => Outcome::of_answer(text.as_slice() == OWED.as_slice()),
        Err(_) => Outcome::of_refusal(true),
    })
}

/// Reads the marks of a small tree, and three 0 bits after them.
pub fn reads_hex(rt: &HostRuntime) -> Result<Outcome, OutcomeFault> {
    Call::ReadHex.begin(rt)?;
    let answer = read_hex(rt.alloc(), b"BEFB8");
    made(rt)?;
    Ok(match answer {
        Ok(bits) => {
            let first = [true, false, true, true, true, true, true, false];
            let is_first = bits.as_slice().starts_with(&first);
            Outcome::of_answer(is_first && bits.len() == 20)
        }
        Err(fault) => Outcome::of_refusal(fault == HexFault::Memory),
    })
}

/// Prints 40 bits of the value 1.
pub fn prints_hex(rt: &HostRuntime) -> Result<Outcome, OutcomeFault> {
    let bits = [true; 40];
    Call::PrintHex.begin(rt)?;
    let answer = print_hex(rt.alloc(), &bits);
    made(rt)?;
    Ok(match answer {
        Ok(text) => Outcome::of_answer(text.as_slice() == b"ffffffffff".as_slice()),
        Err(_) => Outcome::of_refusal(true),
    })
}
