//! What there is to say of a line of a sheet, as text.

use crate::check_text::push_rule;
use desk_base::Piece::{Bytes, Count, Words};
use desk_base::{Objection, Piece, Reason, fill, push_objection, who};
use desk_trials::{Finding, Matter, Said};
use desk_why::{push_case, push_place_meant};
use hints::{Faulty, push_hint, sentence_of};
use order_grammar::Fault;
use report::name;
use sheets::{SheetKey, Sheets};
use std::alloc::AllocError;
use tables::{PLAYERS_MOST, Round, Seat};

/// The last line with a fault, and what was written of it.
#[derive(Drop)]
pub(crate) struct LastFault<'a> {
    /// The line.
    pub(crate) line: &'a [u8],
    /// Its fault; `None` before the first such line.
    pub(crate) fault: Option<Fault>,
    /// What was written of it.
    pub(crate) words: Vec<u8>,
    /// Whether an equal line before it had the same words, so that they do not depend on the number
    /// of the line.
    pub(crate) is_repeated: bool,
}

/// Adds the code of a line's fault, what is wrong, and what to write instead if that is known. A
/// line that repeats the last one gets the same words, without another search for a hint.
pub(crate) fn push_fault<'a>(
    out: &mut Vec<u8>,
    sheets: &Sheets,
    finding: &Finding<'a>,
    fault: Fault,
    last_fault: &mut LastFault<'a>,
) -> Result<(), AllocError> {
    let is_equal = last_fault.fault == Some(fault) && last_fault.line == finding.text;
    if !is_equal || !last_fault.is_repeated {
        let mut words = Vec::new(*out.allocator());
        let (code, rule) = (Words(fault.code()), Words(sentence_of(finding.text, fault)));
        fill(&mut words, "%: %", &[code, rule])?;
        let names = names_of(sheets);
        let faulty = Faulty {
            version: sheets.version(),
            line: finding.text,
            above: finding.line.saturating_sub(1),
            fault,
            players: names.get(..sheets.seats()).unwrap_or(&names),
        };
        push_hint(&mut words, faulty)?;
        if let (Fault::OutOfPlace, Matter::Line(sent, _)) = (fault, finding.matter) {
            push_place_meant(&mut words, sent.round, finding.text)?;
        }
        last_fault.is_repeated = is_equal && last_fault.words.as_slice() == words.as_slice();
        last_fault.line = finding.text;
        last_fault.fault = Some(fault);
        last_fault.words = words;
    }
    out.extend_from_slice(last_fault.words.as_slice())
}

/// Returns the names of the players, and empty names after them.
pub(crate) fn names_of<'a>(sheets: &'a Sheets) -> [&'a [u8]; 6] {
    let mut names: [&[u8]; PLAYERS_MOST] = [b""; PLAYERS_MOST];
    for seat in 0..PLAYERS_MOST {
        names[seat] = name(sheets, Seat::at(seat));
    }
    names
}

/// Adds what there is to say of a line that was meant to begin a sheet: its fault, and what becomes
/// of the lines below it.
pub(crate) fn push_closing<'a>(
    out: &mut Vec<u8>,
    sheets: &Sheets,
    finding: &Finding<'a>,
    fault: Fault,
    sent: Option<SheetKey>,
    below: Option<(usize, usize)>,
    last_fault: &mut LastFault<'a>,
) -> Result<(), AllocError> {
    fill(out, "it begins no sheet. ", &[])?;
    push_fault(out, sheets, finding, fault, last_fault)?;
    let Some((first, last)) = below else {
        return Ok(());
    };
    if first == last {
        fill(out, ". Line % below it", &[Count(first)])?;
    } else {
        fill(out, ". Lines % to % below it", &[Count(first), Count(last)])?;
    }
    let Some(sent) = sent else {
        return fill(out, ": no sheet has them", &[]);
    };
    let player = Bytes(name(sheets, sent.seat));
    let words = ": looked at as part of %'s sheet for %";
    fill(out, words, &[player, Piece::Round(sent.round)])
}

/// Adds what there is to say of a line of a sheet.
pub(crate) fn push_said<'a>(
    out: &mut Vec<u8>,
    sheets: &Sheets,
    finding: &Finding<'a>,
    round: Round,
    said: Said,
    last_fault: &mut LastFault<'a>,
) -> Result<(), AllocError> {
    match said {
        Said::Faulty(fault) => push_fault(out, sheets, finding, fault, last_fault),
        Said::Unopened => {
            push_rule(out, Fault::OutOfPlace.code())?;
            let head = match round {
                Round::Opening(_) | Round::Stock(_) => "TURN",
                Round::Operating { .. } => "COMPANY",
            };
            fill(out, "; there is no % line above it", &[Words(head)])
        }
        Said::Breaks(rule, reason) => {
            let mut detail = Vec::new(*out.allocator());
            push_objection(&mut detail, sheets, reason)?;
            push_case(out, Reason::Order(rule), detail.as_slice())?;
            match reason {
                Objection::NoTrain(..) => fill(out, " as the round begins", &[]),
                _ => Ok(()),
            }
        }
        Said::Presided(company, president) => {
            let words = "% presides over %: these orders are ignored";
            fill(out, words, &[who(sheets, president), Words(company.code())])
        }
        Said::Again(company, line) => {
            let words = "the orders of % begin on line %: these are ignored";
            fill(out, words, &[Words(company.code()), Count(line)])
        }
    }
}
