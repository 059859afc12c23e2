//! What `check` finds, as text: a line for each finding, with the number of the line in the file,
//! its text, and what there is to say of it.
ghost use Rattle.std.specs.Prelude.{◌≡◌, OnOk};

use crate::check_refused::{Cause, Refusal};
use crate::check_said::{LastFault, push_closing, push_fault, push_said};
use desk_base::Piece::{Bytes, Count, Cut, Words};
use desk_base::{Piece, explain, push};
use desk_trials::{Change, Fallback, Finding, Found, Lateness, Matter, Standing};
use report::name;
use rounds::End;
use sheets::{FileFault, Sheets};
use std::alloc::AllocError;
use tables::Round;

/// How many columns of a line are shown.
const COLUMNS: usize = 60;

/// The separator of the parts of a finding.
const PARTED: Piece = Words(" | ");

/// No piece.
const NOTHING: Piece = Words("");

/// Adds what was found, in the order of the file.
pub(crate) fn push_found(
    out: &mut Vec<u8>,
    sheets: &Sheets,
    found: &mut Found,
) -> Result<(), AllocError> {
    found.sort()?;
    let mut last_fault = LastFault {
        line: b"",
        fault: None,
        words: Vec::new(*out.allocator()),
        is_repeated: false,
    };
    for finding in &found.findings {
        if finding.line >= found.from {
            push_finding(out, sheets, finding, found.told.as_slice(), &mut last_fault)?;
        }
    }
    push_unlisted(out, found.unlisted)?;
    push_fallbacks(out, sheets, found.fallbacks.as_slice())
}

/// Adds the lines that are not needed, a line of text for each sheet.
fn push_fallbacks(
    out: &mut Vec<u8>,
    sheets: &Sheets,
    fallbacks: &[Fallback],
) -> Result<(), AllocError> {
    let mut before = None;
    for (place, fallback) in fallbacks.iter().enumerate() {
        let sent = Some(fallback.sent);
        let next = fallbacks.get(place.saturating_add(1)).map(|next| next.sent);
        if before == sent {
            push(out, &[Words(", ")])?;
        } else {
            let name = Bytes(name(sheets, fallback.sent.seat));
            let round = Piece::Round(fallback.sent.round);
            let words = if next == sent {
                "fallbacks that are not needed as things stand: lines "
            } else {
                "a fallback that is not needed as things stand: line "
            };
            push(out, &[name, Words(" "), round, PARTED, Words(words)])?;
        }
        let end = if next == sent { "" } else { "\n" };
        push(out, &[Count(fallback.line), Words(end)])?;
        before = sent;
    }
    Ok(())
}

/// Adds how many findings of lines are not listed, if any.
fn push_unlisted(out: &mut Vec<u8>, unlisted: usize) -> Result<(), AllocError>
    ensures { unlisted ≡ 0 → OnOk result (out.new ≡ out.old) }
{
    let findings = match unlisted {
        0 => return Ok(()),
        1 => " finding",
        _ => " findings",
    };
    let whose = " more, of lines that are unread, like mail, with a fault, or refused in a trial\n";
    let pieces = [
        Words("and "),
        Count(unlisted),
        Words(findings),
        Words(whose),
    ];
    push(out, &pieces)
}

/// Adds the heading of the findings that are for the umpire only, since they show what the sheets
/// of others do.
pub(crate) fn push_heading(out: &mut Vec<u8>) -> Result<(), AllocError> {
    let words = "FOR THE UMPIRE ALONE: with all sheets that are there\n";
    push(out, &[Words(words)])
}

/// Adds a finding, given the texts of the trials.
fn push_finding<'a>(
    out: &mut Vec<u8>,
    sheets: &Sheets,
    finding: &Finding<'a>,
    told: &[u8],
    last_fault: &mut LastFault<'a>,
) -> Result<(), AllocError> {
    push(out, &[Count(finding.line), PARTED])?;
    if let Matter::Line(sent, _) | Matter::Tried { sent, .. } = finding.matter {
        let name = Bytes(name(sheets, sent.seat));
        push(out, &[name, Words(" "), Piece::Round(sent.round), PARTED])?;
    }
    push(out, &[Cut(finding.text, COLUMNS), PARTED])?;
    push_matter(out, sheets, finding, told, last_fault)?;
    push(out, &[Words("\n")])
}

/// Adds what there is to say of a line, given the texts of the trials.
fn push_matter<'a>(
    out: &mut Vec<u8>,
    sheets: &Sheets,
    finding: &Finding<'a>,
    told: &[u8],
    last_fault: &mut LastFault<'a>,
) -> Result<(), AllocError> {
    match finding.matter {
        Matter::Unread(fault) => {
            push(out, &[Words("it belongs to no sheet and is skipped. ")])?;
            push_fault(out, sheets, finding, fault, last_fault)
        }
        Matter::Closes { fault, sent, below } => push_closing(
            out, sheets, finding, fault, sent, below, last_fault,
        ),
        Matter::Mail(sheet) => {
            let words = "it looks like mail, and counts as a line of the sheet of line ";
            push(out, &[Words(words), Count(sheet)])
        }
        Matter::Replaces {
            line,
            round,
            lateness,
            turn,
        } => push_replaced(out, line, round, lateness, turn),
        Matter::Early(round) => push_end(out, "it came early: ", End::Awaiting(round)),
        Matter::Never(end) => push_end(out, "its round cannot come any more: ", end),
        Matter::Silent(company) => push(
            out,
            &[
                Words("it has no orders for "),
                Words(company.code()),
                Words(", which operates and whose president this is"),
            ],
        ),
        Matter::Line(sent, said) => push_said(out, sheets, finding, sent.round, said, last_fault),
        Matter::Tried { from, to, .. } => push(out, &[Bytes(told.get(from..to).unwrap_or(&[]))]),
        Matter::Name { seat, likeness } => {
            let name = name(sheets, seat);
            push(out, &[Words("the name "), Bytes(name), Words(likeness)])
        }
    }
}

/// Adds a code, and its rule in words.
pub(crate) fn push_rule(out: &mut Vec<u8>, code: &'static str) -> Result<(), AllocError> {
    let (parted, rule) = match explain(code) {
        Some(reason) => (": ", reason.sentence()),
        None => ("", ""),
    };
    push(out, &[Words(code), Words(parted), Words(rule)])
}

/// Adds what there is to say of a sheet that replaces that of a line; if the game turns there, also
/// how far it had come before, how far it comes now, and from which round on its report differs.
fn push_replaced(
    out: &mut Vec<u8>,
    line: usize,
    round: Round,
    lateness: Lateness,
    turn: Option<Change>,
) -> Result<(), AllocError> {
    let (parted, named, words) = match lateness {
        Lateness::Open => (", and not every player had one for that round", NOTHING, ""),
        Lateness::NotReached => (
            "; every player had one for ",
            Piece::Round(round),
            ", and the game does not reach it",
        ),
        Lateness::Played => (". ", Piece::Round(round), " WAS PLAYED"),
        Lateness::Corrects => (", a correction in the same batch", NOTHING, ""),
    };
    push(
        out,
        &[
            Words("it replaces the sheet of line "),
            Count(line),
            Words(parted),
            named,
            Words(words),
        ],
    )?;
    let Some(change) = turn else {
        return Ok(());
    };
    push_standing(out, ". Before this line: ", change.before)?;
    push_standing(out, ". Now: ", change.now)?;
    match change.round {
        Some(round) => push(
            out,
            &[
                Words("; the report differs from "),
                Piece::Round(round),
                Words(" on"),
            ],
        ),
        None => push(out, &[Words("; the report stays the same")]),
    }
}

/// Adds how far a game has come, after some words.
fn push_standing(out: &mut Vec<u8>, before: &str, standing: Standing) -> Result<(), AllocError> {
    let (last, words) = match standing.last {
        Some(round) => (Piece::Round(round), " was played last, "),
        None => (NOTHING, ""),
    };
    push(out, &[Words(before), last])?;
    push_end(out, words, standing.end)
}

/// Adds why play stopped, after some words.
fn push_end(out: &mut Vec<u8>, before: &str, end: End) -> Result<(), AllocError> {
    let (awaited, words) = match end {
        End::Awaiting(round) => (Piece::Round(round), " is awaited"),
        End::Bank => (NOTHING, "the game is over, for the bank is broken"),
        End::Bankrupt => (NOTHING, "the game is over, for a president is bankrupt"),
    };
    push(out, &[Words(before), awaited, Words(words)])
}

/// Adds why a file is refused.
pub(crate) fn push_refusal(
    out: &mut Vec<u8>,
    fault: FileFault,
    refusal: Refusal,
) -> Result<(), AllocError> {
    let (number, parted, line) = match refusal.line {
        Some(line) => (Count(line.number), PARTED, Cut(line.text, COLUMNS)),
        None => (Words("the file"), NOTHING, NOTHING),
    };
    let (before, what, words) = said(refusal.cause);
    let code = Words(fault.code());
    push(
        out,
        &[
            number,
            parted,
            line,
            PARTED,
            code,
            Words(": "),
            before,
            what,
            words,
            Words("\n"),
        ],
    )
}

/// Returns the three pieces that say a cause.
fn said(cause: Cause) -> (Piece, Piece, Piece) {
    match cause {
        Cause::Said(words) => (NOTHING, NOTHING, Words(words)),
        Cause::Number(count) => (
            NOTHING,
            Count(count),
            Words(" players are named, and 3 to 6 play"),
        ),
        Cause::Name(name, words) => (Words("the name "), Cut(name, COLUMNS), Words(words)),
    }
}
