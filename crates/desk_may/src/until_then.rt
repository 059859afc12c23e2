//! What happens before a turn, if nobody orders anything until then.

use desk_base::Piece::{Bytes, Column, Words};
use desk_base::{fill, push};
use history::{Event, History};
use report::{name, push_event};
use sheets::Sheets;
use std::alloc::{AllocError, Global};
use tables::Company;

/// The column of what is said after a label.
pub(crate) const SAID: usize = 18;

/// Adds who has a turn earlier in a coming round, and what happens until then. `from` is the place
/// in the list of the event that begins the round, and `company` the one whose turn it is in an
/// operating round.
pub fn push_until_then(
    alloc: Global,
    out: &mut Vec<u8>,
    sheets: &Sheets,
    history: &History,
    from: usize,
    company: Option<Company>,
) -> Result<(), AllocError> {
    let events = history.events().get(from..).unwrap_or(&[]);
    push_before(out, sheets, events, company)?;
    push_events(alloc, out, sheets, "UNTIL THEN", events)
}

/// Adds some events as the report words them, after a label, except that a round begins and that a
/// seat passes.
pub(crate) fn push_events(
    alloc: Global,
    out: &mut Vec<u8>,
    sheets: &Sheets,
    label: &'static str,
    events: &[Event],
) -> Result<(), AllocError> {
    let mut label = label;
    for event in events {
        if is_told(event) {
            let mut line = Vec::new(alloc);
            push_event(&mut line, sheets, event)?;
            push(out, &[Words(label), Column(SAID), Bytes(line.as_slice())])?;
            label = "";
        }
    }
    Ok(())
}

/// Adds who has had a turn already, by the events of the round so far.
fn push_before(
    out: &mut Vec<u8>,
    sheets: &Sheets,
    events: &[Event],
    company: Option<Company>,
) -> Result<(), AllocError> {
    fill(out, "BEFORE           ", &[])?;
    let mut end = " nobody\n";
    let mut last = None;
    for event in events {
        if let Event::Passes(seat) = event {
            fill(out, " %", &[Bytes(name(sheets, *seat))])?;
            end = "\n";
        }
        let operated = event.operated();
        if let Some(other) = operated
            && operated != company
            && operated != last
        {
            fill(out, " %", &[Words(other.code())])?;
            end = "\n";
            last = operated;
        }
    }
    push(out, &[Words(end)])
}

/// Returns whether an event is shown: any but that a round begins or a seat passes.
fn is_told(event: &Event) -> bool {
    !matches!(event, Event::Round(_) | Event::Passes(_))
}
