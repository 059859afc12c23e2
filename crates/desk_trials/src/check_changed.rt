//! From which round on the report of a game differs from that of an earlier game.
ghost use Rattle.std.specs.Prelude.{◌≡◌};
ghost use Rattle.desk_trials.specs.Changed.{is_said};

use history::{Event, PackedRuling, Ruling, Verdict};
use order_grammar::print_conditional;
use rounds::Game;
use std::alloc::{AllocError, Global};
use tables::Round;

/// Returns the first round of a game whose report differs in the present game; `None` if all are
/// the same. It compares the rounds, the rulings and what was left of the sheets, since all other
/// events follow from these. Fails only if allocation fails.
pub fn first_changed(
    alloc: Global,
    before: &Game,
    now: &Game,
) -> Result<Option<Round>, AllocError> {
    let others = now.history().events();
    let mut place = 0;
    let mut round = None;
    for event in before.history().events() {
        if !is_said(event) {
            continue;
        }
        if let Some(begun) = event.round() {
            round = Some(begun);
        }
        place = next_said(others, place);
        let is_same = match others.get(place) {
            Some(other) => are_same(alloc, event, other)?,
            None => false,
        };
        if !is_same {
            return Ok(round);
        }
        place = place.saturating_add(1);
    }
    Ok(None)
}

/// Returns whether an event is compared.
fn is_said(event: &Event) -> bool
    ensures { result ≡ is_said event.now }
{
    matches!(
        event,
        Event::Round(_) | Event::Ruled { .. } | Event::Left { .. }
    )
}

/// Returns the place of the first event that is compared, from a place on; the number of events if
/// there is none.
fn next_said(events: &[Event], from: usize) -> usize {
    let Some(left) = events.get(from..) else {
        return events.len();
    };
    match left.iter().position(|event| is_said(event)) {
        Some(passed) => from.saturating_add(passed),
        None => events.len(),
    }
}

/// Returns whether two events that are compared have the same text in a report.
fn are_same(alloc: Global, event: &Event, other: &Event) -> Result<bool, AllocError> {
    match (event, other) {
        (Event::Round(a), Event::Round(b)) => Ok(a == b),
        (
            Event::Left { seat, lines },
            Event::Left {
                seat: other_seat,
                lines: other_lines,
            },
        ) => Ok(seat == other_seat && lines == other_lines),
        (
            Event::Ruled { seat, line, ruling },
            Event::Ruled {
                seat: other_seat,
                line: other_line,
                ruling: other_ruling,
            },
        ) => {
            if seat != other_seat || line != other_line {
                return Ok(false);
            }
            have_same_text(alloc, ruling, other_ruling)
        }
        _ => Ok(false),
    }
}

/// Returns whether two rulings have the same text in a report.
fn have_same_text(
    alloc: Global,
    ruling: &PackedRuling,
    other: &PackedRuling,
) -> Result<bool, AllocError> {
    if !are_alike(ruling.verdict(), other.verdict()) {
        return Ok(false);
    }
    let text = text_of(alloc, &ruling.ruling())?;
    let other_text = text_of(alloc, &other.ruling())?;
    Ok(text.as_slice() == other_text.as_slice())
}

/// Returns whether two lines were both obeyed, or both not obeyed for the same reason.
pub(crate) fn are_alike(verdict: Verdict, other: Verdict) -> bool {
    match (verdict, other) {
        (Verdict::Obeyed, Verdict::Obeyed) => true,
        (Verdict::Refused(a), Verdict::Refused(b)) => a == b,
        (Verdict::Faulty(a), Verdict::Faulty(b)) => a == b,
        _ => false,
    }
}

/// Returns the order that was ruled, with its condition; nothing for a line with a fault.
fn text_of(alloc: Global, ruling: &Ruling) -> Result<Vec<u8>, AllocError> {
    match ruling {
        Ruling::Obeyed { condition, order }
        | Ruling::Refused {
            condition,
            order,
            ..
        } => print_conditional(alloc, condition.as_ref(), order),
        Ruling::Faulty(_) => Ok(Vec::new(alloc)),
    }
}
