//! The lines of a player's sheet that a trial did not obey.
ghost use Rattle.std.specs.Prelude.{◌≡◌, ◌++◌, IfOk, OnOk};
ghost use Rattle.std.specs.List.{flat_map};
ghost use Rattle.desk_trials.specs.Refusals.{is_told, refused_of, row_at, row_in, row_of};

use desk_why::refused_in;
use history::{Event, Refusal, Verdict};
use sheets::SheetKey;
use std::alloc::{AllocError, Global};
use tables::Seat;

/// A line of a sheet that was not obeyed.
#[derive(Clone, Copy)]
pub(crate) struct RefusedLine {
    /// How many events came before its ruling.
    pub(crate) place: usize,
    /// Its number in the sheet, from 1; blank lines have none.
    pub(crate) number: u32,
    /// Which rule it broke, or which fault it has.
    pub(crate) verdict: Verdict,
}

/// Returns the lines of a sheet that were refused in its round or have a fault, in the order of
/// their rulings. Those whose condition did not hold are left out. Fails only if allocation fails.
pub(crate) fn refused_of(
    alloc: Global,
    events: &[Event],
    sent: SheetKey,
) -> Result<Vec<RefusedLine>, AllocError>
    ensures { IfOk result (λ rows. rows.items ≡ refused_of sent events.now) }
{
    let places = refused_in(alloc, events, sent.round)?;
    rows_at(alloc, events, sent.seat, places.as_slice())
}

/// Returns the lines of the sheet of a seat that the events at some places refuse, if they are
/// reported. Fails only if allocation fails.
fn rows_at(
    alloc: Global,
    events: &[Event],
    seat: Seat,
    places: &[usize],
) -> Result<Vec<RefusedLine>, AllocError>
    ensures { IfOk result (λ rows. rows.items ≡ flat_map (row_at events.now seat) places.now) }
{
    let mut rows = Vec::new(alloc);
    for place in places {
        push_row(&mut rows, events, seat, *place)?;
    }
    Ok(rows)
}

/// Adds the line that the event at a place refuses, if it is in the sheet of a seat and reported.
fn push_row(
    rows: &mut Vec<RefusedLine>,
    events: &[Event],
    seat: Seat,
    place: usize,
) -> Result<(), AllocError>
    ensures { OnOk result (rows.new.items ≡ rows.old.items ++ row_at events.now seat place) }
{
    match events.get(place) {
        Some(event) => push_ruled(rows, seat, place, event),
        None => Ok(()),
    }
}

/// Adds the line that an event at a place refuses, if it is in the sheet of a seat and reported.
fn push_ruled(
    rows: &mut Vec<RefusedLine>,
    seat: Seat,
    place: usize,
    event: &Event,
) -> Result<(), AllocError>
    ensures { OnOk result (rows.new.items ≡ rows.old.items ++ row_in seat place event.now) }
{
    match event {
        Event::Ruled {
            seat: its,
            line,
            ruling,
        } if its.index() == seat.index() => push_told(rows, place, *line, ruling.verdict()),
        _ => Ok(()),
    }
}

/// Adds the line with a number, whose ruling is at a place, if it is reported.
fn push_told(
    rows: &mut Vec<RefusedLine>,
    place: usize,
    number: u32,
    verdict: Verdict,
) -> Result<(), AllocError>
    ensures { OnOk result (rows.new.items ≡ rows.old.items ++ row_of place number verdict) }
{
    if is_told(verdict) {
        rows.push(RefusedLine {
            place,
            number,
            verdict,
        })?;
    }
    Ok(())
}

/// Returns whether what became of a line is reported: it has a fault, or was refused for another
/// reason than its condition.
fn is_told(verdict: Verdict) -> bool
    ensures { result ≡ is_told verdict }
{
    match verdict {
        Verdict::Obeyed | Verdict::Refused(Refusal::Condition) => false,
        Verdict::Refused(_) | Verdict::Faulty(_) => true,
    }
}
