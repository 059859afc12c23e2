//! Which lines of a round were refused.
ghost use Rattle.std.specs.Prelude.{◌≡◌, IfOk};
ghost use Rattle.desk_why.specs.Refused.{is_refused, refused_in, within_then};

use history::{Event, Verdict};
use std::alloc::{AllocError, Global};
use tables::{Round, same_round};

/// Returns the places in the list of events of all rulings of a round that refuse a line or find a
/// fault in it, in order. Fails only if allocation fails.
pub fn refused_in(alloc: Global, events: &[Event], round: Round) -> Result<Vec<usize>, AllocError>
    ensures { IfOk result (λ places. places.items ≡ refused_in round events.now) }
{
    let mut places = Vec::new(alloc);
    let mut within = false;
    for (place, event) in events.iter().enumerate() {
        within = within_then(within, event, round);
        if within && is_refused(event) {
            places.push(place)?;
        }
    }
    Ok(places)
}

/// Returns whether a round is the current one after an event, given whether it is before the event.
pub fn within_then(within: bool, event: &Event, round: Round) -> bool
    ensures { result ≡ within_then round within event.now }
{
    match event.round() {
        Some(begun) => same_round(begun, round),
        None => within,
    }
}

/// Returns whether an event is a ruling that refuses a line or finds a fault in it.
fn is_refused(event: &Event) -> bool
    ensures { result ≡ is_refused event.now }
{
    match event {
        Event::Ruled { ruling, .. } => !matches!(ruling.verdict(), Verdict::Obeyed),
        _ => false,
    }
}
