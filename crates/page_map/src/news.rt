//! What the last round laid, placed and moved.
ghost use Rattle.std.specs.Prelude.{◌≡◌, Bool};
ghost use Rattle.events.specs.declared.event.Event.{Event as AnEvent};
ghost use Rattle.page_map.specs.News.{in_last_round, is_lay_on, is_move_of, is_token_at, names_stop, square_before_round, square_then};

use board_state::{same_company, same_hex, same_stop};
use history::Event;
use map_tables::{Hex, Stop};
use tables::{Company, Square};

/// Returns the events of the last round without the one that begins it; all events if no round has
/// begun. (Most events are of earlier rounds, and are not looked at.)
fn of_last_round(events: &[Event]) -> &[Event]
    ensures { (is_it : AnEvent → Bool) →
        in_last_round is_it result.now ≡ in_last_round is_it events.now }
{
    let mut from = events.len();
    while from > 0 {
        if events[from - 1].round().is_some() {
            return &events[from..];
        }
        from -= 1;
    }
    events
}

/// Returns whether a tile was laid on a hex in the last round.
pub fn laid_in_last_round(events: &[Event], hex: Hex) -> bool
    ensures { result ≡ in_last_round (is_lay_on hex) events.now }
{
    is_laid_in(of_last_round(events), hex)
}

/// Returns whether a tile was laid on a hex in the last round of some events.
fn is_laid_in(events: &[Event], hex: Hex) -> bool
    ensures { result ≡ in_last_round (is_lay_on hex) events.now }
{
    let mut is_new = false;
    for event in events {
        is_new = event.round().is_none() && (is_new || is_lay_on(hex, event));
    }
    is_new
}

/// Returns whether an event lays a tile on a hex.
fn is_lay_on(hex: Hex, event: &Event) -> bool
    ensures { result ≡ is_lay_on hex event.now }
{
    match event.lay() {
        Some(lay) => same_hex(lay.hex, hex),
        None => false,
    }
}

/// Returns whether a company placed a token at a stop in the last round.
pub fn placed_in_last_round(events: &[Event], stop: Stop, company: Company) -> bool
    ensures { result ≡ in_last_round (is_token_at stop company) events.now }
{
    is_placed_in(of_last_round(events), stop, company)
}

/// Returns whether a company placed a token at a stop in the last round of some events.
fn is_placed_in(events: &[Event], stop: Stop, company: Company) -> bool
    ensures { result ≡ in_last_round (is_token_at stop company) events.now }
{
    let mut is_new = false;
    for event in events {
        is_new = event.round().is_none() && (is_new || is_token_at(stop, company, event));
    }
    is_new
}

/// Returns whether an event places a token of a company at a stop.
fn is_token_at(stop: Stop, company: Company, event: &Event) -> bool
    ensures { result ≡ is_token_at stop company event.now }
{
    match event.token() {
        Some((place, its)) => names_stop(stop, place.stop()) && same_company(its, company),
        None => false,
    }
}

/// Returns whether a stop, if there is one, is this one.
fn names_stop(stop: Stop, other: Option<Stop>) -> bool
    ensures { result ≡ names_stop stop other }
{
    match other {
        Some(other) => same_stop(other, stop),
        None => false,
    }
}

/// Returns whether the token of a company was moved or put on the stock chart in the last round.
pub fn moved_in_last_round(events: &[Event], company: Company) -> bool
    ensures { result ≡ in_last_round (is_move_of company) events.now }
{
    is_moved_in(of_last_round(events), company)
}

/// Returns whether the token of a company was moved or put on the stock chart in the last round of
/// some events.
fn is_moved_in(events: &[Event], company: Company) -> bool
    ensures { result ≡ in_last_round (is_move_of company) events.now }
{
    let mut is_new = false;
    for event in events {
        is_new = event.round().is_none() && (is_new || is_move_of(company, event));
    }
    is_new
}

/// Returns whether an event sets the square of a company.
fn is_move_of(company: Company, event: &Event) -> bool
    ensures { result ≡ is_move_of company event.now }
{
    match event.square() {
        Some(placement) => same_company(placement.company, company),
        None => false,
    }
}

/// Returns the square on which the token of a company was before the last round; `None` if it was
/// not on the chart.
pub fn square_before_round(events: &[Event], company: Company) -> Option<Square>
    ensures { result ≡ square_before_round events.now company }
{
    let mut before = None;
    let mut now = None;
    for event in events {
        if event.round().is_some() {
            before = now;
        }
        now = square_then(company, now, event);
    }
    before
}

/// Returns the square of a company after an event, given that before it.
fn square_then(company: Company, now: Option<Square>, event: &Event) -> Option<Square>
    ensures { result ≡ square_then company now event.now }
{
    match event.square() {
        Some(placement) if same_company(placement.company, company) => Some(placement.square),
        _ => now,
    }
}
