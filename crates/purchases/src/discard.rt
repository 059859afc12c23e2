//! DISCARD: which trains a company discards if it has too many.
//!
//! A standing line DISCARD is obeyed if the seat is president of the company and the company has
//! such a train. If a company has too many trains, its president's obeyed lines of this round
//! decide first, in order, each once. A line is skipped if the company has no such train, and can
//! be used later in the round. If no line can be used, the company discards a train of its lowest
//! kind.
ghost use Rattle.std.specs.Prelude.{◌≡◌, OnOk, IfOk, Some};
ghost use Rattle.events.specs.Event.{obeyed_of, office_of};
ghost use Rattle.history.specs.Sound.{IsSound};
ghost use Rattle.purchases.specs.Discard.{discard_in, discard_judgement, discard_lines_left, discard_ordered_by};
ghost use Rattle.purchases.specs.Discard.{discarded_by, first_held, has_train, is_no_discard, is_president};
ghost use Rattle.purchases.specs.Discard.{kinds_then, next_discard, presides_then, with_next_discarded};
ghost use Rattle.purchases.specs.Discard.{without_first};
ghost use Rattle.totals.specs.Shares.{president_said};

use history::{Event, GameView, History, Ruling, TrainRule};
use order_grammar::{Order, PlayOrder};
use std::alloc::{AllocError, Global};
use tables::{Company, Kind, Seat, same_kind};

/// Returns the rule that a line DISCARD of a seat breaks; `None` if it breaks none.
pub(crate) fn judge_discard(
    history: &History,
    seat: Seat,
    company: Company,
    kind: Kind,
) -> Option<TrainRule>
    ensures { result ≡ discard_judgement history.now.events seat company kind }
{
    tables::rules! { TrainRule
        NoDiscard: is_no_discard(&history.now(), seat, company, kind),
    }
}

/// Returns whether the seat is not president of the company, or the company has no such train.
fn is_no_discard(view: &GameView, seat: Seat, company: Company, kind: Kind) -> bool
    ensures { result ≡ is_no_discard view.now.events seat company kind }
{
    !is_president(view.president(company), seat) || !has_train(view, company, kind)
}

/// Returns whether a seat presides.
pub fn is_president(president: Option<Seat>, seat: Seat) -> bool
    ensures { result ≡ is_president president seat }
{
    matches!(president, Some(president) if president == seat)
}

/// Returns whether a company has a train of a kind.
pub fn has_train(view: &GameView, company: Company, kind: Kind) -> bool
    ensures { result ≡ has_train view.now.events company kind }
{
    view.trains(Some(company), kind) > 0
}

/// Discards a train of a company, if it has one.
pub(crate) fn discard(
    alloc: Global,
    history: &mut History,
    company: Company,
) -> Result<(), AllocError>
    requires { IsSound history.old }
    ensures after { OnOk result (history.new ≡ with_next_discarded company history.old) }
    ensures sound { OnOk result (IsSound history.new) }
{
    let Some(kind) = next_discard(alloc, history, company)? else {
        return Ok(());
    };
    history.append(Event::Discarded { company, kind })?;
    Ok(())
}

/// Returns the kind that a company discards next: by a line of its president, or else its lowest
/// kind; `None` if it has no train.
fn next_discard(
    alloc: Global,
    history: &History,
    company: Company,
) -> Result<Option<Kind>, AllocError>
    ensures { IfOk result (λ kind. kind ≡ next_discard history.now.events company) }
{
    let now = history.now();
    let lines = discard_lines_left(alloc, &now, company, now.president(company))?;
    match first_held(&now, company, lines.as_slice()) {
        Some(kind) => Ok(Some(kind)),
        None => Ok(first_held(&now, company, &Kind::ALL)),
    }
}

/// Returns the first of these kinds that a company has a train of.
fn first_held(view: &GameView, company: Company, kinds: &[Kind]) -> Option<Kind>
    ensures { result ≡ first_held view.now.events company kinds.now }
{
    for kind in kinds {
        if has_train(view, company, *kind) {
            return Some(*kind);
        }
    }
    None
}

/// Returns the kinds of a president's lines for a company that are still unused in this round, in
/// order. Fails only if allocation fails.
fn discard_lines_left(
    alloc: Global,
    view: &GameView,
    company: Company,
    president: Option<Seat>,
) -> Result<Vec<Kind>, AllocError>
    ensures { IfOk result (λ lines. lines.items
        ≡ discard_lines_left view.now.events company president) }
{
    match president {
        Some(seat) => lines_in(alloc, view.events(), company, seat),
        None => Ok(Vec::new(alloc)),
    }
}

/// Returns the kinds of a seat's lines for a company that are still unused after some events, in
/// order. Fails only if allocation fails.
fn lines_in(
    alloc: Global,
    events: &[Event],
    company: Company,
    seat: Seat,
) -> Result<Vec<Kind>, AllocError>
    ensures { IfOk result (λ lines. lines.items
        ≡ discard_lines_left events.now company (Some seat)) }
{
    let mut lines = Vec::new(alloc);
    let mut presides = false;
    for event in events {
        apply(&mut lines, event, seat, company, presides)?;
        presides = presides_after(presides, event, seat, company);
    }
    Ok(lines)
}

/// Applies an event to the unused lines of a seat for a company, given whether the seat presides.
fn apply(
    lines: &mut Vec<Kind>,
    event: &Event,
    seat: Seat,
    company: Company,
    presides: bool,
) -> Result<(), AllocError>
    ensures { OnOk result (lines.new.items ≡ kinds_then seat company
        (record { presides = presides; kinds = lines.old.items }) event.now) }
{
    if event.round().is_some() {
        lines.clear();
        return Ok(());
    }
    if let Some(kind) = kind_ordered(event, seat, company) {
        lines.push(kind)?;
    }
    match discarded_by(event, company) {
        Some(kind) if presides => remove_first(lines, kind),
        _ => {}
    }
    Ok(())
}

/// Returns whether a seat presides over a company after an event.
fn presides_after(presides: bool, event: &Event, seat: Seat, company: Company) -> bool
    ensures { result ≡ presides_then seat presides
        (president_said company (office_of event.now)) }
{
    match event.office() {
        Some(office) if office.company == company => office.president == seat,
        _ => presides,
    }
}

/// Returns the kind that a company must discard by this obeyed line of a seat.
fn kind_ordered(event: &Event, seat: Seat, company: Company) -> Option<Kind>
    ensures { result ≡ discard_ordered_by seat company (obeyed_of event.now) }
{
    match event {
        Event::Ruled {
            seat: by,
            ruling,
            ..
        } if *by == seat => match ruling.ruling() {
            Ruling::Obeyed { order, .. } => discard_in(&order, company),
            _ => None,
        },
        _ => None,
    }
}

/// Returns the kind that a company must discard by an order.
fn discard_in(order: &Order, company: Company) -> Option<Kind>
    ensures { result ≡ discard_in company order.now }
{
    match order {
        Order::Play(
            PlayOrder::Discard {
                company: other,
                kind,
            },
        ) if *other == company => Some(*kind),
        _ => None,
    }
}

/// Returns the kind that a company discards by an event.
fn discarded_by(event: &Event, company: Company) -> Option<Kind>
    ensures { result ≡ discarded_by company event.now }
{
    match event {
        Event::Discarded {
            company: other,
            kind,
        } if *other == company => Some(*kind),
        _ => None,
    }
}

/// Removes the first of a kind, if there is one.
fn remove_first(lines: &mut Vec<Kind>, kind: Kind)
    ensures { lines.new.items ≡ without_first kind lines.old.items }
{
    let mut place = 0;
    while place < lines.len() {
        if same_kind(lines[place], kind) {
            lines.remove(place);
            return;
        }
        place += 1;
    }
}
