//! A coming opening or stock round, up to a seat's first turn: to its head, or past its lines.
ghost use Rattle.std.specs.Prelude.{◌≡◌, ◌++◌, ◌≤◌, ◌<◌, ◌∷◌, [], IfOk, length, true};
ghost use Rattle.events.specs.declared.event.Event.TheVariants as event;
ghost use Rattle.foresight.specs.FirstTurn.{IsTheirTurn};
ghost use Rattle.foresight.specs.Turn.{IsAtHead, IsBehindOpening, IsBehindOpeningIf, IsBehindStock, may_begin, waits};
ghost use Rattle.history.specs.Sound.{IsSound};
ghost use Rattle.sheets.specs.File.{players_of};
ghost use Rattle.totals.specs.LookBack.{priority_of};

use crate::first_turn::play_first_turn;
use history::{Event, History};
use privates::OpeningTurns;
use sheets::Sheets;
use std::alloc::AllocError;
use stock_round::StockTurns;
use tables::{Company, Private, Round, Seat};

/// A seat's first turn of a coming opening or stock round, at its head or after the lines of the
/// seat's own sheet.
#[derive(Drop)]
pub struct TurnAhead {
    /// The game so far.
    pub history: History,
    /// Whether the seat has bought or bid in the turn of an opening.
    pub used: bool,
    /// The company of which the seat has bought in the turn of a stock round, if of any.
    pub bought: Option<Company>,
}

/// Returns a seat's first turn at its head, in the coming opening or stock round: each seat before
/// it has passed. The list of events must be sound, its seats at most six, and the seat at
/// the table. Fails only if allocation fails.
pub fn at_head(history: History, round: Round, seat: Seat) -> Result<TurnAhead, AllocError>
    requires sound { IsSound history }
    requires few { history.seats ≤ 6 }
    requires at_table { seat.0 < history.seats }
    ensures { IfOk result (IsAtHead round seat history) }
{
    let history = at_turn(history, round, seat)?;
    Ok(TurnAhead {
        history,
        used: false,
        bought: None,
    })
}

/// Returns a game at the start of a seat's first turn.
fn at_turn(history: History, round: Round, seat: Seat) -> Result<History, AllocError>
    requires sound { IsSound history }
    requires few { history.seats ≤ 6 }
    requires at_table { seat.0 < history.seats }
    ensures seats { IfOk result (λ new. new.seats ≡ history.seats) }
    ensures turn { IfOk result (λ new. IsTheirTurn history.seats
        (priority_of history.seats history.events) seat
        (history.events ++ event.Round round ∷ []) new.events) }
{
    let mut history = history;
    let seats = history.seats();
    let mut next = history.now().priority();
    history.record_event(Event::Round(round))?;
    while next.index() != seat.index() {
        history.record_event(Event::Passes(next))?;
        next = next.left(seats);
    }
    Ok(history)
}

/// Returns a seat's first turn of the coming opening, after its lines in the seat's own sheet: the
/// standing lines of the sheet are ruled, and each seat before it has passed. `None` if no opening
/// can begin, since PRR or BO is started before the private that brings it is sold; no game comes
/// to that. The list of events must be sound, its seats those of the sheets' players, and the seat
/// at the table. Fails only if allocation fails.
pub fn behind_opening(
    history: History,
    sheets: &Sheets,
    round: Round,
    seat: Seat,
) -> Result<Option<TurnAhead>, AllocError>
    requires sound { IsSound history }
    requires seats { history.seats ≡ length (players_of sheets.now) }
    requires at_table { seat.0 < history.seats }
    ensures { IfOk result (IsBehindOpeningIf (may_begin history.events) sheets.now round seat
        history) }
{
    if !may_begin(&history) {
        return Ok(None);
    }
    let turn = behind_opening_begun(history, sheets, round, seat)?;
    Ok(Some(turn))
}

/// Returns whether an opening can begin: PRR and BO wait for the privates that bring them.
fn may_begin(history: &History) -> bool
    ensures { result ≡ may_begin history.now.events }
{
    waits(history, Private::CamdenAmboy, Company::Pennsylvania)
        && waits(history, Private::BaltimoreOhio, Company::BaltimoreOhio)
}

/// Returns whether a company has no square unless a private is sold.
fn waits(history: &History, private: Private, company: Company) -> bool
    ensures { result ≡ waits history.now.events private company }
{
    let now = history.now();
    now.is_sold(private) || now.square(company).is_none()
}

/// Returns a seat's first turn of an opening that can begin, after its lines.
fn behind_opening_begun(
    history: History,
    sheets: &Sheets,
    round: Round,
    seat: Seat,
) -> Result<TurnAhead, AllocError>
    requires sound { IsSound history }
    requires seats { history.seats ≡ length (players_of sheets.now) }
    requires at_table { seat.0 < history.seats }
    requires may_begin { may_begin history.events ≡ true }
    ensures { IfOk result (IsBehindOpening sheets.now round seat history) }
{
    let mut history = history;
    let used = play_first_turn(&OpeningTurns, &mut history, sheets, round, seat)?;
    Ok(TurnAhead {
        history,
        used,
        bought: None,
    })
}

/// Returns a seat's first turn of the coming stock round, after its lines in the seat's own sheet:
/// each seat before it has passed. The list of events must be sound, its seats those of the sheets'
/// players, and the seat at the table. Fails only if allocation fails.
pub fn behind_stock(
    history: History,
    sheets: &Sheets,
    round: Round,
    seat: Seat,
) -> Result<TurnAhead, AllocError>
    requires sound { IsSound history }
    requires seats { history.seats ≡ length (players_of sheets.now) }
    requires at_table { seat.0 < history.seats }
    ensures { IfOk result (IsBehindStock sheets.now round seat history) }
{
    let mut history = history;
    let deals = play_first_turn(&StockTurns, &mut history, sheets, round, seat)?;
    Ok(TurnAhead {
        history,
        used: false,
        bought: deals.bought,
    })
}
