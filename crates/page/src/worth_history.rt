//! What each player was worth and what each share cost after each round.
ghost use Rattle.std.specs.Prelude.{◌≡◌, ◌≤◌, ◌++◌, IfOk, OnOk, length};
ghost use Rattle.page.specs.WorthHistory.{entries_of, entry_of, game_after, noted, prices_in};
ghost use Rattle.page.specs.WorthHistory.{share_price, worth_if, worths_in};

use history::{Event, GameView, History, Walk};
use page_ahead::price_on;
use page_charts::Entry;
use report::player_worth;
use std::alloc::{AllocError, Global};
use tables::{Amount, Company, Money, PerCompany, PerSeat, Round, Seat};

/// Returns the figures of a game after each of its rounds, in order: where the next one begins, and
/// at the end of the game. Fails only if allocation fails.
pub fn entries_of(alloc: Global, history: &History) -> Result<Vec<Entry>, AllocError>
    ensures { IfOk result (λ entries. entries.items ≡ entries_of history.now) }
{
    let mut walk = Walk::along(history.events());
    entries_along(alloc, history.events(), &mut walk, history.seats())
}

/// Returns the figures of the game of these events after each of its rounds. The walk is along
/// them.
#[tactic(auto, unfolding(crate::specs::WorthHistory::entries_of))]
fn entries_along(
    alloc: Global,
    events: &[Event],
    walk: &mut Walk,
    seats: usize,
) -> Result<Vec<Entry>, AllocError>
    requires { walk.old.events.now ≡ events.now }
    ensures { IfOk result (λ entries. entries.items
        ≡ entries_of (record { seats = seats; events = events.now })) }
{
    let mut entries = Vec::new(alloc);
    let mut begun = None;
    for (passed, event) in events.iter().enumerate() {
        if let Some(round) = event.round() {
            note_ended(&mut entries, walk, seats, passed, begun)?;
            begun = Some(round);
        }
    }
    note_ended(&mut entries, walk, seats, events.len(), begun)?;
    Ok(entries)
}

/// Adds the entry of the game after this many events of a walk, where a round has ended, if one had
/// begun.
fn note_ended(
    entries: &mut Vec<Entry>,
    walk: &mut Walk,
    seats: usize,
    passed: usize,
    begun: Option<Round>,
) -> Result<(), AllocError>
    requires { passed ≤ length walk.old.events.now }
    ensures walk { walk.new.events.now ≡ walk.old.events.now }
    ensures noted { OnOk result (entries.new.items ≡ entries.old.items
        ++ noted (game_after seats walk.old.events.now passed) begun) }
{
    walk.go(passed);
    note(entries, &walk.view(seats), begun)
}

/// Adds the entry of a game at the end of a round, if one has begun.
fn note(entries: &mut Vec<Entry>, view: &GameView, begun: Option<Round>) -> Result<(), AllocError>
    ensures { OnOk result (entries.new.items ≡ entries.old.items ++ noted view.now begun) }
{
    if let Some(round) = begun {
        entries.push(entry_of(view, round))?;
    }
    Ok(())
}

/// Returns the entry of a game at the end of a round.
fn entry_of(view: &GameView, round: Round) -> Entry
    ensures { result ≡ entry_of view.now round }
{
    Entry {
        round,
        worths: worths_in(view),
        prices: prices_in(view),
        phase: view.phase(),
    }
}

/// Returns what each player is worth, in dollars, by their seats; 0 for an empty seat.
#[tactic(auto, unfolding(crate::specs::WorthHistory::worths_in))]
fn worths_in(view: &GameView) -> PerSeat<Money>
    ensures { result ≡ worths_in view.now }
{
    [
        worth_if(view, Seat(0)),
        worth_if(view, Seat(1)),
        worth_if(view, Seat(2)),
        worth_if(view, Seat(3)),
        worth_if(view, Seat(4)),
        worth_if(view, Seat(5)),
    ]
}

/// Returns what the player of a seat is worth; 0 for an empty seat.
fn worth_if(view: &GameView, seat: Seat) -> Money
    ensures { result ≡ worth_if view.now seat }
{
    if seat.index() < view.seats() {
        player_worth(view, seat)
    } else {
        0
    }
}

/// Returns the prices of the companies' shares, in the order of the roster.
#[tactic(auto, unfolding(crate::specs::WorthHistory::prices_in))]
fn prices_in(view: &GameView) -> PerCompany<Option<Amount>>
    ensures { result ≡ prices_in view.now.events }
{
    [
        share_price(view, Company::Pennsylvania),
        share_price(view, Company::NewYorkCentral),
        share_price(view, Company::CanadianPacific),
        share_price(view, Company::BaltimoreOhio),
        share_price(view, Company::ChesapeakeOhio),
        share_price(view, Company::Erie),
        share_price(view, Company::NewHaven),
        share_price(view, Company::BostonMaine),
    ]
}

/// Returns the price of a company's share, if its token is on the chart.
fn share_price(view: &GameView, company: Company) -> Option<Amount>
    ensures { result ≡ share_price view.now.events company }
{
    price_on(view.square(company))
}

/// The most rounds that the page shows.
const ROUNDS_MOST: usize = 48;

/// Returns the entries that the page shows: all, or every second, third and so on, and always the
/// last.
pub fn thinned(alloc: Global, entries: &[Entry]) -> Result<Vec<Entry>, AllocError> {
    let step = entries.len().saturating_sub(1) / ROUNDS_MOST + 1;
    let mut kept = Vec::new(alloc);
    for (number, entry) in entries.iter().enumerate() {
        if (entries.len() - number) % step == 1 % step {
            kept.push(*entry)?;
        }
    }
    Ok(kept)
}
