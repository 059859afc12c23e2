//! The map in a state of a game, and the best runs of a company's trains there.
ghost use Rattle.std.specs.Prelude.{◌≡◌, ◌++◌, ◌≤◌, IfOk, OnOk, length, replicate, take};
ghost use Rattle.legal_runs.specs.Claim.{ClaimHolds};
ghost use Rattle.legal_runs.specs.Set.{IsGreatest};
ghost use Rattle.desk_base.specs.Laid.{laid_then};
ghost use Rattle.totals.specs.Trains.{at_least_zero};
ghost use Rattle.operating.specs.MapState.{map_state_now, position_now};
ghost use Rattle.operating.specs.RunBest.{trains_now};

use best_run::best;
use board::Board;
use history::{Event, GameView, TrainCount, Walk, at_least_zero};
use legal_runs::Claim;
use std::alloc::{AllocError, Global};
use tables::{Company, Kind, Money};

/// Returns the view of a game of this many seats after this many events of a walk. If the walk has
/// fewer events, it returns the view where the walk is. (Callers count events, so it has as many.)
pub fn view_behind<'a>(walk: &'a mut Walk, passed: usize, seats: usize) -> GameView<'a>
    ensures seats { result.seats ≡ seats }
    ensures events { passed ≤ length walk.old.events.now →
        result.events ≡ take passed walk.old.events.now }
{
    go_behind(walk, passed);
    walk.view(seats)
}

/// Goes to the place after this many events of a walk, if it has as many.
fn go_behind(walk: &mut Walk, passed: usize)
    ensures events { walk.new.events.now ≡ walk.old.events.now }
    ensures passed { passed ≤ length walk.old.events.now → walk.new.passed ≡ passed }
{
    if passed <= walk.events.len() {
        walk.go(passed);
    }
}

/// Returns the board of a game. Fails only if allocation fails.
pub fn board_at(alloc: Global, view: &GameView) -> Result<Board, AllocError>
    ensures { IfOk result (λ board. board ≡ map_state_now view.now.events) }
{
    let mut board = Board::empty(alloc, view.phase());
    for event in view.events() {
        lay(&mut board, event)?;
    }
    Ok(board)
}

/// Lays the tile or the token of an event on a board.
fn lay(board: &mut Board, event: &Event) -> Result<(), AllocError>
    ensures { OnOk result (board.new ≡ laid_then board.old event.now) }
{
    if let Some(lay) = event.lay() {
        board.put_lay(lay)?;
    }
    if let Some((place, company)) = event.token() {
        board.put_token(place, company)?;
    }
    Ok(())
}

/// Returns the best runs of a company's trains in this state of the game, with what they earn, in
/// dollars. Fails only if allocation fails.
pub fn best_at(alloc: Global, view: &GameView, company: Company) -> Result<Claim, AllocError>
    ensures holds { let events = view.now.events in
        IfOk result (ClaimHolds (position_now events) company (trains_now events company)) }
    ensures greatest { let events = view.now.events in
        IfOk result (λ claim.
        IsGreatest (position_now events) company (trains_now events company) claim.revenue) }
{
    let board = board_at(alloc, view)?;
    let trains = trains_of(alloc, view, company)?;
    let found = best(alloc, &board, company, trains.as_slice())?;
    Ok(found.claim)
}

/// Returns the trains of a company, kind by kind. Fails only if allocation fails.
pub fn trains_of(alloc: Global, view: &GameView, company: Company) -> Result<Vec<Kind>, AllocError>
    ensures { IfOk result (λ trains. trains.items ≡ trains_now view.now.events company) }
{
    let mut trains = Vec::new(alloc);
    for &kind in &Kind::ALL {
        push_trains(&mut trains, kind, view.trains(Some(company), kind))?;
    }
    Ok(trains)
}

/// Adds this many trains of a kind at the end; adds none if the number is negative.
fn push_trains(trains: &mut Vec<Kind>, kind: Kind, count: TrainCount) -> Result<(), AllocError>
    ensures { OnOk result (trains.new.items
        ≡ trains.old.items ++ replicate (at_least_zero count) kind) }
{
    for _ in 0..at_least_zero(Money::from(count)) {
        trains.push(kind)?;
    }
    Ok(())
}
