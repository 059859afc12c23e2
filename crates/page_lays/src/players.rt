//! What each player may do in the next round, apart from their companies.
ghost use Rattle.std.specs.Prelude.{◌≡◌, ◌≤◌, IfOk};
ghost use Rattle.history.specs.Sound.{IsSound};
ghost use Rattle.page_lays.specs.Players.{ArePlayersIn, AreStandingIn, IsPlayerAt, IsStandingAt};
ghost use Rattle.page_lays.specs.Players.{head_rows};

use history::{Event, History};
use moves::{Row, opening_rows, standing_rows, stock_rows};
use std::alloc::{AllocError, Global};
use tables::{Round, Seat};

/// What a player may do, and may not.
#[derive(Drop)]
pub(crate) struct Player {
    pub(crate) seat: Seat,
    /// The standing lines.
    pub(crate) standing: Vec<Row>,
    /// The lines of a turn of an opening or a stock round; none in an operating round.
    pub(crate) turn: Vec<Row>,
}

/// Returns the standing lines of each player for the next operating round, in the order of the
/// PLAYERS line. Fails only if allocation fails.
pub(crate) fn players_in_operating(
    alloc: Global,
    history: &History,
    round: Round,
) -> Result<Vec<Player>, AllocError>
    requires { history.now.seats ≤ 6 }
    ensures { IfOk result (λ players.
        AreStandingIn round history.now history.now.seats players.items) }
{
    let mut players = Vec::new(alloc);
    for number in 0..history.seats() {
        let player = standing_player(alloc, history, round, Seat::at(number))?;
        players.push(player)?;
    }
    Ok(players)
}

/// Returns the standing lines of a player for the next operating round.
fn standing_player(
    alloc: Global,
    history: &History,
    round: Round,
    seat: Seat,
) -> Result<Player, AllocError>
    ensures { IfOk result (IsStandingAt round history.now seat) }
{
    let standing = standing_rows(alloc, history, seat, round)?;
    Ok(Player {
        seat,
        standing,
        turn: Vec::new(alloc),
    })
}

/// Returns what each player may do at the start of their first turn of the next opening or stock
/// round, in the order of turns, if the players before them pass. Fails only if allocation fails.
pub(crate) fn players_in_turns(
    alloc: Global,
    history: History,
    round: Round,
) -> Result<Vec<Player>, AllocError>
    requires sound { IsSound history }
    requires few { history.seats ≤ 6 }
    ensures { IfOk result (λ players.
        ArePlayersIn round history history.seats players.items) }
{
    let mut history = history;
    let seats = history.seats();
    let mut seat = history.now().priority();
    history.record_event(Event::Round(round))?;
    let mut players = Vec::new(alloc);
    for _ in 0..seats {
        let player = player_at(alloc, &history, round, seat)?;
        players.push(player)?;
        history.record_event(Event::Passes(seat))?;
        seat = seat.left(seats);
    }
    Ok(players)
}

/// Returns what a player may do at the start of their turn.
fn player_at(
    alloc: Global,
    history: &History,
    round: Round,
    seat: Seat,
) -> Result<Player, AllocError>
    ensures { IfOk result (IsPlayerAt round history.now seat) }
{
    let standing = standing_rows(alloc, history, seat, round)?;
    let turn = head_rows(alloc, history, round, seat)?;
    Ok(Player {
        seat,
        standing,
        turn,
    })
}

/// Returns the orders of a player's turn at its head.
fn head_rows(
    alloc: Global,
    history: &History,
    round: Round,
    seat: Seat,
) -> Result<Vec<Row>, AllocError>
    ensures { IfOk result (λ rows. rows.items ≡ head_rows history.now round seat) }
{
    match round {
        Round::Opening(_) => opening_rows(alloc, history, seat, false),
        Round::Stock(_) | Round::Operating { .. } => stock_rows(alloc, history, seat, None),
    }
}
