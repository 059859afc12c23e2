//! Calls on a whole game: appending events, playing rounds.

use crate::call::{Call, made};
use crate::fault::OutcomeFault;
use crate::outcome::Outcome;
use best_run::Search;
use history::{Event, History, Holder, Party};
use map_tables::{Hex, Lay, Rotation, TileNo};
use rounds::{End, Play, PlayFault, Step, play, play_with};
use sheets::Sheets;
use std::rt::Runtime;
use tables::{Company, Money, Private, Round, Seat};

const ANN: Holder = Holder::Seat(Seat(0));

/// How many events are added; a list grows several times for this many.
const MANY: usize = 20;

/// Adds events one after another. If one fails, the game has those before it.
pub fn appends(rt: &HostRuntime) -> Result<Outcome, OutcomeFault> {
    let mut game = History::start(rt.alloc(), 3);
    Call::Append.begin(rt)?;
    let count = append_many(&mut game);
    made(rt)?;
    // Every second event pays ANN 5.
    let paid = (count.saturating_add(1) / 2).saturating_mul(5);
    let are_as_owed = game.events().len() == count
        && game.lays().len() == count / 2
        && game.cash(Party::Holder(ANN)) == (paid as Money).saturating_add(800);
    Ok(if count == MANY {
        Outcome::of_answer(are_as_owed)
    } else {
        Outcome::of_refusal(are_as_owed)
    })
}

/// Adds events up to the first that fails: SV's revenue for ANN, and tiles that PRR lays, in turn.
/// Returns how many were added.
fn append_many(game: &mut History) -> usize {
    for count in 0..MANY {
        let event = event(count % 2 == 0);
        if !game.has_room(&event) || game.append(event).is_err() {
            return count;
        }
    }
    MANY
}

/// Returns SV's revenue, or a tile.
fn event(is_revenue: bool) -> Event {
    if is_revenue {
        return Event::Revenue {
            private: Private::SchuylkillValley,
            owner: ANN,
            amount: 5,
        };
    }
    Event::Laid {
        company: Company::Pennsylvania,
        lay: Lay {
            hex: Hex::H10,
            tile: TileNo::T57,
            rot: Rotation::One,
            swap: false,
        },
        cost: 0,
    }
}

/// Plays the first game, or the same with a condition on its order.
pub fn plays(rt: &HostRuntime, sheets: &Sheets, call: Call) -> Result<Outcome, OutcomeFault> {
    call.begin(rt)?;
    let answer = play(rt.alloc(), sheets);
    made(rt)?;
    Ok(match answer {
        Ok(game) => Outcome::of_answer(game.outcome() == End::Awaiting(Round::Opening(2))),
        Err(_) => Outcome::of_refusal(true),
    })
}

/// Plays the script with the runner that searches: PRR earns 30, and ANN gets 9 of it.
pub fn plays_with(rt: &HostRuntime, sheets: &Sheets) -> Result<Outcome, OutcomeFault> {
    let mut search = Search::new(rt.alloc());
    Call::PlayWith.begin(rt)?;
    let answer = play_with(rt.alloc(), sheets, &mut search);
    made(rt)?;
    Ok(match answer {
        Ok(game) => Outcome::of_answer(game.history().cash(Party::Holder(ANN)) == 528),
        Err(fault) => Outcome::of_refusal(fault == PlayFault::Memory),
    })
}

/// Plays one more round of the script, after this many. If that fails, play is broken off, and the
/// next step returns the same error.
pub fn steps(
    rt: &HostRuntime,
    sheets: &Sheets,
    call: Call,
    before: usize,
) -> Result<Outcome, OutcomeFault> {
    let mut search = Search::new(rt.alloc());
    let mut play = Play::start(rt.alloc(), sheets)?;
    for _ in 0..before {
        if !has_stepped(&mut play, &mut search) {
            return Err(OutcomeFault::Position);
        }
    }
    steps_on(rt, &mut play, &mut search, call)
}

/// Plays one more round.
fn steps_on(
    rt: &HostRuntime,
    play: &mut Play,
    search: &mut Search,
    call: Call,
) -> Result<Outcome, OutcomeFault> {
    let last = play.last_round();
    call.begin(rt)?;
    let is_played = has_stepped(play, search);
    made(rt)?;
    Ok(if is_played {
        Outcome::of_answer(play.last_round() != last && play.history().is_some())
    } else {
        Outcome::of_refusal(is_broken_off(play, search, last))
    })
}

/// Plays a round. Returns whether it was played.
pub fn has_stepped(play: &mut Play, search: &mut Search) -> bool {
    matches!(play.step(search), Ok(Step::Played(_)))
}

/// Returns whether play was broken off for a failed allocation after a round.
fn is_broken_off(play: &mut Play, search: &mut Search, last: Option<Round>) -> bool {
    play.last_round() == last
        && play.outcome().is_none()
        && play.history().is_none()
        && matches!(play.step(search), Err(PlayFault::Memory))
}
