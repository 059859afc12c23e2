//! Which sheets are checked line by line, and, for sheets of rounds that were not played, whether
//! the round can come.
ghost use Rattle.std.specs.Prelude.{◌≡◌};
ghost use Rattle.desk_check.specs.Looked.{is_looked_at};
ghost use Rattle.desk_trials.specs.Heads.{AreKept};

use crate::check_late::Rounds;
use crate::check_reading::look_at_sheet;
use desk_base::{can_come, view_behind};
use desk_trials::{Found, Head, Heads, Matter};
use history::{Event, GameView, Walk};
use rounds::{End, Game};
use std::alloc::AllocError;

/// Finds sheets for rounds that were not played, and what is wrong with the lines of the sheets of
/// the last round that was played and of later ones, or of all sheets.
pub(crate) fn look_at_lines<'a>(
    heads: &Heads<'a>,
    game: &Game,
    rounds: &Rounds,
    all: bool,
    found: &mut Found<'a>,
) -> Result<(), AllocError>
    requires { AreKept heads.now }
{
    let last = game.history().now().round();
    let mut walk = Walk::along(game.history().events());
    let place = place_of_last(game.history().events());
    let before_last = view_behind(&mut walk, place, game.history().seats());
    for head in &heads.heads {
        if !heads.counts(head) {
            continue;
        }
        let is_played = rounds.line(head.sent.round).is_some();
        let is_last = last == Some(head.sent.round);
        let can_come = is_played || find_when(head, game, found)?;
        if can_come && is_looked_at(all, is_played, is_last) {
            look_by_game(head, game, &before_last, is_last, found)?;
        }
    }
    Ok(())
}

/// Finds what is wrong with the lines of a sheet, given the state of the game at the start of its
/// round, if that is known.
fn look_by_game<'a>(
    head: &Head<'a>,
    game: &Game,
    before_last: &GameView,
    is_last: bool,
    found: &mut Found<'a>,
) -> Result<(), AllocError> {
    let version = game.sheets().version();
    if is_last {
        return look_at_sheet(version, Some(before_last), head, found);
    }
    if game.outcome() == End::Awaiting(head.sent.round) {
        let now = game.history().now();
        return look_at_sheet(version, Some(&now), head, found);
    }
    look_at_sheet(version, None, head, found)
}

/// Adds a finding if a sheet is for a round that is not awaited yet, or that cannot come. Returns
/// whether the round can come.
fn find_when<'a>(head: &Head<'a>, game: &Game, found: &mut Found<'a>) -> Result<bool, AllocError> {
    let end = game.outcome();
    if !can_come(game, head.sent.round) {
        found.add(&head.line, Matter::Never(end))?;
        return Ok(false);
    }
    if let End::Awaiting(awaited) = end
        && awaited != head.sent.round
    {
        found.add(&head.line, Matter::Early(awaited))?;
    }
    Ok(true)
}

/// Returns whether the sheets for a round are checked line by line.
fn is_looked_at(all: bool, is_played: bool, is_last: bool) -> bool
    ensures { result ≡ is_looked_at all is_played is_last }
{
    all || !is_played || is_last
}

/// Returns how many events come before the start of the last round.
fn place_of_last(events: &[Event]) -> usize {
    let mut place = 0;
    for (passed, event) in events.iter().enumerate() {
        if matches!(event, Event::Round(_)) {
            place = passed;
        }
    }
    place
}
