//! The one way from a moment to the game at that moment.
//!
//! A text of the desk is made in three steps: `sheets::collect` reads the file, `position_at` (or
//! `played_round`, if the text is about a round) leads to the moment, and the rest is layout.
ghost use Rattle.std.specs.Prelude.{◌≡◌, IfErr, IfOk, Some, length};
ghost use Rattle.desk_base.specs.Played.{IsMomentFault, IsRoundFault, ShowsNone, moment_after};
ghost use Rattle.desk_base.specs.Positions.{IsAt, IsLastRound, IsPlayedRound, StandsAt};
ghost use Rattle.desk_base.specs.declared.between_rounds.Moment.TheVariants.{After, Before, BeforeLast, Last};
ghost use Rattle.history.specs.Sound.{IsSound};
ghost use Rattle.sheets.specs.File.{players_of};

use crate::between_rounds::{Moment, Stood, play_before, play_behind, stood_now};
use crate::fault::DeskFault;
use crate::set_number::number_in_set;
use history::History;
use rounds::{End, Play, play};
use sheets::Sheets;
use std::alloc::{AllocError, Global};
use tables::Round;

/// A game at a moment between two rounds.
#[derive(Drop)]
pub struct Position<'a> {
    /// The sheets of the whole game.
    pub sheets: &'a Sheets<'a>,
    /// The events so far.
    pub history: History,
    /// The next round, or how the game ended.
    pub end: End,
    /// The number of operating rounds of the set, or of the set that the next round begins.
    pub in_set: u8,
}

/// A round that was played, and the position after it.
#[derive(Drop)]
pub struct PlayedRound<'a> {
    /// The round.
    pub round: Round,
    /// The position after it: its events are the last there.
    pub position: Position<'a>,
}

impl Moment {
    /// Returns the moment after the named round, or if none is named after the last one played.
    pub fn after(asked: Option<Round>) -> Moment
        ensures { result ≡ moment_after asked }
    {
        match asked {
            Some(round) => Moment::After(round),
            None => Moment::Last,
        }
    }
}

impl<'a> Position<'a> {
    /// Returns the position as the desk's layouts read it.
    pub fn stood<'s>(&'s self) -> Stood<'s>
        ensures sheets { result.sheets.now ≡ self.now.sheets.now }
        ensures history { result.history.now ≡ self.now.history }
        ensures end { result.end ≡ self.now.end }
        ensures in_set { result.in_set ≡ self.now.in_set }
    {
        Stood {
            sheets: self.sheets,
            history: &self.history,
            end: self.end,
            in_set: self.in_set,
        }
    }
}

/// Returns the game of some sheets at a moment. Fails with `Round` if the moment names a round that
/// was not played, or is `BeforeLast` and no round was, and with `Memory` if allocation fails.
pub fn position_at<'a>(
    alloc: Global,
    sheets: &'a Sheets<'a>,
    moment: Moment,
) -> Result<Position<'a>, DeskFault>
    ensures at { IfOk result (IsAt sheets.now moment) }
    ensures sound { IfOk result (λ position. IsSound position.history) }
    ensures seats { IfOk result (λ position.
        position.history.seats ≡ length (players_of position.sheets.now)) }
    ensures fault { IfErr result (IsMomentFault sheets.now moment) }
{
    match moment {
        Moment::Last => Ok(position_at_last(alloc, sheets)?),
        Moment::After(round) => position_after(alloc, sheets, round),
        Moment::Before(round) => position_before(alloc, sheets, round),
        Moment::BeforeLast => position_before_last(alloc, sheets),
    }
}

/// Returns the named round of the game of some sheets, or if none is named the last one played,
/// with the position after it. Fails with `Round` if that round was not played, or no round was,
/// and with `Memory` if allocation fails.
#[tactic(auto, using(crate::proofs::PositionLemmas::is_played_round, crate::proofs::PositionLemmas::no_round_there, crate::proofs::PositionLemmas::no_round_at_moment))]
pub fn played_round<'a>(
    alloc: Global,
    sheets: &'a Sheets<'a>,
    asked: Option<Round>,
) -> Result<PlayedRound<'a>, DeskFault>
    ensures round { IfOk result (IsPlayedRound sheets.now asked) }
    ensures sound { IfOk result (λ its. IsSound its.position.history) }
    ensures seats { IfOk result (λ its.
        its.position.history.seats ≡ length (players_of its.position.sheets.now)) }
    ensures fault { IfErr result (IsRoundFault sheets.now asked) }
{
    // A law, which does nothing when it runs.
    rounds::laws::rounds_only_add();
    let position = position_at(alloc, sheets, Moment::after(asked))?;
    match position.history.now().round() {
        Some(round) => Ok(PlayedRound { round, position }),
        None => Err(DeskFault::Round),
    }
}

/// Returns the position after the last round that some sheets play.
#[tactic(auto, using(crate::proofs::PositionLemmas::is_at_last))]
fn position_at_last<'a>(alloc: Global, sheets: &'a Sheets<'a>) -> Result<Position<'a>, AllocError>
    ensures at { IfOk result (IsAt sheets.now Last) }
    ensures sound { IfOk result (λ position. IsSound position.history) }
    ensures seats { IfOk result (λ position.
        position.history.seats ≡ length (players_of position.sheets.now)) }
{
    let game = play(alloc, sheets)?;
    let in_set = number_in_set(&game);
    let end = game.outcome();
    Ok(Position {
        sheets,
        history: game.into_history(),
        end,
        in_set,
    })
}

/// Returns the position after a round.
#[tactic(auto, using(crate::proofs::PositionLemmas::is_at_after, crate::proofs::PositionLemmas::shown_after, crate::proofs::PlayedLemmas::no_moment_behind))]
fn position_after<'a>(
    alloc: Global,
    sheets: &'a Sheets<'a>,
    round: Round,
) -> Result<Position<'a>, DeskFault>
    ensures at { IfOk result (IsAt sheets.now (After round)) }
    ensures sound { IfOk result (λ position. IsSound position.history) }
    ensures seats { IfOk result (λ position.
        position.history.seats ≡ length (players_of position.sheets.now)) }
    ensures fault { IfErr result (IsMomentFault sheets.now (After round)) }
{
    let play = play_behind(alloc, sheets, round)?;
    position_of(play)
}

/// Returns the position before a round that was played.
#[tactic(auto, using(crate::proofs::PositionLemmas::is_at_before, crate::proofs::PositionLemmas::shown_before, crate::proofs::PlayedLemmas::no_moment_before))]
fn position_before<'a>(
    alloc: Global,
    sheets: &'a Sheets<'a>,
    round: Round,
) -> Result<Position<'a>, DeskFault>
    ensures at { IfOk result (IsAt sheets.now (Before round)) }
    ensures sound { IfOk result (λ position. IsSound position.history) }
    ensures seats { IfOk result (λ position.
        position.history.seats ≡ length (players_of position.sheets.now)) }
    ensures fault { IfErr result (IsMomentFault sheets.now (Before round)) }
{
    let play = play_before(alloc, sheets, round)?;
    position_of(play)
}

/// Returns the position before the last round that some sheets play.
#[tactic(auto, using(crate::proofs::PositionLemmas::is_at_before_last, crate::proofs::PositionLemmas::no_moment_before_last, crate::proofs::PlayedLemmas::no_moment_before_any))]
fn position_before_last<'a>(
    alloc: Global,
    sheets: &'a Sheets<'a>,
) -> Result<Position<'a>, DeskFault>
    ensures at { IfOk result (IsAt sheets.now BeforeLast) }
    ensures sound { IfOk result (λ position. IsSound position.history) }
    ensures seats { IfOk result (λ position.
        position.history.seats ≡ length (players_of position.sheets.now)) }
    ensures fault { IfErr result (IsMomentFault sheets.now BeforeLast) }
{
    // A law, which does nothing when it runs.
    rounds::laws::one_game();
    let last = last_round(alloc, sheets)?;
    position_before(alloc, sheets, last)
}

/// Returns the last round that some sheets play. Fails with `Round` if they play none.
#[tactic(auto, using(crate::proofs::PositionLemmas::is_last_round, crate::proofs::PlayedLemmas::none_was_played))]
fn last_round(alloc: Global, sheets: &Sheets) -> Result<Round, DeskFault>
    ensures last { IfOk result (IsLastRound sheets.now) }
    ensures fault { IfErr result (IsRoundFault sheets.now None) }
{
    let game = play(alloc, sheets)?;
    match game.history().now().round() {
        Some(round) => Ok(round),
        None => Err(DeskFault::Round),
    }
}

/// Returns the position to which a game was played. Fails with `Round` once a fault has stopped
/// play.
#[tactic(auto, using(crate::proofs::PositionLemmas::stands_at, crate::proofs::PositionLemmas::unbroken))]
fn position_of<'a>(play: Play<'a>) -> Result<Position<'a>, DeskFault>
    ensures at { IfOk result (StandsAt play.entry) }
    ensures sound { IfOk result (λ position. IsSound position.history) }
    ensures seats { IfOk result (λ position.
        position.history.seats ≡ length (players_of position.sheets.now)) }
    ensures fault { IfErr result (ShowsNone play.entry) }
{
    let (end, in_set) = match stood_now(&play) {
        Some(stood) => (stood.end, stood.in_set),
        None => return Err(DeskFault::Round),
    };
    Ok(Position {
        sheets: play.sheets(),
        history: play.into_history(),
        end,
        in_set,
    })
}
