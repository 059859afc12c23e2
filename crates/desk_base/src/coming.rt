//! Which rounds can still come in a game.
ghost use Rattle.std.specs.Prelude.{◌≡◌, false};
ghost use Rattle.desk_base.specs.Coming.{NeverComes, can_come, may_come, may_follow, set_of};

use crate::set_number::number_after;
use rounds::{End, Game};
use tables::{OPERATING_MOST, Round};

/// Returns whether a round that was not played can still come in a game. If it returns false, the
/// round never comes, whatever sheets are sent.
pub fn can_come(game: &Game, round: Round) -> bool
    ensures value { result ≡ can_come game.now.end game.now.game.events round }
    ensures never { result ≡ false → NeverComes game.now round }
{
    // Laws, which do nothing when they run.
    rounds::laws::rounds_only_add();
    sheets::laws::sheets_are_numbered();
    sheets::laws::three_to_six_play();
    may_be_ahead(game, round)
}

/// Returns whether a round that was not played may come after the point where a game has stopped.
fn may_be_ahead(game: &Game, round: Round) -> bool
    ensures { result ≡ can_come game.now.end game.now.game.events round }
{
    match game.outcome() {
        End::Awaiting(awaited) => {
            let in_set = number_after(game.history(), game.outcome());
            may_follow(awaited, in_set, game.history().broken(), round)
        }
        End::Bank | End::Bankrupt => false,
    }
}

/// Returns whether a round may be the awaited one or come after it. The set of the awaited round
/// has this many operating rounds, and no other set follows if the bank is broken.
fn may_follow(awaited: Round, in_set: u8, broken: bool, round: Round) -> bool
    ensures { result ≡ may_follow awaited in_set broken round }
{
    !round.is_before(awaited) && may_come(set_of(awaited), in_set, broken, round)
}

/// Returns whether a round may still come that is not before the awaited one, given the awaited
/// round's set and its number of operating rounds.
fn may_come(set: u32, in_set: u8, broken: bool, round: Round) -> bool
    ensures { result ≡ may_come set in_set broken round }
{
    match round {
        Round::Opening(_) => true,
        Round::Stock(its) => its <= set || !broken,
        Round::Operating { set: its, number } => {
            let most = if its == set { in_set } else { OPERATING_MOST };
            number <= most && (its <= set || !broken)
        }
    }
}

/// Returns the set of a round; for an opening the first set, which follows it.
fn set_of(round: Round) -> u32
    ensures { result ≡ set_of round }
{
    match round {
        Round::Opening(_) => 1,
        Round::Stock(set) | Round::Operating { set, .. } => set,
    }
}
