//! The game of a file, with a round that it played.
ghost use Rattle.std.specs.Prelude.{◌≡◌, IfErr, IfOk, true};
ghost use Rattle.desk_base.specs.Played.{IsRoundFault};
ghost use Rattle.desk_round.specs.RoundPart.{IsRoundOfGame};

use desk_base::{DeskFault, round_asked, was_played};
use rounds::{Game, play};
use sheets::Sheets;
use std::alloc::Global;
use tables::Round;

/// A game, and a round that it played.
#[derive(Drop)]
pub(crate) struct RoundOfGame<'a> {
    pub(crate) game: Game<'a>,
    pub(crate) round: Round,
}

/// Returns the game of some sheets with the named round, or if none is named with the last one
/// played. Fails with `Round` if that round was not played, or no round was, and with `Memory` if
/// allocation fails.
#[tactic(auto, using(desk_base::proofs::PlayedLemmas::round_was_not_played, crate::proofs::RoundParts::is_round_of_game))]
pub(crate) fn round_of_game<'a>(
    alloc: Global,
    sheets: &'a Sheets<'a>,
    asked: Option<Round>,
) -> Result<RoundOfGame<'a>, DeskFault>
    ensures round { IfOk result (IsRoundOfGame sheets.now asked) }
    ensures fault { IfErr result (IsRoundFault sheets.now asked) }
{
    let game = play(alloc, sheets)?;
    let Some(round) = round_asked(&game, asked) else {
        return Err(DeskFault::Round);
    };
    if !was_played(game.history().events(), round) {
        return Err(DeskFault::Round);
    }
    Ok(RoundOfGame { game, round })
}
