//! What may be done in the next round.
ghost use Rattle.std.specs.Prelude.{◌≡◌, IfErr, IfOk, length};
ghost use Rattle.desk_base.specs.Played.{IsMomentFault, moment_after};
ghost use Rattle.history.specs.Sound.{IsSound};
ghost use Rattle.page_lays.specs.NextRound.{IsMayIn, IsMayNext};
ghost use Rattle.sheets.specs.File.{players_of};

use crate::company_turns::{Turn, Wanted, turns_of};
use crate::groups::Of;
use crate::offers::presidents;
use crate::players::{Player, players_in_operating, players_in_turns};
use desk_base::{DeskFault, Moment, Position, position_at};
use desk_may::Progress;
use page_map::Scene;
use rounds::End;
use sheets::Sheets;
use std::alloc::{AllocError, Global};
use tables::{Round, Seat};

/// What may be done in the next round.
#[derive(Drop)]
pub(crate) struct May {
    pub(crate) round: Round,
    /// Who presides over each company at its start, in roster order.
    pub(crate) presidents: Vec<Option<Seat>>,
    pub(crate) players: Vec<Player>,
    /// The turns of companies.
    pub(crate) turns: Vec<Turn>,
}

impl May {
    /// Returns the place of a seat's lines on the page.
    pub(crate) fn of<'p, 's, 'n>(&'p self, scene: &'s Scene<'n>, seat: Seat) -> Of<'p, 's, 'n>
        ensures seat { result.seat ≡ seat }
        ensures round { result.round ≡ self.now.round }
        ensures presidents { result.presidents.now ≡ self.now.presidents.items }
    {
        Of {
            scene,
            seat,
            round: self.round,
            presidents: self.presidents.as_slice(),
        }
    }
}

/// Returns what may be done in the round that comes; `None` if the game is over. Fails with `Round`
/// if the named round was not played, and with `Memory` if allocation fails.
#[tactic(auto, using(crate::proofs::NextRoundLemmas::is_may_next, crate::proofs::NextRoundLemmas::is_over))]
pub(crate) fn may_in<P: Progress>(
    alloc: Global,
    sheets: &Sheets,
    wanted: Wanted,
    progress: &mut P,
) -> Result<Option<May>, DeskFault>
    ensures may { let wanted = wanted.entry in
        IfOk result (IsMayNext sheets.now wanted.after wanted.companies.now) }
    ensures fault { IfErr result (IsMomentFault sheets.now (moment_after wanted.entry.after)) }
{
    let coming = position_at(alloc, sheets, Moment::after(wanted.after))?;
    match coming.end {
        End::Awaiting(round) => Ok(Some(may_before(alloc, coming, round, wanted, progress)?)),
        End::Bank | End::Bankrupt => Ok(None),
    }
}

/// Returns what may be done in the next round of a game. Fails only if allocation fails.
fn may_before<P: Progress>(
    alloc: Global,
    coming: Position,
    round: Round,
    wanted: Wanted,
    progress: &mut P,
) -> Result<May, AllocError>
    requires sound { IsSound coming.history }
    requires seats { coming.history.seats ≡ length (players_of coming.sheets.now) }
    ensures { let before = coming.entry in let companies = wanted.entry.companies.now in
        IfOk result (IsMayIn companies round before.sheets.now before.history) }
{
    // For the proof only: the seats are at most six.
    let _few = coming.sheets.seats();
    let presidents = presidents(alloc, &coming.history)?;
    match round {
        Round::Operating { .. } => {
            let players = players_in_operating(alloc, &coming.history, round)?;
            let turns = turns_of(alloc, coming, round, wanted, progress)?;
            Ok(May {
                round,
                presidents,
                players,
                turns,
            })
        }
        Round::Opening(_) | Round::Stock(_) => {
            let players = players_in_turns(alloc, coming.history, round)?;
            Ok(May {
                round,
                presidents,
                players,
                turns: Vec::new(alloc),
            })
        }
    }
}
