//! What is asked of a game before the coming round.
ghost use Rattle.std.specs.Prelude.{◌≡◌, IfOk, Some};
ghost use Rattle.desk_moves.specs.Answers.{drafter_for};
ghost use Rattle.rounds.specs.declared.game.End.TheVariants.{Awaiting};
ghost use Rattle.totals.specs.Shares.{president_of};

use crate::fault::{MovesFault, NoAnswer};
use desk_base::{Position, owes};
use rounds::End;
use tables::{Company, Round, Seat};

/// Returns the coming round. Fails with `GameOver` if there is none.
pub(crate) fn coming_round(coming: &Position) -> Result<Round, MovesFault>
    ensures { IfOk result (λ round. coming.now.end ≡ Awaiting round) }
{
    match coming.end {
        End::Awaiting(round) => Ok(round),
        End::Bank | End::Bankrupt => Err(MovesFault::Asked(NoAnswer::GameOver)),
    }
}

/// Returns the president of a company, who gives its orders. Fails with `NotStarted` or
/// `NoPresident` if it has none.
pub(crate) fn president_in(coming: &Position, company: Company) -> Result<Seat, MovesFault>
    ensures { IfOk result (λ seat.
        president_of coming.now.history.events company ≡ Some seat) }
{
    let view = coming.history.now();
    if !view.is_started(company) {
        return Err(MovesFault::Asked(NoAnswer::NotStarted));
    }
    match view.president(company) {
        Some(seat) => Ok(seat),
        None => Err(MovesFault::Asked(NoAnswer::NoPresident)),
    }
}

/// Returns a seat whose own sheet for the round is to be looked at. Fails with `NoDraft` if it
/// has none, and with `GameOver` if no round follows.
pub(crate) fn drafter_in(coming: &Position, seat: Seat) -> Result<Seat, MovesFault>
    ensures { IfOk result (λ drafter. drafter ≡ seat) }
{
    if owes(coming.sheets, seat, &coming_round(coming)?) {
        return Err(MovesFault::Asked(NoAnswer::NoDraft));
    }
    Ok(seat)
}

/// Returns the seat if its own sheet is to be looked at, and `None` otherwise. The errors are
/// those of `drafter_in`.
pub(crate) fn drafter_if(
    coming: &Position,
    drafted: bool,
    seat: Seat,
) -> Result<Option<Seat>, MovesFault>
    ensures { IfOk result (λ drafter. drafter ≡ drafter_for drafted (Some seat)) }
{
    if drafted {
        Ok(Some(drafter_in(coming, seat)?))
    } else {
        Ok(None)
    }
}
