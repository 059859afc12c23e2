//! The token of a company moves over the chart, and each move to another square is recorded.
ghost use Rattle.std.specs.Prelude.{◌≡◌, OnOk};
ghost use Rattle.market.specs.Moves.{fallen, square_left_of, right_of, up_of};
ghost use Rattle.market.specs.Token.{moved_to, token_moved};
ghost use Rattle.totals.specs.LookBack.{with_events};

use crate::moves::{fall, left, right, up};
use history::{Event, History};
use std::alloc::AllocError;
use tables::{Company, Square};

/// Moves a company's token right, and records it if the token reaches another square. Fails only if
/// allocation fails.
pub fn move_token_right(history: &mut History, company: Company) -> Result<(), AllocError>
    ensures { OnOk result (history.new ≡ token_moved right_of history.old company) }
{
    match history.square(company) {
        Some(square) => move_token(history, company, square, right(square)),
        None => Ok(()),
    }
}

/// Moves a company's token left, and records it if the token reaches another square. Fails only if
/// allocation fails.
pub fn move_token_left(history: &mut History, company: Company) -> Result<(), AllocError>
    ensures { OnOk result (history.new ≡ token_moved square_left_of history.old company) }
{
    match history.square(company) {
        Some(square) => move_token(history, company, square, left(square)),
        None => Ok(()),
    }
}

/// Moves a company's token up, if there is a square, and records that. Fails only if allocation
/// fails.
pub fn move_token_up(history: &mut History, company: Company) -> Result<(), AllocError>
    ensures { OnOk result (history.new ≡ token_moved up_of history.old company) }
{
    match history.square(company) {
        Some(square) => move_token(history, company, square, up(square)),
        None => Ok(()),
    }
}

/// Moves a company's token down this many squares, or as far as there are squares, and records that
/// as one move. Fails only if allocation fails.
pub fn move_token_down(
    history: &mut History,
    company: Company,
    squares: u8,
) -> Result<(), AllocError>
    ensures { OnOk result (history.new ≡ token_moved (fallen squares) history.old company) }
{
    match history.square(company) {
        Some(square) => move_token(history, company, square, fall(square, squares)),
        None => Ok(()),
    }
}

/// Moves a company's token from one square to another, and records it if the two differ. Fails only
/// if allocation fails.
fn move_token(
    history: &mut History,
    company: Company,
    from: Square,
    to: Square,
) -> Result<(), AllocError>
    ensures { OnOk result (history.new
        ≡ with_events history.old (moved_to history.old.events company from to)) }
{
    if to == from {
        return Ok(());
    }
    history.append(Event::Moves {
        company,
        square: to,
    })?;
    Ok(())
}
