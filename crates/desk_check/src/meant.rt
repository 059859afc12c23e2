//! Lines below a SHEET line with a fault: they are checked as if it had none.

use crate::check_reading::look_at_sheet;
use desk_trials::{Found, Head};
use rounds::{End, Game};
use std::alloc::AllocError;

/// Finds what is wrong with the lines of the sheets that such lines were meant to begin.
pub(crate) fn look_at_meant<'a>(
    meant: &[Head<'a>],
    game: &Game,
    found: &mut Found<'a>,
) -> Result<(), AllocError> {
    let version = game.sheets().version();
    let now = game.history().now();
    for head in meant {
        let is_awaited = game.outcome() == End::Awaiting(head.sent.round);
        let view = if is_awaited { Some(&now) } else { None };
        look_at_sheet(version, view, head, found)?;
    }
    Ok(())
}
