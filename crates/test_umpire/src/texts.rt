//! Reports of a game.

use crate::support::{FIRST, FIRST_REPORT};
use report::{report, round_text};
use rounds::play;
use sheets::{Sheets, collect};
use std::alloc::{AllocError, Global};
use std::test::Fail;
use tables::Round;

/// Returns whether the report of the game of some sheets is this text.
fn is_report(alloc: Global, sheets: &Sheets, owed: &str) -> Result<bool, AllocError> {
    let game = play(alloc, sheets)?;
    let text = report(alloc, &game)?;
    Ok(text.as_slice() == owed.as_bytes())
}

/// Returns whether the text of one of its rounds is this.
fn is_round(alloc: Global, sheets: &Sheets, round: Round, owed: &str) -> Result<bool, AllocError> {
    let game = play(alloc, sheets)?;
    let text = round_text(alloc, &game, round)?;
    Ok(text.as_slice() == owed.as_bytes())
}

/// Returns whether the text of its first round is this, and that of its second is empty.
fn has_one_round(alloc: Global, sheets: &Sheets, owed: &str) -> Result<bool, AllocError> {
    Ok(
        is_round(alloc, sheets, Round::Opening(1), owed)?
            && is_round(alloc, sheets, Round::Opening(2), "")?,
    )
}

/// Returns what the report of the first game says of its first round.
fn first_round() -> Option<&'static str> {
    let (_, rest) = FIRST_REPORT.split_once("CYD\n")?;
    let (round, _) = rest.split_once("AWAITING")?;
    Some(round)
}

#[test]
fn writes_a_game(rt: HostRuntime) -> Result<(), Fail> {
    let sheets = collect(rt.alloc(), FIRST.as_bytes())?;
    assert!(rt; is_report(rt.alloc(), &sheets, FIRST_REPORT)?);
    Ok(())
}

#[test]
fn writes_a_round_of_it(rt: HostRuntime) -> Result<(), Fail> {
    let sheets = collect(rt.alloc(), FIRST.as_bytes())?;
    assert!(rt; has_one_round(rt.alloc(), &sheets, first_round().unwrap_or_default())?);
    Ok(())
}
