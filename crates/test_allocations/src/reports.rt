//! Calls that write a game as text.

use crate::call::{Call, made};
use crate::fault::OutcomeFault;
use crate::games::has_stepped;
use crate::outcome::Outcome;
use crate::texts::{AWAITED, FIRST_ROUND, HEADER, UNREAD_LINES};
use best_run::Search;
use report::{end_text, header_text, next_text, report, round_text};
use rounds::{Play, Step, play};
use sheets::Sheets;
use std::alloc::{AllocError, Global};
use std::rt::Runtime;
use tables::Round;

/// Returns the outcome of a text, given the expected text.
fn outcome_of(answer: Result<Vec<u8>, AllocError>, owed: &str) -> Outcome {
    match answer {
        Ok(text) => Outcome::of_answer(text.as_slice() == owed.as_bytes()),
        Err(_) => Outcome::of_refusal(true),
    }
}

/// Writes the header of the first game.
pub fn writes_header(rt: &HostRuntime, sheets: &Sheets) -> Result<Outcome, OutcomeFault> {
    Call::HeaderText.begin(rt)?;
    let answer = header_text(rt.alloc(), sheets);
    made(rt)?;
    Ok(outcome_of(answer, HEADER))
}

/// Plays its first round.
fn first_round<'a>(alloc: Global, sheets: &'a Sheets<'a>) -> Result<Play<'a>, OutcomeFault> {
    let mut play = Play::start(alloc, sheets)?;
    if has_stepped(&mut play, &mut Search::new(alloc)) {
        Ok(play)
    } else {
        Err(OutcomeFault::Position)
    }
}

/// Writes its round, as it was played last.
pub fn writes_next(rt: &HostRuntime, sheets: &Sheets) -> Result<Outcome, OutcomeFault> {
    let play = first_round(rt.alloc(), sheets)?;
    Call::NextText.begin(rt)?;
    let answer = next_text(rt.alloc(), &play);
    made(rt)?;
    Ok(outcome_of(answer, FIRST_ROUND))
}

/// Writes what follows its round.
pub fn writes_end(rt: &HostRuntime, sheets: &Sheets) -> Result<Outcome, OutcomeFault> {
    let mut play = first_round(rt.alloc(), sheets)?;
    ends(rt, &mut play, &mut Search::new(rt.alloc()))
}

/// Writes what follows the rounds of a play that has reached its end.
fn ends(rt: &HostRuntime, play: &mut Play, search: &mut Search) -> Result<Outcome, OutcomeFault> {
    match play.step(search) {
        Ok(Step::Ended(_)) => {
            Call::EndText.begin(rt)?;
            let answer = end_text(rt.alloc(), play);
            made(rt)?;
            Ok(outcome_of(answer, AWAITED))
        }
        Ok(Step::Played(_)) | Err(_) => Err(OutcomeFault::Position),
    }
}

/// Writes its round, looking back.
pub fn writes_round(rt: &HostRuntime, sheets: &Sheets) -> Result<Outcome, OutcomeFault> {
    let game = play(rt.alloc(), sheets)?;
    Call::RoundText.begin(rt)?;
    let answer = round_text(rt.alloc(), &game, Round::Opening(1));
    made(rt)?;
    Ok(outcome_of(answer, FIRST_ROUND))
}

/// Writes the whole report.
pub fn writes_all(rt: &HostRuntime, sheets: &Sheets) -> Result<Outcome, OutcomeFault> {
    let game = play(rt.alloc(), sheets)?;
    Call::Report.begin(rt)?;
    let answer = report(rt.alloc(), &game);
    made(rt)?;
    Ok(outcome_of_all(answer, ""))
}

/// The whole report of a file with unread lines.
pub fn writes_unread(rt: &HostRuntime, sheets: &Sheets) -> Result<Outcome, OutcomeFault> {
    let game = play(rt.alloc(), sheets)?;
    Call::ReportUnread.begin(rt)?;
    let answer = report(rt.alloc(), &game);
    made(rt)?;
    Ok(outcome_of_all(answer, UNREAD_LINES))
}

/// Returns the outcome of a whole report, which needs these lines before its end.
fn outcome_of_all(answer: Result<Vec<u8>, AllocError>, unread: &str) -> Outcome {
    match answer {
        Ok(text) => Outcome::of_answer(is_joined(text.as_slice(), unread)),
        Err(_) => Outcome::of_refusal(true),
    }
}

/// Returns whether a text is the header, the round, these lines and the end, joined.
fn is_joined(text: &[u8], unread: &str) -> bool {
    let Some(rest) = text.strip_prefix(HEADER.as_bytes()) else {
        return false;
    };
    let Some(rest) = rest.strip_prefix(FIRST_ROUND.as_bytes()) else {
        return false;
    };
    rest.strip_prefix(unread.as_bytes()) == Some(AWAITED.as_bytes())
}
