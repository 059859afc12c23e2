//! The report part by part, while the game is played: the header, the text of each round, and what
//! follows the rounds.
ghost use Rattle.report.specs.Column.{Adds};
ghost use Rattle.report.specs.Parts.{end_text_of, next_text_of, outcome_text_of};
ghost use Rattle.report.specs.Report.{header, unread_lines};
ghost use Rattle.rounds.specs.Steps.{HasEnded};
ghost use Rattle.std.specs.Prelude.{◌≡◌, ◌+◌, ◌≤◌, IfOk, OnOk, length};

use crate::text::{push_end, push_header, push_last_round, push_unread};
use order_grammar::Fault;
use rounds::Play;
use sheets::Sheets;
use std::alloc::{AllocError, Global};

/// How many bytes a round's text has room for at first.
const ROOM: usize = 512;

/// Returns the header of a report, its first two lines. Fails only if allocation fails.
pub fn header_text(alloc: Global, sheets: &Sheets) -> Result<Vec<u8>, AllocError>
    ensures { IfOk result (λ text. text.items ≡ header sheets.now) }
{
    let mut out = Vec::new(alloc);
    push_header(&mut out, sheets)?;
    Ok(out)
}

/// Returns the text of the last round played: its events and the statement after them. It is empty
/// before the first round, and after play was broken off. Fails only if allocation fails.
pub fn next_text(alloc: Global, play: &Play) -> Result<Vec<u8>, AllocError>
    ensures { IfOk result (λ text. text.items ≡ next_text_of play.now) }
{
    let mut out = Vec::with_capacity(alloc, ROOM)?;
    if let Some(history) = play.history() {
        push_last_round(&mut out, play.sheets(), history)?;
    }
    Ok(out)
}

/// Returns what follows the rounds, once a step has returned that play has stopped: the lines that
/// are in no sheet, and why play stopped. Fails only if allocation fails.
pub fn end_text(alloc: Global, play: &Play) -> Result<Vec<u8>, AllocError>
    requires { HasEnded play.now }
    ensures { IfOk result (λ text. text.items ≡ end_text_of play.now) }
{
    let mut out = Vec::new(alloc);
    push_unread(&mut out, 0, play.sheets().unread())?;
    push_outcome(&mut out, play)?;
    Ok(out)
}

/// Returns the report's lines for some of the unread lines, given their faults, after `before`
/// earlier ones of the file. So `end_text` can be written a few lines at a time. Fails only if
/// allocation fails.
pub fn unread_text(alloc: Global, before: usize, unread: &[Fault]) -> Result<Vec<u8>, AllocError>
    requires { before + length unread.now ≤ usize.MAX }
    ensures { IfOk result (λ text. text.items ≡ unread_lines before unread.now) }
{
    let mut out = Vec::new(alloc);
    push_unread(&mut out, before, unread)?;
    Ok(out)
}

/// Returns why play stopped, once a step has returned that it has: the part of `end_text` after the
/// lines that are in no sheet. Fails only if allocation fails.
pub fn outcome_text(alloc: Global, play: &Play) -> Result<Vec<u8>, AllocError>
    requires { HasEnded play.now }
    ensures { IfOk result (λ text. text.items ≡ outcome_text_of play.now) }
{
    let mut out = Vec::new(alloc);
    push_outcome(&mut out, play)?;
    Ok(out)
}

/// Adds why play stopped, if that is known.
fn push_outcome(out: &mut Vec<u8>, play: &Play) -> Result<(), AllocError>
    ensures { OnOk result (Adds out.old out.new (outcome_text_of play.now)) }
{
    if let (Some(history), Some(end)) = (play.history(), play.outcome()) {
        push_end(out, play.sheets(), history, end)?;
    }
    Ok(())
}
