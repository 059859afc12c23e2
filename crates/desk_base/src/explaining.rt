//! What a code means: its rule in words, what to do about it, and the small game that shows it.
ghost use Rattle.std.specs.Prelude.{MatchOption};
ghost use Rattle.std.specs.Str.{trim};
ghost use Rattle.desk_base.specs.Reason.{HasItsCode, NoneHasCode};

use crate::advice::advice_on;
use crate::reason::Reason;
use crate::text::Piece::{Column, Words};
use crate::text::fill;
use std::alloc::{AllocError, Global};

/// Returns the reason with a code, in letters of either case, with or without spaces around it;
/// `None` if no report prints that code.
pub fn explain(word: &str) -> Option<Reason>
    ensures { MatchOption result (NoneHasCode (trim word.now)) (HasItsCode (trim word.now)) }
{
    Reason::with_code(word.trim())
}

/// Returns the entry of a reason, in three lines: its code and rule, what to do about it, and the
/// game that shows it.
pub fn reason_text(alloc: Global, reason: Reason) -> Result<Vec<u8>, AllocError> {
    let mut text = Vec::new(alloc);
    let advice = advice_on(reason);
    let (code, rule) = (Words(reason.code()), Words(reason.sentence()));
    fill(
        &mut text,
        "%: %\nTo do: %\nGame: ",
        &[code, rule, Words(advice.to_do)],
    )?;
    match advice.game {
        Some(game) => fill(&mut text, "games/codes/%.orders\n", &[Words(game)])?,
        None => fill(&mut text, "too large to keep; games/make writes it\n", &[])?,
    }
    Ok(text)
}

/// Returns the entries of all reasons, with an empty line between two.
pub fn all_reasons_text(alloc: Global) -> Result<Vec<u8>, AllocError> {
    let mut text = Vec::new(alloc);
    for reason in &Reason::all(alloc)? {
        if !text.is_empty() {
            fill(&mut text, "\n", &[])?;
        }
        text.extend_from_slice(reason_text(alloc, *reason)?.as_slice())?;
    }
    Ok(text)
}

/// Returns all codes with their rules, a line each.
pub fn list_text(alloc: Global) -> Result<Vec<u8>, AllocError> {
    let mut text = Vec::new(alloc);
    for reason in &Reason::all(alloc)? {
        let (code, rule) = (Words(reason.code()), Words(reason.sentence()));
        fill(&mut text, "%%%\n", &[code, Column(5), rule])?;
    }
    Ok(text)
}
