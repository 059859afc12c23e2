//! Lints an order file.
ghost use Rattle.std.specs.Prelude.{◌≡◌, ◌≤◌, IfOk, None, OnOk, length};
ghost use Rattle.desk_check.specs.Refused.{refusal_in};
ghost use Rattle.desk_trials.specs.Heads.{AreKept};
ghost use Rattle.sheets.specs.File.{content_of};
ghost use Rattle.sheets.specs.Limits.{file_most};

use crate::check_early::look_at_lines;
use crate::check_late::{Rounds, find_replaced, standing_of};
use crate::check_pass::{Pass, pass_over};
use crate::check_refused::refusal_of;
use crate::check_text::{push_found, push_heading, push_refusal};
use crate::meant::look_at_meant;
use crate::owed::push_owed;
use desk_trials::{Found, Heads, Outcome, Reached, try_sheets};
use rounds::{End, Game, play};
use sheets::{FileFault, Sheets, collect};
use std::alloc::{AllocError, Global};

/// How much of a file is reported.
#[derive(Clone, Copy)]
pub struct Extent {
    /// Whether to report lines of all rounds, not only of the last round played and later ones.
    pub all: bool,
    /// The first line of the file that is reported.
    pub from: usize,
}

/// The findings of a file.
#[derive(Drop)]
pub struct Findings {
    /// A line for each finding, in the order of the file, and who still owes a sheet.
    pub text: Vec<u8>,
    /// Whether there is a finding. That somebody owes a sheet does not count as one.
    pub any: bool,
    /// Why the file is refused; `None` if it is not.
    pub refused: Option<FileFault>,
}

/// Lints a file. If it is refused, it reports the line and the reason. Otherwise it reports lines
/// that are in no sheet or look like mail, names that mean something else, sheets that replace
/// others, sheets for rounds that were not played, and what is wrong with the lines of the sheets
/// of the last round that was played and of later ones, or of all sheets.
///
/// It also plays the awaited round: each sheet for it alone, with empty sheets for the other
/// players, and then all sheets that the file has. If only a part of the file is reported, it also
/// plays each reported sheet for the last round alone. It reports what these trials refuse, and
/// what is sold for trains that companies must buy. Finally it says who still owes a sheet.
///
/// It plays the game of the file, at most one more for a sheet that replaces one for a played
/// round, and a game for each trial.
///
/// Fails only if allocation fails.
pub fn check(alloc: Global, file: &[u8], extent: Extent) -> Result<Findings, AllocError>
    ensures { IfOk result (λ findings. findings.refused ≡ refusal_in (content_of file.now)) }
{
    let mut findings = Findings {
        text: Vec::new(alloc),
        any: false,
        refused: None,
    };
    look_through(alloc, file, extent, &mut findings)?;
    Ok(findings)
}

/// Adds the findings of a file.
#[tactic(auto, using(crate::proofs::RefusedLemmas::accepted_unrefused))]
fn look_through(
    alloc: Global,
    file: &[u8],
    extent: Extent,
    findings: &mut Findings,
) -> Result<(), AllocError>
    requires { findings.old.refused ≡ None }
    ensures { OnOk result (findings.new.refused ≡ refusal_in (content_of file.now)) }
{
    match collect(alloc, file) {
        Ok(sheets) => {
            findings.any = look_at_sheets(alloc, file, extent, &sheets, &mut findings.text)?;
            Ok(())
        }
        // An allocation failed: passed on.
        Err(FileFault::Memory) => Err(AllocError),
        Err(fault) => {
            findings.any = true;
            findings.refused = Some(fault);
            push_refusal(&mut findings.text, fault, refusal_of(file, fault))
        }
    }
}

/// Adds the findings of a file that is not refused, and who owes a sheet. Returns whether there is
/// a finding.
fn look_at_sheets(
    alloc: Global,
    file: &[u8],
    extent: Extent,
    sheets: &Sheets,
    text: &mut Vec<u8>,
) -> Result<bool, AllocError>
    requires short { length file.now ≤ file_most }
    requires same { sheets.now ≡ file.now }
{
    let mut pass = pass_over(alloc, sheets, file, extent.from)?;
    let reached = look_at_game(alloc, file, extent, sheets, &mut pass)?;
    let mut beyond = Found::nothing(alloc, extent.from);
    try_pass(alloc, file, sheets, &reached, &mut pass, &mut beyond)?;
    push_found(text, sheets, &mut pass.found)?;
    if !beyond.is_empty() {
        push_heading(text)?;
        push_found(text, sheets, &mut beyond)?;
    }
    if let End::Awaiting(round) = reached.standing.end {
        push_owed(text, sheets, round)?;
    }
    Ok(!pass.found.is_empty() || !beyond.is_empty())
}

/// Adds what the trials find, by the SHEET lines of a file, and adds to `beyond` what only the
/// trial of all sheets shows.
fn try_pass<'a>(
    alloc: Global,
    file: &[u8],
    sheets: &Sheets,
    reached: &Reached,
    pass: &mut Pass<'a>,
    beyond: &mut Found<'a>,
) -> Result<(), AllocError>
    requires same { sheets.now ≡ file.now }
    requires kept { AreKept pass.old.heads }
{
    try_sheets(
        alloc,
        file,
        sheets,
        &pass.heads,
        reached,
        &mut pass.found,
        beyond,
    )
}

/// Adds the findings of the game of some sheets, by the SHEET lines of their file. Returns how far
/// the game has come.
fn look_at_game<'a>(
    alloc: Global,
    file: &'a [u8],
    extent: Extent,
    sheets: &Sheets,
    pass: &mut Pass<'a>,
) -> Result<Reached, AllocError>
    requires { AreKept pass.old.heads }
    ensures { pass.new.heads ≡ pass.old.heads }
{
    let game = play(alloc, sheets)?;
    look_at_rounds(alloc, file, extent, &pass.heads, &game, &mut pass.found)?;
    look_at_meant(pass.meant.as_slice(), &game, &mut pass.found)?;
    reached_by(alloc, &game, extent.from > 1)
}

/// Returns how far a game has come, with what the last round refused if sheets for it are to be
/// tried.
fn reached_by(alloc: Global, game: &Game, tries_last: bool) -> Result<Reached, AllocError> {
    let standing = standing_of(game);
    let last = match standing.last {
        Some(round) if tries_last => Some(Outcome::of(alloc, game, round)?),
        _ => None,
    };
    Ok(Reached { standing, last })
}

/// Finds the sheets that replace others, those for rounds that are not played, and what is wrong in
/// these and in those of the last round that was played.
fn look_at_rounds<'a>(
    alloc: Global,
    file: &'a [u8],
    extent: Extent,
    heads: &Heads<'a>,
    game: &Game,
    found: &mut Found<'a>,
) -> Result<(), AllocError>
    requires { AreKept heads.now }
{
    let rounds = Rounds::of(alloc, heads, game)?;
    find_replaced(alloc, file, heads, game, &rounds, found)?;
    look_at_lines(heads, game, &rounds, extent.all, found)
}
