//! Plays the trials: each sheet alone, and then all sheets that the file has.
ghost use Rattle.std.specs.Prelude.{◌≡◌, ◌++◌, IfOk, OnOk};
ghost use Rattle.std.specs.List.{flat_map};
ghost use Rattle.foresight.specs.TrialFile.{IsBegun, alone_file, tried_file};
ghost use Rattle.desk_trials.specs.Heads.{AreKept};
ghost use Rattle.desk_trials.specs.Trials.{IsTried, awaited_of, has_no_room, head_if, sheets_for};

use crate::check_found::{Found, Standing};
use crate::check_sheets::{Head, Heads};
use crate::forced::forced_of;
use crate::numbered::numbered_lines;
use crate::outcome::Outcome;
use crate::refusals::{RefusedLine, refused_of};
use crate::remedy::with_remedies;
use crate::told::{Trial, TriedSheet, tell_forced, tell_refused};
use crate::told_alone::tell_alone_refused;
use foresight::TrialFile;
use rounds::{End, Game, play};
use sheets::{FILE_MOST, FileFault, SHEETS_MOST, SheetKey, Sheets, collect};
use std::alloc::{AllocError, Global};
use tables::Round;

/// A trial that was played, with the lines of a sheet that it did not obey.
#[derive(Drop)]
struct Tried<'g> {
    game: Game<'g>,
    rows: Vec<RefusedLine>,
}

/// How far the game of a file has come.
#[derive(Drop)]
pub struct Reached {
    /// The round that was played last, and why play stopped.
    pub standing: Standing,
    /// What became of the round that was played last, if sheets for it are to be tried.
    pub last: Option<Outcome>,
}

/// Adds what the trials alone find in the sheets for the awaited round, and adds to `beyond` what
/// the trial of all these sheets refuses, and what companies must buy in it, where no trial alone
/// does. If only a part of the file is reported, the last round played is looked at, too: as if it
/// were awaited while no sheet for the next round is there; then only by those of its sheets that
/// begin on the first reported line or below it, and for what happened in the round itself. Fails
/// only if allocation fails.
pub fn try_sheets<'a>(
    alloc: Global,
    file: &[u8],
    sheets: &Sheets,
    heads: &Heads<'a>,
    reached: &Reached,
    found: &mut Found<'a>,
    beyond: &mut Found<'a>,
) -> Result<(), AllocError>
    requires same { sheets.now ≡ file.now }
    requires kept { AreKept heads.now }
{
    let round = round_to_try(heads, reached, found.from);
    let last = last_to_try(alloc, heads, reached, round, found.from)?;
    let awaited = awaited_to_try(alloc, heads, round)?;
    if last.is_empty() && awaited.is_empty() || has_no_room(file, heads) {
        return Ok(());
    }
    let mut trial = TrialFile::begin(alloc, file)?;
    try_each_alone(
        alloc,
        sheets,
        last.as_slice(),
        &reached.last,
        &mut trial,
        found,
    )?;
    let alone = try_each_alone(alloc, sheets, awaited.as_slice(), &None, &mut trial, found)?;
    let Some(round) = round else {
        return Ok(());
    };
    // If there is only one sheet, its trial alone is the trial of all.
    if awaited.len() < 2 {
        return Ok(());
    }
    trial.put_all(sheets, round)?;
    try_all(
        alloc,
        sheets,
        awaited.as_slice(),
        round,
        &trial,
        &alone,
        beyond,
    )
}

/// Returns whether a file has no room for one sheet more. Then each trial is refused, and no copy
/// of the file is made for it.
fn has_no_room(file: &[u8], heads: &Heads) -> bool
    ensures { result ≡ has_no_room file.now heads.now }
{
    file.len() >= FILE_MOST || heads.heads.len() >= SHEETS_MOST
}

/// Returns the round whose sheets are tried as if it were to come: the awaited round if it has a
/// sheet; otherwise the last that was played, if a sheet for it is among the reported lines.
fn round_to_try(heads: &Heads, reached: &Reached, from: usize) -> Option<Round> {
    if let End::Awaiting(round) = reached.standing.end
        && has_sheet(heads, round, 0)
    {
        return Some(round);
    }
    let last = reached.standing.last?;
    if reached.last.is_some() && has_sheet(heads, last, from) {
        Some(last)
    } else {
        None
    }
}

/// Returns whether a sheet for a round begins on a line of the file or below it.
fn has_sheet(heads: &Heads, round: Round, from: usize) -> bool {
    heads.heads.iter().any(|head| head.sent.round == round && head.line.number >= from)
}

/// Returns the heads of the sheets for the last round that was played that are tried for what
/// happened in it: those that begin on a line of the file or below it, unless the round is tried as
/// if it were to come. Fails only if allocation fails.
fn last_to_try<'a>(
    alloc: Global,
    heads: &Heads<'a>,
    reached: &Reached,
    tried: Option<Round>,
    from: usize,
) -> Result<Vec<Head<'a>>, AllocError>
    requires { AreKept heads.now }
{
    match (reached.standing.last, &reached.last) {
        (Some(round), Some(_)) if tried != Some(round) => sheets_for(alloc, heads, round, from),
        _ => Ok(Vec::new(alloc)),
    }
}

/// Returns the heads of the sheets for the round that is tried as if it were to come. Fails only if
/// allocation fails.
fn awaited_to_try<'a>(
    alloc: Global,
    heads: &Heads<'a>,
    round: Option<Round>,
) -> Result<Vec<Head<'a>>, AllocError>
    requires { AreKept heads.now }
    ensures { IfOk result (λ tried. tried.items ≡ awaited_of heads.now round) }
{
    match round {
        Some(round) => sheets_for(alloc, heads, round, 0),
        None => Ok(Vec::new(alloc)),
    }
}

/// Returns the heads of the sheets for a round that count and begin on a line of the file or below
/// it, in the order of the file. Fails only if allocation fails.
fn sheets_for<'a>(
    alloc: Global,
    heads: &Heads<'a>,
    round: Round,
    from: usize,
) -> Result<Vec<Head<'a>>, AllocError>
    requires { AreKept heads.now }
    ensures { IfOk result (λ tried. tried.items ≡ sheets_for heads.now round from) }
{
    sheets_among(alloc, heads, heads.heads.as_slice(), round, from)
}

/// Returns those of some heads whose sheet is for a round, counts, and begins on a line of the file
/// or below it.
fn sheets_among<'a>(
    alloc: Global,
    heads: &Heads<'a>,
    among: &[Head<'a>],
    round: Round,
    from: usize,
) -> Result<Vec<Head<'a>>, AllocError>
    requires { AreKept heads.now }
    ensures { IfOk result (λ tried.
        tried.items ≡ flat_map (head_if heads.now round from) among.now) }
{
    let mut tried = Vec::new(alloc);
    for head in among {
        push_if_for(&mut tried, heads, head, round, from)?;
    }
    Ok(tried)
}

/// Adds a head, if its sheet is for a round, counts, and begins on a line of the file or below it.
fn push_if_for<'a>(
    tried: &mut Vec<Head<'a>>,
    heads: &Heads<'a>,
    head: &Head<'a>,
    round: Round,
    from: usize,
) -> Result<(), AllocError>
    requires { AreKept heads.now }
    ensures { OnOk result (tried.new.items
        ≡ tried.old.items ++ head_if heads.now round from head.now) }
{
    if head.sent.round == round && head.line.number >= from && heads.counts(head) {
        tried.push(*head)?;
    }
    Ok(())
}

/// Adds what the trials alone find in the sheets that some heads begin; for a round that was played
/// only what happened in it, too. Returns the lines that are refused.
fn try_each_alone<'a>(
    alloc: Global,
    sheets: &Sheets,
    heads: &[Head<'a>],
    played: &Option<Outcome>,
    trial: &mut TrialFile,
    found: &mut Found<'a>,
) -> Result<Outcome, AllocError>
    requires { IsBegun sheets.now trial.old }
    ensures { IfOk result (λ _. IsBegun sheets.now trial.new) }
{
    let mut alone = Outcome::none(alloc);
    for head in heads {
        trial.put_alone(sheets, head.sent.round, head.sent.seat)?;
        try_alone(alloc, sheets, head, played, trial, found, &mut alone)?;
    }
    Ok(alone)
}

/// Adds what the trial alone finds in the sheet that a head begins, and what becomes of the sheet.
/// If the file of the trial is refused because it is longer than the order file, it finds nothing.
fn try_alone<'a>(
    alloc: Global,
    sheets: &Sheets,
    head: &Head<'a>,
    played: &Option<Outcome>,
    trial: &TrialFile,
    found: &mut Found<'a>,
    alone: &mut Outcome,
) -> Result<(), AllocError>
    requires { trial.now.bytes.items
        ≡ alone_file sheets.now head.now.sent.round head.now.sent.seat }
{
    match collect(alloc, trial.bytes.as_slice()) {
        Ok(tried) => tell_alone(alloc, &tried, head, played, found, alone),
        // An allocation failed: passed on.
        Err(FileFault::Memory) => Err(AllocError),
        Err(_) => Ok(()),
    }
}

/// Plays the sheets of a trial, and returns the game with the lines of a sheet that it did not
/// obey. Fails only if allocation fails.
fn try_sheet<'g>(
    alloc: Global,
    tried: &'g Sheets<'g>,
    sent: SheetKey,
) -> Result<Tried<'g>, AllocError>
    ensures { IfOk result (IsTried tried.now sent) }
{
    let game = play(alloc, tried)?;
    let rows = refused_of(alloc, game.history().events(), sent)?;
    Ok(Tried { game, rows })
}

/// Adds what the trial alone of the sheet that a head begins finds, by the sheets of the trial, and
/// what becomes of the sheet; if its round was played, only what happened in that, too.
fn tell_alone<'a>(
    alloc: Global,
    tried: &Sheets,
    head: &Head<'a>,
    played: &Option<Outcome>,
    found: &mut Found<'a>,
    alone: &mut Outcome,
) -> Result<(), AllocError> {
    let Tried { game, rows } = try_sheet(alloc, tried, head.sent)?;
    let rows = match played {
        Some(outcome) => outcome.also_refused(alloc, head.sent.seat, rows.as_slice())?,
        None => rows,
    };
    let numbered = numbered_lines(alloc, head)?;
    let trial = match played {
        Some(_) => Trial::Played,
        None => Trial::Alone,
    };
    let sheet = TriedSheet {
        trial,
        game: &game,
        head,
        numbered: numbered.as_slice(),
    };
    match trial {
        Trial::Alone => tell_alone_refused(alloc, sheet, rows.as_slice(), found)?,
        _ => tell_refused(alloc, sheet, rows.as_slice(), found)?,
    }
    let forced = forced_of(alloc, &game, head.sent)?;
    alone.add(head.sent.seat, rows.as_slice(), forced.as_slice())?;
    let forced = match played {
        Some(outcome) => outcome.also_forced(alloc, forced.as_slice())?,
        None => with_remedies(alloc, &game, head.sent, forced.as_slice())?,
    };
    for one in &forced {
        tell_forced(sheet, *one, found)?;
    }
    Ok(())
}

/// Adds those lines of the sheets begun by some heads that the trial of all sheets for a round
/// refuses and no trial alone does, and what companies must buy in it alone. If the file of the
/// trial is refused because it is longer than the order file, it finds nothing.
fn try_all<'a>(
    alloc: Global,
    sheets: &Sheets,
    heads: &[Head<'a>],
    round: Round,
    trial: &TrialFile,
    alone: &Outcome,
    beyond: &mut Found<'a>,
) -> Result<(), AllocError>
    requires { trial.now.bytes.items ≡ tried_file sheets.now round }
{
    match collect(alloc, trial.bytes.as_slice()) {
        Ok(tried) => tell_all(alloc, &tried, heads, alone, beyond),
        // An allocation failed: passed on.
        Err(FileFault::Memory) => Err(AllocError),
        Err(_) => Ok(()),
    }
}

/// Adds those lines of the sheets begun by some heads that this trial refuses and no trial alone
/// does, and what companies must buy in it alone.
fn tell_all<'a>(
    alloc: Global,
    tried: &Sheets,
    heads: &[Head<'a>],
    alone: &Outcome,
    beyond: &mut Found<'a>,
) -> Result<(), AllocError> {
    let game = play(alloc, tried)?;
    for head in heads {
        tell_beyond(alloc, &game, head, alone, beyond)?;
    }
    Ok(())
}

/// Adds those lines of the sheet begun by a head that a game refuses and the trial of the sheet
/// alone did not, and what its companies must buy that they need not buy in that trial.
fn tell_beyond<'g, 'a>(
    alloc: Global,
    game: &'g Game<'g>,
    head: &Head<'a>,
    alone: &Outcome,
    beyond: &mut Found<'a>,
) -> Result<(), AllocError> {
    let numbered = numbered_lines(alloc, head)?;
    let all = refused_of(alloc, game.history().events(), head.sent)?;
    let rows = alone.rows_beyond(alloc, head.sent.seat, all.as_slice())?;
    let forced = forced_of(alloc, game, head.sent)?;
    let forced = alone.forced_beyond(alloc, forced.as_slice())?;
    let sheet = TriedSheet {
        trial: Trial::All,
        game,
        head,
        numbered: numbered.as_slice(),
    };
    tell_refused(alloc, sheet, rows.as_slice(), beyond)?;
    for one in &forced {
        tell_forced(sheet, *one, beyond)?;
    }
    Ok(())
}
