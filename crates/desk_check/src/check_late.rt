//! Sheets that replace others: whether the round had been played, and what they change.
ghost use Rattle.std.specs.Prelude.{◌≡◌, ℕ, ◌++◌, IfOk, List, OnOk, Some};
ghost use Rattle.desk_check.specs.Replaced.{AddsReplaced, before, findings_of, is_of_batch, lateness_of};
ghost use Rattle.desk_check.specs.Replaced.{matter_of, replaces_older, standing_of, turned, turning_of};
ghost use Rattle.desk_check.specs.RoundsPlayed.{AppliesEvent, AreRoundsOf, line_kept};
ghost use Rattle.desk_trials.specs.Heads.{AreKept};
ghost use Rattle.desk_trials.specs.SheetLines.{is_under};
ghost use Rattle.std.specs.List.{flat_map};

use desk_trials::{Change, Found, Head, Heads, Lateness, Matter, Standing, first_changed};
use history::Event;
use rounds::{Game, play};
use sheets::{FileFault, Sheets, collect};
use std::alloc::{AllocError, Global};
use std::collections::HashMap;
use tables::Round;

/// The rounds of a game that were played, each with the number of the line that completed it: by
/// then every player had a sheet for it and for each round before it.
#[derive(Drop)]
pub(crate) struct Rounds {
    lines: HashMap<Round, usize>,
    /// The number of the line that completed the last of them.
    by: usize,
}

impl Rounds {
    /// Returns the rounds of the game of the file with these SHEET lines.
    pub(crate) fn of(alloc: Global, heads: &Heads, game: &Game) -> Result<Rounds, AllocError>
        requires { AreKept heads.now }
        ensures { IfOk result (λ rounds. AreRoundsOf heads.now rounds game.now.game.events) }
    {
        let mut rounds = Rounds {
            lines: HashMap::new(alloc),
            by: 0,
        };
        for event in game.history().events() {
            rounds.apply(heads, event)?;
        }
        Ok(rounds)
    }

    /// Applies the round that the next event begins, if it begins one.
    fn apply(&mut self, heads: &Heads, event: &Event) -> Result<(), AllocError>
        requires { AreKept heads.now }
        ensures { OnOk result (AppliesEvent heads.now self.old event.now self.new) }
    {
        let round = match event.round() {
            Some(round) => round,
            None => return Ok(()),
        };
        self.by = heads.complete_by(round).unwrap_or(0).max(self.by);
        self.lines.insert(round, self.by)?;
        Ok(())
    }

    /// Returns the number of the line by which every player had a sheet for a round and for each
    /// round before it; `None` if it was not played.
    pub(crate) fn line(&self, round: Round) -> Option<usize>
        ensures { result ≡ line_kept self.now round }
    {
        self.lines.get(&round).copied()
    }
}

/// Returns whether a line, if there is one, comes before another.
fn is_under(line: Option<usize>, number: usize) -> bool
    ensures { result ≡ is_under line number }
{
    match line {
        Some(line) => line < number,
        None => false,
    }
}

/// Returns how far a game has come.
pub(crate) fn standing_of(game: &Game) -> Standing
    ensures { result ≡ standing_of game.now }
{
    Standing {
        last: game.history().now().round(),
        end: game.outcome(),
    }
}

/// The game of the lines before one that replaced a sheet for a played round.
#[derive(Drop)]
struct Turn {
    /// The number of the line.
    line: usize,
    /// The rounds that were played.
    rounds: Rounds,
    /// How far it had come.
    standing: Standing,
    /// The first of them whose report differs now.
    changed: Option<Round>,
}

/// Finds the sheets that replace others, and whether their round had been played by then. At the
/// line where the game changes it also finds how far the game had come before, and how far it comes
/// now. (If a file is not refused, neither is the part of it before any line below its PLAYERS
/// line.)
pub(crate) fn find_replaced<'a>(
    alloc: Global,
    file: &'a [u8],
    heads: &Heads<'a>,
    game: &Game,
    rounds: &Rounds,
    found: &mut Found<'a>,
) -> Result<(), AllocError>
    requires { AreKept heads.now }
    ensures { OnOk result (AddsReplaced file.now found.old.from heads.now rounds.now
        (standing_of game.now) found.old.findings.items found.new.findings.items) }
{
    let now = standing_of(game);
    let Some(head) = turning_head(heads, rounds, found.from) else {
        return add_replaced(heads, rounds, &None, now, found);
    };
    let length = file.len().saturating_sub(head.line.from.len());
    match collect(alloc, &file[..length]) {
        Ok(sheets) => add_turned(alloc, &sheets, heads, &head, rounds, game, found),
        // An allocation failed: passed on.
        Err(FileFault::Memory) => Err(AllocError),
        Err(_) => add_replaced(heads, rounds, &None, now, found),
    }
}

/// Adds each sheet that replaces another, if the game turns at this head, given the sheets before
/// it.
fn add_turned<'a>(
    alloc: Global,
    sheets: &Sheets,
    heads: &Heads<'a>,
    head: &Head<'a>,
    rounds: &Rounds,
    now: &Game,
    found: &mut Found<'a>,
) -> Result<(), AllocError>
    requires { AreKept heads.now }
    ensures { OnOk result ((file : List ℕ) → sheets.now ≡ before file head.now.line
        → (turning_of found.old.from heads.now rounds.now).head ≡ Some head.now
        → AddsReplaced file found.old.from heads.now rounds.now (standing_of now.now)
        found.old.findings.items found.new.findings.items) }
{
    let game = play(alloc, sheets)?;
    let turn = Some(Turn {
        line: head.line.number,
        rounds: Rounds::of(alloc, heads, &game)?,
        standing: standing_of(&game),
        changed: first_changed(alloc, &game, now)?,
    });
    add_replaced(heads, rounds, &turn, standing_of(now), found)
}

/// Adds each sheet that replaces another.
fn add_replaced<'a>(
    heads: &Heads<'a>,
    rounds: &Rounds,
    turn: &Option<Turn>,
    now: Standing,
    found: &mut Found<'a>,
) -> Result<(), AllocError>
    requires { AreKept heads.now }
    ensures { OnOk result (found.new.findings.items ≡ found.old.findings.items
        ++ flat_map (findings_of found.old.from heads.now rounds.now turn.now now)
        heads.now.heads.items) }
{
    let from = found.from;
    for head in &heads.heads {
        let Some(line) = head.replaces else {
            continue;
        };
        let matter = matter_of(from, heads, rounds, turn, now, head, line);
        found.add(&head.line, matter)?;
    }
    Ok(())
}

/// Returns what there is to say of a head that replaces the sheet of a line, given the first
/// reported line.
fn matter_of(
    from: usize,
    heads: &Heads,
    rounds: &Rounds,
    turn: &Option<Turn>,
    now: Standing,
    head: &Head,
    line: usize,
) -> Matter
    requires { AreKept heads.now }
    ensures { result ≡ matter_of from heads.now rounds.now turn.now now head.now line }
{
    let corrects = is_of_batch(from, line);
    Matter::Replaces {
        line,
        round: head.sent.round,
        lateness: lateness_of(head, heads, rounds, turn, corrects),
        turn: turned(turn, head.line.number, now),
    }
}

/// Returns how far the game had come before a line, how far it comes now, and what changes, if it
/// turns at that line.
fn turned(turn: &Option<Turn>, line: usize, now: Standing) -> Option<Change>
    ensures { result ≡ turned turn.now line now }
{
    match turn {
        Some(turn) if turn.line == line => Some(Change {
            before: turn.standing,
            now,
            round: turn.changed,
        }),
        _ => None,
    }
}

/// Returns whether a line came in the batch that is checked: not the whole file is reported, and
/// the line is among those that are.
fn is_of_batch(from: usize, line: usize) -> bool
    ensures { result ≡ is_of_batch from line }
{
    from > 1 && line >= from
}

/// Returns whether a line replaces a sheet that came before the batch that is checked.
fn replaces_older(from: usize, replaces: Option<usize>) -> bool
    ensures { result ≡ replaces_older from replaces }
{
    match replaces {
        Some(line) => !is_of_batch(from, line),
        None => false,
    }
}

/// Returns whether a round was played, complete or still open when a line replaced a sheet for it,
/// or whether it corrects a sheet of its own batch.
fn lateness_of(
    head: &Head,
    heads: &Heads,
    rounds: &Rounds,
    turn: &Option<Turn>,
    corrects: bool,
) -> Lateness
    requires { AreKept heads.now }
    ensures { result ≡ lateness_of heads.now rounds.now turn.now
        head.now.sent.round head.now.line.number corrects }
{
    if corrects {
        return Lateness::Corrects;
    }
    let round = head.sent.round;
    let line = head.line.number;
    let line_in_turn = match turn {
        Some(turn) => turn.rounds.line(round),
        None => None,
    };
    if is_under(rounds.line(round), line) || is_under(line_in_turn, line) {
        Lateness::Played
    } else if is_under(heads.complete_by(round), line) {
        Lateness::NotReached
    } else {
        Lateness::Open
    }
}

/// The line before which the game is played once more, by the SHEET lines so far.
#[derive(Clone, Copy)]
struct Turning<'a> {
    /// The line, if there is one.
    head: Option<Head<'a>>,
    /// Whether no late line has come since a line by which all players had a sheet for a round.
    is_fresh: bool,
}

/// Returns the line before which the game is played once more. Late lines replace a sheet for a
/// played round; completing lines are those by which all players had a sheet for a round. It is the
/// first late line after the last completing line; if there is none, the first late line of the
/// last series of late lines without a completing line between them.
fn turning_head<'a>(heads: &Heads<'a>, rounds: &Rounds, from: usize) -> Option<Head<'a>>
    requires { AreKept heads.now }
    ensures { result ≡ (turning_of from heads.now rounds.now).head }
{
    let mut turning = Turning {
        head: None,
        is_fresh: true,
    };
    for head in &heads.heads {
        let round = head.sent.round;
        let line = head.line.number;
        let is_fresh = turning.is_fresh || heads.complete_by(round) == Some(line);
        if !replaces_older(from, head.replaces) || !is_under(rounds.line(round), line) {
            turning.is_fresh = is_fresh;
            continue;
        }
        turning = Turning {
            head: if is_fresh { Some(*head) } else { turning.head },
            is_fresh: false,
        };
    }
    turning.head
}
