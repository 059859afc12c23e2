//! What is written for a task, and the status with which the program ends.
ghost use Rattle.std.specs.Prelude.{◌≡◌};

use crate::streams::StreamFault;
use crate::task::{Job, Task};
use desk_base::{DeskFault, Moment, Reason, all_reasons_text, explain, list_text, reason_text};
use desk_check::{Extent, check};
use desk_may::Progress;
use desk_moves::{LayForm, MayForm, MovesFault, Question, answer, trial};
use desk_round::{round, round_with_rules, runs};
use desk_state::{StateForm, round_facts, state};
use page::{PageToHexes, bulletin, page, page_to_hexes, tile_sheet};
use page_all::{page_of_all, page_of_all_to_hexes};
use page_lays::{Drawn, STYLE, Wanted, end_page};
use report::refusal_text;
use std::alloc::{AllocError, Global};
use tables::Round;

/// The status if the text is written.
const WRITTEN: u8 = 0;

/// The status for a command line that names no task, or a round that was not played.
pub(crate) const MISUSED: u8 = 1;

/// The status for a refused file.
const REFUSED: u8 = 2;

/// The status if `check` found something.
const TOLD: u8 = 3;

/// Points to where more is said of a refused file.
const SEE_CHECK: &str = "`desk check` says which line is meant, and what is wrong with it";

/// The note for a round that was not played.
const NO_ROUND: &str = "that round is not played";

/// The note if no round was named and none was played.
const NOTHING_PLAYED: &str = "no round is played yet";

/// What the program writes, and its status.
#[derive(Drop)]
pub(crate) struct Answer<'a> {
    /// What is written to standard output.
    pub(crate) text: Vec<u8>,
    /// The names of those whom the note is about, if any.
    pub(crate) names: Option<Vec<u8>>,
    /// What is printed on standard error; nothing if it is empty.
    pub(crate) note: &'static str,
    /// What the note is about.
    pub(crate) about: &'a str,
    /// The status.
    pub(crate) status: u8,
}

/// Returns what to write for a task and an order file.
pub(crate) fn answer_to<'a, P: Progress>(
    alloc: Global,
    file: &[u8],
    task: &Task<'a>,
    progress: &mut P,
) -> Result<Answer<'a>, StreamFault> {
    if let Job::Explain = task.job {
        return explained(alloc, task);
    }
    if let Job::Check = task.job {
        let extent = Extent {
            all: task.all,
            from: task.from,
        };
        return checked(alloc, file, extent);
    }
    if let Job::Lays | Job::May | Job::Best | Job::Trial | Job::Hex = task.job {
        return moves_answered(
            alloc,
            task.round.is_some(),
            moves_told_of(alloc, file, task, progress),
        );
    }
    if task.tiles {
        return Ok(answered(tile_sheet(alloc)?, "", WRITTEN));
    }
    if task.lays {
        let told = page_with_lays(alloc, file, task, progress);
        return answer_with(alloc, task.round.is_some(), told);
    }
    let asked = Asking {
        job: task.job,
        round: task.round,
        why: task.why,
        before: task.before,
        due: task.due,
        json: task.json,
        all: task.all,
    };
    answer_with(alloc, task.round.is_some(), told_of(alloc, file, asked))
}

/// Returns the page of a game with what may be done in it.
fn page_with_lays<P: Progress>(
    alloc: Global,
    file: &[u8],
    task: &Task,
    progress: &mut P,
) -> Result<Vec<u8>, DeskFault> {
    let wanted = Wanted {
        after: task.round,
        companies: task.companies.as_slice(),
        best: true,
    };
    let page = if task.all {
        page_of_all_to_hexes(alloc, file, task.round, task.due, STYLE)?
    } else {
        page_to_hexes(alloc, file, task.round, task.due, STYLE)?
    };
    let PageToHexes { out, hexes, names } = page;
    let drawn = Drawn {
        words: hexes.as_slice(),
        names: names.as_slice(),
    };
    end_page(alloc, out, file, wanted, drawn, progress)
}

/// What is asked about a game.
#[derive(Clone, Copy)]
struct Asking<'a> {
    job: Job,
    round: Option<Round>,
    why: bool,
    before: bool,
    due: &'a str,
    json: bool,
    all: bool,
}

/// Returns the text of one of the program's words about the game of a file.
fn told_of(alloc: Global, file: &[u8], asked: Asking) -> Result<Vec<u8>, DeskFault> {
    match asked.job {
        Job::State => {
            let form = if asked.json {
                StateForm::Json
            } else {
                StateForm::Text
            };
            state(alloc, file, moment_of(asked), form)
        }
        Job::Runs => runs(alloc, file, asked.round),
        Job::Bulletin => bulletin(alloc, file, asked.round, asked.due),
        Job::Page if asked.all => page_of_all(alloc, file, asked.round, asked.due),
        Job::Page => page(alloc, file, asked.round, asked.due),
        _ => told_of_round(alloc, file, asked),
    }
}

/// Returns the part of the report of a round, with the rules that refused lines broke if they are
/// asked for, or the events of the round as JSON.
fn told_of_round(alloc: Global, file: &[u8], asked: Asking) -> Result<Vec<u8>, DeskFault> {
    if asked.json {
        round_facts(alloc, file, asked.round)
    } else if asked.why {
        round_with_rules(alloc, file, asked.round)
    } else {
        round(alloc, file, asked.round)
    }
}

/// Returns the moment for which the state is asked.
fn moment_of(asked: Asking) -> Moment {
    match (asked.round, asked.before) {
        (None, false) => Moment::Last,
        (None, true) => Moment::BeforeLast,
        (Some(round), false) => Moment::After(round),
        (Some(round), true) => Moment::Before(round),
    }
}

/// Returns what to write for the text of a game, or for the reason why there is none. `is_named` is
/// whether the command line names a round. For a refused file the text is the line of its report.
fn answer_with<'a>(
    alloc: Global,
    is_named: bool,
    told: Result<Vec<u8>, DeskFault>,
) -> Result<Answer<'a>, StreamFault> {
    let not_played = if is_named { NO_ROUND } else { NOTHING_PLAYED };
    match told {
        Ok(text) if text.is_empty() => Ok(answered(text, not_played, MISUSED)),
        Ok(text) => Ok(answered(text, "", WRITTEN)),
        Err(DeskFault::File(fault)) => Ok(answered(
            refusal_text(alloc, fault)?,
            SEE_CHECK,
            REFUSED,
        )),
        Err(DeskFault::Round) => Ok(answered(Vec::new(alloc), not_played, MISUSED)),
        // An allocation failed: passed on.
        Err(DeskFault::Memory) => Err(StreamFault::Memory),
    }
}

/// Returns the text about moves in the game of a file.
fn moves_told_of<P: Progress>(
    alloc: Global,
    file: &[u8],
    task: &Task,
    progress: &mut P,
) -> Result<Vec<u8>, MovesFault> {
    let question = match (task.job, task.company, task.hex) {
        (Job::Lays, Some(company), _) => Question::Lays {
            company,
            form: LayForm {
                best: task.best,
                lines: task.lines,
                drafted: task.drafted,
            },
        },
        (Job::Best, Some(company), _) => Question::Best {
            company,
            trains: task.trains.as_slice(),
        },
        (Job::Hex, _, Some(hex)) => Question::Hex(hex),
        (Job::May, _, _) => {
            let name = task.names.as_slice().first();
            Question::May {
                name: name.map_or(&[], |name| name.as_bytes()),
                form: MayForm {
                    lines: task.lines,
                    drafted: task.drafted,
                },
            }
        }
        _ => return trial_told_of(alloc, file, task),
    };
    answer(alloc, file, task.round, question, progress)
}

/// Returns the text of a trial: the round as a bulletin, or as its part of the report, with the
/// rules that refused lines broke if they are asked for.
fn trial_told_of(alloc: Global, file: &[u8], task: &Task) -> Result<Vec<u8>, MovesFault> {
    let trial = trial(alloc, file, task.names.as_slice())?;
    let (file, round) = (trial.file.bytes.as_slice(), Some(trial.round));
    if task.why {
        Ok(round_with_rules(alloc, file, round)?)
    } else {
        Ok(bulletin(alloc, file, round, "")?)
    }
}

/// Returns an `Answer` with the text about moves, or with why there is none.
fn moves_answered<'a>(
    alloc: Global,
    is_named: bool,
    told: Result<Vec<u8>, MovesFault>,
) -> Result<Answer<'a>, StreamFault> {
    match told {
        Ok(text) => Ok(answered(text, "", WRITTEN)),
        Err(MovesFault::Desk(fault)) => answer_with(alloc, is_named, Err(fault)),
        Err(MovesFault::Asked(why)) => {
            let mut answer = answered(Vec::new(alloc), why.sentence(), MISUSED);
            answer.names = why.into_names();
            Ok(answer)
        }
    }
}

/// Returns an `Answer` with this text, this note on standard error, and this status.
fn answered<'a>(text: Vec<u8>, note: &'static str, status: u8) -> Answer<'a>
    ensures text { result.text.items ≡ text.items }
    ensures note { result.note.now ≡ note.now }
    ensures status { result.status ≡ status }
{
    Answer {
        names: None,
        text,
        note,
        about: "",
        status,
    }
}

/// Returns what `check` writes: its findings.
fn checked<'a>(alloc: Global, file: &[u8], extent: Extent) -> Result<Answer<'a>, StreamFault> {
    let findings = check(alloc, file, extent)?;
    let status = if findings.refused.is_some() {
        REFUSED
    } else if findings.any {
        TOLD
    } else {
        WRITTEN
    };
    Ok(answered(findings.text, "", status))
}

/// Returns what `explain` writes: what codes mean, or a list of all codes if none is named.
fn explained<'a>(alloc: Global, task: &Task<'a>) -> Result<Answer<'a>, StreamFault> {
    if task.all {
        return Ok(answered(all_reasons_text(alloc)?, "", WRITTEN));
    }
    if task.names.is_empty() {
        return Ok(answered(list_text(alloc)?, "", WRITTEN));
    }
    let mut text = Vec::new(alloc);
    let mut unknown = None;
    for code in &task.names {
        match explain(code) {
            Some(reason) => push_reason(alloc, &mut text, reason)?,
            None => unknown = Some(*code),
        }
    }
    match unknown {
        Some(code) => {
            let mut answer = answered(text, "there is no such code: ", MISUSED);
            answer.about = code;
            Ok(answer)
        }
        None => Ok(answered(text, "", WRITTEN)),
    }
}

/// Adds the entry of a code, after an empty line if the text is not empty.
fn push_reason(alloc: Global, text: &mut Vec<u8>, reason: Reason) -> Result<(), AllocError> {
    if !text.is_empty() {
        text.push(b'\n')?;
    }
    text.extend_from_slice(reason_text(alloc, reason)?.as_slice())
}
