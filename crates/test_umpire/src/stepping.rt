//! A game a round at a time, with the parts of its report.

use crate::refusing::{Refusing, file};
use crate::support::{FIRST, FIRST_REPORT};
use best_run::Search;
use certificate::Runner;
use report::{end_text, header_text, next_text};
use rounds::{End, Play, PlayFault, Step};
use sheets::{Sheets, collect};
use std::alloc::{AllocError, Global};
use std::test::Fail;
use tables::{Company, Round};

/// What a step returns.
type Answer = Result<Step, PlayFault>;

/// A game in which ANN must buy PRR a 4 in OR3.1, and has nothing to sell for it.
const BANKRUPT: &str = "GAME 1830 1
PLAYERS ANN BOB CYD
SHEET ANN PR1
TURN
BID CS 589
SHEET BOB PR1
TURN
BUY SV
TURN
BUY MH
TURN
BUY CA
SHEET CYD PR1
PAR BO 76
TURN
BUY DH
TURN
TURN
BUY BOP
SHEET ANN SR1
TURN
PAR PRR 67
TURN
BUY PRR IPO
SHEET BOB SR1
TURN
EXCHANGE MH
PAR NYC 100
TURN
BUY NYC IPO
TURN
BUY PRR IPO
TURN
BUY PRR IPO
SHEET CYD SR1
TURN
BUY BO IPO
TURN
BUY BO IPO
TURN
BUY BO IPO
TURN
BUY BO IPO
TURN
BUY NYC IPO
TURN
BUY NYC IPO
SHEET ANN OR1.1
COMPANY PRR
LAY 57 H10 1
TRAIN 2 BANK
TRAIN 2 BANK
TRAIN 2 BANK
TRAIN 2 BANK
SHEET BOB OR1.1
SHEET CYD OR1.1
COMPANY BO
TRAIN 2 BANK
TRAIN 2 BANK
SHEET ANN SR2
SHEET BOB SR2
SHEET CYD SR2
SHEET ANN OR2.1
COMPANY PRR
PRIVATE CA 175
SHEET BOB OR2.1
OFFER PRIVATE CA PRR 175
COMPANY NYC
TRAIN 3 BANK
TRAIN 3 BANK
TRAIN 3 BANK
SHEET CYD OR2.1
COMPANY BO
TRAIN 3 BANK
TRAIN 3 BANK
SHEET ANN SR3
SHEET BOB SR3
SHEET CYD SR3
SHEET ANN OR3.1
SHEET BOB OR3.1
COMPANY NYC
TRAIN 4 BANK
SHEET CYD OR3.1
COMPANY BO
TRAIN 3 POOL
";

/// A game that breaks the bank in its stock round, up to its second opening round. BOP is sold in
/// the 134th, and in each earlier one the privates take 75 from the bank.
const FIRST_OPENING: &str = "GAME 1830 1
PLAYERS ANN BOB CYD
SHEET ANN PR1
TURN
BUY SV
TURN
BUY CS
TURN
BUY DH
TURN
BUY MH
TURN
BUY CA
SHEET BOB PR1
SHEET CYD PR1
";

/// The last of its opening rounds, and the set in which it ends.
const LAST_ROUNDS: &str = "SHEET ANN PR134
SHEET BOB PR134
TURN
BUY BOP
SHEET CYD PR134
SHEET ANN SR1
TURN
BUY BO IPO
TURN
BUY BO IPO
TURN
BUY BO IPO
TURN
BUY BO IPO
TURN
PAR NYC 100
TURN
BUY NYC IPO
TURN
BUY NYC IPO
TURN
BUY NYC IPO
TURN
BUY NYC IPO
SHEET BOB SR1
SHEET CYD SR1
SHEET ANN OR1.1
SHEET BOB OR1.1
SHEET CYD OR1.1
";

/// What a play shows, except the text of its last round.
#[derive(Clone, Copy, PartialEq, Eq)]
struct Shown {
    last_round: Option<Round>,
    outcome: Option<End>,
    has_history: bool,
}

/// Returns what a play shows.
fn what_shows(play: &Play) -> Shown {
    Shown {
        last_round: play.last_round(),
        outcome: play.outcome(),
        has_history: play.history().is_some(),
    }
}

/// What a step returned, what the play then shows, and whether the last round has a text.
#[derive(Clone, Copy)]
struct After {
    answer: Answer,
    shown: Shown,
    has_text: bool,
}

/// Takes a step.
fn step<R: Runner>(alloc: Global, play: &mut Play, runner: &mut R) -> Result<After, AllocError> {
    let answer = play.step(runner);
    Ok(After {
        answer,
        shown: what_shows(play),
        has_text: has_text(alloc, play)?,
    })
}

/// Returns whether the last round played has a text.
fn has_text(alloc: Global, play: &Play) -> Result<bool, AllocError> {
    Ok(!next_text(alloc, play)?.is_empty())
}

/// Returns whether a play shows nothing before its first step.
fn shows_nothing_before(alloc: Global, sheets: &Sheets) -> Result<bool, AllocError> {
    let play = Play::start(alloc, sheets)?;
    let shown = what_shows(&play);
    Ok(shown.last_round.is_none() && shown.outcome.is_none() && !has_text(alloc, &play)?)
}

/// Takes this many steps, at least one. Returns the last of them.
fn last_step<R: Runner>(
    alloc: Global,
    play: &mut Play,
    runner: &mut R,
    steps: u32,
) -> Result<After, AllocError> {
    let mut last = step(alloc, play, runner)?;
    for _ in 1..steps {
        last = step(alloc, play, runner)?;
    }
    Ok(last)
}

/// Returns the last of this many steps of a play, at least one.
fn after_steps(alloc: Global, sheets: &Sheets, steps: u32) -> Result<After, AllocError> {
    let mut play = Play::start(alloc, sheets)?;
    last_step(alloc, &mut play, &mut Search::new(alloc), steps)
}

/// Returns whether the last of this many steps returns this, and the play then shows this round and
/// this end.
fn shows(
    alloc: Global,
    sheets: &Sheets,
    steps: u32,
    answer: Step,
    last_round: Round,
    outcome: Option<End>,
) -> Result<bool, AllocError> {
    let last = after_steps(alloc, sheets, steps)?;
    Ok(
        last.answer == Ok(answer)
            && last.shown.last_round == Some(last_round)
            && last.shown.outcome == outcome,
    )
}

/// Returns whether a game shows nothing before its one round is played, then that round, and then
/// that it has stopped, also after one more step.
fn is_stepped_through(alloc: Global, sheets: &Sheets) -> Result<bool, AllocError> {
    let first = Round::Opening(1);
    let awaiting = End::Awaiting(Round::Opening(2));
    let ended = Step::Ended(awaiting);
    Ok(
        shows_nothing_before(alloc, sheets)?
            && shows(alloc, sheets, 1, Step::Played(first), first, None)?
            && shows(alloc, sheets, 2, ended, first, Some(awaiting))?
            && shows(alloc, sheets, 3, ended, first, Some(awaiting))?,
    )
}

/// Takes a step. Returns the end of the report, if the step returns that play has stopped.
fn end_at<R: Runner>(
    alloc: Global,
    play: &mut Play,
    runner: &mut R,
) -> Result<Option<Vec<u8>>, AllocError> {
    match play.step(runner) {
        Ok(Step::Ended(_)) => Ok(Some(end_text(alloc, play)?)),
        Ok(Step::Played(_)) | Err(_) => Ok(None),
    }
}

/// Adds the text of the round that was played last. Returns whether it begins with the line of that
/// round.
fn add_round(alloc: Global, play: &Play, all: &mut Vec<u8>) -> Result<bool, AllocError> {
    let round = next_text(alloc, play)?;
    all.extend_from_slice(round.as_slice())?;
    Ok(round.as_slice().starts_with(b"ROUND PR1\n"))
}

/// Takes a step, and adds the end of the report. Returns whether play has stopped, and that text
/// begins as it should.
fn add_end(alloc: Global, play: &mut Play, all: &mut Vec<u8>) -> Result<bool, AllocError> {
    let mut search = Search::new(alloc);
    let Some(end) = end_at(alloc, play, &mut search)? else {
        return Ok(false);
    };
    all.extend_from_slice(end.as_slice())?;
    Ok(end.as_slice().starts_with(b"AWAITING PR2 "))
}

/// Adds the text of the one round of a game, and then the end. Returns whether each begins as it
/// should.
fn add_parts(alloc: Global, play: &mut Play, all: &mut Vec<u8>) -> Result<bool, AllocError> {
    let _played = play.step(&mut Search::new(alloc));
    Ok(add_round(alloc, play, all)? && add_end(alloc, play, all)?)
}

/// Returns whether this is the report of a game of one round, joined from its parts: the header,
/// the text of the round, the end.
fn is_report_by_parts(alloc: Global, sheets: &Sheets, report: &[u8]) -> Result<bool, AllocError> {
    let mut all = header_text(alloc, sheets)?;
    let mut play = Play::start(alloc, sheets)?;
    Ok(add_parts(alloc, &mut play, &mut all)? && all.as_slice() == report)
}

/// Takes this many steps, at least one, with a runner that refuses, and then one with a runner that
/// searches. Returns the last of each.
fn after_refusals(
    alloc: Global,
    sheets: &Sheets,
    steps: u32,
) -> Result<(After, After), AllocError> {
    let mut play = Play::start(alloc, sheets)?;
    let last = last_step(alloc, &mut play, &mut Refusing, steps)?;
    let later = last_step(alloc, &mut play, &mut Search::new(alloc), 1)?;
    Ok((last, later))
}

/// Returns the same of the game in which PRR is to run its best in OR2.1.
fn after_refused_runs(alloc: Global, steps: u32) -> Result<(After, After), Fail> {
    let file = file(alloc, "RUN BEST\n")?;
    let sheets = collect(alloc, file.as_slice())?;
    Ok(after_refusals(alloc, &sheets, steps)?)
}

/// Returns whether a step returns this fault, and the play then shows only that this round was the
/// last.
fn is_broken_off(after: &After, fault: PlayFault, last_round: Round) -> bool {
    let shown = Shown {
        last_round: Some(last_round),
        outcome: None,
        has_history: false,
    };
    after.answer == Err(fault) && after.shown == shown && !after.has_text
}

/// Returns how many rounds a play has before it stops, and why; `None` if it fails.
fn steps_to_end(alloc: Global, play: &mut Play) -> Result<Option<(u32, End)>, PlayFault> {
    let mut search = Search::new(alloc);
    for played in 0..1000 {
        if let Step::Ended(end) = play.step(&mut search)? {
            return Ok(Some((played, end)));
        }
    }
    Ok(None)
}

/// Returns whether the game of these sheets stops after this many rounds, for this reason, and then
/// stays stopped.
fn ends(alloc: Global, sheets: &Sheets, rounds: u32, end: End) -> Result<bool, PlayFault> {
    let mut play = Play::start(alloc, sheets)?;
    let first = steps_to_end(alloc, &mut play)?;
    let again = steps_to_end(alloc, &mut play)?;
    Ok(first == Some((rounds, end)) && again == Some((0, end)))
}

/// Returns the order file of the game that breaks the bank.
fn file_of_bank(alloc: Global) -> Result<String, AllocError> {
    let mut text = String::new(alloc);
    text.push_str(FIRST_OPENING)?;
    for round in 2..134 {
        for &name in &["ANN", "BOB", "CYD"] {
            write!(text, "SHEET {name} PR{round}\n")?;
        }
    }
    text.push_str(LAST_ROUNDS)?;
    Ok(text)
}

#[test]
fn steps_through_a_game(rt: HostRuntime) -> Result<(), Fail> {
    let sheets = collect(rt.alloc(), FIRST.as_bytes())?;
    assert!(rt; is_stepped_through(rt.alloc(), &sheets)?);
    Ok(())
}

#[test]
fn writes_the_report_by_its_parts(rt: HostRuntime) -> Result<(), Fail> {
    let sheets = collect(rt.alloc(), FIRST.as_bytes())?;
    assert!(rt; is_report_by_parts(rt.alloc(), &sheets, FIRST_REPORT.as_bytes())?);
    Ok(())
}

#[test]
fn plays_on_with_another_runner(rt: HostRuntime) -> Result<(), Fail> {
    let (played, later) = after_refused_runs(rt.alloc(), 4)?;
    let round = Round::Operating { set: 2, number: 1 };
    assert!(rt; played.answer == Ok(Step::Played(Round::Stock(2))) && played.shown.has_history);
    assert!(rt; later.answer == Ok(Step::Played(round)));
    Ok(())
}

#[test]
fn stays_broken_off(rt: HostRuntime) -> Result<(), Fail> {
    let (broken, again) = after_refused_runs(rt.alloc(), 5)?;
    let round = Round::Operating { set: 2, number: 1 };
    let refused = PlayFault::Refused(round, Company::Pennsylvania);
    assert!(rt; is_broken_off(&broken, refused, Round::Stock(2)));
    assert!(rt; is_broken_off(&again, refused, Round::Stock(2)));
    Ok(())
}

#[test]
fn stops_at_a_bankruptcy(rt: HostRuntime) {
    let Ok(sheets) = collect(rt.alloc(), BANKRUPT.as_bytes()) else {
        panic!(rt; "refused")
    };
    assert_eq!(rt; ends(rt.alloc(), &sheets, 7, End::Bankrupt), Ok(true));
}

#[test]
fn stops_where_the_bank_breaks(rt: HostRuntime) -> Result<(), Fail> {
    let file = file_of_bank(rt.alloc())?;
    let Ok(sheets) = collect(rt.alloc(), file.as_str().as_bytes()) else {
        panic!(rt; "refused")
    };
    assert_eq!(rt; ends(rt.alloc(), &sheets, 136, End::Bank), Ok(true));
    Ok(())
}
