//! Makes single calls of the umpire's libraries that allocate, each in a position built beforehand.
//! It prints a line for each: its name, `: made: `, and its outcome, which is one of these:
//!
//! - `as owed`: it returned what was expected;
//! - `out of memory, unchanged`: an allocation failed, and the value that it was called on is
//!   unchanged;
//! - `NOT AS OWED`: neither.
//!
//! A word on the command line names the one call that is made. The name is written right before the
//! call, and the next word right after it, so that a test can make only the call's allocations
//! fail. The status is 1 if a position cannot be built or a word names no call, 4 if a line cannot
//! be written.
#![tactic(auto)]

mod boards;
mod call;
mod fault;
mod games;
mod lines;
mod outcome;
mod reports;
mod rounds_played;
mod texts;

use call::Call;
use fault::OutcomeFault;
use outcome::Outcome;
use sheets::{Sheets, collect};
use std::env;
use std::process::ExitCode;
use std::rt::Runtime;
use texts::{CONDITIONS, FIRST, SCRIPT, UNREAD};

fn main(rt: HostRuntime) -> ExitCode {
    match make_all(&rt) {
        Ok(()) => ExitCode::SUCCESS,
        Err(fault) => {
            let _ = eprintln!(rt; "{fault}");
            ExitCode::from(fault.status())
        }
    }
}

/// Makes the call that the command line names, or all calls if it names none.
fn make_all(rt: &HostRuntime) -> Result<(), OutcomeFault> {
    let words: Vec<String> = env::args(rt)?.collect(rt.alloc())?;
    let named = words.get(1);
    let mut count: usize = 0;
    for &call in &Call::ALL {
        if named.is_none_or(|name| name.as_str() == call.name()) {
            print_outcome(rt, make(rt, call)?)?;
            count = count.saturating_add(1);
        }
    }
    if count == 0 {
        Err(OutcomeFault::Name)
    } else {
        Ok(())
    }
}

/// Prints the outcome of a call, and ends its line.
fn print_outcome(rt: &HostRuntime, outcome: Outcome) -> Result<(), OutcomeFault> {
    rt.println(outcome.text())?;
    Ok(())
}

/// Makes a call.
fn make(rt: &HostRuntime, call: Call) -> Result<Outcome, OutcomeFault> {
    match call {
        Call::Collect => lines::collects(rt),
        Call::CollectUnread => lines::collects_unread(rt),
        Call::PrintLine => lines::prints_line(rt),
        Call::PrintConditional => lines::prints_conditional(rt),
        Call::ReadHex => lines::reads_hex(rt),
        Call::PrintHex => lines::prints_hex(rt),
        Call::Append => games::appends(rt),
        Call::BoardOf => boards::lays_out(rt),
        Call::PlainBoardOf => boards::lays_out_plain(rt),
        Call::PutLay => boards::puts_lays(rt),
        Call::PutToken => boards::puts_tokens(rt),
        Call::TryLay => boards::tries_lay(rt),
        Call::TryToken => boards::tries_token(rt),
        Call::Reached => boards::reaches(rt),
        Call::ReachedPlain => boards::reaches_plain(rt),
        Call::Best => boards::finds_best(rt),
        Call::BestPlain => boards::finds_best_plain(rt),
        Call::Search => boards::searches(rt),
        Call::Keeping => boards::keeps(rt),
        Call::Play
        | Call::HeaderText
        | Call::NextText
        | Call::EndText
        | Call::RoundText
        | Call::Report => make_on(rt, call, FIRST),
        Call::PlayConditions => make_on(rt, call, CONDITIONS),
        Call::ReportUnread => make_on(rt, call, UNREAD),
        _ => make_on(rt, call, SCRIPT),
    }
}

/// Makes a call on the sheets of an order file.
fn make_on(rt: &HostRuntime, call: Call, file: &str) -> Result<Outcome, OutcomeFault> {
    let Ok(sheets) = collect(rt.alloc(), file.as_bytes()) else {
        return Err(OutcomeFault::Position);
    };
    make_with(rt, call, &sheets)
}

/// Makes a call on these sheets.
fn make_with(rt: &HostRuntime, call: Call, sheets: &Sheets) -> Result<Outcome, OutcomeFault> {
    match call {
        Call::PlayOpening => rounds_played::plays_opening(rt, sheets),
        Call::PlayStock => rounds_played::plays_stock(rt, sheets),
        Call::PlayCompany => rounds_played::plays_company(rt, sheets),
        Call::Play | Call::PlayConditions => games::plays(rt, sheets, call),
        Call::PlayWith => games::plays_with(rt, sheets),
        Call::StepOpening => games::steps(rt, sheets, call, 0),
        Call::StepStock => games::steps(rt, sheets, call, 1),
        Call::StepOperating => games::steps(rt, sheets, call, 2),
        Call::StepBest => games::steps(rt, sheets, call, 4),
        Call::HeaderText => reports::writes_header(rt, sheets),
        Call::NextText => reports::writes_next(rt, sheets),
        Call::EndText => reports::writes_end(rt, sheets),
        Call::RoundText => reports::writes_round(rt, sheets),
        Call::Report => reports::writes_all(rt, sheets),
        Call::ReportUnread => reports::writes_unread(rt, sheets),
        _ => Err(OutcomeFault::Name),
    }
}
