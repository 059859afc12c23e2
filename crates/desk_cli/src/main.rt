//! The desk's program. Each of its words but `explain` reads an order file from standard input, and
//! each writes text to standard output: `round` a round's part of the report, ready to be mailed;
//! `state` the state of the game.
//!
//! Reading order: `task` (the command line), `streams` (standard input and output), `answers` (what
//! is written, and the status), `waiting` (progress on standard error), `version`.
#![tactic(auto)]

mod answers;
mod streams;
mod task;
mod version;
mod waiting;

use crate::answers::{Answer, MISUSED, answer_to};
use crate::streams::{StreamFault, read_file, write_text};
use crate::task::{Asked, Task, asked_by};
use crate::waiting::Waiting;
use clap::Error;
use clap::error::ErrorKind;
use std::process::ExitCode;
use std::rt::Runtime;
use std::{env, io};

/// The status if a read, a write or an allocation failed.
const FAILED: u8 = 4;

fn main(rt: HostRuntime) -> ExitCode {
    match words(&rt) {
        Ok(words) => start(&rt, words.as_slice()),
        // An allocation failed: passed on.
        Err(error) if error.kind() == io::ErrorKind::OutOfMemory => fail(&rt, StreamFault::Memory),
        Err(_) => misuse(&rt, "the command line is not valid text"),
    }
}

/// Returns the words of the command line.
fn words(rt: &HostRuntime) -> io::Result<Vec<String>> {
    Ok(env::args(rt)?.collect(rt.alloc())?)
}

/// Does what the command line asks for.
fn start(rt: &HostRuntime, words: &[String]) -> ExitCode {
    match asked_by(rt.alloc(), words) {
        Ok(Asked::Task(task)) => end(rt, perform(rt, &task)),
        Ok(Asked::Nothing(what)) => misuse(rt, what),
        Err(error) => no_task(rt, &error),
    }
}

/// Prints what is wrong with the command line, or the help or the version that it asks for.
fn no_task(rt: &HostRuntime, error: &Error) -> ExitCode {
    if error.kind() == ErrorKind::OutOfMemory {
        // An allocation failed: passed on.
        return fail(rt, StreamFault::Memory);
    }
    let shown = error.print(rt);
    if error.use_stderr() {
        return ExitCode::from(MISUSED);
    }
    match shown {
        Ok(()) => ExitCode::SUCCESS,
        Err(_) => fail(rt, StreamFault::Write),
    }
}

/// Reads standard input and writes what is asked for. Returns the status.
fn perform(rt: &HostRuntime, task: &Task) -> Result<u8, StreamFault> {
    let file = if task.needs_file() {
        read_file(rt.alloc(), rt.reader())?
    } else {
        Vec::new(rt.alloc())
    };
    let mut waiting = Waiting::new(rt);
    let answer = answer_to(rt.alloc(), file.as_slice(), task, &mut waiting)?;
    write_text(io::writer(rt), answer.text.as_slice())?;
    if !answer.note.is_empty() {
        say(rt, &answer);
    }
    Ok(answer.status)
}

/// Prints the note of an answer on standard error, after the names of those whom it is about.
fn say(rt: &HostRuntime, answer: &Answer) {
    if let Some(names) = &answer.names {
        if let Ok(names) = str::from_utf8(names.as_slice()) {
            let _ = eprintln!(rt; "desk: {}{}", names, answer.note);
            return;
        }
    }
    let _ = eprintln!(rt; "desk: {}{}", answer.note, answer.about);
}

/// Ends the program.
fn end(rt: &HostRuntime, outcome: Result<u8, StreamFault>) -> ExitCode {
    match outcome {
        Ok(status) => ExitCode::from(status),
        Err(fault) => fail(rt, fault),
    }
}

/// Ends the program after a failed read, write or allocation, and prints on standard error which it
/// was.
fn fail(rt: &HostRuntime, fault: StreamFault) -> ExitCode {
    let _ = eprintln!(rt; "{}", fault.word());
    ExitCode::from(FAILED)
}

/// Ends the program, and prints what is wrong with the command line.
fn misuse(rt: &HostRuntime, what: &str) -> ExitCode {
    let _ = eprintln!(rt; "error: {what}");
    ExitCode::from(MISUSED)
}
