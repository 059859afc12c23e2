//! The umpire's program. Each of its words reads standard input and writes standard output.
//! `report` reads an order file and writes its report. `certs` reads an order file and writes the
//! certificates of its best runs. `verify` reads an order file with certificates after it, and
//! writes its report if they show that its best runs are indeed the best. `migrate` reads an order
//! file and writes the file of version 2 that it migrates to.
#![tactic(auto)]

use clap::error::ErrorKind;
use clap::{Command, Error};
use std::alloc::{AllocError, Global};
use std::process::ExitCode;
use std::rt::Runtime;
use std::{env, io};
use umpire::{Fault, Watched, certs, migrate, run, status, verify, word};

/// The status for a command line that names no task.
const MISUSED: u8 = 1;

/// What the program can do.
#[derive(Clone, Copy, Debug, PartialEq, Eq)]
enum Task {
    /// The report of an order file.
    Report,
    /// The certificates of its best runs.
    Certs,
    /// Its report, checked by the certificates after it.
    Verify,
    /// The file of version 2 that it migrates to.
    Migrate,
}

fn main(rt: HostRuntime) -> ExitCode {
    match words(&rt) {
        Ok(words) => start(&rt, words.as_slice()),
        Err(error) => no_words(&rt, &error),
    }
}

/// Returns the words of the command line.
fn words(rt: &HostRuntime) -> io::Result<Vec<String>> {
    Ok(env::args(rt)?.collect(rt.alloc())?)
}

/// Ends the program if the command line could not be read: it is not valid text, or an allocation
/// failed.
fn no_words(rt: &HostRuntime, error: &io::Error) -> ExitCode {
    if error.kind() == io::ErrorKind::OutOfMemory {
        // An allocation failed: passed on.
        return end(rt, &Err(Fault::Memory));
    }
    let _ = eprintln!(rt; "error: the command line is not valid text");
    ExitCode::from(MISUSED)
}

/// Carries out what the command line says.
fn start(rt: &HostRuntime, words: &[String]) -> ExitCode {
    match parse(rt.alloc(), words) {
        Ok(task) => perform(rt, task),
        Err(error) => misuse(rt, &error),
    }
}

/// Returns the task that the command line names. The error has the text to print.
fn parse(alloc: Global, words: &[String]) -> Result<Task, Error> {
    let matches = command(alloc)?.try_get_matches_from(words)?;
    Ok(match matches.subcommand_name() {
        Some("certs") => Task::Certs,
        Some("verify") => Task::Verify,
        Some("migrate") => Task::Migrate,
        _ => Task::Report,
    })
}

/// Returns the words that the command line may have. Fails if allocation fails.
fn command<'a>(alloc: Global) -> Result<Command<'a>, AllocError> {
    Command::new(alloc, "umpire")
        .about("Plays 1830 from written order sheets: the order file on standard input")
        .bin_name("umpire")?
        .subcommand_required(true)
        .subcommand(Command::new(alloc, "report").about("Writes the report of the order file"))?
        .subcommand(Command::new(alloc, "certs").about("Writes the certificates of its best runs"))?
        .subcommand(Command::new(alloc, "verify").about(
            "Checks the certificates that follow, and writes the report",
        ))?
        .subcommand(Command::new(alloc, "migrate").about("Converts the file to version 2"))
}

/// Prints what is wrong with the command line.
fn misuse(rt: &HostRuntime, error: &Error) -> ExitCode {
    if error.kind() == ErrorKind::OutOfMemory {
        // An allocation failed: passed on.
        return end(rt, &Err(Fault::Memory));
    }
    let _ = rt.eprint(error);
    ExitCode::from(MISUSED)
}

/// Reads standard input and writes what is requested.
fn perform(rt: &HostRuntime, task: Task) -> ExitCode {
    let mut reader = Watched::new(rt.reader());
    let mut writer = Watched::new(io::writer(rt));
    let outcome = match task {
        Task::Report => run(rt.alloc(), &mut reader, &mut writer),
        Task::Certs => certs(rt.alloc(), &mut reader, &mut writer),
        Task::Verify => verify(rt.alloc(), &mut reader, &mut writer),
        Task::Migrate => migrate(rt.alloc(), &mut reader, &mut writer),
    };
    end(rt, &outcome)
}

/// Ends the program: a fault's word on standard error, and the status.
fn end(rt: &HostRuntime, outcome: &Result<(), Fault>) -> ExitCode {
    if let Err(fault) = outcome {
        let word = word(fault);
        if !word.is_empty() {
            let _ = eprintln!(rt; "{word}");
        }
    }
    ExitCode::from(status(outcome))
}
