//! The umpire's program: it reads an order file, plays its game and writes the report as it goes.
ghost use Rattle.report.specs.Report.{header};
ghost use Rattle.rounds.specs.Steps.{ComesNearer, IsUnbroken, StepLeads, started};
ghost use Rattle.sheets.specs.File.{IsAccepted};
ghost use Rattle.std.specs.Io.KnownBytes.{Appends};
ghost use Rattle.std.specs.Prelude.{◌≡◌, false, IfErr, IfOk, Ok, OnErr, OnOk};
ghost use Rattle.umpire.specs.Failure.{AppendsPrefix, TakesWithin};
ghost use Rattle.umpire.specs.Rounds.{WritesAllRounds, WritesPrefixOfRounds};
ghost use Rattle.umpire.specs.Run.{IsReported, IsWriteFault, Stops};
ghost use Rattle.umpire.specs.Watched.{has_failed, inside};

use crate::fault::Fault;
use crate::input::read_file;
use crate::output::write_text;
use crate::refusal::refuse;
use crate::report_end::write_end;
use crate::watched::Watched;
use best_run::Search;
use report::{header_text, next_text};
use rounds::{Play, Step};
use sheets::{FileFault, Sheets, collect};
use std::alloc::{AllocError, Global};
use std::io::{Read, Write};

/// Reads an order file to its end, or to the first byte past the greatest size of a file, and
/// writes its report, part by part. No more than the text of one round, or of 4,096 unread lines,
/// is held at a time. The writer then holds what it held before, followed, for each result, by
///
/// - `Ok`: the whole report;
/// - `File`, if the file is refused: the whole line that says so;
/// - `Read`, if a read failed: nothing more;
/// - `Write`, if a write failed or took nothing: a prefix of the report;
/// - `Memory`, if an allocation failed: a prefix of the report, or nothing more.
pub fn run<R: Read, W: Write>(
    alloc: Global,
    reader: &mut Watched<R>,
    writer: &mut Watched<W>,
) -> Result<(), Fault>
    requires reader { has_failed reader.old ≡ false }
    requires writer { has_failed writer.old ≡ false }
    ensures ok { OnOk result (IsReported (R.remaining (inside reader.old))
        (W.contents (inside writer.old)) (W.contents (inside writer.new))) }
    ensures unfailed { OnOk result
        ((has_failed reader.new ≡ false) × (has_failed writer.new ≡ false)) }
    ensures limit { TakesWithin (R.remaining (inside reader.old))
        (R.remaining (inside reader.new)) }
    ensures err { IfErr result (Stops (R.remaining (inside reader.old))
        (W.contents (inside writer.old)) (W.contents (inside writer.new))
        (has_failed reader.new) (has_failed writer.new)) }
{
    // A law, which does nothing when it runs: each file has a report, and nothing is a prefix of
    // it.
    report::laws::some_report();
    let file = read_file(alloc, reader)?;
    write_answer(alloc, file.as_slice(), writer)
}

/// Writes what `run` writes for a file: the report of its game, or the line that says why it is
/// refused.
fn write_answer<W: Write>(alloc: Global, file: &[u8], writer: &mut Watched<W>) -> Result<(), Fault>
    requires { has_failed writer.old ≡ false }
    ensures ok { OnOk result (IsReported (Some file.now)
        (W.contents (inside writer.old)) (W.contents (inside writer.new))) }
    ensures unfailed { OnOk result (has_failed writer.new ≡ false) }
    ensures err { IfErr result (Stops (Some file.now)
        (W.contents (inside writer.old)) (W.contents (inside writer.new))
        false (has_failed writer.new)) }
{
    // The same law as in `run`.
    report::laws::some_report();
    match collect(alloc, file) {
        Ok(sheets) => write_game(alloc, &sheets, writer),
        // An allocation failed: passed on.
        Err(FileFault::Memory) => Err(Fault::Memory),
        Err(fault) => Err(refuse(alloc, fault, writer)),
    }
}

/// Writes the report of the game of some sheets.
fn write_game<W: Write>(
    alloc: Global,
    sheets: &Sheets,
    writer: &mut Watched<W>,
) -> Result<(), Fault>
    requires unfailed { has_failed writer.old ≡ false }
    requires accepted { IsAccepted sheets.now }
    ensures ok { OnOk result (IsReported (Some sheets.now)
        (W.contents (inside writer.old)) (W.contents (inside writer.new))) }
    ensures unfailed { OnOk result (has_failed writer.new ≡ false) }
    ensures err { IfErr result (Stops (Some sheets.now)
        (W.contents (inside writer.old)) (W.contents (inside writer.new))
        false (has_failed writer.new)) }
{
    // Laws, which do nothing when they run: the file has a report, which is made of its parts.
    report::laws::some_report();
    report::laws::parts_are_the_report();
    write_header(alloc, sheets, writer)?;
    let mut play = Play::start(alloc, sheets)?;
    write_rounds(alloc, &mut play, writer)?;
    write_end(alloc, &play, writer)?;
    Ok(())
}

/// Writes the header.
pub(crate) fn write_header<W: Write>(
    alloc: Global,
    sheets: &Sheets,
    writer: &mut Watched<W>,
) -> Result<(), Fault>
    requires { has_failed writer.old ≡ false }
    ensures ok { OnOk result (Appends (W.contents (inside writer.old))
        (W.contents (inside writer.new)) (header sheets.now)) }
    ensures unfailed { OnOk result (has_failed writer.new ≡ false) }
    ensures err { IfErr result (IsWriteFault (has_failed writer.new)) }
    ensures prefix { OnErr result (AppendsPrefix (W.contents (inside writer.old))
        (W.contents (inside writer.new)) (header sheets.now)) }
{
    let text = header_text(alloc, sheets)?;
    write_text(writer, text.as_slice())?;
    Ok(())
}

/// Plays the game as far as its sheets go, and writes the text of each round before it plays the
/// next.
fn write_rounds<W: Write>(
    alloc: Global,
    play: &mut Play,
    writer: &mut Watched<W>,
) -> Result<(), Fault>
    requires unfailed { has_failed writer.old ≡ false }
    requires started { play.old ≡ started play.old.file }
    ensures ok { OnOk result (WritesAllRounds play.old.file play.new
        (W.contents (inside writer.old)) (W.contents (inside writer.new))) }
    ensures unfailed { OnOk result (has_failed writer.new ≡ false) }
    ensures err { IfErr result (IsWriteFault (has_failed writer.new)) }
    ensures prefix { OnErr result (WritesPrefixOfRounds play.old.file
        (W.contents (inside writer.old)) (W.contents (inside writer.new))) }
{
    let mut search = Search::new(alloc);
    while let Step::Played(_) = step(play, &mut search)? {
        let text = next_text(alloc, play)?;
        write_text(writer, text.as_slice())?;
    }
    Ok(())
}

/// Takes a step of a play that was not broken off, searching for the greatest revenues.
fn step(play: &mut Play, search: &mut Search) -> Result<Step, AllocError>
    requires { IsUnbroken play.old }
    ensures step { IfOk result (λ step. StepLeads play.old (Ok step) play.new) }
    ensures nearer { IfOk result (λ step. ComesNearer play.old (Ok step) play.new) }
{
    match play.step(search) {
        Ok(step) => Ok(step),
        Err(fault) => Err(fault.want_of_memory()),
    }
}
