//! Writing certificates. For each company that ran its best they have its runs, and marks with
//! which anybody can check, without a search, that it could not earn more.
ghost use Rattle.best_run.specs.Keeping.{KeepsBest};
ghost use Rattle.operating.specs.Calls.{Makes};
ghost use Rattle.rounds.specs.Steps.{ComesNearer, IsUnbroken, StepCalls, StepLeads};
ghost use Rattle.sheets.specs.File.{IsAccepted};
ghost use Rattle.std.specs.Io.KnownBytes.{Appends};
ghost use Rattle.std.specs.List.{flat_map};
ghost use Rattle.std.specs.Prelude.{◌≡◌, false, IfErr, IfOk, Ok, OnErr, OnOk, Some};
ghost use Rattle.umpire.specs.Certs.{IsCertified, IsCutInGroups, StopsCerts};
ghost use Rattle.umpire.specs.Failure.{AppendsPrefix, TakesWithin};
ghost use Rattle.umpire.specs.Run.{IsWriteFault};
ghost use Rattle.umpire.specs.Watched.{has_failed, inside};
ghost use Rattle.umpire.specs.Written.{group_text, marks_lines, order_line};
ghost use Rattle.order_grammar.specs.declared.order.Order.TheVariants.{Certs};

use crate::fault::Fault;
use crate::group_text::{print_certs, print_claim, print_marks};
use crate::input::read_file;
use crate::output::write_text;
use crate::refusal::refuse;
use crate::watched::Watched;
use best_run::Keeping;
use certificate::{Bits, Group};
use rounds::{Play, Step};
use sheets::{FileFault, Sheets, collect};
use std::alloc::{AllocError, Global};
use std::io::{Read, Write};

/// Reads an order file to its end, or to the first byte past the greatest size of a file, and
/// writes the certificates of its game. They are `CERTS 1`, and for each RUN BEST that is obeyed,
/// in order, a group that `verify` accepts. It plays the game a round at a time, and writes what it
/// found in a round before the next, so that it holds only one round's marks at a time. The writer
/// then holds what it held before, followed, for each result, by
///
/// - `Ok`: the whole text;
/// - `File`, if the file is refused: the whole line that says so;
/// - `Read`, if a read failed: nothing more;
/// - `Write`, if a write failed or took nothing, and `Memory`, if an allocation failed: a prefix of
///   the text of groups that certify the game's first calls, or of that line, or nothing more.
pub fn certs<R: Read, W: Write>(
    alloc: Global,
    reader: &mut Watched<R>,
    writer: &mut Watched<W>,
) -> Result<(), Fault>
    requires reader { has_failed reader.old ≡ false }
    requires writer { has_failed writer.old ≡ false }
    ensures ok { OnOk result (IsCertified (R.remaining (inside reader.old))
        (W.contents (inside writer.old)) (W.contents (inside writer.new))) }
    ensures unfailed { OnOk result
        ((has_failed reader.new ≡ false) × (has_failed writer.new ≡ false)) }
    ensures limit { TakesWithin (R.remaining (inside reader.old))
        (R.remaining (inside reader.new)) }
    ensures err { IfErr result (StopsCerts (R.remaining (inside reader.old))
        (W.contents (inside writer.old)) (W.contents (inside writer.new))
        (has_failed reader.new) (has_failed writer.new)) }
{
    let file = read_file(alloc, reader)?;
    write_certificates(alloc, file.as_slice(), writer)
}

/// Writes the certificates of the game of a file, or the line that says why the file is refused.
fn write_certificates<W: Write>(
    alloc: Global,
    file: &[u8],
    writer: &mut Watched<W>,
) -> Result<(), Fault>
    requires { has_failed writer.old ≡ false }
    ensures ok { OnOk result (IsCertified (Some file.now)
        (W.contents (inside writer.old)) (W.contents (inside writer.new))) }
    ensures unfailed { OnOk result (has_failed writer.new ≡ false) }
    ensures err { IfErr result (StopsCerts (Some file.now)
        (W.contents (inside writer.old)) (W.contents (inside writer.new))
        false (has_failed writer.new)) }
{
    match collect(alloc, file) {
        Ok(sheets) => write_game(alloc, &sheets, writer),
        // An allocation failed: passed on.
        Err(FileFault::Memory) => Err(Fault::Memory),
        Err(fault) => Err(refuse(alloc, fault, writer)),
    }
}

/// Writes the certificates of the game of some sheets.
fn write_game<W: Write>(
    alloc: Global,
    sheets: &Sheets,
    writer: &mut Watched<W>,
) -> Result<(), Fault>
    requires unfailed { has_failed writer.old ≡ false }
    requires accepted { IsAccepted sheets.now }
    ensures ok { OnOk result (IsCertified (Some sheets.now)
        (W.contents (inside writer.old)) (W.contents (inside writer.new))) }
    ensures unfailed { OnOk result (has_failed writer.new ≡ false) }
    ensures err { IfErr result (IsWriteFault (has_failed writer.new)) }
    ensures prefix { OnErr result (IsCutInGroups (Some sheets.now)
        (W.contents (inside writer.old)) (W.contents (inside writer.new))) }
{
    // Laws, which do nothing when they run: the calls of the steps are those of the game, and each
    // of them succeeds.
    rounds::laws::calls_are_answered();
    rounds::laws::steps_call_the_game();
    write_head(alloc, writer)?;
    let mut play = Play::start(alloc, sheets)?;
    loop {
        let mut keeping = Keeping::new(alloc);
        if let Step::Ended(_) = step(&mut play, &mut keeping)? {
            return Ok(());
        }
        write_groups(alloc, keeping.kept(), writer)?;
    }
}

/// Writes the first line of a text of certificates.
fn write_head<W: Write>(alloc: Global, writer: &mut Watched<W>) -> Result<(), Fault>
    requires { has_failed writer.old ≡ false }
    ensures ok { OnOk result (Appends (W.contents (inside writer.old))
        (W.contents (inside writer.new)) (order_line Certs)) }
    ensures unfailed { OnOk result (has_failed writer.new ≡ false) }
    ensures err { IfErr result (IsWriteFault (has_failed writer.new)) }
    ensures prefix { OnErr result (AppendsPrefix (W.contents (inside writer.old))
        (W.contents (inside writer.new)) (order_line Certs)) }
{
    let mut line = Vec::new(alloc);
    print_certs(&mut line)?;
    write_text(writer, line.as_slice())?;
    Ok(())
}

/// Takes a step of a play that was not broken off, searching for the best runs and keeping them.
fn step(play: &mut Play, keeping: &mut Keeping) -> Result<Step, AllocError>
    requires { IsUnbroken play.old }
    ensures step { IfOk result (λ step. StepLeads play.old (Ok step) play.new) }
    ensures calls { OnOk result
        (Makes KeepsBest keeping.old (StepCalls play.old play.new) keeping.new) }
    ensures nearer { IfOk result (λ step. ComesNearer play.old (Ok step) play.new) }
{
    match play.step(keeping) {
        Ok(step) => Ok(step),
        Err(fault) => Err(fault.want_of_memory()),
    }
}

/// Writes the texts of groups, one after another.
fn write_groups<W: Write>(
    alloc: Global,
    groups: &[Group],
    writer: &mut Watched<W>,
) -> Result<(), Fault>
    requires { has_failed writer.old ≡ false }
    ensures ok { OnOk result (Appends (W.contents (inside writer.old))
        (W.contents (inside writer.new)) (flat_map group_text groups.now)) }
    ensures unfailed { OnOk result (has_failed writer.new ≡ false) }
    ensures err { IfErr result (IsWriteFault (has_failed writer.new)) }
    ensures prefix { OnErr result (AppendsPrefix (W.contents (inside writer.old))
        (W.contents (inside writer.new)) (flat_map group_text groups.now)) }
{
    for group in groups {
        write_group(alloc, group, writer)?;
    }
    Ok(())
}

/// Writes the text of a group.
fn write_group<W: Write>(alloc: Global, group: &Group, writer: &mut Watched<W>) -> Result<(), Fault>
    requires { has_failed writer.old ≡ false }
    ensures ok { OnOk result (Appends (W.contents (inside writer.old))
        (W.contents (inside writer.new)) (group_text group.now)) }
    ensures unfailed { OnOk result (has_failed writer.new ≡ false) }
    ensures err { IfErr result (IsWriteFault (has_failed writer.new)) }
    ensures prefix { OnErr result (AppendsPrefix (W.contents (inside writer.old))
        (W.contents (inside writer.new)) (group_text group.now)) }
{
    let mut text = Vec::new(alloc);
    print_claim(&mut text, group)?;
    write_text(writer, text.as_slice())?;
    write_marks(alloc, &group.bits, writer)
}

/// Writes MARKS lines, line by line: the marks of a group may be many.
fn write_marks<W: Write>(alloc: Global, bits: &Bits, writer: &mut Watched<W>) -> Result<(), Fault>
    requires { has_failed writer.old ≡ false }
    ensures ok { OnOk result (Appends (W.contents (inside writer.old))
        (W.contents (inside writer.new)) (marks_lines bits.now)) }
    ensures unfailed { OnOk result (has_failed writer.new ≡ false) }
    ensures err { IfErr result (IsWriteFault (has_failed writer.new)) }
    ensures prefix { OnErr result (AppendsPrefix (W.contents (inside writer.old))
        (W.contents (inside writer.new)) (marks_lines bits.now)) }
{
    let mut marks = bits.reader();
    let mut line = Vec::new(alloc);
    while !marks.is_empty() {
        line.clear();
        print_marks(&mut line, &mut marks)?;
        write_text(writer, line.as_slice())?;
    }
    Ok(())
}
