//! Refuses an order file: writes the one line that says why.
ghost use Rattle.report.specs.Report.{refusal_line};
ghost use Rattle.std.specs.Io.KnownBytes.{Appends};
ghost use Rattle.std.specs.Prelude.{◌≡◌, false, IfErr, OnErr, OnOk};
ghost use Rattle.umpire.specs.Failure.{AppendsPrefix};
ghost use Rattle.umpire.specs.Run.{IsWriteFault, Refuses};
ghost use Rattle.umpire.specs.Watched.{has_failed, inside};

use crate::fault::Fault;
use crate::output::write_text;
use crate::watched::Watched;
use report::refusal_text;
use sheets::FileFault;
use std::alloc::Global;
use std::io::Write;

/// Writes that a file is refused. Returns the fault that the program ends with: that refusal, or
/// what stopped the writing.
pub(crate) fn refuse<W: Write>(alloc: Global, fault: FileFault, writer: &mut Watched<W>) -> Fault
    requires { has_failed writer.old ≡ false }
    ensures { Refuses fault (W.contents (inside writer.old)) (W.contents (inside writer.new))
        (has_failed writer.new) result }
{
    match write_refusal(alloc, fault, writer) {
        Ok(()) => Fault::File(fault),
        Err(stopped) => stopped,
    }
}

/// Writes the one line that says why a file is refused as a whole.
fn write_refusal<W: Write>(
    alloc: Global,
    fault: FileFault,
    writer: &mut Watched<W>,
) -> Result<(), Fault>
    requires { has_failed writer.old ≡ false }
    ensures ok { OnOk result (Appends (W.contents (inside writer.old))
        (W.contents (inside writer.new)) (refusal_line fault)) }
    ensures unfailed { OnOk result (has_failed writer.new ≡ false) }
    ensures err { IfErr result (IsWriteFault (has_failed writer.new)) }
    ensures prefix { OnErr result (AppendsPrefix (W.contents (inside writer.old))
        (W.contents (inside writer.new)) (refusal_line fault)) }
{
    let line = refusal_text(alloc, fault)?;
    write_text(writer, line.as_slice())?;
    Ok(())
}
