//! Writes the end of a report: the unread lines, some of them at a time, and why play stopped.
ghost use Rattle.report.specs.Parts.{end_text_of};
ghost use Rattle.report.specs.Report.{unread_lines};
ghost use Rattle.rounds.specs.Steps.{HasEnded};
ghost use Rattle.std.specs.Io.KnownBytes.{Appends};
ghost use Rattle.std.specs.Prelude.{◌≡◌, false, IfErr, OnErr, OnOk};
ghost use Rattle.umpire.specs.Failure.{AppendsPrefix};
ghost use Rattle.umpire.specs.Run.{IsWriteFault};
ghost use Rattle.umpire.specs.Watched.{has_failed, inside};

use crate::fault::Fault;
use crate::output::write_text;
use crate::watched::Watched;
use report::{outcome_text, unread_text};
use rounds::Play;
use std::alloc::Global;
use std::io::Write;

/// How many unread lines are written at a time. Two bytes of a file may become twenty bytes of a
/// report. So the text of all unread lines may be ten times as long as the file, and is never held
/// at once.
const UNREAD_AT_ONCE: usize = 4_096;

/// Writes what follows the rounds: the unread lines, and why play stopped.
pub(crate) fn write_end<W: Write>(
    alloc: Global,
    play: &Play,
    writer: &mut Watched<W>,
) -> Result<(), Fault>
    requires unfailed { has_failed writer.old ≡ false }
    requires ended { HasEnded play.now }
    ensures ok { OnOk result (Appends (W.contents (inside writer.old))
        (W.contents (inside writer.new)) (end_text_of play.now)) }
    ensures unfailed { OnOk result (has_failed writer.new ≡ false) }
    ensures err { IfErr result (IsWriteFault (has_failed writer.new)) }
    ensures prefix { OnErr result (AppendsPrefix (W.contents (inside writer.old))
        (W.contents (inside writer.new)) (end_text_of play.now)) }
{
    write_unread(alloc, play.sheets().unread(), writer)?;
    let text = outcome_text(alloc, play)?;
    write_text(writer, text.as_slice())?;
    Ok(())
}

/// Writes the lines for all unread lines, some of them at a time.
fn write_unread<W: Write>(
    alloc: Global,
    unread: &[order_grammar::Fault],
    writer: &mut Watched<W>,
) -> Result<(), Fault>
    requires { has_failed writer.old ≡ false }
    ensures ok { OnOk result (Appends (W.contents (inside writer.old))
        (W.contents (inside writer.new)) (unread_lines 0 unread.now)) }
    ensures unfailed { OnOk result (has_failed writer.new ≡ false) }
    ensures err { IfErr result (IsWriteFault (has_failed writer.new)) }
    ensures prefix { OnErr result (AppendsPrefix (W.contents (inside writer.old))
        (W.contents (inside writer.new)) (unread_lines 0 unread.now)) }
{
    let mut before = 0;
    let mut rest = unread;
    while !rest.is_empty() {
        let (part, later) = rest.split_at(rest.len().min(UNREAD_AT_ONCE));
        let text = unread_text(alloc, before, part)?;
        write_text(writer, text.as_slice())?;
        before += part.len();
        rest = later;
    }
    Ok(())
}
