//! Gathers short texts, so that they are written in long pieces.
ghost use Rattle.std.specs.Io.KnownBytes.{Appends};
ghost use Rattle.std.specs.Prelude.{◌≡◌, ◌++◌, [], false, IfErr, OnErr, OnOk};
ghost use Rattle.umpire.specs.Failure.{AppendsPrefix};
ghost use Rattle.umpire.specs.Gathered.{Gathers};
ghost use Rattle.umpire.specs.Run.{IsWriteFault};
ghost use Rattle.umpire.specs.Watched.{has_failed, inside};

use crate::fault::Fault;
use crate::output::write_text;
use crate::watched::Watched;
use std::io::Write;

/// The number of bytes from which on a text is written at once; a shorter one is gathered with what
/// follows it.
const PIECE: usize = 65_536;

/// Adds a text to the gathered ones, and writes them once they are long enough. At most two pieces
/// are gathered.
pub(crate) fn put<W: Write>(
    gathered: &mut Vec<u8>,
    text: &[u8],
    writer: &mut Watched<W>,
) -> Result<(), Fault>
    requires { has_failed writer.old ≡ false }
    ensures ok { OnOk result (Gathers (W.contents (inside writer.old))
        (W.contents (inside writer.new)) gathered.old.items gathered.new.items text.now) }
    ensures unfailed { OnOk result (has_failed writer.new ≡ false) }
    ensures err { IfErr result (IsWriteFault (has_failed writer.new)) }
    ensures prefix { OnErr result (AppendsPrefix (W.contents (inside writer.old))
        (W.contents (inside writer.new)) (gathered.old.items ++ text.now)) }
{
    if text.len() >= PIECE {
        write_gathered(gathered, writer)?;
        write_text(writer, text)?;
        return Ok(());
    }
    make_room(gathered, writer)?;
    gathered.extend_from_slice(text)?;
    Ok(())
}

/// Writes what is gathered, if it is long enough.
fn make_room<W: Write>(gathered: &mut Vec<u8>, writer: &mut Watched<W>) -> Result<(), Fault>
    requires { has_failed writer.old ≡ false }
    ensures ok { OnOk result (Gathers (W.contents (inside writer.old))
        (W.contents (inside writer.new)) gathered.old.items gathered.new.items []) }
    ensures unfailed { OnOk result (has_failed writer.new ≡ false) }
    ensures err { IfErr result (IsWriteFault (has_failed writer.new)) }
    ensures prefix { OnErr result (AppendsPrefix (W.contents (inside writer.old))
        (W.contents (inside writer.new)) gathered.old.items) }
{
    if gathered.len() < PIECE {
        return Ok(());
    }
    write_gathered(gathered, writer)?;
    Ok(())
}

/// Writes what is gathered.
pub(crate) fn write_gathered<W: Write>(
    gathered: &mut Vec<u8>,
    writer: &mut Watched<W>,
) -> Result<(), Fault>
    requires { has_failed writer.old ≡ false }
    ensures ok { OnOk result (Appends (W.contents (inside writer.old))
        (W.contents (inside writer.new)) gathered.old.items) }
    ensures empty { OnOk result (gathered.new.items ≡ []) }
    ensures unfailed { OnOk result (has_failed writer.new ≡ false) }
    ensures err { IfErr result (IsWriteFault (has_failed writer.new)) }
    ensures prefix { OnErr result (AppendsPrefix (W.contents (inside writer.old))
        (W.contents (inside writer.new)) gathered.old.items) }
{
    write_text(writer, gathered.as_slice())?;
    gathered.clear();
    Ok(())
}
