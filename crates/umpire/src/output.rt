//! Writes a whole text, in as many writes as the writer needs.
ghost use Rattle.std.specs.Io.KnownBytes.{Appends};
ghost use Rattle.std.specs.Prelude.{◌≡◌, true, false, IfErr, OnErr, OnOk};
ghost use Rattle.umpire.specs.Failure.{AppendsPrefix};
ghost use Rattle.umpire.specs.declared.fault.Fault.TheVariants as fault;
ghost use Rattle.umpire.specs.Watched.{has_failed, inside};

use crate::fault::Fault;
use crate::watched::Watched;
use std::io::Write;

/// Writes all the bytes.
pub(crate) fn write_text<W: Write>(writer: &mut Watched<W>, text: &[u8]) -> Result<(), Fault>
    requires { has_failed writer.old ≡ false }
    ensures ok { OnOk result (Appends (W.contents (inside writer.old))
        (W.contents (inside writer.new)) text.now) }
    ensures unfailed { OnOk result (has_failed writer.new ≡ false) }
    ensures fault { IfErr result (λ error. error ≡ fault.Write) }
    ensures failed { OnErr result (has_failed writer.new ≡ true) }
    ensures prefix { OnErr result (AppendsPrefix (W.contents (inside writer.old))
        (W.contents (inside writer.new)) text.now) }
{
    let mut done = 0;
    while done < text.len() {
        match writer.write(&text[done..]) {
            Ok(0) | Err(_) => return Err(Fault::Write),
            Ok(count) => done += count,
        }
    }
    Ok(())
}
