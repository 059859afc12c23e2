//! Reads the input piece by piece, up to a limit: it reads an order file no further than the first
//! byte past the greatest size.
ghost use Rattle.std.specs.Io.KnownBytes.{Consumes};
ghost use Rattle.std.specs.Prelude.{◌≡◌, false, IfOk, IfErr, OnOk, IfSome};
ghost use Rattle.umpire.specs.Failure.{TakesAtMost, TakesWithin};
ghost use Rattle.umpire.specs.Run.{AreFirst, IsAsRead, IsReadFault};
ghost use Rattle.umpire.specs.Watched.{has_failed, inside};

use crate::fault::Fault;
use crate::watched::Watched;
use sheets::FILE_MOST;
use std::alloc::Global;
use std::io::Read;

/// How many bytes are requested at a time.
const PIECE: usize = 65_536;

/// Reads the order file to its end, or to the first byte past the greatest size of a file.
#[tactic(auto, unfolding(crate::specs::Run::as_read))]
pub(crate) fn read_file<R: Read>(alloc: Global, reader: &mut Watched<R>) -> Result<Vec<u8>, Fault>
    requires { has_failed reader.old ≡ false }
    ensures file { IfOk result (λ file. IsAsRead (R.remaining (inside reader.old)) file.items) }
    ensures limit { TakesWithin (R.remaining (inside reader.old))
        (R.remaining (inside reader.new)) }
    ensures taken { IfOk result (λ file. Consumes (R.remaining (inside reader.old))
        (R.remaining (inside reader.new)) file.items) }
    ensures ok { OnOk result (has_failed reader.new ≡ false) }
    ensures err { IfErr result (IsReadFault (has_failed reader.new)) }
{
    read_first(alloc, FILE_MOST + 1, reader)
}

/// Reads this many bytes, or all if there are fewer.
pub(crate) fn read_first<R: Read>(
    alloc: Global,
    most: usize,
    reader: &mut Watched<R>,
) -> Result<Vec<u8>, Fault>
    requires { has_failed reader.old ≡ false }
    ensures bytes { IfOk result
        (λ bytes. AreFirst most (R.remaining (inside reader.old)) bytes.items) }
    ensures limit { TakesAtMost most (R.remaining (inside reader.old))
        (R.remaining (inside reader.new)) }
    ensures taken { IfOk result (λ bytes. Consumes (R.remaining (inside reader.old))
        (R.remaining (inside reader.new)) bytes.items) }
    ensures ok { OnOk result (has_failed reader.new ≡ false) }
    ensures err { IfErr result (IsReadFault (has_failed reader.new)) }
{
    let mut file = Vec::new(alloc);
    let mut buffer = [0; PIECE];
    while file.len() < most {
        let wanted = PIECE.min(most - file.len());
        let Ok(count) = reader.read(&mut buffer[..wanted]) else {
            return Err(Fault::Read);
        };
        if count == 0 {
            return Ok(file);
        }
        file.extend_from_slice(&buffer[..count])?;
    }
    Ok(file)
}
