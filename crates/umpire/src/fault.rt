//! The faults that stop the umpire, with the exit status and the word for standard error.
ghost use Rattle.std.specs.Prelude.{◌≡◌};
ghost use Rattle.umpire.specs.Fault.{status_of, word_of};
ghost use Rattle.umpire.specs.declared.fault.Fault.TheVariants.{Memory};

use sheets::FileFault;
use std::alloc::AllocError;
use tables::{Company, Round};
use thiserror::Error;

/// Why the umpire stopped before it had written its whole report.
#[derive(Clone, Copy, Debug, PartialEq, Eq, Drop, Error)]
pub enum Fault {
    /// A read failed.
    #[error("the order file could not be read")]
    Read,
    /// A write failed, or took nothing.
    #[error("the report could not be written")]
    Write,
    /// An allocation failed.
    #[error("memory ran out")]
    Memory,
    /// The order file is refused as a whole, and the line that says so was written.
    #[error("the order file is refused: {0}")]
    File(FileFault),
    /// No group shows the best runs of this company in this round, and the line that says so was
    /// written.
    #[error("a certificate is refused")]
    Certificate(Round, Company),
}

impl From<AllocError> for Fault {
    ghost from_gives = { λ _ fault. fault ≡ Memory };

    fn from(_error: AllocError) -> Fault {
        // An allocation failed: passed on.
        Fault::Memory
    }
}

/// Returns the exit status of the program: 0 for a report, 2 for a refused file, 3 for a refused
/// certificate, 4 if a read, a write or an allocation failed.
pub fn status(outcome: &Result<(), Fault>) -> u8
    ensures { result ≡ status_of outcome.now }
{
    match outcome {
        Ok(()) => 0,
        Err(Fault::File(_)) => 2,
        Err(Fault::Certificate(..)) => 3,
        Err(Fault::Read | Fault::Write | Fault::Memory) => 4,
    }
}

/// Returns the word for a fault on standard error; empty for a refused file or certificate, for
/// which a line was written.
pub fn word(fault: &Fault) -> &'static str
    ensures { result.now ≡ word_of fault.now }
{
    match fault {
        Fault::Read => "Read",
        Fault::Write => "Write",
        Fault::Memory => "Memory",
        Fault::File(_) | Fault::Certificate(..) => "",
    }
}
