//! Why the desk returns no text: a refused file, a round that was not played, or a failed
//! allocation.
ghost use Rattle.std.specs.Prelude.{◌≡◌};
ghost use Rattle.desk_base.specs.Fault.{fault_of_file};
ghost use Rattle.desk_base.specs.declared.fault.DeskFault.TheVariants.{Memory};

use sheets::FileFault;
use std::alloc::AllocError;
use thiserror::Error;

/// Why the desk returns no text.
#[derive(Clone, Copy, Debug, PartialEq, Eq, Drop, Error)]
pub enum DeskFault {
    /// The whole order file is refused.
    #[error("the order file is refused: {0}")]
    File(FileFault),
    /// The requested round was not played.
    #[error("the round is not played")]
    Round,
    /// Allocation failed.
    #[error("allocation failed")]
    Memory,
}

impl From<AllocError> for DeskFault {
    ghost from_gives = { λ _ fault. fault ≡ Memory };

    fn from(_error: AllocError) -> DeskFault {
        // An allocation failed: passed on.
        DeskFault::Memory
    }
}

/// A failed allocation is not a fault of the file.
impl From<FileFault> for DeskFault {
    ghost from_gives = { λ file fault. fault ≡ fault_of_file file };

    fn from(fault: FileFault) -> DeskFault {
        match fault {
            // An allocation failed: passed on.
            FileFault::Memory => DeskFault::Memory,
            fault => DeskFault::File(fault),
        }
    }
}
