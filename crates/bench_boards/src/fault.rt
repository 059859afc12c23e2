//! Why a greatest revenue is not printed, and the status that the program then ends with.

use board::BoardFault;
use certificate::RunnerFault;
use std::alloc::AllocError;
use std::io;
use thiserror::Error;

/// Why no greatest revenue is printed.
#[derive(Debug, Drop, Error)]
pub enum LinesFault {
    /// An allocation failed.
    #[error("memory ran out")]
    Memory,
    /// A read or a write failed.
    #[error("a read or a write failed")]
    Io,
    /// A line is not one of a board's.
    #[error("a line is none of a board")]
    Line,
    /// The tiles and tokens cannot all lie on the map.
    #[error("these tiles and tokens cannot lie")]
    Board,
    /// No company is named.
    #[error("a board names no company")]
    Company,
}

impl LinesFault {
    /// Returns the status that the program ends with: 2 if the input is bad, otherwise 4.
    pub fn status(&self) -> u8 {
        match self {
            LinesFault::Memory | LinesFault::Io => 4,
            LinesFault::Line | LinesFault::Board | LinesFault::Company => 2,
        }
    }
}

impl From<AllocError> for LinesFault {
    fn from(_error: AllocError) -> LinesFault {
        // An allocation failed: passed on.
        LinesFault::Memory
    }
}

impl From<io::Error> for LinesFault {
    fn from(error: io::Error) -> LinesFault {
        if error.kind() == io::ErrorKind::OutOfMemory {
            // An allocation failed: passed on.
            LinesFault::Memory
        } else {
            LinesFault::Io
        }
    }
}

impl From<BoardFault> for LinesFault {
    fn from(fault: BoardFault) -> LinesFault {
        match fault {
            // An allocation failed: passed on.
            BoardFault::Memory => LinesFault::Memory,
            _ => LinesFault::Board,
        }
    }
}

impl From<RunnerFault> for LinesFault {
    // A search never returns `Refused`, so only an allocation can have failed.
    fn from(_fault: RunnerFault) -> LinesFault {
        // An allocation failed: passed on.
        LinesFault::Memory
    }
}
