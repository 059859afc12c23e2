//! Why the program prints no outcome of a call, and the status with which it then ends.

use std::alloc::AllocError;
use std::io;
use thiserror::Error;

/// Why no outcome is printed.
#[derive(Clone, Copy, Debug, PartialEq, Eq, Drop, Error)]
pub enum OutcomeFault {
    /// The position before the call cannot be built: an allocation failed, or a call that builds it
    /// returned something unexpected.
    #[error("the position before the call cannot be built")]
    Position,
    /// A word names no call.
    #[error("no call has this name")]
    Name,
    /// The command line cannot be read, or a line cannot be written.
    #[error("a read or a write failed")]
    Io,
}

impl OutcomeFault {
    /// Returns the status that the program ends with.
    pub fn status(&self) -> u8 {
        match self {
            OutcomeFault::Position | OutcomeFault::Name => 1,
            OutcomeFault::Io => 4,
        }
    }
}

impl From<AllocError> for OutcomeFault {
    fn from(_error: AllocError) -> OutcomeFault {
        OutcomeFault::Position
    }
}

impl From<io::Error> for OutcomeFault {
    fn from(_error: io::Error) -> OutcomeFault {
        OutcomeFault::Io
    }
}
