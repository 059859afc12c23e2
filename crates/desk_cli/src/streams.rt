//! Standard input and output.

use sheets::FILE_MOST;
use std::alloc::{AllocError, Global};
use std::io;
use std::io::{Read, Write};

/// Why the program ends without its text.
#[derive(Clone, Copy)]
pub(crate) enum StreamFault {
    /// A read failed.
    Read,
    /// A write failed.
    Write,
    /// Allocation failed.
    Memory,
}

impl StreamFault {
    /// Returns what is printed on standard error.
    pub(crate) fn word(self) -> &'static str {
        match self {
            StreamFault::Read => "desk: standard input could not be read",
            StreamFault::Write => "desk: the answer could not be written to standard output",
            StreamFault::Memory => "Memory",
        }
    }
}

impl From<AllocError> for StreamFault {
    fn from(_error: AllocError) -> StreamFault {
        // An allocation failed: passed on.
        StreamFault::Memory
    }
}

/// Reads an order file to its end, or to the first byte past the greatest size of a file.
pub(crate) fn read_file<R: Read + Drop>(alloc: Global, reader: R) -> Result<Vec<u8>, StreamFault> {
    let mut file = Vec::new(alloc);
    match reader.take(FILE_MOST as u64 + 1).read_to_end(&mut file) {
        Ok(_) => Ok(file),
        // An allocation failed: passed on.
        Err(error) if error.kind() == io::ErrorKind::OutOfMemory => Err(StreamFault::Memory),
        Err(_) => Err(StreamFault::Read),
    }
}

/// Writes a text.
pub(crate) fn write_text<W: Write + Drop>(mut writer: W, text: &[u8]) -> Result<(), StreamFault> {
    match writer.write_all(text) {
        Ok(()) => Ok(()),
        Err(_) => Err(StreamFault::Write),
    }
}
