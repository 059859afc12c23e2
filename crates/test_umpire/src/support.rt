//! A small game with its report, and scripted readers and writers over memory, which count their
//! calls.

ghost use Rattle.std.specs.Prelude.{◌≡◌, false};
ghost use Rattle.umpire.specs.Watched.{has_failed};

use std::alloc::Global;
use std::io;
use std::io::{Read, Write};
use umpire::{Fault, Watched, certs, migrate, run, verify};

/// ANN buys SV in the first opening round, and then all pass.
pub(crate) const FIRST: &str = "GAME 1830 1
PLAYERS ANN BOB CYD
SHEET ANN PR1
TURN
BUY SV
SHEET BOB PR1
SHEET CYD PR1
";

/// The report of that game: SV pays ANN 5 of the bank's 9,620.
pub(crate) const FIRST_REPORT: &str = "GAME 1830 1
PLAYERS ANN BOB CYD
ROUND PR1
ANN 2 OBEYED BUY SV
SOLD SV ANN 20
BOB PASSES
CYD PASSES
ANN PASSES
REVENUE SV ANN 5
PLAYER ANN        785  1  0  0  0  0  0  0  0  0 SV
PLAYER BOB        800  0  0  0  0  0  0  0  0  0
PLAYER CYD        800  0  0  0  0  0  0  0  0  0
BANK   9615
AWAITING PR2 ANN BOB CYD
";

/// What a reader does when it is called again after its end.
#[derive(Clone, Copy, PartialEq, Eq)]
pub(crate) enum AfterEnd {
    /// It gives the end again.
    Ends,
    /// It fails.
    Fails,
    /// It gives one more byte.
    Gives,
}

/// Gives a text, at most this many bytes per call, and then its end. One call, counted from 0, may
/// fail.
#[derive(Drop)]
pub(crate) struct Source<'a> {
    pub(crate) text: &'a [u8],
    pub(crate) most: usize,
    pub(crate) bad: Option<usize>,
    pub(crate) after_end: AfterEnd,
    /// Whether it has reached its end.
    pub(crate) ended: bool,
    /// How often it was called.
    pub(crate) calls: usize,
    /// How many bytes the last call had room for.
    pub(crate) room: usize,
}

impl<'a> Source<'a> {
    pub(crate) fn giving(text: &'a str, most: usize) -> Source<'a> {
        Source::of(text.as_bytes(), most)
    }

    pub(crate) fn of(text: &'a [u8], most: usize) -> Source<'a> {
        Source {
            text,
            most,
            bad: None,
            after_end: AfterEnd::Ends,
            ended: false,
            calls: 0,
            room: 0,
        }
    }
}

impl<'a> Read for Source<'a> {
    fn read(&mut self, buffer: &mut [u8]) -> io::Result<usize> {
        let call = self.calls;
        self.calls = call.saturating_add(1);
        self.room = buffer.len();
        if self.bad == Some(call) {
            return Err(io::Error::from(io::ErrorKind::BrokenPipe));
        }
        if self.ended {
            match self.after_end {
                AfterEnd::Ends => {}
                AfterEnd::Fails => return Err(io::Error::from(io::ErrorKind::BrokenPipe)),
                AfterEnd::Gives => {
                    let count = 1.min(buffer.len());
                    buffer[..count].fill(b'X');
                    return Ok(count);
                }
            }
        }
        let count = self.most.min(self.text.len()).min(buffer.len());
        buffer[..count].copy_from_slice(&self.text[..count]);
        self.text = &self.text[count..];
        self.ended = count == 0;
        Ok(count)
    }
}

/// Gives bytes without end, leaving the buffer as it is, and counts them.
#[derive(Drop)]
pub(crate) struct Endless {
    pub(crate) given: usize,
}

impl Read for Endless {
    fn read(&mut self, buffer: &mut [u8]) -> io::Result<usize> {
        self.given = self.given.saturating_add(buffer.len());
        Ok(buffer.len())
    }
}

/// What goes wrong at a call of a writer.
#[derive(Clone, Copy, PartialEq, Eq)]
pub(crate) enum Trouble {
    None,
    Fails,
    TakesNothing,
}

/// Keeps what is written, at most this many bytes per call, with trouble at one call, counted from
/// 0.
#[derive(Drop)]
pub(crate) struct Sink {
    pub(crate) text: Vec<u8>,
    pub(crate) most: usize,
    pub(crate) bad: usize,
    pub(crate) trouble: Trouble,
    /// How often it was called to write.
    pub(crate) calls: usize,
    /// How often it was flushed.
    pub(crate) flushes: usize,
}

impl Sink {
    pub(crate) fn taking(alloc: Global, most: usize) -> Sink {
        Sink {
            text: Vec::new(alloc),
            most,
            bad: 0,
            trouble: Trouble::None,
            calls: 0,
            flushes: 0,
        }
    }
}

impl Write for Sink {
    fn write(&mut self, bytes: &[u8]) -> io::Result<usize> {
        let call = self.calls;
        self.calls = call.saturating_add(1);
        if self.bad == call {
            match self.trouble {
                Trouble::None => {}
                Trouble::Fails => return Err(io::Error::from(io::ErrorKind::BrokenPipe)),
                Trouble::TakesNothing => return Ok(0),
            }
        }
        let count = self.most.min(bytes.len());
        self.text.extend_from_slice(&bytes[..count])?;
        Ok(count)
    }

    fn flush(&mut self) -> io::Result<()> {
        self.flushes = self.flushes.saturating_add(1);
        Ok(())
    }
}

/// The outcome of a run.
#[derive(Drop)]
pub(crate) struct Outcome {
    pub(crate) result: Result<(), Fault>,
    pub(crate) text: Vec<u8>,
    pub(crate) read_failed: bool,
    pub(crate) write_failed: bool,
    /// How often the reader was called.
    pub(crate) reads: usize,
}

/// A call of the umpire.
#[derive(Clone, Copy)]
pub(crate) enum Call {
    Run,
    Certs,
    Verify,
    Migrate,
}

impl Call {
    /// Makes the call.
    pub(crate) fn make<R: Read, W: Write>(
        self,
        alloc: Global,
        reader: &mut Watched<R>,
        writer: &mut Watched<W>,
    ) -> Result<(), Fault>
        requires reader { has_failed reader.old ≡ false }
        requires writer { has_failed writer.old ≡ false }
    {
        match self {
            Call::Run => run(alloc, reader, writer),
            Call::Certs => certs(alloc, reader, writer),
            Call::Verify => verify(alloc, reader, writer),
            Call::Migrate => migrate(alloc, reader, writer),
        }
    }
}

/// Returns the outcome of a call from this reader to this writer.
pub(crate) fn outcome_by(alloc: Global, call: Call, mut source: Source, mut sink: Sink) -> Outcome {
    let mut reader = Watched::new(&mut source);
    let mut writer = Watched::new(&mut sink);
    let result = call.make(alloc, &mut reader, &mut writer);
    let read_failed = reader.failed();
    let write_failed = writer.failed();
    Outcome {
        result,
        text: sink.text,
        read_failed,
        write_failed,
        reads: source.calls,
    }
}
