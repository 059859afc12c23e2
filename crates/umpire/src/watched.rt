//! Readers and writers that remember whether a call failed.
ghost use Rattle.std.specs.Io.{ReadsAtMost, WritesAtMost};
ghost use Rattle.std.specs.Io.KnownBytes.{Keeps, ReadConsumes, WriteAppends};
ghost use Rattle.std.specs.Prelude.{◌≡◌, ◌||◌, false, is_err};
ghost use Rattle.umpire.specs.Failure.{took_none};
ghost use Rattle.umpire.specs.Watched.{has_failed, inside};

use std::io;
use std::io::{Read, Write};

/// A reader or a writer that passes on each call and remembers whether one failed.
#[derive(Drop)]
pub struct Watched<S> {
    inner: S,
    failed: bool,
}

impl<S> Watched<S> {
    /// Returns a watched reader or writer, none of whose calls has failed yet.
    pub fn new(inner: S) -> Watched<S>
        ensures inner { inside result ≡ inner }
        ensures failed { has_failed result ≡ false }
    {
        Watched {
            inner,
            failed: false,
        }
    }

    /// Returns whether a call failed, or a write of one or more bytes took none.
    pub fn failed(&self) -> bool
        ensures { result ≡ has_failed self.now }
    {
        self.failed
    }
}

impl<R: Read> Read for Watched<R> {
    ghost remaining = { λ reader. R.remaining reader.inner };

    fn read(&mut self, buffer: &mut [u8]) -> io::Result<usize>
        ensures bound { ReadsAtMost result buffer.new }
        ensures bytes { ReadConsumes (R.remaining (inside self.old))
            (R.remaining (inside self.new)) result buffer.new }
        ensures failed { has_failed self.new ≡ (has_failed self.old || is_err result) }
    {
        let result = self.inner.read(buffer);
        if result.is_err() {
            self.failed = true;
        }
        result
    }
}

impl<W: Write> Write for Watched<W> {
    ghost contents = { λ writer. W.contents writer.inner };

    fn write(&mut self, bytes: &[u8]) -> io::Result<usize>
        ensures bound { WritesAtMost result bytes.now }
        ensures bytes { WriteAppends (W.contents (inside self.old))
            (W.contents (inside self.new)) result bytes.now }
        ensures failed { has_failed self.new ≡
            (has_failed self.old || is_err result || took_none result bytes.now) }
    {
        let result = self.inner.write(bytes);
        match &result {
            Ok(0) if !bytes.is_empty() => self.failed = true,
            Ok(_) => {}
            Err(_) => self.failed = true,
        }
        result
    }

    fn flush(&mut self) -> io::Result<()>
        ensures bytes { Keeps (W.contents (inside self.old)) (W.contents (inside self.new)) }
        ensures failed { has_failed self.new ≡ (has_failed self.old || is_err result) }
    {
        let result = self.inner.flush();
        if result.is_err() {
            self.failed = true;
        }
        result
    }
}
