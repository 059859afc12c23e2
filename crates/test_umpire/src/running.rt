//! Tests of whole runs over readers and writers: how much is read, when something is written, and
//! what a failed read or write stops.

use crate::devices::{any_write_may_fail, reads_that_may_fail, writes};
use crate::support::{AfterEnd, Call, Endless, FIRST, FIRST_REPORT, Sink, Source, outcome_by};
use sheets::FileFault;
use std::alloc::Global;
use std::cell::Cell;
use std::io;
use std::io::{Read, Write};
use umpire::{Fault, Watched};

/// A reader that sets a cell when it reaches its end.
#[derive(Drop)]
struct Telling<'a> {
    source: Source<'a>,
    ended: &'a Cell<bool>,
}

impl<'a> Read for Telling<'a> {
    fn read(&mut self, buffer: &mut [u8]) -> io::Result<usize> {
        let count = self.source.read(buffer)?;
        self.ended.set(count == 0);
        Ok(count)
    }
}

/// A writer that counts its calls, and those before the reader reached its end.
#[derive(Drop)]
struct Watching<'a> {
    ended: &'a Cell<bool>,
    calls: usize,
    early: usize,
}

impl<'a> Write for Watching<'a> {
    fn write(&mut self, bytes: &[u8]) -> io::Result<usize> {
        self.calls = self.calls.saturating_add(1);
        if !self.ended.get() {
            self.early = self.early.saturating_add(1);
        }
        Ok(bytes.len())
    }

    fn flush(&mut self) -> io::Result<()> {
        Ok(())
    }
}

/// How often a call writes for a file that it reads, a few bytes at a time, and how often before it
/// has read its end.
fn writes_of(alloc: Global, call: Call, file: &str) -> (usize, usize) {
    let ended = Cell::new(false);
    let mut reader = Watched::new(Telling {
        source: Source::giving(file, 7),
        ended: &ended,
    });
    let mut sink = Watching {
        ended: &ended,
        calls: 0,
        early: 0,
    };
    let mut writer = Watched::new(&mut sink);
    let _ = call.make(alloc, &mut reader, &mut writer);
    (sink.calls, sink.early)
}

#[test]
fn writes_part_by_part_once_all_is_read(rt: HostRuntime) {
    // The header, the round, and the end; the first line; the same as the first; the file.
    let owed = [
        (Call::Run, 3),
        (Call::Certs, 1),
        (Call::Verify, 3),
        (Call::Migrate, 1),
    ];
    for (call, count) in owed {
        assert_eq!(rt; writes_of(rt.alloc(), call, FIRST), (count, 0));
    }
}

/// Returns whether a call on an endless reader reads no further than the limit of a file, and
/// refuses it as too long.
fn stops_at_limit(alloc: Global, call: Call) -> bool {
    let mut source = Endless { given: 0 };
    let mut sink = Sink::taking(alloc, 1_000);
    let mut reader = Watched::new(&mut source);
    let mut writer = Watched::new(&mut sink);
    let result = call.make(alloc, &mut reader, &mut writer);
    result == Err(Fault::File(FileFault::TooLong))
        && source.given == 67_108_865
        && sink.text.as_slice() == b"FILE REFUSED F3\n".as_slice()
}

#[test]
fn reads_no_further_than_the_limit(rt: HostRuntime) {
    for &call in &[Call::Run, Call::Migrate] {
        assert!(rt; stops_at_limit(rt.alloc(), call));
    }
}

#[test]
fn takes_any_pieces(rt: HostRuntime) {
    let (file, owed) = (FIRST.as_bytes(), FIRST_REPORT.as_bytes());
    for &most in &[1, 2, 7, 100] {
        assert!(rt;
            writes(rt.alloc(), Call::Run, file, most, owed),
            "by {most}"
        );
    }
}

#[test]
fn calls_no_reader_after_its_end(rt: HostRuntime) {
    for &after_end in &[AfterEnd::Ends, AfterEnd::Fails, AfterEnd::Gives] {
        assert!(rt; reads_each_byte_once(rt.alloc(), after_end));
    }
}

/// Returns whether `run` calls a reader once for each byte, and once to find the end.
fn reads_each_byte_once(alloc: Global, after_end: AfterEnd) -> bool {
    let mut source = Source::giving(FIRST, 1);
    source.after_end = after_end;
    let run = outcome_by(alloc, Call::Run, source, Sink::taking(alloc, 7));
    run.result == Ok(())
        && run.text.as_slice() == FIRST_REPORT.as_bytes()
        && run.reads == FIRST.len().saturating_add(1)
}

#[test]
fn stops_at_a_failed_read(rt: HostRuntime) {
    let reads = reads_that_may_fail(rt.alloc(), Call::Run, FIRST.as_bytes());
    assert_eq!(rt; reads, FIRST.len() + 1);
}

#[test]
fn stops_at_a_failed_write(rt: HostRuntime) {
    let report = FIRST_REPORT.as_bytes();
    assert!(rt; any_write_may_fail(rt.alloc(), Call::Run, FIRST.as_bytes(), report));
}
