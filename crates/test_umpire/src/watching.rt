//! Tests of watched readers and writers: they pass on each call and remember a failure.

use crate::support::{FIRST, Sink, Source};
use std::io;
use std::io::{Read, Write};
use std::test::Fail;
use umpire::Watched;

/// Takes all bytes, but fails to flush.
#[derive(Drop)]
struct Stuck;

impl Write for Stuck {
    fn write(&mut self, bytes: &[u8]) -> io::Result<usize> {
        Ok(bytes.len())
    }

    fn flush(&mut self) -> io::Result<()> {
        Err(io::Error::from(io::ErrorKind::BrokenPipe))
    }
}

#[test]
fn passes_each_read_on_once_and_whole(rt: HostRuntime) -> Result<(), Fail> {
    let mut source = Source::giving(FIRST, 1_000);
    let mut reader = Watched::new(&mut source);
    let mut buffer = [0; 30];
    assert_eq!(rt; reader.read(&mut buffer)?, 30);
    assert!(rt; !reader.failed());
    assert_eq!(rt; buffer.as_slice(), &FIRST.as_bytes()[..30]);
    assert_eq!(rt; source.calls, 1);
    assert_eq!(rt; source.room, 30);
    Ok(())
}

#[test]
fn passes_each_write_on_once_and_whole(rt: HostRuntime) -> Result<(), Fail> {
    let mut sink = Sink::taking(rt.alloc(), 1_000);
    let mut writer = Watched::new(&mut sink);
    assert_eq!(rt; writer.write(b"what is written")?, 15);
    writer.flush()?;
    assert!(rt; !writer.failed());
    assert_eq!(rt; sink.text.as_slice(), b"what is written".as_slice());
    assert_eq!(rt; sink.calls, 1);
    assert_eq!(rt; sink.flushes, 1);
    Ok(())
}

#[test]
fn remembers_a_flush_that_failed(rt: HostRuntime) {
    let mut writer = Watched::new(Stuck);
    assert!(rt; !writer.failed());
    assert!(rt; writer.flush().is_err());
    assert!(rt; writer.failed());
}
