//! A call over readers and writers, each of whose calls may fail.

use crate::support::{Call, Outcome, Sink, Source, Trouble, outcome_by};
use std::alloc::Global;
use umpire::{Fault, status, word};

/// Returns the outcome of a call over devices that give and take this many bytes at a time.
pub(crate) fn outcome_in(alloc: Global, call: Call, input: &[u8], most: usize) -> Outcome {
    outcome_by(
        alloc,
        call,
        Source::of(input, most),
        Sink::taking(alloc, most),
    )
}

/// Returns whether a call ended with this word, and status 4.
fn has_word(outcome: &Outcome, owed: &str) -> bool {
    let written = match &outcome.result {
        Ok(()) => "",
        Err(fault) => word(fault),
    };
    written == owed && status(&outcome.result) == 4
}

/// Returns whether a call returned that a read failed, after this many, and wrote nothing.
fn stops_reading(outcome: &Outcome, reads: usize) -> bool {
    outcome.result == Err(Fault::Read)
        && has_word(outcome, "Read")
        && outcome.text.is_empty()
        && outcome.read_failed
        && !outcome.write_failed
        && outcome.reads == reads
}

/// Returns whether a call returned that a write failed, and wrote this before.
fn stops_writing(outcome: &Outcome, prefix: &[u8]) -> bool {
    outcome.result == Err(Fault::Write)
        && has_word(outcome, "Write")
        && outcome.text.as_slice() == prefix
        && !outcome.read_failed
        && outcome.write_failed
}

/// Returns how many of the reads of a call can fail with the expected outcome, before one does not.
/// The reads are one for each byte and one that finds the end.
pub(crate) fn reads_that_may_fail(alloc: Global, call: Call, input: &[u8]) -> usize {
    for bad in 0..=input.len() {
        let mut source = Source::of(input, 1);
        source.bad = Some(bad);
        let outcome = outcome_by(alloc, call, source, Sink::taking(alloc, 7));
        if !stops_reading(&outcome, bad.saturating_add(1)) {
            return bad;
        }
    }
    input.len().saturating_add(1)
}

/// Returns how many of the writes of a call that writes this text can fail with the expected
/// outcome, before one does not.
fn writes_that_may_fail(
    alloc: Global,
    call: Call,
    input: &[u8],
    text: &[u8],
    trouble: Trouble,
) -> usize {
    for bad in 0..text.len() {
        let mut sink = Sink::taking(alloc, 1);
        sink.bad = bad;
        sink.trouble = trouble;
        let outcome = outcome_by(alloc, call, Source::of(input, 1_000), sink);
        if !stops_writing(&outcome, &text[..bad]) {
            return bad;
        }
    }
    text.len()
}

/// Returns whether both kinds of trouble may come at each write of a call that writes this text.
pub(crate) fn any_write_may_fail(alloc: Global, call: Call, input: &[u8], text: &[u8]) -> bool {
    writes_that_may_fail(alloc, call, input, text, Trouble::Fails) == text.len()
        && writes_that_may_fail(alloc, call, input, text, Trouble::TakesNothing) == text.len()
}

/// Returns whether a call over devices that give and take this many bytes at a time succeeds, and
/// writes this text.
pub(crate) fn writes(alloc: Global, call: Call, input: &[u8], most: usize, text: &[u8]) -> bool {
    let outcome = outcome_in(alloc, call, input, most);
    outcome.result == Ok(()) && outcome.text.as_slice() == text
}
