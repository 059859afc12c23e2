//! Certificates, written and verified with scripted readers and writers. They are of the game in
//! which PRR runs its best with two trains, one of which earns 30.

use crate::devices::{any_write_may_fail, outcome_in, reads_that_may_fail, writes};
use crate::refusing::file;
use crate::support::{Call, FIRST, FIRST_REPORT, Outcome};
use std::alloc::{AllocError, Global};
use std::test::Fail;
use tables::{Company, Round};
use umpire::Fault;

/// The line between an order file and its certificates, and certificates of the game.
const SHOWN: &str = "
CERTS 1
CERT OR2.1 PRR 30
CLAIM 2 H12.0 H10.0
MARKS befb8
";

/// Certificates that claim what is not earned.
const FORGED: &str = "
CERTS 1
CERT OR2.1 PRR 29
CLAIM 2 H12.0 H10.0
MARKS befb8
";

/// The line that refuses these.
const REFUSED: &str = "CERTIFICATE REFUSED OR2.1 PRR
";

/// Returns texts, one after another.
fn joined(alloc: Global, texts: &[&[u8]]) -> Result<Vec<u8>, AllocError> {
    let mut all = Vec::new(alloc);
    for text in texts {
        all.extend_from_slice(text)?;
    }
    Ok(all)
}

/// Returns the order file of the game, and what is after it.
fn with_behind(alloc: Global, behind: &str) -> Result<Vec<u8>, AllocError> {
    let file = file(alloc, "RUN BEST\n")?;
    joined(alloc, &[file.as_slice(), behind.as_bytes()])
}

/// Returns whether a call returned that the certificates are refused, and wrote that line.
fn is_refused(outcome: &Outcome) -> bool {
    let round = Round::Operating { set: 2, number: 1 };
    let fault = Fault::Certificate(round, Company::Pennsylvania);
    outcome.result == Err(fault) && outcome.text.as_slice() == REFUSED.as_bytes()
}

#[test]
fn verify_takes_what_certs_writes(rt: HostRuntime) -> Result<(), Fail> {
    let file = file(rt.alloc(), "RUN BEST\n")?;
    let text = outcome_in(rt.alloc(), Call::Certs, file.as_slice(), 1_000).text;
    let prefix = b"CERTS 1\nCERT OR2.1 PRR 30\nCLAIM 2 ".as_slice();
    assert!(rt; text.as_slice().starts_with(prefix));
    let input = joined(rt.alloc(), &[file.as_slice(), b"\n", text.as_slice()])?;
    let report = outcome_in(rt.alloc(), Call::Run, file.as_slice(), 1_000).text;
    for &most in &[1, 7, 1_000] {
        let owed = text.as_slice();
        assert!(rt; writes(rt.alloc(), Call::Certs, file.as_slice(), most, owed));
        let owed = report.as_slice();
        assert!(rt; writes(rt.alloc(), Call::Verify, input.as_slice(), most, owed));
    }
    Ok(())
}

#[test]
fn certs_stops_where_a_device_fails(rt: HostRuntime) -> Result<(), Fail> {
    let file = file(rt.alloc(), "RUN BEST\n")?;
    let reads = reads_that_may_fail(rt.alloc(), Call::Certs, file.as_slice());
    assert_eq!(rt; reads, file.len() + 1);
    let text = outcome_in(rt.alloc(), Call::Certs, file.as_slice(), 1_000).text;
    assert!(rt; any_write_may_fail(rt.alloc(), Call::Certs, file.as_slice(), text.as_slice()));
    Ok(())
}

#[test]
fn verify_stops_where_a_device_fails(rt: HostRuntime) -> Result<(), Fail> {
    let input = with_behind(rt.alloc(), SHOWN)?;
    let reads = reads_that_may_fail(rt.alloc(), Call::Verify, input.as_slice());
    assert_eq!(rt; reads, input.len() + 1);
    let report = FIRST_REPORT.as_bytes();
    assert!(rt; any_write_may_fail(rt.alloc(), Call::Verify, FIRST.as_bytes(), report));
    let input = with_behind(rt.alloc(), FORGED)?;
    let refused = outcome_in(rt.alloc(), Call::Verify, input.as_slice(), 1);
    assert!(rt; is_refused(&refused));
    let line = REFUSED.as_bytes();
    assert!(rt; any_write_may_fail(rt.alloc(), Call::Verify, input.as_slice(), line));
    Ok(())
}
