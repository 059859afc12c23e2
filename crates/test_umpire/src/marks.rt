//! Marks, as they are kept, read and printed.

use certificate::{Bits, HexFault, print_hex, read_hex};
use std::alloc::{AllocError, Global};
use std::test::Fail;

/// Tests the marks of a small tree, and three 0 bits after them.
#[test]
fn reads_and_prints_marks(rt: HostRuntime) -> Result<(), Fail> {
    let Ok(bits) = read_hex(rt.alloc(), b"BEfb8") else {
        panic!(rt; "a fault")
    };
    assert_eq!(rt; bits.len(), 20);
    let first = [true, false, true, true, true, true, true, false];
    assert_eq!(rt; &bits.as_slice()[..8], first.as_slice());
    assert!(rt; are_printed(rt.alloc(), &bits.as_slice()[..17], b"befb8")?);
    Ok(())
}

/// Returns whether some bits are printed as this.
fn are_printed(alloc: Global, bits: &[bool], digits: &[u8]) -> Result<bool, AllocError> {
    let text = print_hex(alloc, bits)?;
    Ok(text.as_slice() == digits)
}

#[test]
fn reads_no_other_digits(rt: HostRuntime) {
    let Err(fault) = read_hex(rt.alloc(), b"befg8") else {
        panic!(rt; "no fault")
    };
    assert_eq!(rt; fault, HexFault::Digit);
}

/// Returns every third of 21 bits, and then the bits of two digits; `None` if these are not read.
fn kept(alloc: Global) -> Result<Option<Bits>, AllocError> {
    let mut bits = Bits::new(alloc);
    for number in 0..21 {
        bits.push(number % 3 == 0)?;
    }
    Ok(bits.read_digits(b"fF").ok().map(|()| bits))
}

/// Returns whether three digits of those are printed, then one bit is read, and then the rest is
/// printed.
fn are_read_and_printed(alloc: Global, bits: &Bits) -> Result<bool, AllocError> {
    let mut reader = bits.reader();
    let mut text = Vec::new(alloc);
    reader.print_digits(3, &mut text)?;
    let is_begun = text.as_slice() == b"924".as_slice() && reader.read() == Some(true);
    reader.print_digits(1000, &mut text)?;
    let is_printed = text.as_slice() == b"92424ff".as_slice();
    Ok(is_begun && is_printed && reader.is_empty() && reader.read().is_none())
}

#[test]
fn keeps_marks(rt: HostRuntime) -> Result<(), Fail> {
    let Some(bits) = kept(rt.alloc())? else {
        panic!(rt; "a fault")
    };
    assert!(rt; are_read_and_printed(rt.alloc(), &bits)?);
    Ok(())
}
