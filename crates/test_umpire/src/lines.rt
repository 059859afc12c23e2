//! Lines read and printed.

use order_grammar::{Token, Version, print_conditional, read_line, read_line_in};
use std::alloc::{AllocError, Global};
use std::test::Fail;

/// Returns whether a line of version 2 is read and then printed as this.
fn prints(alloc: Global, line: &[u8], printed: &[u8]) -> Result<bool, AllocError> {
    let Ok(read) = read_line_in(Version::Two, line) else {
        return Ok(false);
    };
    let text = print_conditional(alloc, read.condition.as_ref(), &read.order)?;
    Ok(text.as_slice() == printed)
}

#[test]
fn prints_an_order_under_a_condition(rt: HostRuntime) -> Result<(), Fail> {
    let alloc = rt.alloc();
    assert!(rt;
        prints(
            alloc,
            b"if price prr >= 0090 Sell prr 2 # x",
            b"IF PRICE PRR >= 90 SELL PRR 2"
        )?
    );
    assert!(rt;
        prints(
            alloc,
            b"IF PHASE d  LAY 57 H10 1",
            b"IF PHASE D LAY 57 H10 1"
        )?
    );
    assert!(rt; prints(alloc, b" if floated bo run best", b"IF FLOATED BO RUN BEST")?);
    assert!(rt; prints(alloc, b"buy sv", b"BUY SV")?);
    Ok(())
}

/// Returns whether a word has this text, and is from one place up to another.
fn stands(word: Option<Token>, text: &[u8], start: usize, end: usize) -> bool {
    match word {
        Some(word) => word.text == text && word.span.start == start && word.span.end == end,
        None => false,
    }
}

#[test]
fn words_stand_where_they_are_written(rt: HostRuntime) {
    let Ok(read) = read_line(b"  Buy  sV # a comment") else {
        panic!(rt; "a fault")
    };
    let mut words = read.words;
    assert!(rt; stands(words.next(), b"Buy", 2, 5));
    assert!(rt; stands(words.next(), b"sV", 7, 9));
    assert!(rt; words.next().is_none());
}
