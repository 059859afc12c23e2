//! Lines that are orders once their end is added.

use crate::choice::is_order;
use crate::edits::push_word;
use crate::slips::is_code;
use crate::vocabulary::{ENDINGS, Ending, FIRSTS};
use order_grammar::Version;
use std::alloc::{AllocError, Global};

/// The lines that complete a line.
#[derive(Drop)]
pub(crate) struct Completed {
    /// What to write, one line after another.
    pub(crate) said: Vec<Vec<u8>>,
}

impl Completed {
    /// Returns the lines that complete a line of these words, each with an ending that makes it an
    /// order of a file of some version; none if its first word does not begin an order. Fails only
    /// if allocation fails.
    pub(crate) fn of(
        alloc: Global,
        version: Version,
        words: &[&[u8]],
    ) -> Result<Completed, AllocError> {
        let mut said = Vec::new(alloc);
        let is_known = words.first().is_some_and(|first| is_code(first, &FIRSTS));
        if !is_known {
            return Ok(Completed { said });
        }
        for endings in &ENDINGS {
            for ending in *endings {
                if is_order(version, with_words(alloc, words, ending.words)?.as_slice()) {
                    said.push(said_of(alloc, words, ending)?)?;
                    break;
                }
            }
        }
        Ok(Completed { said })
    }
}

/// Returns whether some words are a condition without an order: with an order after them they are a
/// conditional order. Fails only if allocation fails.
pub(crate) fn is_condition_alone(
    alloc: Global,
    version: Version,
    words: &[&[u8]],
) -> Result<bool, AllocError> {
    let begins_with_if = words
        .first()
        .is_some_and(|first| first.eq_ignore_ascii_case(b"IF"));
    Ok(begins_with_if && is_order(version, with_words(alloc, words, "PAY")?.as_slice()))
}

/// Returns whether some words begin with a place, which no order does. Fails only if allocation
/// fails.
pub(crate) fn begins_with_place(
    alloc: Global,
    version: Version,
    words: &[&[u8]],
) -> Result<bool, AllocError> {
    let Some(first) = words.first() else {
        return Ok(false);
    };
    let mut token = Vec::from_slice(alloc, b"TOKEN")?;
    push_word(&mut token, first)?;
    Ok(is_order(version, token.as_slice()))
}

/// Returns the line of some words, followed by others.
fn with_words(alloc: Global, words: &[&[u8]], others: &str) -> Result<Vec<u8>, AllocError> {
    let mut line = Vec::new(alloc);
    for word in words {
        push_word(&mut line, word)?;
    }
    push_word(&mut line, others.as_bytes())?;
    Ok(line)
}

/// Returns what to write in place of some words that lack an ending.
fn said_of(alloc: Global, words: &[&[u8]], ending: &Ending) -> Result<Vec<u8>, AllocError> {
    if ending.said.is_empty() {
        return with_words(alloc, words, ending.words);
    }
    let mut said = Vec::new(alloc);
    for word in words {
        push_word(&mut said, word)?;
    }
    said.extend_from_slice(b" and ")?;
    said.extend_from_slice(ending.said.as_bytes())?;
    Ok(said)
}
