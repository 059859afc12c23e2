//! A text in lines of at most 80 columns.

use crate::text::Piece::{Bytes, Column, Words};
use crate::text::{push, width_in_hand};
use std::alloc::AllocError;

/// The most columns of a line.
const COLUMNS: usize = 80;

/// Adds the words of a text to the current line, and ends it. A word that would end past column 80
/// begins a new line at this column. A word longer than a line is alone on its line.
pub fn push_wrapped(out: &mut Vec<u8>, column: usize, text: &[u8]) -> Result<(), AllocError> {
    let mut from = 0;
    for (at, byte) in text.iter().enumerate() {
        if *byte == b' ' {
            push_word(out, column, text.get(from..at).unwrap_or(&[]))?;
            from = at.saturating_add(1);
        }
    }
    push_word(out, column, text.get(from..).unwrap_or(&[]))?;
    push(out, &[Words("\n")])
}

/// Adds the lines of a text from this column on, each wrapped.
pub fn push_wrapped_lines(out: &mut Vec<u8>, column: usize, text: &[u8]) -> Result<(), AllocError> {
    let mut from = 0;
    for (at, byte) in text.iter().enumerate() {
        if *byte == b'\n' {
            push(out, &[Column(column)])?;
            push_wrapped(
                out,
                column.saturating_add(4),
                text.get(from..at).unwrap_or(&[]),
            )?;
            from = at.saturating_add(1);
        }
    }
    Ok(())
}

/// Adds a word after a space, unless a space is there or the word is empty.
fn push_word(out: &mut Vec<u8>, column: usize, word: &[u8]) -> Result<(), AllocError> {
    if word.is_empty() {
        return Ok(());
    }
    let space = match out.as_slice().last() {
        Some(b' ' | b'\n') | None => "",
        _ => " ",
    };
    let width = width_in_hand(out).saturating_add(space.len());
    if width.saturating_add(word.len()) > COLUMNS {
        push(out, &[Words("\n"), Column(column), Bytes(word)])
    } else {
        push(out, &[Words(space), Bytes(word)])
    }
}
