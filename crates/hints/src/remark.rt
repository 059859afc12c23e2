//! Orders with a remark that is not written as a comment: `WITHHOLD // saving for a D`. Also an
//! order with the sign of a comment inside: `LAY #57 H10 1`.

use crate::edits::Edited;
use crate::words::{is_mendable, words_of};
use std::alloc::{AllocError, Global};

/// The signs with which people begin a remark. No word of an order begins with one.
const SIGNS: &[u8] = b"/-(;*[{!|~\"";

/// Adds the order of the words before a remark, if there is one.
pub(crate) fn push_before_remark(edited: &mut Edited, words: &[&[u8]]) -> Result<(), AllocError> {
    let Some(end) = words.iter().position(|word| begins_remark(word)) else {
        return Ok(());
    };
    let before = words.get(..end).unwrap_or(words);
    if is_mendable(before) {
        edited.push(before)?;
    }
    Ok(())
}

/// Returns whether a word begins a remark.
fn begins_remark(word: &[u8]) -> bool {
    match word {
        [first, ..] => SIGNS.contains(first),
        [] => false,
    }
}

/// Adds the order that a line is without its signs of a comment, if it has one.
pub(crate) fn push_without_sign(edited: &mut Edited, line: &[u8]) -> Result<(), AllocError> {
    if !line.contains(&b'#') {
        return Ok(());
    }
    let mut whole = Vec::new(edited.alloc);
    for byte in line {
        whole.push(if *byte == b'#' { b' ' } else { *byte })?;
    }
    let (words, count) = words_of(whole.as_slice());
    match words.get(..count) {
        Some(words) if is_mendable(words) => edited.push(words),
        _ => Ok(()),
    }
}
