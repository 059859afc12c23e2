//! The numbered lines of a sheet, with their places in the file.
ghost use Rattle.std.specs.Prelude.{◌≡◌, IfOk, map};
ghost use Rattle.desk_trials.specs.Numbered.{ends_numbered, line_at, numbered_of};

use crate::check_lines::{FileLine, FileLines};
use crate::check_sheets::Head;
use crate::sheet_like::closes;
use order_grammar::{Order, Version};
use sheets::{LINES_MOST, UnreadLine, is_blank};
use std::alloc::{AllocError, Global};
use tables::Company;

/// The most lines of a sheet that are kept. All lines past `LINES_MOST` have the same fault, and
/// only the first of them is reported.
const KEPT_MOST: usize = LINES_MOST as usize + 1;

/// Returns the lines of the sheet that a head begins, without blank ones: line 1 comes first. Of
/// the lines past 512 it has only the first. Fails only if allocation fails.
pub(crate) fn numbered_lines<'a>(
    alloc: Global,
    head: &Head<'a>,
) -> Result<Vec<FileLine<'a>>, AllocError>
    ensures { IfOk result (λ lines. map line_at lines.items ≡ numbered_of head.now) }
{
    let mut numbered = Vec::new(alloc);
    let lines = FileLines {
        passed: head.line.number,
        rest: head.line.rest,
    };
    for line in lines {
        if ends_numbered(numbered.len(), line.text) {
            return Ok(numbered);
        }
        if !is_blank(line.text) {
            numbered.push(line)?;
        }
    }
    Ok(numbered)
}

/// Returns whether a sheet ends at a line, or was meant to, or the sheet has too many lines for
/// another to be kept.
fn ends_numbered(count: usize, line: &[u8]) -> bool
    ensures { result ≡ ends_numbered count line.now }
{
    closes(line) || count >= KEPT_MOST
}

/// Returns the line of a sheet with this number, from 1; `None` if it is not kept.
pub(crate) fn line_numbered<'a>(lines: &[FileLine<'a>], number: u32) -> Option<FileLine<'a>> {
    let place = (number as usize).checked_sub(1)?;
    lines.get(place).copied()
}

/// Returns the line of a sheet of some version with which the orders for a company begin; `None` if
/// it has none for it.
pub(crate) fn head_of<'a>(
    version: Version,
    lines: &[FileLine<'a>],
    company: Company,
) -> Option<FileLine<'a>> {
    for line in lines {
        let read = UnreadLine {
            version,
            number: 1,
            text: line.text,
        }
        .read();
        if let Ok(Order::Company(its)) = read.order()
            && *its == company
        {
            return Some(*line);
        }
    }
    None
}
