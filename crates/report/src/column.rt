//! Texts and numbers in columns, padded with spaces.
ghost use Rattle.std.specs.Prelude.{◌≡◌, ◌++◌, OnOk, replicate};
ghost use Rattle.report.specs.Column.{Adds, left_aligned, right_aligned};

use itoa::Integer;
use std::alloc::AllocError;

/// Adds a text at the left of a column of this many bytes, padded with spaces. A wider text is
/// printed whole.
#[tactic(auto, unfolding(crate::specs::Column::left_aligned))]
pub(crate) fn push_left(out: &mut Vec<u8>, text: &[u8], width: usize) -> Result<(), AllocError>
    ensures { OnOk result (Adds out.old out.new (left_aligned width text.now)) }
{
    out.extend_from_slice(text)?;
    push_spaces(out, width.saturating_sub(text.len()))
}

/// Adds a number at the right of a column of this many bytes. A wider number is printed whole.
#[tactic(auto, unfolding(crate::specs::Column::right_aligned))]
pub(crate) fn push_right<I: Integer>(
    out: &mut Vec<u8>,
    number: I,
    width: usize,
) -> Result<(), AllocError>
    ensures { OnOk result (Adds out.old out.new (right_aligned width (I.text number))) }
{
    let mut buffer = itoa::Buffer::new();
    let digits = buffer.format(number).as_bytes();
    push_spaces(out, width.saturating_sub(digits.len()))?;
    out.extend_from_slice(digits)
}

/// Adds spaces.
fn push_spaces(out: &mut Vec<u8>, count: usize) -> Result<(), AllocError>
    ensures { OnOk result (Adds out.old out.new (replicate count 32)) }
{
    out.resize(out.len().saturating_add(count), b' ')
}
