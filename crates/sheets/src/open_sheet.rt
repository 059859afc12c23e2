//! The open sheet while a file is collected.
ghost use Rattle.std.specs.Prelude.{◌≤◌, length};
ghost use Rattle.sheets.specs.Limits.{file_most};

use crate::sheet_key::SheetKey;

/// Where an open sheet began.
#[derive(Clone, Copy)]
pub(crate) struct OpenSheet<'a> {
    /// Whose sheet it is.
    pub(crate) sheet_key: SheetKey,
    /// The text from its first line on.
    pub(crate) text: &'a [u8],
    ghost short: { length text.now ≤ file_most },
}
