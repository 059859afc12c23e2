//! The laws of pages. Each is the contract of a function that does nothing.
ghost use Rattle.std.specs.Prelude.{ℕ, List};
ghost use Rattle.markup.specs.Escaped.{ReadsAs, escaped};

/// States that a text is written without a bare `&`, `<`, `>` or quotation mark, and reads back as
/// itself.
pub fn texts_read_back()
    ensures { (text : List ℕ) → ReadsAs (escaped text) text }
{}
