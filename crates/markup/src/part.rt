//! A part of a page by itself.
ghost use Rattle.std.specs.Prelude.{◌≡◌, IfOk};
ghost use Rattle.markup.specs.Reading.{IsWellFormed};

use std::alloc::{AllocError, Global};

/// A part of a page: an element with what is in it. Each of its elements is ended.
#[derive(Drop)]
pub struct Part {
    text: Vec<u8>,
    ghost whole: { IsWellFormed text.items },
}

impl Part {
    ghost use Rattle.markup.specs.Part.{part_text};

    /// Makes a part with a text. Fails only if allocation fails.
    pub(crate) fn new(alloc: Global, text: &[u8]) -> Result<Part, AllocError>
        requires { IsWellFormed text.now }
        ensures { IfOk result (λ part. part_text part ≡ text.now) }
    {
        Ok(Part {
            text: Vec::from_slice(alloc, text)?,
        })
    }

    /// Returns its text.
    pub fn bytes(&self) -> &[u8]
        ensures value { result.now ≡ part_text self.now }
        ensures whole { IsWellFormed result.now }
    {
        self.text.as_slice()
    }

    /// Returns another part with the same text. Fails only if allocation fails.
    pub fn copy(&self, alloc: Global) -> Result<Part, AllocError>
        ensures { IfOk result (λ part. part_text part ≡ part_text self.now) }
    {
        Part::new(alloc, self.bytes())
    }
}
