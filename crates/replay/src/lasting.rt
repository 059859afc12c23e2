//! A part with the pages that have it.
ghost use Rattle.std.specs.Prelude.{◌≡◌, ◌++◌, [], ◌∷◌, OnOk, true};
ghost use Rattle.replay.specs.Shown.{layer_of};

use markup::Part;
use std::alloc::AllocError;
use std::collections::VecDeque;

/// The parts of a page, in layers.
#[derive(Drop)]
pub struct Layers {
    pub layers: Vec<Vec<Part>>,
}

impl Layers {
    /// Returns the parts of a layer; none if the page has no such layer.
    pub(crate) fn layer(&self, layer: usize) -> &[Part]
        ensures { result.now ≡ layer_of self.now.layers.items layer }
    {
        match self.layers.as_slice().get(layer) {
            Some(parts) => parts.as_slice(),
            None => &[],
        }
    }
}

/// A part, which the pages from one up to another have.
#[derive(Drop)]
pub struct Lasting {
    pub part: Part,
    /// The number of the first page that has it.
    pub from: usize,
    /// The number of the last page that has it.
    pub to: usize,
}

/// Adds a part with its pages.
pub(crate) fn push_part(parts: &mut VecDeque<Lasting>, lasting: Lasting) -> Result<(), AllocError>
    ensures { OnOk result (parts.new.items ≡ parts.old.items ++ lasting ∷ []) }
{
    parts.push_back(lasting)?;
    Ok(())
}

/// Returns whether two texts are the same.
pub(crate) fn is_same(a: &[u8], b: &[u8]) -> bool
    ensures { result ≡ true → a.now ≡ b.now }
{
    a == b
}
