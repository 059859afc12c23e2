//! Drawings that a page has once: each is defined in the picture of the map, and used by its
//! number.
ghost use Rattle.std.specs.Prelude.{◌≡◌, [], IfOk, IfSome, length, true};
ghost use Rattle.page_all.specs.Drawings.{IsNumberOf};

use markup::PagePiece::{Count, Words};
use markup::{Attr, Part, Point, Tag, Writer};
use std::alloc::{AllocError, Global};

/// The name of the drawing of the rim of a new tile, beside those with numbers.
pub(crate) const NEW_TILE: &str = "kn";

/// The drawings of a page; the number of each is its place.
#[derive(Drop)]
pub(crate) struct Drawings {
    parts: Vec<Part>,
}

impl Drawings {
    /// Returns no drawings.
    pub(crate) fn new(alloc: Global) -> Drawings
        ensures { result.parts.items ≡ [] }
    {
        Drawings {
            parts: Vec::new(alloc),
        }
    }

    /// Returns the number of a drawing. It is added if it is not there yet. Fails only if
    /// allocation fails.
    #[tactic(auto, using(crate::proofs::DrawingLemmas::last_number))]
    pub(crate) fn number_of(&mut self, part: Part) -> Result<usize, AllocError>
        ensures { IfOk result (IsNumberOf self.new.parts.items part) }
    {
        match place_of(self.parts.as_slice(), &part) {
            Some(place) => Ok(place),
            None => {
                let place = self.parts.len();
                self.parts.push(part)?;
                Ok(place)
            }
        }
    }

    /// Returns how many drawings there are.
    pub(crate) fn count(&self) -> usize
        ensures { result ≡ length self.now.parts.items }
    {
        self.parts.len()
    }

    /// Adds the definitions of the drawings, and that of the rim of a new tile.
    pub(crate) fn put(&self, out: &mut Writer) {
        out.begin(Tag::Defs);
        out.begin(Tag::Group);
        out.value(Attr::Id, &[Words(NEW_TILE)]);
        out.sign("#nw", Point::CENTRE);
        out.sign("#nh", Point::CENTRE);
        out.end();
        for (number, drawing) in self.parts.iter().enumerate() {
            out.begin(Tag::Group);
            out.value(Attr::Id, &[Words("k"), Count(number)]);
            out.put_part(drawing);
            out.end();
        }
        out.end();
    }
}

/// Returns the number of a drawing, if it is among those.
fn place_of(drawings: &[Part], part: &Part) -> Option<usize>
    ensures { IfSome result (IsNumberOf drawings.now part.now) }
{
    for place in 0..drawings.len() {
        if is_same(drawings[place].bytes(), part.bytes()) {
            return Some(place);
        }
    }
    None
}

/// Returns whether two texts are the same.
fn is_same(a: &[u8], b: &[u8]) -> bool
    ensures { result ≡ true → a.now ≡ b.now }
{
    a == b
}

/// Adds a use of the drawing with a number, with a class if there is one. The letters behind it end
/// the class.
pub(crate) fn put_use(out: &mut Writer, number: usize, class: &'static str, letters: &'static str) {
    out.begin(Tag::Use);
    if !class.is_empty() {
        out.value(Attr::Class, &[Words(class), Words(letters)]);
    }
    out.value(Attr::Href, &[Words("#k"), Count(number)]);
    out.end();
}
