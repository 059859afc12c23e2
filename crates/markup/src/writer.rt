//! A writer of elements.
ghost use Rattle.std.specs.Prelude.{◌≡◌, ◌++◌, ◌-◌, [], ◌∷◌, IfOk, length, true};
ghost use Rattle.std.specs.List.{flat_map};
ghost use Rattle.markup.specs.Escaped.{escaped};
ghost use Rattle.markup.specs.Reading.{IsWellFormed};
ghost use Rattle.markup.specs.Written.{IsRead, closing_of, is_apart, is_plain, plain_of};
ghost use Rattle.markup.specs.declared.writer.WriterPlace.TheVariants.{Between};

use crate::part::Part;
use crate::piece::{PagePiece, put_bytes, put_piece, put_text};
use crate::script::POLICY;
use crate::tag::{Attr, Tag};
use std::alloc::{AllocError, Global};

/// The beginning of each page, up to the head in which its title and style are written.
const PROLOGUE: &str = "<!DOCTYPE html>\n<html lang=\"en\">\n<head>\n<meta charset=\"utf-8\">\n\
    <meta name=\"viewport\" content=\"width=device-width, initial-scale=1\">\n";

/// Where a writer is.
#[derive(Clone, Copy)]
pub enum WriterPlace {
    /// Between tags.
    Between,
    /// After the name in the start tag of this element.
    Naming(Tag),
    /// In a value of that start tag.
    Valued(Tag),
}

/// A writer of a page, or of parts of one. It keeps the open elements, so that each is ended, the
/// innermost first. Once an allocation has failed it writes nothing more, and `finish` returns the
/// error.
#[derive(Drop)]
pub struct Writer {
    alloc: Global,
    text: Vec<u8>,
    /// The open elements whose start tags have ended.
    stack: Vec<Tag>,
    spot: WriterPlace,
    fault: Option<AllocError>,
    /// Whether each element within no other is a part.
    is_parted: bool,
    /// The parts so far.
    parts: Vec<Part>,
    ghost read: { IsRead text.items stack.items spot fault },
}

impl Writer {
    /// Returns a writer of a page, at the place for its title and style.
    pub fn page(alloc: Global) -> Writer {
        let mut text = Vec::new(alloc);
        let mut stack = Vec::new(alloc);
        let mut fault = None;
        add(&mut text, &mut fault, PROLOGUE);
        keep(&mut stack, &mut fault, Tag::Html);
        keep(&mut stack, &mut fault, Tag::Head);
        Writer {
            alloc,
            text,
            stack,
            spot: WriterPlace::Between,
            fault,
            is_parted: false,
            parts: Vec::new(alloc),
        }
    }

    /// Returns a writer of parts: each element that is within no other becomes one.
    pub fn of_parts(alloc: Global) -> Writer {
        Writer {
            alloc,
            text: Vec::new(alloc),
            stack: Vec::new(alloc),
            spot: WriterPlace::Between,
            fault: None,
            is_parted: true,
            parts: Vec::new(alloc),
        }
    }

    /// Returns a writer of a page with a script, in its head.
    pub fn scripted_page(alloc: Global) -> Writer {
        let mut text = Vec::new(alloc);
        let mut stack = Vec::new(alloc);
        let mut fault = None;
        add(&mut text, &mut fault, PROLOGUE);
        add(&mut text, &mut fault, POLICY);
        keep(&mut stack, &mut fault, Tag::Html);
        keep(&mut stack, &mut fault, Tag::Head);
        Writer {
            alloc,
            text,
            stack,
            spot: WriterPlace::Between,
            fault,
            is_parted: false,
            parts: Vec::new(alloc),
        }
    }

    /// Begins an element in the innermost open one.
    #[tactic(auto, using(crate::proofs::ReadLemmas::begun))]
    pub fn begin(&mut self, tag: Tag) {
        self.within();
        add(&mut self.text, &mut self.fault, "<");
        add(&mut self.text, &mut self.fault, tag.name());
        self.spot = WriterPlace::Naming(tag);
    }

    /// Begins a value in the start tag of the last element begun. Does nothing if that tag has
    /// ended.
    pub fn attr(&mut self, attr: Attr) {
        match self.spot {
            WriterPlace::Between => {}
            WriterPlace::Naming(tag) => {
                add(&mut self.text, &mut self.fault, attr.opening());
                self.spot = WriterPlace::Valued(tag);
            }
            WriterPlace::Valued(_) => {
                add(&mut self.text, &mut self.fault, "\"");
                add(&mut self.text, &mut self.fault, attr.opening());
            }
        }
    }

    /// Ends the start tag that the writer is in, if it is in one: what follows is a child.
    pub fn within(&mut self)
        ensures spot { self.new.spot ≡ Between }
        ensures before { self.new.fault ≡ None → self.old.fault ≡ None }
        ensures added { self.new.fault ≡ None →
            self.new.text.items ≡ self.old.text.items ++ closing_of self.old.spot }
    {
        match self.spot {
            WriterPlace::Between => {}
            WriterPlace::Naming(tag) => {
                add(&mut self.text, &mut self.fault, ">");
                keep(&mut self.stack, &mut self.fault, tag);
            }
            WriterPlace::Valued(tag) => {
                add(&mut self.text, &mut self.fault, "\">");
                keep(&mut self.stack, &mut self.fault, tag);
            }
        }
        self.spot = WriterPlace::Between;
    }

    /// Adds pieces to the value that the writer is in, or else to the children of the innermost
    /// open element.
    pub fn put(&mut self, pieces: &[PagePiece]) {
        for piece in pieces {
            put_piece(self, *piece);
        }
    }

    /// Adds words to the children of the innermost open element, except signs that have a meaning
    /// in tags.
    pub fn words(&mut self, words: &'static str)
        ensures spot { self.new.spot ≡ Between }
        ensures before { self.new.fault ≡ None → self.old.fault ≡ None }
        ensures added { self.new.fault ≡ None → self.new.text.items
            ≡ self.old.text.items ++ closing_of self.old.spot ++ flat_map plain_of words.now }
    {
        self.within();
        put_bytes(self, words.as_bytes());
    }

    /// Adds a text of any bytes to the children of the innermost open element. Signs that have a
    /// meaning in a page are written as references, so that a browser shows the text.
    pub fn text(&mut self, text: &[u8])
        ensures spot { self.new.spot ≡ Between }
        ensures before { self.new.fault ≡ None → self.old.fault ≡ None }
        ensures added { self.new.fault ≡ None → self.new.text.items
            ≡ self.old.text.items ++ closing_of self.old.spot ++ escaped text.now }
    {
        self.within();
        put_text(self, text);
    }

    /// Adds a part to the children of the innermost open element.
    pub fn put_part(&mut self, part: &Part) {
        self.within();
        add_bytes(&mut self.text, &mut self.fault, part.bytes());
    }

    /// Adds a byte where the writer is, unless it is one that has a meaning in tags.
    pub(crate) fn put_byte(&mut self, byte: u8)
        ensures spot { is_apart self.new.spot ≡ true }
        ensures same { is_apart self.old.spot ≡ true → self.new.spot ≡ self.old.spot }
        ensures before { self.new.fault ≡ None → self.old.fault ≡ None }
        ensures added { is_apart self.old.spot ≡ true → self.new.fault ≡ None →
            self.new.text.items ≡ self.old.text.items ++ plain_of byte }
    {
        self.settle();
        if is_plain(byte) && self.fault.is_none() {
            self.push_plain(byte);
        }
    }

    /// Ends the start tag that the writer is in, if it is in one that has no values so far.
    pub(crate) fn settle(&mut self)
        ensures spot { is_apart self.new.spot ≡ true }
        ensures same_spot { is_apart self.old.spot ≡ true → self.new.spot ≡ self.old.spot }
        ensures same { is_apart self.old.spot ≡ true → self.new.text.items ≡ self.old.text.items }
        ensures before { self.new.fault ≡ None → self.old.fault ≡ None }
    {
        if let WriterPlace::Naming(_) = self.spot {
            self.within();
        }
    }

    /// Adds a byte that has no meaning in tags.
    #[tactic(auto, using(crate::proofs::ReadLemmas::plain_kept))]
    fn push_plain(&mut self, byte: u8)
        requires apart { is_apart self.old.spot ≡ true }
        requires plain { is_plain byte ≡ true }
        ensures spot { self.new.spot ≡ self.old.spot }
        ensures before { self.new.fault ≡ None → self.old.fault ≡ None }
        ensures added { self.new.fault ≡ None →
            self.new.text.items ≡ self.old.text.items ++ byte ∷ [] }
    {
        if let Err(error) = self.text.push(byte) {
            // An allocation failed: passed on.
            self.fault = Some(AllocError::from(error));
        }
    }

    /// Ends the innermost open element.
    pub fn end(&mut self) {
        self.end_innermost();
        if self.is_parted && self.stack.is_empty() {
            cut(self.alloc, &mut self.text, &mut self.fault, &mut self.parts);
        }
    }

    /// Makes a part of what a writer of parts has written since the last one, if no element is
    /// open: a text without an element becomes a part too.
    pub fn end_part(&mut self) {
        self.within();
        if self.is_parted && self.stack.is_empty() {
            cut(self.alloc, &mut self.text, &mut self.fault, &mut self.parts);
        }
    }

    /// Ends the innermost open element, if there is one.
    fn end_innermost(&mut self)
        ensures { self.new.spot ≡ Between }
    {
        match self.spot {
            WriterPlace::Naming(tag) if tag.is_sole() => {
                add(&mut self.text, &mut self.fault, "/>");
                self.spot = WriterPlace::Between;
            }
            WriterPlace::Valued(tag) if tag.is_sole() => {
                add(&mut self.text, &mut self.fault, "\"/>");
                self.spot = WriterPlace::Between;
            }
            _ => {
                self.within();
                self.close();
            }
        }
    }

    /// Writes the end tag of the innermost element whose start tag has ended, if there is one.
    #[tactic(auto, using(crate::proofs::ReadLemmas::closed_by))]
    fn close(&mut self)
        requires { self.old.spot ≡ Between }
        ensures spot { self.new.spot ≡ Between }
        ensures fewer { length self.new.stack.items ≡ length self.old.stack.items - 1 }
    {
        if let Some(tag) = self.stack.pop() {
            add(&mut self.text, &mut self.fault, "</");
            add(&mut self.text, &mut self.fault, tag.name());
            add(&mut self.text, &mut self.fault, ">");
        }
    }

    /// Ends all open elements. Returns the page, or the error if an allocation has failed.
    pub fn finish(self) -> Result<Vec<u8>, AllocError>
        ensures { IfOk result (λ page. IsWellFormed page.items) }
    {
        let mut writer = self;
        writer.within();
        while !writer.stack.is_empty() {
            writer.close();
        }
        let Writer { text, fault, .. } = writer;
        match fault {
            None => Ok(text),
            Some(error) => Err(error),
        }
    }

    /// Returns the parts, or the error if an allocation has failed. An element that is open is in
    /// none of them.
    pub fn finish_parts(self) -> Result<Vec<Part>, AllocError> {
        let Writer { fault, parts, .. } = self;
        match fault {
            None => Ok(parts),
            Some(error) => Err(error),
        }
    }
}

/// Makes a part of a text, which becomes empty, unless an allocation has failed before.
fn cut(alloc: Global, text: &mut Vec<u8>, fault: &mut Option<AllocError>, parts: &mut Vec<Part>)
    requires { fault.old ≡ None → IsWellFormed text.old.items }
    ensures before { fault.new ≡ None → fault.old ≡ None }
    ensures cut { fault.new ≡ None → text.new.items ≡ [] }
{
    if fault.is_none() {
        if let Err(error) = add_part(alloc, parts, text.as_slice()) {
            *fault = Some(error);
        }
        text.clear();
    }
}

/// Adds a part with a text.
fn add_part(alloc: Global, parts: &mut Vec<Part>, text: &[u8]) -> Result<(), AllocError>
    requires { IsWellFormed text.now }
{
    parts.push(Part::new(alloc, text)?)?;
    Ok(())
}

/// Adds words to a text, unless an allocation has failed already.
fn add(text: &mut Vec<u8>, fault: &mut Option<AllocError>, words: &str)
    ensures before { fault.new ≡ None → fault.old ≡ None }
    ensures added { fault.new ≡ None → text.new.items ≡ text.old.items ++ words.now }
{
    add_bytes(text, fault, words.as_bytes());
}

/// Adds bytes to a text, unless an allocation has failed before.
fn add_bytes(text: &mut Vec<u8>, fault: &mut Option<AllocError>, bytes: &[u8])
    ensures before { fault.new ≡ None → fault.old ≡ None }
    ensures added { fault.new ≡ None → text.new.items ≡ text.old.items ++ bytes.now }
{
    if fault.is_none() {
        if let Err(error) = text.extend_from_slice(bytes) {
            *fault = Some(error);
        }
    }
}

/// Adds an element to the open ones, unless an allocation has failed already.
fn keep(stack: &mut Vec<Tag>, fault: &mut Option<AllocError>, tag: Tag)
    ensures before { fault.new ≡ None → fault.old ≡ None }
    ensures kept { fault.new ≡ None → stack.new.items ≡ stack.old.items ++ tag ∷ [] }
{
    if fault.is_none() {
        if let Err(error) = stack.push(tag) {
            // An allocation failed: passed on.
            *fault = Some(AllocError::from(error));
        }
    }
}

/// Returns whether a byte has no meaning in tags: it is not `<` or a quotation mark.
fn is_plain(byte: u8) -> bool
    ensures { result ≡ is_plain byte }
{
    byte != b'<' && byte != b'"'
}
