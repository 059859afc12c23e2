//! Elements that pages are made of, each as a call.

use crate::piece::PagePiece;
use crate::piece::PagePiece::{At, Words};
use crate::point::Point;
use crate::tag::{Attr, Tag};
use crate::writer::Writer;
use tables::Company;

impl Writer {
    /// Adds a value to the start tag of the last element begun.
    pub fn value(&mut self, attr: Attr, pieces: &[PagePiece]) {
        self.attr(attr);
        self.put(pieces);
    }

    /// Begins an element with a class.
    pub fn begin_as(&mut self, tag: Tag, class: &'static str) {
        self.begin(tag);
        self.value(Attr::Class, &[Words(class)]);
    }

    /// Adds an element with a text.
    pub fn element(&mut self, tag: Tag, pieces: &[PagePiece]) {
        self.begin(tag);
        self.within();
        self.put(pieces);
        self.end();
    }

    /// Adds an element with a class and a text.
    pub fn element_as(&mut self, tag: Tag, class: &'static str, pieces: &[PagePiece]) {
        self.begin_as(tag, class);
        self.within();
        self.put(pieces);
        self.end();
    }

    /// Adds the position of an element.
    pub fn place_at(&mut self, place: Point) {
        self.value(Attr::X, &[At(place.x)]);
        self.value(Attr::Y, &[At(place.y)]);
    }

    /// Adds a text with a class at a point.
    pub fn label(&mut self, class: &'static str, place: Point, pieces: &[PagePiece]) {
        self.begin_as(Tag::Text, class);
        self.place_at(place);
        self.within();
        self.put(pieces);
        self.end();
    }

    /// Adds words that begin at a point.
    pub fn words_at(&mut self, place: Point, words: &'static str) {
        self.label("st", place, &[Words(words)]);
    }

    /// Adds a sign at a point, by its reference.
    pub fn sign(&mut self, sign: &'static str, place: Point) {
        self.begin(Tag::Use);
        self.value(Attr::Href, &[Words(sign)]);
        self.place_at(place);
        self.end();
    }

    /// Adds a token of a company at a point, given the beginning of its reference: `#t`, `#m` or
    /// `#r`.
    pub fn token(&mut self, sign: &'static str, company: Company, place: Point) {
        self.begin(Tag::Use);
        self.value(Attr::Href, &[Words(sign), Words(company.letter())]);
        self.place_at(place);
        self.end();
    }

    /// Adds a path with a class, given its data.
    pub fn path(&mut self, class: &'static str, data: &[PagePiece]) {
        self.begin_as(Tag::Path, class);
        self.value(Attr::D, data);
        self.end();
    }

    /// Begins a group that is moved to a point.
    pub fn begin_at(&mut self, place: Point) {
        self.begin(Tag::Group);
        self.value(
            Attr::Transform,
            &[
                Words("translate("),
                At(place.x),
                Words(" "),
                At(place.y),
                Words(")"),
            ],
        );
    }
}
