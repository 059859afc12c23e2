//! Forms of sections and tables: their heads and their cells.

use crate::piece::PagePiece;
use crate::piece::PagePiece::{Number, Words};
use crate::point::Point;
use crate::tag::{Attr, Tag};
use crate::writer::Writer;
use tables::{Company, Money};

/// Begins a new line of the page's source among the children of the innermost element.
fn begin_line(out: &mut Writer) {
    out.within();
    out.put(&[Words("\n")]);
}

/// Begins a table with a name, and a class if there is one.
pub fn begin_table(out: &mut Writer, name: &'static str, class: &'static str) {
    begin_line(out);
    out.begin(Tag::Table);
    out.value(Attr::Id, &[Words(name)]);
    if !class.is_empty() {
        out.value(Attr::Class, &[Words(class)]);
    }
}

/// Adds the caption of a table, with a remark in small letters if there is one.
pub fn put_caption(out: &mut Writer, words: &'static str, remark: &'static str) {
    out.begin(Tag::Caption);
    out.within();
    out.put(&[Words(words)]);
    if !remark.is_empty() {
        out.put(&[Words(" ")]);
        out.element(Tag::Small, &[Words(remark)]);
    }
    out.end();
}

/// Adds the head of a table; a word that begins with `#` heads a column of numbers, and is printed
/// without that sign.
pub fn put_head(out: &mut Writer, words: &[&'static str]) {
    begin_head(out);
    for word in words {
        match word.strip_prefix('#') {
            Some(rest) => put_heading(out, "num", &[Words(rest)]),
            None => put_heading(out, "", &[Words(word)]),
        }
    }
    end_head(out);
}

/// Begins the head of a table.
pub fn begin_head(out: &mut Writer) {
    begin_line(out);
    out.begin(Tag::TableHead);
    out.begin(Tag::Row);
}

/// Ends the head of a table.
pub fn end_head(out: &mut Writer) {
    out.end();
    out.end();
}

/// Adds the heading of a column.
pub fn put_heading(out: &mut Writer, class: &'static str, pieces: &[PagePiece]) {
    begin_heading(out, class);
    out.within();
    out.put(pieces);
    out.end();
}

/// Begins the heading of a column.
pub fn begin_heading(out: &mut Writer, class: &'static str) {
    out.begin(Tag::Heading);
    out.value(Attr::Scope, &[Words("col")]);
    if !class.is_empty() {
        out.value(Attr::Class, &[Words(class)]);
    }
}

/// Begins a row of a table, with a class if there is one, on its own line.
pub fn begin_row(out: &mut Writer, class: &'static str) {
    begin_line(out);
    out.begin(Tag::Row);
    if !class.is_empty() {
        out.value(Attr::Class, &[Words(class)]);
    }
}

/// Adds the heading of a row.
pub fn put_row_head(out: &mut Writer, pieces: &[PagePiece]) {
    out.begin(Tag::Heading);
    out.value(Attr::Scope, &[Words("row")]);
    out.within();
    out.put(pieces);
    out.end();
}

/// Adds the heading of a company's row: its token and its code.
pub fn put_company(out: &mut Writer, company: Company) {
    out.begin(Tag::Heading);
    out.value(Attr::Scope, &[Words("row")]);
    put_token(out, company);
    out.put(&[Words(company.code())]);
    out.end();
}

/// Adds the token of a company in a line of text.
pub fn put_token(out: &mut Writer, company: Company) {
    out.begin_as(Tag::Svg, "tok");
    out.value(Attr::ViewBox, &[Words("-16 -16 32 32")]);
    out.value(Attr::Hidden, &[Words("true")]);
    out.token("#t", company, Point::CENTRE);
    out.end();
}

/// Adds a cell with a number; a dot for 0.
pub fn put_number(out: &mut Writer, number: Money) {
    if number == 0 {
        out.element_as(Tag::Cell, "num", &[Words(NOTHING)]);
    } else {
        out.element_as(Tag::Cell, "num", &[Number(number)]);
    }
}

/// What is shown for nothing: a dot.
pub const NOTHING: &str = "&#183;";

/// Adds a cell with a number, if there is one, or a dot.
pub fn put_some(out: &mut Writer, number: Option<Money>) {
    put_number(out, number.unwrap_or(0));
}

/// Begins a named section that can be scrolled by keyboard, with its heading and a remark in small
/// letters if there is one.
pub fn begin_section(
    out: &mut Writer,
    name: &'static str,
    words: &'static str,
    remark: &'static str,
) {
    begin_plain_section(out, name, words);
    out.begin(Tag::H2);
    out.within();
    out.put(&[Words(words)]);
    if !remark.is_empty() {
        out.put(&[Words(" ")]);
        out.element(Tag::Small, &[Words(remark)]);
    }
    out.end();
}

/// Begins a named section that can be scrolled by keyboard, without a heading; these words name it
/// for a screen reader.
pub fn begin_plain_section(out: &mut Writer, name: &'static str, words: &'static str) {
    begin_line(out);
    out.begin(Tag::Section);
    out.value(Attr::Id, &[Words(name)]);
    out.value(Attr::TabIndex, &[Words("0")]);
    out.value(Attr::Label, &[Words(words)]);
}
