//! How a list of parts is written.

use crate::classes::{Classes, classes_of};
use crate::lasting::Lasting;
use markup::PagePiece::{Count, Words};
use markup::{Attr, Tag, Writer};
use std::collections::VecDeque;

/// Adds a list of parts. Those that some of the pages up to the last one have not are in elements
/// of this tag, by their pages: the class `f` and a number says which page has them first, and `t`
/// and a number which has them last.
pub fn put_replay(out: &mut Writer, parts: VecDeque<Lasting>, last: usize, tag: Tag) {
    let mut open = Classes::NONE;
    for lasting in parts {
        let classes = classes_of(lasting.from, lasting.to, last);
        if classes != open {
            end_group(out, open);
            begin_group(out, classes, tag);
            open = classes;
        }
        out.put_part(&lasting.part);
    }
    end_group(out, open);
}

/// Begins an element that the pages from one up to another have, given the number of the last page.
pub fn begin_lasting(out: &mut Writer, tag: Tag, from: usize, to: usize, last: usize) {
    out.begin(tag);
    put_classes(out, classes_of(from, to, last));
}

/// Begins the element of parts with these classes, if there are any.
fn begin_group(out: &mut Writer, classes: Classes, tag: Tag) {
    if classes != Classes::NONE {
        out.begin(tag);
        put_classes(out, classes);
        out.within();
    }
}

/// Ends that element.
fn end_group(out: &mut Writer, classes: Classes) {
    if classes != Classes::NONE {
        out.end();
    }
}

/// Adds the classes of parts, if there are any.
fn put_classes(out: &mut Writer, classes: Classes) {
    match (classes.first, classes.last) {
        (None, None) => {}
        (Some(first), None) => out.value(Attr::Class, &[Words("f"), Count(first)]),
        (None, Some(last)) => out.value(Attr::Class, &[Words("t"), Count(last)]),
        (Some(first), Some(last)) => {
            let words = [Words("f"), Count(first), Words(" t"), Count(last)];
            out.value(Attr::Class, &words);
        }
    }
}
