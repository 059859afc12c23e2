//! The rules of style by which buttons show a page, and what has changed since another.
//!
//! The buttons stand before all that they change. Of page 7 the button with the classes `rd` and
//! `r7` shows it, and then, unless it is the last page, that with `cd` and `c7` compares with it.
//! At last comes one with `rd` and `now`, which is pressed at first: it shows the page in the
//! address of the document, which is the name of the button of a page, and the last page if there
//! is none.

use markup::PagePiece::{Count, Words};
use markup::Writer;

/// A piece of a rule that there is for each page.
#[derive(Clone, Copy)]
enum Piece {
    /// Constant text.
    Text(&'static str),
    /// The button of the page that is shown, from its class on.
    Shown(&'static str),
    /// The number of the page.
    This,
    /// The number of the next page.
    Next,
}

use Piece::{Next, Shown, Text, This};

/// Which button is that of the page that is shown: the one that is pressed; while that is the first
/// button, the one of the page in the address, if there is one.
const IS_SHOWN: &str = ":is(:checked:not(.rd:target~.now),:target:has(~.now:checked))";

/// A page hides what it has not: a part that an earlier page has last, and one that a later page
/// has first.
const HIDDEN: [Piece; 11] = [
    Text(".r"),
    This,
    Shown("~.rd"),
    Text("~* .t"),
    This,
    Shown(",.rd"),
    Text("~.r"),
    Next,
    Text("~* .f"),
    Next,
    Text(",\n"),
];

/// The page to compare with has not a figure that an earlier page has last, or a later one first.
const NOT_COMPARED: [Piece; 9] = [
    Text(".c"),
    This,
    Text("~.cd:checked~* .t"),
    This,
    Text(",.cd:checked~.r"),
    Next,
    Text("~* .f"),
    Next,
    Text(",\n"),
];

/// What is new on a page is so since the one to compare with, if that page comes later.
const NEW: [Piece; 5] = [
    Text(".cd:checked~.r"),
    Next,
    Text("~* .n"),
    Next,
    Text(",\n"),
];

/// The words on the button that compares with a page.
const COMPARED: [Piece; 5] = [
    Text(".c"),
    This,
    Text(":checked~nav [for=c"),
    This,
    Text("],\n"),
];

/// What a page has not, is hidden; of figures `--s` is then empty. A figure is hidden if neither
/// the page that is shown has it nor the one to compare with, for which `--b` says the same. An
/// arrow follows what the page that is shown has not. If pages are compared, a dot stands for
/// nothing.
const FIGURES: &str = ".none{display:none;--s: ;}\n\
    :is(td,b)>span{--s:initial;--b: ;--o:var(--s) var(--b) none;--g:var(--s) '\\2192';\
    display:var(--o,inline)!important}\n\
    :is(td,b)>span:after{content:var(--g,none)}\n\
    :is(td,b)>span:empty:before{content:var(--d,none)}\n";

/// What holds if the page to compare with comes before the one that is shown.
const IF_COMPARED: &str = "~*) :is(td,b)>span{--b:initial;--d:'\\b7'}\n";

/// How the words on a button are marked. While the address says which page is shown, the next click
/// anywhere is one on those words, so that the page stays when a link changes the address.
const MARKED: &str = "#with:checked~nav [for=with]\
    {--y:'';background:var(--ink);color:var(--paper)}\n\
    .rd:target~.now:checked~.rounds label:after{content:var(--y,none);position:fixed;inset:0;\
    z-index:-1}\n";

/// Adds the rules of style for pages up to the last one.
pub fn put_rules(out: &mut Writer, last: usize) {
    put_for_each(out, &HIDDEN, last);
    out.put(&[Words(FIGURES), Words(":where(.cd:checked~.rd")]);
    out.put(&[Words(IS_SHOWN), Words(IF_COMPARED)]);
    put_for_each(out, &NOT_COMPARED, last);
    out.put(&[Words(".none{--b: ;}\n.new use{display:none}\n")]);
    put_for_each(out, &NEW, last);
    out.put(&[Words(".none{display:inline}\n")]);
    for number in 0..last.saturating_add(1) {
        put_if_shown(out, number, last);
        out.put(&[Words("~nav .r"), Count(number), Words(",\n")]);
    }
    put_for_each(out, &COMPARED, last);
    out.put(&[Words(MARKED)]);
}

/// Adds a rule for each page before the last one.
fn put_for_each(out: &mut Writer, rule: &[Piece], last: usize) {
    for number in 0..last {
        for piece in rule {
            match *piece {
                Text(text) => out.put(&[Words(text)]),
                Shown(class) => out.put(&[Words(class), Words(IS_SHOWN)]),
                This => out.put(&[Count(number)]),
                Next => out.put(&[Count(number.saturating_add(1))]),
            }
        }
    }
}

/// Adds the selector of a button that is there if a page is shown, given the number of the last
/// page, for a rule of what stands behind all buttons.
pub fn put_if_shown(out: &mut Writer, number: usize, last: usize) {
    let page = [Words(".r"), Count(number), Words(IS_SHOWN)];
    if number < last {
        out.put(&page);
    } else {
        out.put(&[Words(":is(.now,"), page[0], page[1], Words(")"), page[2]]);
    }
}

/// Adds the selector of a button that is there if a page before this one is shown, likewise.
pub fn put_if_before(out: &mut Writer, number: usize) {
    out.put(&[Words(".rd"), Words(IS_SHOWN), Words("~.r"), Count(number)]);
}
