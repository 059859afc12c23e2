//! The lines of the routes of an operating round, each drawn once in the page.

use crate::drawings::{Drawings, put_use};
use history::History;
use markup::PagePiece::{Count, Number, Words};
use markup::{Attr, Part, Tag, Writer};
use page_routes::{Route, Routes, put_line, put_line_ticks};
use std::alloc::{AllocError, Global};
use tables::Money;

/// The class of a route's line and of its box in the table, to be followed by the number of the
/// line's drawing.
pub(crate) const LINE: &str = "d";

/// Returns the number of the drawing of each route of a round; `None` for a route without a line.
/// Fails only if allocation fails.
pub(crate) fn line_numbers(
    alloc: Global,
    history: &History,
    routes: &Routes,
    drawings: &mut Drawings,
) -> Result<Vec<Option<usize>>, AllocError> {
    let mut numbers = Vec::new(alloc);
    for number in 0..routes.routes.len() {
        let drawn = match line_of(alloc, history, routes, number)? {
            Some(line) => Some(drawings.number_of(line)?),
            None => None,
        };
        numbers.push(drawn)?;
    }
    Ok(numbers)
}

/// Adds the lines of the routes of a round, each as a use of its drawing, given the numbers of
/// these.
pub(crate) fn put_lines(
    out: &mut Writer,
    history: &History,
    routes: &Routes,
    numbers: &[Option<usize>],
) {
    for (number, (route, drawn)) in routes.routes.iter().zip(numbers).enumerate() {
        if let Some(drawn) = *drawn {
            out.begin(Tag::Group);
            out.value(Attr::Class, &[Words("ra "), Words(LINE), Count(drawn)]);
            put_title(out, route);
            put_use(out, drawn, "", "");
            put_use(out, drawn, "rb", "");
            put_use(out, drawn, "rc l", route.company.letter());
            put_line_ticks(out, history, routes, number);
            out.end();
        }
    }
}

/// Returns the line of the route with a number.
fn line_of(
    alloc: Global,
    history: &History,
    routes: &Routes,
    number: usize,
) -> Result<Option<Part>, AllocError> {
    let mut out = Writer::of_parts(alloc);
    put_line(alloc, &mut out, history, routes, number)?;
    let mut parts = out.finish_parts()?;
    Ok(parts.pop())
}

/// Adds a title with the train of a route and its sum.
fn put_title(out: &mut Writer, route: &Route) {
    let (company, train) = (Words(route.company.code()), Words(route.kind.code()));
    let sum = Number(Money::from(route.sum));
    out.element(
        Tag::Title,
        &[company, Words(" "), train, Words("-train, "), sum],
    );
}
