//! The rows of the table of routes.

use crate::lines::LINE;
use board::Board;
use desk_base::board_at;
use history::History;
use markup::PagePiece::{Count, Number, Place, Words};
use markup::{Attr, Tag, Writer, begin_table, put_head};
use page_routes::{Route, Routes};
use reach::Network;
use std::alloc::{AllocError, Global};
use tables::{Amount, Money};

/// What the caption of the table says about its routes.
const REMARK: &str = " (a stop with its value, and in brackets what it is worth now, if a tile or \
    a phase has changed that since; a hex without a stop is passed; the routes whose boxes are \
    ticked stand out on the map)";

/// Begins the table of the routes up to its rows.
pub(crate) fn begin_routes(out: &mut Writer) {
    begin_table(out, "runs", "wide");
    out.begin(Tag::Caption);
    out.within();
    out.put(&[Words("Routes of the last operating round")]);
    out.element(Tag::Small, &[Words(REMARK)]);
    out.end();
    put_head(out, &["Company", "Train", "Route", "#Sum", "Order"]);
}

/// Adds the rows of the routes, given the numbers of the drawings of their lines. Fails only if
/// allocation fails.
pub(crate) fn put_route_rows(
    alloc: Global,
    out: &mut Writer,
    history: &History,
    routes: &Routes,
    numbers: &[Option<usize>],
) -> Result<(), AllocError> {
    let board = board_at(alloc, &history.now())?;
    for (route, drawn) in routes.routes.iter().zip(numbers) {
        put_row(out, &board, route, *drawn);
    }
    Ok(())
}

/// Adds the row of a route.
fn put_row(out: &mut Writer, board: &Board, route: &Route, drawn: Option<usize>) {
    out.begin(Tag::Row);
    put_box(out, route, drawn);
    out.element(Tag::Cell, &[Words(route.kind.code())]);
    out.begin(Tag::Cell);
    out.within();
    for (place, visit) in route.visits.iter().enumerate() {
        let before = Words(if place == 0 { "" } else { ", " });
        out.put(&[before, Place(visit.place)]);
        if let (Some(value), Some(stop)) = (visit.value, visit.place.stop()) {
            out.put(&[Words(" "), Number(Money::from(value))]);
            put_change(out, value, board.value(stop));
        }
    }
    out.end();
    out.element(Tag::Cell, &[Number(Money::from(route.sum))]);
    let order = if route.is_best { "best" } else { "written" };
    out.element(Tag::Cell, &[Words(order)]);
    out.end();
}

/// Adds the company of a route, with the box that shows the route alone if it has a line.
fn put_box(out: &mut Writer, route: &Route, drawn: Option<usize>) {
    out.begin(Tag::Heading);
    out.value(Attr::Scope, &[Words("row")]);
    out.begin(Tag::InputLabel);
    out.within();
    if let Some(drawn) = drawn {
        out.begin(Tag::Input);
        out.value(Attr::Kind, &[Words("checkbox")]);
        out.value(Attr::Class, &[Words(LINE), Count(drawn)]);
        out.end();
    }
    out.put(&[Words(route.company.code())]);
    out.end();
    out.end();
}

/// Adds what a stop is worth now, if it was worth another amount when the train ran.
fn put_change(out: &mut Writer, value: Amount, now: Amount) {
    if now != value {
        out.put(&[Words(" (now "), Number(Money::from(now)), Words(")")]);
    }
}
