//! The table of the routes, place by place.
ghost use Rattle.std.specs.Prelude.{◌≤◌};

use crate::route_lines::{put_sample_ticks, trains_before};
use crate::routes::{Route, Routes, Visit};
use board::Board;
use desk_base::board_at;
use history::History;
use markup::PagePiece::{Number, Place, Round, Words};
use markup::{Attr, Point, Tag, Writer, begin_row, begin_table, put_company, put_head};
use reach::Network;
use std::alloc::{AllocError, Global};
use tables::{Amount, Money};

/// Adds the table of the routes, or why there is none. If a stop's value has changed since the run,
/// the present value is beside it. Fails only if allocation fails.
pub fn put_table(
    alloc: Global,
    out: &mut Writer,
    history: &History,
    routes: &Routes,
) -> Result<(), AllocError> {
    let Some(round) = routes.round else {
        out.element(
            Tag::Paragraph,
            &[Words("No operating round has been played.")],
        );
        return Ok(());
    };
    if routes.routes.is_empty() {
        let words = [Words("No train ran in "), Round(round), Words(".")];
        out.element(Tag::Paragraph, &words);
        return Ok(());
    }
    let board = board_at(alloc, &history.now())?;
    begin_table(out, "runs", "wide");
    out.begin(Tag::Caption);
    out.within();
    out.put(&[Words("Routes of "), Round(round), Words(" ")]);
    out.element(Tag::Small, &[Words(REMARK)]);
    out.end();
    put_head(out, &["Company", "Line", "Train", "Route", "#Sum", "Order"]);
    out.begin(Tag::TableBody);
    for (number, route) in routes.routes.iter().enumerate() {
        put_row(out, &board, routes.routes.as_slice(), number, route);
    }
    out.end();
    out.end();
    Ok(())
}

/// What the caption of the table says about its routes.
const REMARK: &str = "(a stop with its value, and in brackets what it is worth now, if a tile or \
    a phase has changed that since; a hex without a stop is passed)";

/// Adds the row of the route with a number.
fn put_row(out: &mut Writer, board: &Board, routes: &[Route], number: usize, route: &Route) {
    begin_row(out, "");
    put_company(out, route.company);
    put_sample(out, route, trains_before(routes, number, route));
    out.element(Tag::Cell, &[Words(route.kind.code())]);
    out.begin_as(Tag::Cell, "way");
    out.within();
    for (place, visit) in route.visits.iter().enumerate() {
        out.put(&[Words(if place == 0 { "" } else { " &#8211; " })]);
        put_visit(out, board, visit);
    }
    out.end();
    out.begin_as(Tag::Cell, "num");
    out.element(Tag::Bold, &[Number(Money::from(route.sum))]);
    out.end();
    out.element(
        Tag::Cell,
        &[Words(if route.is_best { "best" } else { "written" })],
    );
    out.end();
}

/// Adds a sample of the line of a route, with this many ticks.
fn put_sample(out: &mut Writer, route: &Route, ticks: usize)
    requires { ticks ≤ 7 }
{
    out.begin(Tag::Cell);
    out.begin_as(Tag::Svg, "line");
    out.value(Attr::ViewBox, &[Words("0 0 90 14")]);
    out.value(Attr::Hidden, &[Words("true")]);
    out.path("ra", &[Words("M2 7H88")]);
    out.path("rb", &[Words("M2 7H88")]);
    out.begin_as(Tag::Path, "rc");
    out.value(Attr::D, &[Words("M2 7H88")]);
    out.line_colour(route.company);
    out.line_dash(route.company);
    out.end();
    put_sample_ticks(out, Point { x: 45, y: 7 }, ticks);
    out.end();
    out.end();
}

/// Adds a place of a route, with what its stop was worth, and what it is worth now on a board.
fn put_visit(out: &mut Writer, board: &Board, visit: &Visit) {
    let (Some(value), Some(stop)) = (visit.value, visit.place.stop()) else {
        out.element_as(Tag::Span, "via", &[Place(visit.place)]);
        return;
    };
    out.put(&[Place(visit.place), Words("&nbsp;")]);
    out.element(Tag::Bold, &[Number(Money::from(value))]);
    let now: Amount = board.value(stop);
    if now != value {
        out.put(&[
            Words("&nbsp;(now&nbsp;"),
            Number(Money::from(now)),
            Words(")"),
        ]);
    }
}
