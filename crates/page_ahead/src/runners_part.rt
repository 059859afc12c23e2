//! Who runs next, as a table.

use crate::dues_part::put_dues;
use crate::page_column;
use crate::panel::Panel;
use crate::runner_rows::{falls_due, is_kept, price_on};
use crate::table_part::{Column, Table, begin_table_of, put_cell, put_cells};
use desk_base::board_at;
use desk_cells::{Cell, CompanyRow, Field, TableRow};
use desk_dues::dangers;
use markup::PagePiece::{Number, Words};
use markup::{NOTHING, Tag, Writer, begin_row};
use page_map::Scene;
use purchases::has_trains;
use std::alloc::{AllocError, Global};
use tables::{Amount, Company, Money};

/// The companies that operate.
static RUNNERS: Table = Table {
    name: "runners",
    class: "",
    caption: "Who runs next, in order",
    remark: "(in red what falls due if nobody orders anything)",
    columns: &[
        page_column!(Field::Name, "Company"),
        page_column!(Field::President, "President"),
        page_column!("#Price"),
        page_column!("#Earned"),
        page_column!("Trains"),
        page_column!("#Cash"),
        page_column!("Falls due"),
    ],
};

/// Adds the companies in operating order, each with what falls due. Fails only if allocation fails.
pub(crate) fn put_runners(
    alloc: Global,
    out: &mut Writer,
    panel: &Panel,
    rows: &[TableRow],
) -> Result<(), AllocError> {
    begin_table_of(out, &RUNNERS);
    out.begin(Tag::TableBody);
    let history = panel.scene.history;
    let board = board_at(alloc, &history.now())?;
    let dangers = dangers(history);
    let mut is_first = true;
    for row in rows {
        if let TableRow::OfCompany(company) = row {
            let is_due = falls_due(history, &board, company.company);
            let danger = dangers
                .as_slice()
                .iter()
                .find(|danger| danger.company == company.company);
            begin_row(out, if is_due { "hot" } else { "" });
            put_cells(out, panel.scene, RUNNERS.columns, row);
            put_figures(out, panel.scene, row, company);
            put_dues(out, panel, company, (is_due, is_first), danger.copied());
            out.end();
            is_first = is_first && !is_due;
        }
    }
    out.end();
    out.end();
    Ok(())
}

/// Adds the cells of a company between its president and what falls due: its price, what it last
/// earned, its trains and its cash.
fn put_figures(out: &mut Writer, scene: &Scene, row: &TableRow, company: &CompanyRow) {
    let before = price_on(company.square_before).unwrap_or(0);
    put_price(out, before, price_on(company.square).unwrap_or(0));
    put_earned(out, scene, company);
    put_trains(out, scene, company.company);
    let cash = row.cell(&scene.history.now(), Field::Cash);
    put_cell(out, scene, "num", cash, NOTHING);
}

/// Adds a cell with a price before and now; the first is 0 if there was none.
fn put_price(out: &mut Writer, before: Amount, now: Amount) {
    let (class, sign) = if before == 0 || before == now {
        ("same", "")
    } else if before < now {
        ("up", "&#9650;")
    } else {
        ("dn", "&#9660;")
    };
    out.begin_as(Tag::Cell, "num");
    out.within();
    if before != 0 && before != now {
        out.put(&[Number(Money::from(before)), Words("&#8594;")]);
    }
    out.element(Tag::Bold, &[Number(Money::from(now))]);
    out.element_as(Tag::Span, class, &[Words(sign)]);
    out.end();
}

/// Adds a cell with what a company last earned, and whether it kept that.
fn put_earned(out: &mut Writer, scene: &Scene, row: &CompanyRow) {
    if row.revenue_round.is_none() {
        out.element_as(Tag::Cell, "num", &[Words(NOTHING)]);
        return;
    }
    let is_kept = is_kept(scene.history.events(), row.company);
    out.begin_as(Tag::Cell, "num");
    out.element(Tag::Bold, &[Number(row.revenue)]);
    out.put(&[Words(if is_kept { " kept" } else { " paid" })]);
    out.end();
}

/// Adds a cell with the trains of a company; that it has none in bold.
fn put_trains(out: &mut Writer, scene: &Scene, company: Company) {
    if has_trains(&scene.history.now(), company) {
        put_cell(out, scene, "", Cell::TrainsOf(company), NOTHING);
    } else {
        out.begin(Tag::Cell);
        out.element(Tag::Bold, &[Words("none")]);
        out.end();
    }
}
