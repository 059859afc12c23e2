//! The tables of the page of all rounds.

use crate::cells::{COMPANIES, PLAYERS, Rows, changing};
use crate::layers::FIRST_CELL;
use crate::replayed::Replayed;
use desk_cells::TableRow;
use markup::PagePiece::Words;
use markup::{Attr, Tag, Writer, begin_row, begin_section, put_row_head};
use page::{Column, FIGURES, PRIVATES, TRAINS, Table, begin_table_of, put_cell_in, put_revenue};
use page_map::Scene;
use std::alloc::{AllocError, Global};

/// Where the tables are written, cell by cell.
#[derive(Drop)]
struct Cells<'a> {
    alloc: Global,
    replayed: &'a Replayed,
    scene: &'a Scene<'a>,
    /// The number of the layer of the next cell.
    next: usize,
}

impl Cells<'_> {
    /// Adds a table with its rows.
    fn put_table(
        &mut self,
        out: &mut Writer,
        table: &Table,
        rows: &[TableRow],
    ) -> Result<(), AllocError> {
        begin_table_of(out, table);
        out.begin(Tag::TableBody);
        self.put_rows(out, table, rows)?;
        out.end();
        out.end();
        Ok(())
    }

    /// Adds the rows of a table, each with its name.
    fn put_rows(
        &mut self,
        out: &mut Writer,
        table: &Table,
        rows: &[TableRow],
    ) -> Result<(), AllocError> {
        for row in rows {
            begin_row(out, "");
            for column in table.columns {
                match changing(column) {
                    Some(_) => self.put_cell(out, column)?,
                    None => put_cell_in(out, self.scene, column, row),
                }
            }
            out.end();
        }
        Ok(())
    }

    /// Adds the table of players, and the figures of the companies below it.
    fn put_players(&mut self, out: &mut Writer, rows: &Rows) -> Result<(), AllocError> {
        begin_table_of(out, &PLAYERS);
        out.begin(Tag::TableBody);
        self.put_rows(out, &PLAYERS, rows.players.as_slice())?;
        for figure in &FIGURES {
            begin_row(out, "sum");
            put_row_head(out, &[Words(figure.words())]);
            for _ in 0..4 {
                out.element(Tag::Cell, &[]);
            }
            for _ in &rows.companies {
                self.put_cell(out, figure)?;
            }
            out.element(Tag::Cell, &[]);
            out.end();
        }
        out.end();
        out.end();
        Ok(())
    }

    /// Adds the next cell, which is of a column.
    fn put_cell(&mut self, out: &mut Writer, column: &Column) -> Result<(), AllocError> {
        out.begin(Tag::Cell);
        if column.heading.starts_with('#') {
            out.value(Attr::Class, &[Words("num")]);
        }
        self.replayed
            .put_numbered(self.alloc, out, self.next, Tag::Span)?;
        self.next = self.next.saturating_add(1);
        out.end();
        Ok(())
    }
}

/// Adds the tables of some rounds, given the game at their end.
pub(crate) fn put_tables(
    alloc: Global,
    out: &mut Writer,
    scene: &Scene,
    replayed: &Replayed,
) -> Result<(), AllocError> {
    let rows = Rows::of(alloc, scene)?;
    let mut cells = Cells {
        alloc,
        replayed,
        scene,
        next: FIRST_CELL,
    };
    begin_section(out, "tables", "Tables", "");
    cells.put_players(out, &rows)?;
    cells.put_table(out, &COMPANIES, rows.companies.as_slice())?;
    put_revenue(alloc, out, scene.history)?;
    cells.put_table(out, &PRIVATES, rows.privates.as_slice())?;
    cells.put_table(out, &TRAINS, rows.trains.as_slice())?;
    out.end();
    Ok(())
}
