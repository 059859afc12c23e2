//! The tables of a page: what a column is, and how its head and its cells are printed.

use crate::cell_words::put_words_of;
use desk_cells::{Cell, Field, TableRow};
use markup::PagePiece::Words;
use markup::{
    Attr, NOTHING, Tag, Writer, begin_head, begin_heading, begin_table, end_head, put_caption,
    put_heading, put_token,
};
use page_map::Scene;

/// A column of a table.
#[derive(Clone, Copy)]
pub struct Column {
    /// What it shows of a row; `None` if whoever prints the row adds that cell.
    pub field: Option<Field>,
    /// Its heading; `#` begins that of a column of numbers, and is not printed. A column of the
    /// shares of a company is headed by the company's token and code.
    pub heading: &'static str,
    /// What it shows where there is nothing, or no limit. A number of 0 is a dot in each column.
    pub nothing: &'static str,
}

impl Column {
    /// Returns its class; empty if it has none.
    fn class(&self) -> &'static str {
        if self.heading.starts_with('#') {
            "num"
        } else {
            ""
        }
    }

    /// Returns its heading as printed.
    pub fn words(&self) -> &'static str {
        match self.heading.strip_prefix('#') {
            Some(words) => words,
            None => self.heading,
        }
    }
}

/// A column of a table, as in `page_column!(Field::Price, "#Price")`: what it shows, its heading,
/// and the words for nothing where these are not a dot. With a heading alone it is one to which
/// whoever prints a row adds the cell.
#[macro_export]
macro_rules! page_column {
    ($heading:literal) => {
        $crate::Column { field: None, heading: $heading, nothing: "" }
    };
    ($field:expr, $heading:literal) => {
        $crate::page_column!($field, $heading, "&#183;")
    };
    ($field:expr, $heading:literal, $nothing:literal) => {
        $crate::Column { field: Some($field), heading: $heading, nothing: $nothing }
    };
}

/// A table.
#[derive(Clone, Copy)]
pub struct Table {
    /// Its name in the page.
    pub name: &'static str,
    /// Its class; empty if it has none.
    pub class: &'static str,
    pub caption: &'static str,
    /// The remark behind the caption; empty if there is none.
    pub remark: &'static str,
    pub columns: &'static [Column],
}

/// Begins a table up to its rows.
pub fn begin_table_of(out: &mut Writer, table: &Table) {
    begin_table(out, table.name, table.class);
    put_caption(out, table.caption, table.remark);
    begin_head(out);
    for column in table.columns {
        put_head_of(out, column);
    }
    end_head(out);
}

/// Adds the heading of a column.
fn put_head_of(out: &mut Writer, column: &Column) {
    match column.field {
        Some(Field::SharesOf(company)) => {
            begin_heading(out, column.class());
            put_token(out, company);
            out.put(&[Words(company.code())]);
            out.end();
        }
        _ => put_heading(out, column.class(), &[Words(column.words())]),
    }
}

/// Adds the cells of a row in these columns, without those that are added to it.
pub fn put_cells(out: &mut Writer, scene: &Scene, columns: &[Column], row: &TableRow) {
    for column in columns {
        put_cell_in(out, scene, column, row);
    }
}

/// Adds the cell of a row in a column, unless it is one that is added to the row. The name of a row
/// is its heading, in which a company has its token.
pub fn put_cell_in(out: &mut Writer, scene: &Scene, column: &Column, row: &TableRow) {
    let Some(field) = column.field else {
        return;
    };
    let cell = row.cell(&scene.history.now(), field);
    let Field::Name = field else {
        put_cell(out, scene, column.class(), cell, column.nothing);
        return;
    };
    out.begin(Tag::Heading);
    out.value(Attr::Scope, &[Words("row")]);
    out.within();
    if let Cell::CompanyCode(company) = cell {
        put_token(out, company);
    }
    put_words_of(out, scene, cell);
    out.end();
}

/// Adds a cell of this class, if it has one, with these words if there is nothing in it. The shares
/// of a president are in bold. A cell for which a row has no figure is empty and of no class.
pub(crate) fn put_cell(
    out: &mut Writer,
    scene: &Scene,
    class: &'static str,
    cell: Cell,
    nothing: &'static str,
) {
    if let Cell::Blank = cell {
        out.element(Tag::Cell, &[]);
        return;
    }
    let is_bold = match cell {
        Cell::Held(holding) => holding.presides,
        _ => false,
    };
    out.begin(Tag::Cell);
    if !class.is_empty() {
        out.value(Attr::Class, &[Words(class)]);
    }
    out.within();
    if is_bold {
        out.begin(Tag::Bold);
        out.within();
    }
    if !put_words_of(out, scene, cell) {
        let is_zero = matches!(cell, Cell::Number(_));
        out.put(&[Words(if is_zero { NOTHING } else { nothing })]);
    }
    if is_bold {
        out.end();
    }
    out.end();
}
