//! The cells of a page with all rounds that change from round to round: each is a text without an
//! element, and becomes a part by itself.
ghost use Rattle.std.specs.Prelude.{◌≡◌, IfOk};
ghost use Rattle.desk_cells.specs.Before.{game_before};
ghost use Rattle.page.specs.ShownRows.{players_shown, privates_shown, roster_shown, trains_shown};

use desk_base::view_behind;
use desk_cells::{Cell, Field, TableRow, before_round};
use history::{Party, Walk};
use map_tables::home;
use markup::PagePiece::{Count, Name, Number, Place, Round, Words};
use markup::{NOTHING, Writer};
use page::{
    Column, FIGURES, PRIVATES, TRAINS, Table, colours_of, players_shown, privates_shown,
    put_train_on_sale, put_words_of, roster_shown, trains_shown,
};
use page_ahead::page_column;
use page_map::Scene;
use rounds::End;
use std::alloc::{AllocError, Global};
use tables::{Company, Money, limit};

/// How many cells say how the game stands in short.
pub(crate) const STATUS_CELLS: usize = 8;

/// The labels of these cells.
pub(crate) const STATUS: [&str; STATUS_CELLS] = [
    "Last round",
    "Phase",
    "Tiles",
    "Next train",
    "Trains of a company",
    "Operating rounds of a set",
    "Priority",
    "Bank",
];

/// The table of players, with the shares of each company by their holders.
pub(crate) static PLAYERS: Table = Table {
    name: "players",
    class: "wide",
    caption: "Players and shares",
    remark: "(P presides)",
    columns: &[
        page_column!(Field::Name, "Player"),
        page_column!(Field::Cash, "#Cash"),
        page_column!(Field::CertificatesOf, "#Certificates"),
        page_column!(Field::Worth, "#Worth"),
        page_column!(Field::Rank, "#Rank"),
        page_column!(Field::SharesOf(Company::Pennsylvania), "#"),
        page_column!(Field::SharesOf(Company::NewYorkCentral), "#"),
        page_column!(Field::SharesOf(Company::CanadianPacific), "#"),
        page_column!(Field::SharesOf(Company::BaltimoreOhio), "#"),
        page_column!(Field::SharesOf(Company::ChesapeakeOhio), "#"),
        page_column!(Field::SharesOf(Company::Erie), "#"),
        page_column!(Field::SharesOf(Company::NewHaven), "#"),
        page_column!(Field::SharesOf(Company::BostonMaine), "#"),
        page_column!(Field::Privates, "Privates"),
    ],
};

/// The table of companies, in the order of the roster.
pub(crate) static COMPANIES: Table = Table {
    name: "companies",
    class: "wide",
    caption: "Companies",
    remark: "",
    columns: &[
        page_column!(Field::Name, "Company"),
        page_column!(Field::FullName, "Name"),
        page_column!(Field::President, "President"),
        page_column!(Field::Price, "Price"),
        page_column!(Field::SquareAndPlace, "Square"),
        page_column!(Field::Treasury, "Cash"),
        page_column!(Field::Trains, "Trains"),
        page_column!(Field::Tokens, "Tokens"),
        page_column!(Field::Left, "Left"),
        page_column!(Field::Privates, "Privates"),
    ],
};

/// The rows of the tables of a page.
#[derive(Drop)]
pub(crate) struct Rows {
    /// The players, by their seats.
    pub(crate) players: Vec<TableRow>,
    /// The companies in the order of the roster.
    pub(crate) companies: Vec<TableRow>,
    pub(crate) privates: Vec<TableRow>,
    pub(crate) trains: Vec<TableRow>,
}

impl Rows {
    /// Returns the rows of the tables of what a scene shows. Fails only if allocation fails.
    pub(crate) fn of(alloc: Global, scene: &Scene) -> Result<Rows, AllocError>
        ensures players { IfOk result (λ rows. rows.players.items ≡ players_shown
            scene.now.history.now (game_before scene.now.history.now) scene.now.seats) }
        ensures companies { IfOk result (λ rows. rows.companies.items
            ≡ roster_shown scene.now.history.now (game_before scene.now.history.now)) }
        ensures privates { IfOk result (λ rows. rows.privates.items
            ≡ privates_shown scene.now.history.now.events) }
        ensures trains { IfOk result (λ rows. rows.trains.items
            ≡ trains_shown scene.now.history.now.events) }
    {
        let history = scene.history;
        let events = history.events();
        let mut walk = Walk::along(events);
        let before = view_behind(&mut walk, before_round(events), history.seats());
        let now = history.now();
        Ok(Rows {
            players: players_shown(alloc, history, &before, scene.seats)?,
            companies: roster_shown(alloc, &now, &before)?,
            privates: privates_shown(alloc, &now)?,
            trains: trains_shown(alloc, &now)?,
        })
    }
}

/// Adds the cells of the tables, in the order in which the page has them: those of the rows below
/// the players follow those of the players.
pub(crate) fn put_table_cells(out: &mut Writer, scene: &Scene, rows: &Rows) {
    put_rows(out, scene, &PLAYERS, rows.players.as_slice());
    for figure in &FIGURES {
        for company in &rows.companies {
            put_cell_of(out, scene, figure, company);
        }
    }
    put_rows(out, scene, &COMPANIES, rows.companies.as_slice());
    put_rows(out, scene, &PRIVATES, rows.privates.as_slice());
    put_rows(out, scene, &TRAINS, rows.trains.as_slice());
}

/// Adds the cells of the rows of a table, without their names.
fn put_rows(out: &mut Writer, scene: &Scene, table: &Table, rows: &[TableRow]) {
    for row in rows {
        for column in table.columns {
            put_cell_of(out, scene, column, row);
        }
    }
}

/// Adds the cell of a row in a column, unless it is the name of the row. A number of 0 and an empty
/// list leave it empty.
fn put_cell_of(out: &mut Writer, scene: &Scene, column: &Column, row: &TableRow) {
    let Some(field) = changing(column) else {
        return;
    };
    match row.cell(&scene.history.now(), field) {
        Cell::TokensOf(company) => put_tokens(out, scene, company),
        cell => {
            let is_zero = matches!(cell, Cell::Number(_));
            if !put_words_of(out, scene, cell) && !is_zero && column.nothing != NOTHING {
                out.put(&[Words(column.nothing)]);
            }
        }
    }
    out.end_part();
}

/// Returns what a column shows, unless it has the names of the rows.
pub(crate) fn changing(column: &Column) -> Option<Field> {
    match column.field {
        Some(Field::Name) | None => None,
        field => field,
    }
}

/// Adds the places of a company's tokens; before its first token its home.
fn put_tokens(out: &mut Writer, scene: &Scene, company: Company) {
    let mut before = "";
    for token in scene.history.tokens() {
        if token.1 == company {
            out.put(&[Words(before), Place(token.0)]);
            before = " ";
        }
    }
    if before.is_empty() {
        out.put(&[Words("home "), Place(home(company).place())]);
    }
}

/// Adds the cells of `STATUS`.
pub(crate) fn put_status_cells(out: &mut Writer, scene: &Scene) {
    let phase = scene.history.phase();
    match scene.history.now().round() {
        Some(round) => out.put(&[Round(round)]),
        None => out.put(&[Words("none")]),
    }
    out.end_part();
    put_cell(out, phase.code());
    put_cell(out, colours_of(phase));
    put_train_on_sale(out, scene.history);
    out.end_part();
    out.put(&[Count(limit(phase)), Words(" at most")]);
    out.end_part();
    out.put(&[Number(Money::from(scene.in_set))]);
    out.end_part();
    if let End::Awaiting(_) = scene.end {
        let seat = scene.history.now().priority();
        out.put(&[Name(scene.name(seat))]);
    }
    out.end_part();
    out.put(&[Number(scene.history.cash(Party::Bank))]);
    out.end_part();
}

/// Adds a cell with words.
fn put_cell(out: &mut Writer, words: &'static str) {
    out.put(&[Words(words)]);
    out.end_part();
}
