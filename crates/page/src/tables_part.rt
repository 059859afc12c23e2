//! The tables of players, companies, privates and trains: their columns and their rows.
ghost use Rattle.std.specs.Prelude.{◌≡◌, IfOk};
ghost use Rattle.desk_cells.specs.Before.{game_before};
ghost use Rattle.desk_cells.specs.Leaders.{leaders_of};
ghost use Rattle.page.specs.ShownRows.{order_shown, players_shown, privates_shown, roster_shown};
ghost use Rattle.page.specs.ShownRows.{trains_shown};

use crate::shown_rows::{order_shown, players_shown, privates_shown, roster_shown, trains_shown};
use desk_base::view_behind;
use desk_cells::{Field, Leader, TableRow, before_round, leaders};
use history::Walk;
use markup::PagePiece::{Name, Words};
use markup::{NOTHING, Tag, Writer, begin_row, put_row_head};
use page_ahead::{Column, Table, begin_table_of, page_column, put_cell_in, put_cells};
use page_map::Scene;
use rounds::End;
use std::alloc::{AllocError, Global};
use tables::{Company, Seat};

/// The rows of the tables of a page.
#[derive(Drop)]
pub(crate) struct PageRows {
    /// The players, by their seats.
    players: Vec<TableRow>,
    /// The same players by worth, in the order in which they are shown.
    by_worth: Vec<Leader>,
    /// The companies in the order of the roster.
    in_roster: Vec<TableRow>,
    /// The same companies: those that operate in operating order, and then the others.
    in_order: Vec<TableRow>,
    privates: Vec<TableRow>,
    trains: Vec<TableRow>,
}

impl PageRows {
    /// Returns the rows of the tables of what a scene shows. Fails only if allocation fails.
    pub(crate) fn of(alloc: Global, scene: &Scene) -> Result<PageRows, AllocError>
        ensures players { IfOk result (λ rows. rows.players.items ≡ players_shown
            scene.now.history.now (game_before scene.now.history.now) scene.now.seats) }
        ensures worth { IfOk result (λ rows. rows.by_worth.items
            ≡ leaders_of scene.now.history.now scene.now.seats) }
        ensures roster { IfOk result (λ rows. rows.in_roster.items
            ≡ roster_shown scene.now.history.now (game_before scene.now.history.now)) }
        ensures order { IfOk result (λ rows. rows.in_order.items
            ≡ order_shown scene.now.history.now (game_before scene.now.history.now)) }
        ensures privates { IfOk result (λ rows. rows.privates.items
            ≡ privates_shown scene.now.history.now.events) }
        ensures trains { IfOk result (λ rows. rows.trains.items
            ≡ trains_shown scene.now.history.now.events) }
    {
        let history = scene.history;
        let events = history.events();
        let mut walk = Walk::along(events);
        let before = view_behind(&mut walk, before_round(events), history.seats());
        let now = history.now();
        Ok(PageRows {
            players: players_shown(alloc, history, &before, scene.seats)?,
            by_worth: leaders(alloc, history, scene.seats)?,
            in_roster: roster_shown(alloc, &now, &before)?,
            in_order: order_shown(alloc, history, &before)?,
            privates: privates_shown(alloc, &now)?,
            trains: trains_shown(alloc, &now)?,
        })
    }
}

/// The table of players, with the shares of each company by their holders.
static PLAYERS: Table = Table {
    name: "players",
    class: "wide",
    caption: "Players and shares",
    remark: "(by worth; P presides; &#9654; has priority; free is cash less bids)",
    columns: &[
        page_column!("Player"),
        page_column!(Field::Cash, "#Cash"),
        page_column!(Field::Free, "#Free"),
        page_column!(Field::CertificatesOf, "#Certificates"),
        page_column!(Field::Worth, "#Worth"),
        page_column!(Field::Rank, "#Rank"),
        page_column!(Field::SharesOf(Company::Pennsylvania), "#"),
        page_column!(Field::SharesOf(Company::NewYorkCentral), "#"),
        page_column!(Field::SharesOf(Company::CanadianPacific), "#"),
        page_column!(Field::SharesOf(Company::BaltimoreOhio), "#"),
        page_column!(Field::SharesOf(Company::ChesapeakeOhio), "#"),
        page_column!(Field::SharesOf(Company::Erie), "#"),
        page_column!(Field::SharesOf(Company::NewHaven), "#"),
        page_column!(Field::SharesOf(Company::BostonMaine), "#"),
        page_column!(Field::Privates, "Privates"),
        page_column!("Sheet"),
    ],
};

/// The rows below the players: what a company has in each, with the heading.
pub static FIGURES: [Column; 4] = [
    page_column!(Field::Offering, "#Initial offering"),
    page_column!(Field::Pool, "#Pool"),
    page_column!(Field::Par, "#Par"),
    page_column!(Field::Price, "#Price"),
];

/// The table of companies.
static COMPANIES: Table = Table {
    name: "companies",
    class: "wide",
    caption: "Companies",
    remark: "(those that operate in operating order)",
    columns: &[
        page_column!(Field::Name, "Company"),
        page_column!(Field::FullName, "Name"),
        page_column!(Field::President, "President"),
        page_column!(Field::Price, "#Price"),
        page_column!(Field::SquareAndPlace, "Square"),
        page_column!(Field::Treasury, "#Cash"),
        page_column!(Field::LastRun, "#Last run"),
        page_column!(Field::LastRunRound, "Round"),
        page_column!(Field::Trains, "Trains"),
        page_column!(Field::Tokens, "Tokens"),
        page_column!(Field::Left, "#Left"),
        page_column!(Field::Privates, "Privates"),
    ],
};

/// The table of privates.
pub static PRIVATES: Table = Table {
    name: "privates",
    class: "",
    caption: "Privates",
    remark: "",
    columns: &[
        page_column!(Field::Name, "Private"),
        page_column!(Field::Face, "#Face"),
        page_column!(Field::Price, "#Price"),
        page_column!(Field::Revenue, "#Revenue"),
        page_column!(Field::Hexes, "Hexes"),
        page_column!(Field::Owner, "Owner"),
        page_column!(Field::Bids, "Bids"),
    ],
};

/// The table of trains.
pub static TRAINS: Table = Table {
    name: "trains",
    class: "",
    caption: "Trains",
    remark: "",
    columns: &[
        page_column!(Field::Name, "Train"),
        page_column!(Field::Left, "#Bank", "any"),
        page_column!(Field::Pool, "#Pool"),
        page_column!(Field::Price, "#Price"),
        page_column!(Field::Stops, "Stops", "all"),
        page_column!(Field::Rusts, "Rusts", "never"),
    ],
};

/// Adds a table with its rows.
pub fn put_table(out: &mut Writer, scene: &Scene, table: &Table, rows: &[TableRow]) {
    begin_table_of(out, table);
    out.begin(Tag::TableBody);
    for row in rows {
        put_row(out, scene, table.columns, row);
    }
    out.end();
    out.end();
}

/// Adds a row.
pub fn put_row(out: &mut Writer, scene: &Scene, columns: &[Column], row: &TableRow) {
    begin_row(out, "");
    put_cells(out, scene, columns, row);
    out.end();
}

/// Adds the table of players, and the figures of the companies below it.
pub(crate) fn put_players(out: &mut Writer, scene: &Scene, rows: &PageRows) {
    begin_table_of(out, &PLAYERS);
    out.begin(Tag::TableBody);
    for leader in &rows.by_worth {
        if let Some(row) = rows.players.get(leader.seat.index()) {
            put_player(out, scene, leader.seat, row);
        }
    }
    for figure in &FIGURES {
        put_figure(out, scene, figure, rows.in_roster.as_slice());
    }
    out.end();
    out.end();
}

/// Adds the row of the player of a seat, with whether they owe a sheet.
fn put_player(out: &mut Writer, scene: &Scene, seat: Seat, row: &TableRow) {
    let is_awaited = matches!(scene.end, End::Awaiting(_));
    let mark = if is_awaited && scene.history.now().priority() == seat {
        " &#9654;"
    } else {
        ""
    };
    begin_row(out, "");
    put_player_head(out, scene.name(seat), mark);
    put_cells(out, scene, PLAYERS.columns, row);
    let sheet = if scene.owes(seat) { "owed" } else { NOTHING };
    out.element(Tag::Cell, &[Words(sheet)]);
    out.end();
}

/// Adds the heading of a player's row: the name, with a mark.
fn put_player_head(out: &mut Writer, name: &[u8], mark: &'static str) {
    put_row_head(out, &[Name(name), Words(mark)]);
}

/// Adds a row with a figure of each company.
fn put_figure(out: &mut Writer, scene: &Scene, figure: &Column, companies: &[TableRow]) {
    begin_row(out, "sum");
    put_row_head(out, &[Words(figure.words())]);
    for _ in 0..5 {
        out.element(Tag::Cell, &[]);
    }
    for company in companies {
        put_cell_in(out, scene, figure, company);
    }
    out.element(Tag::Cell, &[]);
    out.element(Tag::Cell, &[]);
    out.end();
}

/// Adds the table of companies.
pub(crate) fn put_companies(out: &mut Writer, scene: &Scene, rows: &PageRows) {
    put_table(out, scene, &COMPANIES, rows.in_order.as_slice());
}

/// Adds the tables of privates and trains.
pub(crate) fn put_stock(out: &mut Writer, scene: &Scene, rows: &PageRows) {
    put_table(out, scene, &PRIVATES, rows.privates.as_slice());
    put_table(out, scene, &TRAINS, rows.trains.as_slice());
}
