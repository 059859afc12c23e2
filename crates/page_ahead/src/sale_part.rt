//! What is for sale in an opening or a stock round, and who may still buy.
ghost use Rattle.std.specs.Prelude.{◌≡◌};
ghost use Rattle.page_ahead.specs.Runners.{has_room};

use crate::page_column;
use crate::panel::Panel;
use crate::runner_rows::price_on;
use crate::table_part::{Column, Table, begin_table_of, put_cells};
use desk_cells::{Field, PlayerRow, TableRow};
use history::ShareCount;
use markup::PagePiece::{Number, Words};
use markup::{Tag, Writer, begin_row, put_number};
use tables::Money;

/// The privates that nobody has bought.
static PRIVATES: Table = Table {
    name: "sale",
    class: "",
    caption: "For sale",
    remark: "(the first can be bought, the others bid for)",
    columns: &[
        page_column!(Field::Name, "Private"),
        page_column!(Field::Price, "#Price"),
        page_column!(Field::Bids, "Bids"),
    ],
};

/// Adds the privates that nobody has bought, with their prices and the bids on them.
pub(crate) fn put_privates_for_sale(out: &mut Writer, panel: &Panel, rows: &[TableRow]) {
    let first = panel.scene.history.now().cheapest_unsold();
    begin_table_of(out, &PRIVATES);
    out.begin(Tag::TableBody);
    for row in rows {
        if let TableRow::OfPrivate(private) = row {
            if !private.is_sold {
                let is_first = first == Some(private.private);
                begin_row(out, if is_first { "hot" } else { "" });
                put_cells(out, panel.scene, PRIVATES.columns, row);
                out.end();
            }
        }
    }
    out.end();
    out.end();
}

/// The shares that the bank sells.
static SHARES: Table = Table {
    name: "sale",
    class: "",
    caption: "For sale",
    remark: "(shares of the initial offering and the pool)",
    columns: &[
        page_column!(Field::Name, "Company"),
        page_column!(Field::President, "President"),
        page_column!("#Initial offering"),
        page_column!("#Pool"),
    ],
};

/// Adds the companies with the shares that the bank sells.
pub(crate) fn put_shares_for_sale(out: &mut Writer, panel: &Panel, rows: &[TableRow]) {
    begin_table_of(out, &SHARES);
    out.begin(Tag::TableBody);
    for row in rows {
        if let TableRow::OfCompany(company) = row {
            begin_row(out, "");
            put_cells(out, panel.scene, SHARES.columns, row);
            put_shares(out, company.offering, company.par);
            put_shares(out, company.pool, price_on(company.square).map(Money::from));
            out.end();
        }
    }
    out.end();
    out.end();
}

/// Adds a cell with a number of shares, and the price of each if it is known.
fn put_shares(out: &mut Writer, shares: ShareCount, price: Option<Money>) {
    match price {
        Some(price) if shares > 0 => {
            let words = [Number(shares), Words(" at "), Number(price)];
            out.element_as(Tag::Cell, "num", &words);
        }
        _ => put_number(out, shares),
    }
}

/// The players' certificates.
static CERTIFICATES: Table = Table {
    name: "buyers",
    class: "",
    caption: "Who may still buy",
    remark: "",
    columns: &[
        page_column!(Field::Name, "Player"),
        page_column!(Field::Free, "#Free cash"),
        page_column!(Field::CertificatesOf, "#Certificates"),
        page_column!(""),
    ],
};

/// Adds how many certificates each player has, of how many, and whether they may still buy.
pub(crate) fn put_certificates(out: &mut Writer, panel: &Panel, rows: &[TableRow]) {
    begin_table_of(out, &CERTIFICATES);
    out.begin(Tag::TableBody);
    for row in rows {
        if let TableRow::OfPlayer(player) = row {
            begin_row(out, "");
            put_cells(out, panel.scene, CERTIFICATES.columns, row);
            let room = if has_room(player) {
                "may buy"
            } else {
                "no room"
            };
            out.element(Tag::Cell, &[Words(room)]);
            out.end();
        }
    }
    out.end();
    out.end();
}

/// Returns whether a player may hold one more certificate.
fn has_room(row: &PlayerRow) -> bool
    ensures { result ≡ has_room row.now }
{
    row.certificates < row.limit as ShareCount
}
