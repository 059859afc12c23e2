//! The tables of a state and of a statement as text: players, privates, companies, their shares and
//! tokens, trains. Each is a heading and its columns.

use crate::layout::Place::{From, To};
use crate::layout::{Place, TextColumn, put_cells, put_row};
use desk_base::Piece::{Bytes, Column, Words};
use desk_base::{Stood, Text};
use desk_cells::{Field, TableRow};
use report::name;
use tables::Seat;

/// A table: its heading, and its columns.
#[derive(Clone, Copy)]
pub(crate) struct TextTable {
    heading: &'static str,
    columns: &'static [TextColumn],
}

/// What each player has: cash, certificates, worth and privates.
pub(crate) const PLAYERS: TextTable = TextTable {
    heading: "\nPLAYER      CASH    FREE   CERTS   WORTH  PRIVATES\n",
    columns: &[
        (Field::Name, From(0), ""),
        (Field::Cash, To(16), ""),
        (Field::Free, To(24), ""),
        (Field::Certificates, To(32), ""),
        (Field::Worth, To(40), ""),
        (Field::Privates, From(42), ""),
    ],
};

/// The same, with the cash before the last round, and the limit of certificates.
pub(crate) const PLAYERS_MOVED: TextTable = TextTable {
    heading: "\nPLAYER    BEFORE    CASH    FREE     CERTS   WORTH  PRIVATES\n",
    columns: &[
        (Field::Name, From(0), ""),
        (Field::CashBefore, To(16), ""),
        (Field::Cash, To(24), ""),
        (Field::Free, To(32), ""),
        (Field::CertificatesOf, To(37), ""),
        (Field::Worth, To(51), ""),
        (Field::Privates, From(52), ""),
    ],
};

/// Who owns each private; for those that are unsold also the price and the bids.
pub(crate) const OWNERS: TextTable = TextTable {
    heading: "\nPRIVATE FACE  PRICE  OWNER    BIDS\n",
    columns: &[
        (Field::Name, From(0), ""),
        (Field::Face, To(12), ""),
        (Field::Price, To(19), ""),
        (Field::Owner, From(21), ""),
        (Field::Bids, From(30), ""),
    ],
};

/// What each company has: its price, its square, the place of its token in the stack there, its
/// president, its cash, its last revenue with the round, its trains and privates. A company that
/// has not floated has few of them, and one that has not started none.
pub(crate) const COMPANIES: TextTable = TextTable {
    heading: "\nCOMPANY PRICE  SQUARE PLACE PRESIDENT    CASH REVENUE ROUND  TRAINS   PRIVATES\n",
    columns: &[
        (Field::Name, From(0), ""),
        (Field::Price, To(13), ""),
        (Field::Square, From(15), ""),
        (Field::Place, From(22), ""),
        (Field::President, From(28), ""),
        (Field::Treasury, To(45), ""),
        (Field::LastRun, To(53), ""),
        (Field::LastRunRound, From(55), ""),
        (Field::Trains, From(62), ""),
        (Field::Privates, From(71), ""),
    ],
};

/// What each company has beside what it had before the last round: its president, its price before
/// and now, its cash, and its last revenue with the round. Its trains and privates follow.
pub(crate) const COMPANIES_MOVED: TextTable = TextTable {
    heading: "\nCOMPANY       BEFORE  NOW       CASH REVENUE OF        TRAINS, PRIVATES\n",
    columns: &[
        (Field::Name, From(0), ""),
        (Field::President, From(5), "nobody"),
        (Field::PriceAndSquareBefore, From(14), "-"),
        (Field::PriceAndSquare, From(22), "-"),
        (Field::Treasury, To(37), ""),
        (Field::LastRun, To(45), ""),
        (Field::LastRunRound, From(46), ""),
    ],
};

/// The par value of each company, and its shares that no player holds.
const SHARES: [TextColumn; 4] = [
    (Field::Name, From(0), ""),
    (Field::Par, To(13), "-"),
    (Field::Offering, To(18), ""),
    (Field::Pool, To(23), ""),
];

/// The column of the first player's shares.
const HELD: usize = 23;

/// The width of a player's shares.
const HELD_WIDTH: usize = 9;

/// The width of their number.
const HELD_NUMBER: usize = 4;

/// How many tokens each company has left, and the places of those on the map.
pub(crate) const TOKENS: TextTable = TextTable {
    heading: "\nTOKENS  LEFT  PLACED\n",
    columns: &[
        (Field::Name, From(0), ""),
        (Field::Left, To(12), ""),
        (Field::Tokens, From(14), ""),
    ],
};

/// How many trains of each kind the bank and its pool have, and their price.
pub(crate) const TRAINS: TextTable = TextTable {
    heading: "\nTRAINS  BANK  POOL  PRICE\n",
    columns: &[
        (Field::Name, From(0), ""),
        (Field::Left, To(12), ""),
        (Field::Pool, To(18), ""),
        (Field::Price, To(25), ""),
    ],
};

impl TextTable {
    /// Adds the heading.
    pub(crate) fn put_heading(&self, out: &mut Text) {
        out.push(&[Words(self.heading)]);
    }

    /// Adds the cells of a row.
    pub(crate) fn put_cells(&self, out: &mut Text, stood: &Stood, row: &TableRow) {
        put_cells(out, stood, self.columns, row);
    }

    /// Adds the table with these rows.
    pub(crate) fn put(&self, out: &mut Text, stood: &Stood, rows: &[TableRow]) {
        self.put_heading(out);
        for row in rows {
            put_row(out, stood, self.columns, row);
        }
    }
}

/// Adds the shares of these companies by their holders; those of the president are marked.
pub(crate) fn put_shares(out: &mut Text, stood: &Stood, rows: &[TableRow]) {
    out.push(&[Words("\nSHARES    PAR  IPO POOL")]);
    for seat in 0..stood.sheets.seats() {
        let seat = Seat::at(seat);
        let (column, name) = (Column(column_of(seat)), Bytes(name(stood.sheets, seat)));
        out.push(&[column, Words(" "), name]);
    }
    out.push(&[Words("\n")]);
    for row in rows {
        put_cells(out, stood, &SHARES, row);
        for seat in 0..stood.sheets.seats() {
            let seat = Seat::at(seat);
            let place = Place::To(column_of(seat).saturating_add(HELD_NUMBER));
            put_cells(out, stood, &[(Field::SharesAt(seat), place, "")], row);
        }
        out.push(&[Words("\n")]);
    }
}

/// Returns the column of the shares of the player of a seat.
fn column_of(seat: Seat) -> usize {
    HELD.saturating_add(HELD_WIDTH.saturating_mul(seat.index()))
}
