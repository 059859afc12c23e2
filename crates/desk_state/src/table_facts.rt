//! Tables as JSON: a list of objects, with a member for each column.

use crate::facts::{Fact, Object, Written};
use desk_base::Stood;
use desk_cells::{Cell, Field, TableRow};
use history::{Holder, Shareholder};
use report::name;
use serde::{Described, Serialize, Serializer};
use std::alloc::Global;
use tables::{Company, Kind, Private, Seat};

/// What each player has.
pub(crate) const PLAYERS: [(&str, Field); 6] = [
    ("name", Field::Name),
    ("cash", Field::Cash),
    ("free", Field::Free),
    ("certificates", Field::Certificates),
    ("worth", Field::Worth),
    ("privates", Field::Privates),
];

/// Each private with its owner; for those that are unsold also the price and the bids.
pub(crate) const PRIVATES: [(&str, Field); 6] = [
    ("code", Field::Name),
    ("face", Field::Face),
    ("price", Field::Price),
    ("owner", Field::Owner),
    ("is_closed", Field::IsClosed),
    ("bids", Field::Bids),
];

/// What each company has.
pub(crate) const COMPANIES: [(&str, Field); 18] = [
    ("code", Field::Name),
    ("is_started", Field::IsStarted),
    ("operates", Field::Operates),
    ("president", Field::President),
    ("par", Field::Par),
    ("price", Field::Price),
    ("square", Field::Square),
    ("place", Field::Place),
    ("cash", Field::Cash),
    ("revenue", Field::Revenue),
    ("revenue_round", Field::RevenueRound),
    ("offering", Field::Offering),
    ("pool", Field::Pool),
    ("tokens_left", Field::Left),
    ("trains", Field::Trains),
    ("privates", Field::Privates),
    ("shares", Field::Shares),
    ("tokens", Field::Tokens),
];

/// How many trains of each kind the bank and its pool have, and their price.
pub(crate) const TRAINS: [(&str, Field); 4] = [
    ("kind", Field::Name),
    ("left", Field::Left),
    ("pool", Field::Pool),
    ("price", Field::Price),
];

/// A table: its rows in these columns, each under its name.
#[derive(Drop)]
pub(crate) struct TableFacts<'a> {
    pub(crate) alloc: Global,
    pub(crate) stood: &'a Stood<'a>,
    pub(crate) columns: &'static [(&'static str, Field)],
    pub(crate) rows: &'a [TableRow],
}

impl Described for TableFacts<'_> {}

impl Serialize for TableFacts<'_> {
    fn serialize<S: Serializer>(&self, out: &mut S) -> Result<(), S::Error> {
        let (alloc, stood) = (self.alloc, self.stood);
        let view = stood.history.now();
        out.begin_seq(None)?;
        for row in self.rows {
            out.begin_map(None)?;
            for &(key, field) in self.columns {
                let cell = row.cell(&view, field);
                out.key(key)?;
                CellFact { alloc, stood, cell }.serialize(out)?;
            }
            out.end_map()?;
        }
        out.end_seq()
    }
}

/// A cell: a list of what it names, or one fact.
#[derive(Drop)]
struct CellFact<'a> {
    alloc: Global,
    stood: &'a Stood<'a>,
    cell: Cell,
}

impl Described for CellFact<'_> {}

impl Serialize for CellFact<'_> {
    fn serialize<S: Serializer>(&self, out: &mut S) -> Result<(), S::Error> {
        let (alloc, stood) = (self.alloc, self.stood);
        match self.cell {
            Cell::TrainsOf(company) => Trains { stood, company }.serialize(out),
            Cell::NotStarted | Cell::NotFloated(_) => {
                out.begin_seq(None)?;
                out.end_seq()
            }
            Cell::PrivatesOf(holder) => Owned { stood, holder }.serialize(out),
            Cell::TokensOf(company) => Tokens {
                alloc,
                stood,
                company,
            }
            .serialize(out),
            Cell::SharesIn(company) => Shares { stood, company }.serialize(out),
            Cell::BidsOn(private) => Bids {
                alloc,
                stood,
                private,
            }
            .serialize(out),
            cell => {
                let fact = fact_of(stood, cell);
                Written { alloc, fact }.serialize(out)
            }
        }
    }
}

/// Returns the fact of a cell that is no list.
fn fact_of<'a>(stood: &Stood<'a>, cell: Cell) -> Fact<'a> {
    match cell {
        Cell::Number(number) | Cell::Sum(number) | Cell::Of(number, _) => Fact::Number(number),
        Cell::Flag(flag) => Fact::Flag(flag),
        Cell::PlayerName(seat) => Fact::from(name(stood.sheets, seat)),
        Cell::CompanyCode(company) => Fact::from(company),
        Cell::PrivateCode(private) => Fact::from(private),
        Cell::KindCode(kind) => Fact::from(kind),
        Cell::RoundName(round) => Fact::from(round),
        Cell::SquareName(square) => Fact::from(square),
        Cell::Held(holding) => Fact::Number(holding.shares),
        Cell::OwnedBy(Holder::Seat(seat)) => Fact::from(name(stood.sheets, seat)),
        Cell::OwnedBy(Holder::Company(company)) => Fact::from(company),
        _ => Fact::Nothing,
    }
}

/// The kinds of a company's trains.
#[derive(Drop)]
struct Trains<'a> {
    stood: &'a Stood<'a>,
    company: Company,
}

impl Described for Trains<'_> {}

impl Serialize for Trains<'_> {
    fn serialize<S: Serializer>(&self, out: &mut S) -> Result<(), S::Error> {
        out.begin_seq(None)?;
        for kind in &Kind::ALL {
            for _ in 0..self.stood.history.trains(Some(self.company), *kind) {
                out.str(kind.code())?;
            }
        }
        out.end_seq()
    }
}

/// The codes of the privates that a player or a company owns.
#[derive(Drop)]
struct Owned<'a> {
    stood: &'a Stood<'a>,
    holder: Holder,
}

impl Described for Owned<'_> {}

impl Serialize for Owned<'_> {
    fn serialize<S: Serializer>(&self, out: &mut S) -> Result<(), S::Error> {
        out.begin_seq(None)?;
        for private in &Private::ALL {
            if self.stood.history.owner(*private) == Some(self.holder) {
                out.str(private.code())?;
            }
        }
        out.end_seq()
    }
}

/// The places of a company's tokens.
#[derive(Drop)]
struct Tokens<'a> {
    alloc: Global,
    stood: &'a Stood<'a>,
    company: Company,
}

impl Described for Tokens<'_> {}

impl Serialize for Tokens<'_> {
    fn serialize<S: Serializer>(&self, out: &mut S) -> Result<(), S::Error> {
        let alloc = self.alloc;
        out.begin_seq(None)?;
        for token in self.stood.history.tokens() {
            if token.1 == self.company {
                let place = token.0.text();
                let fact = Fact::from(place.as_slice());
                Written { alloc, fact }.serialize(out)?;
            }
        }
        out.end_seq()
    }
}

/// The shares of a company that each player holds, in the order of the seats.
#[derive(Drop)]
struct Shares<'a> {
    stood: &'a Stood<'a>,
    company: Company,
}

impl Described for Shares<'_> {}

impl Serialize for Shares<'_> {
    fn serialize<S: Serializer>(&self, out: &mut S) -> Result<(), S::Error> {
        out.begin_seq(None)?;
        for seat in 0..self.stood.sheets.seats() {
            let holder = Shareholder::Seat(Seat::at(seat));
            out.i128(self.stood.history.shares(self.company, holder))?;
        }
        out.end_seq()
    }
}

/// The bids on a private.
#[derive(Drop)]
struct Bids<'a> {
    alloc: Global,
    stood: &'a Stood<'a>,
    private: Private,
}

impl Described for Bids<'_> {}

impl Serialize for Bids<'_> {
    fn serialize<S: Serializer>(&self, out: &mut S) -> Result<(), S::Error> {
        let (alloc, stood) = (self.alloc, self.stood);
        out.begin_seq(None)?;
        for seat in 0..stood.sheets.seats() {
            let seat = Seat::at(seat);
            if let Some(bid) = stood.history.bid(self.private, seat) {
                let facts = &[
                    ("player", Fact::from(name(stood.sheets, seat))),
                    ("amount", Fact::from(bid)),
                ];
                Object { alloc, facts }.serialize(out)?;
            }
        }
        out.end_seq()
    }
}
