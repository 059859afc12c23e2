//! The state of a game as JSON, from the rows and cells that its text is made of.

use crate::facts::{FORM, Fact, Object, Written};
use crate::table_facts::{COMPANIES, PLAYERS, PRIVATES, TRAINS, TableFacts};
use desk_base::{Stood, owes, tile_on, tiles_left};
use desk_cells::{Field, TableRow, game_row};
use map_tables::{Hex, TileNo};
use report::name;
use rounds::End;
use serde::{Described, Serialize, Serializer};
use std::alloc::Global;
use tables::{Money, Seat};

/// The state of a game: the rows of its tables, and the position that they are from.
#[derive(Drop)]
pub(crate) struct StateFacts<'a> {
    pub(crate) alloc: Global,
    pub(crate) stood: &'a Stood<'a>,
    pub(crate) players: &'a [TableRow],
    pub(crate) privates: &'a [TableRow],
    pub(crate) companies: &'a [TableRow],
    pub(crate) trains: &'a [TableRow],
}

impl StateFacts<'_> {
    /// Returns the facts of a table: its rows in these columns.
    fn table<'b>(
        &'b self,
        columns: &'static [(&'static str, Field)],
        rows: &'b [TableRow],
    ) -> TableFacts<'b> {
        TableFacts {
            alloc: self.alloc,
            stood: self.stood,
            columns,
            rows,
        }
    }
}

impl Described for StateFacts<'_> {}

impl Serialize for StateFacts<'_> {
    fn serialize<S: Serializer>(&self, out: &mut S) -> Result<(), S::Error> {
        let (alloc, stood) = (self.alloc, self.stood);
        out.begin_map(None)?;
        out.flatten_next()?;
        Matters { alloc, stood }.serialize(out)?;
        out.key("owed_by")?;
        Owing { alloc, stood }.serialize(out)?;
        out.key("players")?;
        self.table(&PLAYERS, self.players).serialize(out)?;
        out.key("privates")?;
        self.table(&PRIVATES, self.privates).serialize(out)?;
        out.key("companies")?;
        self.table(&COMPANIES, self.companies).serialize(out)?;
        out.key("trains")?;
        self.table(&TRAINS, self.trains).serialize(out)?;
        out.key("tiles_laid")?;
        TilesLaid { alloc, stood }.serialize(out)?;
        out.key("tiles_left")?;
        TilesLeft { alloc, stood }.serialize(out)?;
        out.end_map()
    }
}

/// The facts of the whole game.
#[derive(Drop)]
struct Matters<'a> {
    alloc: Global,
    stood: &'a Stood<'a>,
}

impl Described for Matters<'_> {}

impl Serialize for Matters<'_> {
    fn serialize<S: Serializer>(&self, out: &mut S) -> Result<(), S::Error> {
        let stood = self.stood;
        let view = stood.history.now();
        let row = game_row(&view);
        let (awaited, ended) = match stood.end {
            End::Awaiting(round) => (Fact::from(round), Fact::Nothing),
            End::Bank => (Fact::Nothing, Fact::from("BANK")),
            End::Bankrupt => (Fact::Nothing, Fact::from("BANKRUPT")),
        };
        let last = match view.round() {
            Some(round) => Fact::from(round),
            None => Fact::Nothing,
        };
        let facts = &[
            FORM,
            ("last_round", last),
            ("awaited", awaited),
            ("ended", ended),
            ("phase", Fact::from(row.phase)),
            ("priority", Fact::from(name(stood.sheets, row.priority))),
            ("rounds_in_set", Fact::Number(Money::from(stood.in_set))),
            ("certificate_limit", Fact::from(row.certificates)),
        ];
        Object {
            alloc: self.alloc,
            facts,
        }
        .serialize(out)
    }
}

/// The names of those who owe a sheet for the awaited round.
#[derive(Drop)]
struct Owing<'a> {
    alloc: Global,
    stood: &'a Stood<'a>,
}

impl Described for Owing<'_> {}

impl Serialize for Owing<'_> {
    fn serialize<S: Serializer>(&self, out: &mut S) -> Result<(), S::Error> {
        let (alloc, sheets) = (self.alloc, self.stood.sheets);
        out.begin_seq(None)?;
        if let End::Awaiting(round) = self.stood.end {
            for seat in 0..sheets.seats() {
                let seat = Seat::at(seat);
                if owes(sheets, seat, &round) {
                    let fact = Fact::from(name(sheets, seat));
                    Written { alloc, fact }.serialize(out)?;
                }
            }
        }
        out.end_seq()
    }
}

/// The tiles that lie on the map, hex by hex.
#[derive(Drop)]
struct TilesLaid<'a> {
    alloc: Global,
    stood: &'a Stood<'a>,
}

impl Described for TilesLaid<'_> {}

impl Serialize for TilesLaid<'_> {
    fn serialize<S: Serializer>(&self, out: &mut S) -> Result<(), S::Error> {
        let (alloc, history) = (self.alloc, self.stood.history);
        out.begin_seq(None)?;
        for hex in &Hex::ALL {
            if let Some(lay) = tile_on(history.lays(), *hex) {
                let hex = lay.hex.text();
                let facts = &[
                    ("tile", Fact::Number(Money::from(lay.tile.number()))),
                    ("hex", Fact::from(hex.as_slice())),
                    ("rotation", Fact::from(lay.rot.turns())),
                    ("is_swapped", Fact::from(lay.swap)),
                ];
                Object { alloc, facts }.serialize(out)?;
            }
        }
        out.end_seq()
    }
}

/// How many tiles of each number are left.
#[derive(Drop)]
struct TilesLeft<'a> {
    alloc: Global,
    stood: &'a Stood<'a>,
}

impl Described for TilesLeft<'_> {}

impl Serialize for TilesLeft<'_> {
    fn serialize<S: Serializer>(&self, out: &mut S) -> Result<(), S::Error> {
        let alloc = self.alloc;
        out.begin_seq(None)?;
        for number in &TileNo::ALL {
            let facts = &[
                ("tile", Fact::Number(Money::from(number.number()))),
                (
                    "left",
                    Fact::from(tiles_left(self.stood.history.lays(), *number)),
                ),
            ];
            Object { alloc, facts }.serialize(out)?;
        }
        out.end_seq()
    }
}
