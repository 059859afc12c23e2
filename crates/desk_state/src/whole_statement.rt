//! The statement that ends a bulletin: what everybody has after a round, and what comes next.
//!
//! Its tables are rows and cells of `desk_cells`. The rest is layout.
ghost use Rattle.std.specs.Prelude.{◌≡◌, ◌++◌, IfOk, OnOk};
ghost use Rattle.desk_state.specs.Statement.{started_in, started_one};

use crate::state_round::put_matters;
use crate::state_tables::{COMPANIES_MOVED, OWNERS, PLAYERS_MOVED, TOKENS, put_shares};
use crate::state_tiles::put_laid;
use crate::statement_next::{put_next, words_or};
use desk_base::Piece::{Column, Count, Number, Words};
use desk_base::{Piece, Stood, Text, view_behind};
use desk_cells::{
    TableRow, TrainRow, all_in_order, before_round, company_rows, game_row, player_rows,
    private_rows, train_row,
};
use desk_dues::next_train_text;
use history::{GameView, History, Holder, Party, Walk};
use purchases::sells;
use rounds::End;
use std::alloc::{AllocError, Global};
use tables::{Company, Kind, Money, Private, Round};

/// The column of the values of the head.
pub(crate) const VALUES: usize = 18;

/// The column of a company's trains and privates.
const BELONGINGS: usize = 56;

/// Returns the statement of a game at a moment between two rounds, in lines of at most 80 columns.
/// It shows what each player and each started company has, beside what they had before the last
/// round; shares, trains, tokens and tiles; what comes next, who owes a sheet for it and when
/// (`due`, unless that is empty); and the result once the game is over. Fails only if allocation
/// fails.
pub fn statement(alloc: Global, stood: &Stood, due: &str) -> Result<Vec<u8>, AllocError> {
    let (history, mut text) = (stood.history, Text::new(alloc));
    let events = history.events();
    let mut walk = Walk::along(events);
    let before = view_behind(&mut walk, before_round(events), history.seats());
    let order = all_in_order(alloc, history)?;
    put_head(alloc, &mut text, stood)?;
    put_parties(alloc, &mut text, stood, &before, order.as_slice())?;
    if !history.lays().is_empty() {
        put_laid(&mut text, history);
    }
    if let End::Awaiting(Round::Stock(_) | Round::Operating { .. }) = stood.end {
        let next_train = next_train_text(alloc, stood.sheets, history)?;
        text.push_wrapped_lines(0, next_train.as_slice());
    }
    put_next(alloc, &mut text, stood, order.as_slice(), due)?;
    text.finish()
}

/// Adds what each player and each started company has, beside what they had before the last round;
/// and while a private is unsold, who owns each.
fn put_parties(
    alloc: Global,
    out: &mut Text,
    stood: &Stood,
    before: &GameView,
    order: &[Company],
) -> Result<(), AllocError> {
    let view = stood.history.now();
    let players = player_rows(alloc, stood.history, before, stood.sheets.seats())?;
    PLAYERS_MOVED.put(out, stood, players.as_slice());
    if view.cheapest_unsold().is_some() {
        OWNERS.put(out, stood, private_rows(alloc, &view)?.as_slice());
    }
    let started = started_in(alloc, stood.history, order)?;
    let started = company_rows(alloc, &view, before, started.as_slice())?;
    put_companies(alloc, out, stood, started.as_slice())?;
    let all = company_rows(alloc, &view, before, order)?;
    put_shares(out, stood, all.as_slice());
    if !started.is_empty() {
        TOKENS.put(out, stood, started.as_slice());
    }
    Ok(())
}

/// Adds what some companies have, in this order: their figures, their trains with the limit, and
/// their privates. Adds nothing if there are no companies.
fn put_companies(
    alloc: Global,
    out: &mut Text,
    stood: &Stood,
    rows: &[TableRow],
) -> Result<(), AllocError> {
    if rows.is_empty() {
        return Ok(());
    }
    COMPANIES_MOVED.put_heading(out);
    for row in rows {
        COMPANIES_MOVED.put_cells(out, stood, row);
        let belongings = belongings_of(alloc, stood.history, row)?;
        out.push(&[Column(BELONGINGS)]);
        out.push_wrapped(BELONGINGS, belongings.as_slice());
    }
    Ok(())
}

/// Returns a company's trains, how many it may have, and its privates, as words.
fn belongings_of(alloc: Global, history: &History, row: &TableRow) -> Result<Vec<u8>, AllocError> {
    let (view, mut text) = (history.now(), Text::new(alloc));
    match row {
        TableRow::OfCompany(row) if row.operates => {
            if view.train_count(Some(row.company)) == 0 {
                text.push(&[Words("none ")]);
            }
            for kind in &Kind::ALL {
                for _ in 0..history.trains(Some(row.company), *kind) {
                    text.push(&[Words(kind.code()), Words(" ")]);
                }
            }
            text.fill("(may have %)", &[Count(game_row(&view).trains)]);
            for private in &Private::ALL {
                if history.owner(*private) == Some(Holder::Company(row.company)) {
                    text.push(&[Words(" "), Words(private.code())]);
                }
            }
        }
        _ => text.push(&[Words("not floated")]),
    }
    text.finish()
}

/// Returns those of some companies that have started, in their order.
fn started_in(
    alloc: Global,
    history: &History,
    order: &[Company],
) -> Result<Vec<Company>, AllocError>
    ensures { IfOk result (λ started. started.items
        ≡ started_in history.now.events order.now) }
{
    let mut started = Vec::new(alloc);
    for company in order {
        push_started(&mut started, history, *company)?;
    }
    Ok(started)
}

/// Adds a company, if it is started.
fn push_started(
    started: &mut Vec<Company>,
    history: &History,
    company: Company,
) -> Result<(), AllocError>
    ensures { OnOk result (started.new.items
        ≡ started.old.items ++ started_one history.now.events company) }
{
    if history.now().is_started(company) {
        started.push(company)?;
    }
    Ok(())
}

/// Adds the round, the phase with its limits, and the bank's cash.
fn put_head(alloc: Global, out: &mut Text, stood: &Stood) -> Result<(), AllocError> {
    let round = match stood.history.now().round() {
        Some(round) => Piece::Round(round),
        None => Words("no round"),
    };
    out.fill("\nAFTER %\n", &[round]);
    put_matters(out, stood);
    out.fill(
        "BANK              %\n",
        &[Number(stood.history.cash(Party::Bank))],
    );
    let (mut bank, mut pool) = (Text::new(alloc), Text::new(alloc));
    for kind in &Kind::ALL {
        put_sold(&mut bank, &mut pool, stood.history, *kind);
    }
    put_trains(out, "TRAINS ON SALE", bank.finish()?.as_slice());
    put_trains(out, "TRAINS IN POOL", pool.finish()?.as_slice());
    Ok(())
}

/// Adds a kind of train with its price and the number left: to the list of those that the bank
/// sells, and to the list of those in the pool.
fn put_sold(bank: &mut Text, pool: &mut Text, history: &History, kind: Kind) {
    let view = history.now();
    let row = train_row(&view, kind);
    if sells(&view, kind) {
        put_priced(bank, &row);
        if let Some(left) = row.left {
            bank.fill(" (% left)", &[Count(left)]);
        }
    }
    if row.pool > 0 {
        put_priced(pool, &row);
        pool.fill(" (% there)", &[Number(Money::from(row.pool))]);
    }
}

/// Adds a kind of train with its price to a list.
fn put_priced(list: &mut Text, row: &TrainRow) {
    let comma = if list.bytes().is_empty() { "" } else { ", " };
    let price = Number(Money::from(row.price));
    list.fill("%% for %", &[Words(comma), Words(row.kind.code()), price]);
}

/// Adds a list of trains after its name; `none` if it is empty.
fn put_trains(out: &mut Text, name: &str, list: &[u8]) {
    out.push(&[Words(name), Column(VALUES)]);
    out.push_wrapped(VALUES, words_or(list, b"none"));
}
