//! A company's lays and tokens for a reader: for each hex and tile the rotations, with what is left
//! of the tile and the price; on request, what the company's trains would earn after each; and a
//! train that the company must buy.

use crate::fault::MovesFault;
use crate::lay_best::Earning;
use crate::questions::LayForm;
use desk_base::Piece::{Bytes, Column, Count, Number, Right, Words};
use desk_base::{fill, push, tiles_left, trains_of};
use desk_may::{Progress, Trains, board_now, push_end_of_turn, push_until_then};
use foresight::OrdersAhead;
use history::{History, Party};
use map_tables::{Lay, Place, laid_links};
use moves::{Priced, lays, tokens};
use purchases::sells;
use std::alloc::{AllocError, Global};
use tables::{Company, Kind, Money, train};

/// The column in front of the rotations, if no revenue is shown.
const ROTATIONS: usize = 23;

/// The column of the values of the head.
const VALUES: usize = 18;

/// The column of the price of a token.
const PRICE: usize = 15;

/// Returns what a company may lay and where it may place its next token, at the start of its orders
/// or after those drafted, as text. `from` is the place in the list of the event that begins the
/// round. The error is `Memory`.
pub(crate) fn lay_text<P: Progress>(
    alloc: Global,
    orders: OrdersAhead,
    from: usize,
    form: LayForm,
    progress: &mut P,
) -> Result<Vec<u8>, MovesFault> {
    let mut text = Vec::new(alloc);
    push_turn(alloc, &mut text, &orders, from, form, progress)?;
    if !form.lines {
        let mut end = Vec::new(alloc);
        let _ahead = push_end_of_turn(alloc, &mut end, orders)?;
        let gap = if end.is_empty() { "" } else { "\n" };
        push(&mut text, &[Words(gap), Bytes(end.as_slice())])?;
    }
    Ok(text)
}

/// Adds what the company may lay and place, in the form requested.
fn push_turn<P: Progress>(
    alloc: Global,
    out: &mut Vec<u8>,
    orders: &OrdersAhead,
    from: usize,
    form: LayForm,
    progress: &mut P,
) -> Result<(), MovesFault> {
    let history = orders.history();
    let company = orders.by().company;
    let kinds = trains_of(alloc, &history.now(), company)?;
    let board = board_now(alloc, history)?;
    let asker = orders.asker();
    let lays = lays(alloc, &board, &asker)?;
    let tokens = tokens(alloc, &board, &asker)?;
    let trains = Trains {
        alloc,
        history,
        company,
        kinds: kinds.as_slice(),
    };
    let mut earning = Earning {
        trains,
        lays: lays.as_slice(),
        tokens: tokens.as_slice(),
        done: 0,
        progress,
    };
    if form.lines {
        return earning.push_lines(out);
    }
    push_until_then(alloc, out, orders.sheets(), history, from, Some(company))?;
    push_means(out, history, company, kinds.as_slice())?;
    if form.best && kinds.is_empty() {
        return push_with_each(out, &mut earning);
    }
    if form.best {
        return earning.push_table(out);
    }
    push_lays(out, history, earning.lays)?;
    Ok(push_tokens(out, earning.tokens)?)
}

/// Adds what a company without a train would earn after each lay and token with each train that the
/// bank or the pool sells: a table for each.
fn push_with_each<P: Progress>(
    out: &mut Vec<u8>,
    earning: &mut Earning<P>,
) -> Result<(), MovesFault> {
    let history = earning.trains.history;
    for kind in &Kind::ALL {
        let is_of_bank = sells(&history.now(), *kind);
        if is_of_bank || history.trains(None, *kind) > 0 {
            push_bought(out, history, earning.trains.company, *kind, is_of_bank)?;
            let mut with = Earning {
                trains: Trains {
                    kinds: &[*kind],
                    ..earning.trains
                },
                lays: earning.lays,
                tokens: earning.tokens,
                done: 0,
                progress: &mut *earning.progress,
            };
            with.push_table(out)?;
        }
    }
    Ok(())
}

/// Adds a train that a company could buy, what it costs, and what the company has.
fn push_bought(
    out: &mut Vec<u8>,
    history: &History,
    company: Company,
    kind: Kind,
    is_of_bank: bool,
) -> Result<(), AllocError> {
    let (price, cash) = (
        Money::from(train(kind).price),
        history.cash(Party::of_company(company)),
    );
    let seller = if is_of_bank { "BANK" } else { "POOL" };
    let pieces = [
        Words(kind.code()),
        Column(VALUES),
        Words(kind.code()),
        Words(seller),
        Number(price),
        Number(cash),
    ];
    fill(out, "\nWITH A %%TRAIN % % for %; it has %", &pieces)?;
    if cash < price {
        fill(out, " and lacks %", &[Number(price.saturating_sub(cash))])?;
    }
    fill(out, "\n", &[])
}

/// Adds the lays, a line for each hex and tile.
fn push_lays(out: &mut Vec<u8>, history: &History, lays: &[Priced<Lay>]) -> Result<(), AllocError> {
    fill(out, "\nHEX  TILE  LEFT  PRICE  ROTATIONS\n", &[])?;
    for (at, lay) in lays.iter().enumerate() {
        let before = lays.get(..at).unwrap_or(&[]);
        let from = lays.get(at..).unwrap_or(&[]);
        push_lay(out, history, before, *lay, from)?;
    }
    let end = if lays.is_empty() { "none\n" } else { "\n" };
    push(out, &[Words(end)])
}

/// Adds a lay, given the lays before it and those from it on: the rotations that give its track,
/// unless they are there already. The first of its hex and tile begins a new line.
fn push_lay(
    out: &mut Vec<u8>,
    history: &History,
    before: &[Priced<Lay>],
    lay: Priced<Lay>,
    from: &[Priced<Lay>],
) -> Result<(), AllocError> {
    if has_same_track(before, lay.what) {
        return Ok(());
    }
    if !has_same_tile(before, lay.what) {
        let end = if before.is_empty() { "" } else { "\n" };
        push(out, &[Words(end)])?;
        push_tile(out, history, lay)?;
        push(out, &[Column(ROTATIONS)])?;
    }
    fill(out, " ", &[])?;
    push_rotations(out, from, lay.what)
}

/// Adds the places for the next token.
fn push_tokens(out: &mut Vec<u8>, tokens: &[Priced<Place>]) -> Result<(), AllocError> {
    fill(out, "\nTOKEN            PRICE\n", &[])?;
    for token in tokens {
        push_token(out, *token)?;
        fill(out, "\n", &[])?;
    }
    let end = if tokens.is_empty() { "none\n" } else { "" };
    push(out, &[Words(end)])
}

/// Adds a place for a token, and its price.
pub(crate) fn push_token(out: &mut Vec<u8>, token: Priced<Place>) -> Result<(), AllocError> {
    let place = token.what.text();
    push(
        out,
        &[
            Bytes(place.as_slice()),
            Column(PRICE),
            Right(7, token.price),
        ],
    )
}

/// Adds what a company has: cash and trains.
fn push_means(
    out: &mut Vec<u8>,
    history: &History,
    company: Company,
    kinds: &[Kind],
) -> Result<(), AllocError> {
    let cash = Number(history.cash(Party::of_company(company)));
    fill(out, "CASH              %\nTRAINS           ", &[cash])?;
    for kind in kinds {
        fill(out, " %", &[Words(kind.code())])?;
    }
    let end = if kinds.is_empty() { " none\n" } else { "\n" };
    push(out, &[Words(end)])
}

/// Adds the hex and the tile of a lay, how many of the tile are left, and the price.
pub(crate) fn push_tile(
    out: &mut Vec<u8>,
    history: &History,
    lay: Priced<Lay>,
) -> Result<(), AllocError> {
    let hex = lay.what.hex.text();
    let left = tiles_left(history.lays(), lay.what.tile) as Money;
    push(
        out,
        &[
            Bytes(hex.as_slice()),
            Column(5),
            Right(4, Money::from(lay.what.tile.number())),
            Right(6, left),
            Right(7, lay.price),
        ],
    )
}

/// Adds the rotation of a lay, and each other one that gives the same track, given the lays from
/// this one on.
pub(crate) fn push_rotations(
    out: &mut Vec<u8>,
    from: &[Priced<Lay>],
    lay: Lay,
) -> Result<(), AllocError> {
    let mut sign = "";
    for other in from {
        if is_same_track(other.what, lay) {
            let turns = Count(other.what.rot.turns());
            let swap = if other.what.swap { "s" } else { "" };
            push(out, &[Words(sign), turns, Words(swap)])?;
            sign = "=";
        }
    }
    Ok(())
}

/// Returns whether one of some lays gives the same track as this one.
pub(crate) fn has_same_track(lays: &[Priced<Lay>], lay: Lay) -> bool {
    lays.iter().any(|other| is_same_track(other.what, lay))
}

/// Returns whether one of some lays has the same tile on the same hex as this one.
fn has_same_tile(lays: &[Priced<Lay>], lay: Lay) -> bool {
    lays.iter().any(|other| other.what.hex == lay.hex && other.what.tile == lay.tile)
}

/// Returns whether two lays of the same tile on the same hex give the same track.
fn is_same_track(a: Lay, b: Lay) -> bool {
    a.hex == b.hex && a.tile == b.tile && laid_links(a).as_slice() == laid_links(b).as_slice()
}
