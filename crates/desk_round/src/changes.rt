//! Whose cash changed in a turn: that of its own party, and that of others.
ghost use Rattle.std.specs.Prelude.{◌≡◌};
ghost use Rattle.desk_round.specs.Change.{change_of};
ghost use Rattle.totals.specs.Bids.{free_cash_of};
ghost use Rattle.totals.specs.LookBack.{cash_of};

use crate::bulletin_text::BROUGHT;
use crate::groups::{Whose, same_whose};
use desk_base::Piece::{Bytes, Column, Number, Right, Words};
use desk_base::{Piece, fill, push, push_wrapped};
use history::{GameView, Party};
use report::name;
use sheets::Sheets;
use std::alloc::{AllocError, Global};
use tables::{Company, Money, Seat, Square, price};

/// The column after the name of whose turn it was.
const CASH: usize = 17;

/// The column after the cash of a turn.
const BESIDE: usize = 40;

/// A sum before a turn and after it, in dollars.
#[derive(Clone, Copy)]
pub(crate) struct Change {
    pub(crate) before: Money,
    pub(crate) after: Money,
}

/// Returns how the cash of a party changed between two states of a game; `None` if it did not.
fn cash_change(before: &GameView, after: &GameView, party: Party) -> Option<Change>
    ensures { result ≡ change_of (cash_of before.now.seats before.now.events party)
        (cash_of after.now.seats after.now.events party) }
{
    change_of(before.cash(party), after.cash(party))
}

/// Returns how the free cash of a seat, which is not tied up in bids, changed between two states of
/// a game; `None` if it did not.
fn free_change(before: &GameView, after: &GameView, seat: Seat) -> Option<Change>
    ensures { result ≡ change_of (free_cash_of before.now.seats before.now.events seat)
        (free_cash_of after.now.seats after.now.events seat) }
{
    change_of(before.free_cash(seat), after.free_cash(seat))
}

/// Returns the change from one sum to another; `None` if they are equal.
fn change_of(before: Money, after: Money) -> Option<Change>
    ensures { result ≡ change_of before after }
{
    if before == after {
        None
    } else {
        Some(Change { before, after })
    }
}

/// Returns whether bids tie up cash of a seat in either of two states of a game.
fn has_bids(before: &GameView, after: &GameView, seat: Seat) -> bool {
    ties_cash(before, seat) || ties_cash(after, seat)
}

/// Returns whether bids tie up cash of a seat.
fn ties_cash(view: &GameView, seat: Seat) -> bool {
    view.free_cash(seat) != view.cash(Party::of_seat(seat))
}

/// Adds what a turn's own party had before and after it: its cash, for a player with bids the free
/// cash, and for a company its price. Adds nothing for events outside turns.
pub(crate) fn push_change(
    out: &mut Vec<u8>,
    whose: Whose,
    before: &GameView,
    after: &GameView,
) -> Result<(), AllocError> {
    let party = match whose {
        Whose::Company(company) => Party::of_company(company),
        Whose::Seat(seat) => Party::of_seat(seat),
        Whose::Nobody => return Ok(()),
    };
    let cash = Right(6, before.cash(party));
    push(out, &[Column(CASH), Words("cash"), cash])?;
    fill(out, " -> %", &[Number(after.cash(party))])?;
    match whose {
        Whose::Company(company) => push_prices(out, before.square(company), after.square(company)),
        Whose::Seat(seat) if has_bids(before, after, seat) => {
            let free = Right(6, before.free_cash(seat));
            push(out, &[Column(BESIDE), Words("free"), free])?;
            fill(out, " -> %", &[Number(after.free_cash(seat))])
        }
        _ => Ok(()),
    }
}

/// Adds the price of a company before and after its turn.
fn push_prices(
    out: &mut Vec<u8>,
    before: Option<Square>,
    after: Option<Square>,
) -> Result<(), AllocError> {
    push(out, &[Column(BESIDE), Words("price ")])?;
    push_square(out, before)?;
    fill(out, " -> ", &[])?;
    push_square(out, after)
}

/// Adds the price of a square with its name; `-` where there is none.
fn push_square(out: &mut Vec<u8>, square: Option<Square>) -> Result<(), AllocError> {
    let Some(square) = square else {
        return fill(out, "-", &[]);
    };
    let price = Number(Money::from(price(square)));
    fill(out, "% %", &[price, Piece::Square(square)])
}

/// Adds whose cash changed in a turn that was not their own: one line has all players and companies
/// whose cash changed, and one all players with bids whose free cash changed.
pub(crate) fn push_changes(
    alloc: Global,
    out: &mut Vec<u8>,
    sheets: &Sheets,
    whose: Whose,
    before: &GameView,
    after: &GameView,
) -> Result<(), AllocError> {
    let mut cash = Vec::new(alloc);
    let mut free = Vec::new(alloc);
    for seat in 0..sheets.seats() {
        let seat = Seat::at(seat);
        if !same_whose(whose, Whose::Seat(seat)) {
            let player = Bytes(name(sheets, seat));
            push_if_changed(
                &mut cash,
                player,
                cash_change(before, after, Party::of_seat(seat)),
            )?;
            if has_bids(before, after, seat) {
                push_if_changed(&mut free, player, free_change(before, after, seat))?;
            }
        }
    }
    for company in &Company::ALL {
        if !same_whose(whose, Whose::Company(*company)) {
            let change = cash_change(before, after, Party::of_company(*company));
            push_if_changed(&mut cash, Words(company.code()), change)?;
        }
    }
    push_listed(out, "CASH ", cash.as_slice())?;
    push_listed(out, "FREE ", free.as_slice())
}

/// Adds a party to a list, with how a sum of theirs changed, if it did.
fn push_if_changed(
    list: &mut Vec<u8>,
    party: Piece,
    change: Option<Change>,
) -> Result<(), AllocError> {
    let Some(change) = change else {
        return Ok(());
    };
    let comma = if list.is_empty() { "" } else { ", " };
    push(list, &[Words(comma), party])?;
    fill(
        list,
        " % -> %",
        &[Number(change.before), Number(change.after)],
    )
}

/// Adds a list after this word, in lines of at most 80 columns; nothing if it is empty.
fn push_listed(out: &mut Vec<u8>, word: &str, list: &[u8]) -> Result<(), AllocError> {
    if list.is_empty() {
        return Ok(());
    }
    push(out, &[Column(BROUGHT), Words(word)])?;
    push_wrapped(out, BROUGHT + 4, list)
}
