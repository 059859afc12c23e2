//! Rows with what is said about each. What is printed of a turn depends on these alone.
ghost use Rattle.std.specs.Prelude.{◌≡◌, IfOk, map, slice_get, unwrap_or};
ghost use Rattle.desk_may.specs.CompanyTold.{told_of_private, told_of_train};
ghost use Rattle.desk_may.specs.OpeningTold.{told_in_opening};
ghost use Rattle.desk_may.specs.StockTold.{told_in_stock};
ghost use Rattle.moves.specs.CompanyRows.{private_orders, private_row, train_orders, train_row};
ghost use Rattle.moves.specs.OpeningRows.{opening_orders, opening_row};
ghost use Rattle.moves.specs.StockRows.{stock_orders, stock_row};

use crate::company_told::{PrivateTeller, TrainTeller};
use crate::opening_told::OpeningTeller;
use crate::stock_told::StockTeller;
use crate::teller::all_told;
use crate::told::Told;
use foresight::OrdersAhead;
use history::History;
use moves::{Row, opening_rows, private_rows, stock_rows, train_rows};
use std::alloc::{AllocError, Global};
use tables::{Company, Seat};

/// Some rows, and what is said about each.
#[derive(Drop)]
pub(crate) struct ToldRows {
    pub(crate) rows: Vec<Row>,
    /// What is said about the row at the same place; `None` if nothing is.
    pub(crate) told: Vec<Option<Told>>,
}

impl ToldRows {
    /// Returns what is said about the row at a place; `None` if nothing is.
    pub(crate) fn told_at(&self, place: usize) -> Option<Told>
        ensures { result ≡ unwrap_or (slice_get self.now.told.items place) None }
    {
        match self.told.as_slice().get(place) {
            Some(told) => *told,
            None => None,
        }
    }
}

/// Returns the rows of a seat's turn of an opening, in which it has bought or bid, or has not, with
/// what is said about each. Fails only if allocation fails.
pub(crate) fn opening_told(
    alloc: Global,
    history: &History,
    seat: Seat,
    used: bool,
) -> Result<ToldRows, AllocError>
    ensures rows { IfOk result (λ list. list.rows.items
        ≡ map (opening_row history.now seat used)
        (opening_orders history.now.events)) }
    ensures told { IfOk result (λ list. list.told.items
        ≡ map (told_in_opening history.now seat) list.rows.items) }
{
    let rows = opening_rows(alloc, history, seat, used)?;
    let teller = OpeningTeller { history, seat };
    let told = all_told(alloc, &teller, rows.as_slice())?;
    Ok(ToldRows { rows, told })
}

/// Returns the rows of a seat's turn of a stock round, in which it has bought of this company or of
/// none, with what is said about each. Fails only if allocation fails.
pub(crate) fn stock_told(
    alloc: Global,
    history: &History,
    seat: Seat,
    bought: Option<Company>,
) -> Result<ToldRows, AllocError>
    ensures rows { IfOk result (λ list. list.rows.items
        ≡ map (stock_row history.now seat bought)
        (stock_orders history.now.events seat)) }
    ensures told { IfOk result (λ list. list.told.items
        ≡ map (told_in_stock history.now seat) list.rows.items) }
{
    let rows = stock_rows(alloc, history, seat, bought)?;
    let teller = StockTeller { history, seat };
    let told = all_told(alloc, &teller, rows.as_slice())?;
    Ok(ToldRows { rows, told })
}

/// Returns the rows of the trains of a company in its turn that has withheld, with what is said
/// about each, given who presided as the round began. Fails only if allocation fails.
pub(crate) fn trains_told(
    alloc: Global,
    orders: &OrdersAhead,
    presidents: &[Option<Seat>],
) -> Result<ToldRows, AllocError>
    ensures rows { IfOk result (λ list. list.rows.items
        ≡ map (train_row orders.now.turn.game orders.now.by.company)
        (train_orders orders.now.turn.game.events)) }
    ensures told { IfOk result (λ list. list.told.items
        ≡ map (told_of_train presidents.now orders.now.turn.game orders.now.by)
        list.rows.items) }
{
    let (history, by) = (orders.history(), orders.by());
    let rows = train_rows(alloc, history, by.company)?;
    let teller = TrainTeller {
        history,
        by,
        presidents,
    };
    let told = all_told(alloc, &teller, rows.as_slice())?;
    Ok(ToldRows { rows, told })
}

/// Returns the rows of the privates of a company in its turn, with what is said about each. Fails
/// only if allocation fails.
pub(crate) fn privates_told(alloc: Global, orders: &OrdersAhead) -> Result<ToldRows, AllocError>
    ensures rows { IfOk result (λ list. list.rows.items
        ≡ map (private_row orders.now.turn.game orders.now.by.company) private_orders) }
    ensures told { IfOk result (λ list. list.told.items
        ≡ map (told_of_private orders.now.turn.game orders.now.by) list.rows.items) }
{
    let (history, by) = (orders.history(), orders.by());
    let rows = private_rows(alloc, history, by.company)?;
    let teller = PrivateTeller { history, by };
    let told = all_told(alloc, &teller, rows.as_slice())?;
    Ok(ToldRows { rows, told })
}
