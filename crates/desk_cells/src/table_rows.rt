//! The rows of each table, in their order.
ghost use Rattle.std.specs.Prelude.{◌≡◌, ◌++◌, ◌∷◌, ◌≤◌, [], IfOk, OnOk};
ghost use Rattle.desk_cells.specs.declared.field.TableRow.TheVariants.{OfTrain};
ghost use Rattle.desk_cells.specs.TableRows.{company_rows, player_if, player_rows, private_rows, train_rows};

use crate::field::TableRow;
use crate::rows::{TrainRow, company_row, player_row, private_row, train_row};
use history::{GameView, History};
use std::alloc::{AllocError, Global};
use tables::{Company, Kind, PerSeat, Private, Seat};

/// The seats that a table may have.
const SEATS: PerSeat<Seat> = [Seat(0), Seat(1), Seat(2), Seat(3), Seat(4), Seat(5)];

/// Returns the rows of this many players, by their seats: with their cash now and before the last
/// round. Fails only if allocation fails.
#[tactic(auto, using(tables::proofs::OneMore::elements_step))]
pub fn player_rows(
    alloc: Global,
    history: &History,
    before: &GameView,
    players: usize,
) -> Result<Vec<TableRow>, AllocError>
    requires few { players ≤ 6 }
    ensures { IfOk result (λ rows. rows.items ≡ player_rows history.now before.now players) }
{
    let mut rows = Vec::new(alloc);
    for seat in &SEATS {
        push_player(&mut rows, history, before, players, *seat)?;
    }
    Ok(rows)
}

/// Adds the row of the player of a seat, if there is one.
fn push_player(
    rows: &mut Vec<TableRow>,
    history: &History,
    before: &GameView,
    players: usize,
    seat: Seat,
) -> Result<(), AllocError>
    requires few { players ≤ 6 }
    ensures { OnOk result (rows.new.items
        ≡ rows.old.items ++ player_if history.now before.now players seat) }
{
    if seat.index() < players {
        rows.push(TableRow::OfPlayer(player_row(history, before, players, seat)))?;
    }
    Ok(())
}

/// Returns the rows of all privates. Fails only if allocation fails.
pub fn private_rows(alloc: Global, view: &GameView) -> Result<Vec<TableRow>, AllocError>
    ensures { IfOk result (λ rows. rows.items ≡ private_rows view.now.events) }
{
    let mut rows = Vec::new(alloc);
    for private in &Private::ALL {
        rows.push(TableRow::OfPrivate(private_row(view, *private)))?;
    }
    Ok(rows)
}

/// Returns the rows of some companies, in this order: as they stand now, and before the last round.
/// Fails only if allocation fails.
pub fn company_rows(
    alloc: Global,
    view: &GameView,
    before: &GameView,
    order: &[Company],
) -> Result<Vec<TableRow>, AllocError>
    ensures { IfOk result (λ rows. rows.items ≡ company_rows view.now before.now order.now) }
{
    let mut rows = Vec::new(alloc);
    for company in order {
        rows.push(TableRow::OfCompany(company_row(view, before, *company)))?;
    }
    Ok(rows)
}

/// Returns the rows of all kinds of train. Fails only if allocation fails.
#[tactic(auto, using(tables::proofs::OneMore::elements_step))]
pub fn train_rows(alloc: Global, view: &GameView) -> Result<Vec<TableRow>, AllocError>
    ensures { IfOk result (λ rows. rows.items ≡ train_rows view.now.events) }
{
    let mut rows = Vec::new(alloc);
    for kind in &Kind::ALL {
        push_train(&mut rows, &train_row(view, *kind))?;
    }
    Ok(rows)
}

/// Adds the row of a kind of train.
fn push_train(rows: &mut Vec<TableRow>, row: &TrainRow) -> Result<(), AllocError>
    ensures { OnOk result (rows.new.items ≡ rows.old.items ++ OfTrain row.now ∷ []) }
{
    rows.push(TableRow::OfTrain(*row))?;
    Ok(())
}
