//! The rows of the tables of a page. Each function fails only if allocation fails.
ghost use Rattle.std.specs.Prelude.{◌≡◌, ◌≤◌, IfOk};
ghost use Rattle.page.specs.ShownRows.{order_shown, players_shown, privates_shown, roster_shown};
ghost use Rattle.page.specs.ShownRows.{trains_shown};

use desk_cells::{TableRow, all_in_order, company_rows, player_rows, private_rows, train_rows};
use history::{GameView, History};
use std::alloc::{AllocError, Global};
use tables::Company;

/// Returns the rows of this many players, by their seats.
#[tactic(auto, unfolding(crate::specs::ShownRows::players_shown))]
pub fn players_shown(
    alloc: Global,
    history: &History,
    before: &GameView,
    seats: usize,
) -> Result<Vec<TableRow>, AllocError>
    requires { seats ≤ 6 }
    ensures { IfOk result (λ rows. rows.items ≡ players_shown history.now before.now seats) }
{
    player_rows(alloc, history, before, seats)
}

/// Returns the rows of all companies in roster order.
#[tactic(auto, unfolding(crate::specs::ShownRows::roster_shown))]
pub fn roster_shown(
    alloc: Global,
    view: &GameView,
    before: &GameView,
) -> Result<Vec<TableRow>, AllocError>
    ensures { IfOk result (λ rows. rows.items ≡ roster_shown view.now before.now) }
{
    company_rows(alloc, view, before, &Company::ALL)
}

/// Returns the rows of the companies that operate, in operating order, and then of the others.
#[tactic(auto, unfolding(crate::specs::ShownRows::order_shown))]
pub(crate) fn order_shown(
    alloc: Global,
    history: &History,
    before: &GameView,
) -> Result<Vec<TableRow>, AllocError>
    ensures { IfOk result (λ rows. rows.items ≡ order_shown history.now before.now) }
{
    let order = all_in_order(alloc, history)?;
    company_rows(alloc, &history.now(), before, order.as_slice())
}

/// Returns the rows of all privates.
#[tactic(auto, unfolding(crate::specs::ShownRows::privates_shown))]
pub fn privates_shown(alloc: Global, view: &GameView) -> Result<Vec<TableRow>, AllocError>
    ensures { IfOk result (λ rows. rows.items ≡ privates_shown view.now.events) }
{
    private_rows(alloc, view)
}

/// Returns the rows of all kinds of train, the smallest first.
#[tactic(auto, unfolding(crate::specs::ShownRows::trains_shown))]
pub fn trains_shown(alloc: Global, view: &GameView) -> Result<Vec<TableRow>, AllocError>
    ensures { IfOk result (λ rows. rows.items ≡ trains_shown view.now.events) }
{
    train_rows(alloc, view)
}
