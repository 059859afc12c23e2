//! What is listed before a round; and what a company pays that must buy a train.
ghost use Rattle.std.specs.Prelude.{◌≡◌, ◌↔◌, IfOk, IsTrue, option_map};
ghost use Rattle.operating.specs.MapState.{map_state_now};
ghost use Rattle.operating.specs.TurnEnd.{IsDue};
ghost use Rattle.tables.specs.Chart.{price_of};
ghost use Rattle.page_ahead.specs.Runners.{is_kept, kept_then, must_of, rows_ahead, rows_of_all};

use board::Board;
use desk_base::view_behind;
use desk_cells::{TableRow, before_round, company_rows, private_rows};
use desk_dues::raised_at_most;
use forced_purchase::{Operator, cheapest, lack};
use history::{Event, GameView, History, TrainSeller, Walk};
use legal_runs::can_run;
use market::operating_order;
use purchases::has_trains;
use std::alloc::{AllocError, Global};
use tables::{Amount, Company, Kind, Money, Round, Square, price};

/// Returns what is listed before a round: the companies that operate, in operating order, before an
/// operating round; the privates before an opening round; all companies before a stock round. Fails
/// only if allocation fails.
pub fn rows_ahead(
    alloc: Global,
    history: &History,
    round: Round,
) -> Result<Vec<TableRow>, AllocError>
    ensures { IfOk result (λ rows. rows.items ≡ rows_ahead history.now round) }
{
    let events = history.events();
    let mut walk = Walk::along(events);
    let before = view_behind(&mut walk, before_round(events), history.seats());
    let view = history.now();
    match round {
        Round::Operating { .. } => {
            company_rows(alloc, &view, &before, operating_order(history).as_slice())
        }
        Round::Opening(_) => private_rows(alloc, &view),
        Round::Stock(_) => rows_of_all(alloc, &view, &before),
    }
}

/// Returns the rows of all companies: as they stand now, and before the last round.
#[tactic(auto, unfolding(crate::specs::Runners::rows_of_all))]
fn rows_of_all(
    alloc: Global,
    view: &GameView,
    before: &GameView,
) -> Result<Vec<TableRow>, AllocError>
    ensures { IfOk result (λ rows. rows.items ≡ rows_of_all view.now before.now) }
{
    company_rows(alloc, view, before, &Company::ALL)
}

/// Returns the price of a square, if there is one.
pub fn price_on(square: Option<Square>) -> Option<Amount>
    ensures { result ≡ option_map price_of square }
{
    match square {
        Some(square) => Some(price(square)),
        None => None,
    }
}

/// Returns whether a company kept what it last earned.
pub(crate) fn is_kept(events: &[Event], company: Company) -> bool
    ensures { result ≡ is_kept company events.now }
{
    let mut kept = false;
    for event in events {
        kept = kept_then(company, kept, event);
    }
    kept
}

/// Returns the same after one more event.
fn kept_then(company: Company, kept: bool, event: &Event) -> bool
    ensures { result ≡ kept_then company kept event.now }
{
    match event {
        Event::Runs { company: its, .. } if *its == company => false,
        Event::Withheld { company: its, .. } if *its == company => true,
        _ => kept,
    }
}

/// Returns whether a company would have to buy a train if its turn ended now: it has none, and
/// could run one of kind 2. The board is that of the game.
pub fn falls_due(history: &History, board: &Board, company: Company) -> bool
    requires { board.now ≡ map_state_now history.now.events }
    ensures { IsTrue result ↔ IsDue history.now company }
{
    if has_trains(&history.now(), company) {
        return false;
    }
    can_run(board, company)
}

/// What a company pays that must buy a train. The sums are in dollars.
#[derive(Clone, Copy, Debug, PartialEq, Eq)]
pub struct Must {
    /// The cheapest train for sale.
    pub kind: Kind,
    pub from: TrainSeller,
    pub price: Amount,
    /// What the company lacks for it; 0 or less if it has enough.
    pub lacking: Money,
    /// The cash of its president that is not tied up in bids.
    pub free: Money,
    /// What the president can raise at most by sales.
    pub raised: Amount,
}

/// Returns what a company pays that must buy a train now.
pub fn must_of(history: &History, by: Operator) -> Must
    ensures { result ≡ must_of history.now by }
{
    let purchase = cheapest(&history.now());
    Must {
        kind: purchase.kind,
        from: purchase.from,
        price: purchase.price(),
        lacking: lack(history, by.company),
        free: history.now().free_cash(by.president),
        raised: raised_at_most(history, by),
    }
}
