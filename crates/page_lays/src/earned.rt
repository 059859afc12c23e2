//! What the best runs of a company bring: to the president and to the company, and the price of its
//! share afterwards.
ghost use Rattle.std.specs.Prelude.{◌≡◌};
ghost use Rattle.page_lays.specs.Earned.{earned_by, prices_at, prices_of};

use forced_purchase::Operator;
use foresight::OrdersAhead;
use history::{GameView, ShareCount, Shareholder};
use market::{left, right};
use purchases::has_trains;
use tables::{Amount, Company, Square, price};

/// What decides what a company's runs bring, at the start of its orders.
#[derive(Clone, Copy)]
pub(crate) struct Earned {
    /// Whether it has a train: RUN BEST as the first run of a turn needs no more.
    pub(crate) has_trains: bool,
    /// The shares of its president. PAY pays a tenth of the revenue for each.
    pub(crate) led: ShareCount,
    /// Its shares in the pool, for which PAY pays the company.
    pub(crate) pooled: ShareCount,
    /// `None` if its token is not on the chart.
    pub(crate) prices: Option<Prices>,
}

/// The prices of a share, in dollars.
#[derive(Clone, Copy)]
pub(crate) struct Prices {
    pub(crate) now: Amount,
    /// After PAY.
    pub(crate) paid: Amount,
    /// After WITHHOLD.
    pub(crate) kept: Amount,
}

/// Returns what decides what a company's runs bring.
pub(crate) fn earned_in(orders: &OrdersAhead) -> Earned
    ensures { result ≡ earned_by orders.now.turn.game orders.now.by }
{
    earned_by(&orders.history().now(), orders.by())
}

/// Returns the same for a company in a game.
fn earned_by(view: &GameView, by: Operator) -> Earned
    ensures { result ≡ earned_by view.now by }
{
    Earned {
        has_trains: has_trains(view, by.company),
        led: view.shares(by.company, Shareholder::Seat(by.president)),
        pooled: view.shares(by.company, Shareholder::BankPool),
        prices: prices_of(view, by.company),
    }
}

/// Returns the prices of a company's share, if its token is on the chart.
fn prices_of(view: &GameView, company: Company) -> Option<Prices>
    ensures { result ≡ prices_of view.now.events company }
{
    match view.square(company) {
        Some(square) => Some(prices_at(square)),
        None => None,
    }
}

/// Returns the prices of a share whose company's token is on a square.
fn prices_at(square: Square) -> Prices
    ensures { result ≡ prices_at square }
{
    Prices {
        now: price(square),
        paid: price(right(square)),
        kept: price(left(square)),
    }
}
