//! Which rules of stock rounds are broken whatever the other players order.
ghost use Rattle.std.specs.Prelude.{◌≡◌, ◌+ℤ◌, ◌*◌, ◌+◌, pos};
ghost use Rattle.desk_mending.specs.Mending.{is_never_of_stock, stock_stays};
ghost use Rattle.desk_mending.specs.Stays.{cash_stays_short, exchange_stays, has_fixed_cost, none_comes};
ghost use Rattle.desk_mending.specs.Stays.{purchase_stays, sale_stays, start_stays_wrong, stays_not_held};

use crate::certificates_stay::{limit_stays, six_stays};
use crate::written::{Written, any_brings_of, any_lessens};
use certs::{Purchase, Sale};
use desk_rules::{is_first_stock, is_short, is_sold_out_there, is_wrong_start, owns_mohawk};
use history::{GameView, ShareCount, Shareholder, StockRule};
use order_grammar::{PlayOrder, ShareSource};
use tables::{Amount, Company, POOL_SHARES_MOST, Seat};

/// Returns whether an order of a seat breaks a rule of stock rounds whatever others do, given the
/// game as the round begins.
pub(crate) fn stock_stays(
    start: &GameView,
    seat: Seat,
    written: &Written,
    order: PlayOrder,
    rule: StockRule,
) -> bool
    ensures { result ≡ stock_stays start.now seat written.now.above.now written.now.turn
        order rule }
{
    match order {
        PlayOrder::Par { company, price } => {
            purchase_stays(start, seat, written, Purchase::Par { company, price }, rule)
        }
        PlayOrder::BuyShare { company, from } => {
            purchase_stays(
                start,
                seat,
                written,
                Purchase::Share { company, from },
                rule,
            )
        }
        PlayOrder::Sell { company, shares } => {
            sale_stays(start, seat, written, Sale { company, shares }, rule)
        }
        PlayOrder::ExchangeMohawk => exchange_stays(start, seat, written, rule),
        PlayOrder::Raise { .. } => false,
        _ => is_never_of_stock(rule),
    }
}

/// Returns whether a rule says that an order has no place in a stock round.
pub(crate) fn is_never_of_stock(rule: StockRule) -> bool
    ensures { result ≡ is_never_of_stock rule }
{
    matches!(rule, StockRule::NotOfStock)
}

/// Returns whether a purchase breaks a rule whatever others do.
fn purchase_stays(
    start: &GameView,
    seat: Seat,
    written: &Written,
    purchase: Purchase,
    rule: StockRule,
) -> bool
    ensures { result ≡ purchase_stays start.now seat written.now.above.now written.now.turn
        purchase rule }
{
    match rule {
        StockRule::NoneThere => none_comes(start, purchase),
        StockRule::NoParValue => true,
        StockRule::WrongStart => start_stays_wrong(start, purchase),
        StockRule::CashTooSmall => cash_stays_short(start, seat, written, purchase),
        StockRule::CertificateLimit => limit_stays(start, seat, written, purchase),
        StockRule::OverSixShares => {
            six_stays(start, seat, written, purchase.company(), purchase.shares())
        }
        _ => false,
    }
}

/// Returns whether no share comes to where it is to be bought.
fn none_comes(start: &GameView, purchase: Purchase) -> bool
    ensures { result ≡ none_comes start.now.events purchase }
{
    match purchase {
        Purchase::Par { .. } => false,
        Purchase::Share { company, from } => match from {
            ShareSource::InitialOffering => {
                start.shares(company, Shareholder::InitialOffering) < 1
            }
            ShareSource::BankPool => is_first_stock(start),
        },
    }
}

/// Returns whether a company that is to be started has started already.
fn start_stays_wrong(start: &GameView, purchase: Purchase) -> bool
    ensures { result ≡ start_stays_wrong start.now.events purchase }
{
    match purchase {
        Purchase::Par { company, .. } => start.is_started(company),
        Purchase::Share { .. } => false,
    }
}

/// Returns whether others cannot change what a purchase costs.
fn has_fixed_cost(start: &GameView, purchase: Purchase) -> bool
    ensures { result ≡ has_fixed_cost start.now.events purchase }
{
    match purchase {
        Purchase::Par { .. } => true,
        Purchase::Share { company, from } => match from {
            ShareSource::InitialOffering => start.is_started(company),
            ShareSource::BankPool => false,
        },
    }
}

/// Returns whether a seat stays short of the cash for a purchase.
fn cash_stays_short(start: &GameView, seat: Seat, written: &Written, purchase: Purchase) -> bool
    ensures { result ≡ cash_stays_short start.now seat written.now.above.now purchase }
{
    has_fixed_cost(start, purchase)
        && is_short(start, seat, purchase)
        && !any_lessens(written.above)
}

/// Returns whether a sale breaks a rule whatever others do.
fn sale_stays(start: &GameView, seat: Seat, written: &Written, sale: Sale, rule: StockRule) -> bool
    ensures { result ≡ sale_stays start.now seat written.now.above.now sale rule }
{
    match rule {
        StockRule::SaleInFirstRound => true,
        StockRule::NotHeld => stays_not_held(start, seat, written, sale),
        StockRule::PoolFull => sale.shares > Amount::from(POOL_SHARES_MOST),
        _ => false,
    }
}

/// Returns whether a seat does not come to hold what it is to sell.
fn stays_not_held(start: &GameView, seat: Seat, written: &Written, sale: Sale) -> bool
    ensures { result ≡ stays_not_held start.now.events seat written.now.above.now sale }
{
    let held = start.shares(sale.company, Shareholder::Seat(seat));
    sale.shares == 0
        || (held < ShareCount::from(sale.shares) && !any_brings_of(sale.company, written.above))
}

/// Returns whether an exchange of MH breaks a rule whatever others do.
fn exchange_stays(start: &GameView, seat: Seat, written: &Written, rule: StockRule) -> bool
    ensures { result
        ≡ exchange_stays start.now seat written.now.above.now written.now.turn rule }
{
    match rule {
        StockRule::NoExchange => {
            !owns_mohawk(start, seat) || six_stays(start, seat, written, Company::NewYorkCentral, 1)
        }
        _ => false,
    }
}
