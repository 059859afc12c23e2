//! The rules that a purchase of shares breaks.
ghost use Rattle.std.specs.Prelude.{◌≡◌, IfOk, pos};
ghost use Rattle.certs.specs.Purchase.{cost_of, is_at_limit, is_no_par, is_short_of_cash, is_sold_out_there};
ghost use Rattle.certs.specs.Purchase.{is_wrong_start};
ghost use Rattle.certs.specs.Counted.{counts_on};
ghost use Rattle.desk_rules.specs.Asked.{purchase_broken};
ghost use Rattle.events.specs.declared.ruling.Refusal.TheVariants as refusal;

use certs::{Purchase, counted_now, is_over_six, purchase_cost};
use desk_map_rules::{Row, rules_of};
use history::{GameView, Refusal, ShareCount, Shareholder, StockRule};
use std::alloc::{AllocError, Global};
use tables::{Company, Seat, Square, Zone, certificate_limit, par_square, zone};

/// Returns the rules that a seat breaks by a purchase. Fails only if allocation fails.
pub(crate) fn purchase_broken(
    alloc: Global,
    view: &GameView,
    seat: Seat,
    purchase: Purchase,
) -> Result<Vec<Refusal>, AllocError>
    ensures { IfOk result (λ rules. rules.items ≡ purchase_broken view.now seat purchase) }
{
    let company = purchase.company();
    let shares = purchase.shares();
    let rows = [
        of_stock(
            StockRule::SoldInRound,
            view.has_sold_in_round(company, seat),
        ),
        of_stock(StockRule::NoneThere, is_sold_out_there(view, purchase)),
        of_stock(StockRule::NoParValue, is_no_par(purchase)),
        of_stock(StockRule::WrongStart, is_wrong_start(view, purchase)),
        of_stock(
            StockRule::CashTooSmall,
            !is_no_par(purchase) && is_short(view, seat, purchase),
        ),
        of_stock(
            StockRule::CertificateLimit,
            is_at_limit(view, seat, company),
        ),
        of_stock(
            StockRule::OverSixShares,
            is_over_six(view, seat, company, shares),
        ),
    ];
    rules_of(alloc, &rows)
}

/// Returns a row of a rule of stock rounds.
pub(crate) fn of_stock(rule: StockRule, is_broken: bool) -> Row
    ensures { result ≡ record { rule = refusal.Stock rule; is_broken = is_broken } }
{
    Row {
        rule: Refusal::Stock(rule),
        is_broken,
    }
}

/// Returns whether no share is left where one is to be bought.
#[tactic(auto, unfolding(certs::specs::Purchase::is_sold_out_there))]
pub fn is_sold_out_there(view: &GameView, purchase: Purchase) -> bool
    ensures { result ≡ is_sold_out_there view.now.events purchase }
{
    match purchase {
        Purchase::Par { .. } => false,
        Purchase::Share { company, from } => {
            view.shares(company, Shareholder::of_source(from)) < 1
        }
    }
}

/// Returns whether the sum that is to be the par value is none of the six.
fn is_no_par(purchase: Purchase) -> bool
    ensures { result ≡ is_no_par purchase }
{
    match purchase {
        Purchase::Par { price, .. } => par_square(price).is_none(),
        Purchase::Share { .. } => false,
    }
}

/// Returns whether the purchase starts a company that has started, or buys a share of one that has
/// not.
pub fn is_wrong_start(view: &GameView, purchase: Purchase) -> bool
    ensures { result ≡ is_wrong_start view.now.events purchase }
{
    match purchase {
        Purchase::Par { company, .. } => view.is_started(company),
        Purchase::Share { company, .. } => !view.is_started(company),
    }
}

/// Returns whether a purchase costs more than a seat's cash minus its bids.
#[tactic(auto, unfolding(certs::specs::Purchase::is_short_of_cash))]
pub fn is_short(view: &GameView, seat: Seat, purchase: Purchase) -> bool
    ensures { result ≡ is_short_of_cash view.now.seats view.now.events seat
        (cost_of view.now.events purchase) }
{
    view.free_cash(seat) < purchase_cost(view, purchase)
}

/// Returns whether a certificate of a company would count though the seat has reached the limit.
#[tactic(auto, unfolding(certs::specs::Purchase::is_at_limit))]
pub(crate) fn is_at_limit(view: &GameView, seat: Seat, company: Company) -> bool
    ensures { result ≡ is_at_limit view.now.seats view.now.events seat company }
{
    counts_on(view.square(company))
        && counted_now(view, seat) >= certificate_limit(view.seats()) as ShareCount
}

/// Returns whether certificates of a company on this square count.
pub(crate) fn counts_on(square: Option<Square>) -> bool
    ensures { result ≡ counts_on square }
{
    match square {
        Some(square) => matches!(zone(square), Zone::White),
        None => true,
    }
}
