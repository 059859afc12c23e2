//! The rules that a sale of shares in a stock round and an exchange of MH break.
ghost use Rattle.std.specs.Prelude.{◌≡◌, ◌+ℤ◌, IfOk, None, pos};
ghost use Rattle.certs.specs.Sale.{is_first_stock, is_not_held, is_over_five, must_stay};
ghost use Rattle.desk_rules.specs.Asked.{exchange_broken, sale_broken};
ghost use Rattle.stock_round.specs.Exchange.{is_no_exchange, is_offered, is_pooled};
ghost use Rattle.totals.specs.LookBack.{is_owner, owner_of, round_of};
ghost use Rattle.tables.specs.declared.roster.Private.TheVariants.{MohawkHudson};

use crate::purchase_rules::of_stock;
use certs::{Sale, is_over_six, none_is_left};
use desk_map_rules::rules_of;
use history::{GameView, Holder, Refusal, ShareCount, Shareholder, StockRule};
use std::alloc::{AllocError, Global};
use tables::{Company, POOL_SHARES_MOST, Private, Round, Seat};

/// How many shares MH is exchanged for.
const EXCHANGE_SHARES: u8 = 1;

/// Returns the rules that a seat breaks by a sale in a stock round. Fails only if allocation fails.
pub(crate) fn sale_broken(
    alloc: Global,
    view: &GameView,
    seat: Seat,
    sale: Sale,
) -> Result<Vec<Refusal>, AllocError>
    ensures { IfOk result (λ rules. rules.items ≡ sale_broken view.now seat sale) }
{
    let is_not_held = is_not_held(view, seat, sale);
    let rows = [
        of_stock(StockRule::SaleInFirstRound, is_first_stock(view)),
        of_stock(StockRule::NotHeld, is_not_held),
        of_stock(StockRule::PoolFull, is_over_five(view, sale)),
        of_stock(
            StockRule::PresidentMustStay,
            !is_not_held && must_stay(view, seat, sale),
        ),
        of_stock(StockRule::WrongStart, !view.is_started(sale.company)),
    ];
    rules_of(alloc, &rows)
}

/// Returns whether the round is the first stock round.
pub fn is_first_stock(view: &GameView) -> bool
    ensures { result ≡ is_first_stock (round_of view.now.events) }
{
    matches!(view.round(), Some(Round::Stock(1)))
}

/// Returns whether the sale is of no shares, or of more than the seat has.
#[tactic(auto, unfolding(certs::specs::Sale::is_not_held))]
pub(crate) fn is_not_held(view: &GameView, seat: Seat, sale: Sale) -> bool
    ensures { result ≡ is_not_held view.now.events seat sale }
{
    sale.shares == 0
        || view.shares(sale.company, Shareholder::Seat(seat)) < ShareCount::from(sale.shares)
}

/// Returns whether the bank pool would hold more than five shares of the company.
#[tactic(auto, unfolding(certs::specs::Sale::is_over_five))]
fn is_over_five(view: &GameView, sale: Sale) -> bool
    ensures { result ≡ is_over_five view.now.events sale }
{
    view.shares(sale.company, Shareholder::BankPool) + ShareCount::from(sale.shares)
        > ShareCount::from(POOL_SHARES_MOST)
}

/// Returns whether the seat presides over the company, and may not sell this many of its shares.
#[tactic(auto, unfolding(certs::specs::Sale::must_stay))]
fn must_stay(view: &GameView, seat: Seat, sale: Sale) -> bool
    ensures { result ≡ must_stay view.now.seats view.now.events seat sale None }
{
    view.president(sale.company) == Some(seat) && none_is_left(view, seat, sale)
}

/// Returns the rule that a seat breaks by an exchange of MH, if it breaks it. Fails only if
/// allocation fails.
pub(crate) fn exchange_broken(
    alloc: Global,
    view: &GameView,
    seat: Seat,
) -> Result<Vec<Refusal>, AllocError>
    ensures { IfOk result (λ rules. rules.items ≡ exchange_broken view.now.events seat) }
{
    rules_of(
        alloc,
        &[of_stock(StockRule::NoExchange, is_no_exchange(view, seat))],
    )
}

/// Returns whether a seat may not exchange MH: it does not own MH, no share of NYC is left, or it
/// would hold more than six.
fn is_no_exchange(view: &GameView, seat: Seat) -> bool
    ensures { result ≡ is_no_exchange view.now.events seat }
{
    let company = Company::NewYorkCentral;
    !owns_mohawk(view, seat)
        || !(is_offered(view) || is_pooled(view))
        || is_over_six(view, seat, company, EXCHANGE_SHARES)
}

/// Returns whether a seat owns MH.
pub fn owns_mohawk(view: &GameView, seat: Seat) -> bool
    ensures { result ≡ is_owner seat (owner_of view.now.events MohawkHudson) }
{
    match view.owner(Private::MohawkHudson) {
        Some(Holder::Seat(owner)) => owner == seat,
        _ => false,
    }
}

/// Returns whether there is a share of NYC in the initial offering.
fn is_offered(view: &GameView) -> bool
    ensures { result ≡ is_offered view.now.events }
{
    view.shares(Company::NewYorkCentral, Shareholder::InitialOffering) > 0
}

/// Returns whether there is one in the bank pool.
fn is_pooled(view: &GameView) -> bool
    ensures { result ≡ is_pooled view.now.events }
{
    view.shares(Company::NewYorkCentral, Shareholder::BankPool) > 0
}
