//! The rules by which a player sells shares, in a stock round or to pay for a train.
ghost use Rattle.std.specs.Prelude.{◌≡◌, ◌^◌, ◌≤ℤ◌, ◌+ℤ◌, pos};
ghost use Rattle.certs.specs.Purchase.{allowed};
ghost use Rattle.certs.specs.Sale.{another_has, is_first_stock, is_not_held, is_over_five, kept_after, none_is_left};
ghost use Rattle.certs.specs.Sale.{moves_operating, must_stay, sale_judgement};
ghost use Rattle.events.specs.declared.event.Shareholder.TheVariants.{BankPool};
ghost use Rattle.totals.specs.LookBack.{round_of};
ghost use Rattle.totals.specs.Shares.{shares_of};

use crate::share_deal::Sale;
use history::{GameView, History, ShareCount, Shareholder, StockRule};
use tables::{Company, POOL_SHARES_MOST, PRESIDENT_SHARES, Round, Seat, rules};

/// Checks whether a seat may sell. A sale to pay for a train names the operating company. The error
/// is the first of the rules S2 to S5 and S9 that the sale breaks.
pub fn may_sell(
    history: &History,
    seat: Seat,
    sale: Sale,
    operating: Option<Company>,
) -> Result<(), StockRule>
    ensures { result ≡ allowed
        (sale_judgement history.now.seats history.now.events seat sale operating) }
{
    match judge_sale(&history.now(), seat, sale, operating) {
        Some(rule) => Err(rule),
        None => Ok(()),
    }
}

/// Returns the first rule that a sale breaks.
#[tactic(auto, unfolding(crate::specs::Sale::sale_judgement))]
fn judge_sale(
    now: &GameView,
    seat: Seat,
    sale: Sale,
    operating: Option<Company>,
) -> Option<StockRule>
    ensures { result ≡ sale_judgement now.now.seats now.now.events seat sale operating }
{
    rules! { StockRule
        SaleInFirstRound: is_first_stock(now),
        NotHeld: is_not_held(now, seat, sale),
        PoolFull: is_over_five(now, sale),
        PresidentMustStay: must_stay(now, seat, sale, operating),
        WrongStart: !now.is_started(sale.company),
    }
}

/// Returns whether the round is the first stock round.
fn is_first_stock(now: &GameView) -> bool
    ensures { result ≡ is_first_stock (round_of now.now.events) }
{
    matches!(now.round(), Some(Round::Stock(1)))
}

/// Returns whether the sale is of no shares, or of more than the seat has.
#[tactic(auto, unfolding(crate::specs::Sale::is_not_held))]
fn is_not_held(now: &GameView, seat: Seat, sale: Sale) -> bool
    ensures { result ≡ is_not_held now.now.events seat sale }
{
    sale.shares == 0
        || now.shares(sale.company, Shareholder::Seat(seat)) < ShareCount::from(sale.shares)
}

/// Returns whether the bank pool would hold more than five shares of the company.
#[tactic(auto, unfolding(crate::specs::Sale::is_over_five))]
fn is_over_five(now: &GameView, sale: Sale) -> bool
    ensures { result ≡ is_over_five now.now.events sale }
{
    would_be_pooled(now, sale) > ShareCount::from(POOL_SHARES_MOST)
}

/// Returns what the bank pool would hold of the company.
fn would_be_pooled(now: &GameView, sale: Sale) -> ShareCount
    ensures { result ≡ shares_of now.now.events sale.company BankPool +ℤ pos sale.shares }
{
    now.shares(sale.company, Shareholder::BankPool) + ShareCount::from(sale.shares)
}

/// Returns whether the seat presides over the company, and may not sell this many of its shares.
#[tactic(auto, unfolding(crate::specs::Sale::must_stay))]
fn must_stay(now: &GameView, seat: Seat, sale: Sale, operating: Option<Company>) -> bool
    ensures { result ≡ must_stay now.now.seats now.now.events seat sale operating }
{
    now.president(sale.company) == Some(seat)
        && (none_is_left(now, seat, sale) || moves_operating(now, seat, sale, operating))
}

/// Returns whether the president would keep fewer than two shares, and no other seat has two.
pub fn none_is_left(now: &GameView, seat: Seat, sale: Sale) -> bool
    ensures { result ≡ none_is_left now.now.seats now.now.events seat sale }
{
    let least = ShareCount::from(PRESIDENT_SHARES);
    would_keep(now, seat, sale) < least && !another_has(now, sale.company, seat, least)
}

/// Returns whether the sale is of the operating company, and another seat would have strictly more
/// of it.
fn moves_operating(now: &GameView, seat: Seat, sale: Sale, operating: Option<Company>) -> bool
    ensures { result ≡ moves_operating now.now.seats now.now.events seat sale operating }
{
    match operating {
        Some(company) => company == sale.company && another_has_more(now, seat, sale),
        None => false,
    }
}

/// Returns whether another seat would have strictly more of the company.
fn another_has_more(now: &GameView, seat: Seat, sale: Sale) -> bool
    ensures { result ≡ another_has now.now.seats now.now.events sale.company seat
        (kept_after now.now.events seat sale +ℤ pos 1) }
{
    another_has(now, sale.company, seat, would_keep(now, seat, sale) + 1)
}

/// Returns what the seat would keep of the company.
fn would_keep(now: &GameView, seat: Seat, sale: Sale) -> ShareCount
    ensures kept { result ≡ kept_after now.now.events seat sale }
    ensures not_over { result ≤ℤ pos (2 ^ 100) }
{
    now.shares(sale.company, Shareholder::Seat(seat)) - ShareCount::from(sale.shares)
}

/// Returns whether another seat has at least this many shares of a company.
fn another_has(now: &GameView, company: Company, seat: Seat, least: ShareCount) -> bool
    ensures { result
        ≡ another_has now.now.seats now.now.events company seat least }
{
    let seats = now.seats();
    let mut other = seat;
    for _ in 1..seats {
        other = other.left(seats);
        if now.shares(company, Shareholder::Seat(other)) >= least {
            return true;
        }
    }
    false
}
