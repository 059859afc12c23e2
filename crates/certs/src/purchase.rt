//! The rules by which a player buys a share or a president's certificate, and what it costs.
ghost use Rattle.std.specs.Prelude.{◌≡◌, ◌≤◌, ◌+ℤ◌, pos, unwrap_or};
ghost use Rattle.std.specs.Int.Signed.{le_z};
ghost use Rattle.certs.specs.Counted.{counted_of};
ghost use Rattle.certs.specs.Purchase.{allowed, allows_several, cost_of, holds_in_zone, is_at_limit, is_sold_out_there};
ghost use Rattle.certs.specs.Purchase.{is_no_par, is_over_six, is_second, is_short_of_cash, is_wrong_start, lifts_six};
ghost use Rattle.certs.specs.Purchase.{market_price_of, purchase_judgement, share_price_of};
ghost use Rattle.events.specs.declared.event.Shareholder.TheVariants.{Seat as OfSeat};
ghost use Rattle.totals.specs.Shares.{par_of, shares_of, square_of};
ghost use Rattle.tables.specs.Chart.{price_most};
ghost use Rattle.tables.specs.Roster.{certificate_limit_of};

use crate::counted_certificates::{counted_now, counts_on};
use crate::share_deal::Purchase;
use history::{GameView, History, ShareCount, Shareholder, StockRule};
use order_grammar::ShareSource;
use tables::{
    Amount, Company, Money, PRESIDENT_SHARES, Seat, Zone, certificate_limit, par_square, price,
    rules, zone,
};

/// The most shares of a company that a seat may hold, unless a zone lifts the limit.
const SHARES_MOST: ShareCount = 6;

/// Checks whether a seat may buy, given the company, if any, whose share it has bought in this
/// turn. The error is the first of the rules S6 to S13 that the purchase breaks.
pub fn may_buy(
    history: &History,
    seat: Seat,
    purchase: Purchase,
    bought: Option<Company>,
) -> Result<(), StockRule>
    ensures { result ≡ allowed
        (purchase_judgement history.now.seats history.now.events seat purchase bought) }
{
    match judge_purchase(&history.now(), seat, purchase, bought) {
        Some(rule) => Err(rule),
        None => Ok(()),
    }
}

/// Returns the first rule that a purchase breaks.
#[tactic(auto, unfolding(crate::specs::Purchase::purchase_judgement))]
fn judge_purchase(
    now: &GameView,
    seat: Seat,
    purchase: Purchase,
    bought: Option<Company>,
) -> Option<StockRule>
    ensures { result
        ≡ purchase_judgement now.now.seats now.now.events seat purchase bought }
{
    let company = purchase.company();
    rules! { StockRule
        SoldInRound: now.has_sold_in_round(company, seat),
        NoneThere: is_sold_out_there(now, purchase),
        NoParValue: is_no_par(purchase),
        WrongStart: is_wrong_start(now, purchase),
        CashTooSmall: is_short(now, seat, purchase),
        CertificateLimit: is_at_limit(now, seat, company),
        OverSixShares: is_over_six(now, seat, company, purchase.shares()),
        BoughtBefore: is_second(now, company, bought),
    }
}

/// Returns whether no share is left where one is to be bought.
#[tactic(auto, unfolding(crate::specs::Purchase::is_sold_out_there))]
fn is_sold_out_there(now: &GameView, purchase: Purchase) -> bool
    ensures { result ≡ is_sold_out_there now.now.events purchase }
{
    match purchase {
        Purchase::Par { .. } => false,
        Purchase::Share { company, from } => {
            now.shares(company, Shareholder::of_source(from)) < 1
        }
    }
}

/// Returns whether the par value asked for is not one of the six.
fn is_no_par(purchase: Purchase) -> bool
    ensures { result ≡ is_no_par purchase }
{
    match purchase {
        Purchase::Par { price, .. } => par_square(price).is_none(),
        Purchase::Share { .. } => false,
    }
}

/// Returns whether the purchase sets a par value for a company that has started, or buys a share of
/// one that has not.
fn is_wrong_start(now: &GameView, purchase: Purchase) -> bool
    ensures { result ≡ is_wrong_start now.now.events purchase }
{
    match purchase {
        Purchase::Par { company, .. } => now.is_started(company),
        Purchase::Share { company, .. } => !now.is_started(company),
    }
}

/// Returns what a purchase costs, in dollars: the president's certificate twice the par value.
pub fn purchase_cost(now: &GameView, purchase: Purchase) -> Money
    ensures { result ≡ pos (cost_of now.now.events purchase) }
{
    match purchase {
        Purchase::Par { price, .. } => Money::from(PRESIDENT_SHARES) * Money::from(price),
        Purchase::Share { company, from } => share_price(now, company, from),
    }
}

/// Returns what a share of a company costs, in dollars: the par value in the initial offering, the
/// market price in the pool.
pub fn share_price(now: &GameView, company: Company, from: ShareSource) -> Money
    ensures price { result ≡ pos (share_price_of now.now.events company from) }
    ensures small { unwrap_or (par_of now.now.events company) 0 ≤ price_most →
        share_price_of now.now.events company from ≤ price_most }
{
    match from {
        ShareSource::InitialOffering => now.par(company).unwrap_or(0),
        ShareSource::BankPool => Money::from(market_price(now, company)),
    }
}

/// Returns the market price of a company, in dollars, which is that of its square; 0 if it has
/// none.
pub fn market_price(now: &GameView, company: Company) -> Amount
    ensures price { result ≡ market_price_of now.now.events company }
    ensures small { result ≤ price_most }
{
    match now.square(company) {
        Some(square) => price(square),
        None => 0,
    }
}

/// Returns whether a purchase costs more than a seat's cash minus its bids.
#[tactic(auto, unfolding(crate::specs::Purchase::is_short_of_cash))]
fn is_short(now: &GameView, seat: Seat, purchase: Purchase) -> bool
    ensures { result ≡ is_short_of_cash now.now.seats now.now.events seat
        (cost_of now.now.events purchase) }
{
    now.free_cash(seat) < purchase_cost(now, purchase)
}

/// Returns whether a certificate of a company would count though the seat has reached the limit.
#[tactic(auto, unfolding(crate::specs::Purchase::is_at_limit))]
fn is_at_limit(now: &GameView, seat: Seat, company: Company) -> bool
    ensures { result ≡ is_at_limit now.now.seats now.now.events seat company }
{
    counts_on(now.square(company)) && has_full_hand(now, seat)
}

/// Returns whether as many of a seat's certificates count as the limit allows.
fn has_full_hand(now: &GameView, seat: Seat) -> bool
    ensures { result ≡ le_z (pos (certificate_limit_of now.now.seats))
        (counted_of now.now.events seat) }
{
    counted_now(now, seat) >= certificate_limit(now.seats()) as ShareCount
}

/// Returns whether with this many more shares a seat would have more than six of a company, and the
/// zone of the company's square does not lift that limit.
#[tactic(auto, unfolding(crate::specs::Purchase::is_over_six))]
pub fn is_over_six(now: &GameView, seat: Seat, company: Company, shares: u8) -> bool
    ensures { result ≡ is_over_six now.now.events seat company shares }
{
    !lifts_six(now, company) && would_have(now, seat, company, shares) > SHARES_MOST
}

/// Returns whether the zone of a company's square lifts the limit of six shares.
fn lifts_six(now: &GameView, company: Company) -> bool
    ensures { result ≡ holds_in_zone lifts_six (square_of now.now.events company) }
{
    match now.square(company) {
        Some(square) => matches!(zone(square), Zone::Orange | Zone::Brown),
        None => false,
    }
}

/// Returns what a seat would have of a company with this many more shares.
fn would_have(now: &GameView, seat: Seat, company: Company, shares: u8) -> ShareCount
    ensures { result ≡ shares_of now.now.events company (OfSeat seat) +ℤ pos shares }
{
    now.shares(company, Shareholder::Seat(seat)) + ShareCount::from(shares)
}

/// Returns whether a seat has bought already in its turn, and may not buy a second time.
#[tactic(auto, unfolding(crate::specs::Purchase::is_second))]
fn is_second(now: &GameView, company: Company, bought: Option<Company>) -> bool
    ensures { result ≡ is_second now.now.events company bought }
{
    match bought {
        Some(bought) => company != bought || !allows_several(now, company),
        None => false,
    }
}

/// Returns whether several certificates of a company may be bought in a turn.
fn allows_several(now: &GameView, company: Company) -> bool
    ensures { result ≡ holds_in_zone allows_several (square_of now.now.events company) }
{
    match now.square(company) {
        Some(square) => zone(square) == Zone::Brown,
        None => false,
    }
}
