//! Which rules of a company's purchases are broken whatever the other players order.
ghost use Rattle.std.specs.Prelude.{◌≡◌, Some};
ghost use Rattle.desk_mending.specs.CompanyStays.{asks_nothing, is_from_itself, is_no_players, lasting_trains};
ghost use Rattle.desk_mending.specs.CompanyStays.{private_stays, stays_full, stays_poor, stays_unsold};
ghost use Rattle.desk_mending.specs.CompanyStays.{trade_stays_wrong, train_stays};
ghost use Rattle.purchases.specs.Train.{is_left};
ghost use Rattle.totals.specs.LookBack.{IsModerate};
ghost use Rattle.totals.specs.Trains.{trains_held};

use crate::written::{Written, any_buys_kind, any_parts_of};
use desk_rules::{cost_of_train, private_costs_too_much, traded_count, train_costs_too_much};
use history::{GameView, Holder, PrivateRule, TrainRule, TrainSeller};
use purchases::{TrainPurchase, has_trains, may_be_traded};
use tables::{Amount, Company, Kind, Money, Private, limit, train};

/// Returns whether the purchase of a train by a company breaks a rule whatever others do, given the
/// game as the round begins.
pub(crate) fn train_stays(
    start: &GameView,
    written: &Written,
    company: Company,
    purchase: TrainPurchase,
    rule: TrainRule,
) -> bool
    ensures { result ≡ train_stays start.now written.now.sheet.now company purchase rule }
{
    let (kind, from, trade_in) = (purchase.kind, purchase.from, purchase.trade_in);
    match rule {
        TrainRule::NotOnSale => stays_unsold(start, from, kind),
        TrainRule::TrainLimit => stays_full(start, written, company, trade_in),
        TrainRule::CashTooSmall => {
            stays_poor(start, company) && train_costs_too_much(start, company, purchase)
        }
        TrainRule::NoConsent => asks_nothing(from, purchase),
        TrainRule::NotSellers => is_from_itself(company, from),
        TrainRule::NoTradeIn => trade_stays_wrong(start, written, company, kind, trade_in),
        TrainRule::NoDiscard => false,
    }
}

/// Returns whether the bank has sold the last train of a kind that is bought from it.
fn stays_unsold(start: &GameView, from: TrainSeller, kind: Kind) -> bool
    ensures { result ≡ stays_unsold start.now.events from kind }
{
    match from {
        TrainSeller::Bank => !is_left(start, kind),
        TrainSeller::BankPool | TrainSeller::Company(_) => false,
    }
}

/// Returns whether the bank has trains of a kind left.
fn is_left(start: &GameView, kind: Kind) -> bool
    ensures { result ≡ is_left start.now.events kind }
{
    match train(kind).number {
        None => true,
        Some(number) => start.trains_sold(kind) < usize::from(number),
    }
}

/// Returns the trains of a company that never rust.
fn lasting_trains(start: &GameView, company: Company) -> Money
    ensures { result ≡ lasting_trains start.now.events company }
{
    count_of(start, company, Kind::Five)
        + count_of(start, company, Kind::Six)
        + count_of(start, company, Kind::Diesel)
}

/// Returns the trains of a kind that a company has.
fn count_of(start: &GameView, company: Company, kind: Kind) -> Money
    ensures count { result ≡ trains_held start.now.events (Some company) kind }
    ensures within { IsModerate result }
{
    Money::from(start.trains(Some(company), kind))
}

/// Returns whether a company stays at the train limit.
fn stays_full(start: &GameView, written: &Written, company: Company, trade_in: Option<Kind>) -> bool
    ensures { result ≡ stays_full start.now.events written.now.sheet.now company trade_in }
{
    let most = limit(start.phase()) + traded_count(trade_in);
    lasting_trains(start, company) >= most as Money && !any_parts_of(company, written.sheet)
}

/// Returns whether nothing brings a company cash before it buys.
fn stays_poor(start: &GameView, company: Company) -> bool
    ensures { result ≡ stays_poor start.now.events company }
{
    !has_trains(start, company)
}

/// Returns whether a purchase from another company names a price of 0.
fn asks_nothing(from: TrainSeller, purchase: TrainPurchase) -> bool
    ensures { result ≡ asks_nothing from purchase }
{
    match from {
        TrainSeller::Company(_) => cost_of_train(purchase) == 0,
        TrainSeller::Bank | TrainSeller::BankPool => false,
    }
}

/// Returns whether a company buys from itself.
fn is_from_itself(company: Company, from: TrainSeller) -> bool
    ensures { result ≡ is_from_itself company from }
{
    match from {
        TrainSeller::Company(its) => company == its,
        TrainSeller::Bank | TrainSeller::BankPool => false,
    }
}

/// Returns whether the trade-in of a purchase stays wrong.
fn trade_stays_wrong(
    start: &GameView,
    written: &Written,
    company: Company,
    kind: Kind,
    trade_in: Option<Kind>,
) -> bool
    ensures { result
        ≡ trade_stays_wrong start.now.events written.now.sheet.now company kind trade_in }
{
    let Some(old) = trade_in else {
        return false;
    };
    !(kind == Kind::Diesel && may_be_traded(old))
        || (start.trains(Some(company), old) <= 0 && !any_buys_kind(old, written.sheet))
}

/// Returns whether the purchase of a private by a company breaks a rule whatever others do.
pub(crate) fn private_stays(
    start: &GameView,
    company: Company,
    private: Private,
    price: Amount,
    rule: PrivateRule,
) -> bool
    ensures { result ≡ private_stays start.now company private price rule }
{
    match rule {
        PrivateRule::TooEarly => false,
        PrivateRule::WrongPrice | PrivateRule::NeverSold => true,
        PrivateRule::NoConsent => is_no_players(start.owner(private)),
        PrivateRule::CashTooSmall => {
            stays_poor(start, company) && private_costs_too_much(start, company, price)
        }
    }
}

/// Returns whether this owner of a private is no player.
fn is_no_players(owner: Option<Holder>) -> bool
    ensures { result ≡ is_no_players owner }
{
    !matches!(owner, Some(Holder::Seat(_)))
}
