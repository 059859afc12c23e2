//! The companies that would be left without a train, and what each would have to pay.
ghost use Rattle.std.specs.Prelude.{◌≡◌, ◌≤◌, ◌<◌, ◌+◌, ◌++◌, ◌^◌, ◌-ℤ◌, ◌≤ℤ◌, length, neg_ℤ, pos};
ghost use Rattle.desk_dues.specs.Dangers.{company_left_without, danger_for, danger_to, dangers_of};
ghost use Rattle.desk_dues.specs.Dangers.{has_no_other, is_beyond, lacking_for};
ghost use Rattle.desk_dues.specs.Raised.{raised_at_most_by};
ghost use Rattle.std.specs.List.{flat_map};
ghost use Rattle.tables.specs.Roster.{companies};

use crate::fall::{Fall, next_fall};
use crate::raised::raised_at_most;
use crate::then::{cheapest_then, least_then};
use arrayvec::ArrayVec;
use forced_purchase::Operator;
use history::{History, Party, TrainCount};
use tables::{Amount, COMPANIES, Company, Kind, Money, Seat, train};

/// A company that would be left without a train, and what it would have to pay for another. The
/// sums are in dollars.
#[derive(Clone, Copy, Debug, PartialEq, Eq, Default)]
pub struct Danger {
    pub company: Company,
    /// Its president, who pays what it lacks.
    pub president: Seat,
    /// The kind of all its trains.
    pub kind: Kind,
    /// How many trains it has.
    pub trains: TrainCount,
    /// The kind whose first train rusts them.
    pub falls_with: Kind,
    /// The train that it would have to buy then, the cheapest that the bank or the pool sells.
    pub buys: Kind,
    /// Whether it buys that train from the pool.
    pub pooled: bool,
    /// What that train costs.
    pub price: Amount,
    /// What the company has.
    pub cash: Money,
    /// What the company lacks for it; 0 or less if it has enough.
    pub lacking: Money,
    /// What the president has, without the cash that standing bids tie up.
    pub presidents_cash: Money,
    /// What the president can raise at most, by one sale of the shares of each company.
    pub raised: Money,
    /// Whether the president's cash and what they can raise are less than the company lacks.
    pub bankrupt: bool,
}

/// Returns the companies that the next kind that takes trains from companies would leave without
/// one, in roster order.
pub fn dangers(history: &History) -> ArrayVec<Danger, COMPANIES>
    ensures { result.items ≡ dangers_of history.now }
{
    match next_fall(history) {
        Some(fall) => dangers_with(history, fall),
        None => ArrayVec::new(),
    }
}

/// Returns the companies that a fall would leave without a train.
fn dangers_with(history: &History, fall: Fall) -> ArrayVec<Danger, COMPANIES>
    ensures { result.items ≡ flat_map (danger_to history.now fall) companies }
{
    let mut dangers = ArrayVec::new();
    for company in &Company::ALL {
        put_danger(history, fall, *company, &mut dangers);
    }
    dangers
}

/// Adds the danger to a company, if it would be left without a train.
#[tactic(auto, unfolding(crate::specs::Dangers::danger_to))]
fn put_danger(
    history: &History,
    fall: Fall,
    company: Company,
    dangers: &mut ArrayVec<Danger, COMPANIES>,
)
    requires { length dangers.old.items < 8 }
    ensures put { dangers.new.items
        ≡ dangers.old.items ++ danger_to history.now fall company }
    ensures longer { length dangers.new.items ≤ length dangers.old.items + 1 }
{
    if is_left_without(history, fall.kind, company)
        && let Some(president) = history.now().president(company)
    {
        dangers.push(danger_for(
            history,
            fall,
            Operator { company, president },
            cheapest_then(history, fall.falls_with),
        ));
    }
}

/// Returns whether a company has trains of a kind, and no others.
fn is_left_without(history: &History, kind: Kind, company: Company) -> bool
    ensures { result ≡ company_left_without history.now.events kind company }
{
    history.trains(Some(company), kind) > 0 && has_no_other(history, kind, company)
}

/// Returns whether a company has no train of another kind.
fn has_no_other(history: &History, kind: Kind, company: Company) -> bool
    ensures { result ≡ has_no_other history.now.events kind company }
{
    history.now().train_count(Some(company)) <= history.trains(Some(company), kind)
}

/// Returns what a company would have to pay for a train of the kind that it buys then.
fn danger_for(history: &History, fall: Fall, by: Operator, buys: Kind) -> Danger
    ensures { result ≡ danger_for history.now fall by buys }
{
    Danger {
        company: by.company,
        president: by.president,
        kind: fall.kind,
        trains: history.trains(Some(by.company), fall.kind),
        falls_with: fall.falls_with,
        buys,
        pooled: buys != least_then(history, fall.falls_with),
        price: train(buys).price,
        cash: history.cash(Party::of_company(by.company)),
        lacking: lacking_for(history, by.company, buys),
        presidents_cash: history.now().free_cash(by.president),
        raised: Money::from(raised_at_most(history, by)),
        bankrupt: is_beyond(history, by, buys),
    }
}

/// Returns what a company lacks for a train of a kind, in dollars; 0 or less if it has enough.
fn lacking_for(history: &History, company: Company, kind: Kind) -> Money
    ensures value { result ≡ lacking_for history.now company kind }
    ensures not_under { neg_ℤ (pos (2 ^ 101)) ≤ℤ result }
    ensures not_over { result ≤ℤ pos (2 ^ 101) }
{
    Money::from(train(kind).price) - history.cash(Party::of_company(company))
}

/// Returns whether a president's cash is less than what the company lacks beyond what they can
/// raise.
fn is_beyond(history: &History, by: Operator, kind: Kind) -> bool
    ensures { result ≡ is_beyond history.now by kind }
{
    let beyond = beyond_raised(history, by, kind);
    history.now().free_cash(by.president) < beyond
}

/// Returns what a company lacks for a train of a kind beyond what its president can raise, in
/// dollars; 0 or less if that is enough.
fn beyond_raised(history: &History, by: Operator, kind: Kind) -> Money
    ensures { result ≡ lacking_for history.now by.company kind -ℤ pos (raised_at_most_by history.now by) }
{
    lacking_for(history, by.company, kind) - Money::from(raised_at_most(history, by))
}
