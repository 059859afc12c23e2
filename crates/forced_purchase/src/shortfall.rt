//! What a company that must buy a train lacks, and whether its president falls short of that.
ghost use Rattle.std.specs.Prelude.{◌≡◌};
ghost use Rattle.forced_purchase.specs.Shortfall.{cheapest, falls_short, first_on_sale, lack_of};
ghost use Rattle.forced_purchase.specs.Shortfall.{purchase_without_trade_in};
ghost use Rattle.purchases.specs.Train.{IsSmallPurchase};

use crate::operator::Operator;
use history::{GameView, History, Party, TrainSeller};
use purchases::{NUMBERED, TrainPurchase, sells};
use tables::{Company, Kind, Money};

/// Returns whether the president's cash, minus bids, is less than the company lacks.
#[tactic(auto, unfolding(crate::specs::Shortfall::falls_short))]
pub fn falls_short(history: &History, by: Operator) -> bool
    ensures { result ≡ falls_short by history.now }
{
    history.now().free_cash(by.president) < lack(history, by.company)
}

/// Returns what a company lacks for the cheapest train that is for sale, in dollars; 0 or less if
/// it has enough.
#[tactic(auto, unfolding(crate::specs::Shortfall::lack_of))]
pub fn lack(history: &History, company: Company) -> Money
    ensures { result ≡ lack_of history.now company }
{
    let cost = cheapest(&history.now()).price();
    Money::from(cost) - history.cash(Party::of_company(company))
}

/// Returns the purchase of the cheapest train that the bank or the pool sells, from the bank if
/// both sell it.
#[tactic(auto, unfolding(crate::specs::Shortfall::cheapest))]
pub fn cheapest(view: &GameView) -> TrainPurchase
    ensures purchase { result ≡ cheapest view.now.events }
    ensures small { IsSmallPurchase result }
{
    first_on_sale(view, &NUMBERED)
}

/// Returns the purchase of the first of these kinds that is for sale; of a D from the bank if none
/// is.
#[tactic(auto, unfolding(crate::specs::Shortfall::first_on_sale))]
fn first_on_sale(view: &GameView, kinds: &[Kind]) -> TrainPurchase
    ensures purchase { result ≡ first_on_sale view.now.events kinds.now }
    ensures small { IsSmallPurchase result }
{
    for kind in kinds {
        if sells(view, *kind) {
            return purchase_without_trade_in(*kind, TrainSeller::Bank);
        }
        if view.trains(None, *kind) > 0 {
            return purchase_without_trade_in(*kind, TrainSeller::BankPool);
        }
    }
    purchase_without_trade_in(Kind::Diesel, TrainSeller::Bank)
}

/// Returns the purchase of a train without a trade-in.
fn purchase_without_trade_in(kind: Kind, from: TrainSeller) -> TrainPurchase
    ensures { result ≡ purchase_without_trade_in kind from }
{
    TrainPurchase {
        kind,
        from,
        trade_in: None,
        asked: None,
    }
}
