//! A purchase: in a turn a seat buys the cheapest unsold private, at the bank's price. What comes
//! with the private follows, and the bids on the next one are settled at once.
ghost use Rattle.std.specs.Prelude.{◌≡◌, ◌<◌, OnOk};
ghost use Rattle.totals.specs.LookBack.{with_events};
ghost use Rattle.privates.specs.Bank.{MayPay, price_of_private};
ghost use Rattle.privates.specs.Buy.{after_private_purchase, private_purchase_rules};
ghost use Rattle.privates.specs.Underway.{IsUnderway};
ghost use Rattle.tables.specs.Rules.{first_broken};

use crate::bank::{is_cheapest, is_short, price_of_private};
use crate::sale::{sell, settle_all};
use history::{GameView, History, OpeningRule};
use std::alloc::AllocError;
use tables::{Private, Seat, rules};

/// Returns the first rule that a purchase breaks.
pub(crate) fn judge_purchase(
    view: &GameView,
    seat: Seat,
    private: Private,
    turn_used: bool,
) -> Option<OpeningRule>
    ensures { result ≡ first_broken
        (private_purchase_rules view.now.seats view.now.events seat turn_used private) }
{
    let owners = view.owners();
    rules! { OpeningRule
        Sold: owners.is_sold(private),
        NotCheapest: !is_cheapest(&owners, private),
        CashTooSmall: is_short(view, seat, private, price_of_private(view, private)),
        TurnUsed: turn_used,
    }
}

/// Buys a private for a seat at the bank's price.
pub(crate) fn buy(history: &mut History, seat: Seat, private: Private) -> Result<(), AllocError>
    requires at_table { seat.0 < history.old.seats }
    requires may { MayPay history.old.seats history.old.events seat private
        (price_of_private history.old.events private) }
    requires underway { IsUnderway history.old }
    ensures after { OnOk result (history.new ≡ with_events history.old
        (after_private_purchase history.old.seats seat history.old.events private)) }
    ensures underway { OnOk result (IsUnderway history.new) }
{
    let price = price_of_private(&history.now(), private);
    sell(history, private, seat, price)?;
    settle_all(history)
}
