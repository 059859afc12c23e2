//! The end of an opening round with a private still unsold: the price of SV falls, or, if SV is
//! sold, each sold private pays its revenue.
ghost use Rattle.std.specs.Prelude.{◌≡◌, ◌≢◌, ◌<◌, ◌-◌, OnOk, false};
ghost use Rattle.events.specs.declared.event.Event.TheVariants as event;
ghost use Rattle.totals.specs.LookBack.{is_sold, priority_of, sv_price_of, with_event, with_events};
ghost use Rattle.history.specs.Record.{revenues_recorded};
ghost use Rattle.privates.specs.Closing.{after_fall, given_away, opening_round_closed};
ghost use Rattle.privates.specs.Underway.{IsUnderway};
ghost use Rattle.tables.specs.declared.roster.Private.TheVariants.{SchuylkillValley};

use crate::sale::settle_all;
use history::{Event, History};
use std::alloc::AllocError;
use tables::{Amount, Private, Seat};

/// How much SV's price falls, in dollars, when all pass before it is sold.
const FALL: u32 = 5;

/// Ends the round: unless all privates are sold, SV's price falls, or each sold private pays.
pub(crate) fn close(history: &mut History) -> Result<(), AllocError>
    requires some { 0 < history.old.seats }
    requires underway { IsUnderway history.old }
    ensures after { OnOk result (history.new ≡ with_events history.old
        (opening_round_closed history.old.seats history.old.events)) }
    ensures underway { OnOk result (IsUnderway history.new) }
{
    let owners = history.now().owners();
    if owners.cheapest_unsold().is_none() {
        return Ok(());
    }
    if owners.is_sold(Private::SchuylkillValley) {
        pay_revenues(history)
    } else {
        lower_price(history)
    }
}

/// Lowers the price of SV, which is unsold; at 0 SV goes to the holder of priority for nothing.
fn lower_price(history: &mut History) -> Result<(), AllocError>
    requires some { 0 < history.old.seats }
    requires unsold { is_sold history.old.events SchuylkillValley ≡ false }
    requires underway { IsUnderway history.old }
    ensures after { OnOk result (history.new ≡ with_events history.old
        (after_fall history.old.seats history.old.events (sv_price_of history.old.events - 5)
        (priority_of history.old.seats history.old.events))) }
    ensures underway { OnOk result (IsUnderway history.new) }
{
    let price = history.now().sv_price().saturating_sub(FALL);
    if price == 0 {
        let holder = history.now().priority();
        give_away(history, holder)?;
        return settle_all(history);
    }
    set_price(history, price)
}

/// Records that SV's price falls to a positive sum.
fn set_price(history: &mut History, price: Amount) -> Result<(), AllocError>
    requires fallen { price ≡ sv_price_of history.old.events - 5 }
    requires some { price ≢ 0 }
    requires underway { IsUnderway history.old }
    ensures event { OnOk result (history.new ≡ with_event history.old (event.Price price)) }
    ensures underway { OnOk result (IsUnderway history.new) }
{
    history.append(Event::Price { price })?;
    Ok(())
}

/// Records that SV's price falls to 0, and that SV goes to a seat at the table for nothing.
fn give_away(history: &mut History, seat: Seat) -> Result<(), AllocError>
    requires unsold { is_sold history.old.events SchuylkillValley ≡ false }
    requires at_table { seat.0 < history.old.seats }
    requires underway { IsUnderway history.old }
    ensures after { OnOk result (history.new
        ≡ with_events history.old (given_away history.old.events seat)) }
    ensures underway { OnOk result (IsUnderway history.new) }
{
    history.append(Event::Price { price: 0 })?;
    history.append(Event::Sold {
        private: Private::SchuylkillValley,
        seat,
        price: 0,
    })?;
    Ok(())
}

/// Pays the revenue of each sold private to its owner, in roster order.
fn pay_revenues(history: &mut History) -> Result<(), AllocError>
    requires { IsUnderway history.old }
    ensures game { OnOk result (history.new ≡ revenues_recorded history.old) }
    ensures underway { OnOk result (IsUnderway history.new) }
{
    history.record_revenues()?;
    Ok(())
}
