//! The sale of a private, with what comes with it, and the sales of other privates that follow.
ghost use Rattle.std.specs.Prelude.{◌≡◌, ◌≤◌, ◌<◌, OnOk, Some, length, map, pos};
ghost use Rattle.std.specs.Int.RustNames.{unsigned_abs};
ghost use Rattle.events.specs.declared.event.Event.TheVariants as event;
ghost use Rattle.totals.specs.Bids.{bids_on};
ghost use Rattle.totals.specs.LookBack.{cheapest_of, with_event, with_events};
ghost use Rattle.privates.specs.Bank.{MayPay};
ghost use Rattle.privates.specs.Sale.{after_private_sale, bidder_of, settle_auctions, settled, settled_by};
ghost use Rattle.tables.specs.declared.roster.Private.TheVariants.{BaltimoreOhio, CamdenAmboy};
ghost use Rattle.privates.specs.Underway.{IsUnderway};

use crate::bidding::auction;
use crate::limit::auction_limit;
use crate::par_of_bo::par_set_by;
use arrayvec::ArrayVec;
use history::{Bid, Event, GameView, History};
use std::alloc::AllocError;
use tables::{Amount, Company, Money, PLAYERS_MOST, PRESIDENT_SHARES, Private, Seat};

/// Sells an unsold private, with what comes with it, to a seat that has the price.
pub(crate) fn sell(
    history: &mut History,
    private: Private,
    buyer: Seat,
    price: Amount,
) -> Result<(), AllocError>
    requires small { price ≤ 1000000 }
    requires at_table { buyer.0 < history.old.seats }
    requires may { MayPay history.old.seats history.old.events buyer private price }
    requires underway { IsUnderway history.old }
    ensures after { OnOk result (history.new
        ≡ with_events history.old (after_private_sale history.old.events private buyer price)) }
    ensures underway { OnOk result (IsUnderway history.new) }
{
    match private {
        Private::CamdenAmboy => sell_camden(history, buyer, price),
        Private::BaltimoreOhio => sell_baltimore(history, buyer, price),
        Private::SchuylkillValley
        | Private::ChamplainStLawrence
        | Private::DelawareHudson
        | Private::MohawkHudson => sell_alone(history, private, buyer, price),
    }
}

/// Sells a private that comes with nothing else.
fn sell_alone(
    history: &mut History,
    private: Private,
    buyer: Seat,
    price: Amount,
) -> Result<(), AllocError>
    requires small { price ≤ 1000000 }
    requires at_table { buyer.0 < history.old.seats }
    requires may { MayPay history.old.seats history.old.events buyer private price }
    requires underway { IsUnderway history.old }
    ensures event { OnOk result (history.new
        ≡ with_event history.old (event.Sold private buyer price)) }
    ensures underway { OnOk result (IsUnderway history.new) }
{
    history.append(Event::Sold {
        private,
        seat: buyer,
        price,
    })?;
    Ok(())
}

/// Sells CA, with a share of PRR.
fn sell_camden(history: &mut History, buyer: Seat, price: Amount) -> Result<(), AllocError>
    requires small { price ≤ 1000000 }
    requires at_table { buyer.0 < history.old.seats }
    requires may { MayPay history.old.seats history.old.events buyer CamdenAmboy price }
    requires underway { IsUnderway history.old }
    ensures after { OnOk result (history.new ≡ with_events history.old
        (after_private_sale history.old.events CamdenAmboy buyer price)) }
    ensures underway { OnOk result (IsUnderway history.new) }
{
    history.append(Event::Sold {
        private: Private::CamdenAmboy,
        seat: buyer,
        price,
    })?;
    history.append(Event::Given {
        company: Company::Pennsylvania,
        seat: buyer,
        shares: 1,
    })?;
    Ok(())
}

/// Sells BOP; its buyer sets the par value of BO, and becomes its president.
fn sell_baltimore(history: &mut History, buyer: Seat, price: Amount) -> Result<(), AllocError>
    requires small { price ≤ 1000000 }
    requires at_table { buyer.0 < history.old.seats }
    requires may { MayPay history.old.seats history.old.events buyer BaltimoreOhio price }
    requires underway { IsUnderway history.old }
    ensures after { OnOk result (history.new ≡ with_events history.old
        (after_private_sale history.old.events BaltimoreOhio buyer price)) }
    ensures underway { OnOk result (IsUnderway history.new) }
{
    let company = Company::BaltimoreOhio;
    let par = par_set_by(&history.now(), buyer);
    history.append(Event::Sold {
        private: Private::BaltimoreOhio,
        seat: buyer,
        price,
    })?;
    history.append(Event::Par {
        company,
        price: par,
    })?;
    history.append(Event::Given {
        company,
        seat: buyer,
        shares: PRESIDENT_SHARES,
    })?;
    history.append(Event::President {
        company,
        seat: buyer,
    })?;
    Ok(())
}

/// Makes the sales that follow from a sale: as long as there are bids on the cheapest private,
/// sells it.
pub(crate) fn settle_all(history: &mut History) -> Result<(), AllocError>
    requires underway { IsUnderway history.old }
    ensures after { OnOk result (history.new
        ≡ with_events history.old (settled history.old.seats history.old.events)) }
    ensures underway { OnOk result (IsUnderway history.new) }
{
    for _private in &Private::ALL {
        settle(history)?;
    }
    Ok(())
}

/// Sells the cheapest private, if there are bids on it.
fn settle(history: &mut History) -> Result<(), AllocError>
    requires underway { IsUnderway history.old }
    ensures after { OnOk result (history.new
        ≡ with_events history.old (settle_auctions history.old.seats history.old.events)) }
    ensures underway { OnOk result (IsUnderway history.new) }
{
    match history.now().cheapest_unsold() {
        Some(private) => settle_bids(history, private),
        None => Ok(()),
    }
}

/// Sells this private, the cheapest one, if there are bids on it.
fn settle_bids(history: &mut History, private: Private) -> Result<(), AllocError>
    requires cheapest { cheapest_of history.old.events ≡ Some private }
    requires underway { IsUnderway history.old }
    ensures after { OnOk result (history.new ≡ with_events history.old
        (settled_by history.old.seats history.old.events private
        (bids_on history.old.seats history.old.events private))) }
    ensures underway { OnOk result (IsUnderway history.new) }
{
    let bids = history.now().bids_on(private);
    match bids.as_slice() {
        [] => Ok(()),
        [bid] => sell(history, private, bid.seat, bid.amount),
        bids => sell_by_auction(history, private, bids),
    }
}

/// Sells the cheapest private to the winner of an auction among those who bid on it.
fn sell_by_auction(history: &mut History, private: Private, bids: &[Bid]) -> Result<(), AllocError>
    requires two { 2 ≤ length bids.now }
    requires cheapest { cheapest_of history.old.events ≡ Some private }
    requires bids { bids.now ≡ bids_on history.old.seats history.old.events private }
    requires underway { IsUnderway history.old }
    ensures after { OnOk result (history.new ≡ with_events history.old
        (settled_by history.old.seats history.old.events private bids.now)) }
    ensures underway { OnOk result (IsUnderway history.new) }
{
    let bidders = bidders_of(&history.now(), private, bids);
    let won = auction(bidders.as_slice());
    sell(history, private, won.0, price_paid(won))
}

/// Returns what the winner of an auction pays, in dollars, at most 99,999.
fn price_paid(won: (Seat, Money)) -> Amount
    requires sum { pos (unsigned_abs won.1) ≡ won.1 }
    requires small { unsigned_abs won.1 ≤ 99999 }
    ensures { result ≡ unsigned_abs won.1 }
{
    won.1 as Amount
}

/// Returns those who bid on a private, each with a bid and a limit.
fn bidders_of(
    view: &GameView,
    private: Private,
    bids: &[Bid],
) -> ArrayVec<(Seat, Money, Money), PLAYERS_MOST>
    requires { length bids.now ≤ 6 }
    ensures { result.items ≡ map (bidder_of view.now.seats view.now.events private)
        bids.now }
{
    let mut bidders = ArrayVec::new();
    for bid in bids {
        bidders.push(bidder_of(view, private, *bid));
    }
    bidders
}

/// Returns a bidder with a bid and a limit.
fn bidder_of(view: &GameView, private: Private, bid: Bid) -> (Seat, Money, Money)
    ensures { result ≡ bidder_of view.now.seats view.now.events private bid }
{
    let limit = auction_limit(view, private, bid);
    (bid.seat, Money::from(bid.amount), limit)
}
