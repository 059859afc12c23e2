//! What follows from a sale.
ghost use Rattle.std.specs.Prelude.{◌≡◌, ◌≤◌, ◌<◌, OnOk};
ghost use Rattle.history.specs.Games.{IsGame};
ghost use Rattle.totals.specs.LookBack.{with_events};
ghost use Rattle.certs.specs.SaleAct.{MaySell, after_sale, sold, succeeded, with_president};

use crate::president::successor;
use crate::purchase::market_price;
use crate::share_deal::Sale;
use history::{Event, History};
use market::move_token_down;
use std::alloc::AllocError;
use tables::{Amount, Company, Seat};

/// Sells shares of a company that a seat has, as one block. The bank pays the seat, the presidency
/// passes if another seat then has more, and the token on the chart moves down. Fails only if
/// allocation fails.
pub fn sell_block(history: &mut History, seat: Seat, sale: Sale) -> Result<(), AllocError>
    requires game { IsGame history.old }
    requires at_table { seat.0 < history.old.seats }
    requires may { MaySell history.old seat sale }
    ensures after { OnOk result (history.new
        ≡ after_sale history.old seat sale.company sale.shares) }
    ensures game { OnOk result (IsGame history.new) }
{
    let shares = sale.shares as u8;
    pay_for_block(history, seat, sale.company, shares)?;
    record_president(history, sale.company)?;
    move_token_down(history, sale.company, shares)?;
    Ok(())
}

/// Pays a seat the price of shares of a company, and moves them to the pool.
fn pay_for_block(
    history: &mut History,
    seat: Seat,
    company: Company,
    shares: u8,
) -> Result<(), AllocError>
    requires { shares ≤ 10 }
    ensures { OnOk result (history.new ≡ sold history.old seat company shares) }
{
    let price = Amount::from(shares) * market_price(&history.now(), company);
    history.append(Event::Sells {
        company,
        seat,
        shares,
        price,
    })?;
    history.record_broken()?;
    Ok(())
}

/// Records who presides over a company, if a change of its shares has moved the presidency. Fails
/// only if allocation fails.
pub fn record_president(history: &mut History, company: Company) -> Result<(), AllocError>
    ensures { OnOk result (history.new ≡ with_president history.old company) }
{
    let Some(old) = history.now().president(company) else {
        return Ok(());
    };
    let new = successor(&history.now(), company, old);
    record_successor(history, company, old, new)
}

/// Records that a seat presides in place of another, if the two differ.
fn record_successor(
    history: &mut History,
    company: Company,
    old: Seat,
    new: Seat,
) -> Result<(), AllocError>
    ensures { OnOk result (history.new
        ≡ with_events history.old (succeeded history.old.events company old new)) }
{
    if new == old {
        return Ok(());
    }
    history.append(Event::President { company, seat: new })?;
    Ok(())
}
