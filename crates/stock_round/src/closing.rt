//! The end of a stock round: sold-out companies move up on the chart.
ghost use Rattle.std.specs.Prelude.{◌≡◌, OnOk};
ghost use Rattle.history.specs.Games.{IsGame};
ghost use Rattle.totals.specs.LookBack.{with_events};
ghost use Rattle.stock_round.specs.Closing.{all_risen, is_sold_out, risen, stock_round_closed};

use history::{History, Shareholder};
use market::{move_token_up, operating_order};
use std::alloc::AllocError;
use tables::Company;

/// Ends the round: each sold-out company moves up, in operating order.
pub(crate) fn close(history: &mut History) -> Result<(), AllocError>
    requires { IsGame history.old }
    ensures after { OnOk result (history.new
        ≡ with_events history.old (stock_round_closed history.old.events)) }
    ensures game { OnOk result (IsGame history.new) }
{
    let order = operating_order(history);
    raise_all(history, order.as_slice())
}

/// Moves up those of some companies that are sold out, in order.
fn raise_all(history: &mut History, companies: &[Company]) -> Result<(), AllocError>
    requires { IsGame history.old }
    ensures after { OnOk result (history.new
        ≡ with_events history.old (all_risen history.old.events companies.now)) }
    ensures game { OnOk result (IsGame history.new) }
{
    for company in companies {
        move_up_if_sold_out(history, *company)?;
    }
    Ok(())
}

/// Moves up a company, if it is sold out.
fn move_up_if_sold_out(history: &mut History, company: Company) -> Result<(), AllocError>
    requires { IsGame history.old }
    ensures after { OnOk result (history.new
        ≡ with_events history.old (risen history.old.events company)) }
    ensures game { OnOk result (IsGame history.new) }
{
    if !is_sold_out(history, company) {
        return Ok(());
    }
    move_token_up(history, company)?;
    Ok(())
}

/// Returns whether all shares of a company are with players.
fn is_sold_out(history: &History, company: Company) -> bool
    ensures { result ≡ is_sold_out history.now.events company }
{
    history.shares(company, Shareholder::InitialOffering) == 0
        && history.shares(company, Shareholder::BankPool) == 0
}
