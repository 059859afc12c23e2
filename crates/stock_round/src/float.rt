//! How a company floats: once at most four of its shares are left in the initial offering, the bank
//! pays its capital.
ghost use Rattle.std.specs.Prelude.{◌≡◌, OnOk, true, unwrap_or};
ghost use Rattle.totals.specs.Shares.{par_of};
ghost use Rattle.history.specs.Games.{IsGame};
ghost use Rattle.stock_round.specs.Float.{floated_at, is_to_float, with_float};

use crate::prices::par_value;
use history::{Event, History, ShareCount, Shareholder};
use std::alloc::AllocError;
use tables::{Company, SHARES};

/// The most shares that a company may have left in the initial offering when it floats.
const FLOAT_MOST: ShareCount = 4;

/// Floats a company, if at most four of its shares are left in the initial offering and it has not
/// floated yet: the bank pays it ten times its par value.
pub(crate) fn record_float(history: &mut History, company: Company) -> Result<(), AllocError>
    requires { IsGame history.old }
    ensures after { OnOk result (history.new ≡ with_float history.old company) }
    ensures game { OnOk result (IsGame history.new) }
{
    if is_to_float(history, company) {
        float(history, company)
    } else {
        Ok(())
    }
}

/// Returns whether a company floats now.
fn is_to_float(history: &History, company: Company) -> bool
    ensures { result ≡ is_to_float history.now.events company }
{
    !history.floated(company) && history.shares(company, Shareholder::InitialOffering) <= FLOAT_MOST
}

/// Records that a company floats.
fn float(history: &mut History, company: Company) -> Result<(), AllocError>
    requires ready { is_to_float history.old.events company ≡ true }
    requires game { IsGame history.old }
    ensures after { OnOk result (history.new
        ≡ floated_at history.old company (unwrap_or (par_of history.old.events company) 0)) }
    ensures game { OnOk result (IsGame history.new) }
{
    let amount = SHARES * par_value(history, company);
    history.append(Event::Floats { company, amount })?;
    history.record_broken()?;
    Ok(())
}
