//! What a share of a started company costs, and the company's par value.
ghost use Rattle.std.specs.Prelude.{◌≡◌, ◌≤◌, unwrap_or};
ghost use Rattle.certs.specs.Purchase.{share_price_of};
ghost use Rattle.totals.specs.Shares.{par_of};
ghost use Rattle.history.specs.Sound.{IsLed};
ghost use Rattle.tables.specs.Chart.{price_most};

use certs::share_price;
use history::History;
use order_grammar::ShareSource;
use tables::{Amount, Company, amount_of};

/// Returns what a seat pays for a share of a started company, in dollars.
pub(crate) fn share_cost(history: &History, company: Company, from: ShareSource) -> Amount
    requires { IsLed history.now.events company }
    ensures price { result ≡ share_price_of history.now.events company from }
    ensures small { result ≤ price_most }
{
    amount_of(share_price(&history.now(), company, from))
}

/// Returns the par value of a started company, in dollars.
pub(crate) fn par_value(history: &History, company: Company) -> Amount
    requires { IsLed history.now.events company }
    ensures par { result ≡ unwrap_or (par_of history.now.events company) 0 }
    ensures small { result ≤ price_most }
{
    match history.par(company) {
        Some(par) => amount_of(par),
        None => 0,
    }
}
