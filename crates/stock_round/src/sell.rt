//! SELL: a seat sells shares of a company to the bank pool, as one block, at the market price. The
//! presidency passes if another seat then has more shares, and the company's token moves down a
//! square for each share.
//!
//! The rules are those of a sale in `certs` (`sale_rules`).
ghost use Rattle.std.specs.Prelude.{◌≡◌, ◌<◌, None, OnOk};
ghost use Rattle.certs.specs.Sale.{sale_judgement};
ghost use Rattle.history.specs.Games.{IsGame};
ghost use Rattle.stock_round.specs.Sell.{MaySell, after_sale, sale_of};

use certs::{Sale, may_sell, sell_block};
use history::{History, StockRule};
use std::alloc::AllocError;
use tables::{Amount, Company, Seat};

/// Returns the first rule that a seat breaks if it sells this many shares; `None` if it breaks
/// none.
pub(crate) fn judge(
    history: &History,
    seat: Seat,
    company: Company,
    shares: Amount,
) -> Option<StockRule>
    ensures { result ≡ sale_judgement history.now.seats history.now.events seat
        (sale_of company shares) None }
{
    may_sell(history, seat, Sale { company, shares }, None).err()
}

/// Sells this many shares of a company that a seat has.
pub(crate) fn act(
    history: &mut History,
    seat: Seat,
    company: Company,
    shares: Amount,
) -> Result<(), AllocError>
    requires game { IsGame history.old }
    requires at_table { seat.0 < history.old.seats }
    requires may { MaySell history.old seat (sale_of company shares) }
    ensures after { OnOk result (history.new ≡ after_sale history.old seat company shares) }
    ensures game { OnOk result (IsGame history.new) }
{
    sell_block(history, seat, Sale { company, shares })
}
