//! BUY: a seat buys a share of a started company, from the initial offering at the par value, or
//! from the bank pool at the market price. The presidency passes if the seat then has more shares
//! than the president, and the company floats once at most four shares are left in the initial
//! offering.
//!
//! The rules are those of a purchase in `certs` (`share_purchase_rules`).
ghost use Rattle.std.specs.Prelude.{◌≡◌, ◌<◌, OnOk};
ghost use Rattle.certs.specs.Purchase.{purchase_judgement};
ghost use Rattle.certs.specs.declared.share_deal.Purchase.TheVariants as purchase;
ghost use Rattle.history.specs.Games.{IsGame};
ghost use Rattle.stock_round.specs.Buy.{MayBuy, after_purchase, share_bought};

use crate::float::record_float;
use crate::prices::share_cost;
use certs::{Purchase, may_buy, record_president};
use history::{Event, History, StockRule};
use order_grammar::ShareSource;
use std::alloc::AllocError;
use tables::{Company, Seat};

/// Returns the first rule that a seat breaks if it buys a share from this source, given the company
/// whose share it has bought in this turn, if any; `None` if it breaks none.
pub(crate) fn judge(
    history: &History,
    seat: Seat,
    company: Company,
    from: ShareSource,
    bought: Option<Company>,
) -> Option<StockRule>
    ensures { result ≡ purchase_judgement history.now.seats history.now.events seat
        (purchase.Share company from) bought }
{
    may_buy(history, seat, Purchase::Share { company, from }, bought).err()
}

/// Buys a share of a company for a seat.
pub(crate) fn act(
    history: &mut History,
    seat: Seat,
    company: Company,
    from: ShareSource,
) -> Result<(), AllocError>
    requires game { IsGame history.old }
    requires at_table { seat.0 < history.old.seats }
    requires may { MayBuy history.old seat company from }
    ensures after { OnOk result (history.new ≡ after_purchase history.old seat company from) }
    ensures game { OnOk result (IsGame history.new) }
{
    pay_for_share(history, seat, company, from)?;
    record_president(history, company)?;
    record_float(history, company)
}

/// Pays for a share of a company, which the seat then has.
fn pay_for_share(
    history: &mut History,
    seat: Seat,
    company: Company,
    from: ShareSource,
) -> Result<(), AllocError>
    requires game { IsGame history.old }
    requires at_table { seat.0 < history.old.seats }
    requires may { MayBuy history.old seat company from }
    ensures after { OnOk result (history.new ≡ share_bought history.old seat company from) }
    ensures game { OnOk result (IsGame history.new) }
{
    let price = share_cost(history, company, from);
    history.append(Event::Bought {
        company,
        seat,
        shares: 1,
        from,
        price,
    })?;
    Ok(())
}
