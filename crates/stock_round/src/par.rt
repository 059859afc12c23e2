//! PAR: a seat sets the par value of a company that has not started, and so buys its president's
//! certificate, two shares of the initial offering, each at that value. It becomes president.
//!
//! The rules are those of a purchase in `certs` (`share_purchase_rules`).
ghost use Rattle.std.specs.Prelude.{◌≡◌, ◌<◌, OnOk};
ghost use Rattle.certs.specs.Purchase.{purchase_judgement};
ghost use Rattle.certs.specs.declared.share_deal.Purchase.TheVariants as purchase;
ghost use Rattle.history.specs.Games.{IsGame};
ghost use Rattle.stock_round.specs.Par.{MayStart, after_start};

use certs::{Purchase, may_buy};
use history::{Event, History, StockRule};
use order_grammar::ShareSource;
use std::alloc::AllocError;
use tables::{Amount, Company, PRESIDENT_SHARES, Seat};

/// Returns the first rule that a seat breaks if it sets this par value, in dollars, given the
/// company whose share it has bought in this turn, if any; `None` if it breaks none.
pub(crate) fn judge(
    history: &History,
    seat: Seat,
    company: Company,
    price: Amount,
    bought: Option<Company>,
) -> Option<StockRule>
    ensures { result ≡ purchase_judgement history.now.seats history.now.events seat
        (purchase.Par company price) bought }
{
    may_buy(history, seat, Purchase::Par { company, price }, bought).err()
}

/// Sets the par value of a company, in dollars, and so buys its president's certificate for a seat.
pub(crate) fn act(
    history: &mut History,
    seat: Seat,
    company: Company,
    price: Amount,
) -> Result<(), AllocError>
    requires game { IsGame history.old }
    requires at_table { seat.0 < history.old.seats }
    requires may { MayStart history.old seat company price }
    ensures after { OnOk result (history.new ≡ after_start history.old seat company price) }
    ensures game { OnOk result (IsGame history.new) }
{
    history.append(Event::Par { company, price })?;
    history.append(Event::Bought {
        company,
        seat,
        shares: PRESIDENT_SHARES,
        from: ShareSource::InitialOffering,
        price: Amount::from(PRESIDENT_SHARES) * price,
    })?;
    history.append(Event::President { company, seat })?;
    Ok(())
}
