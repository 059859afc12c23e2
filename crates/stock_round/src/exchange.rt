//! EXCHANGE: the owner of MH gives it up for a share of NYC, even before NYC has started. The share
//! comes from the initial offering, or from the bank pool if the initial offering has none. It
//! costs nothing, and counts neither as a purchase nor as a sale. The presidency of NYC passes and
//! NYC floats as after a purchase.
ghost use Rattle.std.specs.Prelude.{◌≡◌, ◌<◌, OnOk};
ghost use Rattle.history.specs.Games.{IsGame};
ghost use Rattle.stock_round.specs.Exchange.{MayExchange, after_exchange, exchange_judgement, exchange_source};
ghost use Rattle.stock_round.specs.Exchange.{exchanged, is_no_exchange, is_offered, is_pooled};
ghost use Rattle.totals.specs.LookBack.{is_owner, owner_of};
ghost use Rattle.tables.specs.declared.roster.Private.TheVariants.{MohawkHudson};

use crate::float::record_float;
use certs::{is_over_six, record_president};
use history::{Event, History, Holder, Shareholder, StockRule};
use order_grammar::ShareSource;
use std::alloc::AllocError;
use tables::{Company, Private, Seat, rules};

/// How many shares MH is exchanged for.
const EXCHANGE_SHARES: u8 = 1;

/// Returns the rule that an exchange of MH by a seat breaks; `None` if it breaks none.
pub(crate) fn judge(history: &History, seat: Seat) -> Option<StockRule>
    ensures { result ≡ exchange_judgement history.now seat }
{
    rules! { StockRule
        NoExchange: is_no_exchange(history, seat),
    }
}

/// Returns whether a seat may not exchange MH: it does not own MH, no share of NYC is available, or
/// the seat would have more than six.
pub fn is_no_exchange(history: &History, seat: Seat) -> bool
    ensures { result ≡ is_no_exchange history.now.events seat }
{
    !owns_mohawk(history, seat)
        || !(is_offered(history) || is_pooled(history))
        || is_over_six(
            &history.now(),
            seat,
            Company::NewYorkCentral,
            EXCHANGE_SHARES,
        )
}

/// Returns whether a seat owns MH.
fn owns_mohawk(history: &History, seat: Seat) -> bool
    ensures { result ≡ is_owner seat (owner_of history.now.events MohawkHudson) }
{
    match history.owner(Private::MohawkHudson) {
        Some(Holder::Seat(owner)) => owner == seat,
        _ => false,
    }
}

/// Returns whether there is a share of NYC in the initial offering.
fn is_offered(history: &History) -> bool
    ensures { result ≡ is_offered history.now.events }
{
    history.shares(Company::NewYorkCentral, Shareholder::InitialOffering) > 0
}

/// Returns whether there is one in the bank pool.
fn is_pooled(history: &History) -> bool
    ensures { result ≡ is_pooled history.now.events }
{
    history.shares(Company::NewYorkCentral, Shareholder::BankPool) > 0
}

/// Exchanges MH of a seat for a share of NYC.
pub(crate) fn act(history: &mut History, seat: Seat) -> Result<(), AllocError>
    requires game { IsGame history.old }
    requires at_table { seat.0 < history.old.seats }
    requires may { MayExchange history.old seat }
    ensures after { OnOk result (history.new ≡ after_exchange history.old seat) }
    ensures game { OnOk result (IsGame history.new) }
{
    let company = Company::NewYorkCentral;
    give_up_mohawk(history, seat)?;
    record_president(history, company)?;
    record_float(history, company)
}

/// Gives a seat a share of NYC for MH, which nobody then owns.
fn give_up_mohawk(history: &mut History, seat: Seat) -> Result<(), AllocError>
    requires game { IsGame history.old }
    requires at_table { seat.0 < history.old.seats }
    requires may { MayExchange history.old seat }
    ensures after { OnOk result (history.new ≡ exchanged history.old seat) }
    ensures game { OnOk result (IsGame history.new) }
{
    let from = exchange_source(history);
    history.append(Event::Exchanged { seat, from })?;
    Ok(())
}

/// Returns where the share of NYC for MH comes from: the initial offering first, otherwise the bank
/// pool.
pub fn exchange_source(history: &History) -> ShareSource
    ensures { result ≡ exchange_source history.now.events }
{
    if is_offered(history) {
        ShareSource::InitialOffering
    } else {
        ShareSource::BankPool
    }
}
