//! What a company pays out for its shares.
ghost use Rattle.std.specs.Prelude.{◌≡◌, ◌≤◌, ◌≤ℤ◌, OnOk, pos};
ghost use Rattle.certs.specs.Dividend.{all_paid, dividend_of, dividend_paid_to, paid_for, paid_out};
ghost use Rattle.history.specs.Games.{IsGame};
ghost use Rattle.events.specs.declared.event.Party.TheVariants as party;
ghost use Rattle.history.specs.Money.{IsParty};
ghost use Rattle.totals.specs.Shares.{shares_of};

use history::{Event, History, Holder, Shareholder, at_least_zero};
use market::move_token_right;
use std::alloc::AllocError;
use tables::{Amount, Company, SHARES, Seat};

/// Pays a revenue in dollars for the shares of a company from the bank: each seat gets a tenth of
/// it per share, seat by seat, and the company a tenth for each share in the bank pool. Its token
/// on the chart moves right. Fails only if allocation fails.
pub fn pay_out(history: &mut History, company: Company, revenue: Amount) -> Result<(), AllocError>
    requires game { IsGame history.old }
    requires small { revenue ≤ 100000 }
    ensures after { OnOk result (history.new ≡ paid_out history.old company revenue) }
    ensures game { OnOk result (IsGame history.new) }
{
    pay_all(history, company, revenue)?;
    move_token_right(history, company)?;
    Ok(())
}

/// Pays from the bank the seats for their shares of a company, seat by seat, and the company for
/// those in the bank pool.
fn pay_all(history: &mut History, company: Company, revenue: Amount) -> Result<(), AllocError>
    requires game { IsGame history.old }
    requires small { revenue ≤ 100000 }
    ensures after { OnOk result (history.new ≡ all_paid company revenue history.old) }
    ensures game { OnOk result (IsGame history.new) }
{
    for seat in 0..history.seats() {
        let seat = Seat::at(seat);
        let (holder, place) = (Holder::Seat(seat), Shareholder::Seat(seat));
        pay_for(history, company, holder, place, revenue)?;
    }
    let (holder, place) = (Holder::Company(company), Shareholder::BankPool);
    pay_for(history, company, holder, place, revenue)
}

/// Pays a holder from the bank for the shares of a company at a place, of which there are at most
/// ten.
fn pay_for(
    history: &mut History,
    company: Company,
    holder: Holder,
    place: Shareholder,
    revenue: Amount,
) -> Result<(), AllocError>
    requires party { IsParty history.old.seats (party.Holder holder) }
    requires most { shares_of history.old.events company place ≤ℤ pos 10 }
    requires small { revenue ≤ 100000 }
    requires game { IsGame history.old }
    ensures after { OnOk result (history.new ≡ paid_for company holder place revenue history.old) }
    ensures game { OnOk result (IsGame history.new) }
{
    let amount = dividend(history, company, place, revenue);
    pay_to(history, company, holder, amount)
}

/// Returns what the shares of a company at a place are paid, in dollars; there are at most ten of
/// them.
fn dividend(history: &History, company: Company, place: Shareholder, revenue: Amount) -> Amount
    requires most { shares_of history.now.events company place ≤ℤ pos 10 }
    requires small { revenue ≤ 100000 }
    ensures sum { result ≡ dividend_of history.now.events company place revenue }
    ensures small { result ≤ 100000 }
{
    let shares = at_least_zero(history.shares(company, place)) as Amount;
    shares * (revenue / SHARES)
}

/// Pays a holder from the bank, if there is something to pay; the payment may break the bank.
fn pay_to(
    history: &mut History,
    company: Company,
    holder: Holder,
    amount: Amount,
) -> Result<(), AllocError>
    requires party { IsParty history.old.seats (party.Holder holder) }
    requires small { amount ≤ 1000000 }
    requires game { IsGame history.old }
    ensures after { OnOk result (history.new ≡ dividend_paid_to company holder amount history.old) }
    ensures game { OnOk result (IsGame history.new) }
{
    if amount == 0 {
        return Ok(());
    }
    history.append(Event::Dividend {
        company,
        holder,
        amount,
    })?;
    history.record_broken()?;
    Ok(())
}
