//! Money that is paid, shares that change hands, and the limits of a list of events.

ghost use Rattle.treasury.specs.Accounts.{HasAccount, IsSum};

use certs::Holdings;
use history::{Event, History, Holder, Party, ShareCount, Shareholder, Transfer};
use std::alloc::{AllocError, Global};
use tables::{Company, Money, Seat};
use treasury::Accounts;

const ANN: Party = Party::Holder(Holder::Seat(Seat(0)));

const PRR: Party = Party::Holder(Holder::Company(Company::Pennsylvania));

/// Tries a payment at the start of a game. Returns whether it is made, and what both then have.
fn paid(alloc: Global, from: Party, to: Party, sum: Money) -> (bool, Money, Money)
    requires from { HasAccount from }
    requires to { HasAccount to }
    requires sum { IsSum sum }
{
    let history = History::start(alloc, 3);
    let mut accounts = Accounts::of(&history);
    let is_paid = accounts.pay(from, to, sum).is_ok();
    (is_paid, accounts.cash(from), accounts.cash(to))
}

#[test]
fn pays_what_there_is(rt: HostRuntime) {
    assert!(rt; paid(rt.alloc(), ANN, PRR, 801) == (false, 800, 0));
    assert!(rt; paid(rt.alloc(), ANN, PRR, 670) == (true, 130, 670));
}

/// Tests that ANN presides over BO with two shares, and then BOB with three.
#[test]
fn presidency_follows_a_transfer(rt: HostRuntime) -> Result<(), AllocError> {
    let company = Company::BaltimoreOhio;
    let (ann, bob) = (Seat(0), Seat(1));
    let mut history = History::start(rt.alloc(), 3);
    history.append(Event::Given {
        company,
        seat: ann,
        shares: 2,
    })?;
    history.append(Event::President { company, seat: ann })?;
    let mut holdings = Holdings::of(&history);
    assert!(rt; holdings.president(company) == Some(ann));
    let (from, to, shares) = (Shareholder::InitialOffering, Shareholder::Seat(bob), 3);
    assert!(rt; holdings.shares(company, from) >= ShareCount::from(shares));
    holdings.transfer(Transfer {
        company,
        from,
        to,
        shares,
    });
    assert!(rt; holdings.president(company) == Some(bob));
    assert!(rt; holdings.shares(company, from) == 5);
    Ok(())
}

#[test]
fn has_room_for_a_million_and_no_more(rt: HostRuntime) {
    let history = History::start(rt.alloc(), 5);
    assert!(rt; history.has_room(&Event::Price { price: 1_000_000 }));
    assert!(rt; !history.has_room(&Event::Price { price: 1_000_001 }));
}
