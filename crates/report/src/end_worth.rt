//! What each player is worth at the end of a game.
ghost use Rattle.std.specs.Prelude.{◌≡◌, ◌≤◌, ◌^◌, OnOk, length};
ghost use Rattle.report.specs.Column.{Adds};
ghost use Rattle.report.specs.Statement.{AreOwnersIn};
ghost use Rattle.report.specs.EndWorth.{worth_line, worth_lines, worth_of, worth_of_all_shares, worth_of_private};
ghost use Rattle.report.specs.EndWorth.{worth_of_privates, worth_of_shares};
ghost use Rattle.sheets.specs.File.{players_of};

use crate::line::push_name;
use crate::statement::owns;
use certs::market_price;
use history::{GameView, Owners, Party, Shareholder, at_least_zero};
use order_grammar::print_number;
use sheets::Sheets;
use std::alloc::AllocError;
use tables::{Amount, Company, Money, Private, Seat, face};

/// Adds the line of what each player is worth.
#[tactic(auto, unfolding(crate::specs::EndWorth::worth_lines))]
pub(crate) fn push_worths(
    out: &mut Vec<u8>,
    sheets: &Sheets,
    view: &GameView,
) -> Result<(), AllocError>
    requires { view.now.seats ≡ length (players_of sheets.now) }
    ensures { OnOk result (Adds out.old out.new (worth_lines sheets.now view.now)) }
{
    for seat in 0..sheets.seats() {
        push_worth(out, sheets, view, Seat(seat as u8))?;
    }
    Ok(())
}

/// Adds the line of what a player is worth.
fn push_worth(
    out: &mut Vec<u8>,
    sheets: &Sheets,
    view: &GameView,
    seat: Seat,
) -> Result<(), AllocError>
    ensures { OnOk result (Adds out.old out.new (worth_line sheets.now view.now seat)) }
{
    out.extend_from_slice(b"WORTH ")?;
    push_name(out, sheets, seat)?;
    out.push(b' ')?;
    print_number(out, player_worth(view, seat))?;
    out.push(b'\n')?;
    Ok(())
}

/// Returns what a seat is worth, in dollars: its cash, its shares at the market price, and its
/// privates at their face value.
pub fn player_worth(view: &GameView, seat: Seat) -> Money
    ensures { result ≡ worth_of view.now seat }
{
    let owned = shares_worth(view, seat) + u128::from(privates_worth(view, seat));
    view.cash(Party::of_seat(seat)) + owned as Money
}

/// Returns what all shares of a seat are worth, in dollars.
fn shares_worth(view: &GameView, seat: Seat) -> u128
    ensures sum { result ≡ worth_of_all_shares view.now.events seat }
    ensures small { result ≤ 2 ^ 112 }
{
    let mut sum = 0;
    for &company in &Company::ALL {
        sum += company_worth(view, seat, company);
    }
    sum
}

/// Returns what a seat's shares of a company are worth, in dollars; 0 if the company has no market
/// price.
fn company_worth(view: &GameView, seat: Seat, company: Company) -> u128
    ensures worth { result ≡ worth_of_shares view.now.events seat company }
    ensures small { result ≤ 2 ^ 109 }
{
    let shares = at_least_zero(view.shares(company, Shareholder::Seat(seat)));
    shares * u128::from(market_price(view, company))
}

/// Returns what all privates of a seat are worth, in dollars.
fn privates_worth(view: &GameView, seat: Seat) -> Amount
    ensures sum { result ≡ worth_of_privates view.now.events seat }
    ensures small { result ≤ 1320 }
{
    let owners = view.owners();
    let mut sum = 0;
    for &private in &Private::ALL {
        sum += private_worth(view, &owners, seat, private);
    }
    sum
}

/// Returns what a private is worth to a seat, in dollars; 0 if the seat does not own it.
fn private_worth(view: &GameView, owners: &Owners, seat: Seat, private: Private) -> Amount
    requires { AreOwnersIn view.now.events owners.now }
    ensures worth { result ≡ worth_of_private view.now.events seat private }
    ensures small { result ≤ 220 }
{
    if owns(owners, seat, private) {
        face(private)
    } else {
        0
    }
}
