//! The purchase that a company must make.
//!
//! Its president pays what it lacks. A president who falls short sells shares: first by the RAISE
//! lines of the company's orders, then singly, each at a lower price. A president who still falls
//! short is bankrupt.
ghost use Rattle.std.specs.Prelude.{◌≡◌, ◌≤◌, ◌<◌, OnOk, false};
ghost use Rattle.history.specs.Games.{IsGame};
ghost use Rattle.history.specs.Sound.{IsSound};
ghost use Rattle.totals.specs.Trains.{at_least_zero as as_many};
ghost use Rattle.forced_purchase.specs.Forced.{after_forced, concluded, first_to_sell, next_to_sell, one_share};
ghost use Rattle.forced_purchase.specs.Forced.{sold_further, sold_singly, with_aid, with_one_sold};
ghost use Rattle.forced_purchase.specs.Shortfall.{falls_short, lack_of};
ghost use Rattle.purchases.specs.Train.{has_trains};

use crate::operator::Operator;
use crate::raise::{HeldRaise, judge_raised_sale, rule_raises};
use crate::shortfall::{cheapest, falls_short, lack};
use certs::{Sale, sell_block};
use history::{Event, History, at_least_zero};
use purchases::buy_train;
use std::alloc::{AllocError, Global};
use tables::{Amount, COMPANIES, Company, POOL_SHARES_MOST};

/// Buys the train that a company without one must buy, or makes its president bankrupt. It first
/// rules the RAISE lines of the company's orders, which were held for this. Fails only if
/// allocation fails.
#[tactic(auto, unfolding(crate::specs::Forced::after_forced))]
pub fn buy_by_force(
    alloc: Global,
    history: &mut History,
    by: Operator,
    raises: Vec<HeldRaise>,
) -> Result<(), AllocError>
    requires game { IsGame history.old }
    requires at_table { by.president.0 < history.old.seats }
    requires none { has_trains history.old.events by.company ≡ false }
    ensures after { OnOk result (history.new ≡ after_forced by raises.items history.old) }
    ensures sound { OnOk result (IsSound history.new) }
{
    history.record_event(Event::Forced(by.company))?;
    rule_raises(history, by, raises, true)?;
    sell_singly(history, by)?;
    conclude(alloc, history, by)?;
    Ok(())
}

/// Upper bound on the shares that can be sold: as many of each company as the pool takes.
const SALES_MOST: usize = COMPANIES * POOL_SHARES_MOST as usize;

/// Sells shares of the president one at a time, until they no longer fall short or may sell none.
#[tactic(auto, unfolding(crate::specs::Forced::sold_singly))]
fn sell_singly(history: &mut History, by: Operator) -> Result<(), AllocError>
    requires game { IsGame history.old }
    requires at_table { by.president.0 < history.old.seats }
    ensures seats { OnOk result (history.new.seats ≡ history.old.seats) }
    ensures after { OnOk result (history.new ≡ sold_singly by history.old) }
    ensures game { OnOk result (IsGame history.new) }
{
    // Bounded, so that no measure has to be proved; extra passes do nothing.
    for _ in 0..SALES_MOST {
        sell_further(history, by)?;
    }
    Ok(())
}

/// Sells one more share of the president, if they fall short and may sell one.
#[tactic(auto, unfolding(crate::specs::Forced::sold_further))]
fn sell_further(history: &mut History, by: Operator) -> Result<(), AllocError>
    requires game { IsGame history.old }
    requires at_table { by.president.0 < history.old.seats }
    ensures seats { OnOk result (history.new.seats ≡ history.old.seats) }
    ensures after { OnOk result (history.new ≡ sold_further by history.old) }
    ensures game { OnOk result (IsGame history.new) }
{
    if falls_short(history, by) {
        sell_next(history, by)?;
        return Ok(());
    }
    Ok(())
}

/// Sells one more share of the president, if they may sell one.
fn sell_next(history: &mut History, by: Operator) -> Result<(), AllocError>
    requires game { IsGame history.old }
    requires at_table { by.president.0 < history.old.seats }
    ensures seats { OnOk result (history.new.seats ≡ history.old.seats) }
    ensures after { OnOk result (history.new
        ≡ with_one_sold by history.old (next_to_sell by history.old)) }
    ensures game { OnOk result (IsGame history.new) }
{
    if let Some(company) = next_to_sell(history, by) {
        sell_block(history, by.president, share_of(company))?;
        return Ok(());
    }
    Ok(())
}

/// Returns the sale of one share of a company.
fn share_of(company: Company) -> Sale
    ensures { result ≡ one_share company }
{
    Sale { company, shares: 1 }
}

/// Returns the first company in roster order whose share the president may sell.
#[tactic(auto, unfolding(crate::specs::Forced::next_to_sell))]
fn next_to_sell(history: &History, by: Operator) -> Option<Company>
    ensures { result ≡ next_to_sell by history.now }
{
    first_to_sell(history, by, &Company::ALL)
}

/// Returns the first of these companies whose share the president may sell.
fn first_to_sell(history: &History, by: Operator, among: &[Company]) -> Option<Company>
    ensures { result ≡ first_to_sell by history.now among.now }
{
    among.iter().copied().find(|company| judge_raised_sale(
        history,
        by,
        share_of(*company),
    ).is_none())
}

/// Pays what the company lacks with the president's money, and buys the train; or makes a president
/// who falls short bankrupt.
#[tactic(auto, unfolding(crate::specs::Forced::concluded))]
fn conclude(alloc: Global, history: &mut History, by: Operator) -> Result<(), AllocError>
    requires at_table { by.president.0 < history.old.seats }
    requires none { has_trains history.old.events by.company ≡ false }
    requires sound { IsSound history.old }
    ensures after { OnOk result (history.new ≡ concluded by history.old) }
    ensures sound { OnOk result (IsSound history.new) }
{
    if falls_short(history, by) {
        return history.record_event(Event::Bankrupt(by.president));
    }
    let purchase = cheapest(&history.now());
    aid(history, by)?;
    buy_train(alloc, history, by.company, purchase)
}

/// Pays what the company lacks with the president's money, if it lacks anything.
#[tactic(auto, unfolding(crate::specs::Forced::with_aid))]
fn aid(history: &mut History, by: Operator) -> Result<(), AllocError>
    requires at_table { by.president.0 < history.old.seats }
    requires enough { falls_short by history.old ≡ false }
    requires sound { IsSound history.old }
    ensures after { OnOk result (history.new ≡ with_aid by history.old) }
    ensures sound { OnOk result (IsSound history.new) }
{
    let amount = lacking(history, by.company);
    if amount == 0 {
        return Ok(());
    }
    history.append(Event::Aid {
        seat: by.president,
        company: by.company,
        amount,
    })?;
    Ok(())
}

/// Returns what a company lacks for the cheapest train that is for sale, in dollars; 0 if it has
/// enough.
#[tactic(auto, using(crate::proofs::Aid::lack_small))]
fn lacking(history: &History, company: Company) -> Amount
    requires { IsSound history.now }
    ensures amount { result ≡ as_many (lack_of history.now company) }
    ensures small { result ≤ 1100 }
{
    at_least_zero(lack(history, company)) as Amount
}
