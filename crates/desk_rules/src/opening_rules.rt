//! The rules that an order of an opening breaks.
ghost use Rattle.std.specs.Prelude.{◌≡◌, ◌∷◌, [], IfOk};
ghost use Rattle.desk_map_rules.specs.Broken.{row_rule};
ghost use Rattle.desk_rules.specs.OpeningAsked.{bank_private_broken, before_turns_broken, bid_broken};
ghost use Rattle.desk_rules.specs.OpeningAsked.{opening_broken};
ghost use Rattle.events.specs.declared.ruling.OpeningRule.TheVariants as of_opening;
ghost use Rattle.events.specs.declared.ruling.Refusal.TheVariants as refusal;
ghost use Rattle.privates.specs.Bank.{is_cheapest, is_short};
ghost use Rattle.privates.specs.Bid.{is_near, is_too_low};
ghost use Rattle.privates.specs.ParOfBo.{is_par_of_baltimore};

use desk_map_rules::{Row, rules_of};
use history::{GameView, OpeningRule, Refusal};
use order_grammar::PlayOrder;
use privates::price_of_private;
use std::alloc::{AllocError, Global};
use tables::{Amount, BID_STEP, Company, Money, Private, Seat, face, par_square};

/// Returns the rules that an order of a seat breaks in a turn of an opening. Fails only if
/// allocation fails.
pub(crate) fn opening_broken(
    alloc: Global,
    view: &GameView,
    seat: Seat,
    order: PlayOrder,
) -> Result<Vec<Refusal>, AllocError>
    ensures { IfOk result (λ rules. rules.items ≡ opening_broken view.now seat order) }
{
    match order {
        PlayOrder::BuyPrivate(private) => bank_private_broken(alloc, view, seat, private),
        PlayOrder::Bid { private, amount } => bid_broken(alloc, view, seat, private, amount),
        _ => not_of_opening(alloc),
    }
}

/// Returns the rule that an order breaks which neither buys a private nor bids on one.
fn not_of_opening(alloc: Global) -> Result<Vec<Refusal>, AllocError>
    ensures { IfOk result (λ rules. rules.items
        ≡ refusal.Opening of_opening.NotOfOpening ∷ []) }
{
    let mut rules = Vec::new(alloc);
    rules.push(Refusal::Opening(OpeningRule::NotOfOpening))?;
    Ok(rules)
}

/// Returns the rules that the purchase of a private from the bank breaks. Fails only if allocation
/// fails.
fn bank_private_broken(
    alloc: Global,
    view: &GameView,
    seat: Seat,
    private: Private,
) -> Result<Vec<Refusal>, AllocError>
    ensures { IfOk result (λ rules. rules.items ≡ bank_private_broken view.now seat private) }
{
    let is_sold = view.is_sold(private);
    let is_cheapest = is_cheapest(view, private);
    let is_short = is_short(view, seat, private, price_of_private(view, private));
    let rows = [
        of_opening(OpeningRule::Sold, is_sold),
        of_opening(OpeningRule::NotCheapest, !is_sold && !is_cheapest),
        of_opening(OpeningRule::CashTooSmall, !is_sold && is_short),
    ];
    rules_of(alloc, &rows)
}

/// Returns the rules that a bid on a private breaks. Fails only if allocation fails.
fn bid_broken(
    alloc: Global,
    view: &GameView,
    seat: Seat,
    private: Private,
    amount: Amount,
) -> Result<Vec<Refusal>, AllocError>
    ensures { IfOk result (λ rules. rules.items
        ≡ bid_broken view.now seat private amount) }
{
    let is_sold = view.is_sold(private);
    let is_too_low = is_too_low(view, private, amount);
    let is_short = is_short(view, seat, private, amount);
    let is_cheapest = is_cheapest(view, private);
    let rows = [
        of_opening(OpeningRule::Sold, is_sold),
        of_opening(OpeningRule::BidTooLow, !is_sold && is_too_low),
        of_opening(OpeningRule::CashTooSmall, !is_sold && is_short),
        of_opening(OpeningRule::BidForCheapest, !is_sold && is_cheapest),
    ];
    rules_of(alloc, &rows)
}

/// Returns a row of a rule of openings.
fn of_opening(rule: OpeningRule, is_broken: bool) -> Row
    ensures { result ≡ record { rule = refusal.Opening rule; is_broken = is_broken } }
{
    Row {
        rule: Refusal::Opening(rule),
        is_broken,
    }
}

/// Returns whether a private is the cheapest unsold one.
pub fn is_cheapest(view: &GameView, private: Private) -> bool
    ensures { result ≡ is_cheapest view.now.events private }
{
    view.cheapest_unsold() == Some(private)
}

/// Returns whether a sum is over what a seat can spend on a private.
fn is_short(view: &GameView, seat: Seat, private: Private, sum: Amount) -> bool
    ensures { result ≡ is_short view.now.seats view.now.events seat private sum }
{
    view.free_for(seat, private) < Money::from(sum)
}

/// Returns whether a bid on a private, in dollars, is less than 5 above its face value, or above an
/// earlier bid on it.
#[tactic(auto, using(privates::proofs::BidLemmas::near_greatest))]
pub fn is_too_low(view: &GameView, private: Private, amount: Amount) -> bool
    ensures { result ≡ is_too_low view.now.events private amount }
{
    if u64::from(amount) < u64::from(face(private)) + u64::from(BID_STEP) {
        return true;
    }
    is_near(amount, view.greatest_bid(private))
}

/// Returns whether a sum is less than 5 above a bid, if there is one.
fn is_near(amount: Amount, bid: Option<Amount>) -> bool
    ensures { result ≡ is_near amount bid }
{
    match bid {
        Some(bid) => u64::from(amount) < u64::from(bid) + u64::from(BID_STEP),
        None => false,
    }
}

/// Returns the rules that an order above the first turn of a sheet for an opening breaks. Fails
/// only if allocation fails.
pub(crate) fn before_turns_broken(
    alloc: Global,
    view: &GameView,
    order: PlayOrder,
) -> Result<Vec<Refusal>, AllocError>
    ensures { IfOk result (λ rules. rules.items ≡ before_turns_broken view.now.events order) }
{
    match order {
        PlayOrder::Limit { private, .. } => one_rule(
            alloc,
            OpeningRule::Sold,
            view.is_sold(private),
        ),
        PlayOrder::Par { company, price } => one_rule(
            alloc,
            OpeningRule::NotOfOpening,
            !is_par_of_baltimore(company, price),
        ),
        _ => Ok(Vec::new(alloc)),
    }
}

/// Returns a rule, if it is broken.
fn one_rule(alloc: Global, rule: OpeningRule, is_broken: bool) -> Result<Vec<Refusal>, AllocError>
    ensures { IfOk result (λ rules. rules.items
        ≡ row_rule (record { rule = refusal.Opening rule; is_broken = is_broken })) }
{
    rules_of(alloc, &[of_opening(rule, is_broken)])
}

/// Returns whether a company is BO, and a price a par value.
fn is_par_of_baltimore(company: Company, price: Amount) -> bool
    ensures { result ≡ is_par_of_baltimore company price }
{
    company == Company::BaltimoreOhio && par_square(price).is_some()
}
