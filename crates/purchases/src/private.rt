//! PRIVATE: the purchase of a private by a company, from the player who owns it.
//!
//! It needs phase 3, a price from half of the face value to twice that, the consent of the player,
//! a private that is not BOP, and the cash. The company owns the private from then on.
ghost use Rattle.std.specs.Prelude.{◌≡◌, OnOk, None, Some};
ghost use Rattle.totals.specs.LookBack.{owner_of};
ghost use Rattle.history.specs.Sound.{IsSound};
ghost use Rattle.purchases.specs.Private.{is_given_by, is_too_early, is_wrong_price, owner_agrees_by};
ghost use Rattle.purchases.specs.Private.{private_bought, private_costs_too_much, private_judgement};
ghost use Rattle.purchases.specs.Private.{private_judgement_by, sold_by};

use crate::consents::Consents;
use history::{Event, GameView, History, Holder, Party, PrivateRule};
use order_grammar::Offer;
use std::alloc::AllocError;
use tables::{Amount, Company, Kind, Money, Private, Seat, face};

/// Returns the first rule that the purchase of a private by a company breaks, given these consents;
/// `None` if it breaks none.
pub fn judge_private(
    history: &History,
    company: Company,
    private: Private,
    price: Amount,
    consents: Consents,
) -> Option<PrivateRule>
    ensures { result ≡ private_judgement_by consents history.now company private price }
{
    judge_terms(&history.now(), company, private, price, consents)
}

/// Returns the first rule that the purchase of a private breaks.
fn judge_terms(
    view: &GameView,
    company: Company,
    private: Private,
    price: Amount,
    consents: Consents,
) -> Option<PrivateRule>
    ensures { result ≡ private_judgement_by consents
        view.now company private price }
{
    tables::rules! { PrivateRule
        TooEarly: is_too_early(view),
        WrongPrice: is_wrong_price(private, price),
        NoConsent: !is_given(view, company, private, price, consents),
        NeverSold: private == Private::BaltimoreOhio,
        CashTooSmall: private_costs_too_much(view, company, price),
    }
}

/// Returns whether a company has less cash than a price.
fn private_costs_too_much(view: &GameView, company: Company, price: Amount) -> bool
    ensures { result ≡ private_costs_too_much
        view.now company price }
{
    view.cash(Party::of_company(company)) < Money::from(price)
}

/// Returns whether phase 3 has not begun.
fn is_too_early(view: &GameView) -> bool
    ensures { result ≡ is_too_early view.now.events }
{
    view.phase().index() < Kind::Three.index()
}

/// Returns whether a price is less than half of the face value, or more than twice that.
fn is_wrong_price(private: Private, price: Amount) -> bool
    ensures { result ≡ is_wrong_price private price }
{
    let (face, price) = (u64::from(face(private)), u64::from(price));
    price + price < face || face + face < price
}

/// Returns whether a player owns a private, and consents to its sale to a company at a price, given
/// these consents.
fn is_given(
    view: &GameView,
    buyer: Company,
    private: Private,
    price: Amount,
    consents: Consents,
) -> bool
    ensures { result ≡ is_given_by consents view.now.events buyer private price }
{
    let sale = Offer::Private {
        private,
        buyer,
        price,
    };
    owner_agrees(
        view,
        view.owner(private),
        view.president(buyer),
        sale,
        consents,
    )
}

/// Returns whether this owner is a player who consents to a sale to this seat, given these
/// consents.
fn owner_agrees(
    view: &GameView,
    owner: Option<Holder>,
    taker: Option<Seat>,
    sale: Offer,
    consents: Consents,
) -> bool
    ensures { result ≡ owner_agrees_by consents view.now.events owner taker sale }
{
    match (owner, taker) {
        (Some(Holder::Seat(giver)), Some(taker)) => consents.agrees(view, giver, taker, sale),
        _ => false,
    }
}

/// Buys a private for a company from the player who owns it, by an order that breaks no rule. Fails
/// only if allocation fails.
pub fn buy_private(
    history: &mut History,
    company: Company,
    private: Private,
    price: Amount,
) -> Result<(), AllocError>
    requires may { private_judgement history.old company private price ≡ None }
    requires sound { IsSound history.old }
    ensures after { OnOk result (history.new ≡ private_bought history.old company private price) }
    ensures sound { OnOk result (IsSound history.new) }
{
    let Some(owner) = history.owner(private) else {
        return Ok(());
    };
    buy_from(history, company, private, price, owner)
}

/// Buys a private for a company from this owner, if that is a player.
fn buy_from(
    history: &mut History,
    company: Company,
    private: Private,
    price: Amount,
    owner: Holder,
) -> Result<(), AllocError>
    requires owner { owner_of history.old.events private ≡ Some owner }
    requires may { private_judgement history.old company private price ≡ None }
    requires sound { IsSound history.old }
    ensures after { OnOk result (history.new
        ≡ sold_by history.old company private price (Some owner)) }
    ensures sound { OnOk result (IsSound history.new) }
{
    let Holder::Seat(seller) = owner else {
        return Ok(());
    };
    history.append(Event::PrivateBought {
        private,
        company,
        seller,
        price,
    })?;
    Ok(())
}
