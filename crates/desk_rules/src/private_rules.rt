//! The rules that a company breaks by the purchase of a private.
ghost use Rattle.std.specs.Prelude.{◌≡◌, IfOk};
ghost use Rattle.desk_rules.specs.Asked.{private_broken};
ghost use Rattle.events.specs.declared.ruling.Refusal.TheVariants as refusal;
ghost use Rattle.purchases.specs.Private.{is_given, is_too_early, is_wrong_price, owner_agrees};
ghost use Rattle.purchases.specs.Private.{private_costs_too_much};

use desk_map_rules::{Row, rules_of};
use history::{GameView, Holder, Party, PrivateRule, Refusal};
use order_grammar::Offer;
use std::alloc::{AllocError, Global};
use tables::{Amount, Company, Kind, Money, Private, Seat, face};

/// Returns the rules that a company breaks by the purchase of a private. Fails only if allocation
/// fails.
pub(crate) fn private_broken(
    alloc: Global,
    view: &GameView,
    company: Company,
    private: Private,
    price: Amount,
) -> Result<Vec<Refusal>, AllocError>
    ensures { IfOk result (λ rules. rules.items
        ≡ private_broken view.now company private price) }
{
    let is_bop = private == Private::BaltimoreOhio;
    let lacks_consent = !is_bop && !is_given(view, company, private, price);
    let rows = [
        of_private(PrivateRule::TooEarly, is_too_early(view)),
        of_private(PrivateRule::WrongPrice, is_wrong_price(private, price)),
        of_private(PrivateRule::NoConsent, lacks_consent),
        of_private(PrivateRule::NeverSold, is_bop),
        of_private(
            PrivateRule::CashTooSmall,
            private_costs_too_much(view, company, price),
        ),
    ];
    rules_of(alloc, &rows)
}

/// Returns a row of a rule of privates.
fn of_private(rule: PrivateRule, is_broken: bool) -> Row
    ensures { result ≡ record { rule = refusal.Private rule; is_broken = is_broken } }
{
    Row {
        rule: Refusal::Private(rule),
        is_broken,
    }
}

/// Returns whether a company has less cash than a price, in dollars.
pub fn private_costs_too_much(view: &GameView, company: Company, price: Amount) -> bool
    ensures { result ≡ private_costs_too_much view.now company price }
{
    view.cash(Party::of_company(company)) < Money::from(price)
}

/// Returns whether phase 3 has not begun.
fn is_too_early(view: &GameView) -> bool
    ensures { result ≡ is_too_early view.now.events }
{
    view.phase().index() < Kind::Three.index()
}

/// Returns whether a price is less than half of the face value, or more than twice that.
fn is_wrong_price(private: Private, price: Amount) -> bool
    ensures { result ≡ is_wrong_price private price }
{
    let (face, price) = (u64::from(face(private)), u64::from(price));
    price + price < face || face + face < price
}

/// Returns whether a player owns a private, and consents to its sale to a company at a price.
fn is_given(view: &GameView, buyer: Company, private: Private, price: Amount) -> bool
    ensures { result ≡ is_given view.now.events buyer private price }
{
    let sale = Offer::Private {
        private,
        buyer,
        price,
    };
    owner_agrees(view, view.owner(private), view.president(buyer), sale)
}

/// Returns whether this owner is a player who consents to a sale to this seat.
fn owner_agrees(view: &GameView, owner: Option<Holder>, taker: Option<Seat>, sale: Offer) -> bool
    ensures { result ≡ owner_agrees view.now.events owner taker sale }
{
    match (owner, taker) {
        (Some(Holder::Seat(giver)), Some(taker)) => view.has_consent(giver, taker, sale),
        _ => false,
    }
}
