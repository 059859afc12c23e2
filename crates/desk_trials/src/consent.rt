//! The offer of a private by another player that an order lacks and with which it would be obeyed.
ghost use Rattle.std.specs.Prelude.{◌≡◌};
ghost use Rattle.desk_trials.specs.Consent.{consent_of};

use desk_base::Piece::{Bytes, Words};
use desk_base::{fill, push};
use history::{GameView, Holder, Party, PrivateRule, Refusal};
use order_grammar::{Offer, Order, PlayOrder, print_play_order};
use report::name;
use sheets::Sheets;
use std::alloc::AllocError;
use tables::{Amount, Company, Money, Private, Seat};

/// An offer that a player would have to make.
#[derive(Clone, Copy)]
struct Consent {
    /// Who would make it.
    seat: Seat,
    offer: Offer,
}

/// Adds whose offer would get an order of a company obeyed, if it was refused only because that is
/// lacking. The order is of the player of a seat, and the game is given as it was before the order.
pub(crate) fn push_consent(
    out: &mut Vec<u8>,
    sheets: &Sheets,
    view: &GameView,
    seat: Seat,
    company: Company,
    order: &Order,
    rule: Refusal,
) -> Result<(), AllocError> {
    let Some(consent) = consent_lacking(view, seat, company, order, rule) else {
        return Ok(());
    };
    fill(
        out,
        "; only with %'s ",
        &[Bytes(name(sheets, consent.seat))],
    )?;
    print_play_order(out, PlayOrder::Offer(consent.offer))
}

/// Returns the offer with which an order of a company would be obeyed; `None` if it was refused for
/// another rule, or would be refused even with the offer.
fn consent_lacking(
    view: &GameView,
    seat: Seat,
    company: Company,
    order: &Order,
    rule: Refusal,
) -> Option<Consent> {
    match (rule, order) {
        (
            Refusal::Private(PrivateRule::NoConsent),
            Order::Play(PlayOrder::BuyOwnedPrivate { private, price }),
        ) if *private != Private::BaltimoreOhio && has_cash(view, company, *price) => {
            let Some(Holder::Seat(owner)) = view.owner(*private) else {
                return None;
            };
            let offer = Offer::Private {
                private: *private,
                buyer: company,
                price: *price,
            };
            consent_of(owner, seat, offer)
        }
        _ => None,
    }
}

/// Returns whether a company has a sum in cash, in dollars.
fn has_cash(view: &GameView, company: Company, price: Amount) -> bool {
    view.cash(Party::of_company(company)) >= Money::from(price)
}

/// Returns the offer of the player of a seat to another; `None` if they are the same.
fn consent_of(giver: Seat, taker: Seat, offer: Offer) -> Option<Consent>
    ensures { result ≡ consent_of giver taker offer }
{
    if giver == taker {
        return None;
    }
    Some(Consent { seat: giver, offer })
}
