//! OFFER: a seat consents to a sale in this round, by a standing line.
//!
//! An offer of a train is refused if the seat is not the president of the selling company, or if
//! the price is 0. An offer of a private is refused if the seat does not own it. All other offers
//! are obeyed: what a sale needs besides consent is checked at the sale.
ghost use Rattle.std.specs.Prelude.{◌≡◌};
ghost use Rattle.purchases.specs.Offer.{offer_judgement};
ghost use Rattle.totals.specs.LookBack.{is_owner};

use crate::discard::is_president;
use history::{History, Holder, PrivateRule, Refusal, TrainRule};
use order_grammar::Offer;
use tables::Seat;

/// Returns the rule that an offer of a seat breaks; `None` if it breaks none.
pub(crate) fn judge_offer(history: &History, seat: Seat, sale: Offer) -> Option<Refusal>
    ensures { result ≡ offer_judgement history.now.events seat sale }
{
    match sale {
        Offer::Train { seller, price, .. } => {
            let president = history.now().president(seller);
            let broken = tables::rules! { TrainRule
                NoConsent: price == 0 || !is_president(president, seat),
            };
            broken.map(Refusal::Train)
        }
        Offer::Private { private, .. } => {
            let broken = tables::rules! { PrivateRule
                NoConsent: !is_owner(seat, history.owner(private)),
            };
            broken.map(Refusal::Private)
        }
    }
}

/// Returns whether a seat is this owner.
fn is_owner(seat: Seat, owner: Option<Holder>) -> bool
    ensures { result ≡ is_owner seat owner }
{
    matches!(owner, Some(Holder::Seat(owner)) if owner == seat)
}
