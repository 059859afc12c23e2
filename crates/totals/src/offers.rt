//! Sales to which a seat has consented.
ghost use Rattle.std.specs.Prelude.{◌≡◌};
ghost use Rattle.totals.specs.Offers.{has_consent, has_offered, is_among};

use crate::event_folds::{InRound, last_said};
use crate::event_topics::OfferBy;
use crate::look_back::GameView;
use events::{Offer, is_offer};
use tables::Seat;

impl GameView<'_> {
    /// Returns whether a seat has offered exactly this sale, by an OFFER line that was obeyed in
    /// this round.
    pub fn has_offered(&self, seat: Seat, sale: Offer) -> bool
        ensures { result ≡ has_offered self.now.events seat sale }
    {
        match self.offers() {
            Some(offers) => is_among(offers, seat, sale),
            None => last_said(&InRound(OfferBy(sale, seat)), self.events())
                .flatten()
                .is_some(),
        }
    }

    /// Returns whether the giving seat consents to a sale to this seat: they are the same, or the
    /// giver has offered exactly this sale in this round.
    pub fn has_consent(&self, giver: Seat, taker: Seat, sale: Offer) -> bool
        ensures { result ≡ has_consent self.now.events giver taker sale }
    {
        giver == taker || self.has_offered(giver, sale)
    }
}

/// Returns whether a seat's offer of exactly this sale is among these.
fn is_among(offers: &[(Seat, Offer)], seat: Seat, sale: Offer) -> bool
    ensures { result ≡ is_among seat sale offers.now }
{
    for offer in offers {
        if offer.0 == seat && is_offer(offer.1, sale) {
            return true;
        }
    }
    false
}
