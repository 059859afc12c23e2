//! The topics of events, and the accounts that they change.
ghost use Rattle.events.specs.Event.{bidding_of, obeyed_of, payment_of, transfer_of};
ghost use Rattle.events.specs.Offers.{offered_in};
ghost use Rattle.events.specs.Orders.{limit_in, par_of_baltimore_in, said_by};
ghost use Rattle.totals.specs.Bids.{bid_said};
ghost use Rattle.totals.specs.LookBack.{paid_by, paid_to};
ghost use Rattle.totals.specs.Shares.{brought_to, sale_said, taken_from};

use crate::event_folds::{Account, Topic};
use events::{Bidding, Event, Offer, Party, Shareholder};
use tables::{Amount, Company, Private, Seat};

/// The cash of a party.
#[derive(Clone, Copy)]
pub(crate) struct Cash(pub Party);

impl Account for Cash {
    ghost brings = { λ a event. paid_to a.0 (payment_of event) };

    ghost takes = { λ a event. paid_by a.0 (payment_of event) };

    fn brings(&self, event: &Event) -> Amount {
        match event.payment() {
            Some(payment) if payment.to == self.0 => payment.amount,
            _ => 0,
        }
    }

    fn takes(&self, event: &Event) -> Amount {
        match event.payment() {
            Some(payment) if payment.from == self.0 => payment.amount,
            _ => 0,
        }
    }
}

/// A seat's standing bid on a private: a sum, or nothing.
#[derive(Clone, Copy)]
pub(crate) struct BidOn(pub Private, pub Seat);

impl Topic for BidOn {
    type Word = Option<Amount>;

    ghost word = { λ a event. bid_said a.0 a.1 (bidding_of event) };

    fn word(&self, event: &Event) -> Option<Option<Amount>> {
        match event.bidding() {
            Some(Bidding::Made(private, bid)) if private == self.0 && bid.seat == self.1 => {
                Some(Some(bid.amount))
            }
            Some(Bidding::Ended(private)) if private == self.0 => Some(None),
            _ => None,
        }
    }
}

/// The limit of a seat in an auction of a private.
#[derive(Clone, Copy)]
pub(crate) struct LimitOn(pub Private, pub Seat);

impl Topic for LimitOn {
    type Word = Amount;

    ghost word = { λ a event. said_by a.1 (limit_in a.0) (obeyed_of event) };

    fn word(&self, event: &Event) -> Option<Amount> {
        match event {
            Event::Ruled { seat, ruling, .. } if *seat == self.1 => ruling.limit_on(self.0),
            _ => None,
        }
    }
}

/// The par value that a seat sets for BO.
#[derive(Clone, Copy)]
pub(crate) struct ParOrdered(pub Seat);

impl Topic for ParOrdered {
    type Word = Amount;

    ghost word = { λ a event. said_by a.0 par_of_baltimore_in (obeyed_of event) };

    fn word(&self, event: &Event) -> Option<Amount> {
        match event {
            Event::Ruled { seat, ruling, .. } if *seat == self.0 => ruling.par_of_baltimore(),
            _ => None,
        }
    }
}

/// A sale that a seat offers.
#[derive(Clone, Copy)]
pub(crate) struct OfferBy(pub Offer, pub Seat);

impl Topic for OfferBy {
    type Word = Offer;

    ghost word = { λ a event. said_by a.1 (offered_in a.0) (obeyed_of event) };

    fn word(&self, event: &Event) -> Option<Offer> {
        match event {
            Event::Ruled { seat, ruling, .. } if *seat == self.1 => ruling.offer_of(self.0),
            _ => None,
        }
    }
}

/// The shares of a company at a place.
#[derive(Clone, Copy)]
pub(crate) struct Shares(pub Company, pub Shareholder);

impl Account for Shares {
    ghost brings = { λ a event. brought_to a.0 a.1 (transfer_of event) };

    ghost takes = { λ a event. taken_from a.0 a.1 (transfer_of event) };

    fn brings(&self, event: &Event) -> Amount {
        match event.transfer() {
            Some(transfer) if transfer.company == self.0 && transfer.to == self.1 => {
                Amount::from(transfer.shares)
            }
            _ => 0,
        }
    }

    fn takes(&self, event: &Event) -> Amount {
        match event.transfer() {
            Some(transfer) if transfer.company == self.0 && transfer.from == self.1 => {
                Amount::from(transfer.shares)
            }
            _ => 0,
        }
    }
}

/// A seat's sale of shares of a company: the number that goes from the seat to the bank pool.
#[derive(Clone, Copy)]
pub(crate) struct SaleBy(pub Company, pub Seat);

impl Topic for SaleBy {
    type Word = u8;

    ghost word = { λ a event. sale_said a.0 a.1 (transfer_of event) };

    fn word(&self, event: &Event) -> Option<u8> {
        match event.transfer() {
            Some(transfer)
                if transfer.company == self.0
                    && transfer.from == Shareholder::Seat(self.1)
                    && transfer.to == Shareholder::BankPool => { Some(transfer.shares) }
            _ => None,
        }
    }
}
