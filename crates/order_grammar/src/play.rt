//! The orders of play, but for a run through places: they take few bytes.

use crate::order::{Offer, ShareSource, TrainSource};
use map_tables::{Lay, Place};
use tables::{Amount, Company, Kind, Private};

/// An order of play in few bytes: any but a run through places, for which an `Order` has room.
#[derive(Clone, Copy)]
pub enum PlayOrder {
    /// `BUY p`: buy a private at its price.
    BuyPrivate(Private),
    /// `BID p n`: bid this many dollars for a private.
    Bid { private: Private, amount: Amount },
    /// `LIMIT p n`: bid up to this many dollars if a private is auctioned.
    Limit { private: Private, amount: Amount },
    /// `PAR co n`: start a company at a par value in dollars.
    Par { company: Company, price: Amount },
    /// `BUY co IPO` or `BUY co POOL`: buy one share of a company.
    BuyShare { company: Company, from: ShareSource },
    /// `SELL co n`: sell this many shares of a company as one block.
    Sell { company: Company, shares: Amount },
    /// `EXCHANGE MH`: give up the private MH for one share of NYC.
    ExchangeMohawk,
    /// `LAY tile hex rot` or `LAY tile hex rot SWAP`: lay a tile on a hex, turned by this many
    /// sixths, with its stops swapped or not.
    Lay(Lay),
    /// `TOKEN place`: place a token at a stop.
    Token(Place),
    /// `RUN BEST`: run the trains so that they earn the greatest revenue.
    RunBest,
    /// `PAY`: pay out the revenue of the turn.
    Pay,
    /// `WITHHOLD`: keep the revenue of the turn.
    Withhold,
    /// `TRAIN kind BANK`, `TRAIN kind BANK TRADE kind`, `TRAIN kind POOL` or `TRAIN kind co n`: buy
    /// a train of a kind.
    BuyTrain { kind: Kind, from: TrainSource },
    /// `DISCARD co kind`: if a company has too many trains, give up one of this kind.
    Discard { company: Company, kind: Kind },
    /// `PRIVATE p n`: buy a private from the player who owns it, for this many dollars.
    BuyOwnedPrivate { private: Private, price: Amount },
    /// `RAISE co n`: sell this many shares of a company, if it must buy a train that it and its
    /// president cannot pay for.
    Raise { company: Company, shares: Amount },
    /// `OFFER PRIVATE p co n` or `OFFER TRAIN kind co co n`: consent to a sale in this round.
    Offer(Offer),
}
