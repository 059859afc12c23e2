//! The events of a game, and the aspects of each: what it pays, which shares or trains it moves,
//! what it sets for privates and companies, and who acts.
ghost use Rattle.std.specs.Prelude.{◌≡◌};
ghost use Rattle.events.specs.Event.{actor_of, bidding_of, floated_by, office_of, operated_by, ownership_of, par_set};
ghost use Rattle.events.specs.Event.{party_at, party_of_company, party_of_seller, payment_of, phase_set};
ghost use Rattle.events.specs.Event.{place_of_seller, place_of_source, round_begun_by, ruled_by, square_set};
ghost use Rattle.events.specs.Event.{train_owner_place, sum_of, sv_price_set, tile_laid, token_placed, train_moved};
ghost use Rattle.events.specs.Event.{transfer_of};
ghost use Rattle.events.specs.declared.event.Party.TheVariants.{Bank};
ghost use Rattle.tables.specs.Seat.{seat_at};

use crate::packed::PackedRuling;
use map_tables::{Lay, Place};
use order_grammar::ShareSource;
use tables::{Amount, Company, Kind, Private, Round, Seat, Square, par_square};

/// The greatest sum of money in an event, in dollars.
pub const SUM_MOST: Amount = 1_000_000;

/// Who can own a private.
#[derive(Clone, Copy, Debug, PartialEq, Eq)]
pub enum Holder {
    /// The player of a seat.
    Seat(Seat),
    /// A share company.
    Company(Company),
}

/// Who can pay and be paid.
#[derive(Clone, Copy, Debug, PartialEq, Eq)]
pub enum Party {
    /// The bank, whose cash may be negative.
    Bank,
    /// A player or a company.
    Holder(Holder),
}

impl Party {
    /// Returns the player of a seat.
    pub fn of_seat(seat: Seat) -> Party
        ensures { result ≡ party_at seat }
    {
        Party::Holder(Holder::Seat(seat))
    }

    /// Returns a share company.
    pub fn of_company(company: Company) -> Party
        ensures { result ≡ party_of_company company }
    {
        Party::Holder(Holder::Company(company))
    }

    /// Returns who is paid for a train that is bought from a seller.
    fn of_seller(seller: TrainSeller) -> Party
        ensures { result ≡ party_of_seller seller }
    {
        match seller {
            TrainSeller::Bank | TrainSeller::BankPool => Party::Bank,
            TrainSeller::Company(company) => Party::of_company(company),
        }
    }
}

/// What happened, as one line of the report.
#[derive(Drop)]
pub enum Event {
    /// A round begins.
    Round(Round),
    /// A line of a seat's sheet was ruled.
    Ruled {
        seat: Seat,
        line: u32,
        ruling: PackedRuling,
    },
    /// A seat's turn ends without an act.
    Passes(Seat),
    /// This many lines of a seat's sheet were not reached in the round.
    Left {
        seat: Seat,
        lines: u32,
    },
    /// A seat pays the bank for a private, and owns it from then on.
    Sold {
        private: Private,
        seat: Seat,
        price: Amount,
    },
    /// A seat bids on a private. The bid holds until the private is sold, or the seat bids on it
    /// again.
    Bids {
        private: Private,
        seat: Seat,
        amount: Amount,
    },
    /// SV has this price from then on.
    Price {
        price: Amount,
    },
    /// The bank pays a private's revenue to its owner.
    Revenue {
        private: Private,
        owner: Holder,
        amount: Amount,
    },
    /// A company's shares go from the initial offering to a seat.
    Given {
        company: Company,
        seat: Seat,
        shares: u8,
    },
    /// A company's par value is set, and its token is on the square of that par.
    Par {
        company: Company,
        price: Amount,
    },
    /// A seat is the president of a company from then on.
    President {
        company: Company,
        seat: Seat,
    },
    /// A seat pays the bank for shares of a company, which come from the initial offering or from
    /// the bank pool. The price is for all of them.
    Bought {
        company: Company,
        seat: Seat,
        shares: u8,
        from: ShareSource,
        price: Amount,
    },
    /// The bank pays a seat for shares of a company, which go to the bank pool. The price is for
    /// all of them.
    Sells {
        company: Company,
        seat: Seat,
        shares: u8,
        price: Amount,
    },
    /// MH's owner gives it up for one share of NYC; nobody owns it from then on.
    Exchanged {
        seat: Seat,
        from: ShareSource,
    },
    /// A company floats: the bank pays it ten times its par value.
    Floats {
        company: Company,
        amount: Amount,
    },
    /// A company's token moves to a square.
    Moves {
        company: Company,
        square: Square,
    },
    /// A company places the token of its home, for nothing.
    Home {
        company: Company,
        place: Place,
    },
    /// A company lays a tile, and pays the bank what the terrain costs.
    Laid {
        company: Company,
        lay: Lay,
        cost: Amount,
    },
    /// A company places a token, and pays the bank for it.
    Token {
        company: Company,
        place: Place,
        cost: Amount,
    },
    /// A company withholds what it earned: the bank pays that to it. The company can no longer run
    /// in this turn.
    Withheld {
        company: Company,
        amount: Amount,
    },
    /// A company runs trains, which earn this much.
    Runs {
        company: Company,
        revenue: Amount,
    },
    /// The bank pays a holder of a company's shares their part of what the company earned. The
    /// company itself is paid for the shares in the bank pool.
    Dividend {
        company: Company,
        holder: Holder,
        amount: Amount,
    },
    /// A company trades in a train, which goes to the bank pool.
    Traded {
        company: Company,
        kind: Kind,
    },
    /// A company pays for a train: it pays the bank, for its own trains and those of its pool, or
    /// the company that sells it.
    Train {
        company: Company,
        kind: Kind,
        from: TrainSeller,
        price: Amount,
    },
    /// The first train of a kind begins this phase.
    Phase(Kind),
    /// A train of a company, or of the bank pool if no company is named, is removed from the game.
    Rusted {
        owner: Option<Company>,
        kind: Kind,
    },
    /// A company has too many trains, and one of them goes to the bank pool.
    Discarded {
        company: Company,
        kind: Kind,
    },
    /// A private closes: nobody owns it from then on.
    Closed(Private),
    /// A company pays a seat for a private, and owns it from then on.
    PrivateBought {
        private: Private,
        company: Company,
        seller: Seat,
        price: Amount,
    },
    /// A company must buy a train.
    Forced(Company),
    /// A president pays a company what it lacks for a train that it must buy.
    Aid {
        seat: Seat,
        company: Company,
        amount: Amount,
    },
    /// A president cannot pay what the company lacks for a train that it must buy. The game is
    /// over.
    Bankrupt(Seat),
    /// The bank's cash fell to 0 or less.
    Broken,
}

// An event is small, since a game keeps every event.
const _: () = prove!(size_of::<Event>() <= 24);

/// Where a company buys a train.
#[derive(Clone, Copy, Debug, PartialEq, Eq)]
pub enum TrainSeller {
    /// The bank, which sells it for the first time.
    Bank,
    /// The bank pool, to which a company gave it back.
    BankPool,
    /// A company.
    Company(Company),
}

/// Money that an event moves.
#[derive(Clone, Copy)]
pub struct Payment {
    /// Who pays.
    pub from: Party,
    /// Who is paid.
    pub to: Party,
    /// How many dollars.
    pub amount: Amount,
}

impl Payment {
    /// Returns what a party pays the bank.
    fn to_bank(from: Party, amount: Amount) -> Payment
        ensures { result ≡ record { from = from; to = Bank; amount = amount } }
    {
        Payment {
            from,
            to: Party::Bank,
            amount,
        }
    }

    /// Returns what the bank pays a party.
    fn of_bank(to: Party, amount: Amount) -> Payment
        ensures { result ≡ record { from = Bank; to = to; amount = amount } }
    {
        Payment {
            from: Party::Bank,
            to,
            amount,
        }
    }
}

/// The owner of a private that an event sets.
#[derive(Clone, Copy)]
pub struct Ownership {
    /// The private.
    pub private: Private,
    /// Who owns it from then on; `None` if nobody does.
    pub owner: Option<Holder>,
}

/// A bid of a seat.
#[derive(Clone, Copy)]
pub struct Bid {
    /// Who bids.
    pub seat: Seat,
    /// How many dollars.
    pub amount: Amount,
}

impl Default for Bid {
    ghost is_default = { λ bid. bid ≡ record { seat = seat_at 0; amount = 0 } };

    fn default() -> Bid {
        Bid {
            seat: Seat(0),
            amount: 0,
        }
    }
}

/// What an event does to the bids on a private.
#[derive(Clone, Copy)]
pub enum Bidding {
    /// A bid on a private, which replaces an older one of that seat.
    Made(Private, Bid),
    /// The bids on a private end.
    Ended(Private),
}

/// Where shares of a company are.
#[derive(Clone, Copy, Debug, PartialEq, Eq)]
pub enum Shareholder {
    /// With the bank, never bought yet.
    InitialOffering,
    /// With the bank, sold to it by players.
    BankPool,
    /// With a player.
    Seat(Seat),
}

impl Shareholder {
    /// Returns where a share bought from this source is.
    pub fn of_source(source: ShareSource) -> Shareholder
        ensures { result ≡ place_of_source source }
    {
        match source {
            ShareSource::InitialOffering => Shareholder::InitialOffering,
            ShareSource::BankPool => Shareholder::BankPool,
        }
    }
}

/// Shares of a company that an event moves.
#[derive(Clone, Copy)]
pub struct Transfer {
    /// The company.
    pub company: Company,
    /// Where they were.
    pub from: Shareholder,
    /// Where they are from then on.
    pub to: Shareholder,
    /// How many shares of the company.
    pub shares: u8,
}

/// A company's par value that an event sets.
#[derive(Clone, Copy)]
pub struct ParValue {
    /// The company.
    pub company: Company,
    /// Its par value in dollars.
    pub price: Amount,
}

/// A company's square on the stock market that an event sets.
#[derive(Clone, Copy)]
pub struct Placement {
    /// The company.
    pub company: Company,
    /// The square of its token.
    pub square: Square,
}

/// A company's presidency that an event sets.
#[derive(Clone, Copy)]
pub struct Office {
    /// The company.
    pub company: Company,
    /// Its president.
    pub president: Seat,
}

/// Where a train is.
#[derive(Clone, Copy)]
pub enum TrainPlace {
    /// With the bank, never sold yet.
    Bank,
    /// With the bank, given back to it by a company.
    BankPool,
    /// With a company.
    Company(Company),
    /// Rusted, and with nobody.
    OutOfPlay,
}

impl TrainPlace {
    /// Returns where a train bought from this seller is.
    pub fn of_seller(seller: TrainSeller) -> TrainPlace
        ensures { result ≡ place_of_seller seller }
    {
        match seller {
            TrainSeller::Bank => TrainPlace::Bank,
            TrainSeller::BankPool => TrainPlace::BankPool,
            TrainSeller::Company(company) => TrainPlace::Company(company),
        }
    }

    /// Returns where the trains of a company are, or those of the bank pool if there is no owner.
    pub fn of_owner(owner: Option<Company>) -> TrainPlace
        ensures { result ≡ train_owner_place owner }
    {
        match owner {
            Some(company) => TrainPlace::Company(company),
            None => TrainPlace::BankPool,
        }
    }
}

/// A train that an event moves.
#[derive(Clone, Copy)]
pub struct TrainMove {
    /// Its kind.
    pub kind: Kind,
    /// Where it was.
    pub from: TrainPlace,
    /// Where it is from then on.
    pub to: TrainPlace,
}

impl Event {
    /// Returns the money that it moves.
    pub fn payment(&self) -> Option<Payment>
        ensures { result ≡ payment_of self.now }
    {
        match self {
            Event::Sold { seat, price, .. } | Event::Bought { seat, price, .. } => {
                Some(Payment::to_bank(Party::of_seat(*seat), *price))
            }
            Event::Laid { company, cost, .. } | Event::Token { company, cost, .. } => {
                Some(Payment::to_bank(Party::of_company(*company), *cost))
            }
            Event::Train {
                company,
                from,
                price,
                ..
            } => Some(Payment {
                from: Party::of_company(*company),
                to: Party::of_seller(*from),
                amount: *price,
            }),
            Event::PrivateBought {
                company,
                seller,
                price,
                ..
            } => Some(Payment {
                from: Party::of_company(*company),
                to: Party::of_seat(*seller),
                amount: *price,
            }),
            Event::Aid {
                seat,
                company,
                amount,
            } => Some(Payment {
                from: Party::of_seat(*seat),
                to: Party::of_company(*company),
                amount: *amount,
            }),
            Event::Revenue { owner, amount, .. } => {
                Some(Payment::of_bank(Party::Holder(*owner), *amount))
            }
            Event::Dividend { holder, amount, .. } => {
                Some(Payment::of_bank(Party::Holder(*holder), *amount))
            }
            Event::Sells { seat, price, .. } => {
                Some(Payment::of_bank(Party::of_seat(*seat), *price))
            }
            Event::Floats { company, amount } | Event::Withheld { company, amount } => {
                Some(Payment::of_bank(Party::of_company(*company), *amount))
            }
            _ => None,
        }
    }

    /// Returns the sum of money that it names, or 0.
    pub fn sum(&self) -> Amount
        ensures { result ≡ sum_of self.now }
    {
        match self {
            Event::Sold { price, .. } | Event::Price { price } | Event::Par { price, .. } => *price,
            Event::Bids { amount, .. } | Event::Revenue { amount, .. } => *amount,
            Event::Bought { price, .. } | Event::Sells { price, .. } => *price,
            Event::Floats { amount, .. } | Event::Withheld { amount, .. } => *amount,
            Event::Laid { cost, .. } | Event::Token { cost, .. } => *cost,
            Event::Runs { revenue, .. } => *revenue,
            Event::Dividend { amount, .. } | Event::Aid { amount, .. } => *amount,
            Event::Train { price, .. } | Event::PrivateBought { price, .. } => *price,
            _ => 0,
        }
    }

    /// Returns the owner of a private that it sets.
    pub fn ownership(&self) -> Option<Ownership>
        ensures { result ≡ ownership_of self.now }
    {
        // Every look back over the list asks this of each event, nearly always in vain. A few
        // comparisons cost about the same on every machine; the indirect jump of a `match` costs
        // ten times as much on some.
        if let Event::Sold { private, seat, .. } = self {
            Some(Ownership {
                private: *private,
                owner: Some(Holder::Seat(*seat)),
            })
        } else if let Event::Exchanged { .. } = self {
            Some(Ownership {
                private: Private::MohawkHudson,
                owner: None,
            })
        } else if let Event::Closed(private) = self {
            Some(Ownership {
                private: *private,
                owner: None,
            })
        } else if let Event::PrivateBought {
            private,
            company,
            ..
        } = self
        {
            Some(Ownership {
                private: *private,
                owner: Some(Holder::Company(*company)),
            })
        } else {
            None
        }
    }

    /// Returns the bid on a private that it makes, or that it ends the bids on one.
    pub fn bidding(&self) -> Option<Bidding>
        ensures { result ≡ bidding_of self.now }
    {
        // Comparisons, as above.
        if let Event::Bids {
            private,
            seat,
            amount,
        } = self
        {
            let bid = Bid {
                seat: *seat,
                amount: *amount,
            };
            Some(Bidding::Made(*private, bid))
        } else if let Event::Sold { private, .. } = self {
            Some(Bidding::Ended(*private))
        } else {
            None
        }
    }

    /// Returns the shares that it moves.
    pub fn transfer(&self) -> Option<Transfer>
        ensures { result ≡ transfer_of self.now }
    {
        match self {
            Event::Given {
                company,
                seat,
                shares,
            } => Some(Transfer {
                company: *company,
                from: Shareholder::InitialOffering,
                to: Shareholder::Seat(*seat),
                shares: *shares,
            }),
            Event::Bought {
                company,
                seat,
                shares,
                from,
                ..
            } => Some(Transfer {
                company: *company,
                from: Shareholder::of_source(*from),
                to: Shareholder::Seat(*seat),
                shares: *shares,
            }),
            Event::Sells {
                company,
                seat,
                shares,
                ..
            } => Some(Transfer {
                company: *company,
                from: Shareholder::Seat(*seat),
                to: Shareholder::BankPool,
                shares: *shares,
            }),
            Event::Exchanged { seat, from } => Some(Transfer {
                company: Company::NewYorkCentral,
                from: Shareholder::of_source(*from),
                to: Shareholder::Seat(*seat),
                shares: 1,
            }),
            _ => None,
        }
    }

    /// Returns the par value that it sets.
    pub fn par(&self) -> Option<ParValue>
        ensures { result ≡ par_set self.now }
    {
        match self {
            Event::Par { company, price } => Some(ParValue {
                company: *company,
                price: *price,
            }),
            _ => None,
        }
    }

    /// Returns the square that it sets: that of a par value, or the one to which the token moves.
    pub fn square(&self) -> Option<Placement>
        ensures { result ≡ square_set self.now }
    {
        match self {
            Event::Par { company, price } => {
                let square = par_square(*price)?;
                Some(Placement {
                    company: *company,
                    square,
                })
            }
            Event::Moves { company, square } => Some(Placement {
                company: *company,
                square: *square,
            }),
            _ => None,
        }
    }

    /// Returns the presidency that it sets.
    pub fn office(&self) -> Option<Office>
        ensures { result ≡ office_of self.now }
    {
        match self {
            Event::President { company, seat } => Some(Office {
                company: *company,
                president: *seat,
            }),
            _ => None,
        }
    }

    /// Returns the company that floats by it.
    pub fn floated(&self) -> Option<Company>
        ensures { result ≡ floated_by self.now }
    {
        match self {
            Event::Floats { company, .. } => Some(*company),
            _ => None,
        }
    }

    /// Returns the price of SV that it sets.
    pub fn sv_price(&self) -> Option<Amount>
        ensures { result ≡ sv_price_set self.now }
    {
        match self {
            Event::Price { price } => Some(*price),
            _ => None,
        }
    }

    /// Returns the tile that it lays.
    pub fn lay(&self) -> Option<Lay>
        ensures { result ≡ tile_laid self.now }
    {
        match self {
            Event::Laid { lay, .. } => Some(*lay),
            _ => None,
        }
    }

    /// Returns the token that it places: where, and whose.
    pub fn token(&self) -> Option<(Place, Company)>
        ensures { result ≡ token_placed self.now }
    {
        match self {
            Event::Home { company, place } | Event::Token { company, place, .. } => {
                Some((*place, *company))
            }
            _ => None,
        }
    }

    /// Returns the company that operates by it: its train runs, or it withholds.
    pub fn operated(&self) -> Option<Company>
        ensures { result ≡ operated_by self.now }
    {
        match self {
            Event::Runs { company, .. } | Event::Withheld { company, .. } => Some(*company),
            _ => None,
        }
    }

    /// Returns the train that it moves.
    pub fn train(&self) -> Option<TrainMove>
        ensures { result ≡ train_moved self.now }
    {
        match self {
            Event::Train {
                company,
                kind,
                from,
                ..
            } => Some(TrainMove {
                kind: *kind,
                from: TrainPlace::of_seller(*from),
                to: TrainPlace::Company(*company),
            }),
            Event::Traded { company, kind } | Event::Discarded { company, kind } => {
                Some(TrainMove {
                    kind: *kind,
                    from: TrainPlace::Company(*company),
                    to: TrainPlace::BankPool,
                })
            }
            Event::Rusted { owner, kind } => Some(TrainMove {
                kind: *kind,
                from: TrainPlace::of_owner(*owner),
                to: TrainPlace::OutOfPlay,
            }),
            _ => None,
        }
    }

    /// Returns the phase that it begins.
    pub fn phase(&self) -> Option<Kind>
        ensures { result ≡ phase_set self.now }
    {
        match self {
            Event::Phase(kind) => Some(*kind),
            _ => None,
        }
    }

    /// Returns the seat whose line it rules.
    pub fn ruled(&self) -> Option<Seat>
        ensures { result ≡ ruled_by self.now }
    {
        match self {
            Event::Ruled { seat, .. } => Some(*seat),
            _ => None,
        }
    }

    /// Returns the round that it begins.
    pub fn round(&self) -> Option<Round>
        ensures { result ≡ round_begun_by self.now }
    {
        match self {
            Event::Round(round) => Some(*round),
            _ => None,
        }
    }

    /// Returns the seat that acted in its own turn by it: that bought a private or bid on one, or
    /// bought or sold shares of a company.
    pub fn actor(&self) -> Option<Seat>
        ensures { result ≡ actor_of self.now }
    {
        match self {
            Event::Bought { seat, .. } => Some(*seat),
            Event::Ruled { seat, ruling, .. } if ruling.is_act() => Some(*seat),
            _ => None,
        }
    }
}
