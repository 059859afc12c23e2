//! What a player buys or sells in one deal: a president's certificate, a share, or a block of
//! shares.
ghost use Rattle.std.specs.Prelude.{◌≡◌};
ghost use Rattle.certs.specs.Purchase.{company_of, shares_bought};

use order_grammar::ShareSource;
use tables::{Amount, Company};

/// What a seat buys in a stock round.
#[derive(Clone, Copy, Debug, PartialEq, Eq)]
pub enum Purchase {
    /// The president's certificate of a company that has not started, two shares, at twice the par
    /// value that the seat sets, in dollars.
    Par { company: Company, price: Amount },
    /// A share of a company that has started.
    Share { company: Company, from: ShareSource },
}

impl Purchase {
    /// Returns the company whose share is bought.
    pub fn company(self) -> Company
        ensures { result ≡ company_of self }
    {
        match self {
            Purchase::Par { company, .. } | Purchase::Share { company, .. } => company,
        }
    }

    /// Returns how many shares are bought.
    pub fn shares(self) -> u8
        ensures { result ≡ shares_bought self }
    {
        match self {
            Purchase::Par { .. } => 2,
            Purchase::Share { .. } => 1,
        }
    }
}

/// What a seat sells: this many shares of a company, as one block.
#[derive(Clone, Copy, Debug, PartialEq, Eq)]
pub struct Sale {
    /// The company whose shares are sold.
    pub company: Company,
    /// How many shares.
    pub shares: Amount,
}
