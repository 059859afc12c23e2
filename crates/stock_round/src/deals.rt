//! What a seat has bought and sold in its turn; a seat that has done neither passes.
ghost use Rattle.std.specs.Prelude.{◌≡◌};
ghost use Rattle.stock_round.specs.Deals.{has_acted, with_purchase, with_sale};

use tables::Company;

/// What a seat has done in a turn: the company whose share it has bought, if any, and whether it
/// has sold shares.
#[derive(Clone, Copy, Debug, Default)]
pub struct ShareDeals {
    /// The company whose share the seat has bought.
    pub bought: Option<Company>,
    /// Whether the seat has sold.
    pub sold: bool,
}

impl ShareDeals {
    /// Returns the deals with a purchase of a certificate of a company added.
    pub(crate) fn with_purchase(self, company: Company) -> ShareDeals
        ensures { result ≡ with_purchase self company }
    {
        ShareDeals {
            bought: Some(company),
            sold: self.sold,
        }
    }

    /// Returns the deals with a sale added.
    pub(crate) fn with_sale(self) -> ShareDeals
        ensures { result ≡ with_sale self }
    {
        ShareDeals {
            bought: self.bought,
            sold: true,
        }
    }

    /// Returns whether the seat has bought or sold; otherwise it passes.
    pub(crate) fn has_acted(self) -> bool
        ensures { result ≡ has_acted self }
    {
        self.bought.is_some() || self.sold
    }
}
