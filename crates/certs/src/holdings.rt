//! The shares of every company by who holds them, as a table that is read from a game. A transfer
//! moves shares within it.
ghost use Rattle.std.specs.Prelude.{◌≡◌, ◌≤ℤ◌, pos};
ghost use Rattle.certs.specs.ShareRow.{AreBounded};
ghost use Rattle.tables.specs.declared.roster.Company.{Company};

use crate::company_tables::{CompanyTables, company_tables_of};
use crate::share_places::{Row, index_of, moved};
use history::{GameView, History, Owners, ShareCount, Shareholder, Transfer};
use tables::{Company, PerCompany, Seat, Square};

/// Who holds what in a game, in tables by the places of the companies in the roster.
#[derive(Clone, Copy, Debug)]
pub struct Holdings {
    pub(crate) seats: usize,
    shares: PerCompany<Row>,
    pub(crate) presidents: PerCompany<Option<Seat>>,
    pub(crate) squares: PerCompany<Option<Square>>,
    pub(crate) owners: Owners,
    ghost bounded: { AreBounded shares },
}

impl Holdings {
    ghost use Rattle.certs.specs.Holdings.{AreHoldingsAt, AreHoldingsOf, MovesShares, shares_in};

    /// Returns the holdings of a game, read from the totals of its events.
    pub fn of(history: &History) -> Holdings
        ensures { AreHoldingsOf history.now result }
    {
        Holdings::at(&history.now())
    }

    /// Returns the holdings of a game, as it was at an earlier event, read from the totals of its
    /// events until then.
    pub fn at(view: &GameView) -> Holdings
        ensures { AreHoldingsAt view.now result }
    {
        let CompanyTables {
            shares,
            presidents,
            squares,
        } = company_tables_of(view);
        Holdings {
            seats: view.seats(),
            shares,
            presidents,
            squares,
            owners: view.owners(),
        }
    }

    /// Returns the shares of a company at a place. Only the first six seats have places.
    pub fn shares(&self, company: Company, place: Shareholder) -> ShareCount
        ensures { result ≡ shares_in self.now company place }
    {
        self.shares[company.index()]
            .get(index_of(place))
            .copied()
            .unwrap_or(0)
    }

    /// Moves shares of a company from one place, which has them, to another. A seat past the sixth
    /// has no place: shares that go to it leave the table.
    pub fn transfer(&mut self, transfer: Transfer)
        requires { pos transfer.shares ≤ℤ shares_in self.old transfer.company transfer.from }
        ensures { MovesShares self.old self.new transfer }
    {
        let place = transfer.company.index();
        let mut shares = self.shares;
        shares[place] = moved(
            shares[place],
            index_of(transfer.from),
            index_of(transfer.to),
            transfer.shares,
        );
        self.shares = shares;
    }
}
