//! Tables of each company's shares, president and square, read from the totals of a game.
ghost use Rattle.certs.specs.CompanyTables.{AreCompanyTablesOf, AreSharesOf, IsRowOf};
ghost use Rattle.certs.specs.ShareRow.{AreBounded, IsBounded};

use crate::share_places::Row;
use history::{GameView, Shareholder};
use tables::{Company, PerCompany, Seat, Square};

/// The facts of each company, by its place in the roster.
#[derive(Clone, Copy, Debug)]
pub(crate) struct CompanyTables {
    /// The shares of each company by their places.
    pub shares: PerCompany<Row>,
    /// The president of each company, as last recorded.
    pub presidents: PerCompany<Option<Seat>>,
    /// The square of each company.
    pub squares: PerCompany<Option<Square>>,
}

/// Returns the tables of the companies of a game.
pub(crate) fn company_tables_of(view: &GameView) -> CompanyTables
    ensures { AreCompanyTablesOf view.now.events result }
{
    CompanyTables {
        shares: rows_of(view),
        presidents: view.presidents(),
        squares: view.squares(),
    }
}

/// Returns the shares of each company.
fn rows_of(view: &GameView) -> PerCompany<Row>
    ensures shares { AreSharesOf view.now.events result }
    ensures bounded { AreBounded result }
{
    [
        row_of(view, Company::Pennsylvania),
        row_of(view, Company::NewYorkCentral),
        row_of(view, Company::CanadianPacific),
        row_of(view, Company::BaltimoreOhio),
        row_of(view, Company::ChesapeakeOhio),
        row_of(view, Company::Erie),
        row_of(view, Company::NewHaven),
        row_of(view, Company::BostonMaine),
    ]
}

/// Returns the shares of a company.
fn row_of(view: &GameView, company: Company) -> Row
    ensures shares { IsRowOf view.now.events company result }
    ensures bounded { IsBounded result }
{
    [
        view.shares(company, Shareholder::InitialOffering),
        view.shares(company, Shareholder::BankPool),
        view.shares(company, Shareholder::Seat(Seat(0))),
        view.shares(company, Shareholder::Seat(Seat(1))),
        view.shares(company, Shareholder::Seat(Seat(2))),
        view.shares(company, Shareholder::Seat(Seat(3))),
        view.shares(company, Shareholder::Seat(Seat(4))),
        view.shares(company, Shareholder::Seat(Seat(5))),
    ]
}
