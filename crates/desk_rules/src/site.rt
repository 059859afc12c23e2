//! Where an order stands in a sheet.

use tables::Company;

/// Where an order stands in a sheet, which decides by which rules it is ruled.
#[derive(Clone, Copy)]
pub enum Site {
    /// Above the first turn of a sheet for an opening.
    BeforeTurns,
    /// In a turn of an opening.
    OpeningTurn,
    /// In a turn of a stock round.
    StockTurn,
    /// Above the first COMPANY line of a sheet for an operating round.
    BeforeCompanies,
    /// Among the orders for a company.
    Orders(Company),
}
