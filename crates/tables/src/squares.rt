//! Squares and zones of the stock market.

/// A square of the stock market, by its row from 0 (the printed A) downwards and its column from 1.
#[derive(Clone, Copy, Debug, PartialEq, Eq)]
pub struct Square {
    pub row: u8,
    pub column: u8,
}

/// A zone of the stock market. In a zone some limits do not hold for a company.
#[derive(Clone, Copy, Debug, PartialEq, Eq)]
pub enum Zone {
    /// No zone.
    White,
    /// Certificates do not count against the limit.
    Yellow,
    /// Also, the limit of six shares does not hold.
    Orange,
    /// Also, a player may buy several certificates in a turn.
    Brown,
}
