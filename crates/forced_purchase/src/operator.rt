//! A company with its president, who gives its orders.

use tables::{Company, Seat};

/// A company, and the seat that gives its orders.
#[derive(Clone, Copy, Debug)]
pub struct Operator {
    /// The company.
    pub company: Company,
    /// Its president.
    pub president: Seat,
}
