//! What `best` returns.

use certificate::{Bits, Claim};

/// The best that a company's trains can do.
#[derive(Drop)]
pub struct Best {
    /// The greatest revenue, in dollars, and runs that earn it.
    pub claim: Claim,
    /// Marks, which show without a search that no runs earn more.
    pub marks: Bits,
}
