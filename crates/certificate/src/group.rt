//! One group of a text of certificates: a claim and its marks, with the round and company.

use crate::bits::Bits;
use legal_runs::Claim;
use tables::{Company, Round};

/// A group of a text of certificates: the round and the company of the best runs, what it claims
/// they earn, and the bits by which this is checked.
#[derive(Drop)]
pub struct Group {
    pub round: Round,
    pub company: Company,
    pub claim: Claim,
    pub bits: Bits,
}
