//! A decider that decides by bounds, and writes marks.
ghost use Rattle.std.specs.Prelude.{◌≡◌, is_some};
ghost use Rattle.certificate.specs.Read.{IsWritten};

use crate::bits::Bits;
use crate::decider::{Decider, Decision};
use std::alloc::AllocError;
use tables::Amount;

/// Cuts a node if its bound is at most a revenue, splits it otherwise, and writes the mark. The
/// walk ends if the allocation for a mark fails.
#[derive(Drop)]
pub(crate) struct Writer {
    pub(crate) bits: Bits,
    pub(crate) revenue: Amount,
    pub(crate) refused: Option<AllocError>,
}

impl Decider for Writer {
    ghost decides = { λ old bound leaf decision new.
        IsWritten old.bits old.revenue bound decision new.bits (is_some new.refused)
        × (new.revenue ≡ old.revenue) };

    fn decide(&mut self, bound: u64, _is_leaf: bool) -> Decision {
        let splits = bound > self.revenue as u64;
        if let Err(error) = self.bits.push(splits) {
            self.refused = Some(error);
            return Decision::Stop;
        }
        if splits {
            Decision::Split
        } else {
            Decision::Cut
        }
    }

    fn splits(&mut self) -> bool {
        false
    }
}
