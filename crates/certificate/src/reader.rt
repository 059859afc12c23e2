//! A decider that reads marks.
ghost use Rattle.std.specs.Prelude.{◌≡◌, Bool, List, MatchOption, [], ◌∷◌, drop, get_or, false};
ghost use Rattle.certificate.specs.Read.{IsRead};

use crate::bits::BitReader;
use crate::decider::{Decider, Decision};
use tables::Amount;

/// Marks that are read one after another.
pub(crate) trait Marks {
    /// The marks that are left.
    ghost left: { Self → List Bool };

    /// Returns the next mark; `None` if none is left.
    fn next_mark(&mut self) -> Option<bool>
        ensures { MatchOption result ((left self.old ≡ []) × (left self.new ≡ []))
            (λ mark. left self.old ≡ mark ∷ left self.new) };

    /// Returns whether the next mark is 1; false if none is left.
    fn is_one(&self) -> bool
        ensures { result ≡ get_or (left self.now) 0 false };
}

impl Marks for BitReader<'_> {
    ghost left = { λ reader. reader };

    fn next_mark(&mut self) -> Option<bool> {
        self.read()
    }

    fn is_one(&self) -> bool {
        BitReader::is_one(self)
    }
}

/// Marks of a slice.
#[derive(Drop)]
pub(crate) struct SliceMarks<'a> {
    pub(crate) marks: &'a [bool],
}

impl Marks for SliceMarks<'_> {
    ghost left = { λ slice. slice.marks.now };

    fn next_mark(&mut self) -> Option<bool> {
        let (first, later) = self.marks.split_first()?;
        self.marks = later;
        Some(*first)
    }

    fn is_one(&self) -> bool {
        match self.marks.first() {
            Some(first) => *first,
            None => false,
        }
    }
}

/// Decides by marks: 0 cuts a node whose bound is at most a revenue, and 1 splits one that is not a
/// leaf. If the next mark does neither, or there is none, the walk ends.
#[derive(Drop)]
pub(crate) struct Reader<M: Drop> {
    pub(crate) marks: M,
    pub(crate) revenue: Amount,
}

impl<M: Marks + Drop> Decider for Reader<M> {
    ghost decides = { λ old bound leaf decision new.
        IsRead (M.left old.marks) old.revenue bound leaf decision (M.left new.marks)
        × (new.revenue ≡ old.revenue) };

    fn decide(&mut self, bound: u64, is_leaf: bool) -> Decision {
        match self.marks.next_mark() {
            None => Decision::Stop,
            Some(true) => {
                if is_leaf {
                    Decision::Stop
                } else {
                    Decision::Split
                }
            }
            Some(false) => {
                if bound <= self.revenue as u64 {
                    Decision::Cut
                } else {
                    Decision::Stop
                }
            }
        }
    }

    fn splits(&mut self) -> bool {
        if !self.marks.is_one() {
            return false;
        }
        let _one = self.marks.next_mark();
        true
    }
}
