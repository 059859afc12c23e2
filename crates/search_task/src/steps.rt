//! The steps of a leg. A few are kept without allocating.
ghost use Rattle.std.specs.Prelude.{◌≡◌, ◌∷◌, ◌++◌, [], IfOk};

use reach::WalkStep;
use std::alloc::{AllocError, Global};
use std::marker::Model;

/// How many steps are kept without allocating.
const FEW: usize = 4;

/// Some steps, in order. They are the first of `few`, or `others` if there are any of these.
#[derive(Drop)]
pub struct Steps {
    few: [WalkStep; FEW],
    count: usize,
    others: Vec<WalkStep>,
}

impl Model for Steps {
    ghost use Rattle.search_task.specs.Walked.{Walked};

    ghost Value = { Walked };

    ghost use Rattle.std.specs.Prelude.{◌≡◌, ◌++◌, ◌<◌, ◌≤◌, [], take};

    ghost view = { λ steps. record { items = take steps.count steps.few ++ steps.others.items } };

    ghost invariant = { λ steps. (steps.count ≤ 4) × (0 < steps.count → steps.others.items ≡ []) };
}

impl Steps {
    /// Returns some steps, and one more after them. Fails only if allocation fails.
    pub(crate) fn of(alloc: Global, first: &[WalkStep], last: WalkStep) -> Result<Steps, AllocError>
        ensures { IfOk result (λ steps. steps.items ≡ first.now ++ last ∷ []) }
    {
        let mut few = [last; FEW];
        let mut others = Vec::new(alloc);
        if first.len() < FEW {
            for place in 0..first.len() {
                few[place] = first[place];
            }
            let count = first.len() + 1;
            return Ok(Steps { few, count, others });
        }
        others.extend_from_slice(first)?;
        others.push(last)?;
        Ok(Steps {
            few,
            count: 0,
            others,
        })
    }

    /// Returns the steps, in order.
    pub fn as_slice(&self) -> &[WalkStep]
        ensures { result.now ≡ self.now.items }
    {
        if self.count == 0 {
            &self.others
        } else {
            &self.few[..self.count]
        }
    }
}
