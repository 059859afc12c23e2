//! A segment of track, as it is kept for the spot where it begins.
ghost use Rattle.std.specs.Prelude.{◌≡◌, option_to_list};
ghost use Rattle.search_task.specs.Fit.{BordersFit};
ghost use Rattle.search_task.specs.Crossed.{marked_all, misses};

use crate::bit_set::Borders;
use crate::spot_number::SpotNumber;
use reach::WalkStep;
use std::marker::Model;

/// A segment of track: one step, which crosses at most one border.
#[derive(Drop)]
pub(crate) struct Stretch {
    to: SpotNumber,
    step: WalkStep,
    border: Option<usize>,
}

impl Model for Stretch {
    ghost use Rattle.std.specs.Prelude.{option_to_list};
    ghost use Rattle.search_task.specs.declared.task.Segment.{Segment};

    ghost Value = { Segment };

    ghost use Rattle.search_task.specs.Fit.{BordersFit};

    ghost view = { λ segment. record {
      to = segment.to;
      step = segment.step;
      borders = record { items = option_to_list segment.border };
    } };

    ghost invariant = { λ segment. BordersFit (option_to_list segment.border) };
}

impl Stretch {
    /// Returns a segment to a spot, by a step, over a border.
    pub(crate) fn of(to: SpotNumber, step: WalkStep, border: Option<usize>) -> Stretch
        requires { BordersFit (option_to_list border) }
        ensures to { result.to ≡ to }
        ensures step { result.step ≡ step }
        ensures borders { result.borders.items ≡ option_to_list border }
    {
        Stretch { to, step, border }
    }

    /// Returns the spot to which it leads, by its number.
    pub(crate) fn to(&self) -> SpotNumber
        ensures { result ≡ self.now.to }
    {
        self.to
    }

    /// Returns its step.
    pub(crate) fn step(&self) -> WalkStep
        ensures { result ≡ self.now.step }
    {
        self.step
    }

    /// Returns whether its border is not used.
    pub(crate) fn misses(&self, used: &Borders) -> bool
        ensures { result ≡ misses used.now self.now.borders.items }
    {
        match self.border {
            Some(border) => !used.has(border),
            None => true,
        }
    }

    /// Returns the used borders, with this.
    pub(crate) fn marked_in(&self, used: &Borders) -> Borders
        ensures { result ≡ marked_all used.now self.now.borders.items }
    {
        let mut marks = used.copy();
        if let Some(border) = self.border {
            marks.mark(border);
        }
        marks
    }
}
