//! The path: how the best found is earned. The moves that earn it are written as marks, on the way
//! back from the end, the last one first.
ghost use Rattle.std.specs.Prelude.{◌≡◌, [], ◌∷◌, ◌++◌, None, Some};
ghost use Rattle.best_run.specs.MovePath.{IsWritten, go_along, marks_in};

use reach::WalkStep;
use std::alloc::{AllocError, Global};

/// The mark of a move.
#[derive(Clone, Copy)]
pub(crate) enum Mark {
    /// The next train does not run.
    Pass,
    /// Its run takes a step; with the first one it begins.
    Go(WalkStep),
    /// It turns back to where it began.
    Turn,
    /// It is finished.
    Finish,
}

/// The marks of the moves that earn what has been found.
#[derive(Drop)]
pub(crate) struct MovePath {
    /// The marks, from the last one to the first.
    pub(crate) marks: Vec<Mark>,
    /// The error of a mark that could not be written, or of a state that could not be kept, if
    /// there was any. What has been found is then not returned.
    pub(crate) refused: Option<AllocError>,
}

impl MovePath {
    /// Returns a path without marks.
    pub(crate) fn new(alloc: Global) -> MovePath
        ensures marks { marks_in result ≡ [] }
        ensures refused { result.refused ≡ None }
    {
        MovePath {
            marks: Vec::new(alloc),
            refused: None,
        }
    }

    /// Removes all marks.
    pub(crate) fn clear(&mut self)
        ensures marks { marks_in self.new ≡ [] }
        ensures refused { self.new.refused ≡ self.old.refused }
    {
        self.marks.clear();
    }

    /// Keeps the error of a failed allocation.
    pub(crate) fn refuse(&mut self, error: AllocError)
        ensures { self.new ≡ record self.old { refused = Some error } }
    {
        self.refused = Some(error);
    }

    /// Writes a mark before the others. If allocation fails, the error is kept.
    pub(crate) fn write(&mut self, mark: Mark)
        ensures { IsWritten (mark ∷ []) self.old self.new }
    {
        if let Err(failed) = self.marks.push(mark) {
            self.refuse(failed.into());
        }
    }

    /// Writes the marks of some steps, one after another, before the others. If allocation fails,
    /// the error is kept.
    pub(crate) fn write_steps(&mut self, steps: &[WalkStep])
        ensures { IsWritten (go_along steps.now) self.old self.new }
    {
        for step in steps.iter().rev() {
            self.write(Mark::Go(*step));
        }
    }
}
