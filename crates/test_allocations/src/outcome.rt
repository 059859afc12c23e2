//! The outcomes of a call, and how they are printed.

/// The outcome of a call.
#[derive(Clone, Copy, Debug, PartialEq, Eq)]
pub enum Outcome {
    /// It returned what was expected.
    AsOwed,
    /// Its allocation failed, and it left everything unchanged.
    AsBefore,
    /// Neither.
    Other,
}

impl Outcome {
    /// Returns the outcome of a call that succeeded, given whether it returned what was expected.
    pub fn of_answer(is_owed: bool) -> Outcome {
        if is_owed {
            Outcome::AsOwed
        } else {
            Outcome::Other
        }
    }

    /// Returns the outcome of a call that failed, given whether an allocation failed and everything
    /// was left unchanged.
    pub fn of_refusal(is_before: bool) -> Outcome {
        if is_before {
            Outcome::AsBefore
        } else {
            Outcome::Other
        }
    }

    /// Returns its words.
    pub fn text(self) -> &'static str {
        match self {
            Outcome::AsOwed => "as owed",
            Outcome::AsBefore => "out of memory, unchanged",
            Outcome::Other => "NOT AS OWED",
        }
    }
}
