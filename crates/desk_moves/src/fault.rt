//! Why a question about moves has no answer, with the sentence that the player reads.
ghost use Rattle.std.specs.Prelude.{◌≡◌};
ghost use Rattle.desk_base.specs.declared.fault.DeskFault.TheVariants.{Memory};
ghost use Rattle.desk_base.specs.Fault.{fault_of_file};
ghost use Rattle.desk_moves.specs.Fault.{of_desk};

use desk_base::DeskFault;
use sheets::FileFault;
use std::alloc::AllocError;

/// Why a question about moves has no answer.
#[derive(Drop)]
pub enum MovesFault {
    /// The file is refused, the round was not played, or an allocation failed.
    Desk(DeskFault),
    /// The game cannot answer it.
    Asked(NoAnswer),
}

/// Why a game cannot answer a question.
#[derive(Drop)]
pub enum NoAnswer {
    /// The game is over.
    GameOver,
    /// The company has not started.
    NotStarted,
    /// The company has no president.
    NoPresident,
    /// No player has that name.
    NoSuchPlayer,
    /// The company does not operate in the coming operating round, or the game ends before its
    /// turn.
    NoTurn,
    /// No operating round comes next.
    NoOperatingRound,
    /// The player whose own sheet is to be looked at has none for the coming round.
    NoDraft,
    /// No opening can begin: PRR or BO is started before the private that brings it is sold. No
    /// game comes to that.
    NoOpening,
    /// The company has no train, and none is named.
    NoTrains,
    /// More trains of a kind are named than the game has.
    TooManyOfKind,
    /// A train of a kind that has rusted is named.
    Rusted,
    /// More trains are named than a company may have in this phase.
    OverLimit,
    /// Players who were not named owe a sheet, too: `CYD and DAN owe`.
    OwesToo(Vec<u8>),
}

impl NoAnswer {
    /// Returns the names of those who also owe a sheet, if that is the reason. The sentence follows
    /// them.
    pub fn into_names(self) -> Option<Vec<u8>> {
        match self {
            NoAnswer::OwesToo(names) => Some(names),
            _ => None,
        }
    }

    /// Returns the sentence for it, or its rest after the names of those who owe.
    pub fn sentence(&self) -> &'static str {
        match self {
            NoAnswer::GameOver => "the game is over by then",
            NoAnswer::NotStarted => "that company has not started",
            NoAnswer::NoPresident => "that company has no president",
            NoAnswer::NoSuchPlayer => "no player has that name",
            NoAnswer::NoTurn => {
                "that company has no turn in the next round: it does not operate, or the game ends before"
            }
            NoAnswer::NoOperatingRound => {
                "the next round is not an operating round; ask again once it is played"
            }
            NoAnswer::NoDraft => "there is no sheet of theirs for the next round",
            NoAnswer::NoOpening => "no opening can begin from there",
            NoAnswer::NoTrains => "that company has no train; name some, as in `best PRR 2 2`",
            NoAnswer::TooManyOfKind => "there are not that many trains of one kind",
            NoAnswer::Rusted => "trains of one of these kinds have rusted",
            NoAnswer::OverLimit => "a company may not have that many trains in this phase",
            NoAnswer::OwesToo(_) => " a sheet as well",
        }
    }
}

impl From<DeskFault> for MovesFault {
    ghost from_gives = { λ fault moves. moves ≡ of_desk fault };

    fn from(fault: DeskFault) -> MovesFault {
        MovesFault::Desk(fault)
    }
}

impl From<AllocError> for MovesFault {
    ghost from_gives = { λ _ fault. fault ≡ of_desk Memory };

    fn from(_error: AllocError) -> MovesFault {
        // An allocation failed: passed on.
        MovesFault::Desk(DeskFault::Memory)
    }
}

impl From<FileFault> for MovesFault {
    ghost from_gives = { λ file fault. fault ≡ of_desk (fault_of_file file) };

    fn from(fault: FileFault) -> MovesFault {
        MovesFault::Desk(DeskFault::from(fault))
    }
}
