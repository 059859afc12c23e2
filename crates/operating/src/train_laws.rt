//! The laws of trains in a company's turn. Each is the contract of a function that does nothing.
ghost use Rattle.operating.specs.TrainLaws.{PhasesGoOnInTurns, TurnsKeepAll};

/// States that a company's turn never moves the phase back.
pub fn phases_go_on_in_turns()
    ensures { PhasesGoOnInTurns }
{}

/// States that if no train is missing before a company's turn, none is missing after it.
pub fn turns_keep_all_trains()
    ensures { TurnsKeepAll }
{}
