//! The laws of the calls that play makes of its runner. Each is the contract of a function that
//! does nothing.
ghost use Rattle.rounds.specs.CallsNamed.{CallsAreNamed};
ghost use Rattle.rounds.specs.StepsBroken.{BrokenStepsCallABrokenGame};

/// States that each call of the runner in a game is for a round that a line can name: PR, SR or OR
/// with a number from 1 to 99,999, for an operating round also its number in its set, from 1 to 3.
/// No later round is played, since no sheet can name it.
pub fn calls_are_named()
    ensures { CallsAreNamed }
{
    sheets::laws::sheets_are_numbered();
    sheets::laws::three_to_six_play()
}

/// States that if a fault breaks off a step of play, the calls of the steps so far are those of a
/// game that the same fault breaks off.
pub fn broken_steps_call_a_broken_game()
    ensures { BrokenStepsCallABrokenGame }
{}
