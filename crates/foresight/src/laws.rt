//! Laws of the definitions, each the contract of a function that does nothing.
ghost use Rattle.foresight.specs.Reached.{FirstTurnsAreReached, HeadsAreReached, OrdersArePlayedSo, RoundsBeginSo};
ghost use Rattle.foresight.specs.Reached.{TurnsArePlayedSo};
ghost use Rattle.privates.specs.Turn.{opening_rules};
ghost use Rattle.stock_round.specs.Turn.{stock_rules};

/// If no other seat has a line for an opening or a stock round, play comes to a seat's first turn
/// with the list that is told ahead: `at_head` without the seat's own standing lines,
/// `behind_opening` and `behind_stock` before the lines of that turn. So what is told of a line
/// there is what the round does with it.
pub fn play_reaches_first_turns()
    ensures opening { FirstTurnsAreReached opening_rules }
    ensures stock { FirstTurnsAreReached stock_rules }
    ensures opening_heads { HeadsAreReached opening_rules }
    ensures stock_heads { HeadsAreReached stock_rules }
{}

/// If no sheet but the one that is looked at has a line for an operating round, the round begins as
/// `RoundAhead::open` has it, each turn that `RoundAhead` plays is that company's turn in play, and
/// the orders that it looks at are those that are played.
pub fn play_has_the_turns_ahead()
    ensures begun { RoundsBeginSo }
    ensures turns { TurnsArePlayedSo }
    ensures orders { OrdersArePlayedSo }
{}
