//! The laws of the definitions. Each is the contract of a function that does nothing.
ghost use Rattle.certs.specs.Counted.{CountsByGame};
ghost use Rattle.certs.specs.Dividend.{NoMoreIsPaid};
ghost use Rattle.certs.specs.President.{FirstWithMostPresides, PresidesByGame};

/// States that the seat that presides is the first with the most shares, beginning with the one
/// that presided: each seat before it has fewer shares, and none after it has more.
pub fn first_with_most_presides()
    ensures { FirstWithMostPresides }
{}

/// States that the same certificates count by the holdings of a game as by its events.
pub fn counted_by_the_game()
    ensures { CountsByGame }
{}

/// States that the seat that presides by the holdings of a game presides by its events, if the
/// president last recorded is at the table.
pub fn presides_by_the_game()
    ensures { PresidesByGame }
{}

/// States that in a sound list a company that pays out what its trains earned gets no more than
/// that from the bank for those who hold its shares.
pub fn no_more_is_paid()
    ensures { NoMoreIsPaid }
{}
