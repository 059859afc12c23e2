//! The sequence of rounds: which round comes after another, and when the game is over.
ghost use Rattle.std.specs.Prelude.{◌≡◌, ◌≤◌};
ghost use Rattle.rounds.specs.Sequence.{following, turn_in_set};
ghost use Rattle.sheets.specs.Laws.{number_of};
ghost use Rattle.tables.specs.Round.{number_most, operating_most};

use crate::following::Next;
use tables::Round;

/// Returns what comes after a round. There are opening rounds until all privates are sold, then
/// sets of a stock round and one to three operating rounds, until a set ends with the bank broken.
///
/// `in_set` is the number of operating rounds of the set. Rounds are numbered up to `NUMBER_MOST`,
/// as in the sheets.
pub fn next(round: Round, in_set: u8, all_sold: bool, broken: bool) -> Next
    requires number { number_of round ≤ number_most }
    requires least { 1 ≤ in_set }
    requires most { in_set ≤ operating_most }
    requires within { turn_in_set round ≤ in_set }
    ensures { result ≡ following round in_set all_sold broken }
{
    match round {
        Round::Opening(_) if all_sold => Next::Round(Round::Stock(1)),
        Round::Opening(number) => Next::Round(Round::Opening(number + 1)),
        Round::Stock(set) => Next::Round(Round::Operating { set, number: 1 }),
        Round::Operating { set, number } if number < in_set => Next::Round(Round::Operating {
            set,
            number: number + 1,
        }),
        Round::Operating { .. } if broken => Next::Ended,
        Round::Operating { set, .. } => Next::Round(Round::Stock(set + 1)),
    }
}
