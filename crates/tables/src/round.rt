//! The rounds of a game and the order in which they come.
ghost use Rattle.std.specs.Prelude.{◌≡◌, ◌<◌, ◌^◌};
ghost use Rattle.tables.specs.Round.{is_before, rank_of, same_round, stock_rank};

/// The largest number of an order or a round.
pub const NUMBER_MOST: u32 = 99_999;

/// The most operating rounds of a set.
pub const OPERATING_MOST: u8 = 3;

/// A round of the game.
#[derive(Clone, Copy, Debug, PartialEq, Eq, Hash)]
pub enum Round {
    /// An opening round, in which the privates are sold: PR1, PR2, ..
    Opening(u32),
    /// A stock round: SR1, SR2, ..
    Stock(u32),
    /// An operating round: OR1.1 is the first of those that follow SR1.
    Operating { set: u32, number: u8 },
}

impl Round {
    /// Returns the place of the round among all rounds whose numbers are at most 99,999. The
    /// openings come first, then SR1, OR1.1, OR1.2, OR1.3, SR2 and so on.
    pub fn rank(self) -> u64
        ensures { result ≡ rank_of self }
    {
        match self {
            Round::Opening(number) => u64::from(number),
            Round::Stock(set) => stock_rank(set),
            Round::Operating { set, number } => stock_rank(set) + u64::from(number),
        }
    }

    /// Returns whether the round comes before another.
    pub fn is_before(self, other: Round) -> bool
        ensures { result ≡ is_before self other }
    {
        self.rank() < other.rank()
    }
}

/// Returns whether two rounds are the same.
pub fn same_round(one: Round, other: Round) -> bool
    ensures { result ≡ same_round one other }
{
    one == other
}

/// Returns the place of a stock round among all rounds.
fn stock_rank(set: u32) -> u64
    ensures place { result ≡ stock_rank set }
    ensures within { result < 2 ^ 40 }
{
    u64::from(NUMBER_MOST) + (u64::from(OPERATING_MOST) + 1) * u64::from(set)
}
