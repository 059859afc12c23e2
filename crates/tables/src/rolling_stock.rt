//! The kinds of trains: their prices, how many there are, how far they run and when they rust. A
//! kind is also a phase, with its limit of trains and its number of operating rounds.
ghost use Rattle.std.specs.Prelude.{◌≡◌, ◌<◌, codes};
ghost use Rattle.tables.specs.Train.{code_of_kind, limit_of, index_of_kind, rounds_in_set_of, rusting_of, stops_of};
ghost use Rattle.tables.specs.Train.{same_kind, trains_of};

use crate::seat::Amount;

/// How many kinds of trains there are.
pub const KINDS: usize = 6;

/// A value for each kind of train, in the order in which they come: that of a kind is at its
/// `index`.
pub type PerKind<T> = [T; KINDS];

/// A kind of train. It is also the phase that the first train of the kind begins. A game begins in
/// the phase of the first kind.
#[derive(Clone, Copy, Debug, PartialEq, Eq, Default)]
pub enum Kind {
    #[default]
    Two,
    Three,
    Four,
    Five,
    Six,
    /// D, which visits any number of stops.
    Diesel,
}

/// Returns whether two kinds are the same. (By their numbers, which the prover knows at once.)
pub fn same_kind(a: Kind, b: Kind) -> bool
    ensures { result ≡ same_kind a b }
{
    a.index() == b.index()
}

/// The trains of a kind: the price of one at the bank, and how many there are.
#[derive(Clone, Copy, Debug, PartialEq, Eq)]
pub struct Trains {
    /// In dollars.
    pub price: Amount,
    /// `None` if the number has no limit.
    pub number: Option<u8>,
}

/// What holds for a kind of train, and for the phase that its first train begins.
#[derive(Clone, Copy)]
struct KindRow {
    /// The code that order sheets and reports use.
    code: &'static str,
    trains: Trains,
    /// The most stops that a train of the kind visits in a run; `None` means any number.
    stops: Option<usize>,
    /// The kind whose first train rusts all trains of this kind; `None` if they never rust.
    rusted_by: Option<Kind>,
    /// The most trains that a company may hold in the phase.
    limit: usize,
    /// How many operating rounds a set has that begins in the phase.
    rounds: u8,
}

/// Returns the rows of kinds of trains.
macro_rules! kind_rows {
    ($($code:literal: price $price:literal, number $number:expr, stops $stops:expr,
        rusted_by $rusted_by:expr, limit $limit:literal, rounds $rounds:literal;)*) => {
        [$(KindRow {
            code: $code,
            trains: Trains { price: $price, number: $number },
            stops: $stops,
            rusted_by: $rusted_by,
            limit: $limit,
            rounds: $rounds,
        },)*]
    };
}

/// The table of kinds: the row of a kind is at its `index`.
static KIND_ROWS: PerKind<KindRow> = kind_rows! {
    "2": price 80, number Some(6), stops Some(2), rusted_by Some(Kind::Four), limit 4, rounds 1;
    "3": price 180, number Some(5), stops Some(3), rusted_by Some(Kind::Six), limit 4, rounds 2;
    "4": price 300, number Some(4), stops Some(4), rusted_by Some(Kind::Diesel), limit 3, rounds 2;
    "5": price 450, number Some(3), stops Some(5), rusted_by None, limit 2, rounds 3;
    "6": price 630, number Some(2), stops Some(6), rusted_by None, limit 2, rounds 3;
    "D": price 1_100, number None, stops None, rusted_by None, limit 2, rounds 3;
};

impl Kind {
    /// The six kinds, least first.
    pub const ALL: PerKind<Kind> = [
        Kind::Two,
        Kind::Three,
        Kind::Four,
        Kind::Five,
        Kind::Six,
        Kind::Diesel,
    ];

    /// Returns the code that order sheets and reports use.
    pub fn code(self) -> &'static str
        ensures { result.now ≡ code_of_kind self }
    {
        KIND_ROWS[self as usize].code
    }

    /// Returns its place among the kinds, from 0: its place in `ALL`.
    pub fn index(self) -> usize
        ensures value { result ≡ index_of_kind self }
        ensures bound { result < 6 }
    {
        self as usize
    }

    /// Returns the most stops that a train of the kind visits in a run; `None` means any number.
    pub fn stops(self) -> Option<usize>
        ensures { result ≡ stops_of self }
    {
        KIND_ROWS[self as usize].stops
    }
}

/// Returns the price and the number of the trains of a kind.
pub fn train(kind: Kind) -> Trains
    ensures { result ≡ trains_of kind }
{
    KIND_ROWS[kind as usize].trains
}

/// Returns the kind whose first train rusts all trains of this kind; `None` if they never rust.
pub fn rusts(kind: Kind) -> Option<Kind>
    ensures { result ≡ rusting_of kind }
{
    KIND_ROWS[kind as usize].rusted_by
}

/// Returns the most trains that a company may hold in a phase.
pub fn limit(phase: Kind) -> usize
    ensures { result ≡ limit_of phase }
{
    KIND_ROWS[phase as usize].limit
}

/// Returns how many operating rounds a set has that begins in a phase.
pub fn rounds_in_set(phase: Kind) -> u8
    ensures { result ≡ rounds_in_set_of phase }
{
    KIND_ROWS[phase as usize].rounds
}
