//! Seats and money: who sits at whose left, what the players and the bank begin with, and how many
//! certificates a player may hold.
ghost use Rattle.std.specs.Prelude.{◌≡◌, ◌<◌, ◌≤◌, pos};
ghost use Rattle.std.specs.Int.RustNames.{unsigned_abs};
ghost use Rattle.tables.specs.Roster.{bank_start_of, certificate_limit_of, start_money_of};
ghost use Rattle.tables.specs.Seat.{left_of, seat_at};

/// Dollars that are added up. The type is wide enough for every list of events that memory can
/// hold. The bank's cash may be less than 0.
pub type Money = i128;

/// A sum of dollars in a table, an order or an event; never less than 0.
pub type Amount = u32;

/// Returns a sum of 0 to 1,000,000 dollars, as an event names it.
pub fn amount_of(sum: Money) -> Amount
    requires whole { pos (unsigned_abs sum) ≡ sum }
    requires small { unsigned_abs sum ≤ 1000000 }
    ensures { result ≡ unsigned_abs sum }
{
    sum as Amount
}

/// A seat at the table, numbered from 0 in the order of the players line.
#[derive(Clone, Copy, Debug, PartialEq, Eq, Hash, Default)]
pub struct Seat(pub u8);

impl Seat {
    /// Returns the seat at a place in the order of the players line. The place is less than 256.
    pub fn at(index: usize) -> Seat
        requires { index < 256 }
        ensures { result ≡ seat_at index }
    {
        Seat(index as u8)
    }

    /// Returns its place in the order of the players line, from 0.
    pub fn index(self) -> usize
        ensures value { result ≡ self.0 }
        ensures bound { result < 256 }
    {
        usize::from(self.0)
    }

    /// Returns the seat at its left at a table of this many seats: the next, and after the last the
    /// first.
    pub fn left(self, seats: usize) -> Seat
        ensures { result ≡ left_of seats self }
    {
        match self.0.checked_add(1) {
            Some(next) if usize::from(next) < seats => Seat(next),
            _ => Seat(0),
        }
    }
}

/// The fewest players of a game.
pub const PLAYERS_LEAST: usize = 3;

/// The most players of a game.
pub const PLAYERS_MOST: usize = 6;

/// A value for each seat that a table may have: that of a seat is at its number.
pub type PerSeat<T> = [T; PLAYERS_MOST];

/// Returns the money that each player begins with, in dollars, paid by the bank. It is 800, 600,
/// 480 or 400 for 3, 4, 5 or 6 players. It is 0 for any other number, with which nobody plays.
pub fn start_money(players: usize) -> Amount
    ensures { result ≡ start_money_of players }
{
    match players {
        3 => 800,
        4 => 600,
        5 => 480,
        6 => 400,
        _ => 0,
    }
}

/// Returns what the bank has left of its 12,000 dollars once the players have their start money. It
/// is 9,600 for 3 to 6 players, and all of it for any other number.
pub fn bank_start(players: usize) -> Amount
    ensures { result ≡ bank_start_of players }
{
    match players {
        3..=6 => 9_600,
        _ => 12_000,
    }
}

/// Returns how many certificates that count a player may hold: 20, 16, 13 or 11 for 3, 4, 5 or 6
/// players. It is 0 for any other number, with which nobody plays.
pub fn certificate_limit(players: usize) -> usize
    ensures { result ≡ certificate_limit_of players }
{
    match players {
        3 => 20,
        4 => 16,
        5 => 13,
        6 => 11,
        _ => 0,
    }
}
