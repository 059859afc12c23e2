//! Who presides over a company, and who succeeds its president once another player has more shares.
ghost use Rattle.std.specs.Prelude.{◌≡◌, ℤ};
ghost use Rattle.certs.specs.President.{better_of, presiding_in, seat_shares, seat_shares_of, successor, successor_of};
ghost use Rattle.tables.specs.declared.roster.Company.{Company};
ghost use Rattle.tables.specs.declared.seat.Seat.{Seat};

use crate::holdings::Holdings;
use history::{GameView, ShareCount, Shareholder};
use tables::{Company, Seat};

/// Returns how many shares of a company each seat has.
trait SharesOfSeats {
    ghost shares: { Self → Company → Seat → ℤ };

    /// Returns the shares that a seat has.
    fn shares_of_seat(&self, company: Company, seat: Seat) -> ShareCount
        ensures { result ≡ shares self.now company seat };
}

impl SharesOfSeats for Holdings {
    ghost shares = { seat_shares };

    fn shares_of_seat(&self, company: Company, seat: Seat) -> ShareCount {
        self.shares(company, Shareholder::Seat(seat))
    }
}

/// Returns the shares by the events.
impl SharesOfSeats for GameView<'_> {
    ghost shares = { λ view. seat_shares_of view.events };

    fn shares_of_seat(&self, company: Company, seat: Seat) -> ShareCount {
        self.shares(company, Shareholder::Seat(seat))
    }
}

impl Holdings {
    /// Returns who presides over a company; `None` if nobody has its president's certificate. The
    /// president last recorded stays unless some seat has strictly more shares. Then it is the seat
    /// with the most; if several have as many, the first to the president's left.
    pub fn president(&self, company: Company) -> Option<Seat>
        ensures { result ≡ presiding_in self.now company }
    {
        let old = self.presidents[company.index()]?;
        Some(with_most(self, company, self.seats, old))
    }
}

/// Returns who presides over a company by the game's shares, if this seat presided. It stays unless
/// some seat has strictly more shares. Then it is the seat with the most; if several have as many,
/// the first to its left.
pub fn successor(view: &GameView, company: Company, old: Seat) -> Seat
    ensures { result ≡ successor_of view.now.seats view.now.events company old }
{
    with_most(view, company, view.seats(), old)
}

/// Returns the seat with the most shares of a company at a table of this many seats; if several
/// have as many, the first from this one on.
fn with_most<T: SharesOfSeats>(shares: &T, company: Company, seats: usize, old: Seat) -> Seat
    ensures { result ≡ successor (T.shares shares.now company) seats old }
{
    let mut best = old;
    let mut seat = old;
    for _ in 1..seats {
        seat = seat.left(seats);
        best = better(shares, company, best, seat);
    }
    best
}

/// Returns the better of two seats: the second if it has strictly more shares.
fn better<T: SharesOfSeats>(shares: &T, company: Company, best: Seat, seat: Seat) -> Seat
    ensures { result ≡ better_of (T.shares shares.now company) best seat }
{
    if shares.shares_of_seat(company, seat) > shares.shares_of_seat(company, best) {
        seat
    } else {
        best
    }
}
