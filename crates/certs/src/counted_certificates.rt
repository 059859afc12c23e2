//! The certificates of a seat that count against the limit.
ghost use Rattle.std.specs.Prelude.{◌≡◌, ◌≤◌, ◌+ℤ◌, ℤ, pos};
ghost use Rattle.certs.specs.Counted.{certificates_by, certificates_in, certificates_now, certificates_of, counted_in};
ghost use Rattle.certs.specs.Counted.{counted_of, counts_on, one_owned, presides, privates_owned};
ghost use Rattle.certs.specs.ShareRow.{IsFew, IsSmall};
ghost use Rattle.totals.specs.LookBack.{owner_in};
ghost use Rattle.tables.specs.Roster.{companies};
ghost use Rattle.tables.specs.declared.roster.Company.{Company};
ghost use Rattle.tables.specs.declared.seat.Seat.{Seat};

use crate::holdings::Holdings;
use history::{GameView, Holder, Owners, ShareCount, Shareholder};
use tables::{Company, Private, Seat, Square, Zone, zone};

/// Returns how many certificates of each company that count a seat has.
trait Certificates {
    ghost certificates: { Self → Seat → Company → ℤ };

    /// Returns the number for a company.
    fn certificates_of(&self, seat: Seat, company: Company) -> ShareCount
        ensures certificates { result ≡ certificates self.now seat company }
        ensures small { IsFew result };
}

impl Certificates for Holdings {
    ghost certificates = { certificates_by };

    fn certificates_of(&self, seat: Seat, company: Company) -> ShareCount {
        let place = company.index();
        let shares = self.shares(company, Shareholder::Seat(seat));
        certificates_of(seat, self.squares[place], self.presidents[place], shares)
    }
}

/// Returns the certificates by the events.
impl Certificates for GameView<'_> {
    ghost certificates = { λ view. certificates_now view.events };

    fn certificates_of(&self, seat: Seat, company: Company) -> ShareCount {
        let shares = self.shares(company, Shareholder::Seat(seat));
        certificates_of(seat, self.square(company), self.president(company), shares)
    }
}

impl Holdings {
    /// Returns how many certificates of a seat count against the limit. They are its privates, and
    /// its shares of each company whose square lies in no zone, or that has no square, minus one if
    /// the seat presides.
    pub fn counted(&self, seat: Seat) -> ShareCount
        ensures { result ≡ counted_in self.now seat }
    {
        counted(&self.owners, self, seat)
    }
}

/// Returns how many certificates of a seat count against the limit, by the events of a game, from
/// its totals.
pub fn counted_now(view: &GameView, seat: Seat) -> ShareCount
    ensures { result ≡ counted_of view.now.events seat }
{
    counted(&view.owners(), view, seat)
}

/// Returns how many certificates of a seat count: its privates, and those of each company.
fn counted<C: Certificates>(owners: &Owners, held: &C, seat: Seat) -> ShareCount
    ensures { result ≡ pos (privates_owned (owner_in owners.now) seat)
        +ℤ certificates_in (C.certificates held.now seat) companies }
{
    let mut count = ShareCount::from(privates_owned(owners, seat));
    for &company in &Company::ALL {
        count += held.certificates_of(seat, company);
    }
    count
}

/// Returns how many privates a seat owns.
fn privates_owned(owners: &Owners, seat: Seat) -> u8
    ensures count { result ≡ privates_owned (owner_in owners.now) seat }
    ensures few { result ≤ 6 }
{
    let mut count = 0;
    for private in Private::ALL {
        count += one_owned(seat, owners.owner(private));
    }
    count
}

/// Returns 1 if a seat is this owner of a private, otherwise 0.
fn one_owned(seat: Seat, owner: Option<Holder>) -> u8
    ensures one { result ≡ one_owned seat owner }
    ensures few { result ≤ 1 }
{
    match owner {
        Some(Holder::Seat(owner)) if owner == seat => 1,
        _ => 0,
    }
}

/// Returns how many of the certificates that count are this many shares of a company, for a seat.
fn certificates_of(
    seat: Seat,
    square: Option<Square>,
    president: Option<Seat>,
    shares: ShareCount,
) -> ShareCount
    requires { IsSmall shares }
    ensures certificates { result ≡ certificates_of seat square president shares }
    ensures small { IsFew result }
{
    if !counts_on(square) {
        return 0;
    }
    if presides(seat, president) {
        shares - 1
    } else {
        shares
    }
}

/// Returns whether the certificates of a company on this square count.
pub(crate) fn counts_on(square: Option<Square>) -> bool
    ensures { result ≡ counts_on square }
{
    match square {
        Some(square) => zone(square) == Zone::White,
        None => true,
    }
}

/// Returns whether a seat is this president.
fn presides(seat: Seat, president: Option<Seat>) -> bool
    ensures { result ≡ presides seat president }
{
    match president {
        Some(president) => president == seat,
        None => false,
    }
}
