//! The shares of one company as a row: the initial offering, the bank pool and six players. Shares
//! move from one place of the row to another.
ghost use Rattle.std.specs.Prelude.{◌≡◌, ◌<◌, ◌≤ℤ◌, pos, slice_index_or};
ghost use Rattle.certs.specs.ShareRow.{IsBounded, IsMoved, IsTaken, index_of};
ghost use Rattle.events.specs.declared.event.Shareholder.{Shareholder};

use history::{ShareCount, Shareholder};
use tables::{PLAYERS_MOST, Seat};

/// How many places a company's shares have: the initial offering, the bank pool and six seats.
const PLACES: usize = PLAYERS_MOST + 2;

/// The shares of a company by their places: the initial offering's, the bank pool's, and those of
/// each of six seats.
pub(crate) type Row = [ShareCount; PLACES];

/// Returns the index of a place in a row.
pub(crate) fn index_of(place: Shareholder) -> usize
    ensures { result ≡ index_of place }
{
    match place {
        Shareholder::InitialOffering => 0,
        Shareholder::BankPool => 1,
        Shareholder::Seat(seat) => 2 + seat.index(),
    }
}

/// Returns a row after this many shares have gone from one place, which has them, to another. A
/// place outside the row has no shares, and shares that go to it leave the row.
pub(crate) fn moved(row: Row, from: usize, to: usize, shares: u8) -> Row
    requires held { pos shares ≤ℤ slice_index_or row from (pos 0) }
    requires bounded { IsBounded row }
    ensures moved { IsMoved row result from to shares }
    ensures bounded { IsBounded result }
{
    if from >= row.len() {
        return row;
    }
    if to >= row.len() {
        return taken(row, from, shares);
    }
    moved_within(row, from, to, shares)
}

/// Returns a row after this many shares have left it from one of its places.
fn taken(mut row: Row, from: usize, shares: u8) -> Row
    requires from { from < 8 }
    requires held { pos shares ≤ℤ slice_index_or row from (pos 0) }
    requires bounded { IsBounded row }
    ensures taken { IsTaken row result from shares }
    ensures bounded { IsBounded result }
{
    let shares = ShareCount::from(shares);
    row[from] -= shares;
    row
}

/// Returns a row after this many shares have gone from one of its places to another.
fn moved_within(mut row: Row, from: usize, to: usize, shares: u8) -> Row
    requires from { from < 8 }
    requires to { to < 8 }
    requires held { pos shares ≤ℤ slice_index_or row from (pos 0) }
    requires bounded { IsBounded row }
    ensures moved { IsMoved row result from to shares }
    ensures bounded { IsBounded result }
{
    let shares = ShareCount::from(shares);
    row[from] -= shares;
    row[to] += shares;
    row
}
