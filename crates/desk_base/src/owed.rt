//! Who owes a sheet.
ghost use Rattle.std.specs.Prelude.{◌≡◌, is_none};
ghost use Rattle.sheets.specs.File.{sheet_of};

use sheets::Sheets;
use tables::{Round, Seat};

/// Returns whether the player of a seat owes a sheet for a round.
pub fn owes(sheets: &Sheets, seat: Seat, round: &Round) -> bool
    ensures { result ≡ is_none (sheet_of sheets.now seat.0 round.now) }
{
    sheets.sheet(seat, round).is_none()
}
