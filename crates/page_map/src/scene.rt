//! What a page shows: the game, the players' names, and who owes a sheet.
ghost use Rattle.std.specs.Prelude.{◌≡◌, ◌<◌, ◌≤◌, [], length, map, option_map, slice_get};
ghost use Rattle.std.specs.Prelude.{unwrap_or, false};
ghost use Rattle.page_map.specs.SceneShown.{names_in, owes_at, owing_in};
ghost use Rattle.report.specs.Line.{name_of};
ghost use Rattle.sheets.specs.File.{players_of};
ghost use Rattle.tables.specs.Seat.{seat_at};

use desk_base::{Stood, owes};
use history::History;
use report::name;
use rounds::End;
use tables::{PLAYERS_MOST, Seat};

/// What a page shows. From the sheets it has only the players' names.
#[derive(Clone, Copy)]
pub struct Scene<'a> {
    /// The players' names, by their seats.
    pub names: [&'a [u8]; PLAYERS_MOST],
    /// Who owes a sheet for the next round, by their seats.
    pub owe: [bool; PLAYERS_MOST],
    /// How many players there are.
    pub seats: usize,
    /// The events so far.
    pub history: &'a History,
    /// The next round, or how the game ended.
    pub end: End,
    /// How many operating rounds the set has.
    pub in_set: u8,
    pub ghost few: { seats ≤ 6 },
}

impl<'a> Scene<'a> {
    /// Returns what a page shows of a game at a moment.
    pub fn of(stood: &Stood<'a>) -> Scene<'a>
        ensures names { map (λ name. name.now) result.names ≡ names_in stood.now.sheets.now }
        ensures owe { result.owe ≡ owing_in stood.now.sheets.now stood.now.end }
        ensures seats { result.seats ≡ length (players_of stood.now.sheets.now) }
        ensures history { result.history.now ≡ stood.now.history.now }
        ensures end { result.end ≡ stood.now.end }
        ensures in_set { result.in_set ≡ stood.now.in_set }
    {
        Scene {
            names: [
                name_at(stood, 0),
                name_at(stood, 1),
                name_at(stood, 2),
                name_at(stood, 3),
                name_at(stood, 4),
                name_at(stood, 5),
            ],
            owe: [
                owes_at(stood, 0),
                owes_at(stood, 1),
                owes_at(stood, 2),
                owes_at(stood, 3),
                owes_at(stood, 4),
                owes_at(stood, 5),
            ],
            seats: stood.sheets.seats(),
            history: stood.history,
            end: stood.end,
            in_set: stood.in_set,
        }
    }

    /// Returns the name of the player of a seat; no letters for a seat that nobody has.
    pub fn name(&self, seat: Seat) -> &'a [u8]
        ensures { result.now
            ≡ unwrap_or (option_map (λ name. name.now) (slice_get self.now.names seat.0)) [] }
    {
        let names = self.names;
        match names.get(seat.index()) {
            Some(name) => name,
            None => &[],
        }
    }

    /// Returns whether the player of a seat owes a sheet for the next round.
    pub fn owes(&self, seat: Seat) -> bool
        ensures { result ≡ unwrap_or (slice_get self.now.owe seat.0) false }
    {
        match self.owe.get(seat.index()) {
            Some(owes) => *owes,
            None => false,
        }
    }
}

/// Returns the name of the player of a seat, which is one of six; no letters for a seat that nobody
/// has.
fn name_at<'a>(stood: &Stood<'a>, seat: usize) -> &'a [u8]
    requires { seat < 6 }
    ensures { result.now ≡ name_of stood.now.sheets.now (seat_at seat) }
{
    name(stood.sheets, Seat::at(seat))
}

/// Returns whether the player of a seat, which is one of six, owes a sheet for the next round.
fn owes_at(stood: &Stood, seat: usize) -> bool
    requires { seat < 6 }
    ensures { result ≡ owes_at stood.now.sheets.now stood.now.end seat }
{
    match stood.end {
        End::Awaiting(round) => {
            seat < stood.sheets.seats() && owes(stood.sheets, Seat::at(seat), &round)
        }
        End::Bank | End::Bankrupt => false,
    }
}
