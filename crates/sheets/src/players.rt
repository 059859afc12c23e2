//! The players of a file, read from its players line: their names and seats.
ghost use Rattle.std.specs.Prelude.{◌≡◌, ◌≤◌, length, slice_get, option_copied, IfOk};
ghost use Rattle.order_grammar.specs.Line.{reading_of};
ghost use Rattle.sheets.specs.File.{players_from, players_named, seat_from};

use indexmap::IndexMap;
use order_grammar::{Name, Order, read_line};
use std::alloc::{AllocError, Global};
use std::marker::Model;
use tables::{PLAYERS_LEAST, PLAYERS_MOST, Seat};

/// The players of a file, in the order of their seats, with their seats.
#[derive(Drop)]
pub(crate) struct Players {
    seats: IndexMap<Name, Seat>,
}

/// In a contract they are the list of their names.
impl Model for Players {
    ghost use Rattle.std.specs.Prelude.{◌≡◌, ℕ, List};
    ghost use Rattle.indexmap.specs.IndexMap.{keys};
    ghost use Rattle.sheets.specs.File.{with_seats};

    ghost Value = { List (List ℕ) };

    ghost view = { λ players. keys players.seats };

    ghost invariant = { λ players.
        players.seats.entries ≡ with_seats 0 (keys players.seats) };
}

impl Players {
    /// Returns how many there are.
    pub(crate) fn len(&self) -> usize
        ensures { result ≡ length self.now }
    {
        self.seats.len()
    }

    /// Returns the name of the player of a seat.
    pub(crate) fn name(&self, seat: Seat) -> Option<&Name>
        ensures { option_copied result ≡ slice_get self.now seat.0 }
    {
        let (name, _) = self.seats.get_index(usize::from(seat.0))?;
        Some(name)
    }

    /// Returns the seat of a player.
    pub(crate) fn seat_of(&self, name: &Name) -> Option<Seat>
        ensures { result ≡ seat_from 0 self.now name.now }
    {
        self.seats.get(name).copied()
    }
}

/// Returns the players that a line names, if there are 3 to 6 and they differ.
pub(crate) fn players_named(alloc: Global, line: &[u8]) -> Result<Option<Players>, AllocError>
    ensures { IfOk result (λ players. players ≡ players_named (reading_of line.now)) }
{
    let Ok(line) = read_line(line) else {
        return Ok(None);
    };
    match &line.order {
        Order::Players(names) => players_from(alloc, names.as_slice()),
        _ => Ok(None),
    }
}

/// Returns these players, if there are 3 to 6 and they differ.
fn players_from(alloc: Global, names: &[Name]) -> Result<Option<Players>, AllocError>
    ensures { IfOk result (λ players. players ≡ players_from names.now) }
{
    if names.len() < PLAYERS_LEAST || names.len() > PLAYERS_MOST {
        return Ok(None);
    }
    let mut seats = IndexMap::new(alloc);
    for (index, name) in names.iter().enumerate() {
        let earlier = seats.insert(*name, Seat(index as u8))?;
        if earlier.is_some() {
            return Ok(None);
        }
    }
    Ok(Some(Players { seats }))
}
