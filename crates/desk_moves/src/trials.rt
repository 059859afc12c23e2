//! A trial: the file with an empty sheet for each player who owes one, to be played one round
//! further.
ghost use Rattle.std.specs.Prelude.{◌≡◌, ◌==◌, ◌∷◌, ◌++◌, ◌<◌, [], true, length};
ghost use Rattle.std.specs.Prelude.{IfOk, IfSome, OnOk};
ghost use Rattle.std.specs.List.{list_any};
ghost use Rattle.std.specs.Str.{str_eq_ignore_ascii_case};
ghost use Rattle.foresight.specs.TrialFile.{tried_file};
ghost use Rattle.report.specs.Line.{name_of};
ghost use Rattle.sheets.specs.File.{players_of};

use crate::coming::coming_round;
use crate::fault::{MovesFault, NoAnswer};
use desk_base::Piece::{Bytes, Words};
use desk_base::{Moment, owes, position_at, push};
use foresight::TrialFile;
use report::name;
use sheets::{Sheets, collect};
use std::alloc::{AllocError, Global};
use tables::{Round, Seat};

/// A file to be played one round further.
#[derive(Drop)]
pub struct TrialRound {
    /// The order file, with an empty sheet at its end for each player who owes one.
    pub file: TrialFile,
    /// The round that those sheets are for.
    pub round: Round,
}

/// Returns the file of a game with an empty sheet for each player who owes one for the awaited
/// round, and that round. If players are named, all who owe one must be. The error is the fault of
/// the file, that the game is over, that no player has a name, who else owes a sheet, or `Memory`.
pub fn trial(alloc: Global, file: &[u8], players: &[&str]) -> Result<TrialRound, MovesFault>
    ensures file { IfOk result (λ trial.
        trial.file.bytes.items ≡ tried_file file.now trial.round) }
{
    let sheets = collect(alloc, file)?;
    let round = awaited(alloc, &sheets, players)?;
    let mut file = TrialFile::begin(alloc, file)?;
    file.put_all(&sheets, round)?;
    Ok(TrialRound { file, round })
}

/// Returns the awaited round. Fails if the game is over, or if players are named and somebody else
/// owes a sheet for it.
fn awaited(alloc: Global, sheets: &Sheets, players: &[&str]) -> Result<Round, MovesFault> {
    let round = round_to_come(alloc, sheets)?;
    must_name_all(alloc, sheets, players, round)?;
    Ok(round)
}

/// Returns the coming round. Fails if the game is over.
fn round_to_come(alloc: Global, sheets: &Sheets) -> Result<Round, MovesFault> {
    let coming = position_at(alloc, sheets, Moment::Last)?;
    coming_round(&coming)
}

/// Fails unless each name is a player's and, if any are given, all who owe a sheet for the round
/// are named.
fn must_name_all(
    alloc: Global,
    sheets: &Sheets,
    players: &[&str],
    round: Round,
) -> Result<(), MovesFault> {
    let named = seats_named(alloc, sheets, players)?;
    let owing = owing_too(alloc, sheets, named.as_slice(), round)?;
    if named.is_empty() || owing.is_empty() {
        return Ok(());
    }
    let mut text = Vec::new(alloc);
    push_names(&mut text, sheets, owing.as_slice())?;
    Err(MovesFault::Asked(NoAnswer::OwesToo(text)))
}

/// Returns the seats of the players with these names. Fails if one of them is no player's.
fn seats_named(alloc: Global, sheets: &Sheets, players: &[&str]) -> Result<Vec<Seat>, MovesFault> {
    let mut seats = Vec::new(alloc);
    for player in players {
        match seat_named(sheets, player.as_bytes()) {
            Some(seat) => push_seat(&mut seats, seat)?,
            None => return Err(MovesFault::Asked(NoAnswer::NoSuchPlayer)),
        }
    }
    Ok(seats)
}

/// Adds a seat.
fn push_seat(seats: &mut Vec<Seat>, seat: Seat) -> Result<(), AllocError>
    ensures { OnOk result (seats.new.items ≡ seats.old.items ++ seat ∷ []) }
{
    seats.push(seat)?;
    Ok(())
}

/// Returns the seat of the player with this name, in either case; `None` if no player has it.
pub(crate) fn seat_named(sheets: &Sheets, player: &[u8]) -> Option<Seat>
    ensures at_table { IfSome result (λ seat. seat.0 < length (players_of sheets.now)) }
    ensures named { IfSome result (λ seat.
        str_eq_ignore_ascii_case (name_of sheets.now seat) player.now ≡ true) }
{
    for seat in 0..sheets.seats() {
        let seat = Seat::at(seat);
        if name(sheets, seat).eq_ignore_ascii_case(player) {
            return Some(seat);
        }
    }
    None
}

/// Returns the other seats that owe a sheet for a round. Fails only if allocation fails.
fn owing_too(
    alloc: Global,
    sheets: &Sheets,
    named: &[Seat],
    round: Round,
) -> Result<Vec<Seat>, AllocError> {
    let mut seats = Vec::new(alloc);
    for seat in 0..sheets.seats() {
        let seat = Seat::at(seat);
        if owes(sheets, seat, &round) && !is_among(named, seat) {
            seats.push(seat)?;
        }
    }
    Ok(seats)
}

/// Returns whether a seat is among these.
fn is_among(seats: &[Seat], seat: Seat) -> bool
    ensures { result ≡ list_any (λ other. other.0 == seat.0) seats.now }
{
    seats.iter().any(|other| other.0 == seat.0)
}

/// Adds the names of players, and that they owe.
fn push_names(out: &mut Vec<u8>, sheets: &Sheets, seats: &[Seat]) -> Result<(), AllocError> {
    for (place, seat) in seats.iter().enumerate() {
        let behind = seats.len() - place;
        let sign = match (place, behind) {
            (0, _) => "",
            (_, 1) => " and ",
            _ => ", ",
        };
        push(out, &[Words(sign), Bytes(name(sheets, *seat))])?;
    }
    let owe = if seats.len() == 1 { " owes" } else { " owe" };
    push(out, &[Words(owe)])
}
