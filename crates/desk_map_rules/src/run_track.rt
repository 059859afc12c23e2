//! Whether there is track along the places of a run, and which borders the places lead over.
ghost use Rattle.std.specs.Prelude.{◌≡◌, ◌++◌, [], IfOk, OnOk, find, is_none};
ghost use Rattle.board_state.specs.MapState.{position_of};
ghost use Rattle.desk_map_rules.specs.RunTrack.{border_between, borders_named, borders_onward, is_no_track};
ghost use Rattle.legal_runs.specs.Fault.{has_border, has_border_twice};
ghost use Rattle.legal_runs.specs.Named.{is_hex, side_towards, walk_named};
ghost use Rattle.map_tables.specs.Border.{neighbour_of};

use board::Board;
use legal_runs::{Used, border_to, check_run};
use map_tables::{Hex, Place, Run, RunRule, Side, neighbour};
use std::alloc::{AllocError, Global};
use tables::{Company, Kind};

/// Returns whether the places of a run name no walk over the track of a board. The company and the
/// kind do not matter for that.
#[tactic(auto, using(crate::proofs::Walks::walk_told, crate::proofs::Walks::walk_there))]
pub(crate) fn has_no_track(board: &Board, company: Company, kind: Kind, run: &Run) -> bool
    ensures { result ≡ is_none (walk_named (position_of board.now) run.now) }
{
    let mut used = Used::new();
    match check_run(board, company, kind, run, &mut used) {
        Ok(_) => false,
        Err(rule) => is_no_track(rule),
    }
}

/// Returns whether a rule says that there is no track.
fn is_no_track(rule: RunRule) -> bool
    ensures { result ≡ is_no_track rule }
{
    matches!(rule, RunRule::NoTrack)
}

/// Returns the borders between the hexes of some places, by their numbers, in their order. Fails
/// only if allocation fails.
pub fn borders_named(alloc: Global, places: &[Place]) -> Result<Vec<usize>, AllocError>
    ensures { IfOk result (λ borders. borders.items ≡ borders_named places.now) }
{
    let mut borders = Vec::new(alloc);
    if let [place, rest @ ..] = places {
        push_borders(&mut borders, *place, rest)?;
    }
    Ok(borders)
}

/// Adds the borders from a place over the next ones.
fn push_borders(borders: &mut Vec<usize>, place: Place, places: &[Place]) -> Result<(), AllocError>
    ensures { OnOk result (borders.new.items
        ≡ borders.old.items ++ borders_onward place places.now) }
{
    match places {
        [] => Ok(()),
        [next, rest @ ..] => {
            push_border(borders, place.hex, next.hex)?;
            push_borders(borders, *next, rest)
        }
    }
}

/// Adds the border between two hexes, if they are neighbours.
fn push_border(borders: &mut Vec<usize>, hex: Hex, other: Hex) -> Result<(), AllocError>
    ensures { OnOk result (borders.new.items ≡ borders.old.items ++ border_between hex other) }
{
    if let Some(side) = side_towards(hex, other) {
        borders.push(border_to(hex, side, neighbour(hex, side)))?;
    }
    Ok(())
}

/// Returns the side of a hex at which another lies; `None` if they are not neighbours.
#[tactic(auto, unfolding(legal_runs::specs::Named::side_towards))]
fn side_towards(hex: Hex, other: Hex) -> Option<Side>
    ensures { result ≡ side_towards hex other }
{
    map_tables::laws::sides_and_rotations_are_all();
    first_towards(&Side::ALL, hex, other)
}

/// Returns the first of some sides of a hex at which another lies.
fn first_towards(sides: &[Side], hex: Hex, other: Hex) -> Option<Side>
    ensures { result ≡ find (λ side. is_hex other (neighbour_of hex side)) sides.now }
{
    sides
        .iter()
        .copied()
        .find(|side| is_hex(other, neighbour(hex, *side)))
}

/// Returns whether a hex is the one sought.
fn is_hex(hex: Hex, found: Option<Hex>) -> bool
    ensures { result ≡ is_hex hex found }
{
    match found {
        Some(other) => other.index() == hex.index(),
        None => false,
    }
}

/// Returns whether a border is twice among these, which are given by their numbers.
pub fn has_border_twice(borders: &[usize]) -> bool
    ensures { result ≡ has_border_twice [] borders.now }
{
    match borders {
        [] => false,
        [border, rest @ ..] => has_border_twice(rest) || has_border(*border, rest),
    }
}

/// Returns whether a border is among others.
fn has_border(border: usize, borders: &[usize]) -> bool
    ensures { result ≡ has_border border borders.now }
{
    borders.iter().any(|other| *other == border)
}
