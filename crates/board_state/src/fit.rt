//! The rules of what may lie on the map: tiles on hexes of their kind, track that leads to no bad
//! side, and tokens in slots of their own.
ghost use Rattle.std.specs.Prelude.{◌≡◌};
ghost use Rattle.std.specs.List.{list_any};
ghost use Rattle.board_state.specs.Fit.{board_fault_of};
ghost use Rattle.map_tables.specs.Fit.{has_bad_side, has_no_slot, has_print_at, is_bad_end, is_open, is_over_full};
ghost use Rattle.map_tables.specs.Fit.{is_shut, is_side, is_wrong_kind, place_of_tile_kind, takes};
ghost use Rattle.map_tables.specs.Place.{stop_of_place};

use crate::fault::BoardFault;
use crate::stop_facts::{slots_at, taken_at};
use map_tables::{
    Hex, HexKind, Lay, Place, Side, TileKind, TrackEnd, hex_kind, laid_links, neighbour,
    printed_links, printed_stops, tile,
};
use tables::{Company, rules};

/// Returns the first rule on what may lie that these tiles and tokens break; `None` if they break
/// none.
#[tactic(auto, unfolding(crate::specs::Fit::board_fault_of))]
pub fn fault_of(lays: &[Lay], tokens: &[(Place, Company)]) -> Option<BoardFault>
    ensures { result ≡ board_fault_of lays.now tokens.now }
{
    rules! { BoardFault
        Kind: has_wrong_kind(lays),
        BadSide: have_bad_side(lays),
        NoSlot: lacks_slot(lays, tokens),
    }
}

/// Returns whether one of these tokens has no slot.
fn lacks_slot(lays: &[Lay], tokens: &[(Place, Company)]) -> bool
    ensures { result ≡ list_any (has_no_slot lays.now tokens.now) tokens.now }
{
    tokens
        .iter()
        .any(|token| is_over_full(lays, tokens, token.0))
}

/// Returns whether more tokens name a place than it has slots.
fn is_over_full(lays: &[Lay], tokens: &[(Place, Company)], place: Place) -> bool
    ensures { result ≡ is_over_full lays.now tokens.now (stop_of_place place) }
{
    match place.stop() {
        Some(stop) => slots_at(lays, stop) < taken_at(tokens, stop),
        None => true,
    }
}

/// Returns whether one of some tiles is of a wrong kind.
fn has_wrong_kind(lays: &[Lay]) -> bool
    ensures { result ≡ list_any is_wrong_kind lays.now }
{
    lays.iter().any(|lay| is_wrong_kind(*lay))
}

/// Returns whether one of some tiles has a bad side.
fn have_bad_side(lays: &[Lay]) -> bool
    ensures { result ≡ list_any has_bad_side lays.now }
{
    lays.iter().any(|lay| has_bad_side(*lay))
}

/// Returns the place of a kind of tile among the kinds.
fn index_of_kind(kind: TileKind) -> u8
    ensures { result ≡ place_of_tile_kind kind }
{
    match kind {
        TileKind::Plain => 0,
        TileKind::Town => 1,
        TileKind::TwoTowns => 2,
        TileKind::City => 3,
        TileKind::CityB => 4,
        TileKind::CitiesNY => 5,
        TileKind::CitiesOO => 6,
    }
}

/// Returns whether a hex of a kind takes tiles of a kind.
fn takes(hex: HexKind, tile: TileKind) -> bool
    ensures { result ≡ takes hex tile }
{
    match hex {
        HexKind::Open(kind) => index_of_kind(kind) == index_of_kind(tile),
        HexKind::Grey | HexKind::Red => false,
    }
}

/// Returns whether a tile is of a kind that its hex does not take, or its stops are swapped though
/// it does not have two.
#[tactic(auto, unfolding(map_tables::specs::Fit::is_wrong_kind))]
pub fn is_wrong_kind(lay: Lay) -> bool
    ensures { result ≡ is_wrong_kind lay }
{
    !takes(hex_kind(lay.hex), tile(lay.tile).kind) || (lay.swap && printed_stops(lay.hex) != 2)
}

/// Returns whether some track of a tile leads to a bad side.
#[tactic(auto, unfolding(map_tables::specs::Fit::has_bad_side))]
pub fn has_bad_side(lay: Lay) -> bool
    ensures { result ≡ has_bad_side lay }
{
    laid_links(lay).as_slice().iter().any(|link| is_bad_end(lay.hex, link.a)
        || is_bad_end(lay.hex, link.b))
}

/// Returns whether an end of track in a hex is a bad side.
fn is_bad_end(hex: Hex, end: TrackEnd) -> bool
    ensures { result ≡ is_bad_end hex end }
{
    match end {
        TrackEnd::Side(side) => match neighbour(hex, side) {
            Some(other) => is_shut(other, side.facing()),
            None => true,
        },
        TrackEnd::Stop(_) => false,
    }
}

/// Returns whether track may not reach a hex over this side of it.
fn is_shut(hex: Hex, side: Side) -> bool
    ensures { result ≡ is_shut hex side }
{
    !is_open(hex_kind(hex)) && !has_print_at(hex, side)
}

/// Returns whether tiles are laid on hexes of a kind.
pub fn is_open(kind: HexKind) -> bool
    ensures { result ≡ is_open kind }
{
    match kind {
        HexKind::Open(_) => true,
        HexKind::Grey | HexKind::Red => false,
    }
}

/// Returns whether a printed hex has track at a side.
fn has_print_at(hex: Hex, side: Side) -> bool
    ensures { result ≡ has_print_at hex side }
{
    printed_links(hex)
        .as_slice()
        .iter()
        .any(|link| is_side(side, link.a) || is_side(side, link.b))
}

/// Returns whether an end of track is this side.
fn is_side(side: Side, end: TrackEnd) -> bool
    ensures { result ≡ is_side side end }
{
    match end {
        TrackEnd::Side(other) => other.number() == side.number(),
        TrackEnd::Stop(_) => false,
    }
}
