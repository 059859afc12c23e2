//! Facts of hexes and stops, read from lists of tiles and tokens: the tile on a hex, the slots of a
//! stop, and the tokens that name it. It also tests whether two hexes, stops or companies are the
//! same.
ghost use Rattle.std.specs.Prelude.{◌≡◌};
ghost use Rattle.std.specs.List.{count_by};
ghost use Rattle.map_tables.specs.declared.place.Place.{Place};
ghost use Rattle.tables.specs.declared.roster.Company.{Company};
ghost use Rattle.board_state.specs.MapState.{is_red_kind, value_in};
ghost use Rattle.map_tables.specs.OnMap.{has_token, is_stop, names, same_stop, slots_at, slots_on, taken_at, tile_on};
ghost use Rattle.map_tables.specs.Hex.{same_hex};
ghost use Rattle.tables.specs.Roster.{same_company};

use map_tables::{
    Hex, HexKind, Lay, Place, PrintedValue, Stop, joined_stop, printed_slots, printed_stops, tile,
};
use tables::{Amount, Company, Kind};

// These three compare by number, not by `==`: the prover computes with numbers, and knows only the
// law of a derived `==`.

/// Returns whether two hexes are the same.
pub fn same_hex(a: Hex, b: Hex) -> bool
    ensures { result ≡ same_hex a b }
{
    a.index() == b.index()
}

/// Returns whether two stops are the same.
pub fn same_stop(a: Stop, b: Stop) -> bool
    ensures { result ≡ same_stop a b }
{
    same_hex(a.hex, b.hex) && a.number.index() == b.number.index()
}

/// Returns whether two companies are the same.
pub fn same_company(a: Company, b: Company) -> bool
    ensures { result ≡ same_company a b }
{
    a.index() == b.index()
}

/// Returns whether a place names a stop, or a part of it.
pub(crate) fn names(stop: Stop, place: Place) -> bool
    ensures { result ≡ names stop place }
{
    match place.stop() {
        Some(part) => same_stop(joined_stop(part), stop),
        None => false,
    }
}

/// Returns a printed value in a phase.
pub(crate) fn value_in(phase: Kind, value: PrintedValue) -> Amount
    ensures { result ≡ value_in phase value }
{
    if phase.index() < Kind::Five.index() {
        value.before_phase_five
    } else {
        value.from_phase_five
    }
}

/// Returns whether a hex is red.
pub(crate) fn is_red(kind: HexKind) -> bool
    ensures { result ≡ is_red_kind kind }
{
    match kind {
        HexKind::Red => true,
        HexKind::Open(_) | HexKind::Grey => false,
    }
}

/// Returns whether a hex has a stop of this number.
pub(crate) fn is_stop(stop: Stop) -> bool
    ensures { result ≡ is_stop stop }
{
    stop.number.index() < printed_stops(stop.hex)
}

/// Returns the tile that lies on a hex, by some lays: the last that was laid there.
#[tactic(auto, unfolding(map_tables::specs::OnMap::tile_on))]
pub fn tile_on(lays: &[Lay], hex: Hex) -> Option<Lay>
    ensures { result ≡ tile_on lays.now hex }
{
    for lay in lays.iter().rev() {
        if same_hex(lay.hex, hex) {
            return Some(*lay);
        }
    }
    None
}

/// Returns how many of some tokens name a stop.
pub(crate) fn count_naming(tokens: &[(Place, Company)], stop: Stop) -> usize
    ensures { result ≡ count_by (λ (token : Place × Company). names stop token.0) tokens.now }
{
    tokens.iter().filter(|token| names(stop, token.0)).count()
}

/// Returns how many slots each stop of a hex has, by the tiles that were laid.
pub fn slots_on(lays: &[Lay], hex: Hex) -> u8
    ensures { result ≡ slots_on lays.now hex }
{
    match tile_on(lays, hex) {
        Some(lay) => tile(lay.tile).slots,
        None => printed_slots(hex),
    }
}

/// Returns how many slots a stop has; 0 if there is no such stop.
pub(crate) fn slots_at(lays: &[Lay], stop: Stop) -> usize
    ensures { result ≡ slots_at lays.now stop }
{
    let stop = joined_stop(stop);
    if is_stop(stop) {
        usize::from(slots_on(lays, stop.hex))
    } else {
        0
    }
}

/// Returns how many tokens name a stop.
pub(crate) fn taken_at(tokens: &[(Place, Company)], stop: Stop) -> usize
    ensures { result ≡ taken_at tokens.now stop }
{
    count_naming(tokens, joined_stop(stop))
}

/// Returns whether one of some tokens is a company's and names a stop.
pub fn has_token(tokens: &[(Place, Company)], stop: Stop, company: Company) -> bool
    ensures { result ≡ has_token tokens.now stop company }
{
    tokens.iter().any(|token| names(stop, token.0) && same_company(token.1, company))
}
