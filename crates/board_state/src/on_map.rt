//! What lies, and what follows from it: the track, values, slots and tokens of the position.
ghost use Rattle.std.specs.Prelude.{◌≡◌, ◌↔◌, IsTrue, length};
ghost use Rattle.std.specs.List.{count_by};
ghost use Rattle.map_tables.specs.declared.place.Place.{Place};
ghost use Rattle.tables.specs.declared.roster.Company.{Company};
ghost use Rattle.tables.specs.declared.rolling_stock.Kind.{Kind};
ghost use Rattle.board_state.specs.MapState.{MapState, position_of, track_in, value_on};
ghost use Rattle.map_tables.specs.OnMap.{has_token, links_on, names, slots_at, slots_on, tile_on};
ghost use Rattle.reach.specs.Position.{HasToken, IsFull, at_stop, is_red, links_of, value_of};

use crate::stop_facts::{is_red, is_stop, same_hex, value_in};
use map_tables::{
    Hex, Lay, Links, Stop, StopNumber, hex_kind, joined_stop, printed_links, printed_slots,
    printed_value, tile,
};
use tables::{Amount, Company, Kind};

/// Gives the tiles and tokens on the map. In a contract it is the map state.
pub trait OnMap {
    /// What lies.
    ghost laid: { Self → MapState };

    /// Returns the tile that lies on a hex: the last that was laid there.
    fn tile_on(&self, hex: Hex) -> Option<Lay>
        ensures { result ≡ tile_on (laid self.now).lays hex };

    /// Returns the links of a hex: those of the tile that lies there, or its print.
    fn links_on(&self, hex: Hex) -> Links
        ensures { result.items ≡ links_on (laid self.now).lays hex };

    /// Returns how many tokens name a stop, by its own name.
    fn count_at(&self, stop: Stop) -> usize
        ensures { result ≡ count_by (λ (token : Place × Company). names stop token.0)
            (laid self.now).tokens };

    /// Returns whether a token of a company names a stop, by its own name.
    fn holds(&self, stop: Stop, company: Company) -> bool
        ensures { result ≡ has_token (laid self.now).tokens stop company };

    /// Returns the phase.
    fn phase(&self) -> Kind
        ensures { result ≡ (laid self.now).phase };
}

/// Returns the track in a hex. A hex that is part of another hex's stop keeps its printed track,
/// since no tile is laid there.
fn track_in<L: OnMap>(board: &L, hex: Hex) -> Links
    ensures { result.items ≡ track_in (L.laid board.now).lays hex }
{
    let named = joined_stop(Stop {
        hex,
        number: StopNumber::First,
    });
    if same_hex(named.hex, hex) {
        board.links_on(hex)
    } else {
        printed_links(hex)
    }
}

/// Returns the links that the position has in a hex.
pub fn links_on_map<L: OnMap>(board: &L, hex: Hex) -> Links
    ensures { result.items ≡ links_of (position_of (L.laid board.now)) hex }
{
    track_in(board, hex)
}

/// Returns what each stop of a hex is worth.
fn value_on<L: OnMap>(board: &L, hex: Hex) -> Amount
    ensures { result ≡ value_on (L.laid board.now).phase (L.laid board.now).lays hex }
{
    match board.tile_on(hex) {
        Some(lay) => tile(lay.tile).value,
        None => value_in(board.phase(), printed_value(hex)),
    }
}

/// Returns what a stop is worth in the position, in dollars; 0 if there is no such stop.
pub fn value_on_map<L: OnMap>(board: &L, stop: Stop) -> Amount
    ensures { result ≡ value_of (position_of (L.laid board.now)) stop }
{
    let stop = joined_stop(stop);
    if is_stop(stop) {
        value_on(board, stop.hex)
    } else {
        0
    }
}

/// Returns how many slots each stop of a hex has.
fn slots_on<L: OnMap>(board: &L, hex: Hex) -> u8
    ensures { result ≡ slots_on (L.laid board.now).lays hex }
{
    match board.tile_on(hex) {
        Some(lay) => tile(lay.tile).slots,
        None => printed_slots(hex),
    }
}

/// Returns how many slots a stop has; 0 if there is no such stop.
fn slots_there<L: OnMap>(board: &L, stop: Stop) -> usize
    ensures { result ≡ slots_at (L.laid board.now).lays stop }
{
    let stop = joined_stop(stop);
    if is_stop(stop) {
        usize::from(slots_on(board, stop.hex))
    } else {
        0
    }
}

/// Returns how many slots a stop has, by the map state and in the position.
pub fn slots<L: OnMap>(board: &L, stop: Stop) -> usize
    ensures slots { result ≡ slots_at (L.laid board.now).lays stop }
    ensures shown { result ≡ (at_stop (position_of (L.laid board.now)) stop).slots }
{
    slots_there(board, stop)
}

/// Returns how many tokens lie at a stop; 0 if there is no such stop.
fn taken<L: OnMap>(board: &L, stop: Stop) -> usize
    ensures { result ≡ length (at_stop (position_of (L.laid board.now)) stop).tokens }
{
    let stop = joined_stop(stop);
    if !is_stop(stop) {
        return 0;
    }
    board.count_at(stop)
}

/// Returns whether a stop is red in the position.
pub fn red_on_map<L: OnMap>(_board: &L, stop: Stop) -> bool
    ensures { result ≡ is_red (position_of (L.laid _board.now)) stop }
{
    let stop = joined_stop(stop);
    is_stop(stop) && is_red(hex_kind(stop.hex))
}

/// Returns whether a stop is a city that is full for a company in the position.
pub fn full_on_map<L: OnMap>(board: &L, stop: Stop, company: Company) -> bool
    ensures { IsTrue result ↔ IsFull (position_of (L.laid board.now)) stop company }
{
    let taken = taken(board, stop);
    if taken == 0 {
        return false;
    }
    let slots = slots(board, stop);
    0 < slots && slots <= taken && !token_on_map(board, stop, company)
}

/// Returns whether a company has a token at a stop in the position.
pub fn token_on_map<L: OnMap>(board: &L, stop: Stop, company: Company) -> bool
    ensures { IsTrue result ↔ HasToken (position_of (L.laid board.now)) stop company }
{
    let stop = joined_stop(stop);
    board.holds(stop, company) && is_stop(stop)
}
