//! Where the track of a run breaks, and over which borders a tile or a stop can be reached.
ghost use Rattle.std.specs.Prelude.{◌≡◌, ◌∷◌, []};
ghost use Rattle.desk_why.specs.Track.{hex_behind};

use board::Board;
use desk_base::side_towards;
use map_tables::{Hex, Link, Place, Stop, TrackEnd, neighbour};
use reach::Network;

/// Returns the first two hexes between which a run breaks, because no track leads from the place in
/// the first to the place in the second; `None` if it does not break.
pub(crate) fn break_of(board: &Board, places: &[Place]) -> Option<(Hex, Hex)> {
    let first = places.first()?;
    let (mut hex, mut end) = (first.hex, TrackEnd::Stop(first.stop?));
    for place in places.get(1..)? {
        let next = end_at(board, hex, end, *place);
        let Some(there) = next else {
            return Some((hex, place.hex));
        };
        (hex, end) = (place.hex, there);
    }
    None
}

/// Returns the end of track that a train reaches in the hex of a place, coming from this end in
/// another hex; `None` if no track leads there.
fn end_at(board: &Board, hex: Hex, end: TrackEnd, place: Place) -> Option<TrackEnd> {
    let side = side_towards(hex, place.hex)?;
    if !is_linked(board, hex, end, TrackEnd::Side(side)) {
        return None;
    }
    let border = TrackEnd::Side(side.facing());
    let Some(number) = place.stop else {
        return Some(border);
    };
    if is_linked(board, place.hex, border, TrackEnd::Stop(number)) {
        Some(TrackEnd::Stop(number))
    } else {
        None
    }
}

/// Returns whether two ends of track in a hex are joined.
fn is_linked(board: &Board, hex: Hex, one: TrackEnd, other: TrackEnd) -> bool {
    board.links(hex).as_slice().iter().any(|link| (link.a == one && link.b == other)
        || (link.a == other && link.b == one))
}

/// Returns the hexes from which track can lead over a border to each end of a link; `None` if there
/// is no hex, or that end is not at a border.
pub(crate) fn hexes_behind(hex: Hex, link: &Link) -> [Option<Hex>; 2]
    ensures { result ≡ hex_behind hex link.now.a ∷ hex_behind hex link.now.b ∷ [] }
{
    [hex_behind(hex, link.a), hex_behind(hex, link.b)]
}

/// Returns the hex beyond an end of track in a hex.
fn hex_behind(hex: Hex, end: TrackEnd) -> Option<Hex>
    ensures { result ≡ hex_behind hex end }
{
    match end {
        TrackEnd::Side(side) => neighbour(hex, side),
        TrackEnd::Stop(_) => None,
    }
}

/// Returns whether a link touches a stop.
pub(crate) fn touches(link: &Link, stop: Stop) -> bool {
    link.a == TrackEnd::Stop(stop.number) || link.b == TrackEnd::Stop(stop.number)
}
