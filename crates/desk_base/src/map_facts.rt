//! Track by the map alone: over which sides it may not lead, and between which hexes it may.
ghost use Rattle.std.specs.Prelude.{◌≡◌, ◌||◌, find, true};
ghost use Rattle.std.specs.List.{list_any};
ghost use Rattle.std.specs.Option.{option_map_or};
ghost use Rattle.desk_base.specs.Objections.{bad_side, is_bad_of};
ghost use Rattle.legal_runs.specs.Named.{is_hex, side_towards};
ghost use Rattle.map_tables.specs.Border.{neighbour_of};
ghost use Rattle.map_tables.specs.Fit.{has_print_at, is_shut, is_side};
ghost use Rattle.map_tables.specs.Side.{facing_of};

use board_state::is_open;
use map_tables::{Hex, Lay, Link, Side, TrackEnd, hex_kind, laid_links, neighbour, printed_links};

/// Returns the first side of a hex to which the track of a tile there leads and may not, because
/// the map ends there, the border is closed, or a grey or red hex there has no track to it; `None`
/// if there is no such side.
pub fn bad_side(lay: Lay) -> Option<Side>
    ensures { result ≡ bad_side lay }
{
    map_tables::laws::sides_and_rotations_are_all();
    first_bad(&Side::ALL, lay)
}

/// Returns the first of some sides to which the track of a tile leads and may not.
fn first_bad(sides: &[Side], lay: Lay) -> Option<Side>
    ensures { result ≡ find (is_bad_of lay) sides.now }
{
    sides.iter().copied().find(|side| is_bad_of(lay, *side))
}

/// Returns whether the track of a tile leads to a side to which none may.
fn is_bad_of(lay: Lay, side: Side) -> bool
    ensures { result ≡ is_bad_of lay side }
{
    have_side(laid_links(lay).as_slice(), side) && is_shut_to(neighbour(lay.hex, side), side)
}

/// Returns whether some of these links lead to a side.
fn have_side(links: &[Link], side: Side) -> bool
    ensures { result ≡ list_any (λ link. is_side side link.a || is_side side link.b) links.now }
{
    links
        .iter()
        .any(|link| is_side(side, link.a) || is_side(side, link.b))
}

/// Returns whether no track may lead over a side to the neighbour there, if there is one.
fn is_shut_to(neighbour: Option<Hex>, side: Side) -> bool
    ensures { result ≡ option_map_or (λ other. is_shut other (facing_of side)) neighbour true }
{
    match neighbour {
        Some(other) => is_shut(other, side.facing()),
        None => true,
    }
}

/// Returns whether track may not reach a hex over this side of it.
fn is_shut(hex: Hex, side: Side) -> bool
    ensures { result ≡ is_shut hex side }
{
    !is_open(hex_kind(hex)) && !has_print_at(hex, side)
}

/// Returns whether the print of a hex has track at a side.
fn has_print_at(hex: Hex, side: Side) -> bool
    ensures { result ≡ has_print_at hex side }
{
    have_side(printed_links(hex).as_slice(), side)
}

/// Returns whether an end of track is this side.
fn is_side(side: Side, end: TrackEnd) -> bool
    ensures { result ≡ is_side side end }
{
    match end {
        TrackEnd::Side(other) => other.number() == side.number(),
        TrackEnd::Stop(_) => false,
    }
}

/// Returns the side of a hex at which another lies; `None` if no track leads from one to the other.
#[tactic(auto, unfolding(legal_runs::specs::Named::side_towards))]
pub fn side_towards(hex: Hex, other: Hex) -> Option<Side>
    ensures { result ≡ side_towards hex other }
{
    map_tables::laws::sides_and_rotations_are_all();
    first_towards(&Side::ALL, hex, other)
}

/// Returns the first of some sides of a hex at which another lies.
fn first_towards(sides: &[Side], hex: Hex, other: Hex) -> Option<Side>
    ensures { result ≡ find (λ side. is_hex other (neighbour_of hex side)) sides.now }
{
    sides
        .iter()
        .copied()
        .find(|side| is_hex(other, neighbour(hex, *side)))
}

/// Returns whether a hex is the one that is looked for.
fn is_hex(hex: Hex, found: Option<Hex>) -> bool
    ensures { result ≡ is_hex hex found }
{
    match found {
        Some(other) => other.index() == hex.index(),
        None => false,
    }
}
