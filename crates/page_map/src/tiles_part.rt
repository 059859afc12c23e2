//! The tiles: those that are left, and those on the map.
use crate::map_part::{put_rim, put_shade, put_value};
use crate::tiles_shown::{left_beside, tiles_on_map};
use desk_base::tile_on;
use history::History;
use map_tables::{Colour, Hex, Lay, Rotation, Side, TileNo, TrackEnd, tile};
use markup::PagePiece::{Count, Hex as Named, Number, Words};
use markup::{Attr, Tag, Writer, begin_section};
use picture::{Look, Marker, Ring, city_name, draw_stops, draw_track, on_ring};
use tables::Money;

/// The colours of tiles in the order of the phases.
pub const TILE_COLOURS: [(Colour, &str); 3] = [
    (Colour::Yellow, "Yellow tiles"),
    (Colour::Green, "Green tiles"),
    (Colour::Brown, "Brown tiles"),
];

/// A hex for the pictures of tiles, which show nothing else of it.
const ANY: Hex = Hex::I13;

/// Adds a picture of a tile in a rotation, with the numbers of its sides.
pub fn put_tile(out: &mut Writer, number: TileNo, rotation: Rotation) {
    let look = Look::laid(Lay {
        hex: ANY,
        tile: number,
        rot: rotation,
        swap: false,
    });
    out.begin_as(Tag::Svg, "tile");
    out.value(Attr::ViewBox, &[Words("-66 -68 132 136")]);
    out.value(Attr::Role, &[Words("img")]);
    out.element(
        Tag::Title,
        &[
            Words("tile "),
            Number(Money::from(number.number())),
            Words(", rotation "),
            Count(rotation.turns()),
        ],
    );
    out.begin(Tag::Use);
    out.value(Attr::Href, &[Words("#h")]);
    put_shade(out, look.shade);
    out.end();
    put_rim(out, look.shade);
    draw_track(out, &look);
    draw_stops(out, &look, &[[Marker::Free; 2]; 2]);
    put_value(out, &look);
    for &side in &Side::ALL {
        if leads_to(&look, side) {
            let place = on_ring(Ring::Digit, side);
            out.label("j", place, &[Count(side.number())]);
        }
    }
    out.end();
}

/// Returns whether track leads to a side.
fn leads_to(look: &Look, side: Side) -> bool {
    for link in look.links.as_slice() {
        if is_side(link.a, side) || is_side(link.b, side) {
            return true;
        }
    }
    false
}

/// Returns whether an end is a side.
fn is_side(end: TrackEnd, side: Side) -> bool {
    match end {
        TrackEnd::Side(its) => its.number() == side.number(),
        TrackEnd::Stop(_) => false,
    }
}

/// Adds how many tiles of each number are left, with their pictures.
pub fn put_tiles_left(out: &mut Writer, history: &History) {
    begin_section(
        out,
        "tiles",
        "Tiles left",
        "(rotation 0 with the numbers of the sides; a rotation r adds r)",
    );
    out.begin_as(Tag::Listing, "tiles");
    let shown = tiles_on_map(history.lays());
    for &(colour, _) in &TILE_COLOURS {
        for &number in &TileNo::ALL {
            if tile(number).colour as u8 == colour as u8 {
                put_left(out, number, left_beside(shown.as_slice(), number));
            }
        }
    }
    out.end();
    out.end();
}

/// Adds how many tiles of a number are left.
fn put_left(out: &mut Writer, number: TileNo, left: usize) {
    out.put(&[Words("\n")]);
    out.begin(Tag::Item);
    if left == 0 {
        out.value(Attr::Class, &[Words("gone")]);
    }
    put_tile(out, number, Rotation::Zero);
    out.element(Tag::Bold, &[Number(Money::from(number.number()))]);
    out.put(&[Words(" &#215;"), Count(left)]);
    out.end();
}

/// Adds the tiles on the map, hex by hex.
pub fn put_laid(out: &mut Writer, history: &History) {
    begin_section(
        out,
        "laid",
        "Tiles on the map",
        "(hex, tile / rotation; s swapped)",
    );
    if history.lays().is_empty() {
        out.element(Tag::Paragraph, &[Words("No tile has been laid.")]);
    } else {
        put_laid_list(out, history);
    }
    out.end();
}

/// Adds the list of the tiles on the map.
fn put_laid_list(out: &mut Writer, history: &History) {
    out.begin_as(Tag::Listing, "laid");
    for &hex in &Hex::ALL {
        if let Some(lay) = tile_on(history.lays(), hex) {
            put_lay(out, lay);
        }
    }
    out.end();
}

/// Adds a tile on the map.
fn put_lay(out: &mut Writer, lay: Lay) {
    out.begin(Tag::Item);
    out.element(Tag::Bold, &[Named(lay.hex)]);
    out.put(&[
        Words("&nbsp;"),
        Number(Money::from(lay.tile.number())),
        Words("/"),
        Count(lay.rot.turns()),
        Words(if lay.swap { "s" } else { "" }),
    ]);
    if let Some(name) = city_name(lay.hex) {
        out.put(&[Words(" "), Words(name)]);
    }
    out.end();
}
