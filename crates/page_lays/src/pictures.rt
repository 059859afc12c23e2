//! Small pictures of tiles. The page has each tile once; a line refers to it, and its class rotates
//! it.

use crate::company_turns::Turn;
use crate::move_lines::Line;
use crate::move_rows::Move;
use map_tables::{Hex, Lay, Rotation, TileNo};
use markup::PagePiece::{Number, Words};
use markup::{Attr, Tag, Writer};
use page_map::put_shade;
use picture::{Look, Marker, draw_stops, draw_track};
use tables::Money;

/// A hex that adds nothing to the picture of a tile.
const ANY: Hex = Hex::I13;

/// Adds the definitions of the tiles that some turns may lay.
pub(crate) fn put_tiles(out: &mut Writer, turns: &[Turn]) {
    out.begin_as(Tag::Svg, "defs");
    out.begin(Tag::Defs);
    for &tile in &TileNo::ALL {
        if turns
            .iter()
            .any(|turn| lays_tile(turn.map.lines.as_slice(), tile))
        {
            put_tile(out, tile);
        }
    }
    out.end();
    out.end();
}

/// Returns whether some lines lay a tile.
fn lays_tile(lines: &[Line], tile: TileNo) -> bool {
    lines.iter().any(|line| matches!(line.row.what, Move::Lay(lay) if lay.tile == tile))
}

/// Adds the definition of a tile, in rotation 0.
fn put_tile(out: &mut Writer, tile: TileNo) {
    let look = Look::laid(Lay {
        hex: ANY,
        tile,
        rot: Rotation::Zero,
        swap: false,
    });
    out.begin(Tag::Group);
    out.value(Attr::Id, &[Words("l"), Number(Money::from(tile.number()))]);
    out.value(Attr::Transform, &[Words("translate(20 20) scale(.32)")]);
    out.begin(Tag::Use);
    out.value(Attr::Href, &[Words("#h")]);
    put_shade(out, look.shade);
    out.end();
    draw_track(out, &look);
    draw_stops(out, &look, &[[Marker::Free; 2]; 2]);
    out.end();
}

/// Adds the picture of a lay.
pub(crate) fn put_picture(out: &mut Writer, lay: Lay) {
    let class = match lay.rot {
        Rotation::Zero => "lt",
        Rotation::One => "lt r1",
        Rotation::Two => "lt r2",
        Rotation::Three => "lt r3",
        Rotation::Four => "lt r4",
        Rotation::Five => "lt r5",
    };
    out.begin_as(Tag::Svg, class);
    out.begin(Tag::Use);
    out.value(
        Attr::Href,
        &[Words("#l"), Number(Money::from(lay.tile.number()))],
    );
    out.end();
    out.end();
}
