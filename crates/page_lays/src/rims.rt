//! The rims of the map: for each player the hexes where their companies may lay or place a token.
//! The script moves them into the map.

use crate::groups::{Block, put_gain, put_label};
use crate::may::May;
use crate::move_rows::MoveKind;
use map_tables::Hex;
use markup::PagePiece::{Hex as Hexed, Name, Words};
use markup::{Attr, Point, Tag, Writer};
use page_map::Scene;
use picture::{Frame, Look, PlacedName, centre, pill_half, place_pill, words_of};
use std::alloc::{AllocError, Global};
use tables::Seat;

/// The rim of a hex, just within its border.
const RIM: &str = "m0-56l49 28v56l-49 28-49-28v-56z";

/// How far apart the pills of two companies are.
const APART: i32 = 17;

/// Where the pill of the first company is if there is no room: at the lower left of its hex.
const FIRST: Point = Point { x: -42, y: 30 };

/// Adds the rims of all players, given the names on the map. Fails only if allocation fails.
pub(crate) fn put_rims(
    alloc: Global,
    out: &mut Writer,
    scene: &Scene,
    may: &May,
    names: &[PlacedName],
) -> Result<(), AllocError> {
    out.begin_as(Tag::Svg, "defs");
    out.value(Attr::Hidden, &[Words("true")]);
    for player in &may.players {
        for &hex in &Hex::ALL {
            if may.turns.iter().any(|turn| {
                turn.by.president.index() == player.seat.index()
                    && turn.map.gain_on(hex, MoveKind::Both).is_some()
            }) {
                let words = words_of(alloc, hex, names)?;
                put_rim(out, scene, may, player.seat, hex, words)?;
            }
        }
    }
    out.end();
    Ok(())
}

/// Adds the rim of a hex, and a pill for each company of the player that has a line there: its
/// code, and how much more its best runs earn. Where there is room, pills hide none of these words
/// of the map. Fails only if allocation fails.
fn put_rim(
    out: &mut Writer,
    scene: &Scene,
    may: &May,
    seat: Seat,
    hex: Hex,
    words: Vec<Frame>,
) -> Result<(), AllocError> {
    out.begin_at(centre(hex));
    out.value(Attr::Class, &[Words("do rim")]);
    let name = Name(scene.name(seat));
    out.value(Attr::Id, &[name, Words("-"), Hexed(hex)]);
    put_label(out, may.of(scene, seat), Block::Sheet);
    out.path("may", &[Words(RIM)]);
    let look = Look::on(scene.history.lays(), hex);
    let mut taken = words;
    let mut up: i32 = 0;
    for turn in &may.turns {
        if turn.by.president.index() == seat.index()
            && let Some(gain) = turn.map.gain_on(hex, MoveKind::Both)
        {
            let across = pill_half(turn.by.company.code().len(), gain);
            let place = match place_pill(&look, &mut taken, across)? {
                Some(frame) => frame
                    .middle
                    .minus(centre(hex))
                    .plus(Point { x: 4, y: 5 }.minus(Point { x: across, y: 0 })),
                None => FIRST.down(0_i32.saturating_sub(up)),
            };
            out.begin_as(Tag::Text, "pill");
            out.place_at(place);
            out.within();
            out.put(&[Words(turn.by.company.code())]);
            put_gain(out, gain);
            out.end();
            up = up.saturating_add(APART);
        }
    }
    out.end();
    Ok(())
}
