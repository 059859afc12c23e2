//! The map: its grounds, track, stops and labels, in layers. The routes lie between the track and
//! the stops.

use crate::hex_words::{is_new, kind_letters, put_words};
use crate::legend::{put_legend, put_parts};
use crate::scene::Scene;
use crate::signs::put_signs;
use crate::tokens::{markers_in, private_in};
use board_state::same_hex;
use history::Holder;
use map_tables::{Hex, Lay, printed_value, terrain_cost};
use markup::PagePiece::{Count, Hex as Hexed, Number, Round as Named, Words};
use markup::{Attr, Point, Tag, Writer};
use picture::{
    BASELINE, Look, PlacedName, Shade, Stops, centre, cost_point, draw_stops, draw_track,
    kind_point, private_point, value_point,
};
use tables::{Kind, Money, Private, Round};

/// The closed borders of the map.
const CLOSED: &str = "M378 474L402 460M586 294L610 280M662 294L638 280M846 204L870 190";

/// Begins the map: its signs, its grounds and its track, up to the layer of the routes.
pub fn begin_map(out: &mut Writer, scene: &Scene, routes_of: Option<Round>) {
    begin_picture(out, routes_of);
    put_grounds(out, scene);
    put_tracks(out, scene);
}

/// Begins the picture of the map, with its signs.
pub fn begin_picture(out: &mut Writer, routes_of: Option<Round>) {
    out.begin_as(Tag::Svg, "map");
    out.value(Attr::ViewBox, &[Words("0 0 1302 1040")]);
    out.value(Attr::Role, &[Words("group")]);
    out.value(Attr::Label, &[Words("Map")]);
    put_description(out, routes_of);
    put_signs(out);
    put_parts(out);
}

/// Adds the stops and labels of all hexes, with the names on the map, above the routes, and begins
/// the layers above them.
pub fn put_labels(out: &mut Writer, scene: &Scene, names: &[PlacedName]) {
    out.begin_as(Tag::Group, "top");
    for &hex in &Hex::ALL {
        put_hex(out, scene, &Look::on(scene.history.lays(), hex), names);
    }
}

/// Ends the map, with its legend.
pub fn end_map(out: &mut Writer) {
    put_legend(out);
    out.end();
    out.end();
}

/// Adds what the map shows, in words, with the round of the routes.
fn put_description(out: &mut Writer, routes_of: Option<Round>) {
    out.begin(Tag::Desc);
    out.within();
    out.put(&[Words("Map of the hexes with tiles, tokens and routes")]);
    if let Some(round) = routes_of {
        out.put(&[Words(" of "), Named(round)]);
    }
    out.put(&[Words(". Each hex leads to its words below.")]);
    out.end();
}

/// Adds the ground of each hex, with its title.
fn put_grounds(out: &mut Writer, scene: &Scene) {
    out.begin_as(Tag::Group, "ground");
    for &hex in &Hex::ALL {
        put_ground(out, scene, hex);
    }
    out.end();
}

/// Adds the ground of a hex, with the hex in words as its title. It is a link to the same words in
/// the list of hexes.
fn put_ground(out: &mut Writer, scene: &Scene, hex: Hex) {
    let look = Look::on(scene.history.lays(), hex);
    out.begin(Tag::Anchor);
    out.value(Attr::Href, &[Words("#hex-"), Hexed(hex)]);
    begin_ground(out, hex, look.shade);
    out.begin(Tag::Title);
    out.within();
    put_words(out, scene, &look);
    out.end();
    out.end();
    out.end();
    out.put(&[Words("\n")]);
}

/// Begins the ground of a hex, with its shade.
pub fn begin_ground(out: &mut Writer, hex: Hex, shade: Shade) {
    out.begin(Tag::Use);
    out.value(Attr::Href, &[Words("#h")]);
    put_shade(out, shade);
    out.place_at(centre(hex));
}

/// Adds the class of a ground.
pub fn put_shade(out: &mut Writer, shade: Shade) {
    let class = match shade {
        Shade::White => "w",
        Shade::Yellow => "y",
        Shade::Green => "g",
        Shade::Brown => "b",
        Shade::Grey => "e",
        Shade::Red => "r",
    };
    out.value(Attr::Class, &[Words(class)]);
}

/// Adds the rim that shows a ground without its colour, if it has one.
pub fn put_rim(out: &mut Writer, shade: Shade) {
    match shade {
        Shade::White | Shade::Yellow => {}
        Shade::Green => out.sign("#fg", Point::CENTRE),
        Shade::Brown => out.sign("#fb", Point::CENTRE),
        Shade::Grey => out.sign("#fe", Point::CENTRE),
        Shade::Red => out.sign("#fr", Point::CENTRE),
    }
}

/// Adds the rims and the track of each hex, and the closed borders.
fn put_tracks(out: &mut Writer, scene: &Scene) {
    out.begin_as(Tag::Group, "top");
    for &hex in &Hex::ALL {
        let look = Look::on(scene.history.lays(), hex);
        if has_drawing(&look) {
            out.begin_at(centre(hex));
            put_rims(out, scene, &look);
            draw_track(out, &look);
            out.end();
        }
    }
    put_borders(out);
    out.end();
}

/// Adds the rim that shows a ground without its colour, and that of a new tile.
pub fn put_rims(out: &mut Writer, scene: &Scene, look: &Look) {
    put_rim(out, look.shade);
    if is_new(scene, look) {
        out.sign("#nw", Point::CENTRE);
        out.sign("#nh", Point::CENTRE);
    }
}

/// Adds the closed borders.
pub fn put_borders(out: &mut Writer) {
    out.path("wa", &[Words(CLOSED)]);
    out.path("wb", &[Words(CLOSED)]);
}

/// Returns whether a hex has track or a rim of its own.
pub fn has_drawing(look: &Look) -> bool {
    !look.links.is_empty() || !matches!(look.shade, Shade::White | Shade::Yellow)
}

/// Adds the stops of a hex with their tokens, and its labels.
fn put_hex(out: &mut Writer, scene: &Scene, look: &Look, names: &[PlacedName]) {
    out.begin_at(centre(look.hex));
    put_stops(out, scene, look, names);
    out.end();
}

/// Adds the stops of a hex with their tokens, its labels and those of the names on the map that are
/// its own, for a group at its centre.
pub fn put_stops(out: &mut Writer, scene: &Scene, look: &Look, names: &[PlacedName]) {
    draw_stops(out, look, &markers_in(scene.history, look.hex, look.slots));
    match look.stops {
        Stops::Area => put_area(out, scene, look.hex),
        Stops::Towns | Stops::Cities => {
            put_value(out, look);
            put_cost(out, look);
            put_privates(out, scene, look.hex);
        }
    }
    out.label("c", Point { x: -40, y: 30 }, &[Hexed(look.hex)]);
    if let Some(lay) = look.lay {
        put_tile(out, lay);
    }
    put_names(out, look.hex, names);
}

/// Adds those of the names on the map that are of a hex, for a group at its centre.
fn put_names(out: &mut Writer, hex: Hex, names: &[PlacedName]) {
    for name in names {
        if same_hex(name.hex, hex) {
            let place = name.frame.middle.minus(centre(hex)).down(BASELINE);
            out.label("nm", place, &[Words(name.words)]);
        }
    }
}

/// Adds the two values of a red area, the present one white on black.
fn put_area(out: &mut Writer, scene: &Scene, hex: Hex) {
    let is_late = scene.history.phase().index() >= Kind::Five.index();
    let (left, right) = if is_late {
        (("o", "f"), ("x", "pw"))
    } else {
        (("x", "pw"), ("o", "f"))
    };
    let value = printed_value(hex);
    out.path(left.0, &[Words("M-34-11H0V11H-34z")]);
    out.path(right.0, &[Words("M0-11H34V11H0z")]);
    out.label(
        left.1,
        Point { x: -17, y: 5 },
        &[Number(Money::from(value.before_phase_five))],
    );
    out.label(
        right.1,
        Point { x: 17, y: 5 },
        &[Number(Money::from(value.from_phase_five))],
    );
}

/// Adds what the stops are worth, and the kind of the hex.
pub fn put_value(out: &mut Writer, look: &Look) {
    if let (Some(place), true) = (value_point(look), look.value > 0) {
        out.sign("#d", place);
        out.label("p", place.down(5), &[Number(Money::from(look.value))]);
    }
    if let (Some(place), Some(letters)) = (kind_point(look), kind_letters(look)) {
        out.label("m", place.down(5), &[Words(letters)]);
    }
}

/// Adds the cost of the terrain if no tile lies there.
fn put_cost(out: &mut Writer, look: &Look) {
    let cost = terrain_cost(look.hex);
    if look.lay.is_some() || cost == 0 {
        return;
    }
    let place = cost_point(look.hex);
    out.sign(if cost == 80 { "#h80" } else { "#h120" }, place);
    out.label("a", place.down(12), &[Number(Money::from(cost))]);
}

/// Adds the codes of the privates of a hex that players own or that are unsold.
fn put_privates(out: &mut Writer, scene: &Scene, hex: Hex) {
    let view = scene.history.now();
    for &private in &Private::ALL {
        if private_in(private, hex) {
            match view.owner(private) {
                Some(Holder::Seat(_)) => put_private(out, private, hex, "x", "n"),
                Some(Holder::Company(_)) => {}
                None if !view.is_sold(private) => put_private(out, private, hex, "o", "a"),
                None => {}
            }
        }
    }
}

/// Adds the code of a private in a box, with the classes of both.
fn put_private(
    out: &mut Writer,
    private: Private,
    hex: Hex,
    around: &'static str,
    within: &'static str,
) {
    let place = private_point(private, hex);
    let (half, rest) = match private {
        Private::BaltimoreOhio => (15, "h30v16h-30z"),
        _ => (12, "h24v16h-24z"),
    };
    let corner = place.minus(Point { x: half, y: 8 });
    out.path(
        around,
        &[Words("M"), markup::PagePiece::Point(corner), Words(rest)],
    );
    out.label(within, place.down(4), &[Words(private.code())]);
}

/// Adds the number of a tile and its rotation; an `s` if its stops are swapped.
fn put_tile(out: &mut Writer, lay: Lay) {
    out.label(
        "i",
        Point { x: 0, y: 51 },
        &[
            Number(Money::from(lay.tile.number())),
            Words("/"),
            Count(lay.rot.turns()),
            Words(if lay.swap { "s" } else { "" }),
        ],
    );
}
