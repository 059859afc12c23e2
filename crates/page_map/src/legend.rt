//! The legend of the map: the sides, the signs and the companies.

use map_tables::PerSide;
use markup::PagePiece::{Count, Words};
use markup::{Attr, Point, Tag, Writer};
use tables::Company;

/// The numbers of the sides in the legend: a tick, and the place of the number.
const SIDES: PerSide<(&str, Point)> = [
    ("M-39 67l6-10", Point { x: -28, y: 56 }),
    ("M-78 0l11 0", Point { x: -56, y: 8 }),
    ("M-39-67l6 10", Point { x: -28, y: -40 }),
    ("M39-67l-6 10", Point { x: 28, y: -40 }),
    ("M78 0l-11 0", Point { x: 56, y: 8 }),
    ("M39 67l-6-10", Point { x: 28, y: 56 }),
];

/// A part of the legend: its name, and its places on the map and in the separate picture.
struct Part {
    name: &'static str,
    sign: &'static str,
    on_map: Point,
    alone: Point,
}

/// The parts of the legend.
const PARTS: [Part; 3] = [
    Part {
        name: "ks",
        sign: "#ks",
        on_map: Point { x: 150, y: 98 },
        alone: Point { x: 150, y: 98 },
    },
    Part {
        name: "kg",
        sign: "#kg",
        on_map: Point { x: 1076, y: 676 },
        alone: Point { x: 340, y: 24 },
    },
    Part {
        name: "kt",
        sign: "#kt",
        on_map: Point { x: 864, y: 906 },
        alone: Point { x: 48, y: 276 },
    },
];

/// Adds the parts of the legend to the definitions of the map.
pub(crate) fn put_parts(out: &mut Writer) {
    out.begin(Tag::Defs);
    for part in &PARTS {
        out.begin(Tag::Group);
        out.value(Attr::Id, &[Words(part.name)]);
        match part.name {
            "ks" => put_sides(out),
            "kg" => put_sign_rows(out),
            _ => put_companies(out),
        }
        out.end();
    }
    out.end();
}

/// Adds the legend to the map.
pub(crate) fn put_legend(out: &mut Writer) {
    for part in &PARTS {
        out.begin_as(Tag::Use, "on");
        out.value(Attr::Href, &[Words(part.sign)]);
        out.place_at(part.on_map);
        out.end();
    }
}

/// Adds the legend as a separate picture, for screens too narrow for it on the map.
pub fn put_key(out: &mut Writer) {
    out.begin_as(Tag::Svg, "key");
    out.value(Attr::ViewBox, &[Words("0 0 620 420")]);
    out.value(Attr::Role, &[Words("img")]);
    out.value(Attr::Label, &[Words("Legend of the map")]);
    for part in &PARTS {
        out.sign(part.sign, part.alone);
    }
    out.end();
}

/// Adds the numbers of the sides.
fn put_sides(out: &mut Writer) {
    out.path("leg", &[Words("M0-90L78-45V45L0 90-78 45V-45z")]);
    for (number, (tick, place)) in SIDES.iter().enumerate() {
        out.path("tick", &[Words(tick)]);
        out.label("big", *place, &[Count(number)]);
    }
    out.label("lg", Point { x: 0, y: 6 }, &[Words("sides")]);
    let words = "Rotation r adds r to the number of each";
    out.words_at(Point { x: -126, y: 118 }, words);
    let words = "side of a tile; from 6 on again from 0.";
    out.words_at(Point { x: -126, y: 138 }, words);
}

/// Adds the companies.
fn put_companies(out: &mut Writer) {
    for &company in &Company::ALL {
        let number = company.index() as i32;
        let place = Point {
            x: 92 * (number / 4),
            y: 34 * (number % 4),
        };
        out.token("#t", company, place);
        let beside = place.plus(Point { x: 22, y: 5 });
        out.words_at(beside, company.code());
    }
}

/// What a row of the legend shows.
enum Sample {
    /// A sign, moved down.
    Sign(&'static str, i32),
    /// A sign with a text in it, moved down, with a class.
    Marked(&'static str, &'static str, i32, &'static str),
    /// A path with a class, and a text in it, moved down, with a class.
    Boxed(&'static str, &'static str, &'static str, &'static str),
    /// A text with a class.
    Text(&'static str, &'static str),
    /// A closed border.
    Border,
    /// A red area.
    Area,
    /// A reserved slot.
    Kept,
    /// The grounds of hexes.
    Grounds,
    /// The rim of what is new.
    New,
    /// The line of a company's second train, with its sum.
    Train,
}

/// The rows of the legend, each with its words.
const ROWS: [(Sample, &str); 15] = [
    (Sample::Sign("#v", 0), "town"),
    (Sample::Sign("#s", 0), "city, a free slot"),
    (Sample::Kept, "slot kept for the home of PRR"),
    (
        Sample::Marked("#d", "p", 5, "20"),
        "value of each stop of the hex",
    ),
    (
        Sample::Marked("#q", "n", 4, "1"),
        "the stop of this number: H18.1",
    ),
    (Sample::Area, "red: before, from phase 5"),
    (Sample::Text("i", "57/1"), "tile 57, rotation 1; s swapped"),
    (
        Sample::Marked("#h80", "a", 13, "80"),
        "river: what the first tile costs",
    ),
    (
        Sample::Marked("#h120", "a", 13, "120"),
        "mountains: the same",
    ),
    (
        Sample::Boxed("x", "M-13-8h26v16h-26z", "n", "SV"),
        "barred by a private of a player",
    ),
    (
        Sample::Boxed("o", "M-13-8h26v16h-26z", "a", "SV"),
        "private not sold yet",
    ),
    (Sample::Border, "closed border"),
    (Sample::Grounds, "rims: green, brown, grey, red"),
    (Sample::New, "laid or placed in the last round"),
    (Sample::Train, "a tick: the second train; its sum"),
];

/// The distance between rows of the legend.
const ROW: i32 = 25;

/// Adds the signs of the map, each with its words.
fn put_sign_rows(out: &mut Writer) {
    let mut place = Point::CENTRE;
    for (sample, words) in &ROWS {
        out.begin_at(place);
        put_sample(out, sample);
        out.words_at(Point { x: 28, y: 5 }, words);
        out.end();
        place = place.down(ROW);
    }
}

/// Adds what a row of the legend shows.
fn put_sample(out: &mut Writer, sample: &Sample) {
    match sample {
        Sample::Sign(sign, y) => out.sign(sign, Point { x: 0, y: *y }),
        Sample::Marked(sign, class, y, text) => {
            out.sign(sign, Point::CENTRE);
            out.label(class, Point { x: 0, y: *y }, &[Words(text)]);
        }
        Sample::Boxed(box_class, data, class, text) => {
            out.path(box_class, &[Words(data)]);
            out.label(class, Point { x: 0, y: 4 }, &[Words(text)]);
        }
        Sample::Text(class, text) => out.label(class, Point { x: 0, y: 4 }, &[Words(text)]),
        Sample::Border => {
            out.path("wa", &[Words("M-20 0H20")]);
            out.path("wb", &[Words("M-20 0H20")]);
        }
        Sample::Area => {
            out.path("x", &[Words("M-22-10H0V10H-22z")]);
            out.path("o", &[Words("M0-10H22V10H0z")]);
            out.label("pw", Point { x: -11, y: 5 }, &[Words("40")]);
            out.label("f", Point { x: 11, y: 5 }, &[Words("70")]);
        }
        Sample::Kept => {
            out.sign("#s", Point::CENTRE);
            out.token("#r", Company::Pennsylvania, Point::CENTRE);
        }
        Sample::Grounds => put_grounds(out),
        Sample::New => out.path("ne", &[Words("M-20-9h40v18h-40z")]),
        Sample::Train => put_train(out),
    }
}

/// Adds the rims that distinguish the grounds, with their names below.
fn put_grounds(out: &mut Writer) {
    out.path("fg", &[Words("M-22-9H22")]);
    out.path("fb", &[Words("M-22-3H22")]);
    out.path("fe", &[Words("M-22 3H22")]);
    out.path("fr", &[Words("M-22 9H22")]);
}

/// Adds the line of a company's second train, with its sum.
fn put_train(out: &mut Writer) {
    let line = [Words("M-24 0H24")];
    out.path("sa", &line);
    out.begin_as(Tag::Path, "sc");
    out.value(Attr::D, &line);
    out.line_colour(Company::BostonMaine);
    out.end();
    out.path("tk", &[Words("M-17-4V4")]);
    out.path("tw", &[Words("M-17-4V4")]);
    out.path("tag", &[Words("M-4-8h29v16h-29z")]);
    out.label("tt", Point { x: 7, y: 4 }, &[Words("70")]);
    out.token("#m", Company::BostonMaine, Point { x: -4, y: 0 });
}
