//! The signs that the pictures of a page refer to.

use markup::PagePiece::{At, Words};
use markup::{Attr, PagePiece, Tag, Writer, livery_of};
use tables::Company;

/// The rim of a hex, open from its name in the lower left corner to its tile's number below.
const RIM: &str = "M17 45L48 27V-27L0-55-48-27V17";

/// Signs that are one path: their names and their data. Those whose names begin with `f` are the
/// rims that distinguish the grounds of hexes without colour; `nh` is the rim of a new tile, and
/// `nw` the white edge below it.
const PATHS: [(&str, &str); 11] = [
    ("h", "M0-60L52-30V30L0 60-52 30V-30z"),
    ("fg", RIM),
    ("fb", RIM),
    ("fe", RIM),
    ("fr", RIM),
    ("nw", "M0-55L47-27V27L0 55-47 27V-27z"),
    ("nh", "M0-55L47-27V27L0 55-47 27V-27z"),
    ("sq", "M0 0H60V56H0z"),
    ("par", "M3 3H57V53H3z"),
    ("h120", "M-11 3L-4-9-1-4 2-9 10 3z"),
    ("h80", "M-11-6q4-5 7 0t7 0 7 0M-11 0q4-5 7 0t7 0 7 0"),
];

/// Signs that are one circle: their names and their radii.
const CIRCLES: [(&str, i32); 6] = [
    ("s", 14),
    ("v", 8),
    ("q", 7),
    ("d", 11),
    ("nt", 16),
    ("nm", 9),
];

/// Adds the signs to which pictures refer.
pub fn put_signs(out: &mut Writer) {
    out.begin(Tag::Defs);
    for &(name, data) in &PATHS {
        put_sign(out, Tag::Path, name, Attr::D, Words(data));
    }
    for &(name, radius) in &CIRCLES {
        put_sign(out, Tag::Circle, name, Attr::R, At(radius));
    }
    for &company in &Company::ALL {
        put_tokens(out, company);
    }
    out.end();
}

/// Adds a sign that is one shape with one attribute.
fn put_sign(out: &mut Writer, shape: Tag, name: &'static str, attribute: Attr, value: PagePiece) {
    out.begin(shape);
    out.value(Attr::Id, &[Words(name)]);
    out.value(attribute, &[value]);
    out.end();
}

/// Adds the token of a company, the small one, and its ring.
fn put_tokens(out: &mut Writer, company: Company) {
    let livery = livery_of(company);
    begin_sign(out, "t", company);
    put_disc(out, 14, livery.fill, "2");
    put_letter(out, if livery.is_dark { "z zw" } else { "z" }, 6, company);
    out.end();
    begin_sign(out, "m", company);
    put_disc(out, 8, livery.fill, "1");
    put_letter(out, if livery.is_dark { "zm zw" } else { "zm" }, 4, company);
    out.end();
    put_ring(out, company);
}

/// Adds the ring that marks a slot as reserved for a company.
fn put_ring(out: &mut Writer, company: Company) {
    begin_sign(out, "r", company);
    out.begin(Tag::Circle);
    out.value(Attr::R, &[At(11)]);
    out.value(Attr::Fill, &[Words("none")]);
    out.line_colour(company);
    out.value(Attr::StrokeWidth, &[At(3)]);
    out.value(Attr::Dash, &[Words("4 3")]);
    out.end();
    put_letter(out, "zr", 5, company);
    out.end();
}

/// Begins a sign of a company, named by a letter and the company.
fn begin_sign(out: &mut Writer, name: &'static str, company: Company) {
    out.begin(Tag::Group);
    out.value(Attr::Id, &[Words(name), Words(company.letter())]);
}

/// Adds a disc with a black rim.
fn put_disc(out: &mut Writer, radius: i32, fill: &'static str, rim: &'static str) {
    out.begin(Tag::Circle);
    out.value(Attr::R, &[At(radius)]);
    out.value(Attr::Fill, &[Words(fill)]);
    out.value(Attr::Stroke, &[Words("#000")]);
    out.value(Attr::StrokeWidth, &[Words(rim)]);
    out.end();
}

/// Adds the letter of a company this far below the centre of a sign.
fn put_letter(out: &mut Writer, class: &'static str, y: i32, company: Company) {
    out.begin_as(Tag::Text, class);
    out.value(Attr::Y, &[At(y)]);
    out.within();
    out.put(&[Words(company.letter())]);
    out.end();
}
