//! The track and the stops of a hex, drawn round its centre.

use crate::curve::{Curve, Way, track_of};
use crate::look::{Look, Stops};
use crate::strands::strands;
use map_tables::{ENDS, Link, StopNumber};
use markup::PagePiece::{At, Count, Point as To, Words};
use markup::{Attr, Point, Tag, Writer};
use tables::Company;

/// The content of a slot of a city.
#[derive(Clone, Copy)]
pub enum Marker {
    /// Nothing.
    Free,
    /// A token.
    Token(Company),
    /// A token that was placed in the last round.
    NewToken(Company),
    /// Nothing yet: the slot is reserved for this company's home token.
    Kept(Company),
}

/// Draws the track of a hex, strand over strand, each black on white.
pub fn draw_track(out: &mut Writer, look: &Look) {
    let track = track_of(look, look.places());
    let strands = strands(look.links.as_slice());
    for strand in 0..ENDS {
        if has_strand(look.links.as_slice(), &strands, strand) {
            draw_strand(
                out,
                look.links.as_slice(),
                track.as_slice(),
                &strands,
                strand,
                "u",
            );
            draw_strand(
                out,
                look.links.as_slice(),
                track.as_slice(),
                &strands,
                strand,
                "t",
            );
        }
    }
}

/// Returns whether some link is in a strand.
fn has_strand(links: &[Link], strands: &[usize; ENDS], strand: usize) -> bool {
    for link in links {
        if strands[link.a.order()] == strand {
            return true;
        }
    }
    false
}

/// Draws the links of a strand as one path with a class, given the curves of all links.
fn draw_strand(
    out: &mut Writer,
    links: &[Link],
    track: &[Curve],
    strands: &[usize; ENDS],
    strand: usize,
    class: &'static str,
) {
    out.begin_as(Tag::Path, class);
    out.attr(Attr::D);
    for (link, curve) in links.iter().zip(track) {
        if strands[link.a.order()] == strand {
            out.put(&[Words("M"), To(curve.from)]);
            put_way(out, curve.way, curve.to);
        }
    }
    out.end();
}

/// Adds how a path goes on from where it is to a point.
pub fn put_way(out: &mut Writer, way: Way, to: Point) {
    match way {
        Way::Line => out.put(&[Words("L"), To(to)]),
        Way::Towards(by) => out.put(&[Words("Q"), To(by), Words(gap(to)), To(to)]),
        Way::Between(first, second) => out.put(&[
            Words("C"),
            To(first),
            Words(gap(second)),
            To(second),
            Words(gap(to)),
            To(to),
        ]),
        Way::Arc { radius, clockwise } => out.put(&[
            Words("A"),
            At(radius),
            Words(" "),
            At(radius),
            Words(if clockwise { " 0 0 1" } else { " 0 0 0" }),
            Words(gap(to)),
            To(to),
        ]),
    }
}

/// Returns what separates a number from a point after it: a space, or nothing before a minus.
fn gap(point: Point) -> &'static str {
    if point.x < 0 { "" } else { " " }
}

/// Draws the stops of a hex with the contents of their slots, and with their numbers if there are
/// two.
pub fn draw_stops(out: &mut Writer, look: &Look, markers: &[[Marker; 2]; 2]) {
    if look.count > 0 {
        draw_stop(out, look, StopNumber::First, &markers[0]);
    }
    if look.count > 1 {
        draw_stop(out, look, StopNumber::Second, &markers[1]);
    }
}

/// Draws a stop of a hex.
fn draw_stop(out: &mut Writer, look: &Look, stop: StopNumber, markers: &[Marker; 2]) {
    match look.stops {
        Stops::Area => {}
        Stops::Towns => draw_town(out, look, stop),
        Stops::Cities => draw_city(out, look, stop, markers),
    }
}

/// Draws a town.
fn draw_town(out: &mut Writer, look: &Look, stop: StopNumber) {
    let place = look.place(stop);
    out.sign("#v", place);
    if look.count > 1 {
        out.label("n", place.down(4), &[Count(stop.index())]);
    }
}

/// Draws a city with the contents of its slots.
fn draw_city(out: &mut Writer, look: &Look, stop: StopNumber, markers: &[Marker; 2]) {
    let (first, second) = look.slot_places(stop);
    if look.slots > 1 {
        let bar = [Words("M"), To(first), Words("L"), To(second)];
        out.path("k", &bar);
        out.path("l", &bar);
    }
    draw_slot(out, first, markers[0]);
    if look.slots > 1 {
        draw_slot(out, second, markers[1]);
    }
    if look.count > 1 {
        let place = look.number_place(stop);
        out.sign("#q", place);
        out.label("n", place.down(4), &[Count(stop.index())]);
    }
}

/// Draws a slot with its content.
fn draw_slot(out: &mut Writer, place: Point, marker: Marker) {
    out.sign("#s", place);
    match marker {
        Marker::Free => {}
        Marker::Token(company) => out.token("#t", company, place),
        Marker::NewToken(company) => {
            out.token("#t", company, place);
            out.sign("#nt", place);
        }
        Marker::Kept(company) => out.token("#r", company, place),
    }
}
