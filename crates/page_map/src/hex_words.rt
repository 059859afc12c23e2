//! A hex in words.
ghost use Rattle.std.specs.Prelude.{◌≡◌, ◌++◌, ◌&&◌, is_some};
ghost use Rattle.markup.specs.Written.{closing_of};
ghost use Rattle.markup.specs.declared.writer.WriterPlace.TheVariants.{Between};
ghost use Rattle.page_map.specs.ClosedWords.{has_closed_side, side_named, side_word, with_closed_sides};
ghost use Rattle.page_map.specs.News.{in_last_round, is_lay_on};

use crate::news::laid_in_last_round;
use crate::scene::Scene;
use crate::tokens::{is_kept, private_in, tokens_at};
use history::Holder;
use map_tables::{
    Hex, HexKind, Link, Side, Stop, StopNumber, TileKind, TrackEnd, hex_kind, printed_value,
    terrain_cost, tile,
};
use markup::PagePiece::{Count, Hex as Named, Number, Place, Words};
use markup::{Attr, Tag, Writer, begin_section};
use picture::{Look, Shade, Stops, city_name, is_closed_side};
use tables::{Company, Money, Private};

/// Adds what shows in a hex, in words.
pub fn put_words(out: &mut Writer, scene: &Scene, look: &Look) {
    put_sight(out, scene, look);
    if is_new(scene, look) {
        out.put(&[Words("; laid in the last round")]);
    }
}

/// Adds what shows in a hex, in words, apart from whether its tile is new.
pub fn put_sight(out: &mut Writer, scene: &Scene, look: &Look) {
    out.put(&[Named(look.hex), Words(": ")]);
    if let Some(name) = city_name(look.hex) {
        out.put(&[Words(name), Words("; ")]);
    }
    match look.stops {
        Stops::Area => put_area(out, look),
        Stops::Towns | Stops::Cities => {
            put_ground(out, look);
            put_kind(out, look);
            put_links(out, look);
            put_stops(out, scene, look);
            put_terrain(out, scene, look);
        }
    }
    put_closed(out, look.hex);
}

/// Returns whether the tile that shows in a hex was laid in the last round.
pub(crate) fn is_new(scene: &Scene, look: &Look) -> bool
    ensures { result ≡ (is_some look.now.lay
        && in_last_round (is_lay_on look.now.hex) scene.now.history.now.events) }
{
    look.lay.is_some() && laid_in_last_round(scene.history.events(), look.hex)
}

/// Adds the sides of a hex whose borders are closed, if there are any.
fn put_closed(out: &mut Writer, hex: Hex)
    ensures { out.new.fault ≡ None → out.new.text.items
        ≡ with_closed_sides (out.old.text.items ++ closing_of out.old.spot) hex }
{
    out.within();
    if has_closed_side(hex) {
        out.words("; closed border at side");
        put_closed_side(out, hex, Side::SouthWest);
        put_closed_side(out, hex, Side::West);
        put_closed_side(out, hex, Side::NorthWest);
        put_closed_side(out, hex, Side::NorthEast);
        put_closed_side(out, hex, Side::East);
        put_closed_side(out, hex, Side::SouthEast);
    }
}

/// Returns whether some border of a hex to another hex is closed.
fn has_closed_side(hex: Hex) -> bool
    ensures { result ≡ has_closed_side hex }
{
    is_closed_side(hex, Side::SouthWest)
        || is_closed_side(hex, Side::West)
        || is_closed_side(hex, Side::NorthWest)
        || is_closed_side(hex, Side::NorthEast)
        || is_closed_side(hex, Side::East)
        || is_closed_side(hex, Side::SouthEast)
}

/// Adds a space and the number of a side, if its border is closed.
fn put_closed_side(out: &mut Writer, hex: Hex, side: Side)
    requires { out.old.spot ≡ Between }
    ensures spot { out.new.spot ≡ Between }
    ensures before { out.new.fault ≡ None → out.old.fault ≡ None }
    ensures added { out.new.fault ≡ None →
        out.new.text.items ≡ out.old.text.items ++ side_named hex side }
{
    if is_closed_side(hex, side) {
        out.words(side_word(side));
    }
}

/// Returns a space and the number of a side.
fn side_word(side: Side) -> &'static str
    ensures { result.now ≡ side_word side }
{
    match side {
        Side::SouthWest => " 0",
        Side::West => " 1",
        Side::NorthWest => " 2",
        Side::NorthEast => " 3",
        Side::East => " 4",
        Side::SouthEast => " 5",
    }
}

/// Adds a red area: what it is worth, and its sides.
fn put_area(out: &mut Writer, look: &Look) {
    let value = printed_value(look.hex);
    out.put(&[
        Words("red area, worth "),
        Number(Money::from(value.before_phase_five)),
        Words(", from phase 5 on "),
        Number(Money::from(value.from_phase_five)),
        Words(";"),
    ]);
    put_sides(out, look, StopNumber::First);
}

/// Adds the ground of a hex, and the tile that lies there.
fn put_ground(out: &mut Writer, look: &Look) {
    out.put(&[Words(shade_word(look.shade))]);
    match look.lay {
        None => out.put(&[Words(", printed")]),
        Some(lay) => out.put(&[
            Words(", tile "),
            Number(Money::from(lay.tile.number())),
            Words(", rotation "),
            Count(lay.rot.turns()),
            Words(if lay.swap { ", swapped" } else { "" }),
        ]),
    }
}

/// Returns the word for a ground.
fn shade_word(shade: Shade) -> &'static str {
    match shade {
        Shade::White => "white",
        Shade::Yellow => "yellow",
        Shade::Green => "green",
        Shade::Brown => "brown",
        Shade::Grey => "grey",
        Shade::Red => "red",
    }
}

/// Returns the letters of the kind of tiles that a hex takes, if the kind has letters.
pub(crate) fn kind_letters(look: &Look) -> Option<&'static str> {
    let kind = match (look.lay, hex_kind(look.hex)) {
        (Some(lay), _) => tile(lay.tile).kind,
        (None, HexKind::Open(kind)) => kind,
        (None, HexKind::Grey | HexKind::Red) => return None,
    };
    match kind {
        TileKind::CityB => Some("B"),
        TileKind::CitiesNY => Some("NY"),
        TileKind::CitiesOO => Some("OO"),
        TileKind::Plain | TileKind::Town | TileKind::TwoTowns | TileKind::City => None,
    }
}

/// Adds the kind of tiles that a hex takes.
fn put_kind(out: &mut Writer, look: &Look) {
    if let Some(letters) = kind_letters(look) {
        out.put(&[Words("; kind "), Words(letters)]);
    }
}

/// Adds the track that leads from side to side.
fn put_links(out: &mut Writer, look: &Look) {
    let mut before = "; track ";
    for link in look.links.as_slice() {
        if let Link {
            a: TrackEnd::Side(from),
            b: TrackEnd::Side(to),
            ..
        } = link
        {
            let (from, to) = (Count(from.number()), Count(to.number()));
            out.put(&[Words(before), from, Words("-"), to]);
            before = " ";
        }
    }
}

/// Adds the stops, each with what it is worth, its sides, its slots and its tokens.
fn put_stops(out: &mut Writer, scene: &Scene, look: &Look) {
    if look.count > 0 {
        put_stop(out, scene, look, StopNumber::First);
    }
    if look.count > 1 {
        put_stop(out, scene, look, StopNumber::Second);
    }
}

/// Adds a stop.
fn put_stop(out: &mut Writer, scene: &Scene, look: &Look, number: StopNumber) {
    let stop = Stop {
        hex: look.hex,
        number,
    };
    let (word, is_city) = match look.stops {
        Stops::Cities => ("; city ", true),
        Stops::Towns | Stops::Area => ("; town ", false),
    };
    out.put(&[Words(word), Place(stop.place())]);
    if look.value > 0 {
        out.put(&[Words(" worth "), Number(Money::from(look.value))]);
    }
    put_sides(out, look, number);
    if is_city {
        out.put(&[Words(", slots "), Number(Money::from(look.slots))]);
        put_tokens(out, scene, stop);
    }
}

/// Adds the sides to which a stop has track.
fn put_sides(out: &mut Writer, look: &Look, stop: StopNumber) {
    let mut before = " sides ";
    for link in look.links.as_slice() {
        if let (TrackEnd::Side(side), TrackEnd::Stop(its)) = (link.a, link.b) {
            if its.index() == stop.index() {
                out.put(&[Words(before), Count(side.number())]);
                before = " ";
            }
        }
    }
}

/// Adds the tokens of a city, and the companies for which a slot is reserved.
fn put_tokens(out: &mut Writer, scene: &Scene, stop: Stop) {
    let mut before = ": ";
    for company in tokens_at(scene.history, stop).as_slice() {
        out.put(&[Words(before), Words(company.code())]);
        before = " ";
    }
    for &company in &Company::ALL {
        if is_kept(scene.history, stop, company) {
            out.put(&[Words(", one kept for "), Words(company.code())]);
        }
    }
}

/// Adds the cost of the terrain if no tile lies there, and the private of the hex.
fn put_terrain(out: &mut Writer, scene: &Scene, look: &Look) {
    let cost = terrain_cost(look.hex);
    if look.lay.is_none() && cost > 0 {
        out.put(&[Words("; costs "), Number(Money::from(cost))]);
    }
    for &private in &Private::ALL {
        if private_in(private, look.hex) {
            put_private(out, scene, private);
        }
    }
}

/// Adds a private of the hex, if a player owns it or it is unsold.
fn put_private(out: &mut Writer, scene: &Scene, private: Private) {
    let view = scene.history.now();
    match view.owner(private) {
        Some(Holder::Seat(seat)) => out.put(&[
            Words("; barred by "),
            Words(private.code()),
            Words(" of "),
            markup::PagePiece::Name(scene.name(seat)),
        ]),
        Some(Holder::Company(_)) => {}
        None if !view.is_sold(private) => {
            out.put(&[
                Words("; private "),
                Words(private.code()),
                Words(" not sold yet"),
            ])
        }
        None => {}
    }
}

/// Adds each hex in words, as a list that the hexes of the map link to.
pub fn put_hexes(out: &mut Writer, scene: &Scene) {
    begin_hexes(out);
    for &hex in &Hex::ALL {
        begin_hex(out, hex);
        put_words(out, scene, &Look::on(scene.history.lays(), hex));
        out.end();
    }
    out.end();
    out.end();
}

/// Begins the list of the hexes in words.
pub fn begin_hexes(out: &mut Writer) {
    begin_section(out, "hexes", "Hexes in words", "");
    out.begin_as(Tag::Listing, "hexes");
    out.within();
}

/// Begins a hex of the list.
pub fn begin_hex(out: &mut Writer, hex: Hex) {
    out.put(&[Words("\n")]);
    out.begin(Tag::Item);
    out.value(Attr::Id, &[Words("hex-"), Named(hex)]);
    out.within();
}
