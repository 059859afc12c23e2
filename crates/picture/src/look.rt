//! What shows in a hex: its links, its stops, and where each stop is.
ghost use Rattle.std.specs.Prelude.{◌≡◌, ◌<◌, true, None};
ghost use Rattle.map_tables.specs.Lay.{laid_links_of};
ghost use Rattle.map_tables.specs.OnMap.{links_on, tile_on};
ghost use Rattle.map_tables.specs.Print.{printed_links_of};
ghost use Rattle.picture.specs.Looks.{shade_of, stops_of, shade_on, stops_on, count_on, slots_on, value_on};
ghost use Rattle.picture.specs.Looks.{is_on_its_own, side_to};

use crate::bend::{Bend, bend_between};
use crate::point::{Ring, on_ring};
use board_state::tile_on;
use map_tables::{
    Colour, Hex, HexKind, Lay, Link, Links, Side, StopNumber, TileKind, TileNo, TrackEnd, hex_kind,
    laid_links, printed_colour, printed_links, printed_slots, printed_stops, printed_value, tile,
};
use markup::Point;
use tables::Amount;

/// The ground of a hex: the colour of its tile or of its print.
#[derive(Clone, Copy)]
pub enum Shade {
    White,
    Yellow,
    Green,
    Brown,
    Grey,
    Red,
}

/// What the stops of a hex are.
#[derive(Clone, Copy)]
pub enum Stops {
    Towns,
    Cities,
    /// A red area.
    Area,
}

/// What shows in a hex.
#[derive(Drop)]
pub struct Look {
    pub hex: Hex,
    /// The tile that lies there; `None` for its print.
    pub lay: Option<Lay>,
    pub links: Links,
    pub shade: Shade,
    pub stops: Stops,
    /// How many stops it has, from 0 to 2.
    pub count: usize,
    /// How many slots each of its stops has, from 0 to 2.
    pub slots: u8,
    /// What each of its stops is worth, in dollars; for a red area, before phase 5.
    pub value: Amount,
}

/// How far the two slots of a city are from its place.
const SLOT: Point = Point { x: 15, y: 0 };

/// The place of the city of H12, which has track past it.
const PAST: Point = Point { x: 0, y: -22 };

impl Look {
    /// Returns what shows in a hex, given the tiles laid so far: the last one there, or the print.
    pub fn on(lays: &[Lay], hex: Hex) -> Look
        ensures links { result.links.items ≡ links_on lays.now hex }
        ensures lay { result.lay ≡ tile_on lays.now hex }
        ensures shade { result.shade ≡ shade_on (tile_on lays.now hex) hex }
        ensures stops { result.stops ≡ stops_on (tile_on lays.now hex) hex }
        ensures count { result.count ≡ count_on (tile_on lays.now hex) hex }
        ensures slots { result.slots ≡ slots_on (tile_on lays.now hex) hex }
        ensures value { result.value ≡ value_on (tile_on lays.now hex) hex }
    {
        match tile_on(lays, hex) {
            Some(lay) => Look::laid(lay),
            None => Look::printed(hex),
        }
    }

    /// Returns what a tile shows on its hex.
    pub fn laid(lay: Lay) -> Look
        ensures hex { result.hex ≡ lay.hex }
        ensures links { result.links.items ≡ laid_links_of lay }
        ensures lay { result.lay ≡ Some lay }
        ensures shade { result.shade ≡ shade_on (Some lay) lay.hex }
        ensures stops { result.stops ≡ stops_on (Some lay) lay.hex }
        ensures count { result.count ≡ count_on (Some lay) lay.hex }
        ensures slots { result.slots ≡ slots_on (Some lay) lay.hex }
        ensures value { result.value ≡ value_on (Some lay) lay.hex }
    {
        let entry = tile(lay.tile);
        Look {
            hex: lay.hex,
            lay: Some(lay),
            links: laid_links(lay),
            shade: shade_of(entry.colour),
            stops: stops_of(entry.kind),
            count: entry.kind.stops(),
            slots: entry.slots,
            value: entry.value,
        }
    }

    /// Returns what is printed on a hex.
    pub fn printed(hex: Hex) -> Look
        ensures hex { result.hex ≡ hex }
        ensures links { result.links.items ≡ printed_links_of hex }
        ensures lay { result.lay ≡ None }
        ensures shade { result.shade ≡ shade_on None hex }
        ensures stops { result.stops ≡ stops_on None hex }
        ensures count { result.count ≡ count_on None hex }
        ensures slots { result.slots ≡ slots_on None hex }
        ensures value { result.value ≡ value_on None hex }
    {
        let (shade, stops) = match hex_kind(hex) {
            HexKind::Open(kind) => (shade_of(printed_colour(hex)), stops_of(kind)),
            HexKind::Grey if printed_slots(hex) > 0 => (Shade::Grey, Stops::Cities),
            HexKind::Grey => (Shade::Grey, Stops::Towns),
            HexKind::Red => (Shade::Red, Stops::Area),
        };
        Look {
            hex,
            lay: None,
            links: printed_links(hex),
            shade,
            stops,
            count: printed_stops(hex),
            slots: printed_slots(hex),
            value: printed_value(hex).before_phase_five,
        }
    }

    /// Returns the two sides to which a stop has track, or the first two if there are more.
    pub fn sides(&self, stop: StopNumber) -> (Option<Side>, Option<Side>) {
        let mut sides = (None, None);
        for link in self.links.as_slice() {
            if let Some(side) = side_to(link, stop) {
                sides = match sides {
                    (None, _) => (Some(side), None),
                    (Some(first), None) => (Some(first), Some(side)),
                    both => both,
                };
            }
        }
        sides
    }

    /// Returns how the way through a stop bends, if it has two sides and may lie off the centre;
    /// `None` otherwise.
    pub(crate) fn bend_at(&self, stop: StopNumber) -> Option<Bend>
        ensures { is_on_its_own self.now.stops self.now.count ≡ true → result ≡ None }
    {
        if self.is_on_its_own() {
            return None;
        }
        match self.sides(stop) {
            (Some(first), Some(second)) => Some(bend_between(first, second)),
            _ => None,
        }
    }

    /// Returns whether its stop is placed where the hex has room, whatever its sides: an area, or a
    /// single city.
    fn is_on_its_own(&self) -> bool
        ensures { result ≡ is_on_its_own self.now.stops self.now.count }
    {
        match self.stops {
            Stops::Area => true,
            Stops::Cities => self.count < 2,
            Stops::Towns => false,
        }
    }

    /// Returns the places of stop 0 and stop 1.
    pub fn places(&self) -> (Point, Point) {
        (
            self.place(StopNumber::First),
            self.place(StopNumber::Second),
        )
    }

    /// Returns the place of a stop.
    pub fn place(&self, stop: StopNumber) -> Point {
        if let Some(bend) = self.bend_at(stop) {
            return self.place_on(bend, self.leaning(stop));
        }
        if self.count < 2 {
            return if let Hex::H12 = self.hex {
                PAST
            } else {
                Point::CENTRE
            };
        }
        match (self.sides(stop).0, stop) {
            (Some(side), _) => on_ring(Ring::HalfWay, side),
            (None, StopNumber::First) => on_ring(Ring::HalfWay, Side::West),
            (None, StopNumber::Second) => on_ring(Ring::HalfWay, Side::East),
        }
    }

    /// Returns the place of a stop on the way from a side to another, which may lean to one of
    /// them.
    fn place_on(&self, bend: Bend, leaning: Option<Side>) -> Point {
        match (bend, leaning) {
            (Bend::Sharp(corner), _) => match self.stops {
                Stops::Towns => on_ring(Ring::Sharp, corner),
                Stops::Cities | Stops::Area => on_ring(Ring::SharpCity, corner),
            },
            (Bend::Straight, None) => Point::CENTRE,
            (Bend::Straight, Some(side)) => on_ring(Ring::HalfWay, side),
            (Bend::Gentle(past), None) => on_ring(Ring::Gentle, past),
            (Bend::Gentle(past), Some(side)) => {
                on_ring(Ring::HalfWay, side).plus(on_ring(Ring::Leaning, past))
            }
        }
    }

    /// Returns the side to which a stop leans, so that it is apart from the other; `None` for most
    /// tiles and for prints.
    fn leaning(&self, stop: StopNumber) -> Option<Side>
        ensures { self.now.lay ≡ None → result ≡ None }
    {
        let lay = self.lay?;
        let stop = if lay.swap { stop.other() } else { stop };
        let side = match (lay.tile, stop) {
            (TileNo::T55 | TileNo::T66 | TileNo::T68, StopNumber::First) => Side::NorthEast,
            (TileNo::T55 | TileNo::T68, StopNumber::Second) => Side::West,
            (TileNo::T56 | TileNo::T67 | TileNo::T69, StopNumber::First) => Side::SouthWest,
            (TileNo::T56, StopNumber::Second) => Side::NorthEast,
            (TileNo::T67 | TileNo::T69, StopNumber::Second) => Side::East,
            _ => return None,
        };
        Some(side.turned(lay.rot))
    }

    /// Returns the places of a city's two slots. A single slot is at the place of the city.
    pub fn slot_places(&self, stop: StopNumber) -> (Point, Point)
        ensures { self.now.slots < 2 → result.0 ≡ result.1 }
    {
        let place = self.place(stop);
        let offset = match self.bend_at(stop) {
            Some(Bend::Sharp(corner)) => on_ring(Ring::SharpSlot, corner),
            _ => SLOT,
        };
        if self.slots < 2 {
            (place, place)
        } else {
            (place.minus(offset), place.plus(offset))
        }
    }

    /// Returns where the number of a city is, in a hex of two: clear of track, tokens and labels.
    pub fn number_place(&self, stop: StopNumber) -> Point {
        match self.bend_at(stop) {
            Some(Bend::Sharp(corner)) if self.slots == 2 => on_ring(Ring::SharpNumber, corner),
            _ => self.place(stop).plus(CLOCK[self.number_hour(stop)]),
        }
    }

    /// Returns in which of the twelve directions the number of a city lies.
    fn number_hour(&self, stop: StopNumber) -> usize
        ensures { result < 12 }
    {
        let (hours, own, turns) = match self.lay {
            Some(lay) => (
                tile_hours(lay.tile),
                if lay.swap { stop.other() } else { stop },
                lay.rot.turns(),
            ),
            None => (printed_hours(self.hex), stop, 0),
        };
        let hour = match own {
            StopNumber::First => hours.0,
            StopNumber::Second => hours.1,
        };
        (usize::from(hour) + 2 * turns) % CLOCK.len()
    }
}

/// The points 17 from a city in twelve directions, from the right on clockwise.
const CLOCK: [Point; 12] = [
    Point { x: 17, y: 0 },
    Point { x: 15, y: 8 },
    Point { x: 8, y: 15 },
    Point { x: 0, y: 17 },
    Point { x: -8, y: 15 },
    Point { x: -15, y: 8 },
    Point { x: -17, y: 0 },
    Point { x: -15, y: -8 },
    Point { x: -8, y: -15 },
    Point { x: 0, y: -17 },
    Point { x: 8, y: -15 },
    Point { x: 15, y: -8 },
];

/// Returns in which of the twelve directions the numbers of stop 0 and stop 1 of a tile lie at
/// rotation 0. They are as far as possible from track, slots, value, kind, name and the sides of
/// the hex, in the worst of the six rotations.
fn tile_hours(tile: TileNo) -> (u8, u8) {
    match tile {
        TileNo::T54 => (11, 3),
        TileNo::T64 => (1, 4),
        TileNo::T65 | TileNo::T67 => (7, 4),
        TileNo::T66 => (7, 2),
        TileNo::T68 => (7, 9),
        _ => (10, 2),
    }
}

/// Returns the same of a printed hex.
fn printed_hours(hex: Hex) -> (u8, u8) {
    match hex {
        Hex::G19 => (4, 9),
        _ => (1, 5),
    }
}

/// Returns the side from which a link leads to a stop; `None` if it does not.
fn side_to(link: &Link, stop: StopNumber) -> Option<Side>
    ensures { result ≡ side_to link.now stop }
{
    match (link.a, link.b) {
        (TrackEnd::Side(side), TrackEnd::Stop(its)) if its.index() == stop.index() => Some(side),
        _ => None,
    }
}

/// Returns the ground of a colour.
fn shade_of(colour: Colour) -> Shade
    ensures { result ≡ shade_of colour }
{
    match colour {
        Colour::White => Shade::White,
        Colour::Yellow => Shade::Yellow,
        Colour::Green => Shade::Green,
        Colour::Brown => Shade::Brown,
    }
}

/// Returns what the stops of a hex of a kind are.
fn stops_of(kind: TileKind) -> Stops
    ensures { result ≡ stops_of kind }
{
    match kind {
        TileKind::Plain | TileKind::Town | TileKind::TwoTowns => Stops::Towns,
        TileKind::City | TileKind::CityB | TileKind::CitiesNY | TileKind::CitiesOO => Stops::Cities,
    }
}
