//! A network of four stops, which is not a board.
ghost use Rattle.std.specs.Prelude.{◌≡◌, false, true};
ghost use Rattle.test_umpire.specs.FourStops.{at_stop_of, four_stops, on_map_in, spoke, standing_in};
ghost use Rattle.map_tables.specs.declared.place.StopNumber.TheVariants.{First};
ghost use Rattle.reach.specs.Position.{at_stop};

use arrayvec::ArrayVec;
use map_tables::{Hex, Link, Links, Side, Stop, StopNumber, TrackEnd, joined_stop};
use reach::Network;
use tables::{Amount, Company};

/// Two cities of PRR, H10 and H12, a city that NYC fills, G11, and a red area, G13. Track joins
/// each two neighbours, and in H12 a piece of plain track goes past the city.
pub struct FourStops;

/// What is at a stop.
#[derive(Clone, Copy)]
struct Standing {
    value: Amount,
    red: bool,
    slots: usize,
    /// The company whose token lies there.
    token: Option<Company>,
}

/// What is where there is no stop.
const NOTHING: Standing = Standing {
    value: 0,
    red: false,
    slots: 0,
    token: None,
};

/// Returns a city with a token.
fn city(value: Amount, slots: usize, company: Company) -> Standing
    ensures { result ≡ record { value = value; red = false; slots = slots; token = Some company } }
{
    Standing {
        value,
        red: false,
        slots,
        token: Some(company),
    }
}

/// Returns a red area.
fn red_area(value: Amount) -> Standing
    ensures { result ≡ record { value = value; red = true; slots = 0; token = None } }
{
    Standing {
        value,
        red: true,
        slots: 0,
        token: None,
    }
}

/// Returns what is at the stop of a hex.
fn stop_of(hex: Hex) -> Standing
    ensures { at_stop_of result ≡ standing_in hex First }
{
    match hex {
        Hex::G11 => city(40, 1, Company::NewYorkCentral),
        Hex::G13 => red_area(50),
        Hex::H10 => city(20, 1, Company::Pennsylvania),
        Hex::H12 => city(30, 2, Company::Pennsylvania),
        Hex::J2 | Hex::A11 => red_area(0),
        _ => NOTHING,
    }
}

/// Returns what is at a stop.
fn standing_at(stop: Stop) -> Standing
    ensures { at_stop_of result ≡ at_stop four_stops stop }
{
    let stop = joined_stop(stop);
    match stop.number {
        StopNumber::First => stop_of(stop.hex),
        StopNumber::Second => NOTHING,
    }
}

/// Returns the track from a side of a hex to its stop.
fn spoke(hex: Hex, side: Side) -> Link
    ensures { result ≡ spoke hex side }
{
    Link {
        hex,
        a: TrackEnd::Side(side),
        b: TrackEnd::Stop(StopNumber::First),
    }
}

/// Returns the links of a hex.
fn links_in(hex: Hex) -> Links
    ensures { result.items ≡ (on_map_in hex).links }
{
    let mut links = ArrayVec::new();
    match hex {
        Hex::G11 => {
            links.push(spoke(hex, Side::SouthWest));
            links.push(spoke(hex, Side::East));
            links.push(spoke(hex, Side::SouthEast));
        }
        Hex::G13 => {
            links.push(spoke(hex, Side::SouthWest));
            links.push(spoke(hex, Side::West));
        }
        Hex::H10 => {
            links.push(spoke(hex, Side::NorthEast));
            links.push(spoke(hex, Side::East));
        }
        Hex::H12 => {
            links.push(Link {
                hex,
                a: TrackEnd::Side(Side::West),
                b: TrackEnd::Side(Side::NorthWest),
            });
            links.push(spoke(hex, Side::West));
            links.push(spoke(hex, Side::NorthWest));
            links.push(spoke(hex, Side::NorthEast));
        }
        _ => {}
    }
    links
}

impl Network for FourStops {
    ghost position = { λ network. four_stops };

    fn links(&self, hex: Hex) -> Links {
        links_in(hex)
    }

    fn value(&self, stop: Stop) -> Amount {
        standing_at(stop).value
    }

    fn red(&self, stop: Stop) -> bool {
        standing_at(stop).red
    }

    fn full(&self, stop: Stop, company: Company) -> bool {
        let standing = standing_at(stop);
        let taken = if standing.token.is_some() { 1 } else { 0 };
        0 < standing.slots && standing.slots <= taken && !self.token(stop, company)
    }

    fn token(&self, stop: Stop, company: Company) -> bool {
        match standing_at(stop).token {
            Some(owner) => owner == company,
            None => false,
        }
    }

    fn keeps_laws(&self) {
        map_tables::laws::neighbours_pair();
    }
}
