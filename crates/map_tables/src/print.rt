//! What is printed on each hex of the map: the tiles that it takes, what its terrain costs, its
//! colour, its stops and its track.
ghost use Rattle.std.specs.Prelude.{◌≡◌};
ghost use Rattle.map_tables.specs.Print.{print_of, printed_links_of};
ghost use Rattle.map_tables.specs.PrintedHex.{print_seen};

use crate::hex::Hex;
use crate::segments::{E_0, NE_0, NW_0, NW_NE, SE_0, SW_0, SW_1, SW_SE, SW_W, W_0, W_E};
use crate::tiles::{Colour, TileKind};
use crate::track::{Links, TrackSegment, links_in};
use tables::Amount;

/// What tiles a hex takes.
#[derive(Clone, Copy, Debug, PartialEq, Eq)]
pub enum HexKind {
    /// Tiles of this kind may be laid on it.
    Open(TileKind),
    /// Grey: no tile is ever laid on it.
    Grey,
    /// Red, at the edge of the map: no tile is ever laid on it.
    Red,
}

/// What a printed stop is worth, in dollars. The two values differ only at red stops.
#[derive(Clone, Copy, Debug, PartialEq, Eq)]
pub struct PrintedValue {
    pub before_phase_five: Amount,
    pub from_phase_five: Amount,
}

/// Returns what tiles a hex takes.
pub fn hex_kind(hex: Hex) -> HexKind
    ensures { result ≡ (print_of hex).kind }
{
    print(hex).kind
}

/// Returns the cost of the terrain of a hex, in dollars, paid with its first tile.
pub fn terrain_cost(hex: Hex) -> Amount
    ensures { result ≡ (print_of hex).cost }
{
    print(hex).cost
}

/// Returns the colour of a hex on which no tile lies. Grey and red hexes, on which none ever lies,
/// are white.
pub fn printed_colour(hex: Hex) -> Colour
    ensures { result ≡ (print_of hex).colour }
{
    print(hex).colour
}

/// Returns how many stops a hex has, from 0 to 2. Tiles do not change that.
pub fn printed_stops(hex: Hex) -> usize
    ensures { result ≡ (print_of hex).stops }
{
    print(hex).stops
}

/// Returns how many tokens each stop of a hex takes until a tile is laid there.
pub fn printed_slots(hex: Hex) -> u8
    ensures { result ≡ (print_of hex).slots }
{
    print(hex).slots
}

/// Returns what each stop of a hex is worth until a tile is laid there.
pub fn printed_value(hex: Hex) -> PrintedValue
    ensures { result ≡ (print_of hex).value }
{
    print(hex).value
}

/// Returns the links that are printed on a hex, in order.
#[tactic(auto, unfolding(crate::specs::Print::printed_links_of))]
pub fn printed_links(hex: Hex) -> Links
    ensures { result.items ≡ printed_links_of hex }
{
    links_in(hex, print(hex).track)
}

/// What is printed on a hex.
#[derive(Clone, Copy)]
struct PrintedHex {
    kind: HexKind,
    cost: Amount,
    colour: Colour,
    stops: usize,
    slots: u8,
    value: PrintedValue,
    track: &'static [TrackSegment],
}

/// A red area, whose one stop takes no token: what the stop is worth before phase 5 and from then
/// on, and the track.
macro_rules! red {
    ($before:expr, $from:expr, $track:expr) => {
        &PrintedHex {
            kind: HexKind::Red,
            cost: 0,
            colour: Colour::White,
            stops: 1,
            slots: 0,
            value: PrintedValue {
                before_phase_five: $before,
                from_phase_five: $from,
            },
            track: &$track,
        }
    };
}

/// A grey hex: how many stops it has, how many tokens each takes and what it is worth, and the
/// track.
macro_rules! grey {
    ($stops:expr, $slots:expr, $value:expr, $track:expr) => {
        &PrintedHex {
            kind: HexKind::Grey,
            cost: 0,
            colour: Colour::White,
            stops: $stops,
            slots: $slots,
            value: PrintedValue {
                before_phase_five: $value,
                from_phase_five: $value,
            },
            track: &$track,
        }
    };
}

/// A hex whose print is a yellow tile with cities, each of which takes one token. It has the tiles
/// that it takes, how many cities it has, its cost, what each is worth, and the track.
macro_rules! yellow {
    ($kind:expr, $stops:expr, $cost:expr, $value:expr, $track:expr) => {
        &PrintedHex {
            kind: HexKind::Open($kind),
            cost: $cost,
            colour: Colour::Yellow,
            stops: $stops,
            slots: 1,
            value: PrintedValue {
                before_phase_five: $value,
                from_phase_five: $value,
            },
            track: &$track,
        }
    };
}

/// A hex without track, whose stops are worth nothing until a tile is laid there. It has the tiles
/// that it takes, how many stops it has and how many tokens each takes, and its cost.
macro_rules! white {
    ($kind:expr, $stops:expr, $slots:expr, $cost:expr) => {
        &PrintedHex {
            kind: HexKind::Open($kind),
            cost: $cost,
            colour: Colour::White,
            stops: $stops,
            slots: $slots,
            value: PrintedValue {
                before_phase_five: 0,
                from_phase_five: 0,
            },
            track: &[],
        }
    };
}

/// Returns the printed hex.
fn print(hex: Hex) -> &'static PrintedHex
    ensures { print_seen result.now ≡ print_of hex }
{
    match hex {
        // Red areas.
        Hex::F2 => red!(40, 70, [NE_0, E_0, SE_0]),
        Hex::J2 => red!(30, 60, [NE_0, E_0]),
        Hex::I1 => red!(30, 60, [E_0]),
        Hex::A11 => red!(30, 50, [SW_0, SE_0]),
        Hex::A9 => red!(30, 50, [SE_0]),
        Hex::K13 => red!(30, 40, [NW_0, NE_0]),
        Hex::B24 => red!(20, 30, [SW_0, W_0]),
        // Grey.
        Hex::D2 => grey!(1, 1, 20, [E_0, SE_0]),
        Hex::F6 => grey!(1, 1, 30, [SW_0, SE_0]),
        Hex::E9 => grey!(0, 0, 0, [NW_NE]),
        Hex::H12 => grey!(1, 1, 10, [W_E, W_0, E_0]),
        Hex::D14 => grey!(1, 1, 20, [SW_0, W_0, E_0]),
        Hex::C15 => grey!(1, 0, 10, [W_0, NE_0]),
        Hex::K15 => grey!(1, 1, 20, [NW_0]),
        Hex::A17 => grey!(0, 0, 0, [SW_SE]),
        Hex::A19 => grey!(1, 1, 40, [SW_0, SE_0]),
        Hex::I19 | Hex::F24 => grey!(1, 0, 10, [W_0, NW_0]),
        Hex::D24 => grey!(0, 0, 0, [SW_W]),
        // Yellow print.
        Hex::I15 => yellow!(TileKind::CityB, 1, 0, 30, [SW_0, E_0]),
        Hex::E23 => yellow!(TileKind::CityB, 1, 0, 30, [NE_0, SE_0]),
        Hex::G19 => yellow!(TileKind::CitiesNY, 2, 80, 40, [SW_1, NE_0]),
        Hex::E5 | Hex::D10 => yellow!(TileKind::CitiesOO, 2, 80, 0, []),
        Hex::E11 | Hex::H18 => yellow!(TileKind::CitiesOO, 2, 0, 0, []),
        // White, without track.
        Hex::E19 | Hex::H4 | Hex::B10 | Hex::H10 | Hex::H16 | Hex::B16 => white!(
            TileKind::City,
            1,
            1,
            0
        ),
        Hex::F4 | Hex::J14 | Hex::F22 => white!(TileKind::City, 1, 1, 80),
        Hex::F16 => white!(TileKind::City, 1, 1, 120),
        Hex::E7 | Hex::B20 | Hex::D4 | Hex::F10 => white!(TileKind::Town, 1, 0, 0),
        Hex::G7 | Hex::G17 | Hex::F20 => white!(TileKind::TwoTowns, 2, 0, 0),
        Hex::I13
        | Hex::D18
        | Hex::B12
        | Hex::B14
        | Hex::B22
        | Hex::C7
        | Hex::C9
        | Hex::C11
        | Hex::C13
        | Hex::C23
        | Hex::D8
        | Hex::D12
        | Hex::D16
        | Hex::D20
        | Hex::E3
        | Hex::E13
        | Hex::E15
        | Hex::F8
        | Hex::F12
        | Hex::F14
        | Hex::F18
        | Hex::G3
        | Hex::G5
        | Hex::G9
        | Hex::G11
        | Hex::H2
        | Hex::H6
        | Hex::H8
        | Hex::H14
        | Hex::I3
        | Hex::I5
        | Hex::I7
        | Hex::I9
        | Hex::J4
        | Hex::J6
        | Hex::J8 => white!(TileKind::Plain, 0, 0, 0),
        Hex::G15
        | Hex::C17
        | Hex::C21
        | Hex::D22
        | Hex::E17
        | Hex::E21
        | Hex::G13
        | Hex::I11
        | Hex::J10
        | Hex::J12 => white!(TileKind::Plain, 0, 0, 120),
        Hex::D6 | Hex::I17 | Hex::B18 | Hex::C19 => white!(TileKind::Plain, 0, 0, 80),
    }
}
