//! The names of cities, towns and areas, as the printed map has them.

use map_tables::Hex;

/// Returns the name that the printed map has for a hex; `None` if it has none.
pub fn city_name(hex: Hex) -> Option<&'static str> {
    Some(match hex {
        Hex::A9 | Hex::A11 => "Canadian West",
        Hex::A19 => "Montreal",
        Hex::B10 => "Barrie",
        Hex::B16 => "Ottawa",
        Hex::B20 => "Burlington",
        Hex::B24 => "Maritime Provinces",
        Hex::C15 => "Kingston",
        Hex::D2 => "Lansing",
        Hex::D4 => "Flint",
        Hex::D10 => "Hamilton &amp; Toronto",
        Hex::D14 => "Rochester",
        Hex::E5 => "Detroit &amp; Windsor",
        Hex::E7 => "London",
        Hex::E11 => "Dunkirk &amp; Buffalo",
        Hex::E19 => "Albany",
        Hex::E23 => "Boston",
        Hex::F2 => "Chicago",
        Hex::F4 => "Toledo",
        Hex::F6 => "Cleveland",
        Hex::F10 => "Erie",
        Hex::F16 => "Scranton",
        Hex::F20 => "New Haven &amp; Hartford",
        Hex::F22 => "Providence",
        Hex::F24 => "Mansfield",
        Hex::G7 => "Akron &amp; Canton",
        Hex::G17 => "Reading &amp; Allentown",
        Hex::G19 => "New York &amp; Newark",
        Hex::H4 => "Columbus",
        Hex::H10 => "Pittsburgh",
        Hex::H12 => "Altoona",
        Hex::H16 => "Lancaster",
        Hex::H18 => "Philadelphia &amp; Trenton",
        Hex::I1 | Hex::J2 => "Gulf",
        Hex::I15 => "Baltimore",
        Hex::I19 => "Atlantic City",
        Hex::J14 => "Washington",
        Hex::K13 => "Deep South",
        Hex::K15 => "Richmond",
        _ => return None,
    })
}
