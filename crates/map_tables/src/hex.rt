//! The hexes of the map, each named by the letter of its row and the number of its column.
ghost use Rattle.std.specs.Prelude.{◌≡◌, ◌<◌, ◌≤◌};
ghost use Rattle.map_tables.specs.Guess.{first_at, guess_at};
ghost use Rattle.map_tables.specs.Hex.{column_of, hex_at, index_of, row_of, same_hex};

/// A hex of the map, named by the letter of its row and the number of its column. Hexes are ordered
/// by row, then by column.
#[derive(Clone, Copy, Debug, PartialEq, Eq)]
pub enum Hex {
    A9,
    A11,
    A17,
    A19,
    B10,
    B12,
    B14,
    B16,
    B18,
    B20,
    B22,
    B24,
    C7,
    C9,
    C11,
    C13,
    C15,
    C17,
    C19,
    C21,
    C23,
    D2,
    D4,
    D6,
    D8,
    D10,
    D12,
    D14,
    D16,
    D18,
    D20,
    D22,
    D24,
    E3,
    E5,
    E7,
    E9,
    E11,
    E13,
    E15,
    E17,
    E19,
    E21,
    E23,
    F2,
    F4,
    F6,
    F8,
    F10,
    F12,
    F14,
    F16,
    F18,
    F20,
    F22,
    F24,
    G3,
    G5,
    G7,
    G9,
    G11,
    G13,
    G15,
    G17,
    G19,
    H2,
    H4,
    H6,
    H8,
    H10,
    H12,
    H14,
    H16,
    H18,
    I1,
    I3,
    I5,
    I7,
    I9,
    I11,
    I13,
    I15,
    I17,
    I19,
    J2,
    J4,
    J6,
    J8,
    J10,
    J12,
    J14,
    K13,
    K15,
}

/// How many hexes the map has.
pub const HEXES: usize = 93;

/// The letters of the rows, hex by hex.
const ROWS: &[u8; HEXES] =
    b"AAAABBBBBBBBCCCCCCCCCDDDDDDDDDDDDEEEEEEEEEEEFFFFFFFFFFFFGGGGGGGGGHHHHHHHHHIIIIIIIIIIJJJJJJJKK";

/// The numbers of the columns, hex by hex.
const COLUMNS: [u8; HEXES] = [
    9, 11, 17, 19, 10, 12, 14, 16, 18, 20, 22, 24, 7, 9, 11, 13, 15, 17, 19, 21, 23, 2, 4, 6, 8,
    10, 12, 14, 16, 18, 20, 22, 24, 3, 5, 7, 9, 11, 13, 15, 17, 19, 21, 23, 2, 4, 6, 8, 10, 12, 14,
    16, 18, 20, 22, 24, 3, 5, 7, 9, 11, 13, 15, 17, 19, 2, 4, 6, 8, 10, 12, 14, 16, 18, 1, 3, 5, 7,
    9, 11, 13, 15, 17, 19, 2, 4, 6, 8, 10, 12, 14, 13, 15,
];

impl Hex {
    /// The hexes of the map, in order.
    pub const ALL: [Hex; HEXES] = [
        Hex::A9,
        Hex::A11,
        Hex::A17,
        Hex::A19,
        Hex::B10,
        Hex::B12,
        Hex::B14,
        Hex::B16,
        Hex::B18,
        Hex::B20,
        Hex::B22,
        Hex::B24,
        Hex::C7,
        Hex::C9,
        Hex::C11,
        Hex::C13,
        Hex::C15,
        Hex::C17,
        Hex::C19,
        Hex::C21,
        Hex::C23,
        Hex::D2,
        Hex::D4,
        Hex::D6,
        Hex::D8,
        Hex::D10,
        Hex::D12,
        Hex::D14,
        Hex::D16,
        Hex::D18,
        Hex::D20,
        Hex::D22,
        Hex::D24,
        Hex::E3,
        Hex::E5,
        Hex::E7,
        Hex::E9,
        Hex::E11,
        Hex::E13,
        Hex::E15,
        Hex::E17,
        Hex::E19,
        Hex::E21,
        Hex::E23,
        Hex::F2,
        Hex::F4,
        Hex::F6,
        Hex::F8,
        Hex::F10,
        Hex::F12,
        Hex::F14,
        Hex::F16,
        Hex::F18,
        Hex::F20,
        Hex::F22,
        Hex::F24,
        Hex::G3,
        Hex::G5,
        Hex::G7,
        Hex::G9,
        Hex::G11,
        Hex::G13,
        Hex::G15,
        Hex::G17,
        Hex::G19,
        Hex::H2,
        Hex::H4,
        Hex::H6,
        Hex::H8,
        Hex::H10,
        Hex::H12,
        Hex::H14,
        Hex::H16,
        Hex::H18,
        Hex::I1,
        Hex::I3,
        Hex::I5,
        Hex::I7,
        Hex::I9,
        Hex::I11,
        Hex::I13,
        Hex::I15,
        Hex::I17,
        Hex::I19,
        Hex::J2,
        Hex::J4,
        Hex::J6,
        Hex::J8,
        Hex::J10,
        Hex::J12,
        Hex::J14,
        Hex::K13,
        Hex::K15,
    ];

    /// Returns the place of the hex in the order of the hexes, from 0 up to 92.
    pub fn index(self) -> usize
        ensures value { result ≡ index_of self }
        ensures bound { result < 93 }
    {
        self as usize
    }

    /// Returns the hex at a place in the order of the hexes, from 0 up to 92.
    pub fn at_index(index: usize) -> Hex
        requires { index < 93 }
        ensures { index_of result ≡ index }
    {
        let all = &Hex::ALL;
        all[index]
    }

    /// Returns whether it is the same hex.
    pub(crate) fn is(self, other: Hex) -> bool
        ensures { result ≡ same_hex self other }
    {
        self.index() == other.index()
    }

    /// Returns the letter of the row, from `b'A'` in the north to `b'K'` in the south.
    pub fn row(self) -> u8
        ensures value { result ≡ row_of self }
        ensures least { 65 ≤ result }
        ensures most { result ≤ 75 }
    {
        ROWS[self.index()]
    }

    /// Returns the number of the column, from 1 in the west to 24 in the east. The next hex of a
    /// row is two columns farther.
    pub fn column(self) -> u8
        ensures value { result ≡ column_of self }
        ensures least { 1 ≤ result }
        ensures most { result ≤ 24 }
    {
        COLUMNS[self.index()]
    }

    /// Returns the hex in a row, by its letter in upper case, and a column; `None` if the map has
    /// none.
    pub fn at(row: u8, column: u8) -> Option<Hex>
        ensures { result ≡ hex_at row column }
    {
        let hex = guess(row, column)?;
        if hex.row() == row && hex.column() == column {
            Some(hex)
        } else {
            None
        }
    }
}

/// Returns the only hex that can be in this row and column; `None` if none can.
#[tactic(auto, unfolding(crate::specs::Hex::hexes))]
fn guess(row: u8, column: u8) -> Option<Hex>
    ensures { result ≡ guess_at row column }
{
    let first = first_of_row(row, column)?;
    let steps = column.saturating_sub(first.column()) / 2;
    let place = first.index() + usize::from(steps);
    let all = &Hex::ALL;
    if place < HEXES {
        Some(all[place])
    } else {
        None
    }
}

/// Returns the first hex of the part of a row that the column is in. Row A has a gap in the middle.
fn first_of_row(row: u8, column: u8) -> Option<Hex>
    ensures { result ≡ first_at row column }
{
    match row {
        b'A' if column < 17 => Some(Hex::A9),
        b'A' => Some(Hex::A17),
        b'B' => Some(Hex::B10),
        b'C' => Some(Hex::C7),
        b'D' => Some(Hex::D2),
        b'E' => Some(Hex::E3),
        b'F' => Some(Hex::F2),
        b'G' => Some(Hex::G3),
        b'H' => Some(Hex::H2),
        b'I' => Some(Hex::I1),
        b'J' => Some(Hex::J2),
        b'K' => Some(Hex::K13),
        _ => None,
    }
}
