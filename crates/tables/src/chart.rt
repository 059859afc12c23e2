//! The chart of the stock market: the price and the zone of each square, and the squares of the par
//! values.
ghost use Rattle.std.specs.Prelude.{◌≡◌, IfSome, true};
ghost use Rattle.tables.specs.Chart.{entry_at, entry_in, is_on_chart, is_par, par_square_of, par_value_of, price_of};
ghost use Rattle.tables.specs.Chart.{row_at, square_at, zone_of};

use crate::seat::Amount;
use crate::squares::{Square, Zone};

/// How many rows the chart has.
pub const CHART_ROWS: u8 = 11;

/// The column after the last of the longest row of the chart; the first is 1.
pub const CHART_COLUMNS_END: u8 = 20;

/// The column of the chart in which the par values are marked.
const PAR_COLUMN: u8 = 7;

/// The least par value, in dollars.
pub const LEAST_PAR: Amount = 67;

/// Returns the square at a row from 0 (the printed A) and a column from 1; `None` if the chart has
/// none.
pub fn square(row: u8, column: u8) -> Option<Square>
    ensures { result ≡ square_at row column }
{
    let square = Square { row, column };
    entry_at(square).map(|_| square)
}

/// Returns the price of a square, in dollars; 0 off the chart.
pub fn price(square: Square) -> Amount
    ensures { result ≡ price_of square }
{
    entry_at(square).map_or(0, |entry| entry.price)
}

/// Returns the zone in which a square lies; `White` off the chart.
pub fn zone(square: Square) -> Zone
    ensures { result ≡ zone_of square }
{
    entry_at(square).map_or(Zone::White, |entry| entry.zone)
}

/// Returns whether a square is marked as that of a par value; no square off the chart is.
pub fn is_par(square: Square) -> bool
    ensures { result ≡ is_par (entry_at square.row square.column) }
{
    entry_at(square).is_some_and(|entry| entry.is_par)
}

/// Returns the par value that is marked in a row of the chart, in dollars; `None` if none is.
pub fn par_value(row: u8) -> Option<Amount>
    ensures { result ≡ par_value_of row }
{
    let entry = entry_in(row_at(row), PAR_COLUMN)?;
    entry.is_par.then_some(entry.price)
}

/// Returns the square of a par value; `None` if it is no par value.
pub fn par_square(par: Amount) -> Option<Square>
    ensures square { result ≡ par_square_of par }
    ensures price { IfSome result (λ square. price_of square ≡ par) }
    ensures on_chart { IfSome result (λ square. is_on_chart square ≡ true) }
{
    for row in 0..CHART_ROWS {
        if par_value(row) == Some(par) {
            return square(row, PAR_COLUMN);
        }
    }
    None
}

/// What the chart has on a square.
#[derive(Clone, Copy)]
struct Entry {
    price: Amount,
    zone: Zone,
    /// Whether it is marked as a par value.
    is_par: bool,
}

/// What a mark and a price on the chart stand for: `y`, `o` and `b` a zone, `p` a par value, `w`
/// none of these, and `x` no square.
macro_rules! entry {
    (w $price:literal) => { entry!($price, White, false) };
    (p $price:literal) => { entry!($price, White, true) };
    (y $price:literal) => { entry!($price, Yellow, false) };
    (o $price:literal) => { entry!($price, Orange, false) };
    (b $price:literal) => { entry!($price, Brown, false) };
    (x $price:literal) => { None };
    ($price:literal, $zone:ident, $is_par:literal) => {
        Some(Entry { price: $price, zone: Zone::$zone, is_par: $is_par })
    };
}

/// A row of the chart, from column 1.
macro_rules! row {
    ($($mark:ident $price:literal)*) => { &[$(entry!($mark $price)),*] };
}

/// Returns a row of the chart, by its number from 0 (the printed A) downwards; it is empty past the
/// eleventh.
fn row_at(row: u8) -> &'static [Option<Entry>]
    ensures { result.now ≡ row_at row }
{
    match row {
        0 => row!(y 60 w 67 w 71 w 76 w 82 w 90 p 100 w 112 w 126 w 142 w 160 w 180 w 200 w 225
            w 250 w 275 w 300 w 325 w 350),
        1 => row!(y 53 y 60 w 66 w 70 w 76 w 82 p 90 w 100 w 112 w 126 w 142 w 160 w 180 w 200
            w 220 w 240 w 260 w 280 w 300),
        2 => row!(y 46 y 55 y 60 w 65 w 70 w 76 p 82 w 90 w 100 w 111 w 125 w 140 w 155 w 170
            w 185 w 200),
        3 => row!(o 39 y 48 y 54 y 60 w 66 w 71 p 76 w 82 w 90 w 100 w 110 w 120 w 130),
        4 => row!(o 32 o 41 y 48 y 55 w 62 w 67 p 71 w 76 w 82 w 90 w 100),
        5 => row!(b 25 o 34 o 42 y 50 y 58 w 65 p 67 w 71 w 75 w 80),
        6 => row!(b 18 b 27 o 36 o 45 y 54 w 63 w 67 w 69 w 70),
        7 => row!(b 10 b 20 b 30 o 40 y 50 y 60 w 67 w 68),
        8 => row!(x 0 b 10 b 20 b 30 o 40 y 50 y 60),
        9 => row!(x 0 x 0 b 10 b 20 b 30 o 40 y 50),
        10 => row!(x 0 x 0 x 0 b 10 b 20 b 30 o 40),
        _ => &[],
    }
}

/// Returns what the chart has on a square; `None` off the chart.
fn entry_at(square: Square) -> Option<Entry>
    ensures { result ≡ entry_at square.row square.column }
{
    entry_in(row_at(square.row), square.column)
}

/// Returns what a row has in a column, by its number from 1; `None` where the row has none.
fn entry_in(row: &[Option<Entry>], column: u8) -> Option<Entry>
    ensures { result ≡ entry_in row.now column }
{
    match column {
        0 => None,
        column => row.get(usize::from(column) - 1).copied().flatten(),
    }
}
