//! The stock market as text, with the tokens of the companies.
ghost use Rattle.std.specs.Prelude.{◌<◌};

use crate::layout::end_open_line;
use desk_base::Piece::{Bytes, Column, Right, Words};
use desk_base::Text;
use desk_cells::company_at;
use history::{GameView, History};
use tables::{CHART_COLUMNS_END, CHART_ROWS, Money, Zone, price, square, zone};

/// The width of a square.
const SQUARE: usize = 4;

/// The most tokens of a stack that a line shows.
const SHOWN: usize = 3;

/// Adds the stock market: the prices of each row, with the zones, and below them the tokens.
pub(crate) fn put_chart(out: &mut Text, history: &History) {
    out.push(&[
        Words(
            "\nSTOCK MARKET\n\
            y yellow, o orange, b brown zone. Below a price its tokens, the earliest first.\n\
            Tokens:  P PRR  N NYC  C CPR  B BO  O CO  E ERIE  H NYNH  M BM\n",
        ),
        Column(6),
        Words("1   2   3   4   5   6   7   8   9  10  11  12  13  14  15  16  17  18  19\n"),
    ]);
    for row in 0..CHART_ROWS {
        out.push(&[Bytes(&[b'A' + row])]);
        for column in 1..CHART_COLUMNS_END {
            if let Some(square) = square(row, column) {
                out.push(&[
                    Column(SQUARE * usize::from(column)),
                    Right(3, Money::from(price(square))),
                    Words(mark(zone(square))),
                ]);
            }
        }
        out.push(&[Words("\n")]);
        for line in 0..SHOWN {
            put_tokens(out, &history.now(), row, line * SHOWN);
        }
    }
}

/// Returns the mark of a zone; nothing for white squares.
fn mark(zone: Zone) -> &'static str {
    match zone {
        Zone::White => "",
        Zone::Yellow => "y",
        Zone::Orange => "o",
        Zone::Brown => "b",
    }
}

/// Adds the tokens on the squares of a row that lie below this many others, as many as a line
/// shows; adds no line if there are none.
fn put_tokens(out: &mut Text, view: &GameView, row: u8, above: usize)
    requires { above < 9 }
{
    for column in 1..CHART_COLUMNS_END {
        if let Some(square) = square(row, column) {
            for place in above..above + SHOWN {
                if let Some(company) = company_at(view, square, place) {
                    out.push(&[
                        Column(SQUARE * usize::from(column)),
                        Words(company.letter()),
                    ]);
                }
            }
        }
    }
    end_open_line(out);
}
