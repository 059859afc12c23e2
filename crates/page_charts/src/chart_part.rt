//! The stock chart.
ghost use Rattle.std.specs.Prelude.{pos, negsuc, ◌≤ℤ◌};

use markup::PagePiece::{At, Letter, Number, Point as To, Words};
use markup::{Attr, Point, Tag, Writer};
use tables::{
    CHART_COLUMNS_END, CHART_ROWS, Company, Money, PerCompany, Square, Zone, is_par, price, square,
    zone,
};

/// The token of a company on the chart.
#[derive(Clone, Copy)]
pub struct ChartToken {
    pub company: Company,
    pub square: Square,
    /// How many tokens arrived at the square before it.
    pub place: usize,
    /// Whether it was moved or put on the chart in the last round.
    pub is_new: bool,
    /// Where it was before that round, if it was on the chart.
    pub from: Option<Square>,
}

/// The tokens on the chart, in the order of the roster; `None` for a company that has not started.
pub type ChartTokens = PerCompany<Option<ChartToken>>;

/// The width of a square.
const WIDTH: i32 = 60;

/// The height of a square.
const HEIGHT: i32 = 56;

/// The lines below the chart: how far down each is, and its words.
const LEGEND: [(i32, &str); 7] = [
    (0, "pays: right, at the end of its row up"),
    (20, "withholds: left, at the end of its row down"),
    (40, "sold: down, a square for each share; sold out: up"),
    (
        68,
        "p a par value; y yellow: its shares do not count against the limit of certificates",
    ),
    (
        88,
        "o orange: nor against the limit of six shares; b brown: and a player may buy several \
            in one turn",
    ),
    (116, "On a square the earliest token comes first."),
    (
        136,
        "ringed: moved in the last round; the arrow comes from where it was",
    ),
];

/// Adds the stock chart with the tokens.
pub fn put_chart(out: &mut Writer, tokens: &ChartTokens) {
    begin_chart(out);
    put_squares(out, tokens, true);
    end_chart(out);
}

/// Begins the stock chart, with the numbers of its columns.
pub fn begin_chart(out: &mut Writer) {
    out.begin_as(Tag::Svg, "chart");
    out.value(Attr::ViewBox, &[Words("-27 -21 1169 639")]);
    out.value(Attr::Role, &[Words("img")]);
    out.element(Tag::Title, &[Words("Stock chart")]);
    out.element(
        Tag::Desc,
        &[Words(
            "Prices from row A down to K, columns 1 to 19, with the tokens of the companies in their \
                order. The table of companies names the squares.",
        )],
    );
    for column in 1..CHART_COLUMNS_END {
        let x = WIDTH * i32::from(column) - 30;
        out.label("b0", Point { x, y: -6 }, &[At(i32::from(column))]);
    }
}

/// Adds the squares of the stock chart with the tokens, and a line to each token that was moved in
/// the last round, with the head of an arrow or without one.
pub fn put_squares(out: &mut Writer, tokens: &ChartTokens, has_heads: bool) {
    for row in 0..CHART_ROWS {
        put_row(out, tokens, row);
    }
    for token in tokens.iter().flatten() {
        put_arrow(out, tokens, token, has_heads);
    }
}

/// Ends the stock chart, with its legend.
pub fn end_chart(out: &mut Writer) {
    out.begin_at(Point { x: 452, y: 470 });
    for &(y, words) in &LEGEND {
        out.words_at(Point { x: 0, y }, words);
    }
    out.end();
    out.end();
}

/// Adds a row with its letter.
fn put_row(out: &mut Writer, tokens: &ChartTokens, row: u8) {
    let y = HEIGHT * i32::from(row) + 33;
    out.label(
        "b0",
        Point { x: -13, y },
        &[Letter(row.saturating_add(b'A'))],
    );
    for column in 1..CHART_COLUMNS_END {
        if let Some(square) = square(row, column) {
            put_square(out, tokens, square);
        }
    }
    out.put(&[Words("\n")]);
}

/// Adds a square with its tokens.
fn put_square(out: &mut Writer, tokens: &ChartTokens, square: Square) {
    let corner = corner_of(square);
    let is_par = is_par(square);
    let (class, mark) = match zone(square) {
        Zone::White if is_par => ("cw", " p"),
        Zone::White => ("cw", ""),
        Zone::Yellow => ("cy", " y"),
        Zone::Orange => ("co", " o"),
        Zone::Brown => ("cb", " b"),
    };
    out.begin(Tag::Use);
    out.value(Attr::Href, &[Words("#sq")]);
    out.value(Attr::Class, &[Words(class)]);
    out.place_at(corner);
    out.end();
    if is_par {
        out.sign("#par", corner);
    }
    put_price(out, corner, square, mark);
    put_stack(out, tokens, square);
}

/// Adds the price of a square, with the mark after it.
fn put_price(out: &mut Writer, corner: Point, square: Square, mark: &'static str) {
    out.begin_as(Tag::Text, "pr");
    out.place_at(corner.plus(Point { x: 8, y: 17 }));
    out.within();
    out.put(&[Number(Money::from(price(square)))]);
    if !mark.is_empty() {
        out.element_as(Tag::TextSpan, "zl", &[Words(mark)]);
    }
    out.end();
}

/// Returns the upper left corner of a square.
fn corner_of(square: Square) -> Point {
    Point {
        x: WIDTH * (i32::from(square.column) - 1),
        y: HEIGHT * i32::from(square.row),
    }
}

/// Returns the token of a square that arrived after this many others.
fn token_at(tokens: &ChartTokens, square: Square, place: usize) -> Option<&ChartToken> {
    tokens
        .iter()
        .flatten()
        .find(|token| token.square == square && token.place == place)
}

/// Returns where a token lies: in rows of four, closer together if there are more than three.
fn place_of(tokens: &ChartTokens, token: &ChartToken) -> Point {
    let step = if token_at(tokens, token.square, 3).is_some() {
        13
    } else {
        19
    };
    let number = token.place.min(Company::ALL.len()) as i32;
    corner_of(token.square).plus(Point {
        x: 11 + step * (number % 4),
        y: 30 + 16 * (number / 4),
    })
}

/// Adds the tokens of a square: earlier ones lie on top, so they are drawn later.
fn put_stack(out: &mut Writer, tokens: &ChartTokens, square: Square) {
    for place in (0..Company::ALL.len()).rev() {
        if let Some(token) = token_at(tokens, square, place) {
            let at = place_of(tokens, token);
            if token.is_new {
                // A white edge, since the ring is too like an orange or a brown square.
                let start = at.minus(Point { x: 9, y: 0 });
                let around = Words("a9 9 0 1 0 18 0a9 9 0 1 0-18 0");
                out.path("mw", &[Words("M"), To(start), around]);
            }
            out.token("#m", token.company, at);
            if token.is_new {
                out.sign("#nm", at);
            }
        }
    }
}

/// Adds an arrow to a token that was moved in the last round, from its earlier square, with its
/// head or without it.
fn put_arrow(out: &mut Writer, tokens: &ChartTokens, token: &ChartToken, has_head: bool) {
    let Some(from) = token.from else {
        return;
    };
    if !token.is_new || from == token.square {
        return;
    }
    let across = sign_of(i32::from(token.square.column) - i32::from(from.column));
    let down = sign_of(i32::from(token.square.row) - i32::from(from.row));
    let start = corner_of(from).plus(Point { x: 30, y: 36 });
    let direction = Point { x: across, y: down };
    let tip = place_of(tokens, token).minus(direction.times(ring_along(across, down)));
    for &class in &["mw", "mv"] {
        out.path(class, &[Words("M"), To(start), Words("L"), To(tip)]);
    }
    if !has_head {
        return;
    }
    let back = tip.minus(Point {
        x: 9 * across,
        y: 9 * down,
    });
    let half = Point {
        x: -5 * down,
        y: 5 * across,
    };
    out.path(
        "mh",
        &[
            Words("M"),
            To(tip),
            Words("L"),
            To(back.plus(half)),
            Words("L"),
            To(back.minus(half)),
            Words("z"),
        ],
    );
}

/// Returns how far from the middle of a token its ring ends, along each axis, in the direction of
/// an arrow.
fn ring_along(across: i32, down: i32) -> i32
    ensures least { pos 8 ≤ℤ result }
    ensures most { result ≤ℤ pos 11 }
{
    if across == 0 || down == 0 { 11 } else { 8 }
}

/// Returns 1 for a positive number, -1 for a negative one, and 0 for 0.
fn sign_of(number: i32) -> i32
    ensures least { negsuc 0 ≤ℤ result }
    ensures most { result ≤ℤ pos 1 }
{
    if number > 0 {
        1
    } else if number < 0 {
        -1
    } else {
        0
    }
}
