//! What each player was worth and what each share cost, round by round: two charts of lines, and a
//! table.
ghost use Rattle.std.specs.Prelude.{IfSome, ◌≡◌, ◌≤◌, ◌<◌, ◌≤ℤ◌, pos};

use markup::PagePiece::{Count, Name, Number, Round as Named, Words};
use markup::{
    Attr, NOTHING, Point, Tag, Writer, begin_head, begin_row, begin_section, begin_table, end_head,
    put_caption, put_heading, put_row_head,
};
use tables::{Amount, COMPANIES, Company, Kind, Money, PLAYERS_MOST, PerCompany, PerSeat, Round};

/// The figures of a game after a round.
#[derive(Clone, Copy)]
pub struct Entry {
    pub round: Round,
    /// What the players were worth, by their seats.
    pub worths: [Money; PLAYERS_MOST],
    /// The prices of the companies' shares, in the order of the roster; `None` before a company has
    /// started.
    pub prices: PerCompany<Option<Amount>>,
    pub phase: Kind,
}

/// The players.
#[derive(Clone, Copy)]
pub struct Players<'a> {
    /// Their names, by their seats.
    pub names: [&'a [u8]; PLAYERS_MOST],
    /// How many there are.
    pub seats: usize,
    pub ghost few: { seats ≤ 6 },
}

/// What a line of a chart shows.
#[derive(Clone, Copy)]
enum Series {
    /// What the player of a seat is worth.
    Worth(usize),
    /// What a share of a company costs.
    Price(Company),
}

/// The lines of the players, by their seats.
const WORTHS: PerSeat<Series> = [
    Series::Worth(0),
    Series::Worth(1),
    Series::Worth(2),
    Series::Worth(3),
    Series::Worth(4),
    Series::Worth(5),
];

/// The lines of the companies, in the order of the roster.
const PRICES: PerCompany<Series> = [
    Series::Price(Company::Pennsylvania),
    Series::Price(Company::NewYorkCentral),
    Series::Price(Company::CanadianPacific),
    Series::Price(Company::BaltimoreOhio),
    Series::Price(Company::ChesapeakeOhio),
    Series::Price(Company::Erie),
    Series::Price(Company::NewHaven),
    Series::Price(Company::BostonMaine),
];

/// The colours of the players' lines, by their seats.
const INKS: PerSeat<&str> = [
    "#1f4e9c", "#b3261e", "#1f7a3d", "#7a3b8f", "#9a5b00", "#333",
];

/// The dashes of the players' lines, by their seats; empty for a solid line.
const SEAT_DASHES: PerSeat<&str> = ["", "18 6", "7 5", "18 5 5 5", "3 5", "12 4 3 4 3 4"];

/// The left end of the lines, their width, the height of 0, and that of the greatest value.
const LEFT: usize = 60;

const WIDTH: usize = 780;

const BOTTOM: usize = 320;

const HEIGHT: usize = 300;

/// The least distance between the names at the ends of the lines, and the lowest place of one.
const APART: usize = 17;

const LOWEST: usize = 345;

/// The greatest value that a chart shows, in dollars.
const VALUE_MOST: usize = 1_000_000;

/// How many parts a chart is divided into from 0 to its greatest value.
const PARTS: usize = 4;

/// The most rounds that are named below a chart.
const NAMES_MOST: usize = 14;

impl<'a> Players<'a> {
    /// Returns the name of the player of a seat; empty for an empty seat.
    fn name(&self, seat: usize) -> &'a [u8] {
        match self.names.get(seat) {
            Some(name) => name,
            None => &[],
        }
    }
}

/// Adds the history of a game.
pub fn put_history(out: &mut Writer, players: &Players, entries: &[Entry]) {
    begin_section(out, "history", "History", "");
    if entries.is_empty() {
        out.element(Tag::Paragraph, &[Words("No round has been played.")]);
    } else {
        let worths = &WORTHS[..players.seats];
        put_plot(out, players, entries, "Worth of the players", worths);
        put_plot(
            out,
            players,
            entries,
            "Prices of the companies' shares",
            &PRICES,
        );
        put_figures(out, players, entries);
    }
    out.end();
}

/// Returns whether a chart has a line between two rounds.
fn has_line(entries: &[Entry], series: &[Series]) -> bool {
    for entry in entries.iter().skip(1) {
        for line in series {
            if value_of(entry, *line).is_some() {
                return true;
            }
        }
    }
    false
}

/// Adds a chart of some lines.
fn put_plot(
    out: &mut Writer,
    players: &Players,
    entries: &[Entry],
    words: &'static str,
    series: &[Series],
) {
    let most = top_of(entries, series);
    out.begin_as(
        Tag::Division,
        if has_line(entries, series) {
            "chart-of"
        } else {
            "chart-of empty"
        },
    );
    out.element(Tag::H3, &[Words(words)]);
    out.begin_as(Tag::Svg, "plot");
    out.value(Attr::ViewBox, &[Words("0 0 1000 360")]);
    out.value(Attr::Role, &[Words("img")]);
    out.element(Tag::Title, &[Words(words)]);
    out.element(
        Tag::Desc,
        &[Words(
            "A line each, round by round, with the rounds in which a phase began. The table below has \
                the figures.",
        )],
    );
    put_grid(out, most);
    put_rounds(out, entries);
    put_phases(out, entries);
    for line in series {
        put_line(out, entries, *line, most);
    }
    put_names(out, players, entries, series, most);
    out.end();
    out.end();
}

/// Adds a mark at each round in which a phase began, with its kind of train.
fn put_phases(out: &mut Writer, entries: &[Entry]) {
    let mut before = Kind::Two;
    for (number, entry) in entries.iter().enumerate() {
        if entry.phase != before {
            let x = across(number, entries.len()).min(1_000);
            out.path("phase", &[Words("M"), Count(x), Words(" 20V320")]);
            let place = Point { x: x as i32, y: 14 };
            out.label("when", place, &[Words("first "), Words(entry.phase.code())]);
        }
        before = entry.phase;
    }
}

/// Returns the value of a line after a round, in dollars, from 0 up to `VALUE_MOST`; `None` before
/// it begins.
fn value_of(entry: &Entry, series: Series) -> Option<usize>
    ensures { IfSome result (λ value. value ≤ 1000000) }
{
    match series {
        Series::Worth(seat) => Some(within(*entry.worths.get(seat)?)),
        Series::Price(company) => Some(within(Money::from(entry.prices[company.index()]?))),
    }
}

/// Returns a sum of dollars, or the nearest one that a chart shows.
fn within(sum: Money) -> usize
    ensures most { result ≤ 1000000 }
    ensures same { pos 0 ≤ℤ sum → sum ≤ℤ pos 1000000 → pos result ≡ sum }
    ensures low { sum ≤ℤ pos 0 → result ≡ 0 }
    ensures high { pos 1000000 ≤ℤ sum → result ≡ 1000000 }
{
    if sum < 0 {
        0
    } else if sum > VALUE_MOST as Money {
        VALUE_MOST
    } else {
        sum as usize
    }
}

/// Returns the greatest value on a chart's scale, which is at least each value of its lines.
fn top_of(entries: &[Entry], series: &[Series]) -> usize
    ensures { 0 < result }
{
    let mut most = PARTS;
    for entry in entries {
        for line in series {
            if let Some(value) = value_of(entry, *line) {
                most = most.max(value);
            }
        }
    }
    PARTS * rounded(most / PARTS + 1)
}

/// Returns a round number that is at least this great, if there is one up to `VALUE_MOST`.
fn rounded(least: usize) -> usize
    ensures least { 0 < result }
    ensures most { result ≤ 1000000 }
{
    for &step in &[
        10, 20, 25, 50, 100, 200, 250, 500, 1_000, 2_000, 2_500, 5_000, 10_000, 20_000, 50_000,
        100_000,
    ] {
        if least <= step {
            return step;
        }
    }
    VALUE_MOST
}

/// Returns how far down a value is drawn.
fn height_of(value: usize, most: usize) -> usize
    requires value { value ≤ 1000000 }
    requires most { 0 < most }
    ensures { result ≤ 320 }
{
    BOTTOM.saturating_sub(HEIGHT * value / most)
}

/// Returns how far to the right a round is drawn, given the number of rounds.
fn across(number: usize, count: usize) -> usize {
    let last = count.saturating_sub(1).max(1);
    LEFT.saturating_add(WIDTH.saturating_mul(number) / last)
}

/// Adds the lines across a chart, with their values.
fn put_grid(out: &mut Writer, most: usize)
    requires { 0 < most }
{
    for part in 0..5 {
        let value = (most / PARTS).saturating_mul(part).min(VALUE_MOST);
        let down = Count(height_of(value, most));
        out.path("grid", &[Words("M60 "), down, Words("H840")]);
        let y = height_of(value, most) as i32 + 4;
        out.label("axis", Point { x: 54, y }, &[Count(value)]);
    }
}

/// Adds the names of some of the rounds.
fn put_rounds(out: &mut Writer, entries: &[Entry]) {
    let step = entries.len() / NAMES_MOST + 1;
    for (number, entry) in entries.iter().enumerate() {
        if number % step == 0 {
            let x = across(number, entries.len()).min(1_000) as i32;
            out.label("when", Point { x, y: 340 }, &[Named(entry.round)]);
        }
    }
}

/// Adds a line.
fn put_line(out: &mut Writer, entries: &[Entry], line: Series, most: usize)
    requires { 0 < most }
{
    out.begin_as(Tag::Polyline, "ser");
    match line {
        Series::Worth(seat) => {
            out.value(Attr::Stroke, &[Words(INKS[seat % INKS.len()])]);
            let dash = SEAT_DASHES[seat % SEAT_DASHES.len()];
            if !dash.is_empty() {
                out.value(Attr::Dash, &[Words(dash)]);
            }
        }
        Series::Price(company) => {
            out.chart_colour(company);
            out.line_dash(company);
        }
    }
    out.attr(Attr::Points);
    let mut is_first = true;
    for (place, entry) in entries.iter().enumerate() {
        if let Some(value) = value_of(entry, line) {
            let x = across(place, entries.len()) as Money;
            put_point(out, is_first, x, height_of(value, most) as Money);
            is_first = false;
        }
    }
    out.end();
}

/// Adds a point of a line, with a separator unless it is the first.
fn put_point(out: &mut Writer, is_first: bool, x: Money, y: Money) {
    if !is_first {
        out.put(&[Words(" ")]);
    }
    out.put(&[Number(x), Words(","), Number(y)]);
}

/// Adds the names at the ends of the lines, without overlap: from the greatest value down, each at
/// the end of its line or below the previous name, and high enough to leave room for the names that
/// follow.
fn put_names(out: &mut Writer, players: &Players, entries: &[Entry], series: &[Series], most: usize)
    requires { 0 < most }
{
    let Some(last) = entries.last() else {
        return;
    };
    let mut least = 0;
    let mut is_named = [false; COMPANIES];
    for (place, _) in series.iter().enumerate() {
        let below = APART.saturating_mul(series.len() - 1 - place);
        if let Some(number) = next_name(last, series, &is_named) {
            if let (Some(named), Some(line)) = (is_named.get_mut(number), series.get(number)) {
                *named = true;
                if let Some(value) = value_of(last, *line) {
                    let end = height_of(value, most);
                    let y = end.min(LOWEST.saturating_sub(below)).max(least).min(LOWEST);
                    put_name(out, players, *line, end, y);
                    least = y + APART;
                }
            }
        }
    }
}

/// Returns the line with the greatest last value that has no name yet; `None` if each has one.
fn next_name(last: &Entry, series: &[Series], is_named: &PerCompany<bool>) -> Option<usize> {
    let mut found = None;
    let mut greatest = 0;
    for (number, line) in series.iter().enumerate() {
        if let (Some(value), Some(false)) = (value_of(last, *line), is_named.get(number)) {
            if found.is_none() || value > greatest {
                found = Some(number);
                greatest = value;
            }
        }
    }
    found
}

/// Adds the name of a line, and a leader from the line's end to it.
fn put_name(out: &mut Writer, players: &Players, line: Series, end: usize, y: usize) {
    let from = Count(end);
    let to = Count(y);
    out.path("lead", &[Words("M842 "), from, Words("L862 "), to]);
    let place = Point {
        x: 866,
        y: y.min(1_000) as i32 + 5,
    };
    match line {
        Series::Worth(seat) => {
            out.label("name", place, &[Name(players.name(seat))]);
        }
        Series::Price(company) => {
            let code = Words(company.code());
            out.label("name", place, &[Words(company.letter()), Words(" "), code]);
        }
    }
}

/// Adds the table of the figures.
fn put_figures(out: &mut Writer, players: &Players, entries: &[Entry]) {
    begin_table(out, "figures", "wide");
    put_caption(
        out,
        "Worth of the players and prices of shares",
        "(after each round)",
    );
    begin_head(out);
    put_heading(out, "", &[Words("Round")]);
    for number in 0..players.seats {
        put_heading(out, "num", &[Name(players.name(number))]);
    }
    for &company in &Company::ALL {
        put_heading(out, "num", &[Words(company.code())]);
    }
    end_head(out);
    out.begin(Tag::TableBody);
    for entry in entries {
        put_row(out, players.seats, entry);
    }
    out.end();
    out.end();
}

/// Adds the row of the figures after a round.
fn put_row(out: &mut Writer, seats: usize, entry: &Entry)
    requires { seats ≤ 6 }
{
    begin_row(out, "");
    put_row_head(out, &[Named(entry.round)]);
    for worth in &entry.worths[..seats] {
        out.element(Tag::Cell, &[Number(*worth)]);
    }
    for price in &entry.prices {
        match price {
            Some(price) => out.element(Tag::Cell, &[Number(Money::from(*price))]),
            None => out.element(Tag::Cell, &[Words(NOTHING)]),
        }
    }
    out.end();
}
