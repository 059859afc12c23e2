//! Lays cells out in lines of text.
ghost use Rattle.std.specs.Prelude.{◌<◌};

use desk_base::Piece::{Bytes, Column, Number, Right, Words};
use desk_base::{Piece, Stood, Text, width_in_hand};
use desk_cells::{Cell, Field, Holding, TableRow};
use history::{History, Holder};
use report::name;
use tables::{Company, Kind, Money, Private, Seat, Square, price};

/// Where a cell stands in its line.
#[derive(Clone, Copy)]
pub(crate) enum Place {
    /// From this column on; after a space if the line is that long already.
    From(usize),
    /// Up to this column.
    To(usize),
}

/// A column of a table: what it shows, where, and the word for nothing.
pub(crate) type TextColumn = (Field, Place, &'static str);

/// The last column at which another bid begins on the same line: with a name of eight letters and a
/// sum of five digits it ends before column 80.
const BIDS_END: usize = 65;

/// The most bytes of a line of tiles.
const LINE_MOST: usize = 80;

/// Adds a row of a table in each of these columns, and ends the line.
pub(crate) fn put_row(out: &mut Text, stood: &Stood, columns: &[TextColumn], row: &TableRow) {
    put_cells(out, stood, columns, row);
    out.push(&[Words("\n")]);
}

/// Adds the cells of a row in each of these columns.
pub(crate) fn put_cells(out: &mut Text, stood: &Stood, columns: &[TextColumn], row: &TableRow) {
    let view = stood.history.now();
    for &(field, place, nothing) in columns {
        match row.cell(&view, field) {
            Cell::Nothing => put_word(out, place, nothing),
            cell => put_cell(out, stood, place, cell),
        }
    }
}

/// Adds a cell at its place.
fn put_cell(out: &mut Text, stood: &Stood, place: Place, cell: Cell) {
    match cell {
        Cell::Number(number) => put_number(out, place, number),
        Cell::Sum(number) => put_number(out, place, number),
        Cell::Of(number, most) => put_part(out, place, number, most),
        Cell::Held(holding) => put_holding(out, place, holding),
        Cell::PlayerName(seat) => put_at(out, place, Bytes(name(stood.sheets, seat))),
        Cell::RoundName(round) => put_at(out, place, Piece::Round(round)),
        Cell::SquareName(square) => put_at(out, place, Piece::Square(square)),
        Cell::PriceAndSquare(square) => put_priced(out, place, square),
        Cell::OwnedBy(holder) => put_holder(out, stood, place, holder),
        Cell::TrainsOf(company) => put_trains(out, stood.history, place, company),
        Cell::TokensOf(company) => put_tokens(out, stood.history, place, company),
        Cell::PrivatesOf(holder) => put_privates(out, stood.history, place, holder),
        Cell::BidsOn(private) => put_bids(out, stood, place, private),
        _ => put_word(out, place, word_of(cell)),
    }
}

/// Returns the word of a cell that is one whatever the game; none for a cell that has none.
fn word_of(cell: Cell) -> &'static str {
    match cell {
        Cell::CompanyCode(company) => company.code(),
        Cell::PrivateCode(private) => private.code(),
        Cell::KindCode(kind) => kind.code(),
        Cell::Unlimited => "any",
        Cell::Unsold => "unsold",
        Cell::Closed => "closed",
        Cell::NotStarted => "not started",
        Cell::NotFloated(_) => "not floated",
        _ => "",
    }
}

/// Adds a number at its place, and the most that it may be.
fn put_part(out: &mut Text, place: Place, number: Money, most: Money) {
    put_number(out, place, number);
    out.push(&[Words(" of "), Number(most)]);
}

/// Adds how many shares a player holds, with a mark if they preside.
fn put_holding(out: &mut Text, place: Place, holding: Holding) {
    put_number(out, place, holding.shares);
    out.push(&[Words(if holding.presides { "*" } else { "" })]);
}

/// Adds a square after its price.
fn put_priced(out: &mut Text, place: Place, square: Square) {
    put_at(out, place, Number(Money::from(price(square))));
    out.push(&[Words(" "), Piece::Square(square)]);
}

/// Adds the trains of a company.
fn put_trains(out: &mut Text, history: &History, place: Place, company: Company) {
    for kind in &Kind::ALL {
        for _ in 0..history.trains(Some(company), *kind) {
            put_word(out, place, kind.code());
        }
    }
}

/// Adds the places of a company's tokens.
fn put_tokens(out: &mut Text, history: &History, place: Place, company: Company) {
    for token in history.tokens() {
        if token.1 == company {
            put_at(out, place, Bytes(token.0.text().as_slice()));
        }
    }
}

/// Adds the privates of a player or a company.
fn put_privates(out: &mut Text, history: &History, place: Place, holder: Holder) {
    for private in &Private::ALL {
        if history.owner(*private) == Some(holder) {
            put_word(out, place, private.code());
        }
    }
}

/// Adds the bids on a private. A bid that would end past column 80 begins a new line.
fn put_bids(out: &mut Text, stood: &Stood, place: Place, private: Private) {
    for seat in 0..stood.sheets.seats() {
        let seat = Seat::at(seat);
        if let Some(bid) = stood.history.bid(private, seat) {
            if width_in_hand(out.bytes()) > BIDS_END {
                out.push(&[Words("\n")]);
            }
            put_at(out, place, Bytes(name(stood.sheets, seat)));
            out.push(&[Words(" "), Number(bid)]);
        }
    }
}

/// Adds the owner of a private.
fn put_holder(out: &mut Text, stood: &Stood, place: Place, holder: Holder) {
    match holder {
        Holder::Seat(seat) => put_at(out, place, Bytes(name(stood.sheets, seat))),
        Holder::Company(company) => put_word(out, place, company.code()),
    }
}

/// Adds a number at its place.
fn put_number(out: &mut Text, place: Place, number: Money) {
    match place {
        Place::From(_) => put_at(out, place, Number(number)),
        Place::To(end) => {
            let room = end.saturating_sub(width_in_hand(out.bytes()));
            out.push(&[Right(room, number)]);
        }
    }
}

/// Adds a word at its place, unless it is empty.
fn put_word(out: &mut Text, place: Place, word: &'static str) {
    match place {
        _ if word.is_empty() => {}
        Place::From(_) => put_at(out, place, Words(word)),
        Place::To(end) => out.push(&[Column(end.saturating_sub(word.len())), Words(word)]),
    }
}

/// Adds a piece from the column of its place on, after a space if the line is that long already.
fn put_at(out: &mut Text, place: Place, piece: Piece) {
    let (Place::From(column) | Place::To(column)) = place;
    let width = width_in_hand(out.bytes());
    let space = if width >= column && width > 0 {
        " "
    } else {
        ""
    };
    out.push(&[Words(space), Column(column), piece]);
}

/// Moves to the next place of the current line, where each place has this many columns. It begins a
/// new line if that place would end after column 80.
pub(crate) fn move_on(out: &mut Text, width: usize)
    requires { 0 < width }
{
    let begin = width_in_hand(out.bytes())
        .div_ceil(width)
        .saturating_mul(width);
    if begin.saturating_add(width) > LINE_MOST {
        out.push(&[Words("\n")]);
    } else {
        out.push(&[Column(begin)]);
    }
}

/// Ends the current line, unless it is empty.
pub(crate) fn end_open_line(out: &mut Text) {
    if width_in_hand(out.bytes()) > 0 {
        out.push(&[Words("\n")]);
    }
}
