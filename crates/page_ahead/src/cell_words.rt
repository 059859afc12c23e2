//! What stands inside a cell of a page, as words.
ghost use Rattle.std.specs.Prelude.{◌≡◌};
ghost use Rattle.page_ahead.specs.CellWords.{name_of, word_of};

use desk_cells::Cell;
use history::{Holder, ShareCount};
use map_tables::{Place, home, private_hexes};
use markup::PagePiece::{
    Hex as Hexed, Letter, Name, Number, Place as Placed, Round as Named, Words,
};
use markup::Writer;
use page_map::Scene;
use picture::city_name;
use tables::{Company, Kind, Money, Private, Seat, Square};

/// Adds what stands inside a cell, without an element. Returns whether there is anything: it adds
/// nothing for a number of 0, for no limit, for an empty list, and for what no page shows.
pub fn put_words_of(out: &mut Writer, scene: &Scene, cell: Cell) -> bool {
    match cell {
        Cell::TrainsOf(company) => put_trains(out, scene, company),
        Cell::TokensOf(company) => put_tokens(out, scene, company),
        Cell::PrivatesOf(holder) => put_privates(out, scene, holder),
        Cell::BidsOn(private) => put_bids(out, scene, private),
        Cell::HexesOf(private) => put_hexes(out, private),
        Cell::PlayerName(seat) | Cell::OwnedBy(Holder::Seat(seat)) => {
            out.put(&[Name(scene.name(seat))]);
            true
        }
        _ => {
            let word = word_of(cell);
            if word.is_empty() {
                return put_figure(out, cell);
            }
            out.put(&[Words(word)]);
            true
        }
    }
}

/// Returns the constant word that stands in a cell; no letters if none does.
fn word_of(cell: Cell) -> &'static str
    ensures { result.now ≡ word_of cell }
{
    match cell {
        Cell::CompanyCode(company) => company.code(),
        Cell::OwnedBy(Holder::Company(company)) => company.code(),
        Cell::CompanyName(company) => name_of(company),
        Cell::PrivateCode(private) => private.code(),
        Cell::KindCode(kind) => kind.code(),
        Cell::Unsold => "unsold",
        Cell::Closed => "closed",
        Cell::NotStarted => "not started",
        _ => "",
    }
}

/// Returns the name of a company, as a page writes it.
pub fn name_of(company: Company) -> &'static str
    ensures { result.now ≡ name_of company }
{
    match company {
        Company::Pennsylvania => "Pennsylvania",
        Company::NewYorkCentral => "New York Central",
        Company::CanadianPacific => "Canadian Pacific",
        Company::BaltimoreOhio => "Baltimore &amp; Ohio",
        Company::ChesapeakeOhio => "Chesapeake &amp; Ohio",
        Company::Erie => "Erie",
        Company::NewHaven => "New York, New Haven &amp; Hartford",
        Company::BostonMaine => "Boston &amp; Maine",
    }
}

/// Adds a number, a round or a square, with the words that go with it.
fn put_figure(out: &mut Writer, cell: Cell) -> bool {
    match cell {
        Cell::Number(number) if number != 0 => out.put(&[Number(number)]),
        Cell::Sum(sum) => out.put(&[Number(sum)]),
        Cell::Of(number, most) => out.put(&[Number(number), Words(" of "), Number(most)]),
        Cell::Held(holding) if holding.presides => out.put(&[Number(holding.shares), Words(" P")]),
        Cell::Held(holding) if holding.shares != 0 => out.put(&[Number(holding.shares)]),
        Cell::RoundName(round) => out.put(&[Named(round)]),
        Cell::SquareName(square) => put_square(out, square),
        Cell::SquareAndPlace(square, place) => {
            put_square(out, square);
            out.put(&[Words(" no. "), Number(place)]);
        }
        Cell::NotFloated(offered) => put_waiting(out, offered),
        Cell::RustsAt(kind) => out.put(&[Words("at the first "), Words(kind.code())]),
        _ => return false,
    }
    true
}

/// Adds a square of the stock market: its row's letter, and its column.
fn put_square(out: &mut Writer, square: Square) {
    out.put(&[
        Letter(b'A'.saturating_add(square.row)),
        Number(Money::from(square.column)),
    ]);
}

/// The most shares in the initial offering with which a company floats.
const FLOATS_AT: ShareCount = 4;

/// Adds that a company has not floated, and how many more shares must be sold before it does, with
/// this many in the initial offering.
fn put_waiting(out: &mut Writer, offered: ShareCount) {
    if offered > FLOATS_AT {
        let more = Number(offered - FLOATS_AT);
        out.put(&[Words("not floated, "), more, Words(" shares to go")]);
    } else {
        out.put(&[Words("not floated")]);
    }
}

/// Adds the codes of a company's trains, or that it has none.
fn put_trains(out: &mut Writer, scene: &Scene, company: Company) -> bool {
    let mut before = "";
    for &kind in &Kind::ALL {
        for _ in 0..scene.history.trains(Some(company), kind) {
            out.put(&[Words(before), Words(kind.code())]);
            before = " ";
        }
    }
    if before.is_empty() {
        out.put(&[Words("none")]);
    }
    true
}

/// Adds the places of a company's tokens with the cities there; before its first token its home.
fn put_tokens(out: &mut Writer, scene: &Scene, company: Company) -> bool {
    let mut before = "";
    for token in scene.history.tokens() {
        if token.1 == company {
            put_place(out, before, token.0);
            before = ", ";
        }
    }
    if before.is_empty() {
        put_place(out, "home ", home(company).place());
    }
    true
}

/// Adds words, and a place with the name of its city, if it has one.
pub(crate) fn put_place(out: &mut Writer, words: &'static str, place: Place) {
    out.put(&[Words(words), Placed(place)]);
    if let Some(name) = city_name(place.hex) {
        out.put(&[Words(" "), Words(name)]);
    }
}

/// Adds the codes of the privates that a player or a company owns.
fn put_privates(out: &mut Writer, scene: &Scene, holder: Holder) -> bool {
    let mut before = "";
    for &private in &Private::ALL {
        if scene.history.owner(private) == Some(holder) {
            out.put(&[Words(before), Words(private.code())]);
            before = " ";
        }
    }
    !before.is_empty()
}

/// Adds the bids on a private, each with its bidder.
fn put_bids(out: &mut Writer, scene: &Scene, private: Private) -> bool {
    let mut before = "";
    for number in 0..scene.seats {
        let seat = Seat::at(number);
        if let Some(bid) = scene.history.bid(private, seat) {
            let bidder = Name(scene.name(seat));
            out.put(&[Words(before), bidder, Words(" "), Number(bid)]);
            before = ", ";
        }
    }
    !before.is_empty()
}

/// Adds the hexes of a private.
fn put_hexes(out: &mut Writer, private: Private) -> bool {
    let mut before = "";
    for hex in private_hexes(private) {
        out.put(&[Words(before), Hexed(*hex)]);
        before = " ";
    }
    true
}
