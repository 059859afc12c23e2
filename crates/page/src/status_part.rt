//! The head of a page: the players, what comes next, and a summary.

use crate::checksum::Source;
use crate::phases_part::colours_of;
use desk_base::trains_left;
use history::{History, Party};
use markup::PagePiece::{Checksum, Count, Name, Number, Round as Named, Words};
use markup::{Attr, PagePiece, Tag, Writer};
use page_map::Scene;
use rounds::End;
use tables::{Kind, Money, Round, Seat, certificate_limit, limit, train};

/// Adds the title of the page, in its head and above its body: the last round played.
pub(crate) fn put_title(out: &mut Writer, scene: &Scene, tag: Tag) {
    match scene.history.now().round() {
        Some(round) => out.element(tag, &[Words("1830: after "), Named(round)]),
        None => out.element(tag, &[Words("1830: before PR1")]),
    }
}

/// Adds the players' names.
pub fn put_names(out: &mut Writer, scene: &Scene) {
    out.begin_as(Tag::Paragraph, "who");
    out.within();
    let mut before = "";
    for number in 0..scene.seats {
        out.put(&[Words(before), Name(scene.name(Seat::at(number)))]);
        before = ", ";
    }
    out.end();
}

/// The sections and tables that the head links to.
pub(crate) const LINKS: [(&str, &str); 13] = [
    ("#bulletin", "Bulletin"),
    ("#map", "Map"),
    ("#routes", "Routes"),
    ("#chart", "Chart"),
    ("#history", "History"),
    ("#players", "Players"),
    ("#companies", "Companies"),
    ("#revenue", "Revenue"),
    ("#privates", "Privates"),
    ("#trains", "Trains"),
    ("#phases", "Phases"),
    ("#tiles", "Tiles"),
    ("#hexes", "Hexes"),
];

/// Adds a link past the head, for keyboard and screen reader users.
pub fn put_skip(out: &mut Writer) {
    out.begin_as(Tag::Anchor, "skip");
    out.value(Attr::Href, &[Words("#map")]);
    out.within();
    out.put(&[Words("Skip to the map")]);
    out.end();
}

/// Adds links to the sections of a page, each with its words.
pub fn put_links(out: &mut Writer, links: &[(&'static str, &'static str)]) {
    out.begin(Tag::Nav);
    for &(section, words) in links {
        out.begin(Tag::Anchor);
        out.value(Attr::Href, &[Words(section)]);
        out.within();
        out.put(&[Words(words)]);
        out.end();
        out.put(&[Words(" ")]);
    }
    out.end();
}

/// Adds a summary of the game beside what is told of the next round, with the file's number of
/// lines and its checksum.
pub(crate) fn put_status(out: &mut Writer, scene: &Scene, source: Source) {
    let history = scene.history;
    let phase = history.phase();
    out.begin_as(Tag::Listing, "status");
    if !matches!(scene.end, End::Awaiting(_)) {
        put_next(out, scene, &[]);
    }
    match history.now().round() {
        Some(round) => put_item(out, "Last round", &[Named(round)]),
        None => put_item(out, "Last round", &[Words("none")]),
    }
    put_item(out, "Phase", &[Words(phase.code())]);
    put_item(out, "Tiles", &[Words(colours_of(phase))]);
    put_next_train(out, history);
    let trains = limit(phase) as Money;
    put_count(out, "Trains of a company", trains, " at most");
    let words = if scene.in_set == 1 {
        " operating round"
    } else {
        " operating rounds"
    };
    put_count(out, "Set", Money::from(scene.in_set), words);
    if let End::Awaiting(Round::Opening(_) | Round::Stock(_)) = scene.end {
        put_turns(out, scene);
    }
    put_count(out, "Bank", history.cash(Party::Bank), "");
    let certificates = certificate_limit(history.seats()) as Money;
    put_count(out, "Certificates", certificates, " at most");
    put_source(out, source);
    out.end();
}

/// Adds an item with the number of lines of the order file, and its checksum.
pub fn put_source(out: &mut Writer, source: Source) {
    let lines = [
        Count(source.lines),
        Words(" lines, CRC-32 "),
        Checksum(source.checksum),
    ];
    put_item(out, "Order file", &lines);
}

/// Adds the train that the bank sells next.
fn put_next_train(out: &mut Writer, history: &History) {
    out.begin(Tag::Item);
    out.element(Tag::Small, &[Words("Next train")]);
    out.put(&[Words(" ")]);
    out.begin(Tag::Bold);
    out.within();
    put_train_on_sale(out, history);
    out.end();
    out.end();
}

/// Adds the kind of train that the bank sells next, its price and how many are left.
pub fn put_train_on_sale(out: &mut Writer, history: &History) {
    for &kind in &Kind::ALL {
        let left = trains_left(&history.now(), kind);
        if left != Some(0) {
            let price = Number(Money::from(train(kind).price));
            out.put(&[Words(kind.code()), Words(" for "), price]);
            if let Some(left) = left {
                out.put(&[Words(", "), Count(left), Words(" left")]);
            }
            return;
        }
    }
}

/// Adds the order of the players' turns in the next round.
fn put_turns(out: &mut Writer, scene: &Scene) {
    out.begin(Tag::Item);
    out.element(Tag::Small, &[Words("Order of turns")]);
    out.begin(Tag::Bold);
    out.within();
    let mut seat = scene.history.now().priority();
    for _ in 0..scene.seats {
        out.put(&[Words(" "), Name(scene.name(seat))]);
        seat = seat.left(scene.seats);
    }
    out.end();
    out.end();
}

/// Adds an item of the list.
fn put_item(out: &mut Writer, words: &'static str, pieces: &[PagePiece]) {
    out.begin(Tag::Item);
    out.element(Tag::Small, &[Words(words)]);
    out.put(&[Words(" ")]);
    out.element(Tag::Bold, pieces);
    out.end();
}

/// Adds an item of the status, with a number and words.
fn put_count(out: &mut Writer, label: &'static str, number: Money, words: &'static str) {
    put_item(out, label, &[Number(number), Words(words)]);
}

/// Adds items with the next round, who owes a sheet for it, and when sheets are due if these words
/// say it; or how the game ended.
pub fn put_next(out: &mut Writer, scene: &Scene, due: &[u8]) {
    out.begin_as(Tag::Item, "next");
    let (words, round) = match scene.end {
        End::Awaiting(round) => ("Next round", Some(round)),
        End::Bank => ("The game has ended", None),
        End::Bankrupt => ("The game has ended", None),
    };
    out.element(Tag::Small, &[Words(words)]);
    out.put(&[Words(" ")]);
    match (round, scene.end) {
        (Some(round), _) => out.element(Tag::Bold, &[Named(round)]),
        (None, End::Bankrupt) => out.element(Tag::Bold, &[Words("by a bankruptcy")]),
        (None, _) => out.element(Tag::Bold, &[Words("by the broken bank")]),
    }
    out.end();
    if let Some(round) = round {
        put_owing(out, scene);
        put_due(out, round, due);
    }
}

/// Adds when the sheets of a round are due, if these words say it.
fn put_due(out: &mut Writer, round: Round, due: &[u8]) {
    if due.is_empty() {
        return;
    }
    out.begin_as(Tag::Item, "next");
    let words = [Words("Sheets for "), Named(round), Words(" are due by")];
    out.element(Tag::Small, &words);
    out.put(&[Words(" ")]);
    out.begin(Tag::Bold);
    out.text(due);
    out.end();
    out.end();
}

/// Adds who owes a sheet.
fn put_owing(out: &mut Writer, scene: &Scene) {
    out.begin_as(Tag::Item, "next");
    out.element(Tag::Small, &[Words("Sheets owed by")]);
    for number in 0..scene.seats {
        put_debtor(out, scene, Seat::at(number));
    }
    if !scene.owe.contains(&true) {
        out.put(&[Words(" nobody")]);
    }
    out.end();
}

/// Adds the name of the player of a seat, if they owe a sheet.
fn put_debtor(out: &mut Writer, scene: &Scene, seat: Seat) {
    if scene.owes(seat) {
        out.put(&[Words(" ")]);
        out.element(Tag::Bold, &[Name(scene.name(seat))]);
    }
}
