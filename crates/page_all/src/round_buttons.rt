//! The title of the page, and the buttons of its rounds with their words.

use crate::replayed::Replayed;
use markup::PagePiece::{Count, Round as Named, Words};
use markup::{Attr, PagePiece, Tag, Writer};
use replay::begin_lasting;
use tables::{PerKind, Round};

/// Adds the title of the document: the last round, and how many rounds the page shows, and of how
/// many if there are more.
pub(crate) fn put_title(out: &mut Writer, replayed: &Replayed) {
    let shown = replayed.rounds.len();
    out.begin(Tag::Title);
    out.within();
    match replayed.rounds.last() {
        Some(round) => out.put(&[Words("1830: after "), Named(*round), Words(", ")]),
        None => out.put(&[Words("1830: before PR1")]),
    }
    if replayed.before > 0 {
        let all = shown.saturating_add(replayed.before);
        out.put(&[
            Words("the last "),
            Count(shown),
            Words(" of "),
            Count(all),
            Words(" rounds"),
        ]);
    } else if shown > 0 {
        let words = if shown == 1 { " round" } else { " rounds" };
        out.put(&[Count(shown), Words(words)]);
    }
    out.end();
}

/// Adds the heading of the page: the round that is shown, which leads to its address.
pub(crate) fn put_heading(out: &mut Writer, replayed: &Replayed) {
    out.begin(Tag::H1);
    out.within();
    if replayed.rounds.is_empty() {
        out.put(&[Words("1830: before PR1")]);
    } else {
        out.put(&[Words("1830: after ")]);
    }
    for (number, round) in replayed.rounds.iter().enumerate() {
        begin_lasting(out, Tag::Span, number, number, replayed.last());
        out.begin(Tag::Anchor);
        out.value(Attr::Href, &[Words("#"), Named(*round)]);
        out.within();
        out.put(&[Named(*round)]);
        out.end();
        out.end();
    }
    out.end();
}

/// Adds the buttons, as `replay` wants them: for each round the one that shows it, which has its
/// name, and the one that compares with it.
pub(crate) fn put_buttons(out: &mut Writer, replayed: &Replayed) {
    for (number, round) in replayed.rounds.iter().enumerate() {
        let (page, round) = (Count(number), Named(*round));
        begin_button(out, "round", &[Words("rd r"), page], &[round]);
        out.value(Attr::Label, &[Words("After "), round]);
        out.end();
        if number < replayed.last() {
            begin_button(out, "with", &[Words("cd c"), page], &[Words("c"), page]);
            out.value(Attr::Label, &[Words("Compare with "), round]);
            out.end();
        }
        out.put(&[Words("\n")]);
    }
    if !replayed.rounds.is_empty() {
        begin_button(out, "round", &[Words("rd now")], &[Words("now")]);
        out.value(
            Attr::Label,
            &[Words("The round of the address, or the last one")],
        );
        out.value(Attr::Checked, &[Words("checked")]);
        out.end();
        begin_button(out, "with", &[Words("no")], &[Words("with")]);
        out.value(Attr::Label, &[Words("Compare with no round")]);
        out.value(Attr::Checked, &[Words("checked")]);
        out.end();
    }
}

/// Begins a button, of which only one with its name is pressed, with its class and its id.
fn begin_button(out: &mut Writer, name: &'static str, class: &[PagePiece], id: &[PagePiece]) {
    out.begin(Tag::Input);
    out.value(Attr::Kind, &[Words("radio")]);
    out.value(Attr::Name, &[Words(name)]);
    out.value(Attr::Class, class);
    out.value(Attr::Id, id);
}

/// Adds the words of the buttons: arrows to the rounds before and after, each round below a band
/// with its phase, and each earlier round to compare with.
pub(crate) fn put_words_of_buttons(out: &mut Writer, replayed: &Replayed) {
    if replayed.rounds.is_empty() {
        return;
    }
    out.begin_as(Tag::Nav, "rounds");
    out.value(Attr::Label, &[Words("Rounds")]);
    put_arrows(out, replayed);
    put_strip(out, replayed);
    out.end();
    if replayed.last() > 0 {
        put_bases(out, replayed);
    }
}

/// Adds, for each round, the arrows to the rounds before and after it.
fn put_arrows(out: &mut Writer, replayed: &Replayed) {
    let rounds = replayed.rounds.as_slice();
    out.begin_as(Tag::Division, "step");
    for number in 0..rounds.len() {
        begin_lasting(out, Tag::Division, number, number, replayed.last());
        let before = number.checked_sub(1).and_then(|before| rounds.get(before));
        put_arrow(out, before, "&#9664; ", "");
        put_arrow(out, rounds.get(number.saturating_add(1)), "", " &#9654;");
        out.end();
    }
    out.end();
}

/// Adds an arrow to a round, with its name; an empty place if there is no such round.
fn put_arrow(out: &mut Writer, round: Option<&Round>, before: &'static str, behind: &'static str) {
    match round {
        Some(round) => {
            out.begin_as(Tag::InputLabel, "go");
            out.value(Attr::For, &[Named(*round)]);
            out.within();
            out.put(&[Words(before), Named(*round), Words(behind)]);
        }
        None => out.begin_as(Tag::Span, "go"),
    }
    out.end();
}

/// The class of the band of each phase, which has the colour of its latest tiles.
const BANDS: PerKind<&str> = ["py", "pg", "pg", "pb", "pb", "pb"];

/// Adds each round below the band of its phase. The first one of a phase names it.
fn put_strip(out: &mut Writer, replayed: &Replayed) {
    out.begin_as(Tag::Division, "strip");
    let mut before = None;
    for (number, (round, phase)) in replayed.rounds.iter().zip(&replayed.phases).enumerate() {
        out.begin(Tag::InputLabel);
        out.value(Attr::Class, &[Words("r"), Count(number)]);
        out.value(Attr::For, &[Named(*round)]);
        out.begin_as(Tag::Small, BANDS[phase.index()]);
        out.within();
        if before != Some(*phase) {
            out.put(&[Words("phase "), Words(phase.code())]);
        }
        out.end();
        out.put(&[Named(*round)]);
        out.end();
        before = Some(*phase);
    }
    out.begin_as(Tag::InputLabel, "adr");
    out.value(Attr::For, &[Words("now")]);
    out.within();
    out.put(&[Words("Address")]);
    out.end();
    out.end();
}

/// Adds the words of the buttons that compare with an earlier round.
fn put_bases(out: &mut Writer, replayed: &Replayed) {
    let last = replayed.last();
    out.begin_as(Tag::Nav, "with");
    out.value(Attr::Label, &[Words("Compare with")]);
    out.within();
    out.put(&[Words("Compare with ")]);
    out.begin(Tag::InputLabel);
    out.value(Attr::For, &[Words("with")]);
    out.within();
    out.put(&[Words("no round")]);
    out.end();
    for (number, round) in replayed.rounds.iter().enumerate() {
        if number < last {
            begin_lasting(out, Tag::InputLabel, number.saturating_add(1), last, last);
            out.value(Attr::For, &[Words("c"), Count(number)]);
            out.within();
            out.put(&[Named(*round)]);
            out.end();
        }
    }
    out.end();
}
