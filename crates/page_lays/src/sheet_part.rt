//! The box for a sheet, at the foot of the page, with the script that fills it.

use crate::may::May;
use markup::PagePiece::{Name, Words};
use markup::{Attr, PagePiece, Tag, Writer, begin_plain_section};
use page_map::Scene;
use tables::Round;

/// Adds who one is, the box, what is below it, and the script: a button that copies the sheet, in a
/// round of turns one that begins the next turn, and what the script says.
pub(crate) fn put_sheet(out: &mut Writer, scene: &Scene, may: &May) {
    begin_plain_section(out, "sheet", "Sheet");
    put_who(out, scene, may);
    out.begin(Tag::TextArea);
    out.value(Attr::Label, &[Words("Your sheet, to copy")]);
    out.end();
    out.begin_as(Tag::Paragraph, "rest");
    out.within();
    put_button(out, Words("copy"), Words("Copy"));
    match may.round {
        Round::Operating { .. } => {}
        Round::Opening(_) | Round::Stock(_) => put_button(out, Words("turn"), Words("Next turn")),
    }
    out.begin_as(Tag::Span, "said");
    out.value(Attr::Role, &[Words("status")]);
    out.end();
    out.begin_as(Tag::Span, "norun");
    out.end();
    out.end();
    out.end();
    out.script();
}

/// Adds a button for each player.
fn put_who(out: &mut Writer, scene: &Scene, may: &May) {
    out.begin_as(Tag::Paragraph, "who");
    out.value(Attr::Role, &[Words("group")]);
    out.value(Attr::Label, &[Words("Who you are")]);
    out.within();
    out.put(&[Words("I am ")]);
    for player in &may.players {
        let name = Name(scene.name(player.seat));
        put_button(out, name, name);
    }
    out.end();
}

/// Adds a button with a name.
fn put_button(out: &mut Writer, name: PagePiece, words: PagePiece) {
    out.begin(Tag::Button);
    out.value(Attr::Name, &[name]);
    out.within();
    out.put(&[words]);
    out.end();
    out.put(&[Words(" ")]);
}
