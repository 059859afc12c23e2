//! Who leads, as a table, and what the last round began.

use crate::panel::Panel;
use desk_cells::Leader;
use history::Event;
use markup::PagePiece::{Count, Name, Number, Words};
use markup::{Attr, Tag, Writer, begin_row, begin_table, put_caption, put_row_head};
use tables::{Kind, Money, rusts};

/// Adds the players by worth, with the change since the last round, a bar, and the margin.
pub(crate) fn put_leaders(out: &mut Writer, panel: &Panel, rows: &[Leader]) {
    begin_table(out, "leaders", "");
    put_caption(
        out,
        "Who leads",
        "(worth, and its change in the last round)",
    );
    out.begin(Tag::TableBody);
    let [first, ..] = rows else {
        out.end();
        out.end();
        return;
    };
    for row in rows {
        begin_row(out, "");
        put_ranked(out, row.rank, panel.scene.name(row.seat));
        out.begin_as(Tag::Cell, "num");
        out.element(Tag::Bold, &[Number(row.worth)]);
        out.end();
        put_change(out, row.worth.saturating_sub(row.before));
        put_bar(out, row.worth, first.worth);
        put_margin(out, row, first, rows);
        out.end();
    }
    out.end();
    out.end();
}

/// Adds the heading of a player's row: their rank and their name.
fn put_ranked(out: &mut Writer, rank: usize, name: &[u8]) {
    put_row_head(out, &[Count(rank), Words(" "), Name(name)]);
}

/// Adds a cell with a change.
fn put_change(out: &mut Writer, change: Money) {
    if change > 0 {
        out.element_as(Tag::Cell, "num up", &[Words("+"), Number(change)]);
    } else if change < 0 {
        let fall = Number(change.saturating_neg());
        out.element_as(Tag::Cell, "num dn", &[Words("&#8722;"), fall]);
    } else {
        out.element_as(Tag::Cell, "num", &[Words("&#177;0")]);
    }
}

/// Adds a cell with a bar as long as a worth beside the greatest.
fn put_bar(out: &mut Writer, worth: Money, most: Money) {
    let percent = if worth > 0 && most > 0 {
        worth.saturating_mul(100) / most
    } else {
        0
    };
    out.begin(Tag::Cell);
    out.begin_as(Tag::Svg, "bar");
    out.value(Attr::ViewBox, &[Words("0 0 100 12")]);
    out.value(Attr::Hidden, &[Words("true")]);
    out.path("len", &[Words("M0 0H"), Number(percent), Words("V12H0z")]);
    out.end();
    out.end();
}

/// Adds a cell with how far the first is ahead of the second, and how far each other is behind.
fn put_margin(out: &mut Writer, row: &Leader, first: &Leader, rows: &[Leader]) {
    let second = rows.get(1).map_or(first.worth, |second| second.worth);
    let (words, margin) = if row.seat == first.seat {
        ("leads by ", first.worth.saturating_sub(second))
    } else {
        ("behind by ", first.worth.saturating_sub(row.worth))
    };
    if margin == 0 {
        out.element_as(Tag::Cell, "num", &[Words("level")]);
    } else {
        out.element_as(Tag::Cell, "num", &[Words(words), Number(margin)]);
    }
}

/// Adds which phases began by the events of a round, and what rusted.
pub(crate) fn put_begun(out: &mut Writer, events: &[Event]) {
    for event in events {
        if let Some(phase) = event.phase() {
            out.begin_as(Tag::Paragraph, "why");
            out.within();
            out.put(&[Words("Phase "), Words(phase.code()), Words(" began")]);
            for &kind in &Kind::ALL {
                if rusts(kind) == Some(phase) {
                    out.put(&[Words(": every "), Words(kind.code()), Words(" rusted")]);
                }
            }
            out.put(&[Words(".")]);
            out.end();
        }
    }
}
