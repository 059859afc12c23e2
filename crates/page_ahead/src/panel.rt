//! The panel: by when to send a sheet, who leads, and who runs next or what is for sale.

use crate::leaders_part::{put_begun, put_leaders};
use crate::runner_rows::rows_ahead;
use crate::runners_part::put_runners;
use crate::sale_part::{put_certificates, put_privates_for_sale, put_shares_for_sale};
use desk_base::view_behind;
use desk_cells::{before_round, leaders, player_rows};
use history::Walk;
use markup::PagePiece::{Name, Round as Named, Words};
use markup::{Tag, Writer, begin_plain_section};
use page_map::Scene;
use std::alloc::{AllocError, Global};
use tables::{Round, Seat};

/// What a panel shows: a game before a round.
#[derive(Clone, Copy)]
pub struct Panel<'a> {
    pub scene: &'a Scene<'a>,
    /// The round that comes next.
    pub round: Round,
    /// When sheets are due, in the umpire's words; empty if they did not say.
    pub due: &'a [u8],
}

/// Adds the panel. Fails only if allocation fails.
pub fn put_panel(alloc: Global, out: &mut Writer, panel: &Panel) -> Result<(), AllocError> {
    begin_plain_section(out, "ahead", "This evening");
    put_bar(out, panel);
    out.begin(Tag::Division);
    put_players(alloc, out, panel)?;
    out.end();
    out.begin(Tag::Division);
    let rows = rows_ahead(alloc, panel.scene.history, panel.round)?;
    match panel.round {
        Round::Operating { .. } => put_runners(alloc, out, panel, rows.as_slice())?,
        Round::Opening(_) => put_privates_for_sale(out, panel, rows.as_slice()),
        Round::Stock(_) => put_shares_for_sale(out, panel, rows.as_slice()),
    }
    out.end();
    out.end();
    Ok(())
}

/// Adds who leads, what the last round began, and who may still buy in the next. Fails only if
/// allocation fails.
fn put_players(alloc: Global, out: &mut Writer, panel: &Panel) -> Result<(), AllocError> {
    let Scene { history, seats, .. } = *panel.scene;
    let events = history.events();
    let begun = before_round(events);
    let mut walk = Walk::along(events);
    let before = view_behind(&mut walk, begun, history.seats());
    put_leaders(out, panel, leaders(alloc, history, seats)?.as_slice());
    put_begun(out, events.get(begun..).unwrap_or(&[]));
    if !matches!(panel.round, Round::Operating { .. }) {
        let rows = player_rows(alloc, history, &before, seats)?;
        put_certificates(out, panel, rows.as_slice());
    }
    Ok(())
}

/// Adds the bar: for which round to send a sheet, by when, and who owes one, or that the round is
/// played; and who has priority.
fn put_bar(out: &mut Writer, panel: &Panel) {
    out.begin_as(Tag::Paragraph, "send");
    if panel.scene.owe.contains(&true) {
        put_awaited(out, panel);
    } else {
        out.begin(Tag::Span);
        out.within();
        out.put(&[Words("Next is ")]);
        out.element(Tag::Bold, &[Named(panel.round)]);
        out.put(&[Words(", which is played")]);
        out.end();
    }
    out.begin(Tag::Span);
    out.within();
    out.put(&[Words("priority ")]);
    let priority = panel.scene.history.now().priority();
    out.element(Tag::Bold, &[Name(panel.scene.name(priority))]);
    out.end();
    out.end();
}

/// Adds for which round to send a sheet, by when, and who owes one.
fn put_awaited(out: &mut Writer, panel: &Panel) {
    out.begin(Tag::Span);
    out.within();
    out.put(&[Words("Send your sheet for ")]);
    out.element(Tag::Bold, &[Named(panel.round)]);
    out.end();
    if !panel.due.is_empty() {
        out.begin(Tag::Span);
        out.within();
        out.put(&[Words("by ")]);
        out.begin(Tag::Bold);
        out.text(panel.due);
        out.end();
        out.end();
    }
    out.begin(Tag::Span);
    out.within();
    let mut is_first = true;
    for number in 0..panel.scene.seats {
        if panel.scene.owe.get(number) == Some(&true) {
            out.put(&[Words(if is_first { "owed by " } else { ", " })]);
            out.element(Tag::Bold, &[Name(panel.scene.name(Seat::at(number)))]);
            is_first = false;
        }
    }
    out.end();
}
