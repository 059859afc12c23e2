//! Groups of lines on the page. The label of a group names the lines of a sheet above its own.

use crate::company_turns::Turn;
use crate::move_lines::Line;
use crate::move_rows::Move;
use crate::offers::is_allowed;
use crate::pictures::put_picture;
use markup::PagePiece::{Name, Number, Round as Named, Words};
use markup::{Attr, Tag, Writer};
use moves::{Answer, Row};
use order_grammar::{PlayOrder, print_play_order};
use page_map::Scene;
use std::alloc::{AllocError, Global};
use tables::{Company, Money, Round, Seat};

/// A block of lines in a sheet.
#[derive(Clone, Copy)]
pub(crate) enum Block {
    /// Below its SHEET line.
    Sheet,
    /// Below TURN.
    Turn,
    /// Below the COMPANY line of this one.
    Company(Company),
}

/// A sheet: whose it is, and for which round.
#[derive(Clone, Copy)]
pub(crate) struct Of<'p, 's, 'n> {
    pub(crate) scene: &'s Scene<'n>,
    pub(crate) seat: Seat,
    pub(crate) round: Round,
    /// Who presides over each company at the start of the round, in roster order.
    pub(crate) presidents: &'p [Option<Seat>],
}

/// Adds to an element that it is a group, and as its label the lines of a sheet above its lines.
pub(crate) fn put_label(out: &mut Writer, of: Of, block: Block) {
    out.value(Attr::Role, &[Words("group")]);
    let name = Name(of.scene.name(of.seat));
    out.value(
        Attr::Label,
        &[Words("SHEET "), name, Words(" "), Named(of.round)],
    );
    match block {
        Block::Sheet => {}
        Block::Turn => out.put(&[Words(" / TURN")]),
        Block::Company(company) => out.put(&[Words(" / COMPANY "), Words(company.code())]),
    }
    out.within();
}

/// Begins a group of lines, with what they are.
pub(crate) fn begin_group(out: &mut Writer, of: Of, block: Block, what: &'static str) {
    out.begin_as(Tag::Paragraph, "do");
    put_label(out, of, block);
    out.element(Tag::Bold, &[Words(what)]);
}

/// Adds a lay or a token: its order as a button, its price, and by how much it raises the revenue
/// of the best runs. Fails only if allocation fails.
pub(crate) fn put_move(
    alloc: Global,
    out: &mut Writer,
    turn: &Turn,
    line: &Line,
) -> Result<(), AllocError> {
    let text = line.row.what.text(alloc)?;
    out.put(&[Words(" ")]);
    out.begin(Tag::Span);
    out.begin(Tag::Button);
    if let Move::Lay(lay) = line.row.what {
        put_picture(out, lay);
    }
    out.text(text.as_slice());
    out.end();
    out.put(&[Words(" $"), Number(line.row.price)]);
    put_gain(out, turn.map.gain_of(line));
    out.end();
    Ok(())
}

/// Adds by how much the best runs earn more, if they do.
pub(crate) fn put_gain(out: &mut Writer, gain: Money) {
    if gain > 0 {
        out.put(&[Words(" +$"), Number(gain)]);
    }
}

/// Adds the rows that no rule refuses as a group, if there are any. Fails only if allocation fails.
pub(crate) fn put_group(
    alloc: Global,
    out: &mut Writer,
    of: Of,
    block: Block,
    what: &'static str,
    rows: &[Row],
) -> Result<(), AllocError> {
    if !rows.iter().any(|row| is_allowed(of.presidents, row.answer)) {
        return Ok(());
    }
    begin_group(out, of, block, what);
    for row in rows {
        if is_allowed(of.presidents, row.answer) {
            put_row(alloc, out, of, row)?;
        }
    }
    out.end();
    Ok(())
}

/// Adds a row as a button, with its price or what it brings, and the offer that it needs.
fn put_row(alloc: Global, out: &mut Writer, of: Of, row: &Row) -> Result<(), AllocError> {
    let (price, needed) = match row.answer {
        Answer::Obeyed { price } => (price, None),
        Answer::WithConsent {
            price,
            giver,
            offer,
        } => (price, Some((giver, offer))),
        Answer::Refused(_) => return Ok(()),
    };
    out.put(&[Words(" ")]);
    out.begin(Tag::Span);
    put_button(alloc, out, row.order)?;
    if let PlayOrder::Sell { .. } = row.order {
        out.put(&[Words(" brings")]);
    }
    out.put(&[Words(" $"), Number(price)]);
    if let Some((giver, offer)) = needed {
        let mut text = Vec::new(alloc);
        print_play_order(&mut text, PlayOrder::Offer(offer))?;
        out.put(&[Words(" (if "), Name(of.scene.name(giver)), Words(" has ")]);
        out.text(text.as_slice());
        out.put(&[Words(")")]);
    }
    out.end();
    Ok(())
}

/// Adds an order as a button. Fails only if allocation fails.
pub(crate) fn put_button(
    alloc: Global,
    out: &mut Writer,
    order: PlayOrder,
) -> Result<(), AllocError> {
    let mut text = Vec::new(alloc);
    print_play_order(&mut text, order)?;
    out.begin(Tag::Button);
    out.text(text.as_slice());
    out.end();
    Ok(())
}
