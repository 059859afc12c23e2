//! What a company may do in its turn, step by step: lay, token, run, dividend, trains, privates.

use crate::company_turns::Turn;
use crate::groups::{Block, Of, begin_group, put_button, put_gain, put_group, put_label};
use crate::move_rows::MoveKind;
use map_tables::Hex;
use markup::PagePiece::{Hex as Hexed, Name, Number, Words};
use markup::{Attr, Tag, Writer};
use order_grammar::PlayOrder;
use std::alloc::{AllocError, Global};
use tables::{Amount, Company, Money};

/// What the page says of a company that must buy a train.
const MUST_BUY: &str =
    " must buy a train at the end of its turn if it buys none before. `desk may` \
    shows what it costs, and what its president may sell for it.";

/// Adds what a company may do in its turn, below what happens before its orders. Fails only if
/// allocation fails.
pub(crate) fn put_company(
    alloc: Global,
    out: &mut Writer,
    of: Of,
    turn: &Turn,
) -> Result<(), AllocError> {
    let (code, block) = (turn.by.company.code(), Block::Company(turn.by.company));
    out.begin_as(Tag::Division, "of");
    put_label(out, of, Block::Sheet);
    let president = Name(of.scene.name(of.seat));
    out.element(Tag::H3, &[Words(code), Words(" of "), president]);
    out.begin_as(Tag::Preformatted, "told");
    out.text(turn.head.before.as_slice());
    out.end();
    put_hexes_of(out, turn, MoveKind::Lays, "Lay");
    put_hexes_of(out, turn, MoveKind::Tokens, "Token");
    if let Some(revenue) = turn.map.now {
        put_earnings(alloc, out, of, turn, revenue)?;
    }
    put_group(alloc, out, of, block, "Train", turn.trains.as_slice())?;
    if turn.must_buy {
        out.element_as(Tag::Paragraph, "must", &[Words(code), Words(MUST_BUY)]);
    }
    let privates = turn.head.privates.as_slice();
    put_group(alloc, out, of, block, "Private", privates)?;
    out.end();
    Ok(())
}

/// Adds links to the hexes where a company may lay, or place a token, each with how much more its
/// best runs earn.
fn put_hexes_of(out: &mut Writer, turn: &Turn, kind: MoveKind, what: &'static str) {
    if !turn.map.lines.iter().any(|line| line.row.what.is_of(kind)) {
        return;
    }
    out.begin_as(Tag::Paragraph, "to");
    out.within();
    out.element(Tag::Bold, &[Words(what)]);
    for &hex in &Hex::ALL {
        if let Some(gain) = turn.map.gain_on(hex, kind) {
            out.put(&[Words(" ")]);
            out.begin(Tag::Anchor);
            out.value(Attr::Href, &[Words("#hex-"), Hexed(hex)]);
            out.within();
            out.put(&[Hexed(hex)]);
            put_gain(out, gain);
            out.end();
        }
    }
    out.end();
}

/// Adds RUN BEST, PAY and WITHHOLD, with what each brings, or that the company has no train.
fn put_earnings(
    alloc: Global,
    out: &mut Writer,
    of: Of,
    turn: &Turn,
    revenue: Money,
) -> Result<(), AllocError> {
    let (company, earned) = (turn.by.company, turn.earned);
    if !earned.has_trains {
        let none = [Words(company.code()), Words(" has no train to run.")];
        out.element(Tag::Paragraph, &none);
        return Ok(());
    }
    begin_group(out, of, Block::Company(company), "Run");
    begin_earning(alloc, out, PlayOrder::RunBest)?;
    out.put(&[Words(" $"), Number(revenue)]);
    out.end();
    put_no_run(out, company);
    out.end();
    begin_group(out, of, Block::Company(company), "Dividend");
    let each = revenue / 10;
    if each > 0 {
        begin_earning(alloc, out, PlayOrder::Pay)?;
        put_paid(out, of, turn, each);
        put_prices(out, earned.prices.map(|prices| (prices.now, prices.paid)));
        out.end();
    }
    begin_earning(alloc, out, PlayOrder::Withhold)?;
    let kept = [
        Words(" "),
        Words(company.code()),
        Words(" $"),
        Number(revenue),
    ];
    out.put(&kept);
    put_prices(out, earned.prices.map(|prices| (prices.now, prices.kept)));
    out.end();
    out.end();
    Ok(())
}

/// Adds that a company without a RUN earns nothing, which is shown until it has one.
fn put_no_run(out: &mut Writer, company: Company) {
    out.put(&[Words(" ")]);
    let none = [
        Words(company.code()),
        Words(" has no RUN: it earns nothing"),
    ];
    out.element_as(Tag::Span, "norun", &none);
}

/// Adds what PAY brings a share, the president and the company.
fn put_paid(out: &mut Writer, of: Of, turn: &Turn, each: Money) {
    let led = each.saturating_mul(turn.earned.led);
    let pooled = each.saturating_mul(turn.earned.pooled);
    put_president(out, each, of.scene.name(of.seat), led);
    put_treasury(out, turn.by.company, pooled);
}

/// Adds what PAY brings a share, and the president of this name.
fn put_president(out: &mut Writer, each: Money, name: &[u8], sum: Money) {
    out.put(&[
        Words(" $"),
        Number(each),
        Words(" a share: "),
        Name(name),
        Words(" $"),
        Number(sum),
        Words(", "),
    ]);
}

/// Adds what an order brings a company.
fn put_treasury(out: &mut Writer, company: Company, sum: Money) {
    out.put(&[Words(company.code()), Words(" $"), Number(sum)]);
}

/// Begins an order with what it brings.
fn begin_earning(alloc: Global, out: &mut Writer, order: PlayOrder) -> Result<(), AllocError> {
    out.put(&[Words(" ")]);
    out.begin(Tag::Span);
    put_button(alloc, out, order)
}

/// Adds the price of a share before an order and after it, if its token is on the chart.
fn put_prices(out: &mut Writer, prices: Option<(Amount, Amount)>) {
    if let Some((now, then)) = prices {
        out.put(&[Words("; price $"), Number(Money::from(now))]);
        out.put(&[Words(" to $"), Number(Money::from(then))]);
    }
}
