//! What falls due for a company: a train that it must buy, and trains that rust.

use crate::panel::Panel;
use crate::runner_rows::{Must, must_of};
use desk_cells::CompanyRow;
use desk_dues::Danger;
use forced_purchase::Operator;
use history::TrainSeller;
use markup::PagePiece::{Name, Number, Words};
use markup::{Tag, Writer};
use tables::{Money, Seat};

/// Adds a cell with what falls due for a company: whether it must buy a train, and whether it is
/// the first that must; and what rusts. What those after the first pay depends on what it buys.
pub(crate) fn put_dues(
    out: &mut Writer,
    panel: &Panel,
    row: &CompanyRow,
    due: (bool, bool),
    danger: Option<Danger>,
) {
    out.begin_as(Tag::Cell, "due");
    out.within();
    if let (true, Some(president)) = (due.0, row.president) {
        if due.1 {
            let company = row.company;
            let must = must_of(panel.scene.history, Operator { company, president });
            put_must(out, panel, president, &must);
        } else {
            out.element(Tag::Bold, &[Words("must buy a train")]);
        }
    }
    if let Some(danger) = danger {
        put_danger(out, panel, &danger);
    }
    out.end();
}

/// Adds the train that a company must buy, and what its president pays.
fn put_must(out: &mut Writer, panel: &Panel, president: Seat, must: &Must) {
    let from = match must.from {
        TrainSeller::BankPool => " of the pool for ",
        TrainSeller::Bank | TrainSeller::Company(_) => " for ",
    };
    let price = Number(Money::from(must.price));
    let kind = Words(must.kind.code());
    out.element(Tag::Bold, &[Words("must buy a "), kind, Words(from), price]);
    put_aid(
        out,
        panel,
        president,
        must.lacking,
        must.free,
        Money::from(must.raised),
    );
}

/// Adds which trains of a company rust, and what it would pay for another.
fn put_danger(out: &mut Writer, panel: &Panel, danger: &Danger) {
    let plural = if danger.trains == 1 { "" } else { "s" };
    let verb = if danger.trains == 1 {
        " rusts"
    } else {
        " rust"
    };
    out.element(
        Tag::Bold,
        &[
            Words(danger.kind.code()),
            Words(plural),
            Words(verb),
            Words(" with the first "),
            Words(danger.falls_with.code()),
        ],
    );
    out.put(&[
        Words(": then a "),
        Words(danger.buys.code()),
        Words(" for "),
        Number(Money::from(danger.price)),
    ]);
    put_aid(
        out,
        panel,
        danger.president,
        danger.lacking,
        danger.presidents_cash,
        danger.raised,
    );
}

/// Adds what a president pays that a company lacks, if it lacks something: what they have free of
/// bids, what they sell for, or that they would be bankrupt.
fn put_aid(
    out: &mut Writer,
    panel: &Panel,
    president: Seat,
    lacking: Money,
    free: Money,
    raised: Money,
) {
    if lacking <= 0 {
        return;
    }
    out.put(&[
        Words(", "),
        Name(panel.scene.name(president)),
        Words(" adds "),
        Number(lacking),
        Words(", has "),
        Number(free),
    ]);
    let missing = lacking.saturating_sub(free);
    if missing > raised {
        out.put(&[Words(", can raise "), Number(raised), Words(", ")]);
        out.element(Tag::Bold, &[Words("and would be bankrupt")]);
    } else if missing > 0 {
        out.put(&[Words(", ")]);
        out.element(Tag::Bold, &[Words("sells for "), Number(missing)]);
    }
}
