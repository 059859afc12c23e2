//! The phases, each with its limits and effects.
ghost use Rattle.std.specs.Prelude.{◌≡◌};
ghost use Rattle.page.specs.Phases.{colours_of};

use history::History;
use markup::PagePiece::{Count, Number, Words};
use markup::{Tag, Writer, begin_row, begin_table, put_caption, put_head, put_row_head};
use tables::{Kind, Money, limit, rounds_in_set, rusts, same_kind};

/// Returns the colours of the tiles that may be laid in a phase.
pub fn colours_of(phase: Kind) -> &'static str
    ensures { result.now ≡ colours_of phase }
{
    match phase {
        Kind::Two => "yellow",
        Kind::Three | Kind::Four => "yellow, green",
        Kind::Five | Kind::Six | Kind::Diesel => "yellow, green, brown",
    }
}

/// Adds the phases, with a mark at that of the game.
pub(crate) fn put_phases(out: &mut Writer, history: &History) {
    begin_table(out, "phases", "");
    put_caption(
        out,
        "Phases",
        "(each begins with the first train of its kind; &#9654; now)",
    );
    put_head(
        out,
        &[
            "Phase",
            "Tiles",
            "#Trains of a company",
            "#Operating rounds",
            "Rusts",
            "Also",
        ],
    );
    out.begin(Tag::TableBody);
    for &phase in &Kind::ALL {
        put_phase(out, phase, same_kind(phase, history.phase()));
    }
    out.end();
    out.end();
}

/// Adds the row of a phase.
fn put_phase(out: &mut Writer, phase: Kind, is_now: bool) {
    begin_row(out, if is_now { "sum" } else { "" });
    let mark = if is_now { " &#9654;" } else { "" };
    put_row_head(out, &[Words(phase.code()), Words(mark)]);
    out.element(Tag::Cell, &[Words(colours_of(phase))]);
    out.element_as(Tag::Cell, "num", &[Count(limit(phase))]);
    let rounds = Money::from(rounds_in_set(phase));
    out.element_as(Tag::Cell, "num", &[Number(rounds)]);
    put_rusting(out, phase);
    let also = match phase {
        Kind::Three => "companies may buy privates",
        Kind::Five => "all privates close",
        Kind::Six => "a D may be bought",
        _ => "",
    };
    out.element(Tag::Cell, &[Words(also)]);
    out.end();
}

/// Adds a cell with the trains that rust as a phase begins.
fn put_rusting(out: &mut Writer, phase: Kind) {
    out.begin(Tag::Cell);
    out.within();
    for &kind in &Kind::ALL {
        if let Some(by) = rusts(kind) {
            if same_kind(by, phase) {
                out.put(&[Words("all "), Words(kind.code())]);
            }
        }
    }
    out.end();
}
