//! Why a line was refused: the rule that it broke, and the figures that the rule compared.
ghost use Rattle.std.specs.Prelude.{◌≡◌, None, OnOk};
ghost use Rattle.desk_why.specs.Why.{reason_of};
ghost use Rattle.events.specs.RulingText.{verdict_of};

use crate::case::push_case;
use crate::refusal_detail::{Broken, Ruled, push_of_place, push_refusal_detail};
use crate::sheet_line::{SheetLine, find_line};
use desk_base::Piece::{Cut, Words};
use desk_base::{Reason, fill};
use hints::{Faulty, push_hint, sentence_of};
use history::{PackedRuling, Ruling, Verdict};
use order_grammar::Fault;
use std::alloc::{AllocError, Global};

/// How many columns of a line with a fault are shown.
pub const FAULTY_COLUMNS: usize = 60;

/// Adds a line with the rule that a line of a sheet broke: two spaces, and what `push_rule` adds.
/// Adds nothing if the line was obeyed. Fails only if allocation fails.
pub fn push_why<'a>(
    alloc: Global,
    out: &mut Vec<u8>,
    ruled: Ruled<'a>,
    number: u32,
    ruling: &PackedRuling,
) -> Result<(), AllocError>
    ensures { reason_of (verdict_of ruling.now) ≡ None → OnOk result (out.new ≡ out.old) }
{
    if reason_of(ruling.verdict()).is_none() {
        return Ok(());
    }
    fill(out, "  ", &[])?;
    push_rule(alloc, out, ruled, number, ruling)?;
    fill(out, "\n", &[])
}

/// Adds the rule that a line of a sheet broke, with its code and the figures that it compared;
/// nothing if it was obeyed. Fails only if allocation fails.
pub fn push_rule<'a>(
    alloc: Global,
    out: &mut Vec<u8>,
    ruled: Ruled<'a>,
    number: u32,
    ruling: &PackedRuling,
) -> Result<(), AllocError>
    ensures { reason_of (verdict_of ruling.now) ≡ None → OnOk result (out.new ≡ out.old) }
{
    let Some(reason) = reason_of(ruling.verdict()) else {
        return Ok(());
    };
    let line = find_line(ruled.lines, ruled.seat, number);
    if let (Verdict::Faulty(fault), Some(line)) = (ruling.verdict(), line) {
        return push_fault(out, ruled, &line, fault);
    }
    let ruling = ruling.ruling();
    match &ruling {
        Ruling::Refused {
            rule,
            condition,
            order,
        } => {
            let broken = Broken {
                rule: *rule,
                condition: *condition,
                order,
            };
            push_broken(alloc, out, ruled, number, broken)
        }
        _ => push_case(out, reason, &[]),
    }
}

/// Adds a rule that the order of a line of a sheet breaks, with its code and the figures that the
/// rule compares. Fails only if allocation fails.
pub fn push_broken<'a>(
    alloc: Global,
    out: &mut Vec<u8>,
    ruled: Ruled<'a>,
    number: u32,
    broken: Broken<'a>,
) -> Result<(), AllocError> {
    let place = find_line(ruled.lines, ruled.seat, number).map(|line| line.place);
    let mut detail = Vec::new(alloc);
    push_refusal_detail(alloc, &mut detail, Ruled { place, ..ruled }, broken)?;
    push_case(out, Reason::Order(broken.rule), detail.as_slice())
}

/// Adds the fault of a line of a sheet, with its code, the line itself, and what to write in its
/// place if that is known.
fn push_fault(
    out: &mut Vec<u8>,
    ruled: Ruled,
    line: &SheetLine,
    fault: Fault,
) -> Result<(), AllocError> {
    let (code, rule) = (Words(fault.code()), Words(sentence_of(line.text, fault)));
    fill(
        out,
        "%: %: %",
        &[code, rule, Cut(line.text, FAULTY_COLUMNS)],
    )?;
    push_of_place(out, ruled.round, line, fault)?;
    let faulty = Faulty {
        version: ruled.sheets.version(),
        line: line.text,
        above: (line.number() as usize).saturating_sub(1),
        fault,
        players: &[],
    };
    push_hint(out, faulty)
}

/// Returns the reason why a line was refused, which has its code; `None` if it was obeyed.
fn reason_of(verdict: Verdict) -> Option<Reason>
    ensures { result ≡ reason_of verdict }
{
    match verdict {
        Verdict::Obeyed => None,
        Verdict::Faulty(fault) => Some(Reason::Line(fault)),
        Verdict::Refused(rule) => Some(Reason::Order(rule)),
    }
}
