//! What is said of an order that broke a rule: of a rule with several alternatives what is the
//! case.
ghost use Rattle.std.specs.Prelude.{◌≡◌, IfSome, true};
ghost use Rattle.desk_why.specs.Case.{has_alternatives, names_alternatives};

use desk_base::Piece::{Bytes, Words};
use desk_base::{Reason, fill};
use history::{PayRule, Refusal, StockRule, TrainRule};
use map_tables::{LayRule, RunRule, TokenRule};
use std::alloc::AllocError;

/// How a detail begins that says what to write, and not what is the case.
const REMEDY: &[u8] = b"write ";

/// Adds a reason: its code with its sentence and the detail, or only what is the case if the detail
/// says that of a rule with alternatives. Fails only if allocation fails.
pub fn push_case(out: &mut Vec<u8>, reason: Reason, detail: &[u8]) -> Result<(), AllocError> {
    let code = Words(reason.code());
    let case = case_in(reason, detail);
    if let Some(case) = case
        && !case.starts_with(REMEDY)
    {
        return fill(out, "%: %", &[code, Bytes(case)]);
    }
    // If the case is known, and is a remedy, the line names no stop where one has to be named.
    let sentence = match (case, reason) {
        (Some(_), Reason::Order(Refusal::Token(TokenRule::NoFreeSlot))) => {
            "it is not at a stop of a city"
        }
        (Some(_), Reason::Order(Refusal::Run(RunRule::NoTrack))) => "an end is not a stop",
        _ => reason.sentence(),
    };
    fill(out, "%: %", &[code, Words(sentence)])?;
    out.extend_from_slice(detail)
}

/// Returns what is the case by the detail, without the signs that part it from a sentence; `None`
/// if the reason is not a rule with alternatives, or there is no detail.
fn case_in(reason: Reason, detail: &[u8]) -> Option<&[u8]>
    ensures { IfSome result (λ _. names_alternatives reason ≡ true) }
{
    if !names_alternatives(reason) {
        return None;
    }
    if let Some(rest) = detail.strip_prefix(b"; ") {
        return Some(rest);
    }
    detail.strip_prefix(b" (")?.strip_suffix(b")")
}

/// Returns whether a reason is a rule with alternatives.
fn names_alternatives(reason: Reason) -> bool
    ensures { result ≡ names_alternatives reason }
{
    match reason {
        Reason::Order(rule) => has_alternatives(rule),
        Reason::File(_) | Reason::Line(_) => false,
    }
}

/// Returns whether the sentence of a rule names several alternatives, of which the detail of a line
/// says which is the case.
fn has_alternatives(rule: Refusal) -> bool
    ensures { result ≡ has_alternatives rule }
{
    match rule {
        Refusal::Stock(StockRule::WrongStart | StockRule::NoExchange) => true,
        Refusal::Lay(LayRule::WrongTile) => true,
        Refusal::Token(TokenRule::NoFreeSlot) => true,
        Refusal::Run(RunRule::NoTrain | RunRule::NoTrack) => true,
        Refusal::Pay(PayRule::NothingToPay) => true,
        Refusal::Train(TrainRule::NoConsent) => true,
        _ => false,
    }
}
