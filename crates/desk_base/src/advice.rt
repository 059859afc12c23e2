//! What the writer of a refused file or line may do, and the small game that shows its rule: by the
//! row of the rule.

use crate::reason::Reason;
use history::Refusal;
use tables::Advice;

/// What may be done if a condition does not hold.
const CONDITION: Advice = Advice {
    to_do: "nothing, if that was intended; otherwise look at what the report says above that line: \
        the price of the token's square at that time, not the par; PHASE and FLOATED lines; a \
        company that is not started has no price",
    game: Some("I1-PRICE-in-a-stock-round"),
};

/// Returns what may be done where a file or a line is refused for this reason.
pub(crate) fn advice_on(reason: Reason) -> Advice {
    match reason {
        Reason::File(fault) => fault.row().advice,
        Reason::Line(fault) => fault.row().advice,
        Reason::Order(refusal) => advice_on_order(refusal),
    }
}

/// Returns what may be done where an order is refused.
fn advice_on_order(refusal: Refusal) -> Advice {
    match refusal {
        Refusal::Opening(rule) => rule.row().advice,
        Refusal::Stock(rule) => rule.row().advice,
        Refusal::Lay(rule) => rule.row().advice,
        Refusal::Token(rule) => rule.row().advice,
        Refusal::Run(rule) => rule.row().advice,
        Refusal::Pay(rule) => rule.row().advice,
        Refusal::Train(rule) => rule.row().advice,
        Refusal::Private(rule) => rule.row().advice,
        Refusal::Condition => CONDITION,
    }
}
