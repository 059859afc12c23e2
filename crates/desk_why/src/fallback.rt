//! Lines that are not needed, because an earlier line for the same purpose was obeyed.
ghost use Rattle.std.specs.Prelude.{◌≡◌};
ghost use Rattle.desk_why.specs.Fallback.{is_fallback, is_for_the_same};

use crate::done::{Done, last_done};
use crate::sheet_line::LinePlace;
use history::{GameView, LayRule, OpeningRule, Refusal, StockRule, TokenRule};

/// Returns whether a rule refused a line at this place because an earlier line for the same purpose
/// was obeyed: a purchase or a bid behind another of the same turn; or, among the orders for a
/// company, a LAY behind a lay, a TOKEN behind a token, a PAY or WITHHOLD behind either. The game
/// is given as it was before the line.
pub fn is_fallback(view: &GameView, place: LinePlace, rule: Refusal) -> bool
    ensures { result ≡ is_fallback view.now.events place rule }
{
    match place {
        LinePlace::Orders(company) => is_for_the_same(last_done(view.events(), company), rule),
        LinePlace::Turn | LinePlace::Standing => matches!(
            rule,
            Refusal::Opening(OpeningRule::TurnUsed) | Refusal::Stock(StockRule::BoughtBefore)
        ),
    }
}

/// Returns whether a rule refuses an order of a company because what the company did last, apart
/// from a lay, has the same purpose.
fn is_for_the_same(done: Option<Done>, rule: Refusal) -> bool
    ensures { result ≡ is_for_the_same done rule }
{
    match done {
        None => matches!(rule, Refusal::Lay(LayRule::StepUsed)),
        Some(Done::Token) => matches!(rule, Refusal::Token(TokenRule::StepUsed)),
        Some(Done::Pay) => matches!(rule, Refusal::Pay(_)),
        Some(Done::Run | Done::Purchase) => false,
    }
}
