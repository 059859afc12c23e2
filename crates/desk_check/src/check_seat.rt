//! Whether a seat has a company to order for as a round begins.
ghost use Rattle.std.specs.Prelude.{◌≡◌};
ghost use Rattle.desk_check.specs.Looked.{has_to_order};

use history::GameView;
use tables::{Company, Seat};

/// Returns whether a seat presides over a company that operates.
pub(crate) fn has_to_order(view: &GameView, company: Company, seat: Seat) -> bool
    ensures { result ≡ has_to_order view.now.events company seat }
{
    view.president(company) == Some(seat) && view.floated(company) && view.square(company).is_some()
}
