//! The laws of the definitions. Each is the contract of a function that does nothing.
ghost use Rattle.operating.specs.Laws.{CompanyOperates, CompanyTurnEnds, HomeTokenLies, OneCompanyTurn, TurnOnlyAdds};
ghost use Rattle.operating.specs.LegalRuns.{ObeyedRunsAreLegal};
ghost use Rattle.operating.specs.TurnCalls.{OneListOfTurnCalls, RefusedTurnCallsAreAPrefix, SomeTurnCalls};

pub use crate::best_laws::best_earns_no_less;
pub use crate::forced_laws::{bankruptcy_ends_turns, presidents_stay, turns_end_with_trains};
pub use crate::private_laws::closed_for_good_in_turns;
pub use crate::sale_laws::{sellers_agree_in_turns, turns_say_no_bid};
pub use crate::tile_laws::all_tiles_are_there;
pub use crate::train_laws::{phases_go_on_in_turns, turns_keep_all_trains};

/// States that after a company's turn that company has operated, and no other company that had not
/// before.
pub fn company_operates()
    ensures { CompanyOperates }
{}

/// States that a company's turn adds events to the list, and begins no round.
pub fn turn_only_adds()
    ensures { TurnOnlyAdds }
{}

/// States that after a company's turn its home token lies for good, so that it never places a
/// second one there for nothing.
pub fn home_token_lies()
    ensures { HomeTokenLies }
{}

/// States that a company's turn has at most one outcome.
pub fn one_company_turn()
    ensures { OneCompanyTurn }
{
    map_tables::laws::neighbours_pair();
    map_tables::laws::printed_links_are_in_order();
    map_tables::laws::laid_links_are_in_order();
    map_tables::laws::values_are_at_most_80();
}

/// States that a company's turn has an outcome.
pub fn company_turn_ends()
    ensures { CompanyTurnEnds }
{
    map_tables::laws::neighbours_pair();
    map_tables::laws::printed_links_are_in_order();
    map_tables::laws::laid_links_are_in_order();
    map_tables::laws::values_are_at_most_80();
}

/// States that each turn of a company has exactly one list of calls of its runner. If the turn is
/// broken off, the calls made are a prefix of that list.
pub fn one_list_of_turn_calls()
    ensures one { OneListOfTurnCalls }
    ensures some { SomeTurnCalls }
    ensures prefix { RefusedTurnCallsAreAPrefix }
{
    map_tables::laws::neighbours_pair();
    map_tables::laws::printed_links_are_in_order();
    map_tables::laws::laid_links_are_in_order();
    map_tables::laws::values_are_at_most_80();
}

/// States that an obeyed run is legal given the borders used by the runs obeyed earlier in the
/// turn. So the runs of a turn share no border.
pub fn obeyed_runs_are_legal()
    ensures { ObeyedRunsAreLegal }
{}
