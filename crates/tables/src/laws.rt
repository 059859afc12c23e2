//! The laws of the definitions. Each is the contract of a function that does nothing.
ghost use Rattle.std.specs.Prelude.{◌≡◌, map};
ghost use Rattle.std.specs.List.{range_with_len};
ghost use Rattle.tables.specs.Roster.{companies, index_of_company, index_of_private, privates};
ghost use Rattle.tables.specs.Round.{RoundsAreInOrder};
ghost use Rattle.tables.specs.Rules.{FirstOfThoseBroken, KeptWhereNoneIsBroken};
ghost use Rattle.tables.specs.Steps.{StepsEndOnce};
ghost use Rattle.tables.specs.Train.{kinds, index_of_kind};
ghost use Rattle.tables.specs.Turns.{TurnsComeNearer, TurnsEndOnce, TurnsEndSoon};

use crate::rolling_stock::Kind;
use crate::roster::{Company, Private};

/// States that the lists of all companies, privates and kinds of trains are in order: each is at
/// its place.
pub fn rosters_in_order()
    ensures companies { Company.ALL ≡ companies }
    ensures company_places { map index_of_company companies ≡ range_with_len 0 8 }
    ensures privates { Private.ALL ≡ privates }
    ensures private_places { map index_of_private privates ≡ range_with_len 0 6 }
    ensures kinds { Kind.ALL ≡ kinds }
    ensures kind_places { map index_of_kind kinds ≡ range_with_len 0 6 }
{}

/// States that rounds are in order: the openings, then each stock round followed by the operating
/// rounds of its set.
pub fn rounds_in_order()
    ensures { RoundsAreInOrder }
{}

/// States that a step that is repeated until it is over leads to at most one end, whatever is
/// stepped.
pub fn one_end<T>()
    ensures { StepsEndOnce T }
{}

/// States that turns to the left have at most one outcome, whatever a turn does.
pub fn one_end_of_turns<S, L>()
    ensures { TurnsEndOnce S L }
{}

/// States that turns to the left have an outcome, if no seat acts without lines and none has over
/// 512 written turns. There are at most 513 turns for each seat.
pub fn turns_end_soon<S, L>()
    ensures { TurnsEndSoon S L }
{}

/// States that each turn brings the end nearer, if no seat acts without lines.
pub fn each_turn_is_nearer_the_end<S, L>()
    ensures { TurnsComeNearer S L }
{}

/// States that each rule of a table is kept if none is broken. Otherwise the code is that of a
/// broken rule, and each rule before it is kept.
pub fn first_rule_broken<C>()
    ensures none { KeptWhereNoneIsBroken C }
    ensures some { FirstOfThoseBroken C }
{}
