//! The laws of the definitions. Each is the contract of a function that does nothing.
ghost use Rattle.std.specs.Prelude.{◌≡◌, ℕ, List, [], Err};
ghost use Rattle.totals.specs.LookBack.{Game};
ghost use Rattle.rounds.specs.Arrival.{ArrivalChangesNoGame};
ghost use Rattle.rounds.specs.Begun.{RoundsFollowInOrder, RoundsOnlyAdd};
ghost use Rattle.rounds.specs.Causality.{LaterSheetsChangeNothing};
ghost use Rattle.rounds.specs.Ends.{BankruptcyEndsGames, BrokenBankEndsSets, GamesEndOnce, NoSetAfterBroken};
ghost use Rattle.rounds.specs.Ends.{NoTurnAfterBankruptcy, NothingElseEndsGames};
ghost use Rattle.rounds.specs.Example.{first_end, first_file, second_end, second_file};
ghost use Rattle.rounds.specs.GameCalls.{CallsAreOfTheGame, EachGameCalls, OneListOfCalls, RefusedCallsAreAPrefix};
ghost use Rattle.rounds.specs.GameCalls.{SomeCalls};
ghost use Rattle.rounds.specs.OperatingRound.{CompaniesOperateOnce, EndsSoon, OneOperatingRound};
ghost use Rattle.rounds.specs.PlainLines.{FamilyAloneJudges, VersionOneIsRuledPlainly};
ghost use Rattle.rounds.specs.Play.{OneGame, Plays, SomeGame};
ghost use Rattle.rounds.specs.Privates.{BidsRiseInEachGame, ClosedForGood, SellersAgreeInEachGame};
ghost use Rattle.rounds.specs.ReadAlike.{SamePartsSameGame, SameSheetsAreReadAlike};
ghost use Rattle.rounds.specs.Sequence.{BankAloneEndsIt, SequenceGoesForward};
ghost use Rattle.rounds.specs.Sets.{SetsKeepTheirNumber};
ghost use Rattle.rounds.specs.Steps.{StepsPlayTheGame};
ghost use Rattle.rounds.specs.StepsCall.{GamesAreAnswered, StepsAreAnswered, StepsCallTheGame};
ghost use Rattle.rounds.specs.Tiles.{AllTilesAreThereInEachGame};
ghost use Rattle.rounds.specs.Trains.{PhasesGoOnInRounds, AllTrainsAreThereInEachGame};
ghost use Rattle.sheets.specs.File.{content_of};
ghost use Rattle.sheets.specs.declared.fault.FileFault.TheVariants.{Header};
ghost use Rattle.tables.specs.declared.round.Round.{Round};

pub use crate::call_laws::{broken_steps_call_a_broken_game, calls_are_named};

/// States that an operating round has at most one outcome: the sheets and the game before it say
/// what the game after it is.
pub fn one_operating_round()
    ensures { OneOperatingRound }
{
    operating::laws::one_company_turn()
}

/// States that an operating round has an outcome, whatever the sheets say.
pub fn operating_round_ends()
    ensures { (file : List ℕ) (round : Round) (old : Game) → EndsSoon file round old }
{
    market::laws::floated_companies_in_order();
    operating::laws::company_operates();
    operating::laws::company_turn_ends()
}

/// States that in an operating round at most eight companies take turns, and none of them a second
/// one. Every company that has floated by the round's end and whose token has a square takes one,
/// unless a president is bankrupt.
pub fn companies_operate_once()
    ensures { CompaniesOperateOnce }
{
    market::laws::floated_companies_in_order();
    operating::laws::company_operates()
}

/// States that a file has at most one game.
pub fn one_game()
    ensures { OneGame }
{
    privates::laws::one_opening_round();
    stock_round::laws::one_stock_round();
    one_operating_round()
}

/// States that each accepted file has a game: each of its rounds ends, and so does their sequence.
pub fn some_game()
    ensures { SomeGame }
{
    sheets::laws::sheets_are_numbered();
    sheets::laws::three_to_six_play();
    privates::laws::opening_round_ends();
    stock_round::laws::stock_round_ends();
    operating_round_ends()
}

/// States that the steps of a play play the one game of its file. After any number of steps that
/// played a round, the list is that of the game after the same number of rounds.
pub fn steps_play_the_game()
    ensures { StepsPlayTheGame }
{
    privates::laws::one_opening_round();
    stock_round::laws::one_stock_round();
    one_operating_round();
    some_game()
}

/// States that a round adds its own ROUND event to the list, and then events that begin no round.
pub fn rounds_only_add()
    ensures { RoundsOnlyAdd }
{
    operating::laws::turn_only_adds()
}

/// States that each round is followed by one that is later in the order of all rounds.
pub fn sequence_goes_forward()
    ensures { SequenceGoesForward }
{}

/// States that the events of a game begin with a round, and the rounds that they begin follow one
/// another in the order of all rounds, so they all differ.
pub fn rounds_follow_in_order()
    ensures { RoundsFollowInOrder }
{
    operating::laws::turn_only_adds();
    sheets::laws::sheets_are_numbered();
    sheets::laws::three_to_six_play()
}

/// States that a set keeps the number of operating rounds that the phase in which it began gave it,
/// whatever phases begin within it.
pub fn sets_keep_their_number()
    ensures { SetsKeepTheirNumber }
{}

/// States that after each round the bank, its pool and the companies together have the initial
/// number of trains of each kind until they rust, and none after that. Nobody has a negative number
/// of them.
pub fn all_trains_are_there_in_each_game()
    ensures { AllTrainsAreThereInEachGame }
{
    purchases::laws::all_trains_are_there();
    operating::laws::turns_keep_all_trains()
}

/// States that after each round, for each number, the tiles on the map and those in the stock
/// together are as many as the manifest has, so that the stock is never short.
pub fn all_tiles_are_there_in_each_game()
    ensures { AllTilesAreThereInEachGame }
{
    operating::laws::all_tiles_are_there()
}

/// States that no round leads back to an earlier phase.
pub fn phases_go_on_in_rounds()
    ensures { PhasesGoOnInRounds }
{
    operating::laws::phases_go_on_in_turns()
}

/// States that after each round, each bid so far was at least 5 above every earlier bid on its
/// private.
pub fn bids_rise_in_each_game()
    ensures { BidsRiseInEachGame }
{
    privates::laws::opening_bids_rise();
    sheets::laws::three_to_six_play();
    operating::laws::turns_say_no_bid()
}

/// States that a closed private never has an owner again, whatever rounds are played.
pub fn closed_for_good_in_each_game()
    ensures { ClosedForGood }
{
    purchases::laws::closed_for_good();
    operating::laws::closed_for_good_in_turns()
}

/// States that whoever sold a train or a private to a company had agreed to exactly that sale, by
/// the list of events before it. They presided over the buyer too, or had offered it in the same
/// round.
pub fn sellers_agree_in_each_game()
    ensures { SellersAgreeInEachGame }
{
    purchases::laws::sellers_agree();
    operating::laws::sellers_agree_in_turns()
}

/// States that no ruling in the game of a file of version 1 is of a conditional order, and none
/// refuses an order because its condition does not hold, however many rounds are played.
pub fn version_one_is_ruled_plainly()
    ensures { VersionOneIsRuledPlainly }
{
    sheets::laws::version_one_is_plain()
}

/// States that a line without a condition is judged only by the rules of its family, as if there
/// were no conditions. All lines of a file of version 1 are such lines.
pub fn lines_without_condition_are_judged_alone()
    ensures { FamilyAloneJudges }
{}

/// States that while the bank is not broken, each round in the sequence is followed by another.
pub fn bank_alone_ends_it()
    ensures { BankAloneEndsIt }
{}

/// States that each game ends at most once, and nothing follows its end, whatever the sheets say.
/// Only a bankruptcy ends it, or a bank that is broken after the last operating round of a set.
pub fn games_end_once()
    ensures once { GamesEndOnce }
    ensures only { NothingElseEndsGames }
{}

/// States that the bankruptcy of a president ends the game at once: no company takes a turn after
/// it, and no round is played after its own.
pub fn bankruptcy_ends_games()
    ensures turns { NoTurnAfterBankruptcy }
    ensures rounds { BankruptcyEndsGames }
{}

/// States that a broken bank ends the game once the operating rounds of a set are over, the present
/// set if they were under way, otherwise the next. No round of another set is played.
pub fn broken_bank_ends_games()
    ensures sets { NoSetAfterBroken }
    ensures rounds { BrokenBankEndsSets }
{
    operating::laws::turn_only_adds()
}

/// States that in files of the same version, equal sheets of a round are read the same.
pub fn same_sheets_are_read_alike()
    ensures { SameSheetsAreReadAlike }
{}

/// States that two files of the same players have the same game on two conditions. Each seat has
/// a sheet for a round in both files or in none, and its lines are read the same.
pub fn same_parts_same_game()
    ensures { SamePartsSameGame }
{}

/// States that the order in which the sheets of different players arrive changes nothing in the
/// game. It compares two files of the same version and players, in which each player sent the same
/// sheets in the same order.
pub fn arrival_changes_no_game()
    ensures { ArrivalChangesNoGame }
{
    sheets::laws::arrival_changes_nothing()
}

/// States that sheets for later rounds change nothing. If two files have the same players, the
/// first is accepted and plays a round, and their sheets for the rounds up to it are read the same,
/// then the second plays that round too, and all is the same up to its end.
pub fn later_sheets_change_nothing()
    ensures { LaterSheetsChangeNothing }
{
    sheets::laws::sheets_are_numbered();
    sheets::laws::three_to_six_play()
}

/// States that the definitions play the small file of `specs/Example.antt` as its events say; this
/// is computed from them.
pub fn first_example()
    ensures { Plays first_file first_end }
{}

/// States that the definitions play the second small file as its events say, through a stock round.
pub fn second_example()
    ensures { Plays second_file second_end }
{}

/// States that an empty file is refused for its header; this is computed from the definitions.
pub fn empty_example()
    ensures { content_of [] ≡ Err Header }
{}

/// States that the calls that play makes of its runner are those of the one game of the file.
pub fn calls_are_of_the_game()
    ensures { CallsAreOfTheGame }
{}

/// States that each call of the runner in a game, or in a step that plays a round, succeeds: a call
/// that fails breaks play off.
pub fn calls_are_answered()
    ensures games { GamesAreAnswered }
    ensures steps { StepsAreAnswered }
{}

/// States that the calls of the steps of a play, one step after another until play stops, are those
/// of the one game of the file.
pub fn steps_call_the_game()
    ensures { StepsCallTheGame }
{}

/// States that the one game of a file has only one list of calls of its runner.
pub fn one_list_of_calls()
    ensures { OneListOfCalls }
{
    privates::laws::one_opening_round();
    stock_round::laws::one_stock_round();
    operating::laws::one_list_of_turn_calls()
}

/// States that each game has such a list, so that there is one for each accepted file.
pub fn some_calls()
    ensures each { EachGameCalls }
    ensures accepted { SomeCalls }
{
    some_game();
    operating::laws::one_list_of_turn_calls()
}

/// States that if allocation fails, or the runner refuses, the calls made by then are a prefix of
/// those of the one game. If a call failed it is the last of them, with the arguments of the game's
/// next call.
pub fn refused_calls_are_a_prefix()
    ensures { RefusedCallsAreAPrefix }
{
    privates::laws::one_opening_round();
    stock_round::laws::one_stock_round();
    operating::laws::one_list_of_turn_calls()
}
