//! Laws of the definitions, each the contract of a function that does nothing.
ghost use Rattle.desk_promise.specs.CompanyLines.{LaysAreReported, TokensAreReported};
ghost use Rattle.desk_promise.specs.CompanyRows.{BestIsReported, PrivateRowsAreReported, RaiseRowsAreReported};
ghost use Rattle.desk_promise.specs.CompanyRows.{TrainRowsAreReported};
ghost use Rattle.desk_promise.specs.LineFile.{LineFilesReadSo, OrdersFilesReadSo};
ghost use Rattle.desk_promise.specs.LaysTold.{BestTextIsReported, LaysLinesAreReported};
ghost use Rattle.desk_promise.specs.LinesTold.{MayLinesAreReported};
ghost use Rattle.desk_promise.specs.OfferFile.{OfferedFilesReadSo};
ghost use Rattle.desk_promise.specs.OfferedRows.{OfferedHeadsAreReached, OfferedPrivatesAreReported};
ghost use Rattle.desk_promise.specs.OfferedRows.{OfferedTrainsAreReported};
ghost use Rattle.desk_promise.specs.StandingRows.{StandingRowsAreReported};
ghost use Rattle.desk_promise.specs.TurnRows.{OpeningRowsAreReported, StockRowsAreReported};

/// States what an order file reads as with a player's sheet of one turn at its end, which has one
/// order, and empty sheets of all others. The players, the version and all other rounds are as
/// before.
pub fn line_files_read_so()
    ensures { LineFilesReadSo }
{
    order_grammar::laws::spelling_is_read_again();
    order_grammar::laws::read_where_spelt()
}

/// States the same of a sheet with one order of a company.
pub fn orders_files_read_so()
    ensures { OrdersFilesReadSo }
{
    order_grammar::laws::spelling_is_read_again();
    order_grammar::laws::read_where_spelt()
}

/// States what an order file reads as with two sheets of a round at its end: one of a company with
/// one order, and one of another player with just an offer. All others are empty.
pub fn offered_files_read_so()
    ensures { OfferedFilesReadSo }
{
    order_grammar::laws::spelling_is_read_again();
    order_grammar::laws::read_where_spelt()
}

/// States that each row of a coming stock round tells what the report says of the file in which its
/// order is the only line of the player's turn: after the passes of the seats before it the line is
/// obeyed, or refused by the rule that the row names. Right below an obeyed line is what it moves,
/// at the price that the row tells.
pub fn stock_rows_are_reported()
    ensures { StockRowsAreReported }
{
    order_grammar::laws::spelling_is_read_again();
    order_grammar::laws::read_where_spelt();
    order_grammar::laws::conditional_spelling_is_read_again();
    order_grammar::laws::version_one_has_no_conditions();
    sheets::laws::three_to_six_play();
    rounds::laws::same_sheets_are_read_alike();
    rounds::laws::rounds_only_add();
    privates::laws::one_opening_round();
    stock_round::laws::one_stock_round();
    rounds::laws::one_operating_round();
    stock_round::laws::stock_round_ends();
    stock_round::laws::stock_turns_say_who_acted();
    foresight::laws::play_reaches_first_turns();
    moves::laws::rows_are_ruled()
}

/// States the same of each row of a coming opening round. A bid must be of a sum that a line may
/// have, and then stands.
pub fn opening_rows_are_reported()
    ensures { OpeningRowsAreReported }
{
    order_grammar::laws::spelling_is_read_again();
    order_grammar::laws::read_where_spelt();
    order_grammar::laws::conditional_spelling_is_read_again();
    order_grammar::laws::version_one_has_no_conditions();
    sheets::laws::three_to_six_play();
    rounds::laws::same_sheets_are_read_alike();
    rounds::laws::rounds_only_add();
    privates::laws::one_opening_round();
    stock_round::laws::one_stock_round();
    rounds::laws::one_operating_round();
    privates::laws::opening_round_ends();
    privates::laws::opening_turns_say_who_acted();
    foresight::laws::play_reaches_first_turns();
    moves::laws::rows_are_ruled()
}

/// States the same of each row of a standing line: as the only line of all sheets for the round it
/// is obeyed right below ROUND, or refused by the rule that the row names.
pub fn standing_rows_are_reported()
    ensures { StandingRowsAreReported }
{
    order_grammar::laws::spelling_is_read_again();
    order_grammar::laws::read_where_spelt();
    order_grammar::laws::conditional_spelling_is_read_again();
    order_grammar::laws::version_one_has_no_conditions();
    rounds::laws::same_sheets_are_read_alike();
    rounds::laws::rounds_only_add();
    privates::laws::one_opening_round();
    stock_round::laws::one_stock_round();
    rounds::laws::one_operating_round();
    rounds::laws::operating_round_ends();
    operating::laws::one_company_turn();
    operating::laws::turn_only_adds();
    privates::laws::opening_round_ends();
    privates::laws::opening_turns_say_who_acted();
    moves::laws::rows_are_ruled()
}

/// States that each lay and each token that is listed for a company in a coming operating round, at
/// the head of its orders, is what the report says of the file in which it is the only line of all
/// sheets for the round: it is obeyed, at the listed price. Any other lay or token is refused.
pub fn lays_are_reported()
    ensures lays { LaysAreReported }
    ensures tokens { TokensAreReported }
{
    order_grammar::laws::spelling_is_read_again();
    order_grammar::laws::read_where_spelt();
    order_grammar::laws::conditional_spelling_is_read_again();
    order_grammar::laws::version_one_has_no_conditions();
    rounds::laws::same_sheets_are_read_alike();
    rounds::laws::rounds_only_add();
    privates::laws::one_opening_round();
    stock_round::laws::one_stock_round();
    rounds::laws::one_operating_round();
    rounds::laws::operating_round_ends();
    operating::laws::one_company_turn();
    operating::laws::turn_only_adds();
    moves::laws::first_lay_is_by_the_list();
    moves::laws::first_token_is_by_the_list()
}

/// States the same of each row of a train, once the company has withheld, of each row of a private,
/// and of each row of a RAISE, below FORCED. Its line is obeyed, or refused by the rule that the
/// row names. Right below an obeyed line is what it moves, at the price that the row tells.
pub fn company_rows_are_reported()
    ensures trains { TrainRowsAreReported }
    ensures privates { PrivateRowsAreReported }
    ensures raises { RaiseRowsAreReported }
{
    order_grammar::laws::spelling_is_read_again();
    order_grammar::laws::read_where_spelt();
    order_grammar::laws::conditional_spelling_is_read_again();
    order_grammar::laws::version_one_has_no_conditions();
    rounds::laws::same_sheets_are_read_alike();
    rounds::laws::rounds_only_add();
    privates::laws::one_opening_round();
    stock_round::laws::one_stock_round();
    rounds::laws::one_operating_round();
    rounds::laws::operating_round_ends();
    operating::laws::one_company_turn();
    operating::laws::turn_only_adds();
    moves::laws::company_rows_are_ruled()
}

/// States that a row of a train or of a private that names a consent is obeyed once that is given.
/// In the report of the file with its order and that offer, the line is obeyed, and right below it
/// is what it moves, at the price that the row tells. That is at the head that play comes to with
/// the offer, if it is the head that is told in all but the offer.
pub fn offered_rows_are_reported()
    ensures trains { OfferedTrainsAreReported }
    ensures privates { OfferedPrivatesAreReported }
{
    order_grammar::laws::spelling_is_read_again();
    order_grammar::laws::read_where_spelt();
    order_grammar::laws::conditional_spelling_is_read_again();
    order_grammar::laws::version_one_has_no_conditions();
    rounds::laws::same_sheets_are_read_alike();
    rounds::laws::rounds_only_add();
    privates::laws::one_opening_round();
    stock_round::laws::one_stock_round();
    rounds::laws::one_operating_round();
    rounds::laws::operating_round_ends();
    operating::laws::one_company_turn();
    operating::laws::turn_only_adds();
    moves::laws::company_rows_are_ruled();
    moves::laws::offered_rows_are_obeyed()
}

/// States that play comes with an offer to the head of a company's orders that is told without it,
/// in all but the offer, which is obeyed. The one who makes it may make it before the round, and no
/// company before this one must buy a train.
pub fn offered_heads_are_reached()
    ensures { OfferedHeadsAreReached }
{
    order_grammar::laws::spelling_is_read_again();
    order_grammar::laws::read_where_spelt();
    order_grammar::laws::conditional_spelling_is_read_again();
    order_grammar::laws::version_one_has_no_conditions();
    rounds::laws::same_sheets_are_read_alike();
    rounds::laws::rounds_only_add();
    privates::laws::one_opening_round();
    stock_round::laws::one_stock_round();
    rounds::laws::one_operating_round();
    rounds::laws::operating_round_ends();
    operating::laws::one_company_turn();
    operating::laws::turn_only_adds();
    moves::laws::rows_are_ruled()
}

/// States that RUN BEST as the only line is obeyed if the company has a train, and credits the
/// greatest revenue that its trains can earn there. Without a train it is refused.
pub fn best_is_reported()
    ensures { BestIsReported }
{
    order_grammar::laws::spelling_is_read_again();
    order_grammar::laws::read_where_spelt();
    order_grammar::laws::conditional_spelling_is_read_again();
    order_grammar::laws::version_one_has_no_conditions();
    rounds::laws::same_sheets_are_read_alike();
    rounds::laws::rounds_only_add();
    privates::laws::one_opening_round();
    stock_round::laws::one_stock_round();
    rounds::laws::one_operating_round();
    rounds::laws::operating_round_ends();
    operating::laws::one_company_turn();
    operating::laws::turn_only_adds()
}

/// States that what `may --lines` writes tells the truth: below the standing lines and TURN, or the
/// COMPANY of each company over which the player presides, it has the lines of rows, each of which
/// is what the report says of the file with its order, at the price that it tells.
pub fn may_lines_are_reported()
    ensures { MayLinesAreReported }
{
    standing_rows_are_reported();
    stock_rows_are_reported();
    opening_rows_are_reported();
    company_rows_are_reported();
    operating::laws::company_operates();
    market::laws::floated_companies_in_order()
}

/// States that what `lays --lines` writes before an operating round tells the truth: it has the
/// lines of the lays and the tokens that are obeyed at the price that is told, and all of them.
pub fn lays_lines_are_reported()
    ensures { LaysLinesAreReported }
{
    lays_are_reported()
}

/// States that what `best` writes of a company's own trains before an operating round tells the
/// truth: RUN BEST as the only line credits the revenue of its first line, if the company has a
/// train.
pub fn best_text_is_reported()
    ensures { BestTextIsReported }
{
    best_is_reported()
}
