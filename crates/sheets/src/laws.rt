//! Laws of order files. Each function does nothing, and its contract is the law.

ghost use Rattle.sheets.specs.Before.{LargerLimitsChangeNothing};
ghost use Rattle.sheets.specs.Laws.{ArrivalChangesNoParts, ArrivalChangesNothing, LastSheetCounts, LongFileIsRefused};
ghost use Rattle.sheets.specs.Laws.{SheetsAreNumbered, SheetsHaveFewTurns, ThreeToSixPlay, VersionOneIsPlain};
ghost use Rattle.sheets.specs.Laws.{VersionOneIsPlainOutside};

/// States that the sheet of a player for a round is the last that the player sent for it.
pub fn last_sheet_counts()
    ensures { LastSheetCounts }
{}

/// States that the order in which the sheets of different players arrive changes no player's sheet.
/// Two files in which each player sent the same sheets in the same order have the same sheet for
/// each player and round. This does not cover the unread lines, whose codes are in the order of the
/// file.
pub fn arrival_changes_nothing()
    ensures { ArrivalChangesNothing }
{}

/// States that this order does not change the parts of a sheet either, if both files are of the
/// same version.
pub fn arrival_changes_no_parts()
    ensures { ArrivalChangesNoParts }
{}

/// States that a file of version 1 is read as if there were no conditions. Each line has the order
/// that it spells by itself, or its first fault, and no condition.
pub fn version_one_is_plain()
    ensures sheets { VersionOneIsPlain }
    ensures outside { VersionOneIsPlainOutside }
{
    order_grammar::laws::version_one_has_no_conditions()
}

/// States that a file of over `FILE_MOST` bytes is refused as too long, whatever it says.
pub fn long_file_is_refused()
    ensures { LongFileIsRefused }
{}

/// States that an accepted file has 3 to 6 players.
pub fn three_to_six_play()
    ensures { ThreeToSixPlay }
{}

/// States that no sheet is for a round numbered past 99,999, since no line names one.
pub fn sheets_are_numbered()
    ensures { SheetsAreNumbered }
{
    order_grammar::laws::read_where_spelt()
}

/// States that a sheet has at most 512 written turns or companies' orders, since each begins with a
/// line that may be an order.
pub fn sheets_have_few_turns()
    ensures { SheetsHaveFewTurns }
{}

/// States that a file within the former limits, 4,194,304 bytes and 4,096 good SHEET lines, means
/// the same as under those limits, refused or not.
pub fn larger_limits_change_nothing()
    ensures { LargerLimitsChangeNothing }
{}
