//! The laws of the definitions. Each is the contract of a function that does nothing.
ghost use Rattle.report.specs.Laws.{ArrivalChangesNoReport, PartsAreAPrefix, PartsAreTheReport, PlainReports};
ghost use Rattle.report.specs.Laws.{ReportIsItsParts, SamePartsSameReport};
ghost use Rattle.report.specs.Report.{IsReport};
ghost use Rattle.std.specs.Prelude.{◌≡◌, ℕ, List};

/// States that a file has at most one report.
pub fn one_report()
    ensures { (file a b : List ℕ) → IsReport file a → IsReport file b → a ≡ b }
{
    rounds::laws::one_game()
}

/// States that each file, refused or not, has a report.
pub fn some_report()
    ensures { (file : List ℕ) → (text : List ℕ) × IsReport file text }
{
    rounds::laws::some_game()
}

/// States that two accepted files of the same players have reports that differ only in the version
/// of the first line, on three conditions. Each seat has a sheet for a round in both files or in
/// none. The lines of these sheets are read the same. The unread lines have the same faults in the
/// same order.
pub fn same_parts_same_report()
    ensures { SamePartsSameReport }
{
    rounds::laws::same_parts_same_game()
}

/// States that the report of a file of version 1 has that version in its first line, and names no
/// condition: each ruling has only the spelling of its order. Orders without a condition are
/// printed so in files of either version.
pub fn plain_reports()
    ensures { PlainReports }
{
    rounds::laws::version_one_is_ruled_plainly()
}

/// States that the order in which the sheets of different players arrive changes nothing in the
/// report. Two accepted files of one version and the same players have the same report on two
/// conditions. Each player sent the same sheets in the same order, and the unread lines have
/// the same faults in the same order.
pub fn arrival_changes_no_report()
    ensures { ArrivalChangesNoReport }
{
    sheets::laws::arrival_changes_nothing();
    rounds::laws::same_sheets_are_read_alike();
    rounds::laws::same_parts_same_game()
}

/// States that the report of the game of a file is its header, the text of each of its rounds, the
/// unread lines and the end, one after another.
pub fn report_is_its_parts()
    ensures { ReportIsItsParts }
{
    rounds::laws::rounds_follow_in_order()
}

/// States that the parts written while a game is played are together its report: the header, the
/// text of each round as it was played, and, once play has stopped, what follows them. Until then
/// they are a prefix of the report.
pub fn parts_are_the_report()
    ensures prefix { PartsAreAPrefix }
    ensures whole { PartsAreTheReport }
{
    rounds::laws::one_game();
    rounds::laws::rounds_only_add();
    rounds::laws::steps_play_the_game()
}
