//! The laws of migrating to version 2. Each is the contract of a function that does nothing.
ghost use Rattle.umpire.specs.MigrationLaws.{AcceptedSaysTheSame, GoesOverOnce, GrowsNoLonger};
ghost use Rattle.umpire.specs.MigrationLaws.{MigrationChangesNoReport, RefusedAlike};

/// States that migrating a file a second time does not change it.
pub fn file_goes_over_once()
    ensures { GoesOverOnce }
{}

/// States that the migrated file is not longer than the file. The header line has at least eleven,
/// and `X` is no longer than any line that begins with IF.
pub fn file_grows_no_longer()
    ensures { GrowsNoLonger }
{}

/// States that a file of at most `FILE_MOST` bytes is refused by a fault exactly if the migrated
/// file is. (A longer one is refused, and its migrated file may be short enough.)
pub fn file_is_refused_alike()
    ensures { RefusedAlike }
{}

/// States that an accepted file migrates to a file of version 2 with the same players, the same
/// unread lines, the same sheets and their parts.
pub fn file_says_the_same()
    ensures { AcceptedSaysTheSame }
{}

/// States that the report of the migrated file is the report of the file, except for the version in
/// its first line.
pub fn migration_changes_no_report()
    ensures { MigrationChangesNoReport }
{
    report::laws::same_parts_same_report()
}
