//! The laws of the definitions. Each is the contract of a function that does nothing.
ghost use Rattle.umpire.specs.Laws.{PartsWhatWasJoined};
ghost use Rattle.umpire.specs.OneAnswer.{OneAnswer};
ghost use Rattle.umpire.specs.ReadAgain.{AcceptsWhatWasWritten, CertifyingCanBeWritten, ReadsBack};

pub use crate::migration_laws::{
    file_goes_over_once, file_grows_no_longer, file_is_refused_alike, file_says_the_same,
    migration_changes_no_report,
};

/// States that an order file, one LF, and a text in which only the first line is `CERTS 1` split
/// into the file and the text.
pub fn joined_is_parted()
    ensures { PartsWhatWasJoined }
{}

/// States that groups whose lines have a spelling are read back as they were written, except that
/// the last digit of their bits is padded.
pub fn certificates_are_read_again()
    ensures { ReadsBack }
{}

/// States that the lines of groups that certify the game of an accepted order file have a spelling.
/// Each round is one that a line can name, each revenue is less than 50,000 dollars, and each run
/// has 2 to 280 places.
pub fn certifying_groups_can_be_written()
    ensures { CertifyingCanBeWritten }
{
    rounds::laws::calls_are_named();
    legal_runs::laws::claims_have_places()
}

/// States that `verify` writes the report of an accepted order file for the file, one LF, and the
/// text of groups that certify its game, as `certs` writes it. That text must be within its limit.
pub fn written_certificates_are_accepted()
    ensures { AcceptsWhatWasWritten }
{
    certifying_groups_can_be_written();
    report::laws::some_report()
}

/// States that for one input `verify` has one result and one text.
pub fn one_answer()
    ensures { OneAnswer }
{
    rounds::laws::one_list_of_calls();
    report::laws::one_report()
}
