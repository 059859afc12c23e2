//! Checking certificates: they show, without a search, that each company that ran its best could
//! not earn more.
ghost use Rattle.rounds.specs.Steps.{started};
ghost use Rattle.sheets.specs.File.{IsAccepted};
ghost use Rattle.std.specs.Prelude.{◌≡◌, false, IfErr, IfOk, Ok, OnErr, OnOk, Some};
ghost use Rattle.std.specs.Io.KnownBytes.{Appends};
ghost use Rattle.umpire.specs.Failure.{AppendsPrefix, TakesAtMost};
ghost use Rattle.umpire.specs.Groups.{groups_of};
ghost use Rattle.umpire.specs.Rounds.{IsTextOfRounds};
ghost use Rattle.umpire.specs.Run.{IsCutShort, IsReported, IsWriteFault};
ghost use Rattle.umpire.specs.Verify.{IsAnswered, IsGameAnswered, IsJudged, StopsGame, StopsVerify};
ghost use Rattle.umpire.specs.Verify.{uncertified_line};
ghost use Rattle.umpire.specs.Watched.{has_failed, inside};

use crate::fault::Fault;
use crate::input::read_first;
use crate::input_split::{CERTIFICATES_MOST, Parted, part};
use crate::output::write_text;
use crate::program::write_header;
use crate::refusal::refuse;
use crate::report_end::write_end;
use crate::verifier::Verifier;
use crate::watched::Watched;
use order_grammar::print_round;
use report::next_text;
use rounds::{Play, PlayFault, Step};
use sheets::{FILE_MOST, FileFault, Sheets, collect};
use std::alloc::{AllocError, Global};
use std::io::{Read, Write};
use tables::{Company, Round};

/// The most bytes of an input that is not refused: an order file, one LF, and the text of
/// certificates.
const INPUT_MOST: usize = FILE_MOST + 1 + CERTIFICATES_MOST;

/// Reads an order file and the text of certificates after it. It reads to the end of the input, or
/// to the first byte past the greatest size of both with the LF between them. It plays the game and
/// checks the k-th obeyed RUN BEST by the k-th group, without a search. Then it writes what `run`
/// writes for the order file. It ignores groups left over. The text of the rounds is held in memory
/// until the last of them is played; what follows them is written as by `run`. The writer then
/// holds what it held before, followed, for each result, by
///
/// - `Ok`, if each of them has a group that is well formed, for its round and company, and
///   accepted: the whole report;
/// - `Certificate(round, company)`, if the RUN BEST of this company in this round is the first
///   without one: the whole line that says so;
/// - `File`, if the text of certificates is over its limit (`TooLong`), or otherwise the order file
///   is refused: the whole line that says so;
/// - `Read`, if a read failed: nothing more;
/// - `Write`, if a write failed or took nothing, and `Memory`, if an allocation failed: a prefix of
///   what would have been written, the report or that line, or nothing more.
pub fn verify<R: Read, W: Write>(
    alloc: Global,
    reader: &mut Watched<R>,
    writer: &mut Watched<W>,
) -> Result<(), Fault>
    requires reader { has_failed reader.old ≡ false }
    requires writer { has_failed writer.old ≡ false }
    ensures ok { OnOk result (IsAnswered (R.remaining (inside reader.old)) (Ok tt)
        (W.contents (inside writer.old)) (W.contents (inside writer.new))) }
    ensures unfailed { OnOk result
        ((has_failed reader.new ≡ false) × (has_failed writer.new ≡ false)) }
    ensures limit { TakesAtMost 134217730 (R.remaining (inside reader.old))
        (R.remaining (inside reader.new)) }
    ensures err { IfErr result (StopsVerify (R.remaining (inside reader.old))
        (W.contents (inside writer.old)) (W.contents (inside writer.new))
        (has_failed reader.new) (has_failed writer.new)) }
{
    let input = read_first(alloc, INPUT_MOST + 1, reader)?;
    write_answer(alloc, input.as_slice(), writer)
}

/// Writes what `verify` writes for an input.
fn write_answer<W: Write>(alloc: Global, input: &[u8], writer: &mut Watched<W>) -> Result<(), Fault>
    requires { has_failed writer.old ≡ false }
    ensures ok { OnOk result (IsAnswered (Some input.now) (Ok tt)
        (W.contents (inside writer.old)) (W.contents (inside writer.new))) }
    ensures unfailed { OnOk result (has_failed writer.new ≡ false) }
    ensures err { IfErr result (StopsVerify (Some input.now)
        (W.contents (inside writer.old)) (W.contents (inside writer.new))
        false (has_failed writer.new)) }
{
    let Parted { file, certificates } = part(input);
    if certificates.len() > CERTIFICATES_MOST {
        return Err(refuse(alloc, FileFault::TooLong, writer));
    }
    match collect(alloc, file) {
        Ok(sheets) => write_judgement(alloc, &sheets, certificates, writer),
        // An allocation failed: passed on.
        Err(FileFault::Memory) => Err(Fault::Memory),
        Err(fault) => Err(refuse(alloc, fault, writer)),
    }
}

/// Writes what `verify` writes for an accepted order file, given the text of certificates after it.
/// It writes only when the whole game is played, so that everything written has been checked.
fn write_judgement<W: Write>(
    alloc: Global,
    sheets: &Sheets,
    certificates: &[u8],
    writer: &mut Watched<W>,
) -> Result<(), Fault>
    requires unfailed { has_failed writer.old ≡ false }
    requires accepted { IsAccepted sheets.now }
    ensures ok { OnOk result (IsGameAnswered sheets.now (groups_of certificates.now) (Ok tt)
        (W.contents (inside writer.old)) (W.contents (inside writer.new))) }
    ensures unfailed { OnOk result (has_failed writer.new ≡ false) }
    ensures err { IfErr result (StopsGame sheets.now (groups_of certificates.now)
        (W.contents (inside writer.old)) (W.contents (inside writer.new))
        (has_failed writer.new)) }
{
    let mut play = Play::start(alloc, sheets)?;
    match play_checked(alloc, &mut play, certificates) {
        Ok(texts) => write_played(alloc, sheets, &play, texts.as_slice(), writer),
        // An allocation failed: passed on.
        Err(PlayFault::Memory) => Err(Fault::Memory),
        Err(PlayFault::Refused(round, company)) => {
            write_uncertified(alloc, round, company, writer)?;
            Err(Fault::Certificate(round, company))
        }
    }
}

/// Plays the game as far as its sheets go, and checks each obeyed RUN BEST by its group. Returns
/// the texts of the rounds, one after another. The error is a failed allocation, or the round and
/// the company of the first RUN BEST that has no group.
fn play_checked(alloc: Global, play: &mut Play, certificates: &[u8]) -> Result<Vec<u8>, PlayFault>
    requires started { play.old ≡ started play.old.file }
    requires accepted { IsAccepted play.old.file }
    ensures judged { IsJudged play.old.file (groups_of certificates.now) result }
    ensures texts { IfOk result (λ texts. IsTextOfRounds play.old.file play.new texts.items) }
{
    // Laws, which do nothing when they run. A file's game has one list of calls, and each of them
    // succeeds. The steps make the calls of the game, or a prefix of them if play is broken off.
    rounds::laws::some_calls();
    rounds::laws::calls_are_answered();
    rounds::laws::steps_call_the_game();
    rounds::laws::broken_steps_call_a_broken_game();
    rounds::laws::refused_calls_are_a_prefix();
    let mut verifier = Verifier::new(alloc, certificates);
    let mut texts = Vec::new(alloc);
    loop {
        if let Step::Ended(_) = play.step(&mut verifier)? {
            return Ok(texts);
        }
        let text = next_text(alloc, play)?;
        texts.extend_from_slice(text.as_slice())?;
    }
}

/// Writes the report of some sheets, given that all rounds are played and have this text.
fn write_played<W: Write>(
    alloc: Global,
    sheets: &Sheets,
    play: &Play,
    texts: &[u8],
    writer: &mut Watched<W>,
) -> Result<(), Fault>
    requires unfailed { has_failed writer.old ≡ false }
    requires accepted { IsAccepted sheets.now }
    requires texts { IsTextOfRounds sheets.now play.now texts.now }
    ensures ok { OnOk result (IsReported (Some sheets.now)
        (W.contents (inside writer.old)) (W.contents (inside writer.new))) }
    ensures unfailed { OnOk result (has_failed writer.new ≡ false) }
    ensures err { IfErr result (IsWriteFault (has_failed writer.new)) }
    ensures prefix { OnErr result (IsCutShort (Some sheets.now)
        (W.contents (inside writer.old)) (W.contents (inside writer.new))) }
{
    // Laws, which do nothing when they run: the file has a report, which is made of its parts.
    report::laws::some_report();
    report::laws::parts_are_the_report();
    write_header(alloc, sheets, writer)?;
    write_text(writer, texts)?;
    write_end(alloc, play, writer)?;
    Ok(())
}

/// Writes the line that says that no group shows the best runs of a company in a round.
fn write_uncertified<W: Write>(
    alloc: Global,
    round: Round,
    company: Company,
    writer: &mut Watched<W>,
) -> Result<(), Fault>
    requires { has_failed writer.old ≡ false }
    ensures ok { OnOk result (Appends (W.contents (inside writer.old))
        (W.contents (inside writer.new)) (uncertified_line round company)) }
    ensures unfailed { OnOk result (has_failed writer.new ≡ false) }
    ensures err { IfErr result (IsWriteFault (has_failed writer.new)) }
    ensures prefix { OnErr result (AppendsPrefix (W.contents (inside writer.old))
        (W.contents (inside writer.new)) (uncertified_line round company)) }
{
    let line = uncertified_text(alloc, round, company)?;
    write_text(writer, line.as_slice())?;
    Ok(())
}

/// Returns the line that says that no group shows the best runs of a company in a round.
fn uncertified_text(alloc: Global, round: Round, company: Company) -> Result<Vec<u8>, AllocError>
    ensures { IfOk result (λ text. text.items ≡ uncertified_line round company) }
{
    let mut line = Vec::new(alloc);
    line.extend_from_slice(b"CERTIFICATE REFUSED ")?;
    print_round(&mut line, &round)?;
    line.push(b' ')?;
    line.extend_from_slice(company.code().as_bytes())?;
    line.push(b'\n')?;
    Ok(line)
}
