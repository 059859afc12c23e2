//! Migrates an order file to version 2: it gets the header of that version, and a line that would
//! become a conditional order gets an X before it, so that it still has a fault.
ghost use Rattle.order_grammar.specs.Words.{before_comment, is_printable};
ghost use Rattle.std.specs.Io.KnownBytes.{Appends};
ghost use Rattle.std.specs.List.{list_all};
ghost use Rattle.std.specs.Prelude.{◌≡◌, ◌≤◌, ◌++◌, false, drop, length, IfErr, OnErr, OnOk, Some};
ghost use Rattle.umpire.specs.Failure.{AppendsPrefix, TakesWithin};
ghost use Rattle.umpire.specs.Gathered.{Gathers, IsFromHeader, is_clean};
ghost use Rattle.umpire.specs.Migrated.{body_in_two, file_in_two, is_if_line};
ghost use Rattle.umpire.specs.Migration.{IsMigrated, StopsMigration};
ghost use Rattle.umpire.specs.Run.{IsWriteFault};
ghost use Rattle.umpire.specs.Watched.{has_failed, inside};

use crate::buffered_write::{put, write_gathered};
use crate::fault::Fault;
use crate::input::read_file;
use crate::output::write_text;
use crate::refusal::refuse;
use crate::watched::Watched;
use order_grammar::{LINE_MOST, Version, begins_with_word, is_printable};
use sheets::{FileFault, examine, first_line, is_blank};
use std::alloc::Global;
use std::io::{Read, Write};

/// The header line of a file of version 2.
const HEADER: &[u8] = b"GAME 1830 2";

/// Reads an order file to its end, or to the first byte past the greatest size of a file, and
/// writes the file of version 2 that it migrates to. The writer then holds what it held before,
/// followed, for each result, by
///
/// - `Ok`: the whole new file;
/// - `File`, if the file is refused: the whole line that says so;
/// - `Read`, if a read failed: nothing more;
/// - `Write`, if a write failed or took nothing: a prefix of the new file, or of that line;
/// - `Memory`, if an allocation failed: the same, or nothing more.
pub fn migrate<R: Read, W: Write>(
    alloc: Global,
    reader: &mut Watched<R>,
    writer: &mut Watched<W>,
) -> Result<(), Fault>
    requires reader { has_failed reader.old ≡ false }
    requires writer { has_failed writer.old ≡ false }
    ensures ok { OnOk result (IsMigrated (R.remaining (inside reader.old))
        (W.contents (inside writer.old)) (W.contents (inside writer.new))) }
    ensures unfailed { OnOk result
        ((has_failed reader.new ≡ false) × (has_failed writer.new ≡ false)) }
    ensures limit { TakesWithin (R.remaining (inside reader.old))
        (R.remaining (inside reader.new)) }
    ensures err { IfErr result (StopsMigration (R.remaining (inside reader.old))
        (W.contents (inside writer.old)) (W.contents (inside writer.new))
        (has_failed reader.new) (has_failed writer.new)) }
{
    let file = read_file(alloc, reader)?;
    write_migration(alloc, file.as_slice(), writer)
}

/// Writes the file that a file migrates to, or the line that says why it is refused.
fn write_migration<W: Write>(
    alloc: Global,
    file: &[u8],
    writer: &mut Watched<W>,
) -> Result<(), Fault>
    requires { has_failed writer.old ≡ false }
    ensures ok { OnOk result (IsMigrated (Some file.now)
        (W.contents (inside writer.old)) (W.contents (inside writer.new))) }
    ensures unfailed { OnOk result (has_failed writer.new ≡ false) }
    ensures err { IfErr result (StopsMigration (Some file.now)
        (W.contents (inside writer.old)) (W.contents (inside writer.new))
        false (has_failed writer.new)) }
{
    match examine(alloc, file) {
        Ok(Version::One) => write_in_two(alloc, file, writer),
        Ok(Version::Two) => write_text(writer, file),
        // An allocation failed: passed on.
        Err(FileFault::Memory) => Err(Fault::Memory),
        Err(fault) => Err(refuse(alloc, fault, writer)),
    }
}

/// Writes the file of version 2 that a file of version 1 migrates to.
fn write_in_two<W: Write>(alloc: Global, file: &[u8], writer: &mut Watched<W>) -> Result<(), Fault>
    requires { has_failed writer.old ≡ false }
    ensures ok { OnOk result (Appends (W.contents (inside writer.old))
        (W.contents (inside writer.new)) (file_in_two file.now)) }
    ensures unfailed { OnOk result (has_failed writer.new ≡ false) }
    ensures err { IfErr result (IsWriteFault (has_failed writer.new)) }
    ensures prefix { OnErr result (AppendsPrefix (W.contents (inside writer.old))
        (W.contents (inside writer.new)) (file_in_two file.now)) }
{
    let mut gathered = Vec::new(alloc);
    put_in_two(&mut gathered, file, writer)?;
    write_gathered(&mut gathered, writer)?;
    Ok(())
}

/// Adds the file of version 2 that a file of version 1 migrates to, after what is gathered.
fn put_in_two<W: Write>(
    gathered: &mut Vec<u8>,
    file: &[u8],
    writer: &mut Watched<W>,
) -> Result<(), Fault>
    requires { has_failed writer.old ≡ false }
    ensures ok { OnOk result (Gathers (W.contents (inside writer.old))
        (W.contents (inside writer.new)) gathered.old.items gathered.new.items
        (file_in_two file.now)) }
    ensures unfailed { OnOk result (has_failed writer.new ≡ false) }
    ensures err { IfErr result (IsWriteFault (has_failed writer.new)) }
    ensures prefix { OnErr result (AppendsPrefix (W.contents (inside writer.old))
        (W.contents (inside writer.new)) (gathered.old.items ++ file_in_two file.now)) }
{
    let text = from_header(file);
    put(gathered, &file[..file.len() - text.len()], writer)?;
    match first_line(text) {
        Some(header) => {
            put(gathered, HEADER, writer)?;
            put_body(gathered, behind(text, header.line), writer)?;
            Ok(())
        }
        None => Ok(()),
    }
}

/// Returns a file from its first line on that is not blank.
fn from_header(file: &[u8]) -> &[u8]
    ensures { IsFromHeader file.now result.now }
{
    let mut rest = file;
    while let Some(piece) = first_line(rest) {
        if !is_blank(piece.line) {
            return rest;
        }
        rest = piece.rest;
    }
    rest
}

/// Adds what follows a header line after what is gathered, each line as one of version 2.
fn put_body<W: Write>(
    gathered: &mut Vec<u8>,
    text: &[u8],
    writer: &mut Watched<W>,
) -> Result<(), Fault>
    requires { has_failed writer.old ≡ false }
    ensures ok { OnOk result (Gathers (W.contents (inside writer.old))
        (W.contents (inside writer.new)) gathered.old.items gathered.new.items
        (body_in_two text.now)) }
    ensures unfailed { OnOk result (has_failed writer.new ≡ false) }
    ensures err { IfErr result (IsWriteFault (has_failed writer.new)) }
    ensures prefix { OnErr result (AppendsPrefix (W.contents (inside writer.old))
        (W.contents (inside writer.new)) (gathered.old.items ++ body_in_two text.now)) }
{
    // The text that is not added yet. The lines from `rest` on are still to be looked at.
    let mut kept = text;
    let mut rest = text;
    while let Some(piece) = first_line(rest) {
        if is_if_line(piece.line) {
            put(gathered, &kept[..kept.len() - rest.len()], writer)?;
            put(gathered, b"X", writer)?;
            kept = behind(rest, piece.line);
        }
        rest = piece.rest;
    }
    put(gathered, kept, writer)?;
    Ok(())
}

/// Returns what follows a line in a text that begins with it.
fn behind<'a>(text: &'a [u8], line: &[u8]) -> &'a [u8]
    requires { length line.now ≤ length text.now }
    ensures { result.now ≡ drop (length line.now) text.now }
{
    &text[line.len()..]
}

/// Returns whether the first word of a line is IF, and this is its only fault in version 1. The
/// line is not too long, and its bytes before the comment are printable.
#[tactic(auto, using(crate::proofs::PrintableLemmas::if_by_bytes))]
fn is_if_line(line: &[u8]) -> bool
    ensures { result ≡ is_if_line line.now }
{
    begins_with_word(line, b"IF") && is_clean(line)
}

/// Returns whether a line has neither of the faults that are checked before its words.
fn is_clean(line: &[u8]) -> bool
    ensures { result ≡ is_clean line.now }
{
    line.len() <= LINE_MOST && is_printable_line(line)
}

/// Returns whether each byte of a line before its comment is printable.
fn is_printable_line(line: &[u8]) -> bool
    ensures { result ≡ list_all is_printable (before_comment line.now) }
{
    for byte in line {
        if *byte == b'#' {
            return true;
        }
        if !is_printable(*byte) {
            return false;
        }
    }
    true
}
