//! What to write in place of a line with a fault, if that is known.
ghost use Rattle.std.specs.Prelude.{◌≡◌, IfOk, IfSome, true};
ghost use Rattle.hints.specs.Choice.{is_order};
ghost use Rattle.hints.specs.Meant.{IsMeant};
ghost use Rattle.hints.specs.Slip.{texts};
ghost use Rattle.hints.specs.Words.{is_mendable};

use crate::choice::only_order;
use crate::completed::{Completed, begins_with_place, is_condition_alone};
use crate::edits::Edited;
use crate::mail::{ends_quoted, has_quoted_sign, stray_in, without_strays};
use crate::remark::{push_before_remark, push_without_sign};
use crate::slips::{is_code, nearest};
use crate::vocabulary::{CODES, FIRSTS};
use crate::words::{UNKNOWN_MOST, has_at_most_unknown, has_digit, is_mendable, words_of};
use order_grammar::{Fault, Version, print_number};
use std::alloc::{AllocError, Global};

/// How many bytes of a word are shown.
const SHOWN: usize = 12;

/// What is said of a line that was meant as a pass.
const PASS: &[u8] = b"; to pass, write TURN alone, and nothing among the orders for a company";

/// A line with a fault, and where it is.
#[derive(Clone, Copy)]
pub struct Faulty<'a> {
    /// The version of its file.
    pub version: Version,
    /// The line.
    pub line: &'a [u8],
    /// The number of the line above it.
    pub above: usize,
    /// Its fault.
    pub fault: Fault,
    /// The names of the players.
    pub players: &'a [&'a [u8]],
}

/// What was meant by a line.
#[derive(Drop)]
enum Meant {
    /// This line, with one edit.
    Line(Vec<u8>),
    /// One of these lines, which complete it.
    Completed(Completed),
    /// It is not known what was meant.
    Unknown,
}

/// Adds what to write in place of a line with a fault, if that is known: its own words with one
/// slip mended or its end added, if that is an order and no other line is as near. Adds nothing for
/// a fault that does not come from its words. Fails only if allocation fails.
pub fn push_hint(out: &mut Vec<u8>, faulty: Faulty) -> Result<(), AllocError> {
    match faulty.fault {
        Fault::StrayByte => push_stray(out, faulty),
        Fault::UnknownWord | Fault::WrongWords => push_of_words(out, faulty),
        Fault::UnknownPlayer => push_meant(out, faulty),
        _ => Ok(()),
    }
}

/// Returns the whole line that was meant by a line with a fault, in upper case; `None` if that is
/// not known. Fails only if allocation fails.
pub fn line_meant(alloc: Global, faulty: Faulty) -> Result<Option<Vec<u8>>, AllocError>
    ensures { IfOk result (λ meant. IfSome meant (λ line.
        is_order faulty.entry.version line.items ≡ true)) }
{
    match meant_by(alloc, faulty)? {
        Meant::Line(line) => Ok(Some(line)),
        Meant::Completed(_) | Meant::Unknown => Ok(None),
    }
}

/// Adds the name of the first stray byte of a line, and the line without stray bytes if that is an
/// order.
fn push_stray(out: &mut Vec<u8>, faulty: Faulty) -> Result<(), AllocError> {
    if let Some(stray) = stray_in(faulty.line) {
        out.extend_from_slice(b", here ")?;
        out.extend_from_slice(stray.as_bytes())?;
    }
    match line_meant(*out.allocator(), faulty)? {
        Some(line) => push_line(out, line.as_slice()),
        None => Ok(()),
    }
}

/// Adds a line that is to be written.
fn push_line(out: &mut Vec<u8>, line: &[u8]) -> Result<(), AllocError> {
    out.extend_from_slice(b"; write ")?;
    out.extend_from_slice(line)
}

/// Adds what was meant by a line whose words spell no order.
fn push_of_words(out: &mut Vec<u8>, faulty: Faulty) -> Result<(), AllocError> {
    let (alloc, line) = (*out.allocator(), faulty.line);
    if ends_quoted(line) {
        return out.extend_from_slice(b"; mail put the = at its end (quoted-printable)");
    }
    if has_quoted_sign(line) {
        return out.extend_from_slice(b"; mail wrote =3D for = (quoted-printable)");
    }
    let (words, count) = words_of(line);
    let words = words.get(..count).unwrap_or(&words);
    if is_pass(words) {
        return out.extend_from_slice(PASS);
    }
    if begins_with_place(alloc, faulty.version, words)? {
        out.extend_from_slice(b"; the rest of line ")?;
        print_number(out, faulty.above)?;
        return out.extend_from_slice(b"?");
    }
    if is_condition_alone(alloc, faulty.version, words)? {
        return out.extend_from_slice(b"; write its order on the same line");
    }
    push_meant(out, faulty)
}

/// Adds what was meant by a line, or if that is not known the nearest words to its unknown ones.
fn push_meant(out: &mut Vec<u8>, faulty: Faulty) -> Result<(), AllocError> {
    match meant_by(*out.allocator(), faulty)? {
        Meant::Line(line) => push_line(out, line.as_slice()),
        Meant::Completed(completed) => push_completed(out, &completed),
        Meant::Unknown => push_nearest(out, faulty.line),
    }
}

/// Returns what was meant by a line with a fault.
fn meant_by(alloc: Global, faulty: Faulty) -> Result<Meant, AllocError>
    ensures { IfOk result (IsMeant faulty.entry.version) }
{
    let clean = without_strays(alloc, faulty.line)?;
    let (words, count) = words_of(clean.as_slice());
    if matches!(faulty.fault, Fault::UnknownWord | Fault::WrongWords) {
        let mut edited = Edited::none(alloc, faulty.version);
        push_before_remark(&mut edited, &words)?;
        push_without_sign(&mut edited, clean.as_slice())?;
        if let Meant::Line(line) = only_of(faulty.version, &edited)? {
            return Ok(Meant::Line(line));
        }
    }
    match words.get(..count) {
        Some(words)
            if is_mendable(words) && has_at_most_unknown(UNKNOWN_MOST, &FIRSTS, &CODES, words) => {
            meant_by_few(alloc, faulty, words)
        }
        _ => Ok(Meant::Unknown),
    }
}

/// Returns what was meant by a line with a fault that has these words, all of which may be mended.
fn meant_by_few(alloc: Global, faulty: Faulty, words: &[&[u8]]) -> Result<Meant, AllocError>
    requires mendable { is_mendable (texts words.now) ≡ true }
    ensures { IfOk result (IsMeant faulty.entry.version) }
{
    match faulty.fault {
        Fault::StrayByte => {
            let mut edited = Edited::none(alloc, faulty.version);
            edited.push(words)?;
            only_of(faulty.version, &edited)
        }
        Fault::UnknownPlayer => {
            let mut edited = Edited::none(alloc, faulty.version);
            edited.push_named(words, faulty.players)?;
            only_of(faulty.version, &edited)
        }
        Fault::UnknownWord | Fault::WrongWords => meant_by_words(alloc, faulty, words),
        _ => Ok(Meant::Unknown),
    }
}

/// Returns what was meant by words that spell no order: with one of them respelled, completed, with
/// words split or joined, with one moved, or without one. The first of these edits that gives an
/// order decides.
fn meant_by_words(alloc: Global, faulty: Faulty, words: &[&[u8]]) -> Result<Meant, AllocError>
    requires mendable { is_mendable (texts words.now) ≡ true }
    ensures { IfOk result (IsMeant faulty.entry.version) }
{
    let mut respelled = Edited::none(alloc, faulty.version);
    respelled.push_respelled(words)?;
    respelled.push_named(words, faulty.players)?;
    if let Meant::Line(line) = only_of(faulty.version, &respelled)? {
        return Ok(Meant::Line(line));
    }
    let completed = Completed::of(alloc, faulty.version, words)?;
    if !completed.said.is_empty() {
        return Ok(Meant::Completed(completed));
    }
    let mut parted = Edited::none(alloc, faulty.version);
    parted.push_parted(words)?;
    if let Meant::Line(line) = only_of(faulty.version, &parted)? {
        return Ok(Meant::Line(line));
    }
    let mut moved = Edited::none(alloc, faulty.version);
    moved.push_moved(words)?;
    if let Meant::Line(line) = only_of(faulty.version, &moved)? {
        return Ok(Meant::Line(line));
    }
    let mut shortened = Edited::none(alloc, faulty.version);
    shortened.push_shortened(words, matches!(faulty.fault, Fault::UnknownWord))?;
    only_of(faulty.version, &shortened)
}

/// Returns the only one of some lines that is an order; `Unknown` if none or several are.
#[tactic(auto, using(crate::proofs::ChoiceLemmas::only_one_is_order))]
fn only_of(version: Version, edited: &Edited) -> Result<Meant, AllocError>
    ensures { IfOk result (IsMeant version) }
{
    let lines = edited.texts()?;
    match only_order(version, lines.as_slice()) {
        Some(line) => Ok(Meant::Line(Vec::from_slice(edited.alloc, line)?)),
        None => Ok(Meant::Unknown),
    }
}

/// Adds the lines that complete a line, all equally near.
fn push_completed(out: &mut Vec<u8>, completed: &Completed) -> Result<(), AllocError> {
    let count = completed.said.len();
    for (place, said) in completed.said.iter().enumerate() {
        let parted: &[u8] = if place == 0 {
            b"; write "
        } else if place.saturating_add(1) == count {
            b" or "
        } else {
            b", "
        };
        out.extend_from_slice(parted)?;
        out.extend_from_slice(said.as_slice())?;
    }
    Ok(())
}

/// Returns whether some words are PASS alone, or begin with it.
fn is_pass(words: &[&[u8]]) -> bool {
    match words {
        [first, ..] => {
            first.eq_ignore_ascii_case(b"PASS") || first.eq_ignore_ascii_case(b"PASSES")
        }
        [] => false,
    }
}

/// Adds the nearest word to each unknown word of a line: to the first one among the first words of
/// lines, and if that is one of them to those that follow among the words and codes of orders.
fn push_nearest(out: &mut Vec<u8>, line: &[u8]) -> Result<(), AllocError> {
    let (words, _) = words_of(line);
    if !is_code(words[0], &FIRSTS) {
        return match nearest(words[0], &FIRSTS) {
            Some(first) => push_write(out, words[0], first),
            None => Ok(()),
        };
    }
    for word in words.iter().skip(1) {
        if has_digit(word) || is_code(word, &FIRSTS) {
            continue;
        }
        if let Some(code) = nearest(word, &CODES) {
            push_write(out, word, code)?;
        }
    }
    Ok(())
}

/// Adds what to write for a word.
fn push_write(out: &mut Vec<u8>, word: &[u8], code: &[u8]) -> Result<(), AllocError> {
    out.extend_from_slice(b"; for ")?;
    out.extend_from_slice(word.get(..SHOWN).unwrap_or(word))?;
    out.extend_from_slice(b" write ")?;
    out.extend_from_slice(code)
}
