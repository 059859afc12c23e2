//! Reads the groups of a text of certificates one at a time, each from its CERT line to the next.
ghost use Rattle.std.specs.Prelude.{◌≡◌, [], ◌∷◌, IfOk, MatchOption, OnOk};
ghost use Rattle.umpire.specs.Groups.{begins_group, group_begun, group_behind, group_if, group_with_line, groups_of};
ghost use Rattle.umpire.specs.Groups.{second_of_words, with_marks, with_run};
ghost use Rattle.umpire.specs.Verifier.{IsReadFor};
ghost use Rattle.order_grammar.specs.Line.{cert_reading_of};
ghost use Rattle.order_grammar.specs.Words.{texts_of};

use certificate::{Bits, Claim, ClaimedRun, ClaimedRuns, Group};
use order_grammar::{Line, Order, Words, begins_with_word, read_cert_line};
use sheets::{LineAndRest, first_line};
use std::alloc::{AllocError, Global};

/// Returns the next line of a text of certificates that begins a group, and the text after it.
/// `None` if none is left.
pub(crate) fn next_head(text: &[u8]) -> Option<LineAndRest<'_>>
    ensures { MatchOption result (groups_of text.now ≡ [])
        (λ head. groups_of text.now ≡
        group_behind head.line.now head.rest.now ∷ groups_of head.rest.now) }
{
    let mut rest = text;
    while let Some(piece) = first_line(rest) {
        if begins_group(piece.line) {
            return Some(piece);
        }
        rest = piece.rest;
    }
    None
}

/// A group that was read, and the text from the first line after it.
#[derive(Drop)]
pub(crate) struct GroupAndRest<'a> {
    pub(crate) group: Option<Group>,
    pub(crate) rest: &'a [u8],
}

/// Reads a group for this many trains, from its CERT line and the text after that, up to the next
/// CERT line. The group is `None` if it is malformed or claims more runs than there are trains, so
/// that at most one run more than that is held. The rest has all further groups of the text. Fails
/// only if allocation fails.
pub(crate) fn read_group<'a>(
    alloc: Global,
    head: &[u8],
    text: &'a [u8],
    trains: usize,
) -> Result<GroupAndRest<'a>, AllocError>
    ensures group { IfOk result
        (λ read. IsReadFor trains (group_behind head.now text.now) read.group) }
    ensures rest { IfOk result (λ read. groups_of read.rest.now ≡ groups_of text.now) }
{
    let mut rest = text;
    let Some(mut group) = group_begun(alloc, head) else {
        return Ok(GroupAndRest { group: None, rest });
    };
    while let Some(piece) = first_line(rest) {
        if begins_group(piece.line) {
            return Ok(GroupAndRest {
                group: Some(group),
                rest,
            });
        }
        if !take_line(&mut group, piece.line)? {
            return Ok(GroupAndRest { group: None, rest });
        }
        if group.claim.runs.as_slice().len() > trains {
            return Ok(GroupAndRest { group: None, rest });
        }
        rest = piece.rest;
    }
    Ok(GroupAndRest {
        group: Some(group),
        rest,
    })
}

/// Returns whether the first word of a line is CERT.
#[tactic(auto, unfolding(crate::specs::Groups::begins_group))]
fn begins_group(line: &[u8]) -> bool
    ensures { result ≡ begins_group line.now }
{
    begins_with_word(line, b"CERT")
}

/// Returns the group that a CERT line begins; `None` if the line has a fault.
fn group_begun(alloc: Global, head: &[u8]) -> Option<Group>
    ensures { result ≡ group_begun (cert_reading_of head.now) }
{
    match read_cert_line(head).ok()?.order {
        Order::Cert {
            round,
            company,
            revenue,
        } => Some(Group {
            round,
            company,
            claim: Claim {
                revenue,
                runs: ClaimedRuns::new(alloc),
            },
            bits: Bits::new(alloc),
        }),
        _ => None,
    }
}

/// Takes a line into a group. Returns `false` if the line makes the group malformed; then the group
/// does not change.
#[tactic(auto, unfolding(crate::specs::Groups::group_with_line))]
fn take_line(group: &mut Group, line: &[u8]) -> Result<bool, AllocError>
    ensures { IfOk result (λ taken. group_if taken group.new ≡ group_with_line group.old line.now) }
{
    let Ok(Line { order, words, .. }) = read_cert_line(line) else {
        return Ok(false);
    };
    match order {
        Order::Blank => Ok(true),
        Order::Claim { kind, run } => take_run(group, ClaimedRun { kind, run }),
        Order::Marks => {
            take_marks(group, words)?;
            Ok(true)
        }
        _ => Ok(false),
    }
}

/// Takes a run into a group, unless the group has marks. Returns whether it was taken.
fn take_run(group: &mut Group, run: ClaimedRun) -> Result<bool, AllocError>
    ensures { IfOk result (λ taken. group_if taken group.new ≡ with_run group.old run
        group.old.bits) }
{
    if !group.bits.reader().is_empty() {
        return Ok(false);
    }
    group.claim.runs.push(run)?;
    Ok(true)
}

/// Takes the marks of a MARKS line into a group.
fn take_marks(group: &mut Group, mut words: Words) -> Result<(), AllocError>
    ensures { OnOk result
        (group.new ≡ with_marks group.old (second_of_words (texts_of words.entry))) }
{
    words.next();
    match words.next() {
        Some(digits) => group.bits.add_digits(digits.text),
        None => Ok(()),
    }
}
