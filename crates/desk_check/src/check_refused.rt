//! Why a file is refused: which line it is, and what is wrong with it.

use desk_trials::{FileLine, FileLines, is_mail};
use hints::words_of;
use order_grammar::{Fault, NAME_MOST, Order, begins_with_word, read_line};
use sheets::{FILE_MOST, FileFault, GAME, is_blank};
use tables::{PLAYERS_LEAST, PLAYERS_MOST};

/// The bytes that some editors write before the first line of a text.
const BYTE_ORDER_MARK: &[u8] = b"\xEF\xBB\xBF";

/// What is wrong with a line of a mail.
const MAIL: &str = "it is of a mail; cut it off, or put # before it";

/// What is wrong with a line of too many bytes.
const TOO_LONG: &str = "it has more than 1,024 bytes";

/// What is wrong with a line that has a stray byte before its comment.
const STRAY_BYTE: &str = "it has a byte that is not printable ASCII, such as a tab or a hard space";

/// What is wrong with a line that is not a header.
const NO_HEADER: &str = "the first line must be GAME 1830 1 or GAME 1830 2";

/// Why a file is refused.
#[derive(Clone, Copy)]
pub(crate) enum Cause<'a> {
    /// What is wrong with the line, or with the file as a whole.
    Said(&'static str),
    /// Too few players are named, or too many.
    Number(usize),
    /// This name, and what is wrong with it.
    Name(&'a [u8], &'static str),
}

/// A cause, with the line that it is about, if any.
#[derive(Clone, Copy)]
pub(crate) struct Refusal<'a> {
    pub(crate) line: Option<FileLine<'a>>,
    pub(crate) cause: Cause<'a>,
}

/// Returns why a file with this fault is refused.
pub(crate) fn refusal_of(file: &[u8], fault: FileFault) -> Refusal<'_> {
    let (line, cause) = match fault {
        FileFault::TooLong | FileFault::Memory => {
            (None, Cause::Said("it has more than 67,108,864 bytes"))
        }
        FileFault::TooManySheets => (
            None,
            Cause::Said("it has more than 65,536 good SHEET lines"),
        ),
        FileFault::Header => {
            let line = written_line(file, 0);
            (line, Cause::Said(cause_of_header(file, line)))
        }
        FileFault::Players => {
            let line = written_line(file, 1);
            (line, cause_of_players(line))
        }
    };
    Refusal { line, cause }
}

/// Returns the first line of a file that is not blank, after this many such lines; `None` if there
/// is none.
fn written_line(file: &[u8], before: usize) -> Option<FileLine<'_>> {
    if file.len() > FILE_MOST {
        return None;
    }
    let mut left = before;
    let lines = FileLines {
        passed: 0,
        rest: file,
    };
    for line in lines {
        if is_blank(line.text) {
            continue;
        }
        if left == 0 {
            return Some(line);
        }
        left -= 1;
    }
    None
}

/// Returns what is wrong with the first line of a file that is not blank.
fn cause_of_header(file: &[u8], line: Option<FileLine>) -> &'static str {
    let Some(FileLine { text, .. }) = line else {
        return "it has no line that is not blank; the first must be GAME 1830 1";
    };
    if text.starts_with(BYTE_ORDER_MARK) {
        return "there is a byte order mark before it; save the file without one";
    }
    if is_wide(file) {
        return "the file is UTF-16; save it as plain text";
    }
    if is_mail(text) {
        return MAIL;
    }
    match &read_line(text) {
        Ok(read) => match &read.order {
            Order::Game { game: GAME, .. } => "it is of another version than 1 and 2",
            Order::Game { .. } => "it is of another game than 1830",
            _ => NO_HEADER,
        },
        Err(Fault::TooLong) => TOO_LONG,
        Err(Fault::StrayByte) => STRAY_BYTE,
        Err(_) if begins_with_word(text, b"GAME") => {
            "the words after GAME are not 1830 1 and not 1830 2"
        }
        Err(_) => NO_HEADER,
    }
}

/// Returns whether a text is UTF-16: it begins with a mark of UTF-16, or its first or second byte
/// is 0.
fn is_wide(file: &[u8]) -> bool {
    matches!(
        file,
        [0xFF, 0xFE, ..] | [0xFE, 0xFF, ..] | [0, ..] | [_, 0, ..]
    )
}

/// Returns what is wrong with the line after the header.
fn cause_of_players<'a>(line: Option<FileLine<'a>>) -> Cause<'a> {
    let Some(FileLine { text, .. }) = line else {
        return Cause::Said("no PLAYERS line follows the header");
    };
    if is_mail(text) {
        return Cause::Said(MAIL);
    }
    if !begins_with_word(text, b"PLAYERS") {
        return Cause::Said("a PLAYERS line is to follow the header");
    }
    match &read_line(text) {
        Err(Fault::TooLong) => Cause::Said(TOO_LONG),
        Err(Fault::StrayByte) => Cause::Said(STRAY_BYTE),
        _ => cause_of_names(text),
    }
}

/// Returns what is wrong with the names of a PLAYERS line.
fn cause_of_names(line: &[u8]) -> Cause<'_> {
    let (words, count) = words_of(line);
    let names = match words.get(1..count) {
        Some(names) if (PLAYERS_LEAST..=PLAYERS_MOST).contains(&names.len()) => names,
        _ => return Cause::Number(count.saturating_sub(1)),
    };
    for (place, name) in names.iter().enumerate() {
        if let Some(words) = cause_of_name(name, &names[..place]) {
            return Cause::Name(name, words);
        }
    }
    Cause::Said("it names no 3 to 6 different players")
}

/// Returns what is wrong with a name after these others; `None` if nothing is.
fn cause_of_name(name: &[u8], others: &[&[u8]]) -> Option<&'static str> {
    for byte in name {
        if !byte.is_ascii_alphanumeric() {
            return Some(" has another byte than the letters A to Z and digits");
        }
    }
    if !name.first()?.is_ascii_alphabetic() {
        return Some(" does not begin with a letter");
    }
    if name.len() > NAME_MOST {
        return Some(" has more than 8 letters and digits");
    }
    for other in others {
        if other.eq_ignore_ascii_case(name) {
            return Some(" stands twice");
        }
    }
    None
}
