//! Lines that are one edit away from a line, each as a whole, in upper case.
ghost use Rattle.std.specs.Prelude.{◌≡◌, OnOk, []};
ghost use Rattle.hints.specs.Words.{with_word};

use crate::choice::is_order;
use crate::signs::{bare, by_sign, push_amount};
use crate::slips::{is_code, is_near, nearest};
use crate::vocabulary::{CODES, FIRSTS};
use crate::words::{LETTERS_MOST, has_digit};
use order_grammar::Version;
use std::alloc::{AllocError, Global};
use std::mem::replace;
use std::ops::Range;

/// The edited lines that are orders, no two of which are equal.
#[derive(Drop)]
pub(crate) struct Edited {
    pub(crate) alloc: Global,
    /// The version of the file.
    pub(crate) version: Version,
    /// A line that is not used, for the next edit.
    spare: Vec<u8>,
    pub(crate) lines: Vec<Vec<u8>>,
}

impl Edited {
    /// Returns no lines yet.
    pub(crate) fn none(alloc: Global, version: Version) -> Edited
        ensures version { result.version ≡ version }
        ensures none { result.lines.items ≡ [] }
    {
        Edited {
            alloc,
            version,
            spare: Vec::new(alloc),
            lines: Vec::new(alloc),
        }
    }

    /// Returns the lines as slices.
    pub(crate) fn texts(&self) -> Result<Vec<&[u8]>, AllocError> {
        let mut texts = Vec::new(self.alloc);
        for line in &self.lines {
            texts.push(line.as_slice())?;
        }
        Ok(texts)
    }

    /// Returns a line without words, in memory that was used before.
    fn blank(&mut self) -> Vec<u8>
        ensures version { self.new.version ≡ self.old.version }
        ensures blank { result.items ≡ [] }
    {
        let mut line = replace(&mut self.spare, Vec::new(self.alloc));
        line.clear();
        line
    }

    /// Adds a line if it is an order, unless it is there already.
    fn add(&mut self, line: Vec<u8>) -> Result<(), AllocError>
        ensures { self.new.version ≡ self.old.version }
    {
        let text = line.as_slice();
        if is_order(self.version, text)
            && !self.lines.iter().any(|other| other.as_slice() == text)
        {
            self.lines.push(Vec::from_slice(self.alloc, text)?)?;
        }
        self.spare = line;
        Ok(())
    }

    /// Adds the line of some words.
    pub(crate) fn push(&mut self, words: &[&[u8]]) -> Result<(), AllocError>
        ensures { self.new.version ≡ self.old.version }
    {
        let mut line = self.blank();
        for word in words {
            push_word(&mut line, word)?;
        }
        self.add(line)
    }

    /// Adds the line of some words with another word at a place.
    fn push_with(&mut self, words: &[&[u8]], place: usize, other: &[u8]) -> Result<(), AllocError>
        ensures { self.new.version ≡ self.old.version }
    {
        let mut line = self.blank();
        for (at, word) in words.iter().enumerate() {
            push_word(&mut line, if at == place { other } else { word })?;
        }
        self.add(line)
    }

    /// Adds the lines in which one word is replaced by a word of orders that is a slip away.
    pub(crate) fn push_respelled(&mut self, words: &[&[u8]]) -> Result<(), AllocError> {
        for (place, word) in words.iter().enumerate() {
            if place == 0 {
                self.push_each_near(words, place, word, &FIRSTS)?;
            } else if !has_digit(word) && !is_code(word, &FIRSTS) {
                self.push_each_near(words, place, word, &CODES)?;
            }
        }
        Ok(())
    }

    /// Adds the lines with one of these codes in place of a word that is a slip away from it; none
    /// if the word is itself one of them.
    fn push_each_near(
        &mut self,
        words: &[&[u8]],
        place: usize,
        word: &[u8],
        codes: &[&[u8]],
    ) -> Result<(), AllocError> {
        if is_code(word, codes) {
            return Ok(());
        }
        for code in codes {
            if is_near(word, code) {
                self.push_with(words, place, code)?;
            }
        }
        Ok(())
    }

    /// Adds the lines of the words of a SHEET line with the name of one of these players, if its
    /// own name is a slip away from it.
    pub(crate) fn push_named(
        &mut self,
        words: &[&[u8]],
        players: &[&[u8]],
    ) -> Result<(), AllocError> {
        let [_, name, ..] = words else {
            return Ok(());
        };
        match player_meant(name, players) {
            Some(player) => self.push_with(words, 1, player),
            None => Ok(()),
        }
    }

    /// Adds the line without the signs around its words; the line whose signs for "at least" are
    /// words of their own, and `>=`; and the lines in which two words are joined, or one is split.
    pub(crate) fn push_parted(&mut self, words: &[&[u8]]) -> Result<(), AllocError> {
        self.push_bare(words)?;
        self.push_at_least(words)?;
        for (place, word) in words.iter().enumerate() {
            if let Some(next) = words.get(place.saturating_add(1)) {
                self.push_joined(words, place, word, next)?;
            }
            for at in splits_of(word) {
                self.push_split(words, place, word, at)?;
            }
        }
        Ok(())
    }

    /// Adds the line of some words without the signs around them.
    fn push_bare(&mut self, words: &[&[u8]]) -> Result<(), AllocError>
        ensures { self.new.version ≡ self.old.version }
    {
        let mut line = self.blank();
        for word in words {
            push_word(&mut line, bare(word))?;
        }
        self.add(line)
    }

    /// Adds the line of some words in which each run of signs for "at least" is the word `>=`. If
    /// the sign was for "more than", the number after it is one more.
    fn push_at_least(&mut self, words: &[&[u8]]) -> Result<(), AllocError>
        ensures { self.new.version ≡ self.old.version }
    {
        let mut line = self.blank();
        let mut is_over = false;
        for word in words {
            let signed = by_sign(word);
            is_over = push_amount(&mut line, signed.before, is_over)?;
            if let Some(sign) = signed.sign {
                push_word(&mut line, b">=")?;
                is_over = sign.is_over;
            }
            is_over = push_amount(&mut line, signed.after, is_over)?;
        }
        self.add(line)
    }

    /// Adds the line of some words in which the word at a place and the next are one.
    fn push_joined(
        &mut self,
        words: &[&[u8]],
        place: usize,
        word: &[u8],
        next: &[u8],
    ) -> Result<(), AllocError>
        ensures { self.new.version ≡ self.old.version }
    {
        let mut joined = Vec::new(self.alloc);
        joined.extend_from_slice(word)?;
        joined.extend_from_slice(next)?;
        let mut line = self.blank();
        for (at, word) in words.iter().enumerate() {
            if at == place {
                push_word(&mut line, joined.as_slice())?;
            } else if at != place.saturating_add(1) {
                push_word(&mut line, word)?;
            }
        }
        self.add(line)
    }

    /// Adds the line of some words in which the word at a place is split in two, the first part
    /// with this many bytes.
    fn push_split(
        &mut self,
        words: &[&[u8]],
        place: usize,
        word: &[u8],
        at: usize,
    ) -> Result<(), AllocError>
        ensures { self.new.version ≡ self.old.version }
    {
        let mut line = self.blank();
        for (other, whole) in words.iter().enumerate() {
            if other == place {
                push_word(&mut line, word.get(..at).unwrap_or(&[]))?;
                push_word(&mut line, word.get(at..).unwrap_or(&[]))?;
            } else {
                push_word(&mut line, whole)?;
            }
        }
        self.add(line)
    }

    /// Adds the lines in which one word is moved to another place.
    pub(crate) fn push_moved(&mut self, words: &[&[u8]]) -> Result<(), AllocError> {
        for (from, word) in words.iter().enumerate() {
            for to in 0..words.len() {
                // Moving a word one place forward is moving the next word one place back.
                if to != from && to.saturating_add(1) != from {
                    self.push_with_moved(words, from, to, word)?;
                }
            }
        }
        Ok(())
    }

    /// Adds the line of some words in which the word at a place is moved to another.
    fn push_with_moved(
        &mut self,
        words: &[&[u8]],
        from: usize,
        to: usize,
        moved: &[u8],
    ) -> Result<(), AllocError>
        ensures { self.new.version ≡ self.old.version }
    {
        let mut line = self.blank();
        for (at, word) in words.iter().enumerate() {
            if at == to && to < from {
                push_word(&mut line, moved)?;
            }
            if at != from {
                push_word(&mut line, word)?;
            }
            if at == to && to > from {
                push_word(&mut line, moved)?;
            }
        }
        self.add(line)
    }

    /// Adds the lines in which one word is left out, the first one too if it `may_be_first`.
    pub(crate) fn push_shortened(
        &mut self,
        words: &[&[u8]],
        may_be_first: bool,
    ) -> Result<(), AllocError> {
        let from = if may_be_first { 0 } else { 1 };
        for place in from..words.len() {
            self.push_with(words, place, b"")?;
        }
        Ok(())
    }
}

/// Adds a word to a line, in upper case, after a space unless it is the first; nothing if it is
/// empty.
pub(crate) fn push_word(line: &mut Vec<u8>, word: &[u8]) -> Result<(), AllocError>
    ensures { OnOk result (line.new.items ≡ with_word line.old.items word.now) }
{
    if word.is_empty() {
        return Ok(());
    }
    if !line.is_empty() {
        line.push(b' ')?;
    }
    for byte in word {
        line.push(byte.to_ascii_uppercase())?;
    }
    Ok(())
}

/// Returns where a word may be split so that neither part is longer than a word of an order.
fn splits_of(word: &[u8]) -> Range<usize> {
    let least = word.len().saturating_sub(LETTERS_MOST).max(1);
    least..word.len().min(LETTERS_MOST.saturating_add(1))
}

/// Returns the player whose name is nearly this word: one slip away, or longer or shorter at its
/// end; `None` if there is no such player, or several.
fn player_meant<'a>(word: &[u8], players: &[&'a [u8]]) -> Option<&'a [u8]> {
    if let Some(player) = nearest(word, players) {
        return Some(player);
    }
    let mut meant = None;
    for player in players {
        if begins_alike(word, player) {
            if meant.is_some() {
                return None;
            }
            meant = Some(*player);
        }
    }
    meant
}

/// Returns whether one of two words begins with the other, which has over one letter. Case does not
/// matter.
fn begins_alike(word: &[u8], name: &[u8]) -> bool {
    let shorter = word.len().min(name.len());
    shorter > 1 && word[..shorter].eq_ignore_ascii_case(&name[..shorter])
}
