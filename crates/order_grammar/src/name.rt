//! The names of players, and the words that spell one.
ghost use Rattle.std.specs.Bool.{OnTrue};
ghost use Rattle.std.specs.Prelude.{◌≡◌, ◌≤◌, [], None, Some, if◌then◌else◌, length};
ghost use Rattle.order_grammar.specs.Name.{is_name};
ghost use Rattle.order_grammar.specs.Words.{raised};

use std::marker::Model;

/// The most letters and digits of a player's name.
pub const NAME_MOST: usize = 8;

/// A player's name: a letter, then up to seven letters or digits, in upper case.
#[derive(Clone, Copy, Debug, PartialEq, Eq, Hash)]
pub struct Name {
    letters: [u8; NAME_MOST],
    count: usize,
}

/// In a contract a name is its text.
impl Model for Name {
    ghost use Rattle.std.specs.Prelude.{◌≡◌, ℕ, ◌-◌, ◌≤◌, List, ◌++◌, length, take, drop, replicate};

    ghost Value = { List ℕ };

    ghost view = { λ n. take n.count n.letters };

    ghost invariant = { λ n. (n.count ≤ 8) × (length n.letters ≡ 8)
        × (drop n.count n.letters ≡ replicate (8 - n.count) 0) };

    ghost inverse = { λ text.
        record { letters = text ++ replicate (8 - length text) 0; count = length text } };

    ghost use Rattle.order_grammar.specs.Name.{padded_again};
    ghost use Rattle.std.proofs.Common.{ap};

    ghost inverse_ok = { λ a h.
        ap (λ (p : List ℕ × ℕ). record { letters = p.0; count = p.1 })
        (padded_again a.letters a.count h.0 h.1 h.2) };
}

impl Name {
    /// Returns the name that a word spells, in either case; `None` if it spells none.
    pub fn from_word(word: &[u8]) -> Option<Name>
        ensures { result ≡ (if is_name (raised word.now) then Some (raised word.now) else None) }
    {
        if !spells_name(word) {
            return None;
        }
        let mut letters = [0; NAME_MOST];
        for (i, byte) in word.iter().enumerate() {
            letters[i] = byte.to_ascii_uppercase();
        }
        Some(Name {
            letters,
            count: word.len(),
        })
    }

    /// Returns its letters and digits, in upper case.
    pub fn text(&self) -> &[u8]
        ensures { result.now ≡ self.now }
    {
        let letters = &self.letters;
        &letters[..self.count]
    }
}

impl Default for Name {
    ghost is_default = { λ name. name ≡ [] };

    /// Returns an empty name, which fills the unused part of a list of names. No player has it.
    fn default() -> Name {
        Name {
            letters: [0; NAME_MOST],
            count: 0,
        }
    }
}

/// Returns whether a word, in either case, is a letter and then up to seven letters or digits.
fn spells_name(word: &[u8]) -> bool
    ensures value { result ≡ is_name (raised word.now) }
    ensures short { OnTrue result (length word.now ≤ 8) }
{
    match word {
        [first, rest @ ..] => {
            first.is_ascii_alphabetic()
                && rest.len() < NAME_MOST
                && rest.iter().all(|byte| byte.is_ascii_alphanumeric())
        }
        [] => false,
    }
}
