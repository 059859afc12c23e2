//! Sets of numbers, a bit each: of the borders or the spots of the map.
ghost use Rattle.std.specs.Prelude.{◌≡◌, ℕ, ◌-◌, ◌<◌, ◌||◌, IsTrue, Some, true, false, get_or, length, set, replicate};
ghost use Rattle.std.specs.Int.{bit_at};
ghost use Rattle.search_task.specs.Marks.{AreApart, AreBarred, AreBoth, AreOnly, FillWords, Freer, IsOneOf};

use crate::spot_number::SpotNumber;
use legal_runs::BORDERS;
use reach::SPOTS;
use std::marker::Model;

/// The number of words that hold a bit for each border.
const BORDER_WORDS: usize = 5;

/// The number of words that hold a bit for each spot.
const SPOT_WORDS: usize = 12;

/// How many bits a word has.
const BITS: usize = 64;

/// Marks of borders.
pub type Borders = BitSet<BORDERS, BORDER_WORDS>;

/// Marks of spots.
pub type Spots = BitSet<SPOTS, SPOT_WORDS>;

/// Marks of the numbers below a count, as the bits of this many words.
#[derive(Drop)]
pub struct BitSet<const COUNT: usize, const WORDS: usize> {
    words: [u64; WORDS],
}

impl<const COUNT: usize, const WORDS: usize> Model for BitSet<COUNT, WORDS> {
    ghost use Rattle.std.specs.Prelude.{Bool, List};
    ghost use Rattle.search_task.specs.Marks.{FillWords, HasNoneFrom, marks_in};

    ghost Value = { List Bool };

    ghost view = { λ marks. marks_in COUNT marks.words };

    ghost invariant = { λ marks. FillWords COUNT WORDS × HasNoneFrom COUNT marks.words };
}

/// The number of a spot, with the place of the word that marks it, and its bit there. In a contract
/// it is the number.
#[derive(Drop)]
pub struct BitPlace {
    number: u32,
    word: u32,
    bit: u64,
}

impl Model for BitPlace {
    ghost use Rattle.std.specs.Prelude.{◌≡◌, ◌/◌, ◌<◌, ℕ};
    ghost use Rattle.reach.specs.Search.{map_spots};

    ghost Value = { ℕ };

    ghost use Rattle.search_task.specs.Marks.{IsBitOf};

    ghost view = { λ place. place.number };

    ghost invariant = { λ place. (place.number < map_spots)
        × (place.word ≡ place.number / 64) × IsBitOf place.number place.bit };
}

impl BitPlace {
    /// Returns the number of a spot, with its bit.
    pub(crate) fn of(spot: SpotNumber) -> BitPlace
        ensures { result ≡ spot }
    {
        let number = spot.index();
        BitPlace {
            number: number as u32,
            word: (number / BITS) as u32,
            bit: 1 << (number % BITS),
        }
    }

    /// Returns the number of the spot.
    pub fn number(&self) -> SpotNumber
        ensures { result ≡ self.now }
    {
        SpotNumber::of(self.number as usize)
    }
}

/// Returns the bits of a word that another does not have.
fn without(word: u64, other: u64) -> u64
    ensures { (bit : ℕ) → bit < 64 → bit_at result bit ≡ bit_at word bit - bit_at other bit }
{
    word & !other
}

/// Returns a number that depends on another and on a word. Any number would do.
pub fn mixed_with(sum: u64, word: u64) -> u64 {
    let mixed = (sum ^ word).wrapping_mul(0x9E37_79B9_7F4A_7C15);
    mixed ^ (mixed >> 29)
}

impl<const COUNT: usize, const WORDS: usize> BitSet<COUNT, WORDS> {
    /// Returns no marks.
    pub fn none() -> Self
        requires { FillWords COUNT WORDS }
        ensures { result ≡ replicate COUNT false }
    {
        BitSet { words: [0; WORDS] }
    }

    /// Returns marks of all numbers.
    pub fn all() -> Self
        requires { FillWords COUNT WORDS }
        ensures { result ≡ replicate COUNT true }
    {
        let mut words = [u64::MAX; WORDS];
        let before = BITS * (WORDS - 1);
        words[WORDS - 1] = u64::MAX >> (BITS - (COUNT - before));
        BitSet { words }
    }

    /// Returns the same marks.
    pub fn copy(&self) -> Self
        ensures { result ≡ self.now }
    {
        BitSet { words: self.words }
    }

    /// States that each number has its mark. It does nothing; a proof calls it to use the law.
    pub fn is_whole(&self)
        ensures { length self.now ≡ COUNT }
    {
        let _ = self.words[0];
    }

    /// Marks a number.
    pub fn mark(&mut self, number: usize)
        requires { number < COUNT }
        ensures { self.new ≡ set self.old number true }
    {
        self.words[number / BITS] |= 1 << (number % BITS);
    }

    /// Returns whether a number is marked.
    pub fn has(&self, number: usize) -> bool
        requires { number < COUNT }
        ensures { result ≡ get_or self.now number false }
    {
        self.words[number / BITS] >> (number % BITS) & 1 == 1
    }

    /// Returns whether no number is marked in both.
    pub fn is_apart_from(&self, other: &Self) -> bool
        ensures apart { IsTrue result → AreApart self.now other.now }
        ensures meet { result ≡ false → AreApart self.now other.now → ⊥ }
    {
        for word in 0..WORDS {
            if self.words[word] & other.words[word] != 0 {
                return false;
            }
        }
        true
    }

    /// Returns whether all numbers that are marked here are marked in another.
    pub fn is_within(&self, other: &Self) -> bool
        ensures { IsTrue result → Freer other.now self.now }
    {
        for word in 0..WORDS {
            if without(self.words[word], other.words[word]) != 0 {
                return false;
            }
        }
        true
    }

    /// Returns the numbers that are marked here or in another.
    pub fn with(&self, other: &Self) -> Self
        ensures { AreBoth self.now other.now result }
    {
        let mut words = self.words;
        for word in 0..WORDS {
            words[word] |= other.words[word];
        }
        BitSet { words }
    }

    /// Removes the marks of another.
    pub fn clear(&mut self, other: &Self)
        ensures { AreOnly self.old other.now self.new }
    {
        for word in 0..WORDS {
            self.words[word] = without(self.words[word], other.words[word]);
        }
    }

    /// Returns the numbers that are marked here or are not in reach.
    pub fn or_out_of(&self, reach: &Self) -> Self
        ensures { AreBarred self.now reach.now result }
    {
        self.is_whole();
        let mut open = reach.copy();
        open.clear(self);
        let mut barred = Self::all();
        barred.clear(&open);
        barred
    }

    /// Returns a number that is marked; `None` if none is.
    pub fn first(&self) -> Option<usize>
        ensures marked { IsOneOf self.now result }
        ensures low { (number : ℕ) → result ≡ Some number → number < COUNT }
    {
        for word in 0..WORDS {
            if self.words[word] != 0 {
                return Some(BITS * word + self.words[word].trailing_zeros() as usize);
            }
        }
        None
    }

    /// Returns a number that depends on another and on which numbers are marked here. Any number
    /// would do.
    pub fn mixed(&self, other: u64) -> u64 {
        let mut sum = other;
        for word in 0..WORDS {
            sum = mixed_with(sum, self.words[word]);
        }
        sum
    }
}

impl BitSet<SPOTS, SPOT_WORDS> {
    /// Returns whether a spot is marked, given with its bit.
    pub fn has_at(&self, place: &BitPlace) -> bool
        ensures { result ≡ get_or self.now place.now false }
    {
        self.words[place.word as usize] & place.bit != 0
    }

    /// Returns whether a spot is marked here or in another, given with its bit.
    pub fn either_has(&self, other: &Self, place: &BitPlace) -> bool
        ensures { result ≡ get_or self.now place.now false || get_or other.now place.now false }
    {
        let at = place.word as usize;
        let word = self.words[at] | other.words[at];
        word & place.bit != 0
    }
}
