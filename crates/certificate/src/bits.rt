//! A list of bits, packed eight to a byte, which takes hexadecimal digits, and a reader of its
//! bits, which prints them as such digits.
ghost use Rattle.std.specs.Prelude.{◌≡◌, ◌↔◌, ◌*◌, ◌+◌, ◌≤◌, true, Err, OnOk, OnErr, IfErr, IfOk, IsTrue, MatchOption, []};
ghost use Rattle.std.specs.Prelude.{◌∷◌, ◌++◌, take, drop, get_or, false};
ghost use Rattle.certificate.specs.Digits.{bits_of, bits_of_digit, bits_of_digits, digits_of, has_other};
ghost use Rattle.certificate.specs.declared.hex.HexFault.TheVariants.{Digit};

use crate::hex::{HexFault, bit_number, bits_of_digit, digit_of, has_other, value_of_digit};
use std::alloc::{AllocError, Global};
use std::marker::Model;

/// Bits, eight in a byte. In a contract they are a list.
#[derive(Drop)]
pub struct Bits {
    /// The bits of all bytes but the last, the first in the highest place.
    bytes: Vec<u8>,
    /// The bits after them, the last in the lowest place.
    last: u8,
    /// How many these are, less than eight.
    count: u8,
}

impl Model for Bits {
    ghost use Rattle.std.specs.Prelude.{Bool, List, ◌++◌, ◌<◌, ◌^◌};
    ghost use Rattle.certificate.specs.Digits.{bits_of, bits_of_bytes};

    ghost Value = { List Bool };

    ghost view = { λ bits. bits_of_bytes bits.bytes.items ++ bits_of bits.count bits.last };

    ghost invariant = { λ bits. (bits.count < 8) × (bits.last < 2 ^ bits.count) };
}

impl Bits {
    /// Returns no bits.
    pub fn new(alloc: Global) -> Bits
        ensures { result ≡ [] }
    {
        Bits {
            bytes: Vec::new(alloc),
            last: 0,
            count: 0,
        }
    }

    /// Adds a bit at the end. Fails only if allocation fails, which leaves the bits unchanged.
    pub fn push(&mut self, bit: bool) -> Result<(), AllocError>
        ensures added { OnOk result (self.new ≡ self.old ++ bit ∷ []) }
        ensures kept { OnErr result (self.new ≡ self.old) }
    {
        let last = 2 * self.last + bit_number(bit);
        if self.count < 7 {
            self.last = last;
            self.count += 1;
            return Ok(());
        }
        self.bytes.push(last)?;
        self.last = 0;
        self.count = 0;
        Ok(())
    }

    /// Adds the bits of hexadecimal digits, of upper or lower case: four bits from each, the
    /// highest first. The error is `Digit` if a byte is not a digit; that is checked before
    /// anything is allocated, and leaves the bits unchanged. The error is `Memory` if allocation
    /// fails; then some bits may have been added.
    pub fn read_digits(&mut self, text: &[u8]) -> Result<(), HexFault>
        ensures digit { (result ≡ Err Digit) ↔ (has_other text.now ≡ true) }
        ensures added { OnOk result (self.new ≡ self.old ++ bits_of_digits text.now) }
        ensures kept { IfErr result (λ fault. fault ≡ Digit → self.new ≡ self.old) }
    {
        if has_other(text) {
            return Err(HexFault::Digit);
        }
        self.add_digits(text)?;
        Ok(())
    }

    /// Adds the bits of bytes that are known to be hexadecimal digits; another byte adds four 0
    /// bits. Fails only if allocation fails; then some may have been added.
    pub fn add_digits(&mut self, text: &[u8]) -> Result<(), AllocError>
        ensures { OnOk result (self.new ≡ self.old ++ bits_of_digits text.now) }
    {
        for digit in text {
            self.add_digit(*digit)?;
        }
        Ok(())
    }

    /// Adds the four bits of a hexadecimal digit, or four 0 bits for another byte. Fails only if
    /// allocation fails; then some may have been added.
    fn add_digit(&mut self, digit: u8) -> Result<(), AllocError>
        ensures { OnOk result (self.new ≡ self.old ++ bits_of_digit digit) }
    {
        let value = value_of_digit(digit);
        if self.count == 0 {
            self.last = value;
            self.count = 4;
            return Ok(());
        }
        if self.count == 4 {
            self.bytes.push(16 * self.last + value)?;
            self.last = 0;
            self.count = 0;
            return Ok(());
        }
        self.push_all(&bits_of_digit(digit))
    }

    /// Adds bits at the end.
    fn push_all(&mut self, bits: &[bool]) -> Result<(), AllocError>
        ensures { OnOk result (self.new ≡ self.old ++ bits.now) }
    {
        for bit in bits {
            self.push(*bit)?;
        }
        Ok(())
    }

    /// Returns a reader of the bits, from the first on.
    pub fn reader(&self) -> BitReader<'_>
        ensures { result ≡ self.now }
    {
        BitReader {
            open: 0,
            left: 0,
            bytes: self.bytes.as_slice(),
            last: self.last,
            count: self.count,
        }
    }
}

/// Returns the first of this many bits, the lowest ones of a byte; false if there are none.
fn first_bit(count: u8, byte: u8) -> bool
    requires { count ≤ 8 }
    ensures { result ≡ get_or (bits_of count byte) 0 false }
{
    count > 0 && (byte >> (count - 1)) % 2 == 1
}

/// Reads bits one after another. In a contract it is the list of the bits that are left.
#[derive(Drop)]
pub struct BitReader<'a> {
    /// The byte that is being read.
    open: u8,
    /// How many bits of it are left, the lowest ones.
    left: u8,
    /// The bytes after it.
    bytes: &'a [u8],
    /// The bits after the bytes.
    last: u8,
    /// How many these are.
    count: u8,
}

impl<'a> Model for BitReader<'a> {
    ghost use Rattle.std.specs.Prelude.{Bool, List, ◌++◌, ◌≤◌};
    ghost use Rattle.certificate.specs.Digits.{bits_of, bits_of_bytes};

    ghost Value = { List Bool };

    ghost view = { λ reader. bits_of reader.left reader.open
        ++ (bits_of_bytes reader.bytes.now ++ bits_of reader.count reader.last) };

    ghost invariant = { λ reader. (reader.left ≤ 8) × (reader.count ≤ 8) };
}

impl<'a> BitReader<'a> {
    /// Returns the next bit; `None` if none is left.
    pub fn read(&mut self) -> Option<bool>
        ensures { MatchOption result ((self.old ≡ []) × (self.new ≡ []))
            (λ bit. self.old ≡ bit ∷ self.new) }
    {
        if self.left == 0 {
            if let Some((first, later)) = self.bytes.split_first() {
                self.open = *first;
                self.left = 8;
                self.bytes = later;
            } else if self.count == 0 {
                return None;
            } else {
                self.open = self.last;
                self.left = self.count;
                self.count = 0;
            }
        }
        self.left -= 1;
        Some((self.open >> self.left) % 2 == 1)
    }

    /// Returns whether the next bit is 1; false if none is left.
    pub(crate) fn is_one(&self) -> bool
        ensures { result ≡ get_or self.now 0 false }
    {
        if self.left > 0 {
            return first_bit(self.left, self.open);
        }
        match self.bytes.split_first() {
            Some((first, _)) => first_bit(8, *first),
            None => first_bit(self.count, self.last),
        }
    }

    /// Returns whether no bit is left.
    pub fn is_empty(&self) -> bool
        ensures { IsTrue result ↔ (self.now ≡ []) }
    {
        if self.left > 0 || self.count > 0 {
            return false;
        }
        self.bytes.is_empty()
    }

    /// Prints the next bits at the end of a text, in hexadecimal digits of lower case, as
    /// `print_hex` prints them: this many digits, or all if fewer are left. Fails only if
    /// allocation fails; then some may have been printed.
    pub fn print_digits(&mut self, most: usize, text: &mut Vec<u8>) -> Result<(), AllocError>
        ensures printed { OnOk result
            (text.new.items ≡ text.old.items ++ digits_of (take (4 * most) self.old)) }
        ensures left { OnOk result (self.new ≡ drop (4 * most) self.old) }
    {
        for _ in 0..most {
            let Some(digit) = self.digit() else {
                return Ok(());
            };
            text.push(digit)?;
        }
        Ok(())
    }

    /// Returns the digit of the next four bits; `None` if no bit is left.
    fn digit(&mut self) -> Option<u8>
        ensures digit { MatchOption result (self.old ≡ [])
            (λ digit. digits_of (take 4 self.old) ≡ digit ∷ []) }
        ensures left { self.new ≡ drop 4 self.old }
    {
        let first = self.read()?;
        let second = self.read_or_0();
        let third = self.read_or_0();
        let fourth = self.read_or_0();
        Some(digit_of(first, second, third, fourth))
    }

    /// Returns the next bit, or 0 if none is left.
    fn read_or_0(&mut self) -> bool
        ensures bit { result ≡ get_or self.old 0 false }
        ensures left { self.new ≡ drop 1 self.old }
    {
        self.read().unwrap_or(false)
    }
}
