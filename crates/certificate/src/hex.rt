//! Marks in a text: four bits to a hexadecimal digit.
ghost use Rattle.std.specs.Prelude.{◌≡◌, ◌↔◌, ◌*◌, ◌+◌, ◌<◌, ◌≤◌, length, take, drop, true, unwrap_or, Err, IfOk, IfSome, [], ◌∷◌};
ghost use Rattle.certificate.specs.Digits.{bit_number, bits_of, bits_of_digit, bits_of_digits, digit_of, digit_value};
ghost use Rattle.certificate.specs.Digits.{digits_of, has_other, is_digit};
ghost use Rattle.certificate.specs.declared.hex.HexFault.TheVariants.{Digit, Memory};

use std::alloc::{AllocError, Global};
use thiserror::Error;

/// Why a text of marks cannot be read.
#[derive(Clone, Copy, Debug, PartialEq, Eq, Drop, Error)]
pub enum HexFault {
    /// A byte is not a hexadecimal digit.
    #[error("a byte is no hexadecimal digit")]
    Digit,
    /// An allocation failed.
    #[error("an allocation failed")]
    Memory,
}

impl From<AllocError> for HexFault {
    ghost from_gives = { λ _ fault. fault ≡ Memory };

    fn from(_error: AllocError) -> HexFault {
        // An allocation failed: passed on.
        HexFault::Memory
    }
}

/// The digits, in lower case.
const DIGITS: &[u8; 16] = b"0123456789abcdef";

/// Reads bits from hexadecimal digits of upper or lower case: four bits from each, the highest
/// first. The error is `Digit` if a byte is not a digit, which is checked before anything is
/// allocated, and `Memory` if allocation fails.
pub fn read_hex(alloc: Global, text: &[u8]) -> Result<Vec<bool>, HexFault>
    ensures digit { (result ≡ Err Digit) ↔ (has_other text.now ≡ true) }
    ensures bits { IfOk result (λ bits. bits.items ≡ bits_of_digits text.now) }
{
    if has_other(text) {
        return Err(HexFault::Digit);
    }
    let mut bits = Vec::new(alloc);
    for digit in text {
        bits.extend_from_slice(&bits_of_digit(*digit))?;
    }
    Ok(bits)
}

/// Prints bits in hexadecimal digits of lower case: four bits in each, the highest first. The last
/// digit is padded with 0 bits. Fails only if allocation fails.
pub fn print_hex(alloc: Global, bits: &[bool]) -> Result<Vec<u8>, AllocError>
    ensures { IfOk result (λ text. text.items ≡ digits_of bits.now) }
{
    let mut text = Vec::new(alloc);
    let mut rest = bits;
    while !rest.is_empty() {
        let (four, later) = split_four(rest);
        text.push(digit_at(four))?;
        rest = later;
    }
    Ok(text)
}

/// Returns the first four bits, or all if there are fewer, and those after them.
fn split_four(bits: &[bool]) -> (&[bool], &[bool])
    ensures first { result.0.now ≡ take 4 bits.now }
    ensures later { result.1.now ≡ drop 4 bits.now }
{
    bits.split_at(usize::min(4, bits.len()))
}

/// Returns the digit of up to four bits.
fn digit_at(bits: &[bool]) -> u8
    requires some { 0 < length bits.now }
    requires most { length bits.now ≤ 4 }
    ensures { digits_of bits.now ≡ result ∷ [] }
{
    match bits {
        [a] => digit_of(*a, false, false, false),
        [a, b] => digit_of(*a, *b, false, false),
        [a, b, c] => digit_of(*a, *b, *c, false),
        _ => digit_of(bits[0], bits[1], bits[2], bits[3]),
    }
}

/// Returns the digit of four bits.
pub(crate) fn digit_of(a: bool, b: bool, c: bool, d: bool) -> u8
    ensures { result ≡ digit_of a b c d }
{
    let value = 8 * bit_number(a) + 4 * bit_number(b) + 2 * bit_number(c) + bit_number(d);
    DIGITS[usize::from(value)]
}

/// Returns a bit as a number.
pub(crate) fn bit_number(bit: bool) -> u8
    ensures value { result ≡ bit_number bit }
    ensures bound { result ≤ 1 }
{
    if bit { 1 } else { 0 }
}

/// Returns whether some byte is not a hexadecimal digit.
pub(crate) fn has_other(text: &[u8]) -> bool
    ensures { result ≡ has_other text.now }
{
    text.iter().any(|byte| !is_digit(*byte))
}

/// Returns whether a byte is a hexadecimal digit.
fn is_digit(byte: u8) -> bool
    ensures { result ≡ is_digit byte }
{
    digit_value(byte).is_some()
}

/// Returns the value of a hexadecimal digit; `None` for any other byte.
fn digit_value(byte: u8) -> Option<u8>
    ensures value { result ≡ digit_value byte }
    ensures bound { IfSome result (λ value. value < 16) }
{
    match byte {
        b'0'..=b'9' => Some(byte - b'0'),
        b'a'..=b'f' => Some(byte - b'a' + 10),
        b'A'..=b'F' => Some(byte - b'A' + 10),
        _ => None,
    }
}

/// Returns the value of a hexadecimal digit, less than 16; 0 for any other byte.
pub(crate) fn value_of_digit(digit: u8) -> u8
    ensures value { result ≡ unwrap_or (digit_value digit) 0 }
    ensures bound { result < 16 }
{
    digit_value(digit).unwrap_or(0)
}

/// Returns the bits of a digit.
pub(crate) fn bits_of_digit(digit: u8) -> [bool; 4]
    ensures { result ≡ bits_of_digit digit }
{
    let value = value_of_digit(digit);
    [
        value / 8 % 2 == 1,
        value / 4 % 2 == 1,
        value / 2 % 2 == 1,
        value % 2 == 1,
    ]
}
