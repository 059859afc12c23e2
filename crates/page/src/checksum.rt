//! What identifies the file of a page: its number of lines, and a checksum of its bytes.
ghost use Rattle.std.specs.Prelude.{◌≡◌};
ghost use Rattle.page.specs.Checksum.{after_bit, after_byte, checksum_of, line_count};

/// The polynomial of the checksum, with its bits in the order of use.
const POLYNOMIAL: u32 = 0xedb8_8320;

/// What identifies an order file.
#[derive(Clone, Copy)]
pub struct Source {
    /// How many lines it has.
    pub lines: usize,
    /// The checksum of its bytes.
    pub checksum: u32,
}

/// Returns what identifies an order file.
pub fn source_of(file: &[u8]) -> Source
    ensures lines { result.lines ≡ line_count file.now }
    ensures checksum { result.checksum ≡ checksum_of file.now }
{
    Source {
        lines: line_count(file),
        checksum: checksum(file),
    }
}

/// Returns the checksum of a text, 32 bits, that other programs call `crc32`: the cyclic redundancy
/// check of gzip, PNG and Ethernet.
fn checksum(text: &[u8]) -> u32
    ensures { result ≡ checksum_of text.now }
{
    let mut rest: u32 = 0xffff_ffff;
    for byte in text {
        rest = after_byte(rest, *byte);
    }
    rest ^ 0xffff_ffff
}

/// Returns the remainder after a byte, given that before it.
fn after_byte(rest: u32, byte: u8) -> u32
    ensures { result ≡ after_byte rest byte }
{
    let rest = rest ^ u32::from(byte);
    let rest = after_bit(after_bit(after_bit(after_bit(rest))));
    after_bit(after_bit(after_bit(after_bit(rest))))
}

/// Returns the remainder after a bit.
fn after_bit(rest: u32) -> u32
    ensures { result ≡ after_bit rest }
{
    if rest % 2 == 1 {
        (rest / 2) ^ POLYNOMIAL
    } else {
        rest / 2
    }
}

/// Returns how many lines a text has. A last line without a line feed counts.
fn line_count(text: &[u8]) -> usize
    ensures { result ≡ line_count text.now }
{
    let mut count = 0;
    let mut is_begun = false;
    for byte in text {
        if !is_begun {
            count += 1;
        }
        is_begun = *byte != b'\n';
    }
    count
}
