//! What mail and editors put into a line.
ghost use Rattle.std.specs.Prelude.{◌≡◌, IfOk, map};
ghost use Rattle.hints.specs.Mail.{clean};

use order_grammar::is_printable;
use std::alloc::{AllocError, Global};

/// What mail and editors put into a text, with its name.
static STRAYS: [(&[u8], &str); 17] = [
    (b"\xEF\xBB\xBF", "a byte order mark"),
    (b"\xC2\xA0", "a no-break space"),
    (b"\xE2\x80\x98", "a curly quotation mark"),
    (b"\xE2\x80\x99", "a curly quotation mark"),
    (b"\xE2\x80\x9C", "a curly quotation mark"),
    (b"\xE2\x80\x9D", "a curly quotation mark"),
    (b"\xE2\x80\x93", "a long dash"),
    (b"\xE2\x80\x94", "a long dash"),
    (b"\xE2\x80\xA6", "three dots in one"),
    (b"\xE2\x89\xA5", "a sign for >="),
    (b"\t", "a tab"),
    (b"\r", "a CR before its end"),
    (b"\xA0", "a no-break space"),
    (b"\x91", "a curly quotation mark"),
    (b"\x92", "a curly quotation mark"),
    (b"\x93", "a curly quotation mark"),
    (b"\x94", "a curly quotation mark"),
];

/// The ends of lines of a mail that is quoted-printable.
static QUOTED: [&[u8]; 3] = [b"=20", b"=", b"=0D"];

/// Returns the name of the first stray byte of a line; `None` if it has no such byte.
pub(crate) fn stray_in(line: &[u8]) -> Option<&'static str> {
    for (at, _) in line.iter().enumerate() {
        for (stray, name) in &STRAYS {
            if line[at..].starts_with(stray) {
                return Some(name);
            }
        }
    }
    None
}

/// Returns whether a line ends as a line of quoted-printable mail does.
pub(crate) fn ends_quoted(line: &[u8]) -> bool {
    QUOTED.iter().any(|end| line.ends_with(end))
}

/// Returns whether a line has a sign of equality as a quoted-printable mail writes it.
pub(crate) fn has_quoted_sign(line: &[u8]) -> bool {
    for (at, _) in line.iter().enumerate() {
        if line[at..].starts_with(b"=3D") {
            return true;
        }
    }
    false
}

/// Returns a line with a space in place of each stray byte. Fails only if allocation fails.
pub(crate) fn without_strays(alloc: Global, line: &[u8]) -> Result<Vec<u8>, AllocError>
    ensures { IfOk result (λ clean_line. clean_line.items ≡ map clean line.now) }
{
    let mut cleaned = Vec::new(alloc);
    for byte in line {
        cleaned.push(clean(*byte))?;
    }
    Ok(cleaned)
}

/// Returns a byte, or a space in place of a stray one.
fn clean(byte: u8) -> u8
    ensures { result ≡ clean byte }
{
    if is_printable(byte) { byte } else { b' ' }
}
