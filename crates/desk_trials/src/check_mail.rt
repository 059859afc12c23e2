//! Lines that look like mail.
ghost use Rattle.std.specs.Prelude.{◌≡◌};
ghost use Rattle.desk_trials.specs.Mail.{begins_with_one, is_above_quotation, is_mail};
ghost use Rattle.hints.specs.Slip.{texts};

/// The beginnings of mail headers, of quoted lines, and of the line above a signature.
static HEADS: [&[u8]; 11] = [
    b"From:",
    b"To:",
    b"Cc:",
    b"Date:",
    b"Sent:",
    b"Subject:",
    b"Message-ID:",
    b">",
    b"|",
    b"--",
    b"Sent from my ",
];

/// Returns whether a line looks like mail: a header `From: Ann`, a quoted line `> TURN`, `On Friday
/// Bob wrote:`, or the `--` above a signature.
#[tactic(auto, unfolding(crate::specs::Mail::is_mail))]
pub fn is_mail(line: &[u8]) -> bool
    ensures { result ≡ is_mail line.now }
{
    match line {
        // (most lines begin with no such byte, and are not compared)
        [
            b'F' | b'T' | b'C' | b'D' | b'S' | b'M' | b'>' | b'O' | b'|' | b'-',
            ..
        ] => { begins_with_one(line, &HEADS) || is_above_quotation(line) }
        _ => false,
    }
}

/// Returns whether a line begins with one of these.
fn begins_with_one(line: &[u8], heads: &[&[u8]]) -> bool
    ensures { result ≡ begins_with_one line.now (texts heads.now) }
{
    match heads {
        [] => false,
        [head, rest @ ..] => line.starts_with(head) || begins_with_one(line, rest),
    }
}

/// Returns whether a line says who wrote the quotation below it.
fn is_above_quotation(line: &[u8]) -> bool
    ensures { result ≡ is_above_quotation line.now }
{
    line.starts_with(b"On ") && line.ends_with(b" wrote:")
}
