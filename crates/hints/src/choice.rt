//! Which of some lines is an order.
ghost use Rattle.std.specs.Prelude.{◌≡◌, option_map};
ghost use Rattle.hints.specs.Choice.{is_order, is_order_in, only_order};
ghost use Rattle.hints.specs.Slip.{text, texts};

use order_grammar::{Order, Version, has_word, read_order_in};

/// Returns whether a line has words, and is read without a fault in a file of some version.
pub(crate) fn is_order(version: Version, line: &[u8]) -> bool
    ensures { result ≡ is_order version line.now }
{
    let mut order = Order::Blank;
    has_word(line) && read_order_in(version, line, &mut order).is_ok()
}

/// Returns the only one of some lines that is an order; `None` if none or several are.
pub(crate) fn only_order<'a>(version: Version, lines: &[&'a [u8]]) -> Option<&'a [u8]>
    ensures { option_map text result ≡ only_order version (texts lines.now) }
{
    match lines {
        [] => None,
        [line, rest @ ..] if is_order(version, line) => {
            if is_order_in(version, rest) {
                None
            } else {
                Some(*line)
            }
        }
        [_, rest @ ..] => only_order(version, rest),
    }
}

/// Returns whether one of some lines is an order.
fn is_order_in(version: Version, lines: &[&[u8]]) -> bool
    ensures { result ≡ is_order_in version (texts lines.now) }
{
    match lines {
        [] => false,
        [line, rest @ ..] => is_order(version, line) || is_order_in(version, rest),
    }
}
