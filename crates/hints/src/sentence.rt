//! What is said of a fault of a line.
ghost use Rattle.std.specs.Prelude.{◌≡◌};

use order_grammar::{Fault, begins_with_word};

/// What separates a sentence from its part about lines that begin with IF.
const PARTED: &str = ";";

/// Returns what is wrong with a line that has a fault, in a player's words: the sentence of the
/// fault. The part about lines that begin with IF is left out if this line does not.
pub fn sentence_of(line: &[u8], fault: Fault) -> &'static str {
    let sentence = fault.sentence();
    match fault {
        Fault::UnknownWord | Fault::WrongWords if !begins_with_word(line, b"IF") => {
            sentence
                .split_once(PARTED)
                .map_or(sentence, |parts| parts.0)
        }
        _ => sentence,
    }
}
