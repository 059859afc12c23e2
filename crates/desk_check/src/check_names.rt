//! Names of players that a report's reader could take for something else.

use tables::{Company, Private};

/// The words of at most eight letters that begin a report's lines, and those that a report prints
/// in place of a name.
static WORDS: &[&str] = &[
    "AID", "AWAITING", "BANK", "BANKRUPT", "BIDS", "BOUGHT", "BROKEN", "CLOSED", "COMPANY",
    "DIVIDEND", "END", "FILE", "FLOATS", "FORCED", "GAME", "GIVEN", "HOME", "IPO", "LAID", "LEFT",
    "MOVES", "PAR", "PHASE", "PLAYER", "PLAYERS", "POOL", "PRICE", "PRIVATE", "REVENUE", "ROUND",
    "RUNS", "RUSTED", "SELLS", "SOLD", "TOKEN", "TRADED", "TRAIN", "UNREAD", "WITHHELD", "WORTH",
];

/// Returns what else a name means, in words; `None` if it means nothing else.
pub(crate) fn likeness_of(name: &[u8]) -> Option<&'static str> {
    for company in &Company::ALL {
        if company.code().as_bytes() == name {
            return Some(" is the code of a company, too");
        }
    }
    for private in &Private::ALL {
        if private.code().as_bytes() == name {
            return Some(" is the code of a private, too");
        }
    }
    for word in WORDS {
        if word.as_bytes() == name {
            return Some(" is a word that a report has in other places, too");
        }
    }
    None
}
