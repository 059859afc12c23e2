//! The words of orders, with which those of a line are compared.

/// The first words of lines.
pub(crate) static FIRSTS: [&[u8]; 20] = [
    b"BID",
    b"BUY",
    b"COMPANY",
    b"DISCARD",
    b"EXCHANGE",
    b"IF",
    b"LAY",
    b"LIMIT",
    b"OFFER",
    b"PAR",
    b"PAY",
    b"PRIVATE",
    b"RAISE",
    b"RUN",
    b"SELL",
    b"SHEET",
    b"TOKEN",
    b"TRAIN",
    b"TURN",
    b"WITHHOLD",
];

/// The words and codes that may follow them.
pub(crate) static CODES: [&[u8]; 25] = [
    b"PRR", b"NYC", b"CPR", b"BO", b"CO", b"ERIE", b"NYNH", b"BM", b"SV", b"CS", b"DH", b"MH",
    b"CA", b"BOP", b"IPO", b"POOL", b"BANK", b"TRADE", b"BEST", b"SWAP", b"PRICE", b"PHASE",
    b"FLOATED", b"TRAIN", b"PRIVATE",
];

/// Words that complete a line, with what is said of them.
#[derive(Clone, Copy)]
pub(crate) struct Ending {
    /// One or more words, each standing for its class.
    pub(crate) words: &'static str,
    /// What is said instead of the words themselves; empty if the words are shown.
    pub(crate) said: &'static str,
}

/// An ending: its words alone, which are shown, or its words and what is said of their class.
macro_rules! ending {
    ($words:expr) => { ending!($words, "") };
    ($words:expr, $said:expr) => { Ending { words: $words, said: $said } };
}

/// The endings that are tried. In each row the first that completes an order is taken.
pub(crate) static ENDINGS: [&[Ending]; 9] = [
    &[ending!("IPO")],
    &[ending!("BANK")],
    &[ending!("POOL")],
    &[ending!("BEST")],
    &[ending!("SV", "a private (as DH)"), ending!("MH")],
    &[
        ending!("40", "a number"),
        ending!("0", "a rotation, 0 to 5"),
        ending!("4", "a kind of train (as 4)"),
    ],
    &[
        ending!("NYC", "a company (as NYC)"),
        ending!("H10.0", "a place (as H10.0)"),
        ending!("OR1.1", "a round (as OR1.1)"),
        ending!("H12.0 H10.0"),
    ],
    &[
        ending!("NYC IPO"),
        ending!("NYC 40"),
        ending!("DH 75"),
        ending!("NYC 4"),
        ending!("H10 1"),
    ],
    &[ending!("PRR NYC 40")],
];
