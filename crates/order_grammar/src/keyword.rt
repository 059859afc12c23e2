//! The literal words of lines: which one a word spells, and how each is printed.
ghost use Rattle.std.specs.Prelude.{◌≡◌};
ghost use Rattle.order_grammar.specs.Keyword.{beginning_with, keyword_of, spelt_of, text_of_keyword};
ghost use Rattle.order_grammar.specs.Words.{raised};

use crate::words::is_word;

/// A literal word of a form or a condition: the first word of a line, or a later word of fixed
/// spelling.
#[derive(Clone, Copy, PartialEq, Eq)]
pub(crate) enum Keyword {
    Game,
    Players,
    Sheet,
    Turn,
    Buy,
    Bid,
    Limit,
    Par,
    Sell,
    Exchange,
    Company,
    Lay,
    Token,
    Run,
    Pay,
    Withhold,
    Train,
    Discard,
    Private,
    Raise,
    Offer,
    Certs,
    Cert,
    Claim,
    Marks,
    InitialOffering,
    Pool,
    Mohawk,
    Swap,
    Bank,
    Trade,
    Best,
    One,
    If,
    Price,
    AtLeast,
    Phase,
    Floated,
}

impl Keyword {
    /// Returns the keyword that a word spells, in either case; `None` if it spells none.
    pub(crate) fn of_word(word: &[u8]) -> Option<Keyword>
        ensures { result ≡ keyword_of (raised word.now) }
    {
        let [first, ..] = word else {
            return None;
        };
        first_spelt(word, Keyword::beginning_with(first.to_ascii_uppercase()))
    }

    /// Returns the keywords that begin with a byte.
    fn beginning_with(byte: u8) -> &'static [Keyword]
        ensures { result.now ≡ beginning_with byte }
    {
        match byte {
            b'B' => &[Keyword::Buy, Keyword::Bid, Keyword::Bank, Keyword::Best],
            b'C' => &[
                Keyword::Company,
                Keyword::Certs,
                Keyword::Cert,
                Keyword::Claim,
            ],
            b'D' => &[Keyword::Discard],
            b'E' => &[Keyword::Exchange],
            b'F' => &[Keyword::Floated],
            b'G' => &[Keyword::Game],
            b'I' => &[Keyword::InitialOffering, Keyword::If],
            b'L' => &[Keyword::Limit, Keyword::Lay],
            b'M' => &[Keyword::Marks, Keyword::Mohawk],
            b'O' => &[Keyword::Offer],
            b'P' => &[
                Keyword::Players,
                Keyword::Par,
                Keyword::Pay,
                Keyword::Private,
                Keyword::Pool,
                Keyword::Price,
                Keyword::Phase,
            ],
            b'R' => &[Keyword::Run, Keyword::Raise],
            b'S' => &[Keyword::Sheet, Keyword::Sell, Keyword::Swap],
            b'T' => &[
                Keyword::Turn,
                Keyword::Token,
                Keyword::Train,
                Keyword::Trade,
            ],
            b'W' => &[Keyword::Withhold],
            b'1' => &[Keyword::One],
            b'>' => &[Keyword::AtLeast],
            _ => &[],
        }
    }

    /// Returns the word in upper case.
    pub(crate) fn text(self) -> &'static [u8]
        ensures { result.now ≡ text_of_keyword self }
    {
        match self {
            Keyword::Game => b"GAME",
            Keyword::Players => b"PLAYERS",
            Keyword::Sheet => b"SHEET",
            Keyword::Turn => b"TURN",
            Keyword::Buy => b"BUY",
            Keyword::Bid => b"BID",
            Keyword::Limit => b"LIMIT",
            Keyword::Par => b"PAR",
            Keyword::Sell => b"SELL",
            Keyword::Exchange => b"EXCHANGE",
            Keyword::Company => b"COMPANY",
            Keyword::Lay => b"LAY",
            Keyword::Token => b"TOKEN",
            Keyword::Run => b"RUN",
            Keyword::Pay => b"PAY",
            Keyword::Withhold => b"WITHHOLD",
            Keyword::Train => b"TRAIN",
            Keyword::Discard => b"DISCARD",
            Keyword::Private => b"PRIVATE",
            Keyword::Raise => b"RAISE",
            Keyword::Offer => b"OFFER",
            Keyword::Certs => b"CERTS",
            Keyword::Cert => b"CERT",
            Keyword::Claim => b"CLAIM",
            Keyword::Marks => b"MARKS",
            Keyword::InitialOffering => b"IPO",
            Keyword::Pool => b"POOL",
            Keyword::Mohawk => b"MH",
            Keyword::Swap => b"SWAP",
            Keyword::Bank => b"BANK",
            Keyword::Trade => b"TRADE",
            Keyword::Best => b"BEST",
            Keyword::One => b"1",
            Keyword::If => b"IF",
            Keyword::Price => b"PRICE",
            Keyword::AtLeast => b">=",
            Keyword::Phase => b"PHASE",
            Keyword::Floated => b"FLOATED",
        }
    }
}

/// Returns the first of some keywords that a word spells, in either case.
fn first_spelt(word: &[u8], keywords: &[Keyword]) -> Option<Keyword>
    ensures { result ≡ spelt_of (raised word.now) keywords.now }
{
    for keyword in keywords {
        if is_word(word, keyword.text()) {
            return Some(*keyword);
        }
    }
    None
}
