//! What is said about an order: that it may be given, with its price, or which rule forbids it.
ghost use Rattle.std.specs.Prelude.{◌≡◌};
ghost use Rattle.desk_may.specs.Told.{lacks_money, not_by};

use history::{OpeningRule, PrivateRule, Refusal, ShareCount, StockRule, TrainRule};
use order_grammar::ShareSource;
use tables::{Money, Seat, Square};

/// What is said about an order.
#[derive(Clone, Copy)]
pub(crate) enum Told {
    /// It may be given.
    May {
        /// What it costs or brings, in dollars.
        price: Money,
        note: Note,
    },
    /// It may not.
    Not {
        /// The rule that refuses it.
        rule: Refusal,
        /// What it would cost, in dollars, if that is said.
        price: Option<Money>,
        held: Held,
    },
}

/// What is said of an order that may be given, besides its price.
#[derive(Clone, Copy)]
pub(crate) enum Note {
    /// Nothing.
    Nothing,
    /// More may be bid as well.
    OrMore,
    /// Several may be bought in one turn, since the price of the company is brown.
    Several,
    /// The square of the company's token before a sale, and after it.
    Falls { from: Square, to: Square },
    /// Where the share given for MH comes from.
    Source(ShareSource),
    /// The greatest price, in dollars, and who must offer it, if it is another player.
    UpTo { most: Money, giver: Option<Seat> },
}

/// What somebody has, if an order may not be given because that is too little or too much.
#[derive(Clone, Copy)]
pub(crate) enum Held {
    /// Nothing is said.
    Unsaid,
    /// The player has this much to spend, in dollars.
    YourCash(Money),
    /// The company has this much, in dollars.
    ItsCash(Money),
    /// The player has this many shares.
    YourShares(ShareCount),
}

/// Returns what is said about an order if the rule that refuses it is all that is said.
pub(crate) fn not_by(rule: Refusal) -> Told
    ensures { result ≡ not_by rule }
{
    Told::Not {
        rule,
        price: None,
        held: Held::Unsaid,
    }
}

/// Returns whether a rule is that the buyer has too little money; then the price and the cash are
/// said.
pub(crate) fn lacks_money(rule: Refusal) -> bool
    ensures { result ≡ lacks_money rule }
{
    match rule {
        Refusal::Opening(rule) => matches!(rule, OpeningRule::CashTooSmall),
        Refusal::Stock(rule) => matches!(rule, StockRule::CashTooSmall),
        Refusal::Train(rule) => matches!(rule, TrainRule::CashTooSmall),
        Refusal::Private(rule) => matches!(rule, PrivateRule::CashTooSmall),
        _ => false,
    }
}
