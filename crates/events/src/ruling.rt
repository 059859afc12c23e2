//! What became of a line: its order was obeyed or refused, or it has a fault. The rules of play
//! that a refusal can name are here, with their codes and sentences.
ghost use Rattle.std.specs.Prelude.{◌≡◌, MatchOption};
ghost use Rattle.events.specs.RuleCodes.{code_of_opening_rule, code_of_pay_rule, code_of_private_rule, code_of_refusal};
ghost use Rattle.events.specs.RuleCodes.{code_of_stock_rule, code_of_train_rule, sentence_of_opening_rule};
ghost use Rattle.events.specs.RuleCodes.{sentence_of_pay_rule, sentence_of_private_rule, sentence_of_refusal};
ghost use Rattle.events.specs.RuleCodes.{sentence_of_stock_rule, sentence_of_train_rule};
ghost use Rattle.tables.specs.RuleTexts.{HasCode, HasNotCode, ListsEachRule};

use map_tables::{LayRule, RunRule, TokenRule};
use order_grammar::{Condition, Fault, Order};
use std::fmt::{self, Display, Formatter, Write};
use tables::{Printed, RuleRow, rule_rows, rule_with_code};
use thiserror::Error;

/// The first rule of play that an order breaks, by family of rules.
#[derive(Clone, Copy, Debug, PartialEq, Eq)]
pub enum Refusal {
    /// A rule of an opening round.
    Opening(OpeningRule),
    /// A rule of a stock round.
    Stock(StockRule),
    /// A rule of lays.
    Lay(LayRule),
    /// A rule of tokens.
    Token(TokenRule),
    /// A rule of runs.
    Run(RunRule),
    /// A rule of dividends.
    Pay(PayRule),
    /// A rule of trains.
    Train(TrainRule),
    /// A rule of privates that companies buy.
    Private(PrivateRule),
    /// I1: the condition of the order does not hold.
    Condition,
}

impl Refusal {
    /// Returns the code that a report prints.
    pub fn code(self) -> &'static str
        ensures { result.now ≡ code_of_refusal self }
    {
        match self {
            Refusal::Opening(rule) => rule.code(),
            Refusal::Stock(rule) => rule.code(),
            Refusal::Lay(rule) => rule.code(),
            Refusal::Token(rule) => rule.code(),
            Refusal::Run(rule) => rule.code(),
            Refusal::Pay(rule) => rule.code(),
            Refusal::Train(rule) => rule.code(),
            Refusal::Private(rule) => rule.code(),
            Refusal::Condition => "I1",
        }
    }

    /// Returns what is wrong, in a player's words. The desk and the tables of the docs print these
    /// words and no others.
    pub fn sentence(self) -> &'static str
        ensures { result.now ≡ sentence_of_refusal self }
    {
        match self {
            Refusal::Opening(rule) => rule.sentence(),
            Refusal::Stock(rule) => rule.sentence(),
            Refusal::Lay(rule) => rule.sentence(),
            Refusal::Token(rule) => rule.sentence(),
            Refusal::Run(rule) => rule.sentence(),
            Refusal::Pay(rule) => rule.sentence(),
            Refusal::Train(rule) => rule.sentence(),
            Refusal::Private(rule) => rule.sentence(),
            Refusal::Condition => {
                "the condition does not hold when the line is reached, or, for a standing line, \
                    when the round begins"
            }
        }
    }

    /// Returns the rule of play with a code, in letters of either case; `None` if no rule has it.
    pub fn with_code(code: &str) -> Option<Refusal>
        ensures { MatchOption result
            ((rule : Refusal) → HasNotCode code.now (code_of_refusal rule))
            (λ rule. HasCode code.now (code_of_refusal rule)) }
    {
        if code.eq_ignore_ascii_case(Refusal::Condition.code()) {
            return Some(Refusal::Condition);
        }
        if let Some(rule) = rule_with_code(OpeningRule::rows(), code) {
            return Some(Refusal::Opening(rule));
        }
        if let Some(rule) = rule_with_code(StockRule::rows(), code) {
            return Some(Refusal::Stock(rule));
        }
        if let Some(rule) = rule_with_code(LayRule::rows(), code) {
            return Some(Refusal::Lay(rule));
        }
        if let Some(rule) = rule_with_code(TokenRule::rows(), code) {
            return Some(Refusal::Token(rule));
        }
        if let Some(rule) = rule_with_code(RunRule::rows(), code) {
            return Some(Refusal::Run(rule));
        }
        if let Some(rule) = rule_with_code(PayRule::rows(), code) {
            return Some(Refusal::Pay(rule));
        }
        if let Some(rule) = rule_with_code(TrainRule::rows(), code) {
            return Some(Refusal::Train(rule));
        }
        if let Some(rule) = rule_with_code(PrivateRule::rows(), code) {
            return Some(Refusal::Private(rule));
        }
        None
    }
}

/// A rule that an order in an opening round may break.
#[derive(Clone, Copy, Debug, PartialEq, Eq, Drop, Error)]
pub enum OpeningRule {
    /// A1: the line neither buys a private nor bids on one; or a standing PAR is not for BO, or
    /// names no par value.
    NotOfOpening,
    /// A2: the private is sold.
    Sold,
    /// A3: it buys a private that is not the cheapest unsold.
    NotCheapest,
    /// A4: it bids less than 5 above the face value, or less than 5 above an earlier bid.
    BidTooLow,
    /// A5: it costs more than your cash minus your bids on other privates.
    CashTooSmall,
    /// A6: you have bought or bid in this turn.
    TurnUsed,
    /// A7: it bids on the cheapest private.
    BidForCheapest,
}

/// The rules of the opening, in the order of their codes.
static OPENING_RULES: [RuleRow<OpeningRule>; OpeningRule::BidForCheapest as usize + 1] =
    rule_rows! { OpeningRule
    NotOfOpening: "A1",
        "the line neither buys a private nor bids on one; or a standing PAR is not for BO, or \
        names no par value",
        "in a turn write BUY or BID; LIMIT and `PAR BO n` stand before the first TURN",
        Some("A1-standing-lines-in-a-turn"),
    Sold: "A2", "the private is sold",
        "nothing: it has gone to somebody else, or to you", Some("A2-sold"),
    NotCheapest: "A3", "it buys a private that is not the cheapest unsold",
        "bid on it", Some("A3-not-the-cheapest"),
    BidTooLow: "A4",
        "it bids less than 5 above the face value, or less than 5 above an earlier bid",
        "bid at least 5 above both", Some("A4-under-5-above-a-bid"),
    CashTooSmall: "A5", "it costs more than your cash less your bids on other privates",
        "bid less elsewhere: bids tie cash until the private is sold",
        Some("A5-price-over-the-cash"),
    TurnUsed: "A6", "you have bought or bid in this turn",
        "write it below the next TURN", Some("A6-second-purchase"),
    BidForCheapest: "A7", "it bids on the cheapest private",
        "buy it", Some("A7-bid-for-the-cheapest"),
};

impl OpeningRule {
    /// Returns the table of all these: each with its code and its sentence.
    pub fn rows() -> &'static [RuleRow<OpeningRule>]
        ensures { ListsEachRule code_of_opening_rule result.now }
    {
        &OPENING_RULES
    }

    /// Returns its row of the table.
    pub fn row(self) -> &'static RuleRow<OpeningRule>
        ensures code { result.now.code.now ≡ code_of_opening_rule self }
        ensures sentence { result.now.sentence.now ≡ sentence_of_opening_rule self }
    {
        &OPENING_RULES[self as usize]
    }

    /// Returns the code that a report prints.
    pub fn code(self) -> &'static str
        ensures { result.now ≡ code_of_opening_rule self }
    {
        OPENING_RULES[self as usize].code
    }

    /// Returns what is wrong, in a player's words. The desk and the tables of the docs print these
    /// words and no others.
    pub fn sentence(self) -> &'static str
        ensures { result.now ≡ sentence_of_opening_rule self }
    {
        OPENING_RULES[self as usize].sentence
    }
}

impl Printed for OpeningRule {
    ghost code_of = { code_of_opening_rule };

    fn printed(self) -> &'static str {
        self.code()
    }
}

/// Its sentence.
impl Display for OpeningRule {
    fn fmt<W: Write>(&self, f: &mut Formatter<W>) -> fmt::Result {
        f.write_str(self.sentence())
    }
}

/// A rule that an order in a stock round may break.
#[derive(Clone, Copy, Debug, PartialEq, Eq, Drop, Error)]
pub enum StockRule {
    /// S1: the line is not PAR, BUY of a share, SELL or EXCHANGE; or the RAISE is not needed.
    NotOfStock,
    /// S2: it sells in SR1.
    SaleInFirstRound,
    /// S3: it sells nothing, or more than you hold.
    NotHeld,
    /// S4: it would leave more than half the company's shares in the pool.
    PoolFull,
    /// S5: you preside, would be left with fewer than two shares, and nobody else has two to take
    /// the president's certificate; or a RAISE would move the presidency of the company that
    /// operates.
    PresidentMustStay,
    /// S6: you have sold shares of the company in this round.
    SoldInRound,
    /// S7: that place has no share left.
    NoneThere,
    /// S8: it names no par value.
    NoParValue,
    /// S9: it starts a company that has started, or buys or sells shares of one that has not.
    WrongStart,
    /// S10: it costs more than your cash.
    CashTooSmall,
    /// S11: you hold as many certificates as you may, and this one counts.
    CertificateLimit,
    /// S12: you would hold more than six shares, outside the orange and the brown zone.
    OverSixShares,
    /// S13: you have bought in this turn.
    BoughtBefore,
    /// S14: you do not own MH, no share of NYC is left, or you hold six and its token is in neither
    /// the orange nor the brown zone.
    NoExchange,
}

/// The rules of stock rounds, in the order of their codes.
static STOCK_RULES: [RuleRow<StockRule>; StockRule::NoExchange as usize + 1] =
    rule_rows! { StockRule
    NotOfStock: "S1",
        "the line is not PAR, BUY of a share, SELL or EXCHANGE; or the RAISE is not needed",
        "write one of these; for RAISE, do nothing: no more money was needed",
        Some("S1-not-a-stock-order"),
    SaleInFirstRound: "S2", "it sells in SR1",
        "sell from SR2 on", Some("S2-sale-in-the-first-stock-round"),
    NotHeld: "S3", "it sells nothing, or more than you hold",
        "sell at most what the statement says that you hold", Some("S3-more-than-held"),
    PoolFull: "S4", "it would leave more than half the company's shares in the pool",
        "sell fewer, or later, once somebody has bought from the pool", Some("S4-pool-over-five"),
    PresidentMustStay: "S5",
        "you preside, would be left with fewer than two shares, and nobody else has two to take \
        the president's certificate; or a RAISE would move the presidency of the company that \
        operates",
        "sell fewer", Some("S5-presidents-certificate"),
    SoldInRound: "S6", "you have sold shares of the company in this round",
        "buy in the next stock round", Some("S6-sold-in-this-round"),
    NoneThere: "S7", "that place has no share left",
        "buy from the other place: IPO or POOL", Some("S7-none-in-the-pool"),
    NoParValue: "S8", "it names no par value",
        "name 100, 90, 82, 76, 71 or 67", Some("S8-no-par-value"),
    WrongStart: "S9",
        "it starts a company that is started, or trades shares of one not yet started",
        "start with PAR, and buy from then on", Some("S9-started-or-not"),
    CashTooSmall: "S10", "it costs more than your cash",
        "sell before, or buy what is cheaper", Some("S10-cash-too-small"),
    CertificateLimit: "S11", "you hold as many certificates as you may, and this one counts",
        "sell before, or buy shares of a company in a coloured zone", Some("S11-certificate-limit"),
    OverSixShares: "S12",
        "you would hold more than six shares, outside the orange and the brown zone",
        "buy another company's shares", Some("S12-over-six-shares"),
    BoughtBefore: "S13", "you have bought in this turn",
        "write it below the next TURN; only in the brown zone several shares of one company may \
        be bought",
        Some("S13-second-purchase"),
    NoExchange: "S14",
        "you do not own MH, no share of NYC is left, or you hold six and its token is in neither \
        the orange nor the brown zone",
        "nothing; if you hold six, sell one first", Some("S14-who-may-exchange"),
};

impl StockRule {
    /// Returns the table of all these: each with its code and its sentence.
    pub fn rows() -> &'static [RuleRow<StockRule>]
        ensures { ListsEachRule code_of_stock_rule result.now }
    {
        &STOCK_RULES
    }

    /// Returns its row of the table.
    pub fn row(self) -> &'static RuleRow<StockRule>
        ensures code { result.now.code.now ≡ code_of_stock_rule self }
        ensures sentence { result.now.sentence.now ≡ sentence_of_stock_rule self }
    {
        &STOCK_RULES[self as usize]
    }

    /// Returns the code that a report prints.
    pub fn code(self) -> &'static str
        ensures { result.now ≡ code_of_stock_rule self }
    {
        STOCK_RULES[self as usize].code
    }

    /// Returns what is wrong, in a player's words. The desk and the tables of the docs print these
    /// words and no others.
    pub fn sentence(self) -> &'static str
        ensures { result.now ≡ sentence_of_stock_rule self }
    {
        STOCK_RULES[self as usize].sentence
    }
}

impl Printed for StockRule {
    ghost code_of = { code_of_stock_rule };

    fn printed(self) -> &'static str {
        self.code()
    }
}

/// Its sentence.
impl Display for StockRule {
    fn fmt<W: Write>(&self, f: &mut Formatter<W>) -> fmt::Result {
        f.write_str(self.sentence())
    }
}

/// A rule that the payment or the withholding of what a company earned may break.
#[derive(Clone, Copy, Debug, PartialEq, Eq)]
pub enum PayRule {
    /// D1: the company has paid or withheld; or it is PAY, and nothing was earned.
    NothingToPay,
}

/// The rules of dividends, in the order of their codes.
static PAY_RULES: [RuleRow<PayRule>; PayRule::NothingToPay as usize + 1] = rule_rows! { PayRule
    NothingToPay: "D1", "the company has paid or withheld; or it is PAY, and nothing was earned",
        "write PAY or WITHHOLD once, after the runs and before the first TRAIN",
        Some("D1-pay-step-used"),
};

impl PayRule {
    /// Returns the table of all these: each with its code and its sentence.
    pub fn rows() -> &'static [RuleRow<PayRule>]
        ensures { ListsEachRule code_of_pay_rule result.now }
    {
        &PAY_RULES
    }

    /// Returns its row of the table.
    pub fn row(self) -> &'static RuleRow<PayRule>
        ensures code { result.now.code.now ≡ code_of_pay_rule self }
        ensures sentence { result.now.sentence.now ≡ sentence_of_pay_rule self }
    {
        &PAY_RULES[self as usize]
    }

    /// Returns the code that a report prints.
    pub fn code(self) -> &'static str
        ensures { result.now ≡ code_of_pay_rule self }
    {
        PAY_RULES[self as usize].code
    }

    /// Returns what is wrong, in a player's words. The desk and the tables of the docs print these
    /// words and no others.
    pub fn sentence(self) -> &'static str
        ensures { result.now ≡ sentence_of_pay_rule self }
    {
        PAY_RULES[self as usize].sentence
    }
}

impl Printed for PayRule {
    ghost code_of = { code_of_pay_rule };

    fn printed(self) -> &'static str {
        self.code()
    }
}

/// A rule that the purchase or the discarding of a train may break.
#[derive(Clone, Copy, Debug, PartialEq, Eq)]
pub enum TrainRule {
    /// T1: the bank or the pool does not sell such a train now.
    NotOnSale,
    /// T2: the company has as many trains as it may.
    TrainLimit,
    /// T3: it costs more than the company's cash.
    CashTooSmall,
    /// T4: the seller has not consented to exactly this sale in this round, or the price is 0; or
    /// an OFFER is at 0, or not by the seller's president.
    NoConsent,
    /// T5: the seller has no such train, or is the buyer.
    NotSellers,
    /// T6: the train to be traded in is not the company's, is not a 4, 5 or 6, or is not for a D.
    NoTradeIn,
    /// T7: the DISCARD is for a company over which you did not preside as the round began, or of a
    /// train that it did not have.
    NoDiscard,
}

/// The rules of trains, in the order of their codes.
static TRAIN_RULES: [RuleRow<TrainRule>; TrainRule::NoDiscard as usize + 1] = rule_rows! { TrainRule
    NotOnSale: "T1", "the bank or the pool does not sell such a train now",
        "buy the kind that is on sale; from the pool only what lies there", Some("T1-not-on-sale"),
    TrainLimit: "T2", "the company has as many trains as it may",
        "have another company buy one, or trade one in for a D", Some("T2-train-limit"),
    CashTooSmall: "T3", "it costs more than the company's cash",
        "withhold before, or buy from another company", Some("T3-cash-too-small"),
    NoConsent: "T4",
        "who sells has not consented to exactly this sale in this round, or the price is 0; or \
        an OFFER is at 0, or not of the seller's president",
        "have its president write `OFFER TRAIN`, with this kind, buyer and price",
        Some("T4-no-consent"),
    NotSellers: "T5", "the seller has no such train, or is the buyer",
        "look at the statement for who has one", Some("T5-not-the-sellers"),
    NoTradeIn: "T6",
        "the train to be traded in is not the company's, or no 4, 5 or 6, or not for a D",
        "trade in a 4, 5 or 6 that it has", Some("T6-trade-in"),
    NoDiscard: "T7",
        "DISCARD of a company over which you did not preside as the round began, or of a train \
        that it did not have",
        "write it for a round in which it has such a train and you preside",
        Some("T7-discard-lines"),
};

impl TrainRule {
    /// Returns the table of all these: each with its code and its sentence.
    pub fn rows() -> &'static [RuleRow<TrainRule>]
        ensures { ListsEachRule code_of_train_rule result.now }
    {
        &TRAIN_RULES
    }

    /// Returns its row of the table.
    pub fn row(self) -> &'static RuleRow<TrainRule>
        ensures code { result.now.code.now ≡ code_of_train_rule self }
        ensures sentence { result.now.sentence.now ≡ sentence_of_train_rule self }
    {
        &TRAIN_RULES[self as usize]
    }

    /// Returns the code that a report prints.
    pub fn code(self) -> &'static str
        ensures { result.now ≡ code_of_train_rule self }
    {
        TRAIN_RULES[self as usize].code
    }

    /// Returns what is wrong, in a player's words. The desk and the tables of the docs print these
    /// words and no others.
    pub fn sentence(self) -> &'static str
        ensures { result.now ≡ sentence_of_train_rule self }
    {
        TRAIN_RULES[self as usize].sentence
    }
}

impl Printed for TrainRule {
    ghost code_of = { code_of_train_rule };

    fn printed(self) -> &'static str {
        self.code()
    }
}

/// A rule that the purchase of a private by a company may break.
#[derive(Clone, Copy, Debug, PartialEq, Eq)]
pub enum PrivateRule {
    /// P1: it comes before phase 3.
    TooEarly,
    /// P2: the price is less than half the face value or more than twice it.
    WrongPrice,
    /// P3: no player owns it, or its owner has not consented to exactly this sale in this round; or
    /// an OFFER is not by its owner.
    NoConsent,
    /// P4: it is BOP.
    NeverSold,
    /// P5: it costs more than the company's cash.
    CashTooSmall,
}

/// The rules of privates that companies buy, in the order of their codes.
static PRIVATE_RULES: [RuleRow<PrivateRule>; PrivateRule::CashTooSmall as usize + 1] =
    rule_rows! { PrivateRule
    TooEarly: "P1", "it comes before phase 3",
        "wait for phase 3", Some("P1-before-phase-3"),
    WrongPrice: "P2", "the price is less than half the face value or more than twice it",
        "name one between them", Some("P2-half-to-twice-the-face"),
    NoConsent: "P3",
        "no player owns it, or its owner has not consented to exactly this sale in this round; \
        or an OFFER is not of its owner",
        "have the owner write `OFFER PRIVATE`, with this buyer and price", Some("P3-no-consent"),
    NeverSold: "P4", "it is BOP",
        "nothing: no company buys it", Some("P4-BOP"),
    CashTooSmall: "P5", "it costs more than the company's cash",
        "agree on a lower price", Some("P5-cash-too-small"),
};

impl PrivateRule {
    /// Returns the table of all these: each with its code and its sentence.
    pub fn rows() -> &'static [RuleRow<PrivateRule>]
        ensures { ListsEachRule code_of_private_rule result.now }
    {
        &PRIVATE_RULES
    }

    /// Returns its row of the table.
    pub fn row(self) -> &'static RuleRow<PrivateRule>
        ensures code { result.now.code.now ≡ code_of_private_rule self }
        ensures sentence { result.now.sentence.now ≡ sentence_of_private_rule self }
    {
        &PRIVATE_RULES[self as usize]
    }

    /// Returns the code that a report prints.
    pub fn code(self) -> &'static str
        ensures { result.now ≡ code_of_private_rule self }
    {
        PRIVATE_RULES[self as usize].code
    }

    /// Returns what is wrong, in a player's words. The desk and the tables of the docs print these
    /// words and no others.
    pub fn sentence(self) -> &'static str
        ensures { result.now ≡ sentence_of_private_rule self }
    {
        PRIVATE_RULES[self as usize].sentence
    }
}

impl Printed for PrivateRule {
    ghost code_of = { code_of_private_rule };

    fn printed(self) -> &'static str {
        self.code()
    }
}

/// What became of a line that was reached.
#[derive(Drop)]
pub enum Ruling {
    /// The order was carried out; its condition held, if it has one.
    Obeyed {
        condition: Option<Condition>,
        order: Order,
    },
    /// The order breaks a rule of play; this is the first that it breaks.
    Refused {
        rule: Refusal,
        condition: Option<Condition>,
        order: Order,
    },
    /// The line has a fault, or is out of place.
    Faulty(Fault),
}

/// What became of a line, without its order.
#[derive(Clone, Copy)]
pub enum Verdict {
    /// The order was carried out.
    Obeyed,
    /// The order breaks a rule of play; this is the first that it breaks.
    Refused(Refusal),
    /// The line has a fault, or is out of place.
    Faulty(Fault),
}
