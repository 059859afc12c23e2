//! The rules that a lay, a token or a run may break, each with its code and its sentence.
ghost use Rattle.std.specs.Prelude.{◌≡◌};
ghost use Rattle.map_tables.specs.RuleCodes.{code_of_lay_rule, code_of_run_rule, code_of_token_rule};
ghost use Rattle.map_tables.specs.RuleCodes.{sentence_of_lay_rule, sentence_of_run_rule, sentence_of_token_rule};
ghost use Rattle.tables.specs.RuleTexts.{ListsEachRule};

use std::fmt::{self, Display, Formatter, Write};
use tables::{Printed, RuleRow, rule_rows};
use thiserror::Error;

/// A rule that the lay of a tile may break, in the order of the checks.
#[derive(Clone, Copy, Debug, PartialEq, Eq, Drop, Error)]
pub enum LayRule {
    /// L1: the lay of the turn is used, or its step is past.
    StepUsed,
    /// L2: the hex is grey or red.
    GreyOrRed,
    /// L3: no such tile is left.
    NoneLeft,
    /// L4: tiles of the colour are not available yet.
    ColourClosed,
    /// L5: the tile is not of the hex's next colour or kind; or SWAP is used without two stops.
    WrongTile,
    /// L6: existing track would be lost.
    TrackLost,
    /// L7: track would lead off the map, over a closed border, or to a grey or red hex that has
    /// none there.
    BadSide,
    /// L8: a player's private blocks the hex.
    Blocked,
    /// L9: the company reaches neither the tile's track nor a stop of the hex.
    NotReached,
    /// L10: it costs more than the company's cash.
    CashTooSmall,
}

/// The rules of lays, in the order in which they are checked.
static LAY_RULES: [RuleRow<LayRule>; LayRule::CashTooSmall as usize + 1] = rule_rows! { LayRule
    StepUsed: "L1", "the lay of the turn is used, or its step is past",
        "write LAY before TOKEN, RUN, PAY and TRAIN, and once", Some("L1-second-lay"),
    GreyOrRed: "L2", "the hex is grey or red",
        "lay elsewhere", Some("L2-grey-or-red"),
    NoneLeft: "L3", "no such tile is left",
        "take another number with such track", Some("L3-none-left"),
    ColourClosed: "L4", "the colour isn't available yet",
        "wait for phase 3 (green) or 5 (brown)", Some("L4-colour-closed"),
    WrongTile: "L5",
        "the tile is not of the hex's next colour or kind; or SWAP is on a hex without two stops",
        "look up the hex and the tile in `map.md`", Some("L5-kind-colour-or-swap"),
    TrackLost: "L6", "existing track would be lost",
        "turn the tile, or take another", Some("L6-old-track-lost"),
    BadSide: "L7",
        "track would lead off the map, over a closed border, or to a grey or red hex that has \
        none there",
        "turn the tile", Some("L7-bad-side"),
    Blocked: "L8", "a player's private blocks the hex",
        "buy the private for a company, or wait for phase 5", Some("L8-on-a-privates-hex"),
    NotReached: "L9", "the company reaches neither the tile's track nor a stop of the hex",
        "lay nearer to what it reaches, and not past a full city", Some("L9-not-reached"),
    CashTooSmall: "L10", "it costs more than the company's cash",
        "lay where no terrain is to be paid", Some("L10-cash-too-small"),
};

impl LayRule {
    /// Returns the table of all these: each with its code and its sentence.
    pub fn rows() -> &'static [RuleRow<LayRule>]
        ensures { ListsEachRule code_of_lay_rule result.now }
    {
        &LAY_RULES
    }

    /// Returns its row of the table.
    pub fn row(self) -> &'static RuleRow<LayRule>
        ensures code { result.now.code.now ≡ code_of_lay_rule self }
        ensures sentence { result.now.sentence.now ≡ sentence_of_lay_rule self }
    {
        &LAY_RULES[self as usize]
    }

    /// Returns the code that a report prints.
    pub fn code(self) -> &'static str
        ensures { result.now ≡ code_of_lay_rule self }
    {
        LAY_RULES[self as usize].code
    }

    /// Returns what is wrong, in a player's words. The desk and the tables of the docs print these
    /// words and no others.
    pub fn sentence(self) -> &'static str
        ensures { result.now ≡ sentence_of_lay_rule self }
    {
        LAY_RULES[self as usize].sentence
    }
}

impl Printed for LayRule {
    ghost code_of = { code_of_lay_rule };

    fn printed(self) -> &'static str {
        self.code()
    }
}

/// Its sentence.
impl Display for LayRule {
    fn fmt<W: Write>(&self, f: &mut Formatter<W>) -> fmt::Result {
        f.write_str(self.sentence())
    }
}

/// A rule that the placing of a token may break, in the order of the checks.
#[derive(Clone, Copy, Debug, PartialEq, Eq, Drop, Error)]
pub enum TokenRule {
    /// K1: the step of the token is past.
    StepUsed,
    /// K2: the company has no token left.
    NoTokenLeft,
    /// K3: it is at no stop of a city, or no slot is free; one that is kept for a home counts as
    /// taken.
    NoFreeSlot,
    /// K4: the company has a token in the hex.
    InHexAlready,
    /// K5: the company does not reach the stop.
    NotReached,
    /// K6: it costs more than the company's cash: 40 the second, 100 each later one.
    CashTooSmall,
}

/// The rules of tokens, in the order in which they are checked.
static TOKEN_RULES: [RuleRow<TokenRule>; TokenRule::CashTooSmall as usize + 1] =
    rule_rows! { TokenRule
    StepUsed: "K1", "the step of the token is past",
        "write TOKEN before RUN, PAY and TRAIN, and once", Some("K1-second-token"),
    NoTokenLeft: "K2", "the company has no token left",
        "nothing", Some("K2-no-token-left"),
    NoFreeSlot: "K3",
        "it is not at a stop of a city, or no slot is free; a slot kept for a home counts as \
        taken",
        "name the city by its stop, `J14.0`; wait for a tile with more slots",
        Some("K3-no-free-slot"),
    InHexAlready: "K4", "the company has a token in the hex",
        "go elsewhere", Some("K4-already-in-the-hex"),
    NotReached: "K5", "the company does not reach the stop",
        "lay track to it first", Some("K5-not-reached"),
    CashTooSmall: "K6", "it costs more than the company's cash: 40 the second, 100 each later one",
        "withhold in a turn before", Some("K6-cash-too-small"),
};

impl TokenRule {
    /// Returns the table of all these: each with its code and its sentence.
    pub fn rows() -> &'static [RuleRow<TokenRule>]
        ensures { ListsEachRule code_of_token_rule result.now }
    {
        &TOKEN_RULES
    }

    /// Returns its row of the table.
    pub fn row(self) -> &'static RuleRow<TokenRule>
        ensures code { result.now.code.now ≡ code_of_token_rule self }
        ensures sentence { result.now.sentence.now ≡ sentence_of_token_rule self }
    {
        &TOKEN_RULES[self as usize]
    }

    /// Returns the code that a report prints.
    pub fn code(self) -> &'static str
        ensures { result.now ≡ code_of_token_rule self }
    {
        TOKEN_RULES[self as usize].code
    }

    /// Returns what is wrong, in a player's words. The desk and the tables of the docs print these
    /// words and no others.
    pub fn sentence(self) -> &'static str
        ensures { result.now ≡ sentence_of_token_rule self }
    {
        TOKEN_RULES[self as usize].sentence
    }
}

impl Printed for TokenRule {
    ghost code_of = { code_of_token_rule };

    fn printed(self) -> &'static str {
        self.code()
    }
}

/// Its sentence.
impl Display for TokenRule {
    fn fmt<W: Write>(&self, f: &mut Formatter<W>) -> fmt::Result {
        f.write_str(self.sentence())
    }
}

/// A rule that the run of a train may break: the first two look at what has happened in the turn,
/// the others at the tiles and tokens on the map.
#[derive(Clone, Copy, Debug, PartialEq, Eq, Drop, Error)]
pub enum RunRule {
    /// R1: the step of the runs is past.
    StepUsed,
    /// R2: all trains of that kind have run; for RUN BEST: the company has no train, or one has
    /// run.
    NoTrain,
    /// R3: there is no such track, or an end is no stop.
    NoTrack,
    /// R4: it visits fewer than two stops, or more than the train may.
    WrongNumber,
    /// R5: it visits a stop twice.
    StopTwice,
    /// R6: it crosses a border that it or another run of the turn has crossed.
    BorderTwice,
    /// R7: it passes a city that is full of other companies' tokens.
    PassesFull,
    /// R8: it visits no token of the company.
    NoToken,
    /// R9: it passes a red area.
    RedInside,
}

/// The rules of runs, in the order in which they are checked.
static RUN_RULES: [RuleRow<RunRule>; RunRule::RedInside as usize + 1] = rule_rows! { RunRule
    StepUsed: "R1", "the step of the runs is past",
        "write RUN before PAY, WITHHOLD and TRAIN", Some("R1-after-the-pay-step"),
    NoTrain: "R2",
        "all trains of that kind have run; for RUN BEST: the company has no train, or one has run",
        "write one RUN a train, or RUN BEST alone", Some("R2-no-unused-train"),
    NoTrack: "R3", "there is no such track, or an end is not a stop",
        "name every hex on the way; the ends by their stops, `H12.0`", Some("R3-no-such-track"),
    WrongNumber: "R4", "it visits fewer than two stops, or more than the train may",
        "take a shorter way, or another train", Some("R4-too-many-stops"),
    StopTwice: "R5", "it visits a stop twice",
        "go another way", Some("R5-a-stop-twice"),
    BorderTwice: "R6", "it crosses a border that it or another run of the turn has crossed",
        "go another way, or order RUN BEST", Some("R6-border-crossed-before"),
    PassesFull: "R7", "it passes a city that is full of other companies' tokens",
        "end there, or go round it", Some("R7-passes-a-full-city"),
    NoToken: "R8", "it visits no token of the company",
        "run by one of its tokens", Some("R8-no-own-token"),
    RedInside: "R9", "it passes a red area",
        "end there", Some("R9-red-stop-inside"),
};

impl RunRule {
    /// Returns the table of all these: each with its code and its sentence.
    pub fn rows() -> &'static [RuleRow<RunRule>]
        ensures { ListsEachRule code_of_run_rule result.now }
    {
        &RUN_RULES
    }

    /// Returns its row of the table.
    pub fn row(self) -> &'static RuleRow<RunRule>
        ensures code { result.now.code.now ≡ code_of_run_rule self }
        ensures sentence { result.now.sentence.now ≡ sentence_of_run_rule self }
    {
        &RUN_RULES[self as usize]
    }

    /// Returns the code that a report prints.
    pub fn code(self) -> &'static str
        ensures { result.now ≡ code_of_run_rule self }
    {
        RUN_RULES[self as usize].code
    }

    /// Returns what is wrong, in a player's words. The desk and the tables of the docs print these
    /// words and no others.
    pub fn sentence(self) -> &'static str
        ensures { result.now ≡ sentence_of_run_rule self }
    {
        RUN_RULES[self as usize].sentence
    }
}

impl Printed for RunRule {
    ghost code_of = { code_of_run_rule };

    fn printed(self) -> &'static str {
        self.code()
    }
}

/// Its sentence.
impl Display for RunRule {
    fn fmt<W: Write>(&self, f: &mut Formatter<W>) -> fmt::Result {
        f.write_str(self.sentence())
    }
}
