//! Why a file or a line is refused: each reason that a report names by a code.

ghost use Rattle.std.specs.Prelude.{◌≡◌, ◌≢◌, MatchOption};
ghost use Rattle.desk_base.specs.Reason.{HasFaultsCode, HasItsCode, NoFaultHasCode, NoneHasCode};
ghost use Rattle.desk_base.specs.Reason.{code_of_reason, sentence_of_reason};

use history::{OpeningRule, PayRule, PrivateRule, Refusal, StockRule, TrainRule};
use map_tables::{LayRule, RunRule, TokenRule};
use order_grammar::Fault;
use sheets::FileFault;
use std::alloc::{AllocError, Global};
use tables::rule_with_code;

/// Why a file or a line is refused.
#[derive(Clone, Copy)]
pub enum Reason {
    /// The whole file has a fault.
    File(FileFault),
    /// The line has a fault whatever the game, or has no place where it is.
    Line(Fault),
    /// The order breaks a rule of play, or its condition does not hold.
    Order(Refusal),
}

impl Reason {
    /// Returns the code that a report prints.
    pub fn code(self) -> &'static str
        ensures { result.now ≡ code_of_reason self }
    {
        match self {
            Reason::File(fault) => fault.code(),
            Reason::Line(fault) => fault.code(),
            Reason::Order(rule) => rule.code(),
        }
    }

    /// Returns what is wrong, in a player's words.
    pub fn sentence(self) -> &'static str
        ensures { result.now ≡ sentence_of_reason self }
    {
        match self {
            Reason::File(fault) => fault.sentence(),
            Reason::Line(fault) => fault.sentence(),
            Reason::Order(rule) => rule.sentence(),
        }
    }

    /// Returns the reason with a code, in letters of either case; `None` if no report prints that
    /// code.
    #[tactic(auto, using(crate::proofs::ReasonLemmas::none_has))]
    pub(crate) fn with_code(code: &str) -> Option<Reason>
        ensures { MatchOption result (NoneHasCode code.now) (HasItsCode code.now) }
    {
        if let Some(fault) = file_fault_with_code(code) {
            return Some(Reason::File(fault));
        }
        if let Some(fault) = rule_with_code(Fault::rows(), code) {
            return Some(Reason::Line(fault));
        }
        Some(Reason::Order(Refusal::with_code(code)?))
    }

    /// Returns all reasons that reports print, in the order of the table of codes. Fails if
    /// allocation fails.
    pub(crate) fn all(alloc: Global) -> Result<Vec<Reason>, AllocError> {
        let mut reasons = Vec::new(alloc);
        for row in FileFault::rows() {
            if row.rule != FileFault::Memory {
                reasons.push(Reason::File(row.rule))?;
            }
        }
        for row in Fault::rows() {
            reasons.push(Reason::Line(row.rule))?;
        }
        push_refusals(&mut reasons)?;
        Ok(reasons)
    }
}

/// Adds each rule of play that an order may break.
fn push_refusals(reasons: &mut Vec<Reason>) -> Result<(), AllocError> {
    reasons.push(Reason::Order(Refusal::Condition))?;
    for row in OpeningRule::rows() {
        reasons.push(Reason::Order(Refusal::Opening(row.rule)))?;
    }
    for row in StockRule::rows() {
        reasons.push(Reason::Order(Refusal::Stock(row.rule)))?;
    }
    push_refusals_on_the_map(reasons)?;
    push_refusals_of_trades(reasons)
}

/// Adds each rule of lays, tokens and runs.
fn push_refusals_on_the_map(reasons: &mut Vec<Reason>) -> Result<(), AllocError> {
    for row in LayRule::rows() {
        reasons.push(Reason::Order(Refusal::Lay(row.rule)))?;
    }
    for row in TokenRule::rows() {
        reasons.push(Reason::Order(Refusal::Token(row.rule)))?;
    }
    for row in RunRule::rows() {
        reasons.push(Reason::Order(Refusal::Run(row.rule)))?;
    }
    Ok(())
}

/// Adds each rule of payments, trains and privates.
fn push_refusals_of_trades(reasons: &mut Vec<Reason>) -> Result<(), AllocError> {
    for row in PayRule::rows() {
        reasons.push(Reason::Order(Refusal::Pay(row.rule)))?;
    }
    for row in TrainRule::rows() {
        reasons.push(Reason::Order(Refusal::Train(row.rule)))?;
    }
    for row in PrivateRule::rows() {
        reasons.push(Reason::Order(Refusal::Private(row.rule)))?;
    }
    Ok(())
}

/// Returns the fault of a file with a code that reports print, in letters of either case.
#[tactic(auto, using(crate::proofs::ReasonLemmas::memory_alone))]
fn file_fault_with_code(code: &str) -> Option<FileFault>
    ensures { MatchOption result (NoFaultHasCode code.now) (HasFaultsCode code.now) }
{
    match rule_with_code(FileFault::rows(), code)? {
        FileFault::Memory => None,
        fault => Some(fault),
    }
}
