//! The runner that reads its results from a text of certificates.
ghost use Rattle.std.specs.Prelude.{◌≡◌, IfOk, true};
ghost use Rattle.certificate.specs.Checked.{AnswersBy};
ghost use Rattle.legal_runs.specs.Set.{IsGreatestMoney};
ghost use Rattle.umpire.specs.Groups.{groups_of};
ghost use Rattle.umpire.specs.Verifier.{AnswersByText};

use crate::groups::{next_head, read_group};
use certificate::{Group, Runner, RunnerFault, shows};
use reach::Network;
use std::alloc::Global;
use std::marker::Model;
use tables::{Company, Kind, Money, Round};

/// A runner that searches for nothing. For each call it reads the next group of a text of
/// certificates. It returns the claimed revenue if the group is well formed, for that round and
/// company, and accepted; otherwise it refuses. It holds a group only during its own call, and at
/// most one run more than there are trains, since a group with more runs is not accepted. So a text
/// takes no more memory than the marks of its longest group.
#[derive(Drop)]
pub(crate) struct Verifier<'a> {
    alloc: Global,
    /// The text after the CERT lines that are used.
    text: &'a [u8],
}

/// In a contract it is the list of the groups that are left; `None` is a malformed one.
impl<'a> Model for Verifier<'a> {
    ghost use Rattle.std.specs.Prelude.{List, Option};
    ghost use Rattle.certificate.specs.declared.group.Group.{Group};
    ghost use Rattle.umpire.specs.Groups.{groups_of};

    ghost Value = { List (Option Group) };

    ghost view = { λ verifier. groups_of verifier.text.now };
}

impl<'a> Verifier<'a> {
    /// Returns a runner that uses the groups of this text, the first of them for the first call.
    pub(crate) fn new(alloc: Global, text: &'a [u8]) -> Verifier<'a>
        ensures { result ≡ groups_of text.now }
    {
        Verifier { alloc, text }
    }
}

impl<'a> Runner for Verifier<'a> {
    ghost may_refuse = { true };

    ghost earns = { AnswersByText };

    /// Returns what the next group claims, in dollars, if it shows the best runs of the company's
    /// trains in that round, and otherwise `Refused`. Either way the group is used up. The error is
    /// `Memory` only if allocation fails.
    fn earn<N: Network>(
        &mut self,
        network: &N,
        round: Round,
        company: Company,
        trains: &[Kind],
    ) -> Result<Money, RunnerFault> {
        let Some(head) = next_head(self.text) else {
            return Err(RunnerFault::Refused);
        };
        self.text = head.rest;
        let read = read_group(self.alloc, head.line, head.rest, trains.len())?;
        self.text = read.rest;
        revenue_by(network, round, company, trains, read.group)
    }
}

/// Returns what a group claims, in dollars, if it shows the best runs of a company's trains in a
/// round, and otherwise `Refused`. `None` is a malformed group.
fn revenue_by<N: Network>(
    network: &N,
    round: Round,
    company: Company,
    trains: &[Kind],
    group: Option<Group>,
) -> Result<Money, RunnerFault>
    ensures greatest { let position = N.position network.now in
        IfOk result (IsGreatestMoney position company trains.now) }
    ensures answers { let position = N.position network.now in
        AnswersBy position round company trains.now group result }
{
    network.keeps_laws();
    // A law, which does nothing when it runs: what is accepted is the greatest revenue.
    certificate::laws::accepted_is_greatest();
    let Some(group) = group else {
        return Err(RunnerFault::Refused);
    };
    if shows(network, round, company, trains, &group) {
        Ok(Money::from(group.claim.revenue))
    } else {
        Err(RunnerFault::Refused)
    }
}
