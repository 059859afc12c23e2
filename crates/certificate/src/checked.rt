//! A runner that reads its results from groups of certificates.
ghost use Rattle.std.specs.Prelude.{◌≡◌, ◌↔◌, IsTrue, true};
ghost use Rattle.certificate.specs.Checked.{AnswersByNext, Shows};

use crate::accept::accepts_bits;
use crate::group::Group;
use legal_runs::{Runner, RunnerFault};
use reach::Network;
use std::marker::Model;
use std::vec;
use tables::{Company, Kind, Money, Round};

/// A runner that searches for nothing. It uses one group of certificates for each call, in order.
/// It returns what the group claims if it is well formed, for that round and company, and accepted.
/// Otherwise it returns `Refused`. Allocates nothing.
#[derive(Drop)]
pub struct Checked {
    groups: vec::IntoIter<Option<Group>>,
}

/// In a contract it is the list of the groups that are left; `None` is a malformed one.
impl Model for Checked {
    ghost use Rattle.std.specs.Prelude.{List, Option};
    ghost use Rattle.std.specs.Vec.Iter.{into_iter_items};
    ghost use Rattle.certificate.specs.declared.group.Group.{Group};

    ghost Value = { List (Option Group) };

    ghost view = { λ checked. into_iter_items checked.groups };
}

impl Checked {
    /// Returns a runner that uses these groups, the first of them for the first call; `None` is a
    /// malformed one.
    pub fn new(groups: Vec<Option<Group>>) -> Checked
        ensures { result ≡ groups.items }
    {
        Checked {
            groups: groups.into_iter(),
        }
    }
}

impl Runner for Checked {
    ghost may_refuse = { true };

    ghost earns = { AnswersByNext };

    /// Returns what the next group claims, in dollars, if it shows the best runs of the company's
    /// trains in that round; otherwise the error is `Refused`. Either way the group is used up.
    fn earn<N: Network>(
        &mut self,
        network: &N,
        round: Round,
        company: Company,
        trains: &[Kind],
    ) -> Result<Money, RunnerFault> {
        network.keeps_laws();
        // A law, which does nothing when it runs: what is accepted is the greatest revenue.
        crate::laws::accepted_is_greatest();
        let Some(Some(group)) = self.groups.next() else {
            return Err(RunnerFault::Refused);
        };
        if shows(network, round, company, trains, &group) {
            Ok(Money::from(group.claim.revenue))
        } else {
            Err(RunnerFault::Refused)
        }
    }
}

/// Returns whether a group shows the best runs of a company's trains in a round.
pub fn shows<N: Network>(
    network: &N,
    round: Round,
    company: Company,
    trains: &[Kind],
    group: &Group,
) -> bool
    ensures { let position = N.position network.now in
        IsTrue result ↔ Shows position round company trains.now group.now }
{
    if group.round != round || group.company != company {
        return false;
    }
    accepts_bits(network, company, trains, &group.claim, &group.bits)
}
