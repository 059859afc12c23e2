//! What stays the same in a walk over a choice tree: the company, the stops that it reaches with
//! their facts, the links of the hexes, and its trains in their order, D, 6 and so on to 2.
ghost use Rattle.std.specs.Prelude.{◌≡◌, List, Option, [], count_by, length};
ghost use Rattle.map_tables.specs.declared.place.Stop.{Stop};
ghost use Rattle.reach.specs.Position.{Position};
ghost use Rattle.reach.specs.Stops.{AreReachedStops};
ghost use Rattle.tables.specs.Train.{same_kind};
ghost use Rattle.legal_runs.specs.Fault.{has_stop};
ghost use Rattle.certificate.specs.Ranking.{most_of, ranked_of};
ghost use Rattle.certificate.specs.Tree.{greatest_first, may_earn, new_values};
ghost use Rattle.certificate.specs.Walked.{capped};
ghost use Rattle.certificate.specs.Walking.{AreVisited, IsTree, earned_from, kind_from, reached_in, trains_of_tree};

use crate::hex_links::HexLinks;
use crate::known_stops::KnownStops;
use crate::ranking::Ranking;
use map_tables::Stop;
use reach::{Network, ReachedStops, StopMarks, reached_stops};
use tables::{Amount, Company, Kind, PerKind};

/// The trains of a kind.
#[derive(Clone, Copy)]
pub(crate) struct Group {
    pub(crate) kind: Kind,
    pub(crate) count: usize,
    /// What each may earn before it has begun, in dollars.
    pub(crate) may_earn: Amount,
}

/// What stays the same in a walk.
#[derive(Drop)]
pub(crate) struct Tree {
    pub(crate) company: Company,
    pub(crate) reached: ReachedStops,
    pub(crate) ranking: Ranking,
    pub(crate) links: HexLinks,
    pub(crate) known: KnownStops,
    pub(crate) groups: PerKind<Group>,
    /// How many trains there are.
    pub(crate) count: usize,
}

impl Tree {
    /// Returns the tree of a company's trains.
    pub(crate) fn of<N: Network>(network: &N, company: Company, trains: &[Kind]) -> Tree
        ensures tree { IsTree (N.position network.now) result }
        ensures company { result.company ≡ company }
        ensures reached { AreReachedStops (N.position network.now) company result.reached }
        ensures trains { trains_of_tree result ≡ greatest_first trains.now }
    {
        network.keeps_laws();
        let reached = reached_stops(network, company);
        let ranking = Ranking::of(network, &reached);
        let known = KnownStops::of(network, company, &reached);
        let groups = [
            group_of(&ranking, trains, Kind::Diesel),
            group_of(&ranking, trains, Kind::Six),
            group_of(&ranking, trains, Kind::Five),
            group_of(&ranking, trains, Kind::Four),
            group_of(&ranking, trains, Kind::Three),
            group_of(&ranking, trains, Kind::Two),
        ];
        Tree {
            company,
            reached,
            ranking,
            links: HexLinks::of(network),
            known,
            groups,
            count: number_of(trains),
        }
    }

    /// Returns the trains, kind by kind.
    fn groups(&self) -> &[Group]
        ensures { result.now ≡ self.now.groups }
    {
        &self.groups
    }

    /// Returns whether a stop is reached.
    pub(crate) fn reaches(&self, stop: Stop) -> bool
        ensures { result ≡ has_stop stop (reached_in self.now) }
    {
        self.reached.has(stop)
    }

    /// Returns what a train may still earn, in dollars, at the reached stops that it has not
    /// visited and still may.
    pub(crate) fn may_earn(&self, left: Option<usize>, seen: &StopMarks) -> Amount
        ensures { (position : Position) (stops : List Stop) → IsTree position self.now →
            AreVisited seen.now stops →
            result ≡ most_of left (new_values position stops (reached_in self.now)) }
    {
        self.ranking.most_left(seen, left)
    }

    /// Returns the kind of the train at a place in their order; `None` after the last.
    pub(crate) fn kind_at(&self, place: usize) -> Option<Kind>
        ensures { result ≡ kind_from self.now.groups place }
    {
        let mut before = place;
        for group in self.groups() {
            if before < group.count {
                return Some(group.kind);
            }
            before -= group.count;
        }
        None
    }

    /// Returns what the trains from a place on may earn, in dollars, before any of them has begun.
    pub(crate) fn may_earn_from(&self, place: usize) -> u64
        ensures { result ≡ capped (earned_from self.now.groups place) }
    {
        let mut before = place;
        let mut sum: u64 = 0;
        for group in self.groups() {
            let count = group.count.saturating_sub(before) as u64;
            sum = sum.saturating_add(count.saturating_mul(group.may_earn as u64));
            before = before.saturating_sub(group.count);
        }
        sum
    }
}

/// Returns those of some trains that are of a kind.
fn group_of(ranking: &Ranking, trains: &[Kind], kind: Kind) -> Group
    ensures kind { result.kind ≡ kind }
    ensures count { result.count ≡ count_by (λ train. same_kind train kind) trains.now }
    ensures may_earn { (position : Position) (reached : List Stop) →
        ranking.now ≡ ranked_of position reached →
        result.may_earn ≡ may_earn position reached kind [] }
{
    Group {
        kind,
        count: trains
            .iter()
            .filter(|train| train.index() == kind.index())
            .count(),
        may_earn: ranking.may_begin(kind),
    }
}

/// Returns how many trains there are.
fn number_of(trains: &[Kind]) -> usize
    ensures { result ≡ length trains.now }
{
    trains.len()
}
