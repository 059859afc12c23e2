//! What the reached stops are to a company, as a walk looks them up.
ghost use Rattle.certificate.specs.KnownStops.{AreKnown, IsOfStop};

use legal_runs::{has_token_at_stop, is_full, worth};
use map_tables::Stop;
use reach::{Network, ReachedStops, STOPS, stop_order};
use tables::Company;

/// What a stop is to a company.
#[derive(Clone, Copy)]
pub(crate) struct StopFacts {
    /// What the stop is worth, in dollars; 80 at most.
    pub(crate) value: u8,
    /// Whether the company has a token there.
    pub(crate) own_token: bool,
    /// Whether each run of the company ends there: the stop is red, or full for the company.
    pub(crate) ends: bool,
}

impl StopFacts {
    /// Returns what a stop is to a company.
    fn of<N: Network>(network: &N, company: Company, stop: Stop) -> StopFacts
        ensures { IsOfStop (N.position network.now) company stop result }
    {
        StopFacts {
            value: worth(network, stop) as u8,
            own_token: has_token_at_stop(network, company, stop),
            ends: network.red(stop) || is_full(network, company, stop),
        }
    }
}

/// What the reached stops are to a company. A network is asked once for each of them. Allocates
/// nothing.
#[derive(Drop)]
pub(crate) struct KnownStops {
    /// What the stops are, by their places in the order of the map; `None` for one that is not
    /// reached.
    facts: [Option<StopFacts>; STOPS],
}

impl KnownStops {
    /// Returns what some stops are to a company.
    pub(crate) fn of<N: Network>(
        network: &N,
        company: Company,
        reached: &ReachedStops,
    ) -> KnownStops
        ensures { AreKnown (N.position network.now) company result }
    {
        let mut facts = [None; STOPS];
        for stop in reached.stops() {
            facts[stop_order(*stop)] = Some(StopFacts::of(network, company, *stop));
        }
        KnownStops { facts }
    }

    /// Returns what a stop is to the company. If that is not known, it asks the network.
    #[inline(always)]
    pub(crate) fn at<N: Network>(&self, network: &N, company: Company, stop: Stop) -> StopFacts
        ensures { let position = N.position network.now in
            AreKnown position company self.now → IsOfStop position company stop result }
    {
        match self.facts[stop_order(stop)] {
            Some(facts) => facts,
            None => StopFacts::of(network, company, stop),
        }
    }
}
