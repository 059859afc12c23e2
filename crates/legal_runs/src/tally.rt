//! The tally of a run, kept step by step: the stops that it visits, what they are worth, and the
//! borders that it crosses. At the end it gives the first rule that the run breaks.
ghost use Rattle.std.specs.Prelude.{◌≡◌, ◌+◌, ◌*◌, ◌<◌, ◌≤◌};
ghost use Rattle.legal_runs.specs.Fault.{has_token_at_stop, is_full, is_wrong_number};
ghost use Rattle.legal_runs.specs.Legal.{map_borders};
ghost use Rattle.legal_runs.specs.Named.{with_leg};
ghost use Rattle.legal_runs.specs.Tally.{counted, crossing, entering, leaving, no_steps, passing, tally_fault};
ghost use Rattle.legal_runs.specs.Tally.{visiting};
ghost use Rattle.reach.specs.Position.{value_of};

use crate::border_numbers::{BORDERS, border};
use crate::leg::Leg;
use crate::used::Used;
use map_tables::{RunRule, Stop, TrackEnd};
use reach::{Network, STOPS, Spot, WalkStep, stop_order};
use tables::{Amount, Company, Kind, rules};

/// What is kept of the steps that a train has followed.
#[derive(Clone, Copy)]
pub(crate) struct Tally {
    /// Whether it has followed a step.
    begun: bool,
    /// How many stops it has visited; a stop counts once for each visit.
    stops: usize,
    /// What these are worth, in dollars.
    pub(crate) value: Amount,
    /// The stops that it has visited, by their order on the map.
    seen: [bool; STOPS],
    stop_twice: bool,
    /// The borders that it and earlier trains have crossed.
    pub(crate) crossed: [bool; BORDERS],
    border_twice: bool,
    passes_full: bool,
    own_token: bool,
    red_inside: bool,
}

impl Tally {
    /// Returns the tally before the first step.
    pub(crate) fn none(used: &Used) -> Tally
        ensures { result ≡ no_steps used.now }
    {
        Tally {
            begun: false,
            stops: 0,
            value: 0,
            seen: [false; STOPS],
            stop_twice: false,
            crossed: used.crossed,
            border_twice: false,
            passes_full: false,
            own_token: false,
            red_inside: false,
        }
    }

    /// Visits a stop.
    #[tactic(auto, unfolding(crate::specs::Tally::visiting))]
    fn visit<N: Network>(&mut self, network: &N, company: Company, stop: Stop)
        requires few { self.old.stops ≤ 10000 }
        requires low { self.old.value ≤ 80 * self.old.stops }
        ensures tally { self.new ≡ visiting (N.position network.now) company self.old stop }
        ensures few { self.new.stops ≡ self.old.stops + 1 }
        ensures low { self.new.value ≤ 80 * self.new.stops }
    {
        let number = stop_order(stop);
        self.stops += 1;
        self.value += worth(network, stop);
        self.stop_twice |= self.seen[number];
        self.seen[number] = true;
        self.own_token = self.own_token || has_token_at_stop(network, company, stop);
    }

    /// Passes a stop.
    #[tactic(auto, unfolding(crate::specs::Tally::passing))]
    fn pass<N: Network>(&mut self, network: &N, company: Company, stop: Stop)
        ensures tally { self.new ≡ passing (N.position network.now) company self.old stop }
        ensures few { self.new.stops ≡ self.old.stops }
        ensures low { self.new.value ≡ self.old.value }
    {
        self.passes_full |= is_full(network, company, stop);
        self.red_inside |= network.red(stop);
    }

    /// Crosses a border.
    #[tactic(auto, unfolding(crate::specs::Tally::crossing))]
    fn cross(&mut self, border: usize)
        requires { border < map_borders }
        ensures tally { self.new ≡ crossing self.old border }
        ensures few { self.new.stops ≡ self.old.stops }
        ensures low { self.new.value ≡ self.old.value }
    {
        self.border_twice |= self.crossed[border];
        self.crossed[border] = true;
    }

    /// Enters a step at a spot.
    fn enter<N: Network>(&mut self, network: &N, company: Company, spot: Spot)
        requires few { self.old.stops ≤ 10000 }
        requires low { self.old.value ≤ 80 * self.old.stops }
        ensures tally { self.new ≡ entering (N.position network.now) company self.old spot }
        ensures few { self.new.stops ≤ self.old.stops + 1 }
        ensures low { self.new.value ≤ 80 * self.new.stops }
    {
        if let Some(stop) = spot.stop() {
            if self.begun {
                self.pass(network, company, stop);
            } else {
                self.visit(network, company, stop);
            }
        }
        if let TrackEnd::Side(side) = spot.end {
            self.cross(border(spot.hex, side));
        }
    }

    /// Leaves a step at a spot.
    fn leave<N: Network>(&mut self, network: &N, company: Company, spot: Spot)
        requires few { self.old.stops ≤ 10000 }
        requires low { self.old.value ≤ 80 * self.old.stops }
        ensures tally { self.new ≡ leaving (N.position network.now) company self.old spot }
        ensures few { self.new.stops ≤ self.old.stops + 1 }
        ensures low { self.new.value ≤ 80 * self.new.stops }
    {
        if let Some(stop) = spot.stop() {
            self.visit(network, company, stop);
        }
        self.begun = true;
    }

    /// Follows a step.
    #[tactic(auto, unfolding(crate::specs::Tally::counted))]
    #[inline(always)]
    fn count<N: Network>(&mut self, network: &N, company: Company, step: WalkStep)
        requires few { self.old.stops ≤ 9000 }
        requires low { self.old.value ≤ 80 * self.old.stops }
        ensures tally { self.new ≡ counted (N.position network.now) company self.old step }
        ensures few { self.new.stops ≤ self.old.stops + 2 }
        ensures low { self.new.value ≤ 80 * self.new.stops }
    {
        self.enter(network, company, step.entered());
        self.leave(network, company, step.left());
    }

    /// Follows the steps of a leg.
    pub(crate) fn count_leg<N: Network>(&mut self, network: &N, company: Company, leg: Leg)
        requires few { self.old.stops ≤ 8000 }
        requires low { self.old.value ≤ 80 * self.old.stops }
        ensures tally { let count = counted (N.position network.now) company in
            self.new ≡ with_leg count self.old leg }
        ensures few { self.new.stops ≤ self.old.stops + 4 }
        ensures low { self.new.value ≤ 80 * self.new.stops }
    {
        self.count(network, company, leg.first);
        if let Some(step) = leg.second {
            self.count(network, company, step);
        }
    }

    /// Returns the first rule that the run breaks; `None` if it breaks none.
    pub(crate) fn fault(&self, kind: Kind) -> Option<RunRule>
        ensures { result ≡ tally_fault kind self.now }
    {
        rules! { RunRule
            WrongNumber: is_wrong_number(kind, self.stops),
            StopTwice: self.stop_twice,
            BorderTwice: self.border_twice,
            PassesFull: self.passes_full,
            NoToken: !self.own_token,
            RedInside: self.red_inside,
        }
    }
}

/// Returns what a stop is worth, in dollars.
pub fn worth<N: Network>(network: &N, stop: Stop) -> Amount
    ensures value { result ≡ value_of (N.position network.now) stop }
    ensures bound { result ≤ 80 }
{
    network.keeps_laws();
    network.value(stop)
}

/// Returns whether a company has a token at a stop.
#[tactic(auto, using(crate::proofs::Tests::tests_agree, crate::proofs::Tests::has_token_is))]
pub fn has_token_at_stop<N: Network>(network: &N, company: Company, stop: Stop) -> bool
    ensures { result ≡ has_token_at_stop (N.position network.now) company stop }
{
    network.token(stop, company)
}

/// Returns whether a stop is a city that is full for a company.
#[tactic(auto, using(crate::proofs::Tests::tests_agree, crate::proofs::Tests::is_full_is))]
pub fn is_full<N: Network>(network: &N, company: Company, stop: Stop) -> bool
    ensures { result ≡ is_full (N.position network.now) company stop }
{
    network.full(stop, company)
}

/// Returns whether a train of a kind may not visit this many stops.
fn is_wrong_number(kind: Kind, stops: usize) -> bool
    ensures { result ≡ is_wrong_number kind stops }
{
    stops < 2 || kind.stops().is_some_and(|most| most < stops)
}
