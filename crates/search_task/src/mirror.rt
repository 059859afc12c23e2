//! Reverse legs: each leg should lead over the same track in the other direction too.
ghost use Rattle.std.specs.Prelude.{◌≡◌, ◌<◌, IsTrue, length};
ghost use Rattle.search_task.specs.Legs.{AllLeadBack, HasMirror, IsMirrored};

use crate::task::{Leg, Task};

impl Task {
    /// Returns whether a leg leads back over another, from where that ends, and crosses only its
    /// borders.
    fn leads_back(&self, leg: &Leg) -> bool
        ensures { IsTrue result → HasMirror self.now leg.now }
    {
        let to = leg.segment.to.number().index();
        if to >= self.departures.len() {
            return false;
        }
        let from = &self.departures[to];
        for index in 0..from.legs.len() {
            let back = &from.legs[index];
            if back.segment.borders.is_within(&leg.segment.borders) {
                return true;
            }
        }
        false
    }

    /// Returns whether legs lead back over all legs from a spot.
    fn all_lead_back(&self, spot: usize) -> bool
        requires { spot < length self.now.departures.items }
        ensures { IsTrue result → AllLeadBack self.now spot }
    {
        let from = &self.departures[spot];
        for index in 0..from.legs.len() {
            let leg = &from.legs[index];
            if !self.leads_back(leg) {
                return false;
            }
        }
        true
    }

    /// Returns whether legs lead back over all legs.
    pub(crate) fn is_mirrored(&self) -> bool
        ensures { IsTrue result → IsMirrored self.now }
    {
        for spot in 0..self.departures.len() {
            if !self.all_lead_back(spot) {
                return false;
            }
        }
        true
    }
}
