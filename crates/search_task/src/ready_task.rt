//! A task whose legs are all known, so that it is ready to be searched.
ghost use Rattle.std.specs.Prelude.{◌≡◌, ◌<◌, Some, get_or, length, slice_get};
ghost use Rattle.reach.specs.Search.{map_spots};
ghost use Rattle.search_task.specs.Fit.{IsFit};
ghost use Rattle.search_task.specs.Legs.{AreReady, IsStop};
ghost use Rattle.search_task.specs.Spots.{node_at};

use crate::spot_number::SpotNumber;
use crate::task::{Departures, Node, Task};
use std::marker::Model;

/// A task that is fit, and whose legs, stops and homes are known. In a contract it is the task.
#[derive(Drop)]
pub struct ReadyTask {
    pub(crate) task: Task,
}

impl Model for ReadyTask {
    ghost use Rattle.search_task.specs.declared.task.Task.{Task};

    ghost Value = { Task };

    ghost use Rattle.search_task.specs.Legs.{IsReady};

    ghost view = { λ ready. ready.task };

    ghost invariant = { λ ready. IsReady ready.task };
}

impl ReadyTask {
    /// Shows to a proof what holds of every such task. It does nothing.
    #[inline(always)]
    pub fn is_ready(&self)
        ensures fit { IsFit self.now }
        ensures ready { AreReady self.now }
    {
        let _ = &self.task;
    }

    /// Returns what is known of a spot, by its number.
    #[inline(always)]
    pub fn node(&self, spot: SpotNumber) -> &Node
        ensures node { node_at self.now spot ≡ Some result.now }
        ensures low { spot < map_spots }
    {
        let at = spot.index();
        &self.task.spots[at]
    }

    /// Returns the departures from a spot, by its number.
    #[inline(always)]
    pub fn departures(&self, spot: SpotNumber) -> &Departures
        ensures { slice_get self.now.departures.items spot ≡ Some result.now }
    {
        let at = spot.index();
        &self.task.departures[at]
    }

    /// Returns how many stops are listed from which legs lead.
    #[inline(always)]
    pub fn stop_count(&self) -> usize
        ensures { result ≡ length self.now.stops.items }
    {
        self.task.stops.len()
    }

    /// Returns a stop from which legs lead, by its place among these.
    #[inline(always)]
    pub fn stop(&self, place: usize) -> SpotNumber
        requires { place < length self.now.stops.items }
        ensures at { slice_get self.now.stops.items place ≡ Some result }
        ensures is { IsStop self.now result }
    {
        self.task.stops[place]
    }

    /// Returns at how many spots the company has tokens.
    #[inline(always)]
    pub fn home_count(&self) -> usize
        ensures { result ≡ length self.now.homes.items }
    {
        self.task.homes.len()
    }

    /// Returns a spot where the company has a token, by its place among these.
    #[inline(always)]
    pub fn home(&self, place: usize) -> SpotNumber
        requires { place < length self.now.homes.items }
        ensures { result ≡ get_or self.now.homes.items place 0 }
    {
        self.task.homes[place]
    }

    /// Returns how many trains there are.
    #[inline(always)]
    pub fn train_count(&self) -> usize
        ensures { result ≡ length self.now.trains.items }
    {
        self.task.trains.len()
    }

    /// Returns the most stops of a run of a train, by its place.
    #[inline(always)]
    pub fn most_stops(&self, train: usize) -> usize
        requires { train < length self.now.trains.items }
        ensures { result ≡ get_or self.now.trains.items train 0 }
    {
        self.task.trains[train]
    }

    /// Returns whether each leg has a reverse.
    #[inline(always)]
    pub fn mirrored(&self) -> bool
        ensures { result ≡ self.now.mirrored }
    {
        self.task.mirrored
    }
}
