//! The segments of track that lead from the spots, all in one table. The segments from a spot are
//! added one after another, each with the place of the one before it.
ghost use Rattle.std.specs.Prelude.{◌≡◌, ◌<◌, [], IfOk, OnOk, Some, length, slice_get};
ghost use Rattle.search_task.specs.Segments.{AddsSegment, segments_from};

use crate::outgoing_segment::Stretch;
use crate::spot_number::SpotNumber;
use reach::SPOTS;
use std::alloc::{AllocError, Global};
use std::marker::Model;

/// How many segments a table has room for at first.
const ROOM: usize = 256;

/// A segment that leads from a spot.
#[derive(Drop)]
pub(crate) struct Entry {
    /// The spot, by its number.
    pub(crate) from: SpotNumber,
    /// How many segments lead from there before it.
    pub(crate) place: usize,
    /// The place in the table of the one before it, if there is one.
    pub(crate) before: usize,
    /// The segment.
    pub(crate) segment: Stretch,
}

/// The segments that lead from a spot.
#[derive(Clone, Copy)]
pub(crate) struct Chain {
    /// How many segments.
    pub(crate) count: usize,
    /// The place in the table of the last of them, if there is one.
    pub(crate) last: usize,
}

/// The segments from all spots. In a contract they are the table, in order.
#[derive(Drop)]
pub struct Segments {
    entries: Vec<Entry>,
    /// For each spot, by its number, the segments from there.
    chains: Vec<Chain>,
}

impl Model for Segments {
    ghost use Rattle.std.specs.Prelude.{List};
    ghost use Rattle.search_task.specs.declared.segments.Entry.{Entry};

    ghost Value = { List Entry };

    ghost use Rattle.search_task.specs.Segments.{AreChained};

    ghost view = { λ segments. segments.entries.items };

    ghost invariant = { λ segments. AreChained segments.entries.items segments.chains.items };
}

impl Segments {
    /// Returns an empty table. Fails only if allocation fails.
    pub(crate) fn new(alloc: Global) -> Result<Segments, AllocError>
        ensures { IfOk result (λ segments. segments ≡ []) }
    {
        let entries = Vec::with_capacity(alloc, ROOM)?;
        let mut chains = Vec::new(alloc);
        chains.resize(SPOTS, Chain { count: 0, last: 0 })?;
        Ok(Segments { entries, chains })
    }

    /// Adds a segment after those that lead from a spot. Fails only if allocation fails.
    pub(crate) fn add(&mut self, from: SpotNumber, segment: Stretch) -> Result<(), AllocError>
        ensures { OnOk result (AddsSegment from segment self.old self.new) }
    {
        let at = from.index();
        let chain = self.chains[at];
        let last = self.entries.len();
        self.entries.push(Entry {
            from,
            place: chain.count,
            before: chain.last,
            segment,
        })?;
        self.chains[at] = Chain {
            count: chain.count + 1,
            last,
        };
        Ok(())
    }

    /// Returns how many segments lead from a spot.
    pub(crate) fn count(&self, spot: SpotNumber) -> usize
        ensures { result ≡ length (segments_from spot self.now) }
    {
        let at = spot.index();
        self.chains[at].count
    }

    /// Returns the segment that leads from a spot at a place among those from there.
    pub(crate) fn at(&self, spot: SpotNumber, place: usize) -> &Stretch
        requires { place < length (segments_from spot self.now) }
        ensures { slice_get (segments_from spot self.now) place ≡ Some result.now }
    {
        let at = spot.index();
        let chain = self.chains[at];
        let mut entry = chain.last;
        for next in place + 1..chain.count {
            entry = self.entries[entry].before;
        }
        &self.entries[entry].segment
    }
}
