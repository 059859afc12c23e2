//! A run as a ruling keeps it, in two bytes a place: one of few places by itself, any other in a
//! block of exactly its size.
ghost use Rattle.std.specs.Prelude.{◌≡◌, ◌++◌, ◌<◌, ◌≤◌, IfOk, MatchOption, OnOk, length};
ghost use Rattle.events.specs.PackedRun.{places_in};
ghost use Rattle.order_grammar.specs.Print.{places_text};

use crate::packed_place::PackedPlace;
use arrayvec::ArrayVec;
use map_tables::Run;
use std::alloc::{AllocError, Global};
use std::marker::Model;

/// A run of two to five places.
#[derive(Clone, Copy)]
pub(crate) enum ShortRun {
    Two([PackedPlace; 2]),
    Three([PackedPlace; 3]),
    Four([PackedPlace; 4]),
    Five([PackedPlace; 5]),
}

impl ShortRun {
    /// Packs a copy of a run; `None` if it has more than five places.
    pub(crate) fn pack(run: &Run) -> Option<ShortRun>
        ensures { MatchOption result (5 < length run.now) (λ short. places_in short ≡ run.now) }
    {
        match *run.as_slice() {
            [a, b] => Some(ShortRun::Two([PackedPlace::of(a), PackedPlace::of(b)])),
            [a, b, c] => Some(ShortRun::Three([
                PackedPlace::of(a),
                PackedPlace::of(b),
                PackedPlace::of(c),
            ])),
            [a, b, c, d] => Some(ShortRun::Four([
                PackedPlace::of(a),
                PackedPlace::of(b),
                PackedPlace::of(c),
                PackedPlace::of(d),
            ])),
            [a, b, c, d, e] => Some(ShortRun::Five([
                PackedPlace::of(a),
                PackedPlace::of(b),
                PackedPlace::of(c),
                PackedPlace::of(d),
                PackedPlace::of(e),
            ])),
            _ => None,
        }
    }

    /// Returns the run that is packed.
    pub(crate) fn run(&self) -> Run
        ensures { result ≡ places_in self.now }
    {
        run_of(self.places())
    }

    /// Returns its places, 2 to 5.
    pub(crate) fn places(&self) -> &[PackedPlace]
        ensures places { result.now ≡ places_in self.now }
        ensures least { 2 ≤ length (places_in self.now) }
        ensures most { length (places_in self.now) ≤ 5 }
    {
        match self {
            ShortRun::Two(places) => places,
            ShortRun::Three(places) => places,
            ShortRun::Four(places) => places,
            ShortRun::Five(places) => places,
        }
    }
}

/// The places of a run, in order, in a block of exactly their number.
#[derive(Drop)]
pub(crate) struct LongRun {
    places: Vec<PackedPlace>,
}

impl Model for LongRun {
    ghost use Rattle.std.specs.Prelude.{◌≤◌, List, length};
    ghost use Rattle.map_tables.specs.declared.place.Place.{Place};

    ghost Value = { List Place };

    ghost view = { λ packed. packed.places.items };

    ghost invariant = { λ packed. (2 ≤ length packed.places.items)
        × (length packed.places.items ≤ 280) };
}

impl LongRun {
    /// Packs a copy of a run. Fails only if the allocation of its places fails.
    pub(crate) fn pack(alloc: Global, run: &Run) -> Result<LongRun, AllocError>
        ensures { IfOk result (λ packed. packed ≡ run.now) }
    {
        let mut places = Vec::new(alloc);
        places.reserve_exact(run.as_slice().len())?;
        for place in run.as_slice() {
            places.push(PackedPlace::of(*place))?;
        }
        Ok(LongRun { places })
    }

    /// Returns the run that is packed.
    pub(crate) fn run(&self) -> Run
        ensures { result ≡ self.now }
    {
        run_of(self.places())
    }

    /// Returns its places, 2 to 280.
    pub(crate) fn places(&self) -> &[PackedPlace]
        ensures places { result.now ≡ self.now }
        ensures least { 2 ≤ length self.now }
        ensures most { length self.now ≤ 280 }
    {
        self.places.as_slice()
    }
}

/// Returns the run of these places.
fn run_of(packed: &[PackedPlace]) -> Run
    requires least { 2 ≤ length packed.now }
    requires most { length packed.now ≤ 280 }
    ensures { result ≡ packed.now }
{
    let mut places = ArrayVec::new();
    for place in packed {
        places.push(place.place());
    }
    Run::from_places(places).unwrap()
}

/// Adds places, each with a space before it.
pub(crate) fn print_places(text: &mut Vec<u8>, places: &[PackedPlace]) -> Result<(), AllocError>
    ensures { OnOk result (text.new.items ≡ text.old.items ++ places_text places.now) }
{
    for place in places {
        text.push(b' ')?;
        text.extend_from_slice(place.place().text().as_slice())?;
    }
    Ok(())
}
