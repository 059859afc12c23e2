//! The links of all hexes, as a walk looks them up.
ghost use Rattle.std.specs.Prelude.{◌≡◌, length, map};
ghost use Rattle.reach.specs.Position.{Position, links_of};
ghost use Rattle.certificate.specs.LinkEnds.{ends_of};

use crate::link_ends::{HexEnds, LinkEnds};
use arrayvec::ArrayVec;
use map_tables::{HEXES, Hex};
use reach::Network;

/// The links of each hex of a network, which is asked for each hex once. They take few bytes, since
/// each tree makes, and moves, its own table. Allocates nothing.
#[derive(Drop)]
pub(crate) struct HexLinks {
    /// The links by the places of the hexes in their order.
    hexes: ArrayVec<HexEnds, HEXES>,
    ghost whole: { length hexes.items ≡ 93 },
}

impl HexLinks {
    ghost use Rattle.certificate.specs.HexLinks.{AreHexLinks};

    /// Returns the links of the hexes of a network.
    pub(crate) fn of<N: Network>(network: &N) -> HexLinks
        ensures { AreHexLinks (N.position network.now) result }
    {
        let mut hexes = ArrayVec::new();
        for hex in &Hex::ALL {
            hexes.push(HexEnds::of(&network.links(*hex)));
        }
        HexLinks { hexes }
    }

    /// Returns the ends of the links of a hex, in order.
    pub(crate) fn at(&self, hex: Hex) -> &[LinkEnds]
        ensures { (position : Position) → AreHexLinks position self.now →
            result.now ≡ map ends_of (links_of position hex) }
    {
        let hexes = self.hexes.as_slice();
        let entry = &hexes[hex.index()];
        entry.links()
    }
}
