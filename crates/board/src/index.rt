//! The index of a board, which finds a tile, its links and the tokens at a stop at once.
ghost use Rattle.std.specs.Prelude.{◌≡◌, ◌+◌, ◌^◌, ◌<◌, [], Some, None, false, map, slice_index_or, slice_set};
ghost use Rattle.board.specs.Index.{IsIndex, counting, holding, holder_order};
ghost use Rattle.board.specs.KeptLinks.{held};
ghost use Rattle.map_tables.specs.Hex.{index_of};
ghost use Rattle.map_tables.specs.Lay.{laid_links_of};
ghost use Rattle.map_tables.specs.Place.{stop_of_place};
ghost use Rattle.reach.specs.Reached.{stop_order};
ghost use Rattle.map_tables.specs.declared.place.Stop.{Stop};

use crate::kept_links::KeptLinks;
use map_tables::{HEXES, Hex, Lay, Links, Place, Stop, joined_stop, laid_links};
use reach::{STOPS, stop_order};
use tables::{COMPANIES, Company};

/// How many places there are for tokens: one of each company at each stop.
const HOLDERS: usize = COMPANIES * STOPS;

/// The tiles and tokens by their places, so that each is found at once: the tile on each hex with
/// its links, how many tokens name each stop, and whose they are.
#[derive(Clone, Copy)]
pub(crate) struct Index {
    tiles: [Option<Lay>; HEXES],
    links: [KeptLinks; HEXES],
    counts: [usize; STOPS],
    holders: [bool; HOLDERS],
}

/// Returns the place of a company at a stop.
fn holder_of(stop: Stop, company: Company) -> usize
    ensures order { result ≡ holder_order stop company }
    ensures low { result < 1488 }
{
    COMPANIES * stop_order(stop) + company.index()
}

impl Index {
    /// Returns the index of an empty map.
    pub(crate) fn none() -> Index
        ensures { IsIndex [] [] result.tiles (map held result.links) result.counts result.holders }
    {
        Index {
            tiles: [None; HEXES],
            links: [KeptLinks::none(); HEXES],
            counts: [0; STOPS],
            holders: [false; HOLDERS],
        }
    }

    /// Returns the tile on a hex.
    pub(crate) fn tile_on(&self, hex: Hex) -> Option<Lay>
        ensures { result ≡ slice_index_or self.now.tiles (index_of hex) None }
    {
        self.tiles[hex.index()]
    }

    /// Returns the links of the tile on a hex; none if no tile lies there.
    pub(crate) fn links_of_tile(&self, hex: Hex) -> Links
        ensures { result.items ≡ slice_index_or (map held self.now.links) (index_of hex) [] }
    {
        self.links[hex.index()].links()
    }

    /// Returns how many tokens name a stop.
    pub(crate) fn count_at(&self, stop: Stop) -> usize
        ensures { result ≡ slice_index_or self.now.counts (stop_order stop) 0 }
    {
        self.counts[stop_order(stop)]
    }

    /// Returns whether a token of a company names a stop.
    pub(crate) fn holds(&self, stop: Stop, company: Company) -> bool
        ensures { result ≡ slice_index_or self.now.holders (holder_order stop company) false }
    {
        self.holders[holder_of(stop, company)]
    }

    /// Adds a tile that is laid.
    pub(crate) fn add_lay(&mut self, lay: Lay)
        ensures tiles { self.new.tiles ≡ slice_set self.old.tiles (index_of lay.hex) (Some lay) }
        ensures links { map held self.new.links
            ≡ slice_set (map held self.old.links) (index_of lay.hex) (laid_links_of lay) }
        ensures counts { self.new.counts ≡ self.old.counts }
        ensures holders { self.new.holders ≡ self.old.holders }
    {
        self.tiles[lay.hex.index()] = Some(lay);
        self.links[lay.hex.index()] = KeptLinks::of(&laid_links(lay));
    }

    /// Adds a token that is placed.
    pub(crate) fn add_token(&mut self, place: Place, company: Company)
        requires { (stop : Stop) → slice_index_or self.old.counts (stop_order stop) 0 + 1 < 2 ^ 64 }
        ensures tiles { self.new.tiles ≡ self.old.tiles }
        ensures links { self.new.links ≡ self.old.links }
        ensures counts { self.new.counts ≡ counting (stop_of_place place) self.old.counts }
        ensures holders { self.new.holders
            ≡ holding (stop_of_place place) company self.old.holders }
    {
        let Some(part) = place.stop() else {
            return;
        };
        let stop = joined_stop(part);
        self.counts[stop_order(stop)] += 1;
        self.holders[holder_of(stop, company)] = true;
    }
}
