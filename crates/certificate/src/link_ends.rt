//! The ends of the links of a hex, in few bytes.
ghost use Rattle.std.specs.Prelude.{◌≡◌, ◌+◌, ◌++◌, ◌∷◌, ◌<◌, [], map};
ghost use Rattle.map_tables.specs.Track.{end_order};
ghost use Rattle.map_tables.specs.declared.track.Link.{Link};
ghost use Rattle.certificate.specs.LinkEnds.{ends_of, held};

use map_tables::{LINKS_MOST, Link, Links, TrackEnd};

/// The ends of a link in a hex, by their places in the order of the ends of a hex.
#[derive(Clone, Copy)]
pub(crate) struct LinkEnds {
    pub(crate) a: u8,
    pub(crate) b: u8,
}

impl LinkEnds {
    /// Returns the ends of a link.
    fn of(link: Link) -> LinkEnds
        ensures { result ≡ ends_of link }
    {
        LinkEnds {
            a: order(link.a),
            b: order(link.b),
        }
    }
}

/// Returns the place of an end in the order of the ends of a hex.
pub(crate) fn order(end: TrackEnd) -> u8
    ensures { result ≡ end_order end }
{
    end.order() as u8
}

/// The ends of the links of a hex, in order: this many of the first of these.
#[derive(Clone, Copy)]
pub(crate) struct HexEnds {
    ends: [LinkEnds; LINKS_MOST],
    count: u8,
}

impl Default for HexEnds {
    ghost use Rattle.std.specs.Prelude.{replicate};

    ghost is_default = { λ kept.
        kept ≡ record { ends = replicate 6 (record { a = 0; b = 0 }); count = 0 } };

    /// Returns no links, which fill the unused part of a table.
    fn default() -> HexEnds {
        HexEnds {
            ends: [LinkEnds { a: 0, b: 0 }; LINKS_MOST],
            count: 0,
        }
    }
}

impl HexEnds {
    /// Returns the ends of these links.
    pub(crate) fn of(links: &Links) -> HexEnds
        ensures { held result ≡ map ends_of links.now.items }
    {
        let mut kept = HexEnds {
            ends: [LinkEnds { a: 0, b: 0 }; LINKS_MOST],
            count: 0,
        };
        let given = links.as_slice();
        for link in given {
            kept.add(LinkEnds::of(*link));
        }
        kept
    }

    /// Adds the ends of a link after the others.
    fn add(&mut self, ends: LinkEnds)
        requires { self.old.count < 6 }
        ensures links { held self.new ≡ held self.old ++ ends ∷ [] }
        ensures count { self.new.count ≡ self.old.count + 1 }
    {
        self.ends[usize::from(self.count)] = ends;
        self.count += 1;
    }

    /// Returns the ends of the links.
    pub(crate) fn links(&self) -> &[LinkEnds]
        ensures { result.now ≡ held self.now }
    {
        &self.ends[..usize::min(usize::from(self.count), LINKS_MOST)]
    }
}
