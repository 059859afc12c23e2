//! The links of a hex, kept as a value that is copied.
ghost use Rattle.std.specs.Prelude.{◌≡◌, ◌+◌, ◌++◌, ◌∷◌, ◌<◌, []};
ghost use Rattle.board.specs.KeptLinks.{held};

use map_tables::{LINKS_MOST, Link, Links};

/// Links of a hex, at most six: this many of these.
#[derive(Clone, Copy)]
pub(crate) struct KeptLinks {
    links: [Link; LINKS_MOST],
    count: usize,
}

impl KeptLinks {
    /// Returns no links.
    pub(crate) fn none() -> KeptLinks
        ensures links { held result ≡ [] }
        ensures count { result.count ≡ 0 }
    {
        KeptLinks {
            links: [Link::default(); LINKS_MOST],
            count: 0,
        }
    }

    /// Returns these links.
    pub(crate) fn of(links: &Links) -> KeptLinks
        ensures { held result ≡ links.now.items }
    {
        let mut kept = KeptLinks::none();
        let given = links.as_slice();
        for link in given {
            kept.add(*link);
        }
        kept
    }

    /// Adds a link at the end.
    fn add(&mut self, link: Link)
        requires { self.old.count < 6 }
        ensures links { held self.new ≡ held self.old ++ link ∷ [] }
        ensures count { self.new.count ≡ self.old.count + 1 }
    {
        self.links[self.count] = link;
        self.count += 1;
    }

    /// Returns the links that it keeps.
    #[inline(always)]
    pub(crate) fn links(&self) -> Links
        ensures { result.items ≡ held self.now }
    {
        let mut links = Links::from_array_in((), self.links);
        links.truncate(self.count);
        links
    }
}
