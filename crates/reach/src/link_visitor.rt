//! What a search does with the links that it follows.
ghost use Rattle.std.specs.Prelude.{OnOk};
ghost use Rattle.map_tables.specs.declared.track.Link.{Link};
ghost use Rattle.reach.specs.Position.{IsAmong};
ghost use Rattle.reach.specs.Search.{IsKept};

use map_tables::Link;
use std::alloc::AllocError;
use std::convert::Infallible;

/// Takes the links that a search follows. In a contract it is the set of links that it keeps.
pub(crate) trait Keeper {
    /// Why a link can't be kept.
    type Fault;

    /// Whether a link is kept.
    ghost keeps: { Self → Link → Type 0 };

    /// Keeps a link.
    fn keep(&mut self, link: Link) -> Result<(), Self::Fault>
        ensures { OnOk result (IsKept link (keeps self.old) (keeps self.new)) };
}

impl Keeper for Vec<Link> {
    type Fault = AllocError;

    ghost keeps = { λ links link. IsAmong link links.items };

    fn keep(&mut self, link: Link) -> Result<(), AllocError> {
        self.push(link)?;
        Ok(())
    }
}

/// Takes links and forgets them, so it allocates nothing. Its contract does not say which links it
/// keeps.
#[derive(Drop)]
pub(crate) struct Forgetful;

impl Keeper for Forgetful {
    type Fault = Infallible;

    ghost keeps = { λ forgetful link. Unit {0} };

    fn keep(&mut self, _link: Link) -> Result<(), Infallible> {
        Ok(())
    }
}
