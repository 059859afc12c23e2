//! The trait of values that keep the tiles and tokens on the map, with the calls that a search
//! uses.
ghost use Rattle.std.specs.Prelude.{◌≡◌, ◌↔◌, IsTrue};
ghost use Rattle.reach.specs.Lawful.{IsLawful};
ghost use Rattle.reach.specs.Position.{HasToken, IsFull, Position, is_red, links_of, value_of};

use map_tables::{Hex, Links, Stop};
use tables::{Amount, Company};

/// Keeps a position: the track on the map, and the stops with their tokens. Its calls allocate
/// nothing. A stop that lies in two hexes may be given by either of its names.
pub trait Network {
    /// The position that it keeps. In a contract a network is this position.
    ghost position: { Self → Position };

    /// Returns the links of a hex, in order, none twice.
    fn links(&self, hex: Hex) -> Links
        ensures { result.items ≡ links_of (position self.now) hex };

    /// Returns what a stop is worth in this phase, in dollars, at most 80; 0 if there is no such
    /// stop.
    fn value(&self, stop: Stop) -> Amount
        ensures { result ≡ value_of (position self.now) stop };

    /// Returns whether a stop is red.
    fn red(&self, stop: Stop) -> bool
        ensures { result ≡ is_red (position self.now) stop };

    /// Returns whether a stop is a city that is full for a company: it has slots, and all of them
    /// hold tokens of other companies.
    fn full(&self, stop: Stop, company: Company) -> bool
        ensures { IsTrue result ↔ IsFull (position self.now) stop company };

    /// Returns whether a company has a token at a stop.
    fn token(&self, stop: Stop, company: Company) -> bool
        ensures { IsTrue result ↔ HasToken (position self.now) stop company };

    /// States the laws that every position keeps. It does nothing; a proof calls it to use them.
    fn keeps_laws(&self)
        ensures { IsLawful (position self.now) };
}
