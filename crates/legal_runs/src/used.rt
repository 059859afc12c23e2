//! The borders that a company's trains have already used in its turn.
ghost use Rattle.std.specs.Prelude.{◌≡◌, ◌<◌, true, false, get_or, replicate, set, IfSome, count_by, not};
ghost use Rattle.legal_runs.specs.Legal.{map_borders};
ghost use Rattle.legal_runs.specs.TwoTrain.{crossing};

use crate::border_numbers::{BORDERS, border};
use map_tables::TrackEnd;
use reach::Spot;
use std::marker::Model;

/// The borders that the trains of a company have crossed in its turn, by their numbers.
#[derive(Clone, Copy, Debug)]
pub struct Used {
    pub(crate) crossed: [bool; BORDERS],
}

/// In a contract it is the list of marks, one for each border.
impl Model for Used {
    ghost use Rattle.std.specs.Prelude.{◌≡◌, Bool, List, length};
    ghost use Rattle.legal_runs.specs.Legal.{map_borders};

    ghost Value = { List Bool };

    ghost view = { λ used. used.crossed };

    ghost invariant = { λ used. length used.crossed ≡ map_borders };

    ghost inverse = { λ marks. record { crossed = marks } };
}

impl Used {
    /// Returns marks for no border.
    pub fn new() -> Used
        ensures { result ≡ replicate map_borders false }
    {
        Used {
            crossed: [false; BORDERS],
        }
    }

    /// Returns the used borders with the one at a spot added; `None` if that is used already, or if
    /// the spot is a stop.
    #[tactic(auto, using(crate::proofs::Fewer::fewer_free))]
    pub(crate) fn over(&self, spot: Spot) -> Option<Used>
        ensures crossing { result ≡ crossing self.now spot }
        ensures fewer { IfSome result (λ over. count_by not over < count_by not self.now) }
    {
        let TrackEnd::Side(side) = spot.end else {
            return None;
        };
        let number = border(spot.hex, side);
        if self.crossed[number] {
            return None;
        }
        let mut over = *self;
        over.crossed[number] = true;
        Some(over)
    }

    /// Returns whether the border with a number is used.
    pub fn has(&self, border: usize) -> bool
        requires { border < map_borders }
        ensures { result ≡ get_or self.now border false }
    {
        self.crossed[border]
    }

    /// Marks a border as used.
    #[tactic(auto, using(crate::proofs::Fewer::fewer_free))]
    pub fn add(&mut self, border: usize)
        requires { border < map_borders }
        ensures marked { self.new ≡ set self.old border true }
        ensures fewer { get_or self.old border false ≡ false →
            count_by not self.new < count_by not self.old }
    {
        self.crossed[border] = true;
    }

    /// Unmarks a border.
    pub fn remove(&mut self, border: usize)
        requires { border < map_borders }
        ensures { self.new ≡ set self.old border false }
    {
        self.crossed[border] = false;
    }
}
