//! The consents to a sale to a company: those of the game, or everybody's.
//!
//! The umpire rules each line by the consents of the game. To show what a company could buy with a
//! consent, the same rules are applied as if everybody consented.
ghost use Rattle.std.specs.Prelude.{◌≡◌};
ghost use Rattle.purchases.specs.Consents.{agrees_by};

use history::GameView;
use order_grammar::Offer;
use tables::Seat;

/// Which consents count for a sale to a company: those of the game, or everybody's.
#[derive(Clone, Copy, Debug, PartialEq, Eq)]
pub enum Consents {
    /// Those of the game: a seat agrees to its own purchases, and to what it has offered in this
    /// round.
    OfGame,
    /// Everybody asked consents.
    All,
}

impl Consents {
    /// Returns whether a seat consents to a sale to another.
    pub(crate) fn agrees(self, view: &GameView, giver: Seat, taker: Seat, sale: Offer) -> bool
        ensures { result ≡ agrees_by self view.now.events giver taker sale }
    {
        match self {
            Consents::OfGame => view.has_consent(giver, taker, sale),
            Consents::All => true,
        }
    }
}
