//! The powers of CS and DH, used by a company that owns them.
ghost use Rattle.std.specs.Prelude.{◌≡◌};
ghost use Rattle.board.specs.Powers.{has_no_tile, is_cs_lay, is_dh_lay, is_dh_token, owns_private};

use crate::board::Board;
use crate::turn::Asker;
use board_state::{OnMap, same_hex};
use map_tables::{Hex, Lay, TileNo};
use tables::Private;

impl Board {
    /// Returns whether a lay on a hex is CS's: the company that owns CS lays on B20, while no tile
    /// lies there. Such a lay does not count as the lay of the turn, and needs no connection.
    #[tactic(auto, unfolding(crate::specs::Powers::is_cs_lay))]
    pub fn is_cs_lay(&self, asker: &Asker, hex: Hex) -> bool
        ensures { result ≡ is_cs_lay self.now.lays asker.now hex }
    {
        owns_private(asker, Private::ChamplainStLawrence)
            && same_hex(hex, Hex::B20)
            && self.has_no_tile(Hex::B20)
    }

    /// Returns whether no tile lies on a hex.
    fn has_no_tile(&self, hex: Hex) -> bool
        ensures { result ≡ has_no_tile self.now.lays hex }
    {
        match self.tile_on(hex) {
            Some(_) => false,
            None => true,
        }
    }
}

/// Returns whether a lay is DH's: the company that owns DH lays 57 on F16. It needs no connection,
/// and neither does a token there in the same turn, which costs nothing.
#[tactic(auto, unfolding(crate::specs::Powers::is_dh_lay))]
pub fn is_dh_lay(asker: &Asker, lay: Lay) -> bool
    ensures { result ≡ is_dh_lay asker.now lay }
{
    owns_private(asker, Private::DelawareHudson)
        && same_hex(lay.hex, Hex::F16)
        && lay.tile.index() == TileNo::T57.index()
}

/// Returns whether a token for a hex is DH's: DH's lay was made in this turn, and this is its hex.
#[tactic(auto, unfolding(crate::specs::Powers::is_dh_token))]
pub(crate) fn is_dh_token(asker: &Asker, hex: Hex) -> bool
    ensures { result ≡ is_dh_token asker.now hex }
{
    asker.dh_laid && same_hex(hex, Hex::F16)
}

/// Returns whether the company owns a private.
fn owns_private(asker: &Asker, private: Private) -> bool
    ensures { result ≡ owns_private asker.now private }
{
    asker.own_privates[private.index()]
}
