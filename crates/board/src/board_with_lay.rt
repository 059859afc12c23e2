//! A board as it would be after one more lay, to see what a company would then reach.
ghost use Rattle.board_state.specs.MapState.{with_lay};

use crate::board::Board;
use board_state::{OnMap, same_hex};
use map_tables::{Hex, Lay, Links, Stop, laid_links};
use tables::{Company, Kind};

/// A board with one more tile, which is not laid yet. It shows what a company would reach.
#[derive(Drop)]
pub(crate) struct After<'a> {
    pub(crate) board: &'a Board,
    pub(crate) lay: Lay,
}

impl OnMap for After<'_> {
    ghost laid = { λ after. with_lay after.board.now after.lay };

    fn tile_on(&self, hex: Hex) -> Option<Lay> {
        if same_hex(self.lay.hex, hex) {
            return Some(self.lay);
        }
        self.board.tile_on(hex)
    }

    fn links_on(&self, hex: Hex) -> Links {
        if same_hex(self.lay.hex, hex) {
            return laid_links(self.lay);
        }
        self.board.links_on(hex)
    }

    fn count_at(&self, stop: Stop) -> usize {
        self.board.count_at(stop)
    }

    fn holds(&self, stop: Stop, company: Company) -> bool {
        self.board.holds(stop, company)
    }

    fn phase(&self) -> Kind {
        self.board.phase()
    }
}
