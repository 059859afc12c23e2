//! The position that a board keeps.
ghost use Rattle.board_state.specs.MapState.{position_of, with_lay};

use crate::board::Board;
use crate::board_with_lay::After;
use board_state::laws::map_states_are_lawful;
use board_state::{full_on_map, links_on_map, red_on_map, token_on_map, value_on_map};
use map_tables::{Hex, Links, Stop};
use reach::Network;
use tables::{Amount, Company};

impl Network for Board {
    ghost position = { position_of };

    fn links(&self, hex: Hex) -> Links {
        links_on_map(self, hex)
    }

    fn value(&self, stop: Stop) -> Amount {
        value_on_map(self, stop)
    }

    fn red(&self, stop: Stop) -> bool {
        red_on_map(self, stop)
    }

    fn full(&self, stop: Stop, company: Company) -> bool {
        full_on_map(self, stop, company)
    }

    fn token(&self, stop: Stop, company: Company) -> bool {
        token_on_map(self, stop, company)
    }

    fn keeps_laws(&self) {
        map_states_are_lawful();
    }
}

impl Network for After<'_> {
    ghost position = { λ after. position_of (with_lay after.board.now after.lay) };

    fn links(&self, hex: Hex) -> Links {
        links_on_map(self, hex)
    }

    fn value(&self, stop: Stop) -> Amount {
        value_on_map(self, stop)
    }

    fn red(&self, stop: Stop) -> bool {
        red_on_map(self, stop)
    }

    fn full(&self, stop: Stop, company: Company) -> bool {
        full_on_map(self, stop, company)
    }

    fn token(&self, stop: Stop, company: Company) -> bool {
        token_on_map(self, stop, company)
    }

    fn keeps_laws(&self) {
        map_states_are_lawful();
    }
}
