//! The position that a plain board keeps.
ghost use Rattle.board_state.specs.MapState.{position_of};

use crate::laws::map_states_are_lawful;
use crate::on_map::{full_on_map, links_on_map, red_on_map, token_on_map, value_on_map};
use crate::plain_board::PlainBoard;
use map_tables::{Hex, Links, Stop};
use reach::Network;
use tables::{Amount, Company};

impl Network for PlainBoard {
    ghost position = { position_of };

    fn links(&self, hex: Hex) -> Links {
        links_on_map(self, hex)
    }

    fn value(&self, stop: Stop) -> Amount {
        value_on_map(self, stop)
    }

    fn red(&self, stop: Stop) -> bool {
        red_on_map(self, stop)
    }

    fn full(&self, stop: Stop, company: Company) -> bool {
        full_on_map(self, stop, company)
    }

    fn token(&self, stop: Stop, company: Company) -> bool {
        token_on_map(self, stop, company)
    }

    fn keeps_laws(&self) {
        map_states_are_lawful();
    }
}
