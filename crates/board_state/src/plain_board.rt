//! The map state as plain lists of tiles and tokens, which are searched for what lies on a hex.
ghost use Rattle.std.specs.Prelude.{◌≡◌, None, IfErr, IfOk, IsOk, unwrap_or};
ghost use Rattle.board_state.specs.Fit.{board_fault_of};
ghost use Rattle.board_state.specs.MapState.{map_state_of};

use crate::fault::BoardFault;
use crate::fit::fault_of;
use crate::on_map::OnMap;
use crate::stop_facts::{count_naming, has_token, tile_on};
use map_tables::{Hex, Lay, Links, Place, Stop, laid_links, printed_links};
use std::alloc::Global;
use std::marker::Model;
use tables::{Company, Kind};

/// The tiles and tokens that lie on the map, in a phase, as plain lists, which it searches for what
/// lies on a hex. In a contract it is the same as a `Board`, which finds that at once.
#[derive(Drop)]
pub struct PlainBoard {
    lays: Vec<Lay>,
    tokens: Vec<(Place, Company)>,
    phase: Kind,
}

impl Model for PlainBoard {
    ghost use Rattle.board_state.specs.MapState.{MapState};

    ghost Value = { MapState };

    ghost view = { λ b. record { lays = b.lays.items; tokens = b.tokens.items; phase = b.phase } };
}

impl PlainBoard {
    /// Returns the board after these lays and tokens, oldest first, in a phase. The error is the
    /// first of `Kind`, `BadSide` and `NoSlot` that holds of the two lists. If none does they are
    /// copied, and the error is `Memory` if that allocation fails.
    pub fn of(
        alloc: Global,
        lays: &[Lay],
        tokens: &[(Place, Company)],
        phase: Kind,
    ) -> Result<PlainBoard, BoardFault>
        ensures board { IfOk result (λ board. board ≡ map_state_of lays.now tokens.now phase) }
        ensures fits { IsOk result → board_fault_of lays.now tokens.now ≡ None }
        ensures fault { IfErr result (λ fault.
            fault ≡ unwrap_or (board_fault_of lays.now tokens.now) BoardFault.Memory) }
    {
        if let Some(fault) = fault_of(lays, tokens) {
            return Err(fault);
        }
        Ok(PlainBoard {
            lays: Vec::from_slice(alloc, lays)?,
            tokens: Vec::from_slice(alloc, tokens)?,
            phase,
        })
    }
}

impl OnMap for PlainBoard {
    ghost laid = { λ board. board };

    fn tile_on(&self, hex: Hex) -> Option<Lay> {
        tile_on(&self.lays, hex)
    }

    fn links_on(&self, hex: Hex) -> Links {
        match self.tile_on(hex) {
            Some(lay) => laid_links(lay),
            None => printed_links(hex),
        }
    }

    fn count_at(&self, stop: Stop) -> usize {
        count_naming(&self.tokens, stop)
    }

    fn holds(&self, stop: Stop, company: Company) -> bool {
        has_token(&self.tokens, stop, company)
    }

    fn phase(&self) -> Kind {
        self.phase
    }
}
