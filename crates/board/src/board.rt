//! The board: the tiles and tokens that lie on the map in a phase, kept as lists and in an index.
ghost use Rattle.std.specs.Prelude.{◌≡◌, [], None, IfErr, IfOk, IsOk, OnErr, OnOk, length, unwrap_or};
ghost use Rattle.board_state.specs.Fit.{board_fault_of};
ghost use Rattle.board_state.specs.MapState.{map_state_of, with_lay, with_token};

use crate::index::Index;
use board_state::{BoardFault, OnMap, fault_of};
use map_tables::{Hex, Lay, Links, Place, Stop, printed_links};
use smallvec::SmallVec;
use std::alloc::{AllocError, Global};
use std::marker::Model;
use tables::{Company, Kind};

/// How many tokens there are: 25, of all companies.
const TOKENS: usize = 25;

/// The tiles and tokens that lie on the map, in a phase. In a contract it is all tiles and tokens
/// that were laid, oldest first, replaced tiles included. Beside the lists it keeps an index, so
/// that finding a tile or a token takes no longer when more are laid.
#[derive(Drop)]
pub struct Board {
    pub(crate) lays: Vec<Lay>,
    /// A game has no more than `TOKENS` of them, which are kept in the value itself.
    pub(crate) tokens: SmallVec<(Place, Company), TOKENS>,
    phase: Kind,
    index: Index,
}

impl Model for Board {
    ghost use Rattle.board_state.specs.MapState.{MapState};
    ghost use Rattle.board.specs.Index.{IsIndex};
    ghost use Rattle.board.specs.KeptLinks.{held};
    ghost use Rattle.std.specs.Prelude.{map};

    ghost Value = { MapState };

    ghost view = { λ b. record { lays = b.lays.items; tokens = b.tokens.items; phase = b.phase } };

    ghost invariant = { λ b. IsIndex b.lays.items b.tokens.items
        b.index.tiles (map held b.index.links) b.index.counts b.index.holders };
}

impl Board {
    /// Returns the board after these lays and tokens, oldest first, in a phase. The error is the
    /// first of `Kind`, `BadSide` and `NoSlot` that holds of the two lists. If none does they are
    /// copied, and the error is `Memory` if that allocation fails.
    pub fn of(
        alloc: Global,
        lays: &[Lay],
        tokens: &[(Place, Company)],
        phase: Kind,
    ) -> Result<Board, BoardFault>
        ensures board { IfOk result (λ board. board ≡ map_state_of lays.now tokens.now phase) }
        ensures fits { IsOk result → board_fault_of lays.now tokens.now ≡ None }
        ensures fault { IfErr result (λ fault.
            fault ≡ unwrap_or (board_fault_of lays.now tokens.now) BoardFault.Memory) }
    {
        if let Some(fault) = fault_of(lays, tokens) {
            return Err(fault);
        }
        let board = Board::with(alloc, lays, tokens, phase)?;
        Ok(board)
    }

    /// Returns the board after these lays and tokens, whether or not they fit.
    fn with(
        alloc: Global,
        lays: &[Lay],
        tokens: &[(Place, Company)],
        phase: Kind,
    ) -> Result<Board, AllocError>
        ensures { IfOk result (λ board. board ≡ map_state_of lays.now tokens.now phase) }
    {
        let mut board = Board::empty(alloc, phase);
        for lay in lays {
            board.put_lay(*lay)?;
        }
        for token in tokens {
            board.put_token(token.0, token.1)?;
        }
        Ok(board)
    }

    /// Returns a board on which nothing lies.
    pub fn empty(alloc: Global, phase: Kind) -> Board
        ensures { result ≡ map_state_of [] [] phase }
    {
        Board {
            lays: Vec::new(alloc),
            tokens: SmallVec::new(alloc),
            phase,
            index: Index::none(),
        }
    }

    /// Returns how many tiles were laid, including those that were replaced.
    pub fn tiles_laid(&self) -> usize
        ensures { result ≡ length self.now.lays }
    {
        self.lays.len()
    }

    /// Returns how many tokens were placed.
    pub fn tokens_placed(&self) -> usize
        ensures { result ≡ length self.now.tokens }
    {
        self.tokens.len()
    }

    /// Returns the tokens on the map, oldest first.
    pub(crate) fn laid_tokens(&self) -> &[(Place, Company)]
        ensures { result.now ≡ self.now.tokens }
    {
        self.tokens.as_slice()
    }

    /// Begins a phase.
    pub fn put_phase(&mut self, phase: Kind)
        ensures { self.new ≡ map_state_of self.old.lays self.old.tokens phase }
    {
        self.phase = phase;
    }

    /// Lays a tile. Fails only if allocation fails, which leaves the board unchanged.
    pub fn put_lay(&mut self, lay: Lay) -> Result<(), AllocError>
        ensures ok { OnOk result (self.new ≡ with_lay self.old lay) }
        ensures err { OnErr result (self.new ≡ self.old) }
    {
        self.lays.push(lay)?;
        self.index.add_lay(lay);
        Ok(())
    }

    /// Places a token. Fails only if allocation fails, which leaves the board unchanged.
    pub fn put_token(&mut self, place: Place, company: Company) -> Result<(), AllocError>
        ensures ok { OnOk result (self.new ≡ with_token self.old place company) }
        ensures err { OnErr result (self.new ≡ self.old) }
    {
        self.tokens.push((place, company))?;
        // For the proof only: there are no more tokens than the length of a list can be, so no
        // count of the index overflows.
        let _lie = self.tokens.len();
        self.index.add_token(place, company);
        Ok(())
    }
}

impl OnMap for Board {
    ghost laid = { λ board. board };

    fn tile_on(&self, hex: Hex) -> Option<Lay> {
        self.index.tile_on(hex)
    }

    #[inline(always)]
    fn links_on(&self, hex: Hex) -> Links {
        match self.tile_on(hex) {
            Some(_) => self.index.links_of_tile(hex),
            None => printed_links(hex),
        }
    }

    fn count_at(&self, stop: Stop) -> usize {
        self.index.count_at(stop)
    }

    fn holds(&self, stop: Stop, company: Company) -> bool {
        self.index.holds(stop, company)
    }

    fn phase(&self) -> Kind {
        self.phase
    }
}
