//! A company's turn in a coming operating round, at the start of its orders or after those drafted.
//! From there the company can withhold, turn out to need a train, or finish its turn.
ghost use Rattle.std.specs.Prelude.{◌≡◌, ◌↔◌, IfOk, IsTrue};
ghost use Rattle.board_state.specs.MapState.{position_of};
ghost use Rattle.foresight.specs.Ahead.{HasEnded, withheld_in};
ghost use Rattle.history.specs.Sound.{IsSound};
ghost use Rattle.legal_runs.specs.TwoTrain.{CanRun};
ghost use Rattle.operating.specs.BoardAsker.{asker_of};
ghost use Rattle.operating.specs.MapState.{map_state_now};
ghost use Rattle.operating.specs.TurnEnd.{IsDue};

use crate::draft::Draft;
use crate::round_ahead::RoundAhead;
use board::Asker;
use forced_purchase::{HeldRaise, Operator};
use history::History;
use operating::CompanyTurn;
use sheets::Sheets;
use std::alloc::{AllocError, Global};
use std::marker::Model;
use tables::Round;

/// A company's turn in a coming operating round, at the start of its orders, or after those that
/// are looked at.
#[derive(Drop)]
pub struct OrdersAhead<'a> {
    pub(crate) alloc: Global,
    pub(crate) draft: Draft<'a>,
    pub(crate) round: Round,
    pub(crate) turn: CompanyTurn,
    /// The RAISE lines of the orders so far, which are ruled at the end of the turn.
    pub(crate) raises: Vec<HeldRaise>,
}

/// In a contract it is whose sheet is looked at, the round, the company with its president, its
/// turn so far, and the RAISE lines so far.
impl<'a> Model for OrdersAhead<'a> {
    ghost use Rattle.std.specs.Prelude.{◌≡◌, ◌<◌, length};
    ghost use Rattle.foresight.specs.Ahead.{OrdersState};
    ghost use Rattle.operating.specs.CompanyTurn.{IsInOrder, state};
    ghost use Rattle.sheets.specs.File.{players_of};

    ghost Value = { OrdersState };

    ghost view = { λ orders. record {
      file = orders.draft.sheets.now;
      drafter = orders.draft.drafter;
      round = orders.round;
      by = orders.turn.by;
      turn = state orders.turn;
      raises = orders.raises.items;
    } };

    ghost invariant = { λ orders. IsInOrder orders.turn
        × (orders.turn.history.seats ≡ length (players_of orders.draft.sheets.now))
        × (orders.turn.by.president.0 < orders.turn.history.seats) };
}

impl<'a> OrdersAhead<'a> {
    /// Returns the sheets of the order file.
    pub fn sheets(&self) -> &'a Sheets<'a>
        ensures { result.now ≡ self.now.file }
    {
        self.draft.sheets
    }

    /// Returns the company with its president.
    pub fn by(&self) -> Operator
        ensures { result ≡ self.now.by }
    {
        self.turn.by
    }

    /// Returns the game so far.
    pub fn history(&self) -> &History
        ensures game { result.now ≡ self.now.turn.game }
        ensures sound { IsSound self.now.turn.game }
    {
        &self.turn.history
    }

    /// Returns the company as the rules of the board see it, with its turn so far.
    pub fn asker(&self) -> Asker
        ensures { result
            ≡ asker_of self.now.turn.game self.now.by.company self.now.turn.progress }
    {
        self.turn.asker()
    }

    /// Returns the turn once the company has withheld what it earned, unless it has paid or
    /// withheld already, as it does before it buys a train. Fails only if allocation fails.
    pub fn withheld(self) -> Result<OrdersAhead<'a>, AllocError>
        ensures { IfOk result (λ orders. orders ≡ withheld_in self.entry) }
    {
        let OrdersAhead {
            alloc,
            draft,
            round,
            mut turn,
            raises,
        } = self;
        turn.withhold_if_unpaid()?;
        Ok(OrdersAhead {
            alloc,
            draft,
            round,
            turn,
            raises,
        })
    }

    /// Returns the turn, and whether the company must buy a train if the turn ends here: the
    /// company has none, and could run one. Fails only if allocation fails.
    pub fn must_buy(self) -> Result<(OrdersAhead<'a>, bool), AllocError>
        ensures due { IfOk result (λ found. IsTrue found.1
            ↔ IsDue self.entry.turn.game self.entry.by.company) }
        ensures same { IfOk result (λ found. found.0 ≡ self.entry) }
    {
        let OrdersAhead {
            alloc,
            draft,
            round,
            mut turn,
            raises,
        } = self;
        let due = turn.must_buy()?;
        let orders = OrdersAhead {
            alloc,
            draft,
            round,
            turn,
            raises,
        };
        Ok((orders, due))
    }

    /// Returns the turn, and whether the company could run a train of kind 2, if it had one. Fails
    /// only if allocation fails.
    pub fn could_run(self) -> Result<(OrdersAhead<'a>, bool), AllocError>
        ensures could { IfOk result (λ found. IsTrue found.1
            ↔ CanRun (position_of (map_state_now self.entry.turn.game.events))
            self.entry.by.company) }
        ensures same { IfOk result (λ found. found.0 ≡ self.entry) }
    {
        let OrdersAhead {
            alloc,
            draft,
            round,
            mut turn,
            raises,
        } = self;
        let could = turn.could_run()?;
        let orders = OrdersAhead {
            alloc,
            draft,
            round,
            turn,
            raises,
        };
        Ok((orders, could))
    }

    /// Ends the turn: the company withholds if it has neither paid nor withheld, and buys a train
    /// if it must. Fails only if allocation fails.
    pub fn finish(self) -> Result<RoundAhead<'a>, AllocError>
        ensures { IfOk result (HasEnded self.entry) }
    {
        // For the proof only: the seats are at most six.
        let _few = self.draft.sheets.seats();
        let OrdersAhead {
            alloc,
            draft,
            round,
            turn,
            raises,
        } = self;
        let game = turn.finish(raises)?;
        Ok(RoundAhead {
            alloc,
            draft,
            round,
            game,
        })
    }
}
