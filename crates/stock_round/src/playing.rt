//! A stock round as a round of turns, and the call that plays it.
ghost use Rattle.std.specs.Prelude.{◌≡◌, IfOk, length, refl};
ghost use Rattle.history.specs.Games.{IsGame};
ghost use Rattle.history.specs.Sound.{IsSound};
ghost use Rattle.sheets.specs.File.{players_of};
ghost use Rattle.stock_round.specs.StockRound.{IsStockRound};
ghost use Rattle.stock_round.specs.Turn.{stock_rules};

use crate::deals::ShareDeals;
use crate::{closing, standing, turn};
use history::History;
use order_grammar::Order;
use sheets::{Sheets, UnreadLine};
use std::alloc::{AllocError, Global};
use tables::{Round, Seat};
use turns::{TurnRules, play_round};

/// The rules of a stock round. `ShareDeals` says what a seat has done in a turn.
pub struct StockTurns;

impl TurnRules for StockTurns {
    type TurnActions = ShareDeals;

    ghost rules = { stock_rules };

    ghost may_begin = { λ events. Unit {0} };

    ghost holds = { IsGame };

    fn rule_standing_line(
        &self,
        history: &mut History,
        seat: Seat,
        line: UnreadLine,
        order: &mut Order,
    ) -> Result<(), AllocError> {
        standing::rule_standing_line(history, seat, line, order)
    }

    fn nothing(&self) -> ShareDeals {
        ShareDeals {
            bought: None,
            sold: false,
        }
    }

    fn rule_line(
        &self,
        history: &mut History,
        seat: Seat,
        line: UnreadLine,
        order: &mut Order,
        actions: ShareDeals,
    ) -> Result<ShareDeals, AllocError> {
        turn::rule_line(history, seat, line, order, actions)
    }

    fn has_acted(&self, actions: ShareDeals) -> bool {
        actions.has_acted()
    }

    fn is_over(&self, _history: &History) -> bool {
        false
    }

    fn close(&self, history: &mut History) -> Result<(), AllocError> {
        closing::close(history)
    }

    ghost stays_game = { λ game its. its };

    ghost begins = { λ game round may its. its };

    ghost passes = { λ game seat before sound. record { few = before.few; sound = sound } };

    ghost leaves = { λ game seat lines before sound. record { few = before.few; sound = sound } };

    ghost idle = { refl };
}

/// Plays a stock round with the sheets for it. The list of events must be sound, and its seats must
/// be those of the sheets' players; a seat without a sheet passes. Fails only if allocation fails,
/// and then drops the game. The game uses the allocator that it began with.
pub fn play_stock(
    _alloc: Global,
    history: History,
    sheets: &Sheets,
    round: Round,
) -> Result<History, AllocError>
    requires sound { IsSound history }
    requires seats { history.seats ≡ length (players_of sheets.now) }
    ensures round { IfOk result (λ new. IsStockRound sheets.now round history new) }
    ensures sound { IfOk result IsSound }
{
    let history = play_round(&StockTurns, history, sheets, round)?;
    Ok(history)
}
