//! An opening round: a round of turns with its own rules.
ghost use Rattle.std.specs.Prelude.{◌≡◌, IfOk, false, length, refl};
ghost use Rattle.history.specs.Sound.{IsSound};
ghost use Rattle.privates.specs.Keeping.{begins as begins_underway, leaves as leaves_underway};
ghost use Rattle.privates.specs.Keeping.{pass_keeps_underway};
ghost use Rattle.privates.specs.Opening.{IsOpeningRound};
ghost use Rattle.privates.specs.Turn.{opening_rules};
ghost use Rattle.privates.specs.Underway.{BaltimoreWaits, IsUnderway, MayBegin, PennsylvaniaWaits};
ghost use Rattle.sheets.specs.File.{players_of};

use crate::{closing, standing, turn};
use history::History;
use order_grammar::Order;
use sheets::{Sheets, UnreadLine};
use std::alloc::{AllocError, Global};
use tables::{Round, Seat};
use turns::{TurnRules, play_round};

/// The rules of an opening round. In a turn a seat has bought or bid, or it has not.
pub struct OpeningTurns;

impl TurnRules for OpeningTurns {
    type TurnActions = bool;

    ghost rules = { opening_rules };

    ghost may_begin = { MayBegin };

    ghost holds = { IsUnderway };

    fn rule_standing_line(
        &self,
        history: &mut History,
        seat: Seat,
        line: UnreadLine,
        order: &mut Order,
    ) -> Result<(), AllocError> {
        standing::rule_standing_line(history, seat, line, order)
    }

    fn nothing(&self) -> bool {
        false
    }

    fn rule_line(
        &self,
        history: &mut History,
        seat: Seat,
        line: UnreadLine,
        order: &mut Order,
        actions: bool,
    ) -> Result<bool, AllocError> {
        turn::rule_line(history, seat, line, order, actions)
    }

    fn has_acted(&self, actions: bool) -> bool {
        actions
    }

    fn is_over(&self, history: &History) -> bool {
        history.now().cheapest_unsold().is_none()
    }

    fn close(&self, history: &mut History) -> Result<(), AllocError> {
        closing::close(history)
    }

    ghost stays_game = { λ game underway. underway.game };

    ghost begins = { begins_underway };

    ghost passes = { pass_keeps_underway };

    ghost leaves = { leaves_underway };

    ghost idle = { refl };
}

/// Plays an opening round with the sheets for it. PRR must have no square while CA is unsold, nor
/// BO while BOP is, since these come with a share and a presidency. Fails only if allocation fails,
/// and then drops the game. The game uses the allocator that it began with.
pub fn play_opening(
    _alloc: Global,
    history: History,
    sheets: &Sheets,
    round: Round,
) -> Result<History, AllocError>
    requires sound { IsSound history }
    requires seats { history.seats ≡ length (players_of sheets.now) }
    requires pennsylvania { PennsylvaniaWaits history.events }
    requires baltimore { BaltimoreWaits history.events }
    ensures round { IfOk result (λ new. IsOpeningRound sheets.now round history new) }
    ensures sound { IfOk result IsSound }
    ensures pennsylvania { IfOk result (λ new. PennsylvaniaWaits new.events) }
    ensures baltimore { IfOk result (λ new. BaltimoreWaits new.events) }
{
    let history = play_round(&OpeningTurns, history, sheets, round)?;
    Ok(history)
}
