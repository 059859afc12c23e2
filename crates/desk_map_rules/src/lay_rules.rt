//! The rules that a lay breaks.
ghost use Rattle.std.specs.Prelude.{◌≡◌, IfOk};
ghost use Rattle.desk_map_rules.specs.LayAsked.{LayBroken, is_unreached_lay, lay_asker, lay_broken_by};
ghost use Rattle.events.specs.declared.ruling.Refusal.TheVariants as refusal;

use crate::asker::asker_at;
use crate::map_tests::{
    is_blocked, is_colour_closed, is_none_left, is_wrong_colour, lay_cost, loses_track,
};
use crate::row::{Row, rules_of};
use board::{Asker, Board, LayFault};
use board_state::{OnMap, has_bad_side, is_open, is_wrong_kind};
use history::{GameView, LayRule, Refusal};
use map_tables::{Lay, hex_kind, tile};
use std::alloc::{AllocError, Global};
use tables::{Company, Money};

/// Returns the rules that the lay of a company breaks, apart from that of its step. The board is
/// that of the game. Fails only if allocation fails.
pub(crate) fn lay_broken(
    alloc: Global,
    board: &Board,
    view: &GameView,
    company: Company,
    lay: Lay,
) -> Result<Vec<Refusal>, AllocError>
    ensures { let asker = lay_asker view.now company in
        IfOk result (λ rules. LayBroken board.now asker lay rules.items) }
{
    lay_broken_for(alloc, board, &asker_at(view, company), lay)
}

/// Returns the rules that a lay breaks for a company that asks.
#[tactic(auto, using(crate::proofs::Answered::lay_answered, crate::proofs::Answered::lay_refused))]
fn lay_broken_for(
    alloc: Global,
    board: &Board,
    asker: &Asker,
    lay: Lay,
) -> Result<Vec<Refusal>, AllocError>
    ensures { IfOk result (λ rules. LayBroken board.now asker.now lay rules.items) }
{
    match board.try_lay(asker, lay) {
        Ok(_) => lay_rows(alloc, board, asker, lay, false),
        Err(LayFault::Rule(rule)) => lay_rows(alloc, board, asker, lay, is_unreached_lay(rule)),
        Err(LayFault::Memory(error)) => Err(error),
    }
}

/// Returns whether a rule says that no track of the tile is reached.
fn is_unreached_lay(rule: LayRule) -> bool
    ensures { result ≡ is_unreached_lay rule }
{
    matches!(rule, LayRule::NotReached)
}

/// Returns the rules that a lay breaks, given whether the umpire finds that no track of the tile is
/// reached.
fn lay_rows(
    alloc: Global,
    board: &Board,
    asker: &Asker,
    lay: Lay,
    unreached: bool,
) -> Result<Vec<Refusal>, AllocError>
    ensures { IfOk result (λ rules.
        rules.items ≡ lay_broken_by board.now asker.now lay unreached) }
{
    let is_open = is_open(hex_kind(lay.hex));
    let is_wrong_kind = is_wrong_kind(lay);
    let is_closed = is_colour_closed(board.phase(), tile(lay.tile).colour);
    let cost = Money::from(lay_cost(board, lay.hex));
    let rows = [
        of_lay(LayRule::GreyOrRed, !is_open),
        of_lay(LayRule::NoneLeft, is_none_left(board, lay.tile)),
        of_lay(LayRule::ColourClosed, is_closed),
        of_lay(
            LayRule::WrongTile,
            is_open && (is_wrong_colour(board, lay) || is_wrong_kind),
        ),
        of_lay(
            LayRule::TrackLost,
            is_open && !is_wrong_kind && loses_track(board, lay),
        ),
        of_lay(LayRule::BadSide, is_open && has_bad_side(lay)),
        of_lay(LayRule::Blocked, is_blocked(asker, lay.hex)),
        of_lay(LayRule::NotReached, unreached),
        of_lay(LayRule::CashTooSmall, asker.cash < cost),
    ];
    rules_of(alloc, &rows)
}

/// Returns a row of a rule of lays.
fn of_lay(rule: LayRule, is_broken: bool) -> Row
    ensures { result ≡ record { rule = refusal.Lay rule; is_broken = is_broken } }
{
    Row {
        rule: Refusal::Lay(rule),
        is_broken,
    }
}
