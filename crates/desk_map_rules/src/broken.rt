//! All rules of its kind that an order of the map breaks.
ghost use Rattle.std.specs.Prelude.{◌≡◌, IfOk};
ghost use Rattle.desk_map_rules.specs.MapAsked.{MapBroken};
ghost use Rattle.operating.specs.MapState.{map_state_now};
ghost use Rattle.order_grammar.specs.declared.order.Order.TheVariants as form;

use crate::lay_rules::lay_broken;
use crate::run_rules::run_broken;
use crate::token_rules::token_broken;
use board::Board;
use history::{GameView, Refusal};
use order_grammar::{Order, PlayOrder};
use std::alloc::{AllocError, Global};
use tables::Company;

/// Returns all rules of its kind that an order of the map breaks, in the order in which the umpire
/// asks them: a lay, a token or a run, among the orders for a company. The board is that of the
/// game before it. Other orders break none. Fails only if allocation fails.
pub fn broken_on_map(
    alloc: Global,
    board: &Board,
    view: &GameView,
    company: Company,
    order: &Order,
) -> Result<Vec<Refusal>, AllocError>
    requires same { board.now ≡ map_state_now view.now.events }
    ensures { IfOk result (λ rules. MapBroken view.now company order.now rules.items) }
{
    match order {
        Order::Play(order) => play_broken_on_map(alloc, board, view, company, *order),
        Order::Run { kind, run } => run_broken(alloc, board, view, company, *kind, run),
        _ => Ok(Vec::new(alloc)),
    }
}

/// Returns the rules that an order of play breaks, if it is a lay or a token.
fn play_broken_on_map(
    alloc: Global,
    board: &Board,
    view: &GameView,
    company: Company,
    order: PlayOrder,
) -> Result<Vec<Refusal>, AllocError>
    requires same { board.now ≡ map_state_now view.now.events }
    ensures { IfOk result (λ rules. MapBroken view.now company (form.Play order) rules.items) }
{
    match order {
        PlayOrder::Lay(lay) => lay_broken(alloc, board, view, company, lay),
        PlayOrder::Token(place) => token_broken(alloc, board, view, company, place),
        _ => Ok(Vec::new(alloc)),
    }
}
