//! The lines of a written turn of a stock round: which orders are allowed in it, by which rules
//! they are judged, and what they do.
ghost use Rattle.std.specs.Prelude.{◌≡◌, ◌≤◌, ◌<◌, OnOk, IfOk};
ghost use Rattle.history.specs.Games.{IsGame};
ghost use Rattle.sheets.specs.Part.{line_unread};
ghost use Rattle.stock_round.specs.Orders.{stock_refusal};
ghost use Rattle.stock_round.specs.Turn.{after_stock_line};
ghost use Rattle.turns.specs.RoundOfTurns.{in_turn};
ghost use Rattle.turns.specs.Ruling.{has_place_in_turn};

use crate::deals::ShareDeals;
use crate::orders;
use history::{History, Refusal};
use order_grammar::Order;
use sheets::{UnreadLine, is_of_file};
use std::alloc::AllocError;
use tables::{Company, Seat};
use turns::Family;

/// The lines of a written turn, with the company whose share the seat has bought in this turn, if
/// any.
#[derive(Clone, Copy, Debug)]
struct TurnLines {
    bought: Option<Company>,
}

impl Family for TurnLines {
    ghost place = { has_place_in_turn };

    ghost judgement = { λ lines game seat. stock_refusal game seat lines.bought };

    ghost may_judge = { λ game seat. (game.seats ≤ 6) × (seat.0 < game.seats) };

    fn has_place(&self, order: &Order) -> bool {
        !is_of_file(order)
    }

    fn judge(&self, history: &History, seat: Seat, order: &Order) -> Option<Refusal> {
        orders::judge(history, seat, order, self.bought).map(Refusal::Stock)
    }
}

/// Rules a line of a written turn, and carries it out if it is obeyed. Overwrites `order`. Returns
/// what the seat has done so far.
pub(crate) fn rule_line(
    history: &mut History,
    seat: Seat,
    line: UnreadLine,
    order: &mut Order,
    deals: ShareDeals,
) -> Result<ShareDeals, AllocError>
    requires game { IsGame history.old }
    requires at_table { seat.0 < history.old.seats }
    ensures seats { OnOk result (history.new.seats ≡ history.old.seats) }
    ensures turn { IfOk result (λ now. in_turn history.new.events now
        ≡ after_stock_line history.old.seats seat (in_turn history.old.events deals)
        (line_unread line.entry)) }
    ensures game { OnOk result (IsGame history.new) }
{
    let lines = TurnLines {
        bought: deals.bought,
    };
    if !turns::rule_line(&lines, history, seat, line, order)? {
        return Ok(deals);
    }
    orders::act(history, seat, order, deals)
}
