//! The orders of a turn: which rule one breaks, and what follows if it breaks none.
ghost use Rattle.std.specs.Prelude.{◌≡◌, ◌<◌, IfOk, OnOk};
ghost use Rattle.history.specs.Games.{IsGame};
ghost use Rattle.stock_round.specs.Deals.{with_deal};
ghost use Rattle.stock_round.specs.Orders.{MayAct, after_stock_order, stock_judgement};

use crate::deals::ShareDeals;
use crate::{buy, exchange, par, sell};
use history::{History, StockRule};
use order_grammar::{Order, PlayOrder};
use std::alloc::AllocError;
use tables::{Company, Seat};

/// Returns the first rule that an order of a seat breaks in its turn, given the company whose share
/// it has bought in this turn, if any; `None` if it breaks none.
pub(crate) fn judge(
    history: &History,
    seat: Seat,
    order: &Order,
    bought: Option<Company>,
) -> Option<StockRule>
    ensures { result ≡ stock_judgement history.now seat bought order.now }
{
    match order {
        Order::Play(PlayOrder::Par { company, price }) => par::judge(
            history, seat, *company, *price, bought,
        ),
        Order::Play(PlayOrder::BuyShare { company, from }) => buy::judge(
            history, seat, *company, *from, bought,
        ),
        Order::Play(PlayOrder::Sell { company, shares }) => sell::judge(
            history, seat, *company, *shares,
        ),
        Order::Play(PlayOrder::ExchangeMohawk) => exchange::judge(history, seat),
        _ => Some(StockRule::NotOfStock),
    }
}

/// Carries out an order of a seat that breaks no rule. Returns what the seat has done in the turn
/// so far; an exchange counts neither as a purchase nor as a sale.
pub(crate) fn act(
    history: &mut History,
    seat: Seat,
    order: &Order,
    deals: ShareDeals,
) -> Result<ShareDeals, AllocError>
    requires game { IsGame history.old }
    requires at_table { seat.0 < history.old.seats }
    requires may { MayAct history.old seat order.now }
    ensures after { OnOk result (history.new ≡ after_stock_order history.old seat order.now) }
    ensures deals { IfOk result (λ now. now ≡ with_deal deals order.now) }
    ensures game { OnOk result (IsGame history.new) }
{
    match order {
        Order::Play(PlayOrder::Par { company, price }) => {
            par::act(history, seat, *company, *price)?;
            Ok(deals.with_purchase(*company))
        }
        Order::Play(PlayOrder::BuyShare { company, from }) => {
            buy::act(history, seat, *company, *from)?;
            Ok(deals.with_purchase(*company))
        }
        Order::Play(PlayOrder::Sell { company, shares }) => {
            sell::act(history, seat, *company, *shares)?;
            Ok(deals.with_sale())
        }
        Order::Play(PlayOrder::ExchangeMohawk) => {
            exchange::act(history, seat)?;
            Ok(deals)
        }
        _ => Ok(deals),
    }
}
