//! RAISE: the president of a company sells shares to pay for the train that it must buy.
//!
//! The RAISE lines of its orders are used in order, once the turn ends: until then each line is
//! held. A line is refused, whatever its condition, if no purchase is due or the president does not
//! fall short. After that its condition and the rules of a sale are checked. No sale may move the
//! presidency of the company.
ghost use Rattle.std.specs.Prelude.{◌≡◌, ◌<◌, ◌++◌, ◌∷◌, [], OnOk};
ghost use Rattle.std.specs.Option.{option_copied};
ghost use Rattle.history.specs.Games.{IsGame};
ghost use Rattle.forced_purchase.specs.Raise.{after_raise_line, after_raises, needed_judgement, raise_judgement, raises_in};
ghost use Rattle.forced_purchase.specs.Raise.{raised_sale_judgement};
ghost use Rattle.sheets.specs.Part.{line_with};

use crate::operator::Operator;
use crate::shortfall::falls_short;
use certs::{Sale, may_sell, sell_block};
use history::{History, PackedLine, Refusal, StockRule};
use order_grammar::{Condition, Order, PlayOrder};
use sheets::ReadLine;
use std::alloc::AllocError;
use std::marker::Model;
use turns::record_packed;

/// A RAISE of a company's orders that is held until the end of the turn, in few bytes.
#[derive(Drop)]
pub struct HeldRaise {
    line: ReadLine,
    sale: Sale,
    /// The order with its condition, as its ruling will keep it.
    order: PackedLine,
}

/// In a contract it is its line.
impl Model for HeldRaise {
    ghost use Rattle.std.specs.Prelude.{◌≡◌};
    ghost use Rattle.order_grammar.specs.Condition.{ordered};
    ghost use Rattle.order_grammar.specs.declared.order.Order.TheVariants.{Play};
    ghost use Rattle.order_grammar.specs.declared.play.PlayOrder.TheVariants.{Raise};
    ghost use Rattle.sheets.specs.Part.{Numbered, line_with};

    ghost Value = { Numbered };

    ghost view = { λ held. line_with held.line (Play (Raise held.sale.company held.sale.shares)) };

    ghost invariant = { λ held. held.order
        ≡ ordered held.line.condition (Play (Raise held.sale.company held.sale.shares)) };
}

/// Holds the order of this line until the end of the turn if it is a RAISE: adds it to those held.
/// Fails only if allocation fails.
pub fn hold_if_raise(
    raises: &mut Vec<HeldRaise>,
    history: &History,
    line: ReadLine,
    order: &Order,
) -> Result<(), AllocError>
    ensures { OnOk result (raises.new.items
        ≡ raises.old.items ++ raises_in (line_with line order.now ∷ [])) }
{
    match order {
        Order::Play(PlayOrder::Raise { company, shares }) => {
            let (company, shares) = (*company, *shares);
            let packed = history.pack(line.condition.as_ref(), order)?;
            raises.push(HeldRaise {
                line,
                sale: Sale { company, shares },
                order: packed,
            })?;
            Ok(())
        }
        _ => Ok(()),
    }
}

/// Returns the first rule that a RAISE with this condition breaks, given whether a purchase is due.
/// A RAISE that is not needed is refused whatever its condition.
#[tactic(auto, unfolding(crate::specs::Raise::raise_judgement))]
pub fn judge_raise(
    history: &History,
    by: Operator,
    condition: Option<&Condition>,
    sale: Sale,
    due: bool,
) -> Option<Refusal>
    ensures { result
        ≡ raise_judgement due by history.now (option_copied condition.entry) sale }
{
    if due && falls_short(history, by) {
        judge_needed(history, by, condition, sale)
    } else {
        Some(Refusal::Stock(StockRule::NotOfStock))
    }
}

/// Returns the first rule that a RAISE with this condition breaks, if it is needed.
fn judge_needed(
    history: &History,
    by: Operator,
    condition: Option<&Condition>,
    sale: Sale,
) -> Option<Refusal>
    ensures { result
        ≡ needed_judgement by history.now (option_copied condition.entry) sale }
{
    if history.is_met(condition) {
        judge_raised_sale(history, by, sale).map(Refusal::Stock)
    } else {
        Some(Refusal::Condition)
    }
}

/// Returns the first rule that a sale to raise money for the company breaks.
#[tactic(auto, unfolding(crate::specs::Raise::raised_sale_judgement))]
pub fn judge_raised_sale(history: &History, by: Operator, sale: Sale) -> Option<StockRule>
    ensures { result ≡ raised_sale_judgement by history.now sale }
{
    match may_sell(history, by.president, sale, Some(by.company)) {
        Ok(()) => None,
        Err(rule) => Some(rule),
    }
}

/// Rules the RAISE lines of a company's orders that were held, given whether a purchase is due.
/// Fails only if allocation fails.
pub fn rule_raises(
    history: &mut History,
    by: Operator,
    raises: Vec<HeldRaise>,
    due: bool,
) -> Result<(), AllocError>
    requires game { IsGame history.old }
    requires at_table { by.president.0 < history.old.seats }
    ensures seats { OnOk result (history.new.seats ≡ history.old.seats) }
    ensures after { OnOk result (history.new
        ≡ after_raises due by history.old raises.items) }
    ensures game { OnOk result (IsGame history.new) }
{
    let mut left = raises.into_iter();
    while let Some(held) = left.next() {
        rule_raise(history, by, held, due)?;
    }
    Ok(())
}

/// Rules a RAISE that was held, and sells if it is obeyed.
fn rule_raise(
    history: &mut History,
    by: Operator,
    held: HeldRaise,
    due: bool,
) -> Result<(), AllocError>
    requires game { IsGame history.old }
    requires at_table { by.president.0 < history.old.seats }
    ensures seats { OnOk result (history.new.seats ≡ history.old.seats) }
    ensures after { OnOk result (history.new
        ≡ after_raise_line due by history.old held held.reading) }
    ensures game { OnOk result (IsGame history.new) }
{
    let HeldRaise { line, sale, order } = held;
    let broken = judge_raise(history, by, line.condition.as_ref(), sale, due);
    if record_packed(history, by.president, line.number, order, broken)? {
        sell_block(history, by.president, sale)?;
    }
    Ok(())
}
