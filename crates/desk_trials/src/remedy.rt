//! The RAISE lines that bring a president more than single sales, if shares are sold for a train
//! that a company must buy.
ghost use Rattle.std.specs.Prelude.{◌≡◌, length};
ghost use Rattle.history.specs.Sound.{IsSound};
ghost use Rattle.sheets.specs.File.{players_of};

use crate::forced::{Forced, ForcedFact};
use certs::{Sale, market_price};
use desk_base::{DeskFault, Moment, Position, position_at};
use forced_purchase::{Operator, judge_raised_sale, lack};
use foresight::{Ahead, Draft, RoundAhead};
use history::History;
use market::down;
use rounds::Game;
use sheets::{SheetKey, Sheets};
use std::alloc::{AllocError, Global};
use tables::{Amount, Company, Money, price};

/// The numbers of shares that a RAISE may name and single sales are fewer than: a company has ten.
const NUMBERS: [u8; 9] = [2, 3, 4, 5, 6, 7, 8, 9, 10];

/// Returns what happens as companies must buy trains, and behind what is sold for each train the
/// RAISE lines that would bring more, but for companies of which a RAISE is obeyed already. Fails
/// only if allocation fails.
pub(crate) fn with_remedies(
    alloc: Global,
    game: &Game,
    sent: SheetKey,
    forced: &[Forced],
) -> Result<Vec<Forced>, AllocError> {
    let mut told = Vec::new(alloc);
    for (place, one) in forced.iter().enumerate() {
        told.push(*one)?;
        let next = forced.get(place.saturating_add(1));
        let is_last = next.map_or(true, |other| other.company != one.company);
        let is_sold = forced.iter().any(|other| {
            other.company == one.company && matches!(other.fact, ForcedFact::Sells { .. })
        });
        if is_last && is_sold {
            push_remedies(alloc, &mut told, game, sent, one.company, forced)?;
        }
    }
    Ok(told)
}

/// Adds the RAISE lines that would bring more for the train of a company, if there are any.
fn push_remedies(
    alloc: Global,
    told: &mut Vec<Forced>,
    game: &Game,
    sent: SheetKey,
    buyer: Company,
    forced: &[Forced],
) -> Result<(), AllocError> {
    match position_at(alloc, game.sheets(), Moment::Before(sent.round)) {
        Ok(before) => push_in_round(alloc, told, before, sent, buyer, forced),
        // An allocation failed: passed on.
        Err(DeskFault::Memory) => Err(AllocError),
        Err(_) => Ok(()),
    }
}

/// Adds the same, given the game before the round.
fn push_in_round(
    alloc: Global,
    told: &mut Vec<Forced>,
    before: Position,
    sent: SheetKey,
    buyer: Company,
    forced: &[Forced],
) -> Result<(), AllocError>
    requires sound { IsSound before.history }
    requires seats { before.history.seats ≡ length (players_of before.sheets.now) }
{
    let Position {
        sheets,
        history,
        ..
    } = before;
    let draft = Draft {
        sheets,
        drafter: Some(sent.seat),
    };
    let ahead = RoundAhead::open(alloc, history, draft, sent.round)?;
    let Ahead::AtOrders(orders) = ahead.orders_of(buyer)? else {
        return Ok(());
    };
    let (orders, due) = orders.withheld()?.must_buy()?;
    if !due {
        return Ok(());
    }
    for company in &Company::ALL {
        let is_raised = forced.iter().any(|other| {
            matches!(other.fact, ForcedFact::Sells { company: its, shares, .. }
                if its == *company && shares > 1)
        });
        if !is_raised && let Some(fact) = raise_of(orders.history(), orders.by(), *company) {
            told.push(Forced {
                company: orders.by().company,
                fact,
            })?;
        }
    }
    Ok(())
}

/// Returns the RAISE of shares of a company that brings what the president lacks, or if none does
/// the one that brings the most; `None` if single sales of as many shares bring as much.
fn raise_of(history: &History, by: Operator, company: Company) -> Option<ForcedFact> {
    let view = history.now();
    let each = Money::from(market_price(&view, company));
    let needed = lack(history, by.company).saturating_sub(view.free_cash(by.president));
    let shares = block_for(history, by, company, each, needed)?;
    let brings = each.saturating_mul(Money::from(shares));
    let singly = singly_for(history, company, shares);
    if singly >= brings {
        return None;
    }
    Some(ForcedFact::Raises {
        company,
        shares,
        brings,
        singly,
    })
}

/// Returns how many shares of a company a RAISE may name that brings what is needed, the fewest, or
/// if none does the most; `None` if it may not name two or more.
fn block_for(
    history: &History,
    by: Operator,
    company: Company,
    each: Money,
    needed: Money,
) -> Option<u8> {
    let mut block = None;
    for shares in &NUMBERS {
        let sale = Sale {
            company,
            shares: Amount::from(*shares),
        };
        if judge_raised_sale(history, by, sale).is_none() {
            block = Some(*shares);
            if each.saturating_mul(Money::from(*shares)) >= needed {
                return block;
            }
        }
    }
    block
}

/// Returns what single sales of so many shares of a company bring: each at a price one square
/// lower than the one before.
fn singly_for(history: &History, company: Company, shares: u8) -> Money {
    let Some(first) = history.now().square(company) else {
        return 0;
    };
    let (mut at, mut sum) = (first, 0);
    for _ in 0..shares {
        sum = Money::saturating_add(sum, Money::from(price(at)));
        at = down(at);
    }
    sum
}
