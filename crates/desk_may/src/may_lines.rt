//! What a player may do as the lines of a sheet, in the order of a sheet: standing lines, then
//! TURN, or COMPANY for each of the player's companies in operating order, and below each head the
//! orders. Each order is judged by itself, as the first line there.
ghost use Rattle.std.specs.Prelude.{◌≡◌, ◌++◌, [], if◌then◌else◌, IfOk, OnOk, Some, length};
ghost use Rattle.desk_may.specs.OperatingLines.{AddsOperatingLines, AddsOrders, AddsTurn, AddsTurns};
ghost use Rattle.desk_may.specs.OperatingLines.{company_head, private_rows_of, raise_lines, train_lines};
ghost use Rattle.desk_may.specs.SheetLines.{standing_lines, turn_lines, turn_rows};
ghost use Rattle.foresight.specs.Ahead.{withheld_in};
ghost use Rattle.history.specs.Sound.{IsSound};
ghost use Rattle.market.specs.OperatingOrder.{next_company};
ghost use Rattle.sheets.specs.File.{players_of};

use crate::offerers::presidents;
use crate::raise_rows::raise_rows;
use crate::row_lines::{push_offered_rows, push_rows};
use forced_purchase::Operator;
use foresight::{Draft, OrdersAhead, RoundAhead, TurnAhead};
use history::History;
use moves::{Row, opening_rows, private_rows, standing_rows, stock_rows, train_rows};
use sheets::Sheets;
use std::alloc::{AllocError, Global};
use tables::{COMPANIES, Company, Round, Seat};

/// Adds the standing lines of a player for a coming round, in a game before it. Fails only if
/// allocation fails.
pub fn push_standing_lines(
    alloc: Global,
    out: &mut Vec<u8>,
    sheets: &Sheets,
    history: &History,
    round: Round,
    seat: Seat,
) -> Result<(), AllocError>
    ensures { OnOk result (out.new.items
        ≡ out.old.items ++ standing_lines sheets.now history.now round seat) }
{
    let standing = standing_rows(alloc, history, seat, round)?;
    push_rows(out, sheets, standing.as_slice())
}

/// Adds the lines of a player's first turn of an opening or a stock round, at its head or after
/// those drafted. Fails only if allocation fails.
pub fn push_lines_of_turn(
    alloc: Global,
    out: &mut Vec<u8>,
    sheets: &Sheets,
    turn: &TurnAhead,
    round: Round,
    seat: Seat,
) -> Result<(), AllocError>
    ensures { OnOk result (out.new.items
        ≡ out.old.items ++ turn_lines sheets.now turn.now round seat) }
{
    out.extend_from_slice(b"TURN\n")?;
    let rows = turn_rows(alloc, turn, round, seat)?;
    push_rows(out, sheets, rows.as_slice())?;
    Ok(())
}

/// Returns the rows of a player's turn.
fn turn_rows(
    alloc: Global,
    turn: &TurnAhead,
    round: Round,
    seat: Seat,
) -> Result<Vec<Row>, AllocError>
    ensures { IfOk result (λ rows. rows.items ≡ turn_rows turn.now round seat) }
{
    match round {
        Round::Opening(_) => opening_rows(alloc, &turn.history, seat, turn.used),
        Round::Stock(_) | Round::Operating { .. } => {
            stock_rows(alloc, &turn.history, seat, turn.bought)
        }
    }
}

/// Adds the lines of a coming operating round: the standing lines, and the orders of each of the
/// player's companies. Fails only if allocation fails.
pub fn push_lines_of_operating(
    alloc: Global,
    out: &mut Vec<u8>,
    history: History,
    draft: Draft,
    round: Round,
    seat: Seat,
) -> Result<(), AllocError>
    requires sound { IsSound history }
    requires seats { history.seats ≡ length (players_of draft.sheets.now) }
    ensures { OnOk result (AddsOperatingLines draft.entry.sheets.now draft.entry.drafter round
        seat history out.old.items out.new.items) }
{
    let standing = standing_rows(alloc, &history, seat, round)?;
    push_rows(out, draft.sheets, standing.as_slice())?;
    let presidents = presidents(alloc, &history)?;
    let ahead = RoundAhead::open(alloc, history, draft, round)?;
    push_turns(alloc, out, ahead, presidents.as_slice(), seat)
}

/// Adds the orders of each company that a seat presides over when its turn comes, by those who
/// preside as the round begins.
fn push_turns(
    alloc: Global,
    out: &mut Vec<u8>,
    opened: RoundAhead,
    presidents: &[Option<Seat>],
    seat: Seat,
) -> Result<(), AllocError>
    ensures { OnOk result
        (AddsTurns presidents.now seat opened.entry out.old.items out.new.items) }
{
    let mut ahead = opened;
    let mut turns = 0;
    while turns < COMPANIES {
        let Some(company) = ahead.next_company() else {
            return Ok(());
        };
        ahead = push_turn(alloc, out, ahead, company, presidents, seat)?;
        turns += 1;
    }
    Ok(())
}

/// Adds the orders of the company that comes next, if a seat presides over it. Returns the round
/// after its turn.
fn push_turn<'a>(
    alloc: Global,
    out: &mut Vec<u8>,
    ahead: RoundAhead<'a>,
    company: Company,
    presidents: &[Option<Seat>],
    seat: Seat,
) -> Result<RoundAhead<'a>, AllocError>
    requires { next_company ahead.game.events ≡ Some company }
    ensures { IfOk result (λ new.
        AddsTurn presidents.now seat company ahead.entry new out.old.items out.new.items) }
{
    if !ahead.is_led_by(company, seat) {
        return ahead.take_turn(company);
    }
    let president = seat;
    let orders = ahead.turn_of(Operator { company, president })?;
    push_orders(alloc, out, orders, presidents)?.finish()
}

/// Adds the orders of a company at the start of its orders, or after those drafted. Returns its
/// turn after it has withheld.
fn push_orders<'a>(
    alloc: Global,
    out: &mut Vec<u8>,
    orders: OrdersAhead<'a>,
    presidents: &[Option<Seat>],
) -> Result<OrdersAhead<'a>, AllocError>
    ensures lines { OnOk result
        (AddsOrders presidents.now orders.entry out.old.items out.new.items) }
    ensures withheld { IfOk result (λ new. new ≡ withheld_in orders.entry) }
{
    push_head(out, orders.by().company)?;
    let privates = privates_of(alloc, &orders)?;
    // A company withholds before it buys a train.
    let orders = orders.withheld()?;
    push_trains(alloc, out, &orders, presidents)?;
    push_rows(out, orders.sheets(), privates.as_slice())?;
    let (orders, due) = orders.must_buy()?;
    push_raises_if(alloc, out, &orders, due)?;
    Ok(orders)
}

/// Adds the head of a company's orders.
fn push_head(out: &mut Vec<u8>, company: Company) -> Result<(), AllocError>
    ensures { OnOk result (out.new.items ≡ out.old.items ++ company_head company) }
{
    out.extend_from_slice(b"COMPANY ")?;
    out.extend_from_slice(company.code().as_bytes())?;
    out.push(b'\n')?;
    Ok(())
}

/// Returns the rows of the privates that a company may or may not buy.
fn privates_of(alloc: Global, orders: &OrdersAhead) -> Result<Vec<Row>, AllocError>
    ensures { IfOk result (λ rows.
        rows.items ≡ private_rows_of orders.now.turn.game orders.now.by.company) }
{
    private_rows(alloc, orders.history(), orders.by().company)
}

/// Adds the lines of the trains that a company may or may not buy.
fn push_trains(
    alloc: Global,
    out: &mut Vec<u8>,
    orders: &OrdersAhead,
    presidents: &[Option<Seat>],
) -> Result<(), AllocError>
    ensures { OnOk result (out.new.items ≡ out.old.items
        ++ train_lines presidents.now orders.now) }
{
    let trains = train_rows(alloc, orders.history(), orders.by().company)?;
    push_offered_rows(out, orders.sheets(), trains.as_slice(), presidents)
}

/// Adds the RAISE lines of a company, if it must buy a train.
fn push_raises_if(
    alloc: Global,
    out: &mut Vec<u8>,
    orders: &OrdersAhead,
    due: bool,
) -> Result<(), AllocError>
    ensures { OnOk result (out.new.items ≡ out.old.items
        ++ (if due then raise_lines orders.now else [])) }
{
    if due {
        let raises = raise_rows(alloc, orders.history(), orders.by())?;
        push_rows(out, orders.sheets(), raises.as_slice())?;
    }
    Ok(())
}
