//! What a player's companies may buy in a coming operating round, each at the start of its orders,
//! or after those that the player has drafted.
use crate::may_line::{push_given, push_not_given};
use crate::must_buy::push_end_of_turn;
use crate::offerers::presidents;
use crate::told_rows::{ToldRows, privates_told, trains_told};
use crate::until_then::{SAID, push_until_then};
use desk_base::Piece::{Column, Count, Number, Words};
use desk_base::fill;
use forced_purchase::Operator;
use foresight::{OrdersAhead, RoundAhead};
use history::{History, Party};
use sheets::Sheets;
use std::alloc::{AllocError, Global};
use tables::{COMPANIES, Company, Kind, Seat, limit};

/// Adds what each company of a player may buy in an operating round that has been opened, and what
/// it might be expected to buy but may not: companies that operate, in their order, and then those
/// without a turn. If the player's own sheet is looked at, each is taken after its orders there.
/// `from` is the place in the list of the event that begins the round. Fails only if allocation
/// fails.
pub fn push_of_operating(
    alloc: Global,
    out: &mut Vec<u8>,
    ahead: RoundAhead,
    from: usize,
    seat: Seat,
) -> Result<(), AllocError> {
    let presidents = presidents(alloc, ahead.history())?;
    let mut ahead = ahead;
    for _ in 0..COMPANIES {
        let Some(company) = ahead.next_company() else {
            break;
        };
        ahead = if ahead.is_led_by(company, seat) {
            let president = seat;
            let orders = ahead.turn_of(Operator { company, president })?;
            push_turn(alloc, out, orders, presidents.as_slice(), from)?
        } else {
            ahead.take_turn(company)?
        };
    }
    push_without_a_turn(out, ahead.history(), from, seat)
}

/// Adds those companies of a player that have no turn in a round, and why.
fn push_without_a_turn(
    out: &mut Vec<u8>,
    history: &History,
    from: usize,
    seat: Seat,
) -> Result<(), AllocError> {
    for company in &Company::ALL {
        let is_theirs = history.now().president(*company) == Some(seat);
        if is_theirs && !has_operated(history, from, *company) {
            let why = if history.floated(*company) {
                "no turn: the game ends before"
            } else {
                "not floated"
            };
            let code = Words(company.code());
            fill(out, "\nCOMPANY %%%\n", &[code, Column(SAID), Words(why)])?;
        }
    }
    Ok(())
}

/// Returns whether a company has had its turn since the event at a place in the list.
fn has_operated(history: &History, from: usize, company: Company) -> bool {
    let events = history.events().get(from..).unwrap_or(&[]);
    events.iter().any(|event| event.operated() == Some(company))
}

/// Adds what a company may buy at the start of its orders, or after those drafted, and the train
/// that it must buy if its turn ends there. Returns the round after its turn.
fn push_turn<'a>(
    alloc: Global,
    out: &mut Vec<u8>,
    orders: OrdersAhead<'a>,
    presidents: &[Option<Seat>],
    from: usize,
) -> Result<RoundAhead<'a>, AllocError> {
    let (sheets, company) = (orders.sheets(), orders.by().company);
    push_heading(out, orders.history(), company)?;
    push_until_then(alloc, out, sheets, orders.history(), from, Some(company))?;
    let privates = privates_told(alloc, &orders)?;
    // A company withholds before it buys a train.
    let orders = orders.withheld()?;
    let trains = trains_told(alloc, &orders, presidents)?;
    push_told(alloc, out, sheets, &trains)?;
    push_told(alloc, out, sheets, &privates)?;
    push_end_of_turn(alloc, out, orders)
}

/// Adds what some rows say may be bought, and then what may not.
fn push_told(
    alloc: Global,
    out: &mut Vec<u8>,
    sheets: &Sheets,
    list: &ToldRows,
) -> Result<(), AllocError> {
    push_given(out, sheets, list, false)?;
    push_not_given(alloc, out, list, false)
}

/// Adds the code of a company, its cash, its trains, and how many it may have.
fn push_heading(out: &mut Vec<u8>, history: &History, company: Company) -> Result<(), AllocError> {
    let cash = Number(history.cash(Party::of_company(company)));
    let code = Words(company.code());
    fill(
        out,
        "\nCOMPANY %%cash %, trains",
        &[code, Column(SAID), cash],
    )?;
    let mut none = " none";
    for kind in &Kind::ALL {
        for _ in 0..history.trains(Some(company), *kind) {
            fill(out, " %", &[Words(kind.code())])?;
            none = "";
        }
    }
    let most = Count(limit(history.phase()));
    fill(out, "% (may have %)\n", &[Words(none), most])
}
