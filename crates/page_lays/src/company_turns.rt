//! The companies of the next operating round in their order, each with what it may lay, place and
//! buy at the start of its orders.
ghost use Rattle.std.specs.Prelude.{◌≡◌, [], IfOk, None, OnOk, Some, length, map};
ghost use Rattle.std.specs.List.{list_any};
ghost use Rattle.desk_may.specs.OperatingLines.{private_rows_of};
ghost use Rattle.foresight.specs.Ahead.{opened_state, withheld_in};
ghost use Rattle.history.specs.Sound.{IsSound};
ghost use Rattle.market.specs.OperatingOrder.{next_company};
ghost use Rattle.page_lays.specs.MoveRows.{AreMovesIn, row_of};
ghost use Rattle.page_lays.specs.Turns.{AddsTurn, AddsTurnBy, AddsTurns, AreTurnsIn, IsTold};
ghost use Rattle.page_lays.specs.Turns.{is_wanted};
ghost use Rattle.sheets.specs.File.{players_of};
ghost use Rattle.tables.specs.Roster.{same_company};
ghost use Rattle.totals.specs.Shares.{president_of};

use crate::earned::{Earned, earned_in};
use crate::move_lines::{Line, lines_of};
use crate::move_rows::{MoveKind, rows_of};
use board_state::{same_company, same_hex};
use desk_base::{Position, trains_of};
use desk_may::{Progress, Trains, push_until_then};
use forced_purchase::Operator;
use foresight::{Draft, OrdersAhead, RoundAhead};
use map_tables::Hex;
use moves::{Row, private_rows, train_rows};
use std::alloc::{AllocError, Global};
use tables::{COMPANIES, Company, Money, Round, Seat};

/// A company in its turn.
#[derive(Drop)]
pub(crate) struct Turn {
    pub(crate) by: Operator,
    pub(crate) head: Head,
    /// What it may do on the map at the start of its orders.
    pub(crate) map: OnMap,
    /// What decides what its best runs bring there.
    pub(crate) earned: Earned,
    /// The trains that it may buy, and may not, once it has withheld.
    pub(crate) trains: Vec<Row>,
    /// Whether it must buy a train at the end of its turn, if it orders nothing.
    pub(crate) must_buy: bool,
}

/// A company at the start of its orders.
#[derive(Drop)]
pub(crate) struct Head {
    /// The number of events so far.
    pub(crate) at: usize,
    /// What happens since the previous company on the page, as text.
    pub(crate) before: Vec<u8>,
    /// The privates that it may buy, and may not.
    pub(crate) privates: Vec<Row>,
}

/// What a company may do on the map.
#[derive(Drop)]
pub(crate) struct OnMap {
    /// What its best runs earn now, in dollars; `None` if not requested.
    pub(crate) now: Option<Money>,
    /// What it may lay and place.
    pub(crate) lines: Vec<Line>,
}

/// What a page is to show.
#[derive(Clone, Copy)]
pub struct Wanted<'a> {
    /// The round after which the page shows the game; `None` for the last round.
    pub after: Option<Round>,
    /// The companies whose lays it shows; if empty, all that operate.
    pub companies: &'a [Company],
    /// Whether it shows what best runs would earn.
    pub best: bool,
}

impl Wanted<'_> {
    /// Returns whether it shows the turn of a company.
    fn has(self, company: Company) -> bool
        ensures { result ≡ is_wanted self.entry.companies.now company }
    {
        self.companies.is_empty() || is_among(self.companies, company)
    }
}

/// Returns whether a company is among some.
fn is_among(companies: &[Company], company: Company) -> bool
    ensures { result ≡ list_any (same_company company) companies.now }
{
    companies.iter().any(|other| same_company(company, *other))
}

/// Returns the turns of the companies to be shown, in operating order. Fails only if allocation
/// fails.
pub(crate) fn turns_of<P: Progress>(
    alloc: Global,
    coming: Position,
    round: Round,
    wanted: Wanted,
    progress: &mut P,
) -> Result<Vec<Turn>, AllocError>
    requires sound { IsSound coming.history }
    requires seats { coming.history.seats ≡ length (players_of coming.sheets.now) }
    ensures { let before = coming.entry in let companies = wanted.entry.companies.now in
        IfOk result (λ turns. AreTurnsIn (is_wanted companies)
        (opened_state before.sheets.now None round before.history) turns.items) }
{
    let Position {
        sheets,
        history,
        ..
    } = coming;
    let from = history.events().len();
    let draft = Draft {
        sheets,
        drafter: None,
    };
    let ahead = RoundAhead::open(alloc, history, draft, round)?;
    let mut list = Vec::new(alloc);
    push_turns(alloc, &mut list, ahead, (from, wanted), progress)?;
    Ok(list)
}

/// Adds the turns of a round.
fn push_turns<P: Progress>(
    alloc: Global,
    list: &mut Vec<Turn>,
    opened: RoundAhead,
    asked: (usize, Wanted),
    progress: &mut P,
) -> Result<(), AllocError>
    ensures { OnOk result (AddsTurns (is_wanted asked.entry.1.companies.now) opened.entry
        list.old.items list.new.items) }
{
    let mut ahead = opened;
    let mut turns = 0;
    while turns < COMPANIES {
        let Some(company) = ahead.next_company() else {
            return Ok(());
        };
        ahead = push_turn(alloc, list, ahead, company, asked, progress)?;
        turns += 1;
    }
    Ok(())
}

/// Adds the turn of the next company, if it is to be shown and has a president. Returns the round
/// after that turn.
fn push_turn<'a, P: Progress>(
    alloc: Global,
    list: &mut Vec<Turn>,
    ahead: RoundAhead<'a>,
    company: Company,
    asked: (usize, Wanted),
    progress: &mut P,
) -> Result<RoundAhead<'a>, AllocError>
    requires { next_company ahead.game.events ≡ Some company }
    ensures { let companies = asked.entry.1.companies.now in IfOk result (λ new.
        AddsTurn (is_wanted companies) company ahead.entry new list.old.items list.new.items) }
{
    let (begun, wanted) = asked;
    if !wanted.has(company) {
        return ahead.take_turn(company);
    }
    match president_in(&ahead, company) {
        Some(president) => {
            let by = Operator { company, president };
            push_turn_by(alloc, list, ahead, by, (begun, wanted.best), progress)
        }
        None => ahead.take_turn(company),
    }
}

/// Returns the president of a company in a round.
fn president_in(ahead: &RoundAhead, company: Company) -> Option<Seat>
    ensures { result ≡ president_of ahead.now.game.events company }
{
    ahead.history().now().president(company)
}

/// Adds the turn of the next company, by its president. Returns the round after that turn.
fn push_turn_by<'a, P: Progress>(
    alloc: Global,
    list: &mut Vec<Turn>,
    ahead: RoundAhead<'a>,
    by: Operator,
    asked: (usize, bool),
    progress: &mut P,
) -> Result<RoundAhead<'a>, AllocError>
    requires next { next_company ahead.game.events ≡ Some by.company }
    requires led { president_of ahead.game.events by.company ≡ Some by.president }
    ensures { IfOk result (λ new.
        AddsTurnBy by ahead.entry new list.old.items list.new.items) }
{
    let (begun, is_best) = asked;
    let from = list.as_slice().last().map_or(begun, |turn| turn.head.at);
    let orders = ahead.turn_of(by)?;
    let (turn, orders) = turn_at(alloc, orders, from, is_best, progress)?;
    list.push(turn)?;
    orders.finish()
}

/// Returns the turn of a company at the start of its orders, and the state once the company has
/// withheld.
fn turn_at<'a, P: Progress>(
    alloc: Global,
    orders: OrdersAhead<'a>,
    from: usize,
    is_best: bool,
    progress: &mut P,
) -> Result<(Turn, OrdersAhead<'a>), AllocError>
    ensures told { IfOk result (λ found. IsTold orders.entry found.0) }
    ensures withheld { IfOk result (λ found. found.1 ≡ withheld_in orders.entry) }
{
    let by = orders.by();
    let head = head_of(alloc, &orders, from)?;
    let map = on_map(alloc, &orders, is_best, progress)?;
    let earned = earned_in(&orders);
    let orders = orders.withheld()?;
    let trains = train_rows(alloc, orders.history(), by.company)?;
    let (orders, must_buy) = orders.must_buy()?;
    let turn = Turn {
        by,
        head,
        map,
        earned,
        trains,
        must_buy,
    };
    Ok((turn, orders))
}

/// Returns what happens before the orders of a company, and the privates that it may buy.
fn head_of(alloc: Global, orders: &OrdersAhead, from: usize) -> Result<Head, AllocError>
    ensures { IfOk result (λ head. head.privates.items
        ≡ private_rows_of orders.now.turn.game orders.now.by.company) }
{
    let (history, company) = (orders.history(), orders.by().company);
    let privates = private_rows(alloc, history, company)?;
    let mut before = Vec::new(alloc);
    push_until_then(
        alloc,
        &mut before,
        orders.sheets(),
        history,
        from,
        Some(company),
    )?;
    Ok(Head {
        at: history.events().len(),
        before,
        privates,
    })
}

/// Returns what a company may do on the map at the start of its orders.
fn on_map<P: Progress>(
    alloc: Global,
    orders: &OrdersAhead,
    is_best: bool,
    progress: &mut P,
) -> Result<OnMap, AllocError>
    ensures { IfOk result (λ on. AreMovesIn orders.now.turn orders.now.by.company
        (map row_of on.lines.items)) }
{
    let rows = rows_of(alloc, orders)?;
    if !is_best {
        let lines = lines_of(alloc, rows.as_slice(), None, progress)?;
        return Ok(OnMap { now: None, lines });
    }
    let (history, company) = (orders.history(), orders.by().company);
    let kinds = trains_of(alloc, &history.now(), company)?;
    let trains = Trains {
        alloc,
        history,
        company,
        kinds: kinds.as_slice(),
    };
    let now = Some(trains.best_now()?);
    let lines = lines_of(alloc, rows.as_slice(), Some(trains), progress)?;
    Ok(OnMap { now, lines })
}

impl OnMap {
    /// Returns the most by which a lay or a token of a kind on a hex raises what the best runs
    /// earn, in dollars; 0 if none raises it, and `None` if there is none.
    pub(crate) fn gain_on(&self, hex: Hex, kind: MoveKind) -> Option<Money> {
        let mut most = None;
        for line in &self.lines {
            if same_hex(line.row.what.hex(), hex) && line.row.what.is_of(kind) {
                let gain = self.gain_of(line);
                most = match most {
                    Some(other) if other > gain => Some(other),
                    _ => Some(gain),
                };
            }
        }
        most
    }

    /// Returns by how much a lay or a token raises what the best runs earn, in dollars; 0 if it
    /// doesn't, or if that was not requested.
    pub(crate) fn gain_of(&self, line: &Line) -> Money {
        match (self.now, line.best) {
            (Some(now), Some(best)) if best > now => best.saturating_sub(now),
            _ => 0,
        }
    }
}
