//! What the trains of each company ran in the last operating round that was played.
ghost use Rattle.std.specs.Prelude.{◌≡◌, ◌≤◌, ◌++◌, [], ◌∷◌, IfOk, IfSome, OnOk, length, map};
ghost use Rattle.std.specs.Prelude.{option_copied};
ghost use Rattle.page_routes.specs.LastRuns.{AddsAt, AddsBy, AddsEach, AddsIf, AddsOrdered, AddsRan, AddsRuled};
ghost use Rattle.page_routes.specs.LastRuns.{last_operating};
ghost use Rattle.page_routes.specs.LastRuns.{operating_then, ran, ran_by, ran_in_last, ruled_then, those_in};
ghost use Rattle.page_routes.specs.LastRuns.{within_last, within_then};
ghost use Rattle.page_routes.specs.ShownRuns.{AddsBest, all_shown, claimed_by, place_of};

use crate::lanes::{Border, turned_borders};
use board::Board;
use desk_base::{best_at, board_at, side_towards};
use history::{Event, GameView, History, Ruling, Walk};
use legal_runs::ClaimedRun;
use map_tables::{Hex, Place, Run, Side};
use markup::Point;
use order_grammar::{Order, PlayOrder};
use picture::{Look, centre};
use reach::Network;
use std::alloc::{AllocError, Global};
use tables::{Amount, Company, Kind, Round, same_round};

/// A place of a run.
#[derive(Clone, Copy)]
pub struct Visit {
    pub place: Place,
    /// What its stop was worth when the train ran, in dollars; `None` for a hex without a stop.
    pub value: Option<Amount>,
    /// The side by which the run leaves the hex; `None` at its end.
    pub leaves: Option<Side>,
}

/// A run of a company's train.
#[derive(Drop)]
pub struct Route {
    pub company: Company,
    pub kind: Kind,
    /// Whether it is from a RUN BEST.
    pub is_best: bool,
    pub visits: Vec<Visit>,
    /// What its stops are worth together, in dollars.
    pub sum: Amount,
}

/// The runs of the last operating round.
#[derive(Drop)]
pub struct Routes {
    /// The round; `None` if none was played.
    pub round: Option<Round>,
    /// The runs, company by company in operating order, and train by train as they ran.
    pub routes: Vec<Route>,
    /// The turned borders, whose lanes are numbered from the other end.
    pub turned: Vec<Border>,
}

/// Returns the runs of the last operating round. Fails only if allocation fails.
pub fn last_routes(alloc: Global, history: &History) -> Result<Routes, AllocError>
    ensures round { IfOk result (λ found. found.round ≡ last_operating history.now.events) }
    ensures runs { IfOk result (λ found. AddsEach history.now.events
        (ran_in_last history.now.events) [] found.routes.items) }
{
    let round = last_operating(history.events());
    let routes = routes_in(alloc, history, round)?;
    let turned = turned_borders(alloc, routes.as_slice())?;
    Ok(Routes {
        round,
        routes,
        turned,
    })
}

/// Returns the operating round that began last; `None` if none did.
fn last_operating(events: &[Event]) -> Option<Round>
    ensures { result ≡ last_operating events.now }
{
    let mut last = None;
    for event in events {
        last = operating_then(last, event);
    }
    last
}

/// Returns the operating round that began last, after one more event.
fn operating_then(last: Option<Round>, event: &Event) -> Option<Round>
    ensures { result ≡ operating_then last event.now }
{
    match event {
        Event::Round(Round::Operating { set, number }) => Some(Round::Operating {
            set: *set,
            number: *number,
        }),
        _ => last,
    }
}

/// A line by which a company ran in a round.
#[derive(Clone, Copy)]
struct RunLine {
    /// How many events precede what it earned.
    passed: usize,
    /// How many events precede the ruling of the line.
    ruled: usize,
    company: Company,
}

/// Returns the runs of a round, if there is one. Fails only if allocation fails.
fn routes_in(
    alloc: Global,
    history: &History,
    round: Option<Round>,
) -> Result<Vec<Route>, AllocError>
    ensures { IfOk result (λ routes. AddsEach history.now.events
        (those_in round history.now.events) [] routes.items) }
{
    let mut walk = Walk::along(history.events());
    routes_along(alloc, history.events(), &mut walk, history.seats(), round)
}

/// Returns the runs of a round, if there is one, by these events. The walk is along them.
fn routes_along(
    alloc: Global,
    events: &[Event],
    walk: &mut Walk,
    seats: usize,
    round: Option<Round>,
) -> Result<Vec<Route>, AllocError>
    requires { walk.old.events.now ≡ events.now }
    ensures { IfOk result (λ routes.
        AddsEach events.now (those_in round events.now) [] routes.items) }
{
    let mut routes = Vec::new(alloc);
    let mut within = false;
    let mut ruled = None;
    for (passed, event) in events.iter().enumerate() {
        let line = ran_by(within, ruled, passed, event);
        add_if_ran(alloc, &mut routes, walk, seats, line)?;
        within = within_then(within, event, round);
        ruled = ruled_then(ruled, passed, event);
    }
    Ok(routes)
}

/// Returns whether a round is the current one after one more event; never if there is none.
fn within_then(within: bool, event: &Event, round: Option<Round>) -> bool
    ensures { result ≡ within_then round within event.now }
{
    match event.round() {
        Some(begun) => is_last(round, begun),
        None => within,
    }
}

/// Returns whether a round that has begun is this one, if there is one.
fn is_last(round: Option<Round>, begun: Round) -> bool
    ensures { result ≡ within_last round begun }
{
    match round {
        Some(round) => same_round(begun, round),
        None => false,
    }
}

/// Returns how many events precede the last ruling of a line, with one more event.
fn ruled_then(ruled: Option<usize>, passed: usize, event: &Event) -> Option<usize>
    ensures { result ≡ ruled_then ruled passed event.now }
{
    match event {
        Event::Ruled { .. } => Some(passed),
        _ => ruled,
    }
}

/// Returns the line by which a company ran by an event that this many precede, if the round is the
/// current one and a line has been ruled.
fn ran_by(within: bool, ruled: Option<usize>, passed: usize, event: &Event) -> Option<RunLine>
    ensures line { result ≡ ran_by within ruled passed event.now }
    ensures here { IfSome result (λ ran. ran.passed ≡ passed) }
{
    match event {
        Event::Runs { company, .. } => ran(within, ruled, passed, *company),
        _ => None,
    }
}

/// Returns the line by which a company ran, if the round is the current one and a line has been
/// ruled.
fn ran(within: bool, ruled: Option<usize>, passed: usize, company: Company) -> Option<RunLine>
    ensures line { result ≡ ran within ruled passed company }
    ensures here { IfSome result (λ ran. ran.passed ≡ passed) }
{
    match ruled {
        Some(ruled) if within => Some(RunLine {
            passed,
            ruled,
            company,
        }),
        _ => None,
    }
}

/// Adds the runs of a company by a line, if there is one.
fn add_if_ran(
    alloc: Global,
    routes: &mut Vec<Route>,
    walk: &mut Walk,
    seats: usize,
    line: Option<RunLine>,
) -> Result<(), AllocError>
    requires { IfSome line (λ one. one.passed ≤ length walk.old.events.now) }
    ensures events { OnOk result (walk.new.events.now ≡ walk.old.events.now) }
    ensures added { OnOk result (AddsIf walk.old.events.now line
        routes.old.items routes.new.items) }
{
    match line {
        Some(line) => add_ran(alloc, routes, walk, seats, line),
        None => Ok(()),
    }
}

/// Adds the runs of a company by a line, by the map as it was then.
fn add_ran(
    alloc: Global,
    routes: &mut Vec<Route>,
    walk: &mut Walk,
    seats: usize,
    line: RunLine,
) -> Result<(), AllocError>
    requires { line.passed ≤ length walk.old.events.now }
    ensures events { OnOk result (walk.new.events.now ≡ walk.old.events.now) }
    ensures added { OnOk result (AddsRan walk.old.events.now line
        routes.old.items routes.new.items) }
{
    let events = walk.events;
    walk.go(line.passed);
    let view = walk.view(seats);
    let event = events.get(line.ruled);
    add_at(alloc, routes, &view, line.company, event)?;
    Ok(())
}

/// Adds the runs of a company by the line that an event rules; none if there is no event.
fn add_at(
    alloc: Global,
    routes: &mut Vec<Route>,
    view: &GameView,
    company: Company,
    event: Option<&Event>,
) -> Result<(), AllocError>
    ensures { OnOk result (AddsAt view.now.events company (option_copied event.entry)
        routes.old.items routes.new.items) }
{
    match event {
        Some(event) => add_by(alloc, routes, view, company, event),
        None => Ok(()),
    }
}

/// Adds the runs of a company by the line that an event rules; none if it rules none.
fn add_by(
    alloc: Global,
    routes: &mut Vec<Route>,
    view: &GameView,
    company: Company,
    event: &Event,
) -> Result<(), AllocError>
    ensures { OnOk result (AddsBy view.now.events company event.now
        routes.old.items routes.new.items) }
{
    match event {
        Event::Ruled { ruling, .. } => add_ruled(alloc, routes, view, company, &ruling.ruling()),
        _ => Ok(()),
    }
}

/// Adds the runs of a company by the order that a ruling obeys; none if it obeys none.
fn add_ruled(
    alloc: Global,
    routes: &mut Vec<Route>,
    view: &GameView,
    company: Company,
    ruling: &Ruling,
) -> Result<(), AllocError>
    ensures { OnOk result (AddsRuled view.now.events company ruling.now
        routes.old.items routes.new.items) }
{
    match ruling {
        Ruling::Obeyed { order, .. } => add_ordered(alloc, routes, view, company, order),
        _ => Ok(()),
    }
}

/// Adds the runs of a company by an order: one for RUN, and for RUN BEST those that earn the most.
fn add_ordered(
    alloc: Global,
    routes: &mut Vec<Route>,
    view: &GameView,
    company: Company,
    order: &Order,
) -> Result<(), AllocError>
    ensures { OnOk result (AddsOrdered view.now.events company order.now
        routes.old.items routes.new.items) }
{
    match order {
        Order::Run { kind, run } => {
            let board = board_at(alloc, view)?;
            add_route(alloc, routes, &board, company, *kind, run, false)
        }
        Order::Play(PlayOrder::RunBest) => add_best(alloc, routes, view, company),
        _ => Ok(()),
    }
}

/// Adds runs by which a company's trains earn the most.
fn add_best(
    alloc: Global,
    routes: &mut Vec<Route>,
    view: &GameView,
    company: Company,
) -> Result<(), AllocError>
    ensures { OnOk result
        (AddsBest view.now.events company routes.old.items routes.new.items) }
{
    let claim = best_at(alloc, view, company)?;
    let board = board_at(alloc, view)?;
    add_claimed(alloc, routes, &board, company, claim.runs.as_slice())
}

/// Adds the runs of a claim of a company.
fn add_claimed(
    alloc: Global,
    routes: &mut Vec<Route>,
    board: &Board,
    company: Company,
    runs: &[ClaimedRun],
) -> Result<(), AllocError>
    ensures { OnOk result (all_shown routes.new.items
        ≡ all_shown routes.old.items ++ map (claimed_by company) runs.now) }
{
    for claimed in runs {
        add_route(
            alloc,
            routes,
            board,
            company,
            claimed.kind,
            &claimed.run,
            true,
        )?;
    }
    Ok(())
}

/// Adds a run.
fn add_route(
    alloc: Global,
    routes: &mut Vec<Route>,
    board: &Board,
    company: Company,
    kind: Kind,
    run: &Run,
    is_best: bool,
) -> Result<(), AllocError>
    ensures { OnOk result (all_shown routes.new.items
        ≡ all_shown routes.old.items ++ (company, kind, is_best, run.now) ∷ []) }
{
    let visits = visits_of(alloc, board, run.as_slice())?;
    let sum = sum_of(visits.as_slice());
    routes.push(Route {
        company,
        kind,
        is_best,
        visits,
        sum,
    })?;
    Ok(())
}

/// Returns the places of a run, each with what it is worth on a board and how the run leaves it.
fn visits_of(alloc: Global, board: &Board, places: &[Place]) -> Result<Vec<Visit>, AllocError>
    ensures { IfOk result (λ visits. map place_of visits.items ≡ places.now) }
{
    let mut visits = Vec::new(alloc);
    let mut following: usize = 1;
    for place in places {
        let value = match place.stop() {
            Some(stop) => Some(board.value(stop)),
            None => None,
        };
        let leaves = match places.get(following) {
            Some(next) => side_towards(place.hex, next.hex),
            None => None,
        };
        following = following.saturating_add(1);
        visits.push(Visit {
            place: *place,
            value,
            leaves,
        })?;
    }
    Ok(visits)
}

/// Returns what the stops of a run are worth together.
fn sum_of(visits: &[Visit]) -> Amount {
    let mut sum: Amount = 0;
    for visit in visits {
        sum = sum.saturating_add(visit.value.unwrap_or(0));
    }
    sum
}

/// Returns the place of a stop on the map.
pub(crate) fn stop_point(history: &History, place: Place) -> Option<Point> {
    let stop = place.stop?;
    let look = Look::on(history.lays(), place.hex);
    Some(centre(place.hex).plus(look.place(stop)))
}
