//! The rules that a run or a dividend breaks, asked by the places of the run.
ghost use Rattle.std.specs.Prelude.{◌≡◌, ◌++◌, ◌≤◌, IfOk, OnOk, is_none};
ghost use Rattle.std.specs.List.{flat_map, list_any};
ghost use Rattle.board_state.specs.MapState.{position_of};
ghost use Rattle.desk_map_rules.specs.RunAsked.{best_broken, has_none_of, inner_places, pay_broken, run_broken};
ghost use Rattle.desk_map_rules.specs.RunAsked.{stops_named, trainless};
ghost use Rattle.events.specs.declared.ruling.Refusal.TheVariants as refusal;
ghost use Rattle.legal_runs.specs.Fault.{has_stop, has_stop_twice, has_token_at_stop, is_full, is_wrong_number};
ghost use Rattle.legal_runs.specs.Legal.{listed};
ghost use Rattle.legal_runs.specs.Named.{walk_named};
ghost use Rattle.map_tables.specs.Place.{stop_of_place};
ghost use Rattle.reach.specs.Position.{is_red};

use crate::row::{Row, rules_of};
use crate::run_track::{borders_named, has_border_twice, has_no_track};
use board::Board;
use history::{GameView, PayRule, Refusal, RunRule};
use legal_runs::{has_token_at_stop, is_full};
use map_tables::{Place, Run, Stop};
use purchases::has_trains;
use reach::{Network, stop_order};
use std::alloc::{AllocError, Global};
use tables::{Company, Kind};

/// Returns the rules that a run of a company's train of a kind breaks: that it has such a train,
/// that there is track along its places, and those that the places show. The board is that of the
/// game. Fails only if allocation fails.
pub(crate) fn run_broken(
    alloc: Global,
    board: &Board,
    view: &GameView,
    company: Company,
    kind: Kind,
    run: &Run,
) -> Result<Vec<Refusal>, AllocError>
    ensures { let broken = run_broken view.now.events board.now company kind in
        IfOk result (λ rules. rules.items ≡ broken run.now) }
{
    let has_no_track = has_no_track(board, company, kind, run);
    run_rows(
        alloc,
        board,
        view,
        company,
        kind,
        run.as_slice(),
        has_no_track,
    )
}

/// Returns the rules that a run breaks by its places, given whether there is no track along them.
fn run_rows(
    alloc: Global,
    board: &Board,
    view: &GameView,
    company: Company,
    kind: Kind,
    places: &[Place],
    has_no_track: bool,
) -> Result<Vec<Refusal>, AllocError>
    requires track { has_no_track ≡ is_none (walk_named (position_of board.now) places.now) }
    ensures { let broken = run_broken view.now.events board.now company kind in
        IfOk result (λ rules. rules.items ≡ broken places.now) }
{
    let borders = borders_named(alloc, places)?;
    let is_border_twice = has_border_twice(borders.as_slice());
    let stops = stops_named(alloc, places)?;
    let inner = stops_named(alloc, inner_places(places))?;
    let has_ends = stops.len() == inner.len() + 2;
    let (stops, inner) = (stops.as_slice(), inner.as_slice());
    let is_wrong_number = is_wrong_number(kind, stops.len());
    let is_tokenless = !has_own_token(board, company, stops);
    let rows = [
        of_run(RunRule::NoTrain, has_none_of(view, company, kind)),
        of_run(RunRule::NoTrack, has_no_track),
        of_run(RunRule::WrongNumber, has_ends && is_wrong_number),
        of_run(RunRule::StopTwice, has_ends && has_stop_twice(stops)),
        of_run(RunRule::BorderTwice, is_border_twice),
        of_run(
            RunRule::PassesFull,
            has_ends && passes_full(board, company, inner),
        ),
        of_run(RunRule::NoToken, has_ends && is_tokenless),
        of_run(RunRule::RedInside, has_ends && passes_red(board, inner)),
    ];
    rules_of(alloc, &rows)
}

/// Returns a row of a rule of runs.
fn of_run(rule: RunRule, is_broken: bool) -> Row
    ensures { result ≡ record { rule = refusal.Run rule; is_broken = is_broken } }
{
    Row {
        rule: Refusal::Run(rule),
        is_broken,
    }
}

/// Returns the rule that a RUN BEST of a company without trains breaks. Fails only if allocation
/// fails.
pub fn best_broken(
    alloc: Global,
    view: &GameView,
    company: Company,
) -> Result<Vec<Refusal>, AllocError>
    ensures { IfOk result (λ rules. rules.items ≡ best_broken view.now.events company) }
{
    trainless(alloc, Refusal::Run(RunRule::NoTrain), view, company)
}

/// Returns the rule that a PAY of a company without trains breaks. Fails only if allocation fails.
pub fn pay_broken(
    alloc: Global,
    view: &GameView,
    company: Company,
) -> Result<Vec<Refusal>, AllocError>
    ensures { IfOk result (λ rules. rules.items ≡ pay_broken view.now.events company) }
{
    trainless(alloc, Refusal::Pay(PayRule::NothingToPay), view, company)
}

/// Returns a rule if a company has no trains.
fn trainless(
    alloc: Global,
    rule: Refusal,
    view: &GameView,
    company: Company,
) -> Result<Vec<Refusal>, AllocError>
    ensures { IfOk result (λ rules. rules.items ≡ trainless rule view.now.events company) }
{
    let is_broken = !has_trains(view, company);
    rules_of(alloc, &[Row { rule, is_broken }])
}

/// Returns whether a company has no train of a kind.
pub fn has_none_of(view: &GameView, company: Company, kind: Kind) -> bool
    ensures { result ≡ has_none_of view.now.events company kind }
{
    view.trains(Some(company), kind) <= 0
}

/// Returns the stops that some places name, in their order. Fails only if allocation fails.
pub fn stops_named(alloc: Global, places: &[Place]) -> Result<Vec<Stop>, AllocError>
    ensures { IfOk result (λ stops. stops.items ≡ stops_named places.now) }
{
    let mut stops = Vec::new(alloc);
    for place in places {
        push_stop(&mut stops, *place)?;
    }
    Ok(stops)
}

/// Adds the stop that a place names, if it names one.
fn push_stop(stops: &mut Vec<Stop>, place: Place) -> Result<(), AllocError>
    ensures { OnOk result (stops.new.items ≡ stops.old.items ++ listed (stop_of_place place)) }
{
    if let Some(stop) = place.stop() {
        stops.push(stop)?;
    }
    Ok(())
}

/// Returns the places of a run between its ends.
pub fn inner_places(places: &[Place]) -> &[Place]
    ensures { result.now ≡ inner_places places.now }
{
    match places {
        [] => &[],
        [_, rest @ ..] => match rest {
            [] => &[],
            [inner @ .., _] => inner,
        },
    }
}

/// Returns whether a train of a kind may not visit this many stops.
pub fn is_wrong_number(kind: Kind, stops: usize) -> bool
    ensures { result ≡ is_wrong_number kind stops }
{
    stops < 2 || kind.stops().is_some_and(|most| most < stops)
}

/// Returns whether some stop is twice among these.
pub fn has_stop_twice(stops: &[Stop]) -> bool
    ensures { result ≡ has_stop_twice stops.now }
{
    match stops {
        [] => false,
        [stop, rest @ ..] => has_stop_twice(rest) || has_stop(*stop, rest),
    }
}

/// Returns whether a stop is among others.
fn has_stop(stop: Stop, stops: &[Stop]) -> bool
    ensures { result ≡ has_stop stop stops.now }
{
    stops
        .iter()
        .any(|other| stop_order(*other) == stop_order(stop))
}

/// Returns whether one of some stops is full for a company.
fn passes_full(board: &Board, company: Company, stops: &[Stop]) -> bool
    ensures { result ≡ list_any (is_full (position_of board.now) company) stops.now }
{
    stops.iter().any(|stop| is_full(board, company, *stop))
}

/// Returns whether a company has a token at one of some stops.
fn has_own_token(board: &Board, company: Company, stops: &[Stop]) -> bool
    ensures { result ≡ list_any (has_token_at_stop (position_of board.now) company) stops.now }
{
    stops
        .iter()
        .any(|stop| has_token_at_stop(board, company, *stop))
}

/// Returns whether one of some stops is red.
pub fn passes_red(board: &Board, stops: &[Stop]) -> bool
    ensures { result ≡ list_any (is_red (position_of board.now)) stops.now }
{
    stops.iter().any(|stop| board.red(*stop))
}
