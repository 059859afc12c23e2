//! The best runs of a company, with the trains that it has or with others.
ghost use Rattle.std.specs.Prelude.{◌≡◌, ◌++◌, IfOk, OnOk, count_by};
ghost use Rattle.std.specs.List.{list_any};
ghost use Rattle.board_state.specs.MapState.{position_of};
ghost use Rattle.desk_moves.specs.BestRuns.{AreBestRuns, AreBestRunsWith, AreMeant, best_head};
ghost use Rattle.desk_moves.specs.BestTrains.{AreAllowed, has_rusted, is_too_many};
ghost use Rattle.legal_runs.specs.Claim.{ClaimHolds};
ghost use Rattle.legal_runs.specs.Set.{IsGreatest};
ghost use Rattle.operating.specs.RunBest.{trains_now};
ghost use Rattle.tables.specs.Train.{kinds, same_kind};

use crate::fault::{MovesFault, NoAnswer};
use best_run::best;
use board::Board;
use desk_base::{push_run, trains_of};
use desk_may::board_now;
use history::History;
use legal_runs::Claim;
use order_grammar::print_number;
use std::alloc::{AllocError, Global};
use tables::{Amount, Company, Kind, limit, rusts, same_kind, train};

/// Returns the best runs of a company as its turn begins, as the desk writes runs: with these
/// trains, or if there are none with those that it has. The error says what is wrong with the
/// trains, or is `Memory`.
pub(crate) fn best_text(
    alloc: Global,
    history: &History,
    company: Company,
    trains: &[Kind],
) -> Result<Vec<u8>, MovesFault>
    ensures { IfOk result (λ text. AreBestRuns history.now company trains.now text.items) }
{
    let trains = meant_trains(alloc, history, company, trains)?;
    text_with(alloc, history, company, trains.as_slice())
}

/// Returns the trains to use: these, or if there are none those that the company has. Fails if the
/// company may not have these, or has none.
fn meant_trains(
    alloc: Global,
    history: &History,
    company: Company,
    trains: &[Kind],
) -> Result<Vec<Kind>, MovesFault>
    ensures { IfOk result (λ meant. AreMeant history.now company trains.now meant.items) }
{
    match trains {
        [] => own_trains(alloc, history, company),
        named => {
            must_be_allowed(history.phase(), named)?;
            Ok(named.to_vec(alloc)?)
        }
    }
}

/// Returns the trains of a company. Fails with `NoTrains` if it has none.
fn own_trains(alloc: Global, history: &History, company: Company) -> Result<Vec<Kind>, MovesFault>
    ensures { IfOk result (λ trains. trains.items ≡ trains_now history.now.events company) }
{
    let trains = trains_of(alloc, &history.now(), company)?;
    if trains.is_empty() {
        return Err(MovesFault::Asked(NoAnswer::NoTrains));
    }
    Ok(trains)
}

/// Returns the best runs of a company with these trains.
fn text_with(
    alloc: Global,
    history: &History,
    company: Company,
    trains: &[Kind],
) -> Result<Vec<u8>, MovesFault>
    ensures { IfOk result (λ text. AreBestRunsWith history.now company trains.now text.items) }
{
    let board = board_now(alloc, history)?;
    let claim = best_claim(alloc, &board, company, trains)?;
    let mut text = Vec::new(alloc);
    push_head(&mut text, company, claim.revenue)?;
    text.extend_from_slice(runs_text(alloc, &board, &claim)?.as_slice())?;
    Ok(text)
}

/// Returns the greatest revenue of a company's trains on a board, with runs that earn it. Fails
/// only if allocation fails.
fn best_claim(
    alloc: Global,
    board: &Board,
    company: Company,
    trains: &[Kind],
) -> Result<Claim, AllocError>
    ensures holds { IfOk result (ClaimHolds (position_of board.now) company trains.now) }
    ensures greatest { IfOk result (λ claim.
        IsGreatest (position_of board.now) company trains.now claim.revenue) }
{
    let found = best(alloc, board, company, trains)?;
    Ok(found.claim)
}

/// Adds what a company would earn.
fn push_head(out: &mut Vec<u8>, company: Company, revenue: Amount) -> Result<(), AllocError>
    ensures { OnOk result (out.new.items ≡ out.old.items ++ best_head company revenue) }
{
    out.extend_from_slice(b"RUNS ")?;
    out.extend_from_slice(company.code().as_bytes())?;
    out.push(b' ')?;
    print_number(out, revenue)?;
    out.extend_from_slice(b" BEST\n")
}

/// Returns the lines of the runs that earn it.
fn runs_text(alloc: Global, board: &Board, claim: &Claim) -> Result<Vec<u8>, AllocError> {
    let mut text = Vec::new(alloc);
    for claimed in claim.runs.as_slice() {
        push_run(&mut text, board, claimed.kind, &claimed.run)?;
    }
    Ok(text)
}

/// Fails unless a company may have these trains in a phase: none has rusted, there are enough of
/// each kind, and the limit allows as many. Some of them may only be sold in a later phase.
fn must_be_allowed(phase: Kind, trains: &[Kind]) -> Result<(), MovesFault>
    ensures { OnOk result (AreAllowed phase trains.now) }
{
    if has_rusted_among(phase, trains) {
        return Err(MovesFault::Asked(NoAnswer::Rusted));
    }
    if has_too_many(trains) {
        return Err(MovesFault::Asked(NoAnswer::TooManyOfKind));
    }
    if trains.len() > limit(phase) {
        return Err(MovesFault::Asked(NoAnswer::OverLimit));
    }
    Ok(())
}

/// Returns whether any of some trains has rusted by a phase.
fn has_rusted_among(phase: Kind, trains: &[Kind]) -> bool
    ensures { result ≡ list_any (has_rusted phase) trains.now }
{
    trains.iter().any(|kind| has_rusted(phase, *kind))
}

/// Returns whether trains of a kind have rusted by a phase.
fn has_rusted(phase: Kind, kind: Kind) -> bool
    ensures { result ≡ has_rusted phase kind }
{
    match rusts(kind) {
        Some(by) => by.index() <= phase.index(),
        None => false,
    }
}

/// Returns whether some trains have more of any kind than the game has.
fn has_too_many(trains: &[Kind]) -> bool
    ensures { result ≡ list_any (is_too_many trains.now) kinds }
{
    Kind::ALL.iter().any(|kind| is_too_many(trains, *kind))
}

/// Returns whether some trains have more of this kind than the game has.
fn is_too_many(trains: &[Kind], kind: Kind) -> bool
    ensures { result ≡ is_too_many trains.now kind }
{
    match train(kind).number {
        Some(number) => usize::from(number) < count_of(trains, kind),
        None => false,
    }
}

/// Returns how many of some trains are of a kind.
fn count_of(trains: &[Kind], kind: Kind) -> usize
    ensures { result ≡ count_by (λ train. same_kind train kind) trains.now }
{
    trains
        .iter()
        .filter(|train| same_kind(**train, kind))
        .count()
}
