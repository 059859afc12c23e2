//! What the trains of each company ran in a round, stop by stop.
ghost use Rattle.std.specs.Prelude.{◌≡◌, ◌++◌, IfErr, IfOk, OnOk};
ghost use Rattle.desk_base.specs.Played.{IsRoundFault};
ghost use Rattle.desk_round.specs.RunsRound.{last_with_runs, ran, round_of_runs, ruled_then, run_by};
ghost use Rattle.desk_round.specs.RunsRound.{runs_by, runs_in, seen_then};
ghost use Rattle.sheets.specs.File.{IsAccepted};

use desk_base::Piece::{Number, Words};
use desk_base::{
    DeskFault, Piece, best_at, board_at, fill, played_round, push, push_run, view_behind,
};
use desk_why::within_then;
use history::{Event, GameView, History, Ruling, Walk};
use order_grammar::{Order, PlayOrder};
use sheets::{Sheets, collect};
use std::alloc::{AllocError, Global};
use tables::{Amount, Company, Money, Round};

/// Returns what each company ran in a round of the game of a file, as lines that a sheet could
/// have, each with the values of its stops and their sum. For an obeyed RUN BEST it gives runs that
/// earn the most. If nothing ran, a line says so. If no round is named, it takes the last in which
/// a company ran, or the last one played if none ran. Fails with `Round` if the named round was not
/// played, or no round was.
#[tactic(auto, using(desk_base::proofs::Refusals::none_where_it_fails, desk_base::proofs::PlayedLemmas::no_round_where_it_fails))]
pub fn runs(alloc: Global, file: &[u8], asked: Option<Round>) -> Result<Vec<u8>, DeskFault>
    ensures accepted { OnOk result (IsAccepted file.now) }
    ensures fault { IfErr result (IsRoundFault file.now asked) }
{
    let sheets = collect(alloc, file)?;
    runs_of(alloc, &sheets, asked)
}

/// Returns the same of the game of some sheets.
fn runs_of(alloc: Global, sheets: &Sheets, asked: Option<Round>) -> Result<Vec<u8>, DeskFault>
    ensures { IfErr result (IsRoundFault sheets.now asked) }
{
    let its = played_round(alloc, sheets, asked)?;
    let history = &its.position.history;
    let round = round_of_runs(history, its.round, asked);
    let mut out = Vec::new(alloc);
    push_runs(alloc, &mut out, history, round)?;
    Ok(out)
}

/// Returns the named round; if none is named, the last in which a company ran, or the last that was
/// played if none ran.
fn round_of_runs(history: &History, last: Round, asked: Option<Round>) -> Round
    ensures { result ≡ round_of_runs history.now.events last asked }
{
    match (asked, last_with_runs(history.events())) {
        (Some(round), _) | (None, Some(round)) => round,
        (None, None) => last,
    }
}

/// The rounds seen so far on the way through the events of a game.
#[derive(Clone, Copy)]
struct Seen {
    /// The last that has begun.
    begun: Option<Round>,
    /// The last in which a company ran.
    ran: Option<Round>,
}

impl Seen {
    /// Returns the rounds that have been seen after one more event.
    fn then(self, event: &Event) -> Seen
        ensures { result ≡ seen_then self event.now }
    {
        match event {
            Event::Round(round) => Seen {
                begun: Some(*round),
                ..self
            },
            Event::Runs { .. } => Seen {
                ran: self.begun,
                ..self
            },
            _ => self,
        }
    }
}

/// Returns the last round of a game in which a company ran; `None` if none ran.
fn last_with_runs(events: &[Event]) -> Option<Round>
    ensures { result ≡ last_with_runs events.now }
{
    let mut seen = Seen {
        begun: None,
        ran: None,
    };
    for event in events {
        seen = seen.then(event);
    }
    seen.ran
}

/// What a company earned in a round.
#[derive(Clone, Copy)]
pub(crate) struct RunRow {
    /// How many events precede it.
    place: usize,
    /// How many events precede the ruling of the line by which it ran.
    ruled: usize,
    company: Company,
    /// What it earned, in dollars.
    revenue: Amount,
}

/// Adds a round of a game, and what each company ran in it.
fn push_runs(
    alloc: Global,
    out: &mut Vec<u8>,
    history: &History,
    asked: Round,
) -> Result<(), AllocError> {
    fill(out, "ROUND %\n", &[Piece::Round(asked)])?;
    let rows = runs_in(alloc, history.events(), asked)?;
    push_rows(alloc, out, history, asked, rows.as_slice())?;
    let end = if rows.is_empty() { "NO RUNS\n" } else { "" };
    push(out, &[Words(end)])
}

/// Returns what each company earned in a round, in order. Fails only if allocation fails.
fn runs_in(alloc: Global, events: &[Event], round: Round) -> Result<Vec<RunRow>, AllocError>
    ensures { IfOk result (λ rows. rows.items ≡ runs_in round events.now) }
{
    let mut rows = Vec::new(alloc);
    let mut within = false;
    let mut ruled = None;
    for (passed, event) in events.iter().enumerate() {
        push_if_run(&mut rows, within, ruled, passed, event)?;
        within = within_then(within, event, round);
        ruled = ruled_then(ruled, passed, event);
    }
    Ok(rows)
}

/// Adds what a company earns by an event that this many precede, if it is one of the round, and a
/// line has been ruled.
fn push_if_run(
    rows: &mut Vec<RunRow>,
    within: bool,
    ruled: Option<usize>,
    passed: usize,
    event: &Event,
) -> Result<(), AllocError>
    ensures { OnOk result (rows.new.items
        ≡ rows.old.items ++ runs_by within ruled passed event.now) }
{
    if let Some(row) = run_by(within, ruled, passed, event) {
        rows.push(row)?;
    }
    Ok(())
}

/// Returns what a company earns by an event that this many precede, if it is one of the round, and
/// a line has been ruled.
fn run_by(within: bool, ruled: Option<usize>, passed: usize, event: &Event) -> Option<RunRow>
    ensures { result ≡ run_by within ruled passed event.now }
{
    match event {
        Event::Runs { company, revenue } => ran(within, ruled, passed, *company, *revenue),
        _ => None,
    }
}

/// Returns what a company earned, if it was in the round, and a line had been ruled.
fn ran(
    within: bool,
    ruled: Option<usize>,
    passed: usize,
    company: Company,
    revenue: Amount,
) -> Option<RunRow>
    ensures { result ≡ ran within ruled passed company revenue }
{
    match ruled {
        Some(ruled) if within => Some(RunRow {
            place: passed,
            ruled,
            company,
            revenue,
        }),
        _ => None,
    }
}

/// Returns how many events precede the last ruling of a line, with one more event.
fn ruled_then(ruled: Option<usize>, passed: usize, event: &Event) -> Option<usize>
    ensures { result ≡ ruled_then ruled passed event.now }
{
    match event {
        Event::Ruled { .. } => Some(passed),
        _ => ruled,
    }
}

/// Adds what each company earned in a round, and by which runs.
fn push_rows(
    alloc: Global,
    out: &mut Vec<u8>,
    history: &History,
    _round: Round,
    rows: &[RunRow],
) -> Result<(), AllocError>
    requires { rows.now ≡ runs_in _round history.now.events }
{
    let events = history.events();
    let mut walk = Walk::along(events);
    for row in rows {
        if let Some(Event::Ruled { ruling, .. }) = events.get(row.ruled) {
            let view = view_behind(&mut walk, row.place, history.seats());
            push_earned(
                alloc,
                out,
                &view,
                row.company,
                row.revenue,
                &ruling.ruling(),
            )?;
        }
    }
    Ok(())
}

/// Adds what a company earned by an obeyed order, and by which runs; nothing if the ruling did not
/// obey an order.
fn push_earned(
    alloc: Global,
    out: &mut Vec<u8>,
    view: &GameView,
    company: Company,
    revenue: Amount,
    ruling: &Ruling,
) -> Result<(), AllocError> {
    let Ruling::Obeyed { order, .. } = ruling else {
        return Ok(());
    };
    let words = match order {
        Order::Play(PlayOrder::RunBest) => "RUNS % % BEST\n",
        _ => "RUNS % %\n",
    };
    let code = Words(company.code());
    fill(out, words, &[code, Number(Money::from(revenue))])?;
    push_ran(alloc, out, view, company, ruling)
}

/// Adds the runs of a company by an obeyed order, a line each; nothing if the ruling did not obey
/// an order.
pub(crate) fn push_ran(
    alloc: Global,
    out: &mut Vec<u8>,
    view: &GameView,
    company: Company,
    ruling: &Ruling,
) -> Result<(), AllocError> {
    match ruling {
        Ruling::Obeyed {
            order: Order::Run { kind, run },
            ..
        } => push_run(out, &board_at(alloc, view)?, *kind, run),
        Ruling::Obeyed {
            order: Order::Play(PlayOrder::RunBest),
            ..
        } => push_best(alloc, out, view, company),
        _ => Ok(()),
    }
}

/// Adds the lines of the runs by which a company's trains earn the most.
fn push_best(
    alloc: Global,
    out: &mut Vec<u8>,
    view: &GameView,
    company: Company,
) -> Result<(), AllocError> {
    let claim = best_at(alloc, view, company)?;
    let board = board_at(alloc, view)?;
    for claimed in claim.runs.as_slice() {
        push_run(out, &board, claimed.kind, &claimed.run)?;
    }
    Ok(())
}
