//! The whole report of a game, the text of one of its rounds, and the text of a refused file.
ghost use Rattle.std.specs.Prelude.{◌≡◌, ◌+◌, ◌≤◌, IfOk, OnOk, drop, length};
ghost use Rattle.report.specs.Column.{Adds};
ghost use Rattle.report.specs.Parts.{last_round, last_round_text};
ghost use Rattle.report.specs.Report.{IsLengthOfRound, awaiting_text, end_text, ends_round, game_line, header};
ghost use Rattle.report.specs.Report.{is_round, name_owing, over_text, refusal_line, report_of, round_text_of};
ghost use Rattle.report.specs.Report.{round_with_statement, rounds_text, text_between, unread_lines};
ghost use Rattle.sheets.specs.File.{players_of};

use crate::end_worth::push_worths;
use crate::line::{push_event, push_name};
use crate::statement::push_statement;
use history::{Event, GameView, History, Walk};
use order_grammar::{Fault, Version, print_number, print_round};
use rounds::{End, Game};
use sheets::{FileFault, Sheets};
use std::alloc::{AllocError, Global};
use tables::{Round, Seat};

/// Returns the text of a refused file. Fails only if allocation fails.
pub fn refusal_text(alloc: Global, fault: FileFault) -> Result<Vec<u8>, AllocError>
    ensures { IfOk result (λ text. text.items ≡ refusal_line fault) }
{
    let mut out = Vec::new(alloc);
    out.extend_from_slice(b"FILE REFUSED ")?;
    out.extend_from_slice(fault.code().as_bytes())?;
    out.push(b'\n')?;
    Ok(out)
}

/// Returns the text of a round that was played: its events and the statement after them. It is
/// empty for a round that was not played. Fails only if allocation fails.
pub fn round_text(alloc: Global, game: &Game, round: Round) -> Result<Vec<u8>, AllocError>
    ensures { IfOk result (λ text. text.items ≡ round_text_of game.now round) }
{
    let mut out = Vec::new(alloc);
    let history = game.history();
    let events = history.events();
    let mut begun = 0;
    while begun < events.len() {
        let end = begun + length_of_round(&events[begun..]);
        if is_round(&events[begun..end], &round) {
            push_round_between(&mut out, game, begun, end, &mut Walk::along(events))?;
            return Ok(out);
        }
        begun = end;
    }
    Ok(out)
}

/// Returns the whole report of a game. Fails only if allocation fails.
pub fn report(alloc: Global, game: &Game) -> Result<Vec<u8>, AllocError>
    ensures { IfOk result (λ text. text.items ≡ report_of game.now) }
{
    let mut out = Vec::new(alloc);
    push_header(&mut out, game.sheets())?;
    push_rounds(&mut out, game)?;
    push_unread(&mut out, 0, game.sheets().unread())?;
    push_end(&mut out, game.sheets(), game.history(), game.outcome())?;
    Ok(out)
}

#[tactic(auto, unfolding(crate::specs::Report::header))]
pub(crate) fn push_header(out: &mut Vec<u8>, sheets: &Sheets) -> Result<(), AllocError>
    ensures { OnOk result (Adds out.old out.new (header sheets.now)) }
{
    out.extend_from_slice(game_line(sheets.version()))?;
    out.extend_from_slice(b"PLAYERS")?;
    for seat in 0..sheets.seats() {
        out.push(b' ')?;
        push_name(out, sheets, Seat(seat as u8))?;
    }
    out.push(b'\n')?;
    Ok(())
}

/// Returns the first line of a report: the game, and the version of its file.
fn game_line(version: Version) -> &'static [u8]
    ensures { result.now ≡ game_line version }
{
    match version {
        Version::One => b"GAME 1830 1\n",
        Version::Two => b"GAME 1830 2\n",
    }
}

/// Adds the texts of all rounds of a game.
fn push_rounds(out: &mut Vec<u8>, game: &Game) -> Result<(), AllocError>
    ensures { OnOk result (Adds out.old out.new
        (rounds_text game.now.file game.now.game)) }
{
    let history = game.history();
    let events = history.events();
    let mut walk = Walk::along(events);
    let mut begun = 0;
    while begun < events.len() {
        let end = begun + length_of_round(&events[begun..]);
        push_round_between(out, game, begun, end, &mut walk)?;
        begun = end;
    }
    Ok(())
}

/// Adds the text of the round whose events are those from `begun` up to `end`, with the statement
/// of the game after them. The walk goes along the events to there.
fn push_round_between(
    out: &mut Vec<u8>,
    game: &Game,
    begun: usize,
    end: usize,
    walk: &mut Walk,
) -> Result<(), AllocError>
    requires ordered { begun ≤ end }
    requires within { end ≤ length game.now.game.events }
    requires along { walk.old.events.now ≡ game.now.game.events }
    ensures along { walk.new.events.now ≡ walk.old.events.now }
    ensures text { OnOk result (Adds out.old out.new (text_between game.now begun end)) }
{
    let history = game.history();
    let events = history.events();
    walk.go(end);
    let stood = walk.view(history.seats());
    push_round(out, game.sheets(), &stood, &events[begun..end])
}

/// Adds the text of the round that began last, given the present game; nothing before the first.
pub(crate) fn push_last_round(
    out: &mut Vec<u8>,
    sheets: &Sheets,
    history: &History,
) -> Result<(), AllocError>
    requires { history.now.seats ≡ length (players_of sheets.now) }
    ensures { OnOk result (Adds out.old out.new
        (last_round_text sheets.now history.now.seats history.now.events)) }
{
    let events = history.events();
    if events.is_empty() {
        return Ok(());
    }
    let last = &events[begin_of_last_round(events)..];
    push_round(out, sheets, &history.now(), last)
}

/// Adds the text of a round: the lines of its events, and the statement of the game after them.
fn push_round(
    out: &mut Vec<u8>,
    sheets: &Sheets,
    stood: &GameView,
    events: &[Event],
) -> Result<(), AllocError>
    requires { stood.now.seats ≡ length (players_of sheets.now) }
    ensures { OnOk result
        (Adds out.old out.new (round_with_statement sheets.now stood.now events.now)) }
{
    for event in events {
        push_event(out, sheets, event)?;
    }
    push_statement(out, sheets, stood)
}

/// Returns the place where the events of the round that began last begin.
fn begin_of_last_round(events: &[Event]) -> usize
    ensures within { result ≤ length events.now }
    ensures last { drop result events.now ≡ last_round events.now }
{
    let mut begun = events.len();
    while begun > 0 {
        begun -= 1;
        if events[begun].round().is_some() {
            return begun;
        }
    }
    begun
}

/// Returns how many events the first of these rounds has: those up to the next that begins a round,
/// or all if none does.
pub fn length_of_round(events: &[Event]) -> usize
    requires { 1 ≤ length events.now }
    ensures some { 1 ≤ result }
    ensures within { result ≤ length events.now }
    ensures first { IsLengthOfRound events.now result }
{
    let mut length = 1;
    while !ends_round(&events[length..]) {
        length += 1;
    }
    length
}

/// Returns whether these are the events of this round.
fn is_round(events: &[Event], round: &Round) -> bool
    ensures { result ≡ is_round round.now events.now }
{
    match events {
        [] => false,
        [event, ..] => event.round().is_some_and(|begun| begun == *round),
    }
}

/// Returns whether a round ends before these later events: the next begins, or there is none.
fn ends_round(later: &[Event]) -> bool
    ensures { result ≡ ends_round later.now }
{
    later.first().is_none_or(|event| event.round().is_some())
}

/// Adds the lines for unread lines, after this many others.
pub(crate) fn push_unread(
    out: &mut Vec<u8>,
    before: usize,
    unread: &[Fault],
) -> Result<(), AllocError>
    requires { before + length unread.now ≤ usize.MAX }
    ensures { OnOk result (Adds out.old out.new (unread_lines before unread.now)) }
{
    for (i, fault) in unread.iter().enumerate() {
        out.extend_from_slice(b"UNREAD ")?;
        print_number(out, (before + i) as u64 + 1)?;
        out.push(b' ')?;
        out.extend_from_slice(fault.code().as_bytes())?;
        out.push(b'\n')?;
    }
    Ok(())
}

pub(crate) fn push_end(
    out: &mut Vec<u8>,
    sheets: &Sheets,
    history: &History,
    end: End,
) -> Result<(), AllocError>
    requires { history.now.seats ≡ length (players_of sheets.now) }
    ensures { OnOk result (Adds out.old out.new
        (end_text sheets.now history.now end)) }
{
    match end {
        End::Awaiting(round) => push_awaiting(out, sheets, &round),
        End::Bank => push_over(out, sheets, history, "BANK"),
        End::Bankrupt => push_over(out, sheets, history, "BANKRUPT"),
    }
}

/// Adds that the game is over, with the word for why, and what each player is worth.
fn push_over(
    out: &mut Vec<u8>,
    sheets: &Sheets,
    history: &History,
    word: &str,
) -> Result<(), AllocError>
    requires { history.now.seats ≡ length (players_of sheets.now) }
    ensures { OnOk result (Adds out.old out.new
        (over_text sheets.now history.now word.now)) }
{
    out.extend_from_slice(b"END ")?;
    out.extend_from_slice(word.as_bytes())?;
    out.push(b'\n')?;
    push_worths(out, sheets, &history.now())
}

/// Adds the line of the round that can't be played yet: the names of those who owe a sheet for it.
#[tactic(auto, unfolding(crate::specs::Report::owing))]
fn push_awaiting(out: &mut Vec<u8>, sheets: &Sheets, round: &Round) -> Result<(), AllocError>
    ensures { OnOk result (Adds out.old out.new (awaiting_text sheets.now round.now)) }
{
    out.extend_from_slice(b"AWAITING ")?;
    print_round(out, round)?;
    for seat in 0..sheets.seats() {
        push_owing(out, sheets, round, Seat(seat as u8))?;
    }
    out.push(b'\n')?;
    Ok(())
}

/// Adds the name of a seat's player after a space, if it owes a sheet for the round.
fn push_owing(
    out: &mut Vec<u8>,
    sheets: &Sheets,
    round: &Round,
    seat: Seat,
) -> Result<(), AllocError>
    ensures { OnOk result (Adds out.old out.new (name_owing sheets.now round.now seat.0)) }
{
    if sheets.sheet(seat, round).is_none() {
        out.push(b' ')?;
        push_name(out, sheets, seat)?;
    }
    Ok(())
}
