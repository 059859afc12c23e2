//! A round's part of the report, with or without the rules that refused lines broke.
ghost use Rattle.std.specs.Prelude.{IfErr, IfOk, OnOk};
ghost use Rattle.desk_base.specs.Played.{IsRoundFault};
ghost use Rattle.desk_round.specs.RoundPart.{IsRoundPart};
ghost use Rattle.sheets.specs.File.{IsAccepted};

use crate::played_game::round_of_game;
use desk_base::Piece::Bytes;
use desk_base::{DeskFault, fill, push, view_behind};
use desk_why::{Ruled, SheetLine, lines_of, push_why, refused_in};
use history::{Event, Walk};
use report::round_text;
use rounds::Game;
use sheets::{Sheets, collect, first_line};
use std::alloc::{AllocError, Global};
use tables::Round;

/// Returns the part of a file's report about a round: the named one, or else the last one played.
/// Fails with `File` if the file is refused, with `Round` if that round was not played, or no round
/// was, and with `Memory` if allocation fails.
#[tactic(auto, using(desk_base::proofs::Refusals::none_where_it_fails, desk_base::proofs::PlayedLemmas::no_round_where_it_fails))]
pub fn round(alloc: Global, file: &[u8], asked: Option<Round>) -> Result<Vec<u8>, DeskFault>
    ensures part { IfOk result (λ text. IsRoundPart file.now asked text.items) }
    ensures fault { IfErr result (IsRoundFault file.now asked) }
{
    let sheets = collect(alloc, file)?;
    round_by(alloc, &sheets, asked)
}

/// Returns that part of the report of some sheets.
#[tactic(auto, using(crate::proofs::RoundParts::is_round_part))]
fn round_by(alloc: Global, sheets: &Sheets, asked: Option<Round>) -> Result<Vec<u8>, DeskFault>
    ensures part { IfOk result (λ text. IsRoundPart sheets.now asked text.items) }
    ensures fault { IfErr result (IsRoundFault sheets.now asked) }
{
    let its = round_of_game(alloc, sheets, asked)?;
    Ok(round_text(alloc, &its.game, its.round)?)
}

/// Returns the same text with a line below each refused line: two spaces, the code and the sentence
/// of the rule that it broke, and the figures that the rule compared, if they are known.
#[tactic(auto, using(desk_base::proofs::Refusals::none_where_it_fails, desk_base::proofs::PlayedLemmas::no_round_where_it_fails))]
pub fn round_with_rules(
    alloc: Global,
    file: &[u8],
    asked: Option<Round>,
) -> Result<Vec<u8>, DeskFault>
    ensures accepted { OnOk result (IsAccepted file.now) }
    ensures fault { IfErr result (IsRoundFault file.now asked) }
{
    let sheets = collect(alloc, file)?;
    rules_by(alloc, &sheets, asked)
}

/// Returns that text of the game of some sheets.
fn rules_by(alloc: Global, sheets: &Sheets, asked: Option<Round>) -> Result<Vec<u8>, DeskFault>
    ensures { IfErr result (IsRoundFault sheets.now asked) }
{
    let its = round_of_game(alloc, sheets, asked)?;
    let text = round_text(alloc, &its.game, its.round)?;
    let mut out = Vec::new(alloc);
    push_with_rules(alloc, &mut out, &its.game, its.round, text.as_slice())?;
    Ok(out)
}

/// Adds the text of a round, with the broken rule below each refused line. The text begins with one
/// line for each event.
fn push_with_rules(
    alloc: Global,
    out: &mut Vec<u8>,
    game: &Game,
    round: Round,
    text: &[u8],
) -> Result<(), AllocError> {
    let events = game.history().events();
    let lines = lines_of(alloc, game.sheets(), round)?;
    let mut walk = Walk::along(events);
    let mut rest = text;
    let mut told = place_of(events, round);
    for place in refused_in(alloc, events, round)?.as_slice() {
        let behind = place.saturating_add(1);
        rest = push_lines(out, rest, behind.saturating_sub(told))?;
        told = behind;
        push_why_at(alloc, out, game, round, lines.as_slice(), &mut walk, *place)?;
    }
    push(out, &[Bytes(rest)])
}

/// Adds the rule that the line ruled by the event at a place broke, in a round with these lines.
fn push_why_at(
    alloc: Global,
    out: &mut Vec<u8>,
    game: &Game,
    round: Round,
    lines: &[SheetLine],
    walk: &mut Walk,
    place: usize,
) -> Result<(), AllocError> {
    let view = view_behind(walk, place, game.history().seats());
    let Some(Event::Ruled { seat, line, ruling }) = game.history().events().get(place) else {
        return Ok(());
    };
    let ruled = Ruled {
        sheets: game.sheets(),
        lines,
        view: &view,
        round,
        seat: *seat,
        place: None,
    };
    push_why(alloc, out, ruled, *line, ruling)
}

/// Returns the place in the list of events of the one that begins a round; 0 if none does.
fn place_of(events: &[Event], round: Round) -> usize {
    events
        .iter()
        .position(|event| event.round() == Some(round))
        .unwrap_or(0)
}

/// Adds this many lines of a text, or all if there are fewer. Returns the rest of the text.
fn push_lines<'a>(out: &mut Vec<u8>, text: &'a [u8], count: usize) -> Result<&'a [u8], AllocError> {
    let mut rest = text;
    for _ in 0..count {
        if let Some(first) = first_line(rest) {
            fill(out, "%\n", &[Bytes(first.line)])?;
            rest = first.rest;
        }
    }
    Ok(rest)
}
