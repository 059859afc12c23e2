//! What a player may do in the coming round.
ghost use Rattle.std.specs.Prelude.{◌≡◌, ◌<◌, IfOk, OnOk, length, true};
ghost use Rattle.desk_may.specs.OperatingLines.{AddsOperatingLines};
ghost use Rattle.desk_moves.specs.Answers.{AddsLinesIn, AddsTurnLines, AreLinesOf, IsTurnIn};
ghost use Rattle.history.specs.Sound.{IsSound};
ghost use Rattle.sheets.specs.File.{players_of};

use crate::coming::{coming_round, drafter_if};
use crate::fault::{MovesFault, NoAnswer};
use crate::questions::MayForm;
use crate::trials::seat_named;
use certs::Holdings;
use desk_base::Piece::{Bytes, Count, Number};
use desk_base::{Piece, Position, fill, push_wrapped_lines};
use desk_dues::next_train_text;
use desk_may::{
    push_lines_of_operating, push_lines_of_turn, push_of_opening, push_of_operating, push_of_stock,
    push_standing_lines, push_until_then,
};
use foresight::{Draft, RoundAhead, TurnAhead, at_head, behind_opening, behind_stock};
use history::{History, Party};
use report::name;
use sheets::Sheets;
use std::alloc::{AllocError, Global};
use tables::{Round, Seat, certificate_limit};

/// Returns what the player with this name may do in the coming round, at the start of their turn,
/// or of their companies' orders. The error says that no player has that name, that the game is
/// over or that they have no sheet for the round, or is `Memory`.
pub(crate) fn may_text(
    alloc: Global,
    coming: Position,
    player: &[u8],
    form: MayForm,
) -> Result<Vec<u8>, MovesFault>
    requires sound { IsSound coming.history }
    requires seats { coming.history.seats ≡ length (players_of coming.sheets.now) }
    ensures { form.lines ≡ true →
        IfOk result (λ text. AreLinesOf coming.entry player.now form.drafted text.items) }
{
    let Some(seat) = seat_named(coming.sheets, player) else {
        return Err(MovesFault::Asked(NoAnswer::NoSuchPlayer));
    };
    let drafter = drafter_if(&coming, form.drafted, seat)?;
    let round = coming_round(&coming)?;
    let mut text = Vec::new(alloc);
    push_round(alloc, &mut text, coming, round, seat, drafter, form.lines)?;
    Ok(text)
}

/// Adds what a player may do in a round.
fn push_round(
    alloc: Global,
    out: &mut Vec<u8>,
    coming: Position,
    round: Round,
    seat: Seat,
    drafter: Option<Seat>,
    lines: bool,
) -> Result<(), MovesFault>
    requires sound { IsSound coming.history }
    requires seats { coming.history.seats ≡ length (players_of coming.sheets.now) }
    requires at_table { seat.0 < coming.history.seats }
    ensures { let before = coming.entry in lines ≡ true → OnOk result (AddsLinesIn
        drafter before.sheets.now before.history round seat out.old.items out.new.items) }
{
    match round {
        Round::Operating { .. } => Ok(push_operating(
            alloc, out, coming, round, seat, drafter, lines,
        )?),
        Round::Opening(_) | Round::Stock(_) => {
            push_turn(alloc, out, coming, round, seat, drafter, lines)
        }
    }
}

/// Adds what a player may do at the start of their first turn of an opening or a stock round, or
/// after those lines of it that are drafted.
fn push_turn(
    alloc: Global,
    out: &mut Vec<u8>,
    coming: Position,
    round: Round,
    seat: Seat,
    drafter: Option<Seat>,
    lines: bool,
) -> Result<(), MovesFault>
    requires sound { IsSound coming.history }
    requires seats { coming.history.seats ≡ length (players_of coming.sheets.now) }
    requires at_table { seat.0 < coming.history.seats }
    ensures { let before = coming.entry in lines ≡ true → OnOk result (AddsTurnLines
        drafter before.sheets.now before.history round seat out.old.items out.new.items) }
{
    let Position {
        sheets,
        history,
        ..
    } = coming;
    let from = history.events().len();
    if lines {
        push_standing_lines(alloc, out, sheets, &history, round, seat)?;
    }
    let turn = turn_in(history, sheets, round, seat, drafter)?;
    if lines {
        push_lines_of_turn(alloc, out, sheets, &turn, round, seat)?;
        return Ok(());
    }
    push_head(out, sheets, &turn.history, seat, round)?;
    push_until_then(alloc, out, sheets, &turn.history, from, None)?;
    match round {
        Round::Opening(_) => push_of_opening(alloc, out, sheets, &turn, seat)?,
        _ => {
            push_of_stock(alloc, out, sheets, &turn, seat)?;
            let next_train = next_train_text(alloc, sheets, &turn.history)?;
            push_wrapped_lines(out, 0, next_train.as_slice())?;
        }
    }
    Ok(())
}

/// Returns a player's first turn of an opening or a stock round, at its head or after its lines in
/// their own sheet. The error is `NoOpening`, or `Memory`.
fn turn_in(
    history: History,
    sheets: &Sheets,
    round: Round,
    seat: Seat,
    drafter: Option<Seat>,
) -> Result<TurnAhead, MovesFault>
    requires sound { IsSound history }
    requires seats { history.seats ≡ length (players_of sheets.now) }
    requires at_table { seat.0 < history.seats }
    ensures { IfOk result (IsTurnIn drafter sheets.now history round seat) }
{
    if drafter.is_none() {
        // For the proof only: the seats are at most six.
        let _few = sheets.seats();
        return Ok(at_head(history, round, seat)?);
    }
    match round {
        Round::Opening(_) => match behind_opening(history, sheets, round, seat)? {
            Some(turn) => Ok(turn),
            None => Err(MovesFault::Asked(NoAnswer::NoOpening)),
        },
        _ => Ok(behind_stock(history, sheets, round, seat)?),
    }
}

/// Adds what a player's companies may do in an operating round.
fn push_operating(
    alloc: Global,
    out: &mut Vec<u8>,
    coming: Position,
    round: Round,
    seat: Seat,
    drafter: Option<Seat>,
    lines: bool,
) -> Result<(), AllocError>
    requires sound { IsSound coming.history }
    requires seats { coming.history.seats ≡ length (players_of coming.sheets.now) }
    ensures { let before = coming.entry in lines ≡ true → OnOk result (AddsOperatingLines
        before.sheets.now drafter round seat before.history out.old.items out.new.items) }
{
    let Position {
        sheets,
        history,
        ..
    } = coming;
    let draft = Draft { sheets, drafter };
    if lines {
        return push_lines_of_operating(alloc, out, history, draft, round, seat);
    }
    let from = history.events().len();
    let ahead = RoundAhead::open(alloc, history, draft, round)?;
    push_head(out, sheets, ahead.history(), seat, round)?;
    let next_train = next_train_text(alloc, sheets, ahead.history())?;
    push_of_operating(alloc, out, ahead, from, seat)?;
    push_wrapped_lines(out, 0, next_train.as_slice())
}

/// Adds the player, the round, and what the player has: cash, the cash that is not tied up in bids,
/// and certificates with their limit.
fn push_head(
    out: &mut Vec<u8>,
    sheets: &Sheets,
    history: &History,
    seat: Seat,
    round: Round,
) -> Result<(), AllocError> {
    let cash = Number(history.cash(Party::of_seat(seat)));
    let free = Number(history.now().free_cash(seat));
    let held = Number(Holdings::of(history).counted(seat));
    let most = Count(certificate_limit(history.seats()));
    let pieces = [
        Bytes(name(sheets, seat)),
        Piece::Round(round),
        cash,
        free,
        held,
        most,
    ];
    fill(
        out,
        "PLAYER            %\nROUND             %\nCASH              %\nFREE              %\n\
        CERTIFICATES      % of %\n",
        &pieces,
    )
}
