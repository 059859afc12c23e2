//! The state of a game, as text or as JSON: the rows of its tables, in the columns of the form.
ghost use Rattle.std.specs.Prelude.{IfErr, OnOk};
ghost use Rattle.desk_base.specs.Played.{IsMomentFault};
ghost use Rattle.sheets.specs.File.{IsAccepted};

use crate::facts::json_line;
use crate::state_chart::put_chart;
use crate::state_facts::StateFacts;
use crate::state_map::put_map;
use crate::state_round::{put_awaited, put_matters};
use crate::state_tables::{COMPANIES, OWNERS, PLAYERS, TOKENS, TRAINS, put_shares};
use crate::state_tiles::{put_laid, put_tiles_left};
use desk_base::{DeskFault, Moment, Stood, Text, position_at};
use desk_cells::{all_in_order, company_rows, player_rows, private_rows, train_rows};
use sheets::{Sheets, collect};
use std::alloc::{AllocError, Global};

/// The form in which a state is written.
#[derive(Clone, Copy)]
pub enum StateForm {
    /// Text for people.
    Text,
    /// JSON for programs, in one line.
    Json,
}

/// Returns the state of the game of an order file at a moment, in a form. It says who owes a sheet,
/// or how the game ended; then come the phase, priority, the number of operating rounds of the set
/// and the limit of certificates; players, privates, companies in operating order, trains and
/// tiles; the stock market and the map. Lines have at most 80 columns, except that of a company
/// with more than three privates. JSON has the same figures, without the pictures of the market and
/// the map.
///
/// Fails with `File` if the file is refused, with `Round` if the moment names a round that was not
/// played, or is `BeforeLast` and no round was, and with `Memory` if allocation fails.
#[tactic(auto, using(desk_base::proofs::Refusals::none_where_it_fails, desk_base::proofs::PlayedLemmas::no_moment_where_it_fails))]
pub fn state(
    alloc: Global,
    file: &[u8],
    moment: Moment,
    form: StateForm,
) -> Result<Vec<u8>, DeskFault>
    ensures accepted { OnOk result (IsAccepted file.now) }
    ensures fault { IfErr result (IsMomentFault file.now moment) }
{
    let sheets = collect(alloc, file)?;
    state_at(alloc, &sheets, moment, form)
}

/// Returns the state of the game of some sheets at a moment.
fn state_at(
    alloc: Global,
    sheets: &Sheets,
    moment: Moment,
    form: StateForm,
) -> Result<Vec<u8>, DeskFault>
    ensures { IfErr result (IsMomentFault sheets.now moment) }
{
    let position = position_at(alloc, sheets, moment)?;
    Ok(state_text(alloc, &position.stood(), form)?)
}

/// Returns the state of a game at a moment, in a form. Fails only if allocation fails.
pub fn state_text(alloc: Global, stood: &Stood, form: StateForm) -> Result<Vec<u8>, AllocError> {
    let (history, view) = (stood.history, stood.history.now());
    let order = all_in_order(alloc, history)?;
    let players = player_rows(alloc, history, &view, stood.sheets.seats())?;
    let privates = private_rows(alloc, &view)?;
    let companies = company_rows(alloc, &view, &view, order.as_slice())?;
    let trains = train_rows(alloc, &view)?;
    let facts = StateFacts {
        alloc,
        stood,
        players: players.as_slice(),
        privates: privates.as_slice(),
        companies: companies.as_slice(),
        trains: trains.as_slice(),
    };
    match form {
        StateForm::Text => text_of(alloc, &facts),
        StateForm::Json => json_line(alloc, &facts),
    }
}

/// Returns the state of a game as text.
fn text_of(alloc: Global, state: &StateFacts) -> Result<Vec<u8>, AllocError> {
    let (stood, mut text) = (state.stood, Text::new(alloc));
    put_awaited(&mut text, stood);
    put_matters(&mut text, stood);
    PLAYERS.put(&mut text, stood, state.players);
    OWNERS.put(&mut text, stood, state.privates);
    COMPANIES.put(&mut text, stood, state.companies);
    put_shares(&mut text, stood, state.companies);
    TOKENS.put(&mut text, stood, state.companies);
    TRAINS.put(&mut text, stood, state.trains);
    put_laid(&mut text, stood.history);
    put_tiles_left(&mut text, stood.history);
    put_chart(&mut text, stood.history);
    put_map(&mut text, stood.history);
    text.finish()
}
