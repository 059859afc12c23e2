//! What is asked, and where: at the start of a turn of the coming round, after all sheets or after
//! a named round.
ghost use Rattle.std.specs.Prelude.{◌≡◌, IfOk, length, true};
ghost use Rattle.desk_moves.specs.Answers.{Answers, AreBestOf, AreLaysOf, IsAnswer, are_lines};
ghost use Rattle.desk_moves.specs.Coming.{AreOrdersIn};
ghost use Rattle.history.specs.Sound.{IsSound};
ghost use Rattle.sheets.specs.File.{players_of};

use crate::best_text::best_text;
use crate::coming::{coming_round, drafter_if, president_in};
use crate::fault::{MovesFault, NoAnswer};
use crate::hex_text::hex_text;
use crate::lay_text::lay_text;
use crate::line_text::line_text;
use crate::may_text::may_text;
use desk_base::{Moment, Position, position_at};
use desk_may::Progress;
use foresight::{Ahead, Draft, OrdersAhead, RoundAhead};
use map_tables::Hex;
use sheets::{Sheets, collect};
use std::alloc::Global;
use tables::{Company, Kind, Round, Seat};

/// What is asked.
#[derive(Clone, Copy)]
pub enum Question<'a> {
    /// Which tiles a company may lay, and where it may place its next token.
    Lays {
        company: Company,
        form: LayForm,
    },
    /// What the player with this name may do.
    May {
        name: &'a [u8],
        form: MayForm,
    },
    /// The best runs of a company with these trains, or if there are none with those that it has.
    Best {
        company: Company,
        trains: &'a [Kind],
    },
    /// What a hex has.
    Hex(Hex),
}

/// How lays are listed.
#[derive(Clone, Copy)]
pub struct LayForm {
    /// Whether to say what the company's best runs would earn after each.
    pub best: bool,
    /// Whether to write order lines only.
    pub lines: bool,
    /// Whether to ask after the company's orders in its president's own sheet.
    pub drafted: bool,
}

/// How what a player may do is listed.
#[derive(Clone, Copy)]
pub struct MayForm {
    /// Whether to write order lines only.
    pub lines: bool,
    /// Whether to ask after the lines of the player's own sheet.
    pub drafted: bool,
}

/// Returns the answer to a question as text, in the round that follows the named one, or the last
/// one played if none is named. The error is the fault of the file, `Round` if the named round was
/// not played, why the game has no answer, or `Memory` if an allocation fails.
pub fn answer<P: Progress>(
    alloc: Global,
    file: &[u8],
    after: Option<Round>,
    question: Question,
    progress: &mut P,
) -> Result<Vec<u8>, MovesFault>
    ensures { IfOk result (λ text. IsAnswer file.now after question.entry text.items) }
{
    let sheets = collect(alloc, file)?;
    answer_in(alloc, &sheets, after, question, progress)
}

/// Returns the answer for some sheets.
fn answer_in<P: Progress>(
    alloc: Global,
    sheets: &Sheets,
    after: Option<Round>,
    question: Question,
    progress: &mut P,
) -> Result<Vec<u8>, MovesFault>
    ensures { IfOk result (λ text. IsAnswer sheets.now after question.entry text.items) }
{
    let coming = position_at(alloc, sheets, Moment::after(after))?;
    answer_by(alloc, coming, question, progress)
}

/// Returns the answer for a game before a coming round.
fn answer_by<P: Progress>(
    alloc: Global,
    coming: Position,
    question: Question,
    progress: &mut P,
) -> Result<Vec<u8>, MovesFault>
    requires sound { IsSound coming.history }
    requires seats { coming.history.seats ≡ length (players_of coming.sheets.now) }
    ensures { IfOk result (λ text. Answers coming.entry question.entry text.items) }
{
    match question {
        Question::Lays { company, form } => answer_lays(alloc, coming, company, form, progress),
        Question::May { name, form } => may_text(alloc, coming, name, form),
        Question::Best { company, trains } => answer_best(alloc, coming, company, trains),
        Question::Hex(hex) => Ok(hex_text(alloc, coming, hex)?),
    }
}

/// Returns the best runs of a company at the start of its orders.
fn answer_best(
    alloc: Global,
    coming: Position,
    company: Company,
    trains: &[Kind],
) -> Result<Vec<u8>, MovesFault>
    requires sound { IsSound coming.history }
    requires seats { coming.history.seats ≡ length (players_of coming.sheets.now) }
    ensures { IfOk result (λ text. AreBestOf coming.entry company trains.now text.items) }
{
    president_in(&coming, company)?;
    let orders = orders_in(alloc, coming, company, None)?;
    best_text(alloc, orders.history(), company, trains)
}

/// Returns what a company may lay and place at the start of its orders, or after those drafted.
fn answer_lays<P: Progress>(
    alloc: Global,
    coming: Position,
    company: Company,
    form: LayForm,
    progress: &mut P,
) -> Result<Vec<u8>, MovesFault>
    requires sound { IsSound coming.history }
    requires seats { coming.history.seats ≡ length (players_of coming.sheets.now) }
    ensures { are_lines form ≡ true →
        IfOk result (λ text. AreLaysOf coming.entry company form.drafted text.items) }
{
    let from = coming.history.events().len();
    let president = president_in(&coming, company)?;
    let drafter = drafter_if(&coming, form.drafted, president)?;
    let orders = orders_in(alloc, coming, company, drafter)?;
    if form.lines && !form.best {
        return Ok(line_text(alloc, &orders)?);
    }
    lay_text(alloc, orders, from, form, progress)
}

/// Returns the turn of a company with a president, at the start of its orders in the coming round,
/// or after those of the sheet that is looked at. The error says why it has none there, or is
/// `Memory`.
fn orders_in<'a>(
    alloc: Global,
    coming: Position<'a>,
    company: Company,
    drafter: Option<Seat>,
) -> Result<OrdersAhead<'a>, MovesFault>
    requires sound { IsSound coming.history }
    requires seats { coming.history.seats ≡ length (players_of coming.sheets.now) }
    ensures { IfOk result (AreOrdersIn coming.entry company drafter) }
{
    let round = coming_round(&coming)?;
    let Round::Operating { .. } = round else {
        return Err(MovesFault::Asked(NoAnswer::NoOperatingRound));
    };
    let draft = Draft {
        sheets: coming.sheets,
        drafter,
    };
    let ahead = RoundAhead::open(alloc, coming.history, draft, round)?;
    match ahead.orders_of(company)? {
        Ahead::AtOrders(orders) => Ok(orders),
        Ahead::NoPresident => Err(MovesFault::Asked(NoAnswer::NoPresident)),
        Ahead::NoTurn => Err(MovesFault::Asked(NoAnswer::NoTurn)),
    }
}
