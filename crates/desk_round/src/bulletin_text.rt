//! The turns of a round for its players: whose turn it was, what each had before and after, and
//! what each line led to.
ghost use Rattle.std.specs.Prelude.{◌≡◌, IfErr, OnOk, true};
ghost use Rattle.desk_base.specs.Played.{was_played};
ghost use Rattle.desk_round.specs.RoundPart.{HasNoTurns};

use crate::changes::{push_change, push_changes};
use crate::groups::{Group, Whose, groups_of};
use crate::left_lines::{Left, Presided, ruled_in};
use crate::train_runs::push_ran;
use desk_base::Piece::{Bytes, Column, Cut, Number, Right, Words};
use desk_base::{
    DeskFault, Piece, fill, push, push_wrapped, push_wrapped_lines, view_behind, was_played, who,
};
use desk_why::{FAULTY_COLUMNS, Ruled, SheetLine, find_line, lines_of, push_rule};
use history::{Event, GameView, History, Holder, PackedRuling, Ruling, Verdict, Walk};
use order_grammar::{print_condition, print_order};
use report::{name, push_event};
use sheets::Sheets;
use std::alloc::{AllocError, Global};
use tables::{Amount, Company, Money, Round, Seat};

/// The column of what a line led to.
pub(crate) const BROUGHT: usize = 6;

/// The column after the name of whose turn it was.
const NAMED: usize = 17;

/// A round of a game.
#[derive(Clone, Copy)]
struct Telling<'a> {
    alloc: Global,
    sheets: &'a Sheets<'a>,
    history: &'a History,
    round: Round,
    /// The lines of the sheets for it.
    lines: &'a [SheetLine<'a>],
    /// Whether refused lines and the stops of runs are left out.
    is_short: bool,
}

/// How much of a round has been written.
#[derive(Drop)]
struct Course<'a> {
    /// The game before the current turn.
    before: Walk<'a>,
    /// The game at the current event.
    now: Walk<'a>,
    /// The companies that have had a turn, with their presidents then.
    presided: Vec<Presided>,
    /// The names of those who have just passed one after another, separated by commas.
    passed: Vec<u8>,
}

/// Returns the turns of a round of the game of some sheets as their players read them, in lines of
/// at most 80 columns. Later rounds do not change the text. Fails with `Round` if the round was not
/// played, and with `Memory` if allocation fails.
pub fn turns(
    alloc: Global,
    sheets: &Sheets,
    history: &History,
    round: Round,
) -> Result<Vec<u8>, DeskFault>
    ensures played { OnOk result (was_played history.now.events round ≡ true) }
    ensures fault { IfErr result (HasNoTurns history.now.events round) }
{
    turns_by(alloc, sheets, history, round, false)
}

/// Returns the turns of a round in the same way, but without the lines that were refused and the
/// stops of runs. The errors are those of `turns`.
pub fn turns_in_short(
    alloc: Global,
    sheets: &Sheets,
    history: &History,
    round: Round,
) -> Result<Vec<u8>, DeskFault>
    ensures played { OnOk result (was_played history.now.events round ≡ true) }
    ensures fault { IfErr result (HasNoTurns history.now.events round) }
{
    turns_by(alloc, sheets, history, round, true)
}

/// Returns the turns of a round, in short or not.
fn turns_by(
    alloc: Global,
    sheets: &Sheets,
    history: &History,
    round: Round,
    is_short: bool,
) -> Result<Vec<u8>, DeskFault>
    ensures played { OnOk result (was_played history.now.events round ≡ true) }
    ensures fault { IfErr result (HasNoTurns history.now.events round) }
{
    if !was_played(history.events(), round) {
        return Err(DeskFault::Round);
    }
    let lines = lines_of(alloc, sheets, round)?;
    let telling = Telling {
        alloc,
        sheets,
        history,
        round,
        lines: lines.as_slice(),
        is_short,
    };
    Ok(told(telling)?)
}

/// Returns the turns of a round.
fn told(telling: Telling) -> Result<Vec<u8>, AllocError> {
    let mut out = Vec::new(telling.alloc);
    fill(&mut out, "ROUND %\n", &[Piece::Round(telling.round)])?;
    telling.push_groups(&mut out)?;
    Ok(out)
}

impl Telling<'_> {
    /// Adds the groups of a round's events. Consecutive turns that are only passes share a line.
    fn push_groups(&self, out: &mut Vec<u8>) -> Result<(), AllocError> {
        let events = self.history.events();
        let groups = groups_of(self.alloc, self.lines, events, self.round)?;
        let mut course = Course {
            before: Walk::along(events),
            now: Walk::along(events),
            presided: Vec::new(self.alloc),
            passed: Vec::new(self.alloc),
        };
        for group in &groups {
            if let Some(seat) = group.pass(events) {
                self.push_pass(&mut course.passed, seat)?;
            } else {
                push_passes(out, &mut course.passed)?;
                self.push_group(out, &mut course, group)?;
            }
        }
        push_passes(out, &mut course.passed)
    }

    /// Adds a player to those who have just passed.
    fn push_pass(&self, passed: &mut Vec<u8>, seat: Seat) -> Result<(), AllocError> {
        let comma = if passed.is_empty() { "" } else { ", " };
        push(passed, &[Words(comma), Bytes(name(self.sheets, seat))])
    }

    /// Adds a group: whose turn it is, with what that party had before and after, its events, and
    /// whose other cash changed.
    fn push_group(
        &self,
        out: &mut Vec<u8>,
        course: &mut Course,
        group: &Group,
    ) -> Result<(), AllocError> {
        let mut told = Vec::new(self.alloc);
        self.push_events(&mut told, course, group)?;
        let (sheets, seats) = (self.sheets, self.history.seats());
        let before = view_behind(&mut course.before, group.from, seats);
        let after = view_behind(&mut course.now, group.to, seats);
        if let Whose::Company(company) = group.whose {
            let president = before.president(company);
            course.presided.push(Presided { company, president })?;
        }
        self.push_whose(out, &after, group.whose)?;
        push_change(out, group.whose, &before, &after)?;
        fill(out, "\n%", &[Bytes(told.as_slice())])?;
        push_changes(self.alloc, out, sheets, group.whose, &before, &after)
    }

    /// Adds the events of a group.
    fn push_events(
        &self,
        out: &mut Vec<u8>,
        course: &mut Course,
        group: &Group,
    ) -> Result<(), AllocError> {
        let events = self.history.events();
        let mut dividends = Vec::new(self.alloc);
        for passed in group.from..group.to {
            if let Some(event) = events.get(passed) {
                self.push_event(out, course, passed, event, &mut dividends)?;
            }
        }
        self.push_dividends(out, &mut dividends)
    }

    /// Adds whose turn a group belongs to, on a new line.
    fn push_whose(
        &self,
        out: &mut Vec<u8>,
        view: &GameView,
        whose: Whose,
    ) -> Result<(), AllocError> {
        match whose {
            Whose::Nobody => fill(out, "\nTHE BANK", &[]),
            Whose::Seat(seat) => fill(out, "\n%", &[Bytes(name(self.sheets, seat))]),
            Whose::Company(company) => {
                let president = who(self.sheets, view.president(company));
                fill(out, "\n% (%)", &[Words(company.code()), president])
            }
        }
    }

    /// Adds an event. Dividends are kept, so that they share a line.
    fn push_event(
        &self,
        out: &mut Vec<u8>,
        course: &mut Course,
        passed: usize,
        event: &Event,
        dividends: &mut Vec<u8>,
    ) -> Result<(), AllocError> {
        if let Event::Dividend { holder, amount, .. } = event {
            return self.push_dividend(dividends, *holder, *amount);
        }
        self.push_dividends(out, dividends)?;
        if let Event::Ruled { seat, line, ruling } = event {
            let view = view_behind(&mut course.now, passed, self.history.seats());
            return self.push_ruled(out, &view, *seat, *line, ruling);
        }
        self.push_reported(out, event)?;
        match event {
            Event::Runs { company, .. } if !self.is_short => {
                let view = view_behind(&mut course.now, passed, self.history.seats());
                self.push_stops(out, &view, *company)
            }
            Event::Left { seat, lines } => self.push_left(out, course, *seat, *lines),
            _ => Ok(()),
        }
    }

    /// Adds the line that an event has in the report.
    fn push_reported(&self, out: &mut Vec<u8>, event: &Event) -> Result<(), AllocError> {
        let mut line = Vec::new(self.alloc);
        push_event(&mut line, self.sheets, event)?;
        push(out, &[Column(BROUGHT)])?;
        push_wrapped(out, BROUGHT, line.as_slice().trim_ascii())
    }

    /// Adds the lines of a sheet that were not reached, this many, and why not.
    fn push_left(
        &self,
        out: &mut Vec<u8>,
        course: &Course,
        seat: Seat,
        count: u32,
    ) -> Result<(), AllocError> {
        let events = self.history.events();
        let ruled = ruled_in(self.alloc, events, self.round, seat)?;
        let left = Left {
            alloc: self.alloc,
            sheets: self.sheets,
            lines: self.lines,
            ruled: ruled.as_slice(),
            presided: course.presided.as_slice(),
            seat,
        };
        left.push_lines(out, count)
    }

    /// Adds a holder's dividend to those that share a line.
    fn push_dividend(
        &self,
        dividends: &mut Vec<u8>,
        holder: Holder,
        amount: Amount,
    ) -> Result<(), AllocError> {
        let comma = if dividends.is_empty() { "" } else { ", " };
        let amount = Number(Money::from(amount));
        let holder = match holder {
            Holder::Seat(seat) => Bytes(name(self.sheets, seat)),
            Holder::Company(company) => Words(company.code()),
        };
        push(dividends, &[Words(comma), holder, Words(" "), amount])
    }

    /// Adds the runs that a company has made by the line that was ruled last, stop by stop.
    fn push_stops(
        &self,
        out: &mut Vec<u8>,
        view: &GameView,
        company: Company,
    ) -> Result<(), AllocError> {
        let mut text = Vec::new(self.alloc);
        if let Some(Event::Ruled { ruling, .. }) = last_ruled(view.events()) {
            push_ran(self.alloc, &mut text, view, company, &ruling.ruling())?;
        }
        push_wrapped_lines(out, BROUGHT, text.as_slice())
    }

    /// Adds the kept dividends on one line, and clears them.
    fn push_dividends(&self, out: &mut Vec<u8>, kept: &mut Vec<u8>) -> Result<(), AllocError> {
        if kept.is_empty() {
            return Ok(());
        }
        fill(out, "%DIVIDENDS ", &[Column(BROUGHT)])?;
        push_wrapped(out, BROUGHT + 4, kept.as_slice())?;
        kept.clear();
        Ok(())
    }

    /// Adds a ruled line of a sheet, and the rule that it broke if it was refused.
    fn push_ruled(
        &self,
        out: &mut Vec<u8>,
        view: &GameView,
        seat: Seat,
        number: u32,
        ruling: &PackedRuling,
    ) -> Result<(), AllocError> {
        let is_obeyed = matches!(ruling.verdict(), Verdict::Obeyed);
        if self.is_short && !is_obeyed {
            return Ok(());
        }
        let mut shown = Vec::new(self.alloc);
        self.push_line(&mut shown, seat, number, &ruling.ruling())?;
        push(out, &[Right(4, Money::from(number)), Words("  ")])?;
        push_wrapped(out, BROUGHT + 4, shown.as_slice())?;
        if is_obeyed {
            return Ok(());
        }
        let ruled = Ruled {
            sheets: self.sheets,
            lines: self.lines,
            view,
            round: self.round,
            seat,
            place: None,
        };
        let mut why = Vec::new(self.alloc);
        push_rule(self.alloc, &mut why, ruled, number, ruling)?;
        fill(out, "%REFUSED ", &[Column(BROUGHT)])?;
        push_wrapped(out, BROUGHT + 4, why.as_slice())
    }

    /// Adds a line of a sheet: its order as the report prints it, or the part of a line with a
    /// fault that is shown.
    fn push_line(
        &self,
        out: &mut Vec<u8>,
        seat: Seat,
        number: u32,
        ruling: &Ruling,
    ) -> Result<(), AllocError> {
        match ruling {
            Ruling::Obeyed { condition, order }
            | Ruling::Refused {
                condition,
                order,
                ..
            } => {
                print_condition(out, condition.as_ref())?;
                print_order(out, order)
            }
            Ruling::Faulty(_) => match find_line(self.lines, seat, number) {
                Some(line) => push(out, &[Cut(line.text, FAULTY_COLUMNS)]),
                None => Ok(()),
            },
        }
    }
}

/// Adds on one line those who have just passed, and clears their list.
fn push_passes(out: &mut Vec<u8>, passed: &mut Vec<u8>) -> Result<(), AllocError> {
    if passed.is_empty() {
        return Ok(());
    }
    fill(out, "\nPASSED%", &[Column(NAMED)])?;
    push_wrapped(out, NAMED, passed.as_slice())?;
    passed.clear();
    Ok(())
}

/// Returns the last event that rules a line; `None` if none does.
fn last_ruled(events: &[Event]) -> Option<&Event> {
    events
        .iter()
        .rev()
        .find(|event| matches!(event, Event::Ruled { .. }))
}
