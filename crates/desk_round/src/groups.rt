//! The events of a round in groups: each belongs to the turn of a company, of a player, or to none.
ghost use Rattle.std.specs.Prelude.{◌≡◌, ◌+◌, ◌<◌, ◌^◌, ◌++◌, IfOk, OnOk};
ghost use Rattle.desk_round.specs.Groups.{any_group, grouped_then, groups_of, is_pass, joined, pass_of};
ghost use Rattle.desk_round.specs.Groups.{same_whose, whose_behind, whose_line, whose_now, whose_place};
ghost use Rattle.desk_round.specs.Groups.{whose_turn, with_event};

use desk_why::{LinePlace, SheetLine, find_line};
use history::Event;
use std::alloc::{AllocError, Global};
use tables::{Company, Round, Seat, same_round};

/// Whose turn some events belong to.
#[derive(Clone, Copy)]
pub(crate) enum Whose {
    /// A company's.
    Company(Company),
    /// A player's.
    Seat(Seat),
    /// No turn: events before or after the turns of a round.
    Nobody,
}

/// Consecutive events of a round.
#[derive(Clone, Copy)]
pub(crate) struct Group {
    /// Whose turn they belong to.
    pub(crate) whose: Whose,
    /// The number of events before them.
    pub(crate) from: usize,
    /// The number of events up to the last of them.
    pub(crate) to: usize,
}

impl Group {
    /// Returns the seat whose turn it is, if the turn is only a pass, given the events of the game.
    pub(crate) fn pass(&self, events: &[Event]) -> Option<Seat>
        ensures { result ≡ pass_of self.now events.now }
    {
        if self.to.saturating_sub(self.from) != 1 {
            return None;
        }
        match events.get(self.from) {
            Some(Event::Passes(seat)) => Some(*seat),
            _ => None,
        }
    }
}

/// How far the events of a game are grouped.
#[derive(Clone, Copy)]
pub(crate) struct Grouping {
    /// Whether the round is in hand.
    within: bool,
    /// Whether the event before is a pass of the round.
    has_passed: bool,
    /// The group that goes on, if one does.
    group: Option<Group>,
}

/// What an event brings: the group that ends before it, if one does, and how far it has come behind
/// it.
#[derive(Clone, Copy)]
pub(crate) struct Grouped {
    ended: Option<Group>,
    now: Grouping,
}

/// Returns the groups of the events of a round, without the event that begins it. Fails only if
/// allocation fails.
pub(crate) fn groups_of(
    alloc: Global,
    lines: &[SheetLine],
    events: &[Event],
    round: Round,
) -> Result<Vec<Group>, AllocError>
    ensures { IfOk result (λ groups. groups.items ≡ groups_of lines.now round events.now) }
{
    let mut groups = Vec::new(alloc);
    let mut now = Grouping {
        within: false,
        has_passed: false,
        group: None,
    };
    for (passed, event) in events.iter().enumerate() {
        let grouped = now.then(lines, round, passed, event);
        push_any(&mut groups, grouped.ended)?;
        now = grouped.now;
    }
    push_any(&mut groups, now.group)?;
    Ok(groups)
}

impl Grouping {
    /// Returns what the next event brings, before which this many passed.
    fn then(self, lines: &[SheetLine], round: Round, passed: usize, event: &Event) -> Grouped
        requires { passed + 1 < 2 ^ 64 }
        ensures { result ≡ grouped_then lines.now round self passed event.now }
    {
        match event.round() {
            Some(begun) => Grouped {
                ended: None,
                now: Grouping {
                    within: same_round(begun, round),
                    ..self
                },
            },
            None => self.with_event(lines, passed, event),
        }
    }

    /// Returns what an event brings that begins no round.
    fn with_event(self, lines: &[SheetLine], passed: usize, event: &Event) -> Grouped
        requires { passed + 1 < 2 ^ 64 }
        ensures { result ≡ with_event lines.now self passed event.now }
    {
        if !self.within {
            return Grouped {
                ended: None,
                now: self,
            };
        }
        let whose = whose_turn(lines, whose_now(self.group), self.has_passed, event);
        joined(self.group, whose, passed, is_pass(event))
    }
}

/// Returns what an event of this turn brings, where this group goes on, if one does. It is a pass
/// or not.
fn joined(last: Option<Group>, whose: Whose, passed: usize, is_pass: bool) -> Grouped
    requires { passed + 1 < 2 ^ 64 }
    ensures { result ≡ joined last whose passed is_pass }
{
    let to = passed + 1;
    let (ended, group) = match last {
        Some(group) if same_whose(group.whose, whose) => (None, Group { to, ..group }),
        before => (
            before,
            Group {
                whose,
                from: passed,
                to,
            },
        ),
    };
    Grouped {
        ended,
        now: Grouping {
            within: true,
            has_passed: is_pass,
            group: Some(group),
        },
    }
}

/// Returns whether an event is a pass.
fn is_pass(event: &Event) -> bool
    ensures { result ≡ is_pass event.now }
{
    matches!(event, Event::Passes(_))
}

/// Returns whose turn a group is of, if there is one.
fn whose_now(last: Option<Group>) -> Whose
    ensures { result ≡ whose_now last }
{
    match last {
        Some(group) => group.whose,
        None => Whose::Nobody,
    }
}

/// Returns whether two turns are of the same party.
pub(crate) fn same_whose(one: Whose, other: Whose) -> bool
    ensures { result ≡ same_whose one other }
{
    match (one, other) {
        (Whose::Company(one), Whose::Company(other)) => one == other,
        (Whose::Seat(one), Whose::Seat(other)) => one == other,
        (Whose::Nobody, Whose::Nobody) => true,
        _ => false,
    }
}

/// Adds a group, if there is one.
fn push_any(groups: &mut Vec<Group>, group: Option<Group>) -> Result<(), AllocError>
    ensures { OnOk result (groups.new.items ≡ groups.old.items ++ any_group group) }
{
    if let Some(group) = group {
        groups.push(group)?;
    }
    Ok(())
}

/// Returns whose turn a line of a sheet is of: the company's among whose orders it is, or else its
/// player's.
fn whose_line(lines: &[SheetLine], seat: Seat, number: u32) -> Whose
    ensures { result ≡ whose_line lines.now seat number }
{
    match find_line(lines, seat, number) {
        Some(line) => whose_place(seat, line.place),
        None => Whose::Seat(seat),
    }
}

/// Returns whose turn a line at this place of the sheet of a seat is of.
fn whose_place(seat: Seat, place: LinePlace) -> Whose
    ensures { result ≡ whose_place seat place }
{
    match place.company() {
        Some(company) => Whose::Company(company),
        None => Whose::Seat(seat),
    }
}

/// Returns whose turn an event belongs to. `now` is whose turn the event before it belongs to, and
/// `has_passed` whether that event is a pass.
fn whose_turn(lines: &[SheetLine], now: Whose, has_passed: bool, event: &Event) -> Whose
    ensures { result ≡ whose_turn lines.now now has_passed event.now }
{
    match event {
        Event::Ruled { seat, line, .. } => whose_line(lines, *seat, *line),
        Event::Passes(seat) => Whose::Seat(*seat),
        Event::Revenue { .. } | Event::Price { .. } | Event::Left { .. } => Whose::Nobody,
        Event::Home { company, .. }
        | Event::Laid { company, .. }
        | Event::Token { company, .. }
        | Event::Withheld { company, .. }
        | Event::Runs { company, .. }
        | Event::Forced(company) => Whose::Company(*company),
        _ => whose_behind(now, has_passed),
    }
}

/// Returns whose turn an event belongs to that begins no turn.
fn whose_behind(now: Whose, has_passed: bool) -> Whose
    ensures { result ≡ whose_behind now has_passed }
{
    if has_passed { Whose::Nobody } else { now }
}
