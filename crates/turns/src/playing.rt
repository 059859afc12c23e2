//! A whole round of turns, from its ROUND event through the turns of the seats to the count of
//! lines that were not reached.
ghost use Rattle.std.specs.Prelude.{◌≡◌, ◌<◌, ◌≤◌, ◌++◌, [], All, IfOk, OnOk, length, map};
ghost use Rattle.std.specs.List.{range_with_len};
ghost use Rattle.events.specs.declared.event.Event.TheVariants as event;
ghost use Rattle.totals.specs.LookBack.{with_event, with_events};
ghost use Rattle.history.specs.Games.{IsGame};
ghost use Rattle.history.specs.Record.{left_recorded};
ghost use Rattle.history.specs.Sound.{IsSound};
ghost use Rattle.sheets.specs.File.{players_of};
ghost use Rattle.sheets.specs.Part.{written_turns_of};
ghost use Rattle.sheets.specs.Taken.{after_each};
ghost use Rattle.tables.specs.Seat.{left_of, seat_at};
ghost use Rattle.tables.specs.Turns.{after_turn};
ghost use Rattle.turns.specs.RoundOfTurns.{IsRoundOfTurns, TurnsLead, after_standing, written_turns_for, in_play};
ghost use Rattle.turns.specs.RoundOfTurns.{left_from, turns_of};
ghost use Rattle.turns.specs.Small.{IsReady, PartsAreSmall};

use crate::rules::TurnRules;
use crate::turn::take_turn;
use arrayvec::ArrayVec;
use history::{Event, History};
use order_grammar::Order;
use sheets::{PartsLeft, Sheets};
use std::alloc::AllocError;
use tables::{PLAYERS_MOST, Round, Seat};

/// The rest of each seat's sheet, by seat.
type Unruled<'a> = ArrayVec<PartsLeft<'a>, PLAYERS_MOST>;

/// Plays a round of turns with the sheets for it; a seat without a sheet passes. The list of events
/// must be sound, its seats must be those of the sheets' players, and the round must be one that
/// may begin. Fails only if allocation fails, and then drops the game.
pub fn play_round<T: TurnRules>(
    rules: &T,
    mut history: History,
    sheets: &Sheets,
    round: Round,
) -> Result<History, AllocError>
    requires sound { IsSound history }
    requires seats { history.seats ≡ length (players_of sheets.now) }
    requires may_begin { T.may_begin history.events }
    ensures round { IfOk result (λ new. IsRoundOfTurns T.rules sheets.now round history new) }
    ensures underway { IfOk result T.holds }
{
    play_whole(rules, &mut history, sheets, round)?;
    Ok(history)
}

/// Plays a round of turns in place.
fn play_whole<T: TurnRules>(
    rules: &T,
    history: &mut History,
    sheets: &Sheets,
    round: Round,
) -> Result<(), AllocError>
    requires sound { IsSound history.old }
    requires seats { history.old.seats ≡ length (players_of sheets.now) }
    requires may_begin { T.may_begin history.old.events }
    ensures round { OnOk result
        (IsRoundOfTurns T.rules sheets.now round history.old history.new) }
    ensures underway { OnOk result (T.holds history.new) }
{
    // For the proof only: the seats are at most six.
    let _few = sheets.seats();
    let first = history.now().priority();
    begin(rules, history, round)?;
    let mut unruled = rule_all_standing(rules, history, sheets, round)?;
    let unruled = unruled.as_mut_slice();
    take_turns(rules, history, first.index(), unruled)?;
    rules.close(history)?;
    record_all_left(rules, history, unruled)?;
    Ok(())
}

/// Records that the round begins. Fails only if allocation fails.
pub fn begin<T: TurnRules>(
    _rules: &T,
    history: &mut History,
    round: Round,
) -> Result<(), AllocError>
    requires game { IsGame history.old }
    requires may_begin { T.may_begin history.old.events }
    ensures event { OnOk result (history.new ≡ with_event history.old (event.Round round)) }
    ensures underway { OnOk result (T.holds history.new) }
{
    history.record_event(Event::Round(round))?;
    Ok(())
}

/// Rules the standing lines of each sheet, seat by seat. Returns what is left.
fn rule_all_standing<'a, T: TurnRules>(
    rules: &T,
    history: &mut History,
    sheets: &Sheets<'a>,
    round: Round,
) -> Result<Unruled<'a>, AllocError>
    requires { T.holds history.old }
    ensures after { OnOk result (history.new ≡ with_events history.old
        (after_standing T.rules sheets.now round history.old.events
        (range_with_len 0 (length (players_of sheets.now))))) }
    ensures left { IfOk result (λ unruled. map written_turns_of unruled.items
        ≡ written_turns_for (length (players_of sheets.now)) sheets.now round) }
    ensures each { IfOk result (λ unruled. length unruled.items ≡ length (players_of sheets.now)) }
    ensures some { IfOk result (λ unruled. 0 < length unruled.items) }
    ensures ready { IfOk result (λ unruled. All IsReady unruled.items) }
    ensures underway { OnOk result (T.holds history.new) }
{
    let mut unruled = Unruled::new();
    for seat in 0..sheets.seats() {
        let seat = Seat::at(seat);
        let mut sheet = sheets.parts(seat, round);
        rule_standing(rules, history, seat, &mut sheet)?;
        unruled.push(sheet);
    }
    Ok(unruled)
}

/// Rules the standing lines of a seat's sheet, the lines before its first written turn. Fails only
/// if allocation fails.
pub fn rule_standing<T: TurnRules>(
    rules: &T,
    history: &mut History,
    seat: Seat,
    sheet: &mut PartsLeft,
) -> Result<(), AllocError>
    requires small { PartsAreSmall sheet.old }
    requires underway { T.holds history.old }
    ensures after { OnOk result (history.new ≡ with_events history.old
        (after_each (T.rules.standing seat) history.old.events sheet.old.before)) }
    ensures left { OnOk result (sheet.new ≡ record { before = []; opened = sheet.old.opened }) }
    ensures underway { OnOk result (T.holds history.new) }
{
    let mut order = Order::Blank;
    while let Some(line) = sheet.take_line() {
        rules.rule_standing_line(history, seat, line, &mut order)?;
    }
    Ok(())
}

/// Takes turns to the left of a seat until they are over.
fn take_turns<T: TurnRules>(
    rules: &T,
    history: &mut History,
    first: usize,
    unruled: &mut [PartsLeft],
) -> Result<(), AllocError>
    requires first { first < length unruled.old }
    requires few { length unruled.old ≤ 6 }
    requires seats { history.old.seats ≡ length unruled.old }
    requires ready { All IsReady unruled.old }
    requires underway { T.holds history.old }
    ensures seats { OnOk result (history.new.seats ≡ history.old.seats) }
    ensures turns { OnOk result (TurnsLead T.rules history.old.seats
        (in_play history.old.events first 0 (map written_turns_of unruled.old))
        history.new.events (map written_turns_of unruled.new)) }
    ensures ready { OnOk result (All IsReady unruled.new) }
    ensures underway { OnOk result (T.holds history.new) }
{
    let seats = unruled.len();
    let mut seat = first;
    let mut passes = 0;
    while passes < seats && !rules.is_over(history) {
        passes = play_turn(rules, history, unruled, seat, passes)?;
        seat = Seat::at(seat).left(seats).index();
    }
    Ok(())
}

/// Plays the turn of a seat, which passes if it does not act. Returns how many have passed in
/// succession.
fn play_turn<T: TurnRules>(
    rules: &T,
    history: &mut History,
    unruled: &mut [PartsLeft],
    seat: usize,
    passes: usize,
) -> Result<usize, AllocError>
    requires seat { seat < length unruled.old }
    requires few { length unruled.old ≤ 6 }
    requires seats { history.old.seats ≡ length unruled.old }
    requires passes { passes < length unruled.old }
    requires ready { All IsReady unruled.old }
    requires underway { T.holds history.old }
    ensures seats { OnOk result (history.new.seats ≡ history.old.seats) }
    ensures each { OnOk result (length unruled.new ≡ length unruled.old) }
    ensures turn { IfOk result (λ after.
        in_play history.new.events (left_of history.old.seats (seat_at seat)).0 after
        (map written_turns_of unruled.new)
        ≡ after_turn (turns_of T.rules history.old.seats)
        (in_play history.old.events seat passes (map written_turns_of unruled.old))) }
    ensures passes { IfOk result (λ after. after ≤ length unruled.old) }
    ensures ready { OnOk result (All IsReady unruled.new) }
    ensures underway { OnOk result (T.holds history.new) }
{
    if take_turn(rules, history, Seat::at(seat), &mut unruled[seat])? {
        return Ok(0);
    }
    pass(rules, history, Seat::at(seat))?;
    Ok(passes + 1)
}

/// Records that a seat passes. Fails only if allocation fails.
pub fn pass<T: TurnRules>(_rules: &T, history: &mut History, seat: Seat) -> Result<(), AllocError>
    requires { T.holds history.old }
    ensures event { OnOk result (history.new ≡ with_event history.old (event.Passes seat)) }
    ensures underway { OnOk result (T.holds history.new) }
{
    history.record_event(Event::Passes(seat))?;
    Ok(())
}

/// Records how many lines of each sheet were not reached; heads of written turns do not count.
fn record_all_left<T: TurnRules>(
    rules: &T,
    history: &mut History,
    unruled: &[PartsLeft],
) -> Result<(), AllocError>
    requires few { length unruled.now ≤ 6 }
    requires ready { All IsReady unruled.now }
    requires underway { T.holds history.old }
    ensures after { OnOk result (history.new ≡ with_events history.old
        (history.old.events ++ left_from 0 (map written_turns_of unruled.now))) }
    ensures underway { OnOk result (T.holds history.new) }
{
    for (seat, sheet) in unruled.iter().enumerate() {
        record_seat_left(rules, history, Seat::at(seat), sheet.count())?;
    }
    Ok(())
}

/// Records how many lines of a seat's sheet were not reached.
fn record_seat_left<T: TurnRules>(
    _rules: &T,
    history: &mut History,
    seat: Seat,
    lines: u32,
) -> Result<(), AllocError>
    requires { T.holds history.old }
    ensures recorded { OnOk result (history.new ≡ left_recorded seat lines history.old) }
    ensures underway { OnOk result (T.holds history.new) }
{
    history.record_left(seat, lines)?;
    Ok(())
}
