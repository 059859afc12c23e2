//! The one way to rule a line and record the result.
ghost use Rattle.std.specs.Prelude.{◌≡◌, Bool, IfOk, MatchResult, OnOk, Option, Ok, Err, is_none};
ghost use Rattle.events.specs.declared.event.Event.TheVariants as event;
ghost use Rattle.events.specs.declared.ruling.Refusal.{Refusal as RefusalCode};
ghost use Rattle.events.specs.declared.ruling.Ruling.TheVariants.{Faulty};
ghost use Rattle.totals.specs.LookBack.{Game, with_event};
ghost use Rattle.history.specs.Sound.{IsSound};
ghost use Rattle.order_grammar.specs.declared.order.Order.{Order as OrderOfPlay};
ghost use Rattle.sheets.specs.Part.{line_unread, line_with};
ghost use Rattle.sheets.specs.Place.{placed};
ghost use Rattle.tables.specs.declared.seat.Seat.{Seat as SeatNumber};
ghost use Rattle.turns.specs.Ruling.{IsOrderToDo, judged, line_ruling, refusal_under};

use history::{Event, History, PackedLine, PackedRuling, Refusal};
use order_grammar::{Fault, Order};
use sheets::{ReadLine, UnreadLine};
use std::alloc::AllocError;
use tables::Seat;

/// The rules of one kind of line: which orders are allowed in it, and by which rules they are
/// judged.
pub trait Family {
    /// The orders that are allowed in such a line.
    ghost place: { OrderOfPlay → Bool };

    /// The first rule that an order of a seat breaks, given the game so far.
    ghost judgement: { Self → Game → SeatNumber → OrderOfPlay → Option RefusalCode };

    /// What judging requires of the game and the seat.
    ghost may_judge: { Game → SeatNumber → Type 0 };

    /// Returns whether an order is allowed in such a line.
    fn has_place(&self, order: &Order) -> bool
        ensures { result ≡ place order.now };

    /// Returns the first rule that an order of a seat breaks; `None` if it breaks none.
    fn judge(&self, history: &History, seat: Seat, order: &Order) -> Option<Refusal>
        requires { may_judge history.now seat }
        ensures { result ≡ judgement self.now history.now seat order.now };
}

/// Rules a line of a seat's sheet by its own fault, its place, its condition and its rules, in this
/// order, and records the result. Overwrites `order`. Returns whether that order is obeyed; the
/// caller then carries it out. Fails only if allocation fails.
pub fn rule_line<F: Family>(
    family: &F,
    history: &mut History,
    seat: Seat,
    line: UnreadLine,
    order: &mut Order,
) -> Result<bool, AllocError>
    requires judge { F.may_judge history.old seat }
    requires sound { IsSound history.old }
    ensures ruling { OnOk result (history.new
        ≡ with_event history.old (event.Ruled seat line.entry.number
        (line_ruling F.place (F.judgement family.now history.old seat)
        history.old.events (line_unread line.entry)))) }
    ensures order { IfOk result (IsOrderToDo F.place (F.judgement family.now history.old seat)
        history.old.events (line_unread line.entry) order.new) }
    ensures sound { OnOk result (IsSound history.new) }
{
    match placed(family, line, order) {
        Ok(read) => rule_order(family, history, seat, read, order),
        Err(fault) => {
            record_fault(history, seat, line.number, fault)?;
            Ok(false)
        }
    }
}

/// Reads a line and overwrites `order` with its order. The error is its fault; the last one checked
/// is that its order is out of place.
fn placed<F: Family>(family: &F, line: UnreadLine, order: &mut Order) -> Result<ReadLine, Fault>
    ensures placed { MatchResult result
        (λ read. placed F.place (line_unread line.entry).reading ≡ Ok order.new)
        (λ fault. placed F.place (line_unread line.entry).reading ≡ Err fault) }
    ensures read { IfOk result (λ read. line_unread line.entry ≡ line_with read order.new) }
{
    let read = line.read_into(order)?;
    if family.has_place(order) {
        Ok(read)
    } else {
        Err(Fault::OutOfPlace)
    }
}

/// Rules an order that is allowed in a line by the line's condition and the rules of its family,
/// and records the result. Returns whether it is obeyed; the caller then carries it out. Fails only
/// if allocation fails.
pub fn rule_order<F: Family>(
    family: &F,
    history: &mut History,
    seat: Seat,
    line: ReadLine,
    order: &Order,
) -> Result<bool, AllocError>
    requires judge { F.may_judge history.old seat }
    requires sound { IsSound history.old }
    ensures ruling { OnOk result (history.new
        ≡ with_event history.old (event.Ruled seat line.number
        (judged line.condition order.now
        (refusal_under history.old.events line.condition
        (F.judgement family.now history.old seat) order.now)))) }
    ensures obeyed { IfOk result (λ obeyed. obeyed
        ≡ is_none (refusal_under history.old.events line.condition
        (F.judgement family.now history.old seat) order.now)) }
    ensures sound { OnOk result (IsSound history.new) }
{
    let broken = judge_under(family, history, seat, line, order);
    record(history, seat, line, order, broken)
}

/// Returns the first rule that an order of a seat in a line breaks; `None` if it breaks none. Its
/// condition is checked before the rules of its family.
fn judge_under<F: Family>(
    family: &F,
    history: &History,
    seat: Seat,
    line: ReadLine,
    order: &Order,
) -> Option<Refusal>
    requires { F.may_judge history.now seat }
    ensures { result ≡ refusal_under history.now.events line.condition
        (F.judgement family.now history.now seat) order.now }
{
    if history.is_met(line.condition.as_ref()) {
        family.judge(history, seat, order)
    } else {
        Some(Refusal::Condition)
    }
}

/// Records the result of a line's order, with its condition if it has one, given the first rule
/// that it breaks, if any. Returns whether it is obeyed. Fails only if allocation fails.
pub fn record(
    history: &mut History,
    seat: Seat,
    line: ReadLine,
    order: &Order,
    broken: Option<Refusal>,
) -> Result<bool, AllocError>
    requires { IsSound history.old }
    ensures ruling { OnOk result (history.new
        ≡ with_event history.old (event.Ruled seat line.number
        (judged line.condition order.now broken))) }
    ensures obeyed { IfOk result (λ obeyed. obeyed ≡ is_none broken) }
    ensures sound { OnOk result (IsSound history.new) }
{
    let packed = history.pack(line.condition.as_ref(), order)?;
    record_packed(history, seat, line.number, packed, broken)
}

/// Records the result of the packed order of the line with this number, given the first rule that
/// it breaks, if any. Returns whether it is obeyed. Fails only if allocation fails.
pub fn record_packed(
    history: &mut History,
    seat: Seat,
    line: u32,
    order: PackedLine,
    broken: Option<Refusal>,
) -> Result<bool, AllocError>
    requires { IsSound history.old }
    ensures ruling { OnOk result (history.new
        ≡ with_event history.old (event.Ruled seat line
        (judged order.condition order.order broken))) }
    ensures obeyed { IfOk result (λ obeyed. obeyed ≡ is_none broken) }
    ensures sound { OnOk result (IsSound history.new) }
{
    let obeyed = broken.is_none();
    let ruling = match broken {
        Some(rule) => PackedRuling::refused(rule, order),
        None => PackedRuling::obeyed(order),
    };
    history.record_event(Event::Ruled { seat, line, ruling })?;
    Ok(obeyed)
}

/// Records the fault of the line with this number. Fails only if allocation fails.
pub fn record_fault(
    history: &mut History,
    seat: Seat,
    line: u32,
    fault: Fault,
) -> Result<(), AllocError>
    requires { IsSound history.old }
    ensures ruling { OnOk result (history.new
        ≡ with_event history.old (event.Ruled seat line (Faulty fault))) }
    ensures sound { OnOk result (IsSound history.new) }
{
    let ruling = PackedRuling::faulty(fault);
    history.record_event(Event::Ruled { seat, line, ruling })?;
    Ok(())
}
