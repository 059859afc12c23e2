//! The orders of a sheet, with what is above each line, and the game as the round of the sheet
//! begins.

use desk_mending::Written;
use desk_why::{LinePlace, SheetLine};
use history::Event;
use order_grammar::{Fault, PlayOrder};
use std::alloc::{AllocError, Global};
use tables::{Round, Seat};

/// A line of a sheet, with its order of play, and what is above it.
#[derive(Clone, Copy)]
pub(crate) struct OrderLine {
    /// Its number in the sheet, from 1.
    pub(crate) number: u32,
    pub(crate) place: LinePlace,
    /// Its order; `None` if it has no order of play, or one with a run.
    pub(crate) order: Option<PlayOrder>,
    /// Its fault, if it has one.
    pub(crate) fault: Option<Fault>,
    /// Whether it begins a turn or a company's orders.
    pub(crate) is_head: bool,
    /// How many such orders are above it.
    above: usize,
    /// The number of the turn in which it is, from 1; 0 if it is in none.
    turn: u32,
}

/// The orders of play of a sheet, whatever their conditions.
#[derive(Drop)]
pub(crate) struct SheetOrders {
    orders: Vec<PlayOrder>,
    /// The lines, in their order: line 1 comes first.
    pub(crate) lines: Vec<OrderLine>,
}

impl SheetOrders {
    /// Returns those of the sheet of a seat, among the lines of all sheets. Fails only if
    /// allocation fails.
    pub(crate) fn of(
        alloc: Global,
        lines: &[SheetLine],
        seat: Seat,
    ) -> Result<SheetOrders, AllocError> {
        let mut sheet = SheetOrders {
            orders: Vec::new(alloc),
            lines: Vec::new(alloc),
        };
        let mut turn: u32 = 0;
        for line in lines {
            if line.is_of(seat) {
                if line.is_head {
                    turn = turn.saturating_add(1);
                }
                sheet.push(line, turn)?;
            }
        }
        Ok(sheet)
    }

    /// Adds the next line of the sheet.
    fn push(&mut self, line: &SheetLine, turn: u32) -> Result<(), AllocError> {
        let (order, fault) = match line.play_order() {
            Ok(order) => (order, None),
            Err(fault) => (None, Some(fault)),
        };
        self.lines.push(OrderLine {
            number: line.number(),
            place: line.place,
            order,
            fault,
            is_head: line.is_head,
            above: self.orders.len(),
            turn,
        })?;
        if let Some(order) = order {
            self.orders.push(order)?;
        }
        Ok(())
    }

    /// Returns the lines below a line.
    pub(crate) fn below(&self, line: OrderLine) -> &[OrderLine] {
        self.lines.get(line.number as usize..).unwrap_or(&[])
    }

    /// Returns the line with a number, if it is kept.
    pub(crate) fn at(&self, number: u32) -> Option<OrderLine> {
        let place = (number as usize).checked_sub(1)?;
        self.lines.get(place).copied()
    }

    /// Returns what the sheet orders beside a line.
    pub(crate) fn beside(&self, line: OrderLine) -> Written<'_> {
        let sheet = self.orders.as_slice();
        Written {
            above: sheet.get(..line.above).unwrap_or(&[]),
            sheet,
            turn: line.turn,
        }
    }
}

/// Returns how many events there are until a round has begun and the privates have paid; all of
/// them if it did not begin.
pub(crate) fn start_of(events: &[Event], round: Round) -> usize {
    let mut has_begun = false;
    for (place, event) in events.iter().enumerate() {
        match event {
            Event::Round(begun) if *begun == round => has_begun = true,
            Event::Revenue { .. } if has_begun => {}
            _ if has_begun => return place,
            _ => {}
        }
    }
    events.len()
}
