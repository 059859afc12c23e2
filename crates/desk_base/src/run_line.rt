//! The line of a run.

use crate::text::Piece::{Number, Words};
use crate::text::{fill, push};
use board::Board;
use map_tables::{Place, Run};
use order_grammar::{Order, print_order};
use reach::Network;
use std::alloc::AllocError;
use tables::{Amount, Kind, Money};

/// Adds the line of a run: its order, what it earns, and what each of its stops is worth.
pub fn push_run(out: &mut Vec<u8>, board: &Board, kind: Kind, run: &Run) -> Result<(), AllocError> {
    let order = Order::Run {
        kind,
        run: run.duplicate(),
    };
    print_order(out, &order)?;
    let sum = sum_of(board, run.as_slice());
    fill(out, "    %", &[Number(Money::from(sum))])?;
    push_values(out, board, run.as_slice())
}

/// Returns what the stops of a run are worth together, in dollars.
fn sum_of(board: &Board, places: &[Place]) -> Amount {
    let mut sum: Amount = 0;
    for place in places {
        if let Some(stop) = place.stop() {
            sum = sum.saturating_add(board.value(stop));
        }
    }
    sum
}

/// Adds what the stops of a run are worth, each after a sign, and the end of the line.
fn push_values(out: &mut Vec<u8>, board: &Board, places: &[Place]) -> Result<(), AllocError> {
    let mut sign = " = ";
    for place in places {
        if let Some(stop) = place.stop() {
            push(out, &[Words(sign), Number(Money::from(board.value(stop)))])?;
            sign = " + ";
        }
    }
    fill(out, "\n", &[])
}
