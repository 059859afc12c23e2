//! Reads boards from standard input, and prints for each its number and the greatest revenue of the
//! company's trains there, in dollars. With the word `marks` it also prints the number of marks
//! that show the revenue, and whether they were accepted, and between these how many milliseconds
//! it took to write and to check them.
//!
//! A board is lines of words: `BOARD number`, `PHASE kind`, `COMPANY company`, `TRAINS kind ..`,
//! then `LAY tile hex rotation`, with `SWAP` after it if the stops are swapped, and
//! `TOKEN place company`. A line `GREATEST ..` is skipped. The status is 2 if a line is not one of
//! these, or if the tiles and tokens cannot all lie on the map. It is 4 if a read, a write or an
//! allocation failed.
#![tactic(auto)]

mod fault;
mod game;
mod marks;

use fault::LinesFault;
use game::BoardLines;
use marks::measure;
use std::env;
use std::process::ExitCode;
use std::rt::Runtime;

fn main(rt: HostRuntime) -> ExitCode {
    match read_all(&rt) {
        Ok(()) => ExitCode::SUCCESS,
        Err(fault) => {
            let _ = eprintln!(rt; "{fault}");
            ExitCode::from(fault.status())
        }
    }
}

/// Reads boards to the end, and prints what each earns.
fn read_all(rt: &HostRuntime) -> Result<(), LinesFault> {
    let marks = env::args(rt)?.any(|word| word.as_str() == "marks");
    let mut game = BoardLines::new(rt.alloc());
    for line in rt.lines(rt.alloc()) {
        let line = line?;
        if game.is_board(line.as_str()) {
            print(rt, &game, marks)?;
            game = BoardLines::new(rt.alloc());
        }
        game.read_line(line.as_str())?;
    }
    print(rt, &game, marks)
}

/// Prints what a board earns, if one was begun, and on request what the marks cost.
fn print(rt: &HostRuntime, game: &BoardLines, marks: bool) -> Result<(), LinesFault> {
    if !game.is_begun() {
        return Ok(());
    }
    let revenue = game.revenue(rt.alloc())?;
    if !marks {
        println!(rt; "{} {revenue}", game.number())?;
        return Ok(());
    }
    let cost = measure(rt, game)?;
    let (write, check) = (cost.write.as_millis(), cost.check.as_millis());
    let word = if cost.accepted { "accepted" } else { "refused" };
    println!(rt;
        "{} {revenue} {} {write} {check} {word}",
        game.number(),
        cost.marks
    )?;
    Ok(())
}
