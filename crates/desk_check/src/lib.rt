//! Lints an order file, and tries its sheets: `check` takes the allocator and the bytes of the
//! file, and returns text. `desk_trials` has the lines of the file, what is found in it, and the
//! trials.
//!
//! Contracts define the facts: which sheet replaces which, which rounds were played by then, which
//! can still come, and the fault of a line. The games of `games/desk/` test the layout.
//!
//! A file without a header is refused:
//!
//! ```
//! let extent = Extent { all: true, from: 1 };
//! let findings = check(rt.alloc(), b"PLAYERS ANN BOB CYD\n", extent)?;
//! assert!(rt; findings.refused.is_some());
//! ```
//!
//! Reading order: `check_names` (names that mean something else), `plain_lines` (lines about which
//! there is nothing to say), `check_pass` (one pass over a file); `check_orders` (the orders of a
//! company's turn, one after another), `check_seat` (companies to order for), `check_reading` (a
//! sheet line by line), `meant` (lines below a SHEET line with a fault), `check_late` (sheets that
//! replace others), `check_early` (sheets for rounds to come), `check_refused` (refused files);
//! `owed` (who owes a sheet), `check_said` and `check_text` (the text), `checking` (`check`).
#![tactic(auto)]

mod check_early;
mod check_late;
mod check_names;
mod check_orders;
mod check_pass;
mod check_reading;
mod check_refused;
mod check_said;
mod check_seat;
mod check_text;
mod checking;
mod meant;
mod owed;
mod plain_lines;

pub use checking::{Extent, Findings, check};
