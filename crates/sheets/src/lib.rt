//! From the bytes of an order file to sheets: what each player last sent for each round.
//!
//! `collect` goes over the file once, and keeps for each sheet only the place of its text. A
//! sheet's lines are read when they are ruled, by the version of the file, which allocates nothing.
//! An order has room for a run of 280 places, so a line is read into an order that the caller
//! holds. In a contract `Sheets` is the file that it was collected from, and a `Sheet` is the list
//! of its lines, with the version of its file. `PartsLeft` is the rest of a sheet: the lines before
//! its next head, and the written turns or companies' orders that heads open.
//!
//! The sheets of a file, and the lines of one:
//!
//! ```
//! let file = b"GAME 1830 1\nPLAYERS ANN BOB CYD\nSHEET ANN PR1\nTURN\nBUY SV\n";
//! let Ok(sheets) = collect(rt.alloc(), file) else {
//!     panic!(rt; "refused")
//! };
//! let Some(sheet) = sheets.sheet(Seat::default(), &Round::Opening(1)) else {
//!     panic!(rt; "no sheet")
//! };
//! let mut lines = sheet.lines();
//! let (Some(first), Some(second)) = (lines.take_line(), lines.take_line()) else {
//!     panic!(rt; "too few lines")
//! };
//! assert!(rt; matches!(first.order(), Ok(Order::Turn)));
//! assert!(rt; matches!(second.order(), Ok(Order::Play(PlayOrder::BuyPrivate(_)))));
//! assert!(rt; second.number == 2);
//! assert!(rt; lines.take_line().is_none());
//! ```
//!
//! Reading order: `fault`, `text` (the lines of a text), `sheet`, `parts` (a sheet as rounds take
//! it up), `place` (orders out of place), `players`, `sheet_key` and `open_sheet` (whose sheet it
//! is, and where it began), `collecting` (line after line), `file` (`collect`, `examine`), `laws`.
//! In `specs/`, `File` says what a file says, `Reading` what is read of a line, `Part` what the
//! parts of a sheet are, `CompanyOrders` which of them is a company's, `Place` what becomes of an
//! order out of place, `Limits` the limits of a file, and `Collecting` how far a file was
//! collected.
#![tactic(auto)]

mod collecting;
mod fault;
mod file;
pub mod laws;
mod open_sheet;
mod parts;
mod place;
mod players;
mod sheet;
mod sheet_key;
mod text;

pub use collecting::{SHEETS_MOST, unread_fault};
pub use fault::FileFault;
pub use file::{FILE_MOST, GAME, Sheets, collect, examine};
pub use parts::{PartsLeft, is_head_of};
pub use place::{fault_out_of_place, is_of_file};
pub use sheet::{LINES_MOST, Lines, NumberedLine, ReadLine, Sheet, UnreadLine};
pub use sheet_key::SheetKey;
pub use text::{LineAndRest, first_line, is_blank};
