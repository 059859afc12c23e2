//! The lines of order sheets and of the text of a certificate. A line is read as an order exactly
//! if it has no fault, and an order is printed in its one spelling.
//!
//! Spaces separate a line's words, which end before the first `#`; case does not matter. The forms
//! of lines are in one table; a line spells the order of the row that its words fit. An order file
//! has all forms but CERTS and MARKS. The text of a certificate has these two, CERT and CLAIM. In
//! an order file of version 2 an order may have a condition. Reading allocates nothing; printing
//! allocates only its text.
//!
//! A line read, and printed in its one spelling:
//!
//! ```
//! let Ok(line) = read_line(b"run 2 h12.0  H10.0 # x") else {
//!     panic!(rt; "a fault")
//! };
//! let text = print_line(rt.alloc(), &line.order.duplicate())?;
//! assert_eq!(rt; text.as_slice(), b"RUN 2 H12.0 H10.0".as_slice());
//! ```
//!
//! Reading order: `name`, `fault`, `words` (a line and its words), `keyword` (the literal words),
//! `order` (what a line says), `play` (the orders of play in few bytes), `class` (the texts of each
//! class of words), `form` (the table), `condition` (versions, and conditional orders), `read`,
//! `print`, `laws`.
#![tactic(auto)]

mod class;
mod condition;
mod fault;
mod form;
mod keyword;
pub mod laws;
mod name;
mod order;
mod play;
mod print;
mod read;
mod words;

pub use class::MARKS_DIGITS_MOST;
pub use condition::{Condition, Version};
pub use fault::Fault;
pub use name::{NAME_MOST, Name};
pub use order::{Offer, Order, ShareSource, TrainSource};
pub use play::PlayOrder;
pub use print::{
    print_condition, print_conditional, print_line, print_number, print_order, print_play_order,
    print_round, print_run_prefix,
};
pub use read::{
    CERT_LINE_MOST, LINE_MOST, Line, is_printable, read_cert_line, read_line, read_line_in,
    read_order_in,
};
pub use words::{Span, Token, Words, begins_with_word, has_word};
