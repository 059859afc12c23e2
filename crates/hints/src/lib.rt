//! What a line with a fault was meant to be: its own words with one slip mended, or completed by
//! the forms of orders.
//!
//! The forms of orders are not repeated here. A line is proposed only if `order_grammar` reads it
//! without a fault, and none is proposed if several are equally near. So all proposals follow the
//! forms of orders.
//!
//! Reading order: `words` (the words of a line), `slips` (words that are nearly a known one),
//! `choice` (which of some lines is an order), `vocabulary` (the words of orders), `signs` (signs
//! in and around words), `edits` (lines that are one edit away), `completed` (lines that lack their
//! end), `remark` (orders with a remark), `mail` (what mail and editors put into a line),
//! `sentence` (what is said of a fault), `hint` (`push_hint`, `line_meant`).
#![tactic(auto)]

mod choice;
mod completed;
mod edits;
mod hint;
mod mail;
mod remark;
mod sentence;
mod signs;
mod slips;
mod vocabulary;
mod words;

pub use hint::{Faulty, line_meant, push_hint};
pub use sentence::sentence_of;
pub use words::words_of;
