//! What the sheets of an order file would do if their round were played: each sheet alone, and then
//! all of them. Also what a trial is made from and adds to: the lines of the file, its SHEET lines,
//! and what is found in it.
//!
//! A trial is the game of a copy of the file with empty sheets at its end (`foresight`).
//! `try_sheets` plays the trials and adds the lines that they refuse. Contracts define the lines of
//! the file and their numbers, the sheets that they begin, which of these are tried, the file of
//! each trial, the lines that its game refuses, and where these are in the file. What is said about
//! them is tested.
//!
//! Reading order: `check_lines` (the lines of a file), `check_mail` (lines that look like mail),
//! `sheet_like` (lines that were meant as SHEET lines), `check_sheets` (the SHEET lines),
//! `check_found` (what is found), `check_changed` (from which round on two games differ);
//! `numbered` (the lines of a sheet), `refusals` (the lines that a trial refuses), `forced` (trains
//! that companies must buy), `remedy` (how to pay for them), `outcome` (what the last round
//! refused), `consent` and `taken` (what other players have to do with it), `told` (the findings of
//! a trial), `sheet_orders`, `start`, `reasons`, `below` and `told_alone` (those of a sheet alone),
//! `trials` (`try_sheets`).
#![tactic(auto)]

mod below;
mod check_changed;
mod check_found;
mod check_lines;
mod check_mail;
mod check_sheets;
mod consent;
mod forced;
mod numbered;
mod outcome;
mod reasons;
mod refusals;
mod remedy;
mod sheet_like;
mod sheet_orders;
mod start;
mod taken;
mod told;
mod told_alone;
mod trials;

pub use check_changed::first_changed;
pub use check_found::{Change, Fallback, Finding, Found, Lateness, Matter, Said, Standing};
pub use check_lines::{FileLine, FileLines};
pub use check_mail::is_mail;
pub use check_sheets::{Beginning, Head, Heads, begun_by};
pub use outcome::Outcome;
pub use sheet_like::{closes, is_like_sheet};
pub use trials::{Reached, try_sheets};
