//! Why a line of a round was refused: the rule that it broke, the cause if the rule has several,
//! and the figures that the rule compared. Texts are added to bytes of the caller. No call reads or
//! writes a stream.
//!
//! Reading order: `refused` (which lines were refused), `sheet_line` (the lines of the sheets),
//! `why` (the rule that a line broke), `case` (what is said of it), `figures` (the figures that it
//! compared), `done` (the last step of a company's turn), `fallback` (lines that are not needed),
//! `cause` (which of several causes it was), `refusal_detail` (what is added after the rule),
//! `legal` (what may be laid instead), `track` and `ways` (where track breaks or leads).
#![tactic(auto)]

mod case;
mod cause;
mod done;
mod fallback;
mod figures;
mod legal;
mod refusal_detail;
mod refused;
mod sheet_line;
mod track;
mod ways;
mod why;

pub use case::push_case;
pub use fallback::is_fallback;
pub use refusal_detail::{Broken, Ruled, push_place_meant};
pub use refused::{refused_in, within_then};
pub use sheet_line::{LinePlace, SheetLine, find_line, lines_of};
pub use why::{FAULTY_COLUMNS, push_broken, push_rule, push_why};
