//! From the line that is told to the report: what the desk tells of a line before an opening or a
//! stock round is what the umpire's report says of the file with that line.
//!
//! The crate has laws alone. No program calls it, and no other crate depends on it.
//!
//! Reading order: `specs/LineFile` (the file in which a line is tried), `specs/Reported` (what the
//! report says of the line), `specs/Moves` (what its order moves), `specs/TurnRows` (rows that are
//! as reported), `specs/OfferedRows` (rows that name a consent), `specs/LinesTold` (the text of
//! `may --lines`), `laws`.
#![tactic(auto)]

pub mod laws;
