//! The state of a game, at its end or between two rounds, as text and as JSON, and the events of a
//! round as JSON. No call reads or writes a stream.
//!
//! The tables are rows and cells of `desk_cells`, whose contracts say what each column shows; the
//! columns of a form, with their places or names, are data. The rest is layout: the games of
//! `games/desk/` test it.
//!
//! The second operating round of the first set, as a word names it:
//!
//! ```
//! let round = read_round(b"or1.2");
//! assert_eq!(rt; round, Some(Round::Operating { set: 1, number: 2 }));
//! ```
//!
//! Reading order: `round_name` (the round that is asked for). Text: `layout` (a cell at its place),
//! `state_tables`, `state_round`, `state_tiles`, `state_chart`, `state_map`, `whole_state`
//! (`state`); `statement_next`, `whole_statement` (what ends a bulletin). Facts for other programs:
//! `facts`, `table_facts`, `state_facts`, `event_facts`, `round_events` (`round_facts`).
#![tactic(auto)]

mod event_facts;
mod facts;
mod layout;
mod round_events;
mod round_name;
mod state_chart;
mod state_facts;
mod state_map;
mod state_round;
mod state_tables;
mod state_tiles;
mod statement_next;
mod table_facts;
mod whole_state;
mod whole_statement;

pub use round_events::round_facts;
pub use round_name::read_round;
pub use whole_state::{StateForm, state, state_text};
pub use whole_statement::statement;
