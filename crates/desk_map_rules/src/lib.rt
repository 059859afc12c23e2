//! All rules of its kind that an order of the map breaks at a moment of a game: a lay, a token or a
//! run; and the tiles that a company may lay on a hex.
//!
//! The umpire names the first rule that an order breaks. A player who mends it may meet the next
//! one. So the desk asks each rule of the kind. The tests of lays and tokens are those of the
//! tables of `board`; those of runs are asked by the places of the run. Rules of steps, which
//! depend on earlier lines of the same sheet, are never asked.
//!
//! Reading order: `row` (a rule that is asked), `asker` (a company that asks), `map_tests`,
//! `lay_rules`, `token_rules`, `run_track`, `run_rules` (the rules of each kind), `broken`
//! (`broken_on_map`); `lays` (the lays on a hex).
#![tactic(auto)]

mod asker;
mod broken;
mod lay_rules;
mod lays;
mod map_tests;
mod row;
mod run_rules;
mod run_track;
mod token_rules;

pub use broken::broken_on_map;
pub use lays::legal_lays;
pub use map_tests::{
    colour_on, has_none_left, has_token_in, is_no_free_slot, is_none_left, laid_by, lay_cost,
    loses_track, place_of_colour,
};
pub use row::{Row, rules_of};
pub use run_rules::{
    best_broken, has_none_of, has_stop_twice, inner_places, is_wrong_number, passes_red,
    pay_broken, stops_named,
};
pub use run_track::{borders_named, has_border_twice};
