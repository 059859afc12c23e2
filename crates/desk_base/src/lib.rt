//! What the desk's libraries share: what a code means, how many operating rounds a set has, which
//! rounds can still come in a game, why an order is wrong, a game between two rounds, how many
//! tokens, trains and tiles are left, and a text piece by piece.
//!
//! Reading order: `text` (`Piece`, `Text`), `wrapped` (lines of 80 columns), `reason`
//! (`Reason`), `advice`, `explaining` (`explain`), `set_number` (`number_in_set`, `end_after`),
//! `played` (which rounds were played), `between_rounds` (`Moment`, `Stood`), `positions`
//! (`Position`), `stock_left`, `coming` (`can_come`), `objection` (`Objection`), `beyond` (what
//! lies at a side), `map_facts`, `by_tables` (what the map and the tables show), `belongings` (what
//! somebody has), `cause` (which of several causes it was), `map_state`, `run_line`.
#![tactic(auto)]

mod advice;
mod belongings;
mod between_rounds;
mod beyond;
mod by_tables;
mod cause;
mod coming;
mod explaining;
mod fault;
mod map_facts;
mod map_state;
mod objection;
mod owed;
mod played;
mod positions;
mod reason;
mod run_line;
mod set_number;
mod stock_left;
mod text;
mod wrapped;

pub use belongings::{objection_by_view, other_president};
pub use between_rounds::{Moment, Stood, stood_now};
pub use beyond::{Beyond, beyond_side, push_beyond};
pub use board_state::{slots_on, tile_on};
pub use by_tables::objection_to;
pub use cause::{Cause, cause_of_slot};
pub use coming::can_come;
pub use explaining::{all_reasons_text, explain, list_text, reason_text};
pub use fault::DeskFault;
pub use map_facts::{bad_side, side_towards};
pub use map_state::{best_at, board_at, trains_of, view_behind};
pub use objection::{Objection, push_objection, who};
pub use owed::owes;
pub use played::{round_asked, was_played};
pub use positions::{PlayedRound, Position, played_round, position_at};
pub use reason::Reason;
pub use run_line::push_run;
pub use set_number::{end_after, number_in_set};
pub use stock_left::{has_token, tiles_left, tokens_left, trains_left};
pub use text::{Piece, Text, fill, push, width_in_hand};
pub use wrapped::{push_wrapped, push_wrapped_lines};
