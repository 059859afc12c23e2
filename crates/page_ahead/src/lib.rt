//! What a player must know before the next round, above the map of a page: by when to send a sheet,
//! who leads, who runs next and what falls due, or what is for sale.
//!
//! `rows_ahead` returns what is listed before a round: rows of `desk_cells`, which are by
//! definition those of the game; `falls_due` and `must_of` say which company must buy a train, and
//! for how much. The rest prints rows: the page stays well-formed, as `markup` defines it. What
//! rusts with the next train is from `desk_dues`. The tables of the whole page are printed in the
//! same way: a `Table` is data, and what stands in a cell is written once, by `put_words_of`. The
//! pages of `games/page/` test the layout.
//!
//! The definitions, in `specs/`: `CellWords` (constant words), `Runners` (what is listed before a
//! round), `Told` (what is told of the events of a round).
//!
//! Reading order: `cell_words` (`put_words_of`), `table_part` (`Table`, `put_cells`),
//! `runner_rows`, `panel` (`put_panel`), `leaders_part`, `runners_part`, `dues_part`, `sale_part`,
//! `style`; `told` and `story_part` (`put_story`: what happened in the last round).
#![tactic(auto)]

mod cell_words;
mod dues_part;
mod leaders_part;
mod panel;
mod runner_rows;
mod runners_part;
mod sale_part;
mod story_part;
mod style;
mod table_part;
mod told;

pub use cell_words::{name_of, put_words_of};
pub use panel::{Panel, put_panel};
pub use runner_rows::{Must, falls_due, must_of, price_on, rows_ahead};
pub use story_part::put_story;
pub use style::STYLE_OF_PANEL;
pub use table_part::{Column, Table, begin_table_of, put_cell_in, put_cells};
