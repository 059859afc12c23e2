//! The page of a game: one file of HTML with the map, the routes of the last operating round, what
//! happened in the round, the stock chart, the history, the tables and the tiles. All of it is
//! text, without scripts or anything loaded from elsewhere.
//!
//! `page` makes it from the bytes of an order file, and `tile_sheet` makes the page of all tiles. A
//! page is well-formed: `markup` defines that. The only text of a sheet in it is that in the
//! bulletin, which is escaped. The panel above the map is from `page_ahead`, the map from
//! `page_map`, the routes are from `page_routes`, and the charts from `page_charts`. The pages of
//! `games/page/` test the layout.
//!
//! The definitions, in `specs/`: `Checksum` (of the bytes of a file), `Due` (the umpire's words on
//! when sheets are due), `WorthHistory` (worths and prices after each round), `ChartToken`,
//! `Phases`, `Revenue` (what a company earned in a round), `ShownRows` (the rows of the tables).
//!
//! The page of an order file in memory, `FIRST`:
//!
//! ```
//! let Ok(text) = page(rt.alloc(), FIRST.as_bytes(), None, "") else {
//!     panic!(rt; "no page")
//! };
//! assert!(rt; text.as_slice().starts_with(b"<!DOCTYPE html>\n"));
//! ```
//!
//! Reading order: `worth_history` (the game round by round), `checksum`, `due`, `style`,
//! `bulletin_part`, `opens_at`, `phases_part`, `result_part`, `shown_rows`, `tables_part` (players,
//! companies, privates and trains), `revenue_part`, `status_part`, `whole_page` (`page`),
//! `all_tiles` (`tile_sheet`).
#![tactic(auto)]

mod all_tiles;
mod bulletin_part;
mod checksum;
mod due;
mod opens_at;
mod phases_part;
mod result_part;
mod revenue_part;
mod shown_rows;
mod status_part;
mod style;
mod tables_part;
mod whole_page;
mod worth_history;

pub use all_tiles::tile_sheet;
pub use bulletin_part::bulletin;
pub use checksum::{Source, source_of};
pub use due::{due_shown, due_told};
pub use opens_at::{chart_opens_at, map_opens_at};
pub use page_ahead::{
    Column, Table, begin_table_of, name_of, put_cell_in, put_cells, put_story, put_words_of,
};
pub use phases_part::colours_of;
pub use result_part::put_result;
pub use revenue_part::put_revenue;
pub use shown_rows::{players_shown, privates_shown, roster_shown, trains_shown};
pub use status_part::{put_links, put_names, put_next, put_skip, put_source, put_train_on_sale};
pub use style::{STYLE, STYLE_OF_DUE};
pub use tables_part::{FIGURES, PRIVATES, TRAINS, put_row, put_table};
pub use whole_page::{PageToHexes, page, page_to_hexes, players_of, tokens_of};
pub use worth_history::{entries_of, thinned};
