//! A writer of the elements of a page. It leaves none open, and lets no text into a tag.
//!
//! `Writer` writes elements: `begin` and `end` keep a list of those that are open, and `finish`
//! ends what is left. In the contracts a reader that does not know the writer goes over the bytes
//! and finds open exactly what the writer holds open, so that no page is ill-formed. Besides
//! constant words, a page gets only numbers, rounds, places and names, and escaped texts of any
//! bytes. Of a name only letters and digits are written. A `Part` is an element by itself, which a
//! page may have within any other.
//!
//! The definitions, in `specs/`: `Tags` (the names of elements), `Reading` (the reader), `Written`
//! (what a writer keeps), `Part`, `Escaped` (a text of any bytes, and how it reads).
//!
//! Reading order: `point`, `tag`, `part`, `writer`, `piece`, `elements`, `table_forms` (sections
//! and tables), `livery` (the colours and lines of a company), `script`, `laws`.
#![tactic(auto)]

mod elements;
pub mod laws;
mod livery;
mod part;
mod piece;
mod point;
mod script;
mod table_forms;
mod tag;
mod writer;

pub use livery::{Livery, livery_of};
pub use part::Part;
pub use piece::PagePiece;
pub use point::Point;
pub use table_forms::{
    NOTHING, begin_head, begin_heading, begin_plain_section, begin_row, begin_section, begin_table,
    end_head, put_caption, put_company, put_head, put_heading, put_number, put_row_head, put_some,
    put_token,
};
pub use tag::{Attr, Tag};
pub use writer::Writer;
