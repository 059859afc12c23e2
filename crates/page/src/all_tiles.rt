//! The sheet of all tiles.
ghost use Rattle.std.specs.Prelude.{IfOk};
ghost use Rattle.markup.specs.Reading.{IsWellFormed};

use crate::style::STYLE;
use map_tables::{Colour, Rotation, TileNo, tile};
use markup::PagePiece::{Number, Words};
use markup::{
    Attr, Tag, Writer, begin_row, begin_section, begin_table, put_caption, put_head, put_row_head,
};
use page_map::{TILE_COLOURS, put_signs, put_tile};
use std::alloc::{AllocError, Global};
use tables::Money;

/// Returns a page with all tiles in their six rotations, with the numbers of their sides. Fails
/// only if allocation fails.
pub fn tile_sheet(alloc: Global) -> Result<Vec<u8>, AllocError>
    ensures { IfOk result (λ page. IsWellFormed page.items) }
{
    let mut out = Writer::page(alloc);
    out.element(Tag::Title, &[Words("1830: tiles in all rotations")]);
    out.element(Tag::Style, &[Words(STYLE)]);
    out.end();
    out.begin(Tag::Body);
    out.begin(Tag::Header);
    out.element(Tag::H1, &[Words("1830: tiles in all rotations")]);
    out.end();
    out.begin(Tag::Main);
    out.begin_as(Tag::Svg, "defs");
    out.value(Attr::Width, &[Words("0")]);
    out.value(Attr::Height, &[Words("0")]);
    out.value(Attr::Hidden, &[Words("true")]);
    put_signs(&mut out);
    out.end();
    for &(colour, words) in &TILE_COLOURS {
        put_colour(&mut out, colour, words);
    }
    out.finish()
}

/// Adds the tiles of a colour in their rotations.
fn put_colour(out: &mut Writer, colour: Colour, words: &'static str) {
    begin_section(out, section_of(colour), words, "");
    begin_table(out, table_of(colour), "sheet");
    put_caption(out, "Tile, how many, and its rotations from 0 to 5", "");
    put_head(out, &["Tile", "0", "1", "2", "3", "4", "5"]);
    out.begin(Tag::TableBody);
    for &number in &TileNo::ALL {
        let entry = tile(number);
        if entry.colour as u8 == colour as u8 {
            begin_row(out, "");
            let count = Number(Money::from(entry.count));
            put_row_head(
                out,
                &[
                    Number(Money::from(number.number())),
                    Words(" &#215;"),
                    count,
                ],
            );
            for &rotation in &Rotation::ALL {
                out.begin(Tag::Cell);
                put_tile(out, number, rotation);
                out.end();
            }
            out.end();
        }
    }
    out.end();
    out.end();
    out.end();
}

/// Returns the name of the section of a colour.
fn section_of(colour: Colour) -> &'static str {
    match colour {
        Colour::White | Colour::Yellow => "yellow",
        Colour::Green => "green",
        Colour::Brown => "brown",
    }
}

/// Returns the name of the table of a colour.
fn table_of(colour: Colour) -> &'static str {
    match colour {
        Colour::White | Colour::Yellow => "yellow-tiles",
        Colour::Green => "green-tiles",
        Colour::Brown => "brown-tiles",
    }
}
