//! The end of a page that shows what may be done.
ghost use Rattle.std.specs.Prelude.{IfErr, IfOk};
ghost use Rattle.desk_base.specs.Played.{IsMomentFault, moment_after};
ghost use Rattle.markup.specs.Reading.{IsWellFormed};

use crate::company_turns::Wanted;
use crate::hexes_part::{put_hexes, put_words_of};
use crate::may::may_in;
use crate::may_part::put_may;
use desk_base::{DeskFault, Moment, Stood, position_at};
use desk_may::Progress;
use map_tables::Hex;
use markup::PagePiece::Words;
use markup::{Part, Tag, Writer, begin_section};
use page_map::{Scene, begin_hex, begin_hexes};
use picture::PlacedName;
use sheets::{Sheets, collect};
use std::alloc::Global;

/// What the page has so far.
#[derive(Clone, Copy)]
pub struct Drawn<'a> {
    /// What is written of each hex; if it is empty, that is the hex as it is now.
    pub words: &'a [Vec<Part>],
    /// The names on the map.
    pub names: &'a [PlacedName],
}

/// Ends the page of the game of an order file: adds its hexes in words, with what companies may lay
/// and place on each in the next round, and what each player may do.
///
/// Fails with `File` if the file is refused, with `Round` if the named round was not played, and
/// with `Memory` if allocation fails.
#[tactic(auto, using(desk_base::proofs::Refusals::none_where_it_fails, desk_base::proofs::PlayedLemmas::no_moment_where_it_fails))]
pub fn end_page<P: Progress>(
    alloc: Global,
    out: Writer,
    file: &[u8],
    wanted: Wanted,
    drawn: Drawn,
    progress: &mut P,
) -> Result<Vec<u8>, DeskFault>
    ensures well_formed { IfOk result (λ page. IsWellFormed page.items) }
    ensures fault { IfErr result (IsMomentFault file.now (moment_after wanted.entry.after)) }
{
    let mut out = out;
    let sheets = collect(alloc, file)?;
    put_moves(alloc, &mut out, &sheets, wanted, drawn, progress)?;
    Ok(out.finish()?)
}

/// Adds what may be done in the game of some sheets.
fn put_moves<P: Progress>(
    alloc: Global,
    out: &mut Writer,
    sheets: &Sheets,
    wanted: Wanted,
    drawn: Drawn,
    progress: &mut P,
) -> Result<(), DeskFault>
    ensures { IfErr result (IsMomentFault sheets.now (moment_after wanted.entry.after)) }
{
    let position = position_at(alloc, sheets, Moment::after(wanted.after))?;
    put_moves_of(alloc, out, &position.stood(), wanted, drawn, progress)
}

/// Adds what may be done in a game at a moment.
fn put_moves_of<P: Progress>(
    alloc: Global,
    out: &mut Writer,
    stood: &Stood,
    wanted: Wanted,
    drawn: Drawn,
    progress: &mut P,
) -> Result<(), DeskFault>
    ensures { IfErr result (IsMomentFault stood.now.sheets.now (moment_after wanted.entry.after)) }
{
    let scene = Scene::of(stood);
    let Some(may) = may_in(alloc, stood.sheets, wanted, progress)? else {
        put_over(out, &scene, drawn.words);
        return Ok(());
    };
    put_hexes(alloc, out, &scene, &may, drawn.words)?;
    Ok(put_may(alloc, out, &scene, &may, wanted, drawn.names)?)
}

/// Adds the hexes, and that the game is over.
fn put_over(out: &mut Writer, scene: &Scene, words: &[Vec<Part>]) {
    begin_hexes(out);
    for (number, &hex) in Hex::ALL.iter().enumerate() {
        begin_hex(out, hex);
        put_words_of(out, scene, hex, words.get(number));
        out.end();
    }
    out.end();
    out.end();
    begin_section(out, "may", "What may be done", "");
    let words = "The game is over.";
    out.element(Tag::Paragraph, &[Words(words)]);
    out.end();
}
