//! The hexes in words, and under each what companies may lay and place there.

use crate::groups::{Block, begin_group, put_move};
use crate::may::May;
use crate::move_lines::lines_on;
use crate::pictures::put_tiles;
use map_tables::Hex;
use markup::{Part, Writer};
use page_map::{Scene, begin_hex, begin_hexes, put_words};
use picture::Look;
use std::alloc::{AllocError, Global};

/// Adds the hexes, each with the lines of companies there. `words` has what is written of each hex
/// before them; if it has nothing of a hex, the hex is written as it is now. Fails only if
/// allocation fails.
pub(crate) fn put_hexes(
    alloc: Global,
    out: &mut Writer,
    scene: &Scene,
    may: &May,
    words: &[Vec<Part>],
) -> Result<(), AllocError> {
    begin_hexes(out);
    put_tiles(out, may.turns.as_slice());
    for (number, &hex) in Hex::ALL.iter().enumerate() {
        begin_hex(out, hex);
        put_words_of(out, scene, hex, words.get(number));
        for turn in &may.turns {
            let lines = lines_on(alloc, turn.map.lines.as_slice(), hex)?;
            if !lines.is_empty() {
                let (of, company) = (may.of(scene, turn.by.president), turn.by.company);
                begin_group(out, of, Block::Company(company), company.code());
                for line in &lines {
                    put_move(alloc, out, turn, line)?;
                }
                out.end();
            }
        }
        out.end();
    }
    out.end();
    out.end();
    Ok(())
}

/// Adds what is written of a hex, or else the hex as it is now.
pub(crate) fn put_words_of(out: &mut Writer, scene: &Scene, hex: Hex, words: Option<&Vec<Part>>) {
    match words {
        Some(parts) => {
            for part in parts {
                out.put_part(part);
            }
        }
        None => put_words(out, scene, &Look::on(scene.history.lays(), hex)),
    }
}
