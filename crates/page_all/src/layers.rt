//! What the page of a round shows in a page with all rounds, layer by layer, each in parts.
ghost use Rattle.std.specs.Prelude.{◌≡◌};
ghost use Rattle.page_all.specs.LayerNumbers.{number_of_hex_layer, number_of_layer};

use crate::cells::{Rows, STATUS_CELLS, put_status_cells, put_table_cells};
use crate::drawings::{Drawings, put_use};
use crate::lines::put_lines;
use crate::route_rows::put_route_rows;
use crate::since::{Since, put_new_tiles, put_new_tokens};
use crate::what_happened::put_turns;
use map_tables::{HEXES, Hex};
use markup::{Part, Tag, Writer};
use page::{put_result, tokens_of};
use page_charts::put_squares;
use page_map::{Scene, begin_ground, has_drawing, put_rims, put_sight, put_stops};
use page_routes::{Routes, put_tags};
use picture::{Look, PlacedName, draw_track};
use replay::Layers;
use std::alloc::{AllocError, Global};

/// A layer of a page.
#[derive(Clone, Copy)]
pub(crate) enum Layer {
    /// The result.
    Result,
    /// The lines of the routes.
    Lines,
    /// The sums of the routes.
    Sums,
    /// The rows of the routes.
    Runs,
    /// What happened.
    Turns,
    /// The squares and tokens of the stock chart.
    Chart,
    /// The rims of the tiles that are new since an earlier page.
    NewTiles,
    /// Those of the tokens.
    NewTokens,
}

/// How many layers there are, apart from those of the hexes and the cells.
const LAYERS_COUNT: usize = 8;

/// The layers, by their numbers. Those of the hexes come after them, and then the cells.
const LAYERS: [Layer; LAYERS_COUNT] = [
    Layer::Result,
    Layer::Lines,
    Layer::Sums,
    Layer::Runs,
    Layer::Turns,
    Layer::Chart,
    Layer::NewTiles,
    Layer::NewTokens,
];

impl Layer {
    /// Returns its number: its place in `LAYERS`.
    pub(crate) fn number(self) -> usize
        ensures { result ≡ number_of_layer self }
    {
        match self {
            Layer::Result => 0,
            Layer::Lines => 1,
            Layer::Sums => 2,
            Layer::Runs => 3,
            Layer::Turns => 4,
            Layer::Chart => 5,
            Layer::NewTiles => 6,
            Layer::NewTokens => 7,
        }
    }
}

/// A layer of a hex.
#[derive(Clone, Copy)]
pub(crate) enum HexLayer {
    /// Its ground.
    Ground,
    /// Its rims and its track.
    Track,
    /// Its stops and labels.
    Stops,
    /// The hex in words.
    Words,
}

/// How many layers a hex has.
const HEX_LAYERS_COUNT: usize = 4;

/// The layers of a hex, by their numbers.
const HEX_LAYERS: [HexLayer; HEX_LAYERS_COUNT] = [
    HexLayer::Ground,
    HexLayer::Track,
    HexLayer::Stops,
    HexLayer::Words,
];

/// Returns the number of a layer of a hex.
pub(crate) fn hex_layer(hex: Hex, layer: HexLayer) -> usize
    ensures { result ≡ number_of_hex_layer hex layer }
{
    let within = match layer {
        HexLayer::Ground => 0,
        HexLayer::Track => 1,
        HexLayer::Stops => 2,
        HexLayer::Words => 3,
    };
    LAYERS_COUNT + HEX_LAYERS_COUNT * hex.index() + within
}

/// The number of the layer of the first cell of the status.
pub(crate) const FIRST_STATUS: usize = LAYERS_COUNT + HEX_LAYERS_COUNT * HEXES;

/// The number of the layer of the first cell of the tables. Those of the others follow, in the
/// order of `put_table_cells`.
pub(crate) const FIRST_CELL: usize = FIRST_STATUS + STATUS_CELLS;

/// What a page shows of a round besides the game.
#[derive(Clone, Copy)]
pub(crate) struct Shown<'a> {
    /// The runs of the last operating round.
    pub(crate) routes: &'a Routes,
    /// The number of the drawing of each; `None` for a route without a line.
    pub(crate) lines: &'a [Option<usize>],
    /// The names on the map.
    pub(crate) names: &'a [PlacedName],
    /// Since when the tiles and tokens are on the map.
    pub(crate) since: &'a Since,
}

/// Returns what a page shows of a scene: its layers, those of each hex, and each cell. Fails only
/// if allocation fails.
pub(crate) fn layers_of(
    alloc: Global,
    scene: &Scene,
    shown: Shown,
    drawings: &mut Drawings,
) -> Result<Layers, AllocError> {
    let mut layers = Vec::new(alloc);
    for &layer in &LAYERS {
        layers.push(parts_of(alloc, layer, scene, shown)?)?;
    }
    for &hex in &Hex::ALL {
        for &layer in &HEX_LAYERS {
            layers.push(parts_of_hex(alloc, layer, scene, shown, hex, drawings)?)?;
        }
    }
    for cell in cells_of(alloc, scene)? {
        let mut parts = Vec::new(alloc);
        parts.push(cell)?;
        layers.push(parts)?;
    }
    Ok(Layers { layers })
}

/// Returns the parts of a layer.
fn parts_of(
    alloc: Global,
    layer: Layer,
    scene: &Scene,
    shown: Shown,
) -> Result<Vec<Part>, AllocError> {
    let mut out = Writer::of_parts(alloc);
    let history = scene.history;
    match layer {
        Layer::Result => put_result(alloc, &mut out, scene)?,
        Layer::Lines => put_lines(&mut out, history, shown.routes, shown.lines),
        Layer::Sums => put_tags(alloc, &mut out, history, shown.routes, shown.names)?,
        Layer::Runs => put_route_rows(alloc, &mut out, history, shown.routes, shown.lines)?,
        Layer::Turns => put_turns(&mut out, scene),
        Layer::Chart => put_squares(&mut out, &tokens_of(history), false),
        Layer::NewTiles => put_new_tiles(&mut out, shown.since),
        Layer::NewTokens => put_new_tokens(&mut out, history, shown.since),
    }
    out.finish_parts()
}

/// Returns the parts of a layer of a hex.
fn parts_of_hex(
    alloc: Global,
    layer: HexLayer,
    scene: &Scene,
    shown: Shown,
    hex: Hex,
    drawings: &mut Drawings,
) -> Result<Vec<Part>, AllocError> {
    let look = Look::on(scene.history.lays(), hex);
    let mut out = Writer::of_parts(alloc);
    match layer {
        HexLayer::Ground => {
            begin_ground(&mut out, hex, look.shade);
            out.end();
        }
        HexLayer::Track => {
            if has_drawing(&look) {
                put_rims(&mut out, scene, &look);
                if let Some(track) = track_of(alloc, &look)? {
                    put_use(&mut out, drawings.number_of(track)?, "", "");
                }
            }
        }
        HexLayer::Stops => put_stops(&mut out, scene, &look, shown.names),
        HexLayer::Words => {
            put_sight(&mut out, scene, &look);
            out.end_part();
        }
    }
    out.finish_parts()
}

/// Returns the track of a hex, if it has any.
fn track_of(alloc: Global, look: &Look) -> Result<Option<Part>, AllocError> {
    if look.links.is_empty() {
        return Ok(None);
    }
    let mut out = Writer::of_parts(alloc);
    out.begin(Tag::Group);
    out.within();
    draw_track(&mut out, look);
    out.end();
    let mut parts = out.finish_parts()?;
    Ok(parts.pop())
}

/// Returns the cells of a page, each as a part: those of the status, and those of the tables.
fn cells_of(alloc: Global, scene: &Scene) -> Result<Vec<Part>, AllocError> {
    let rows = Rows::of(alloc, scene)?;
    let mut out = Writer::of_parts(alloc);
    put_status_cells(&mut out, scene);
    put_table_cells(&mut out, scene, &rows);
    out.finish_parts()
}
