//! How the page of all rounds is written: what changes from round to round stands in it once, with
//! the rounds that have it.
ghost use Rattle.std.specs.Prelude.{IfOk};
ghost use Rattle.replay.specs.Classes.{LeavesEach};

use crate::cells::STATUS;
use crate::layers::{FIRST_STATUS, HexLayer, Layer, hex_layer};
use crate::replayed::Replayed;
use crate::round_buttons::{put_buttons, put_heading, put_title, put_words_of_buttons};
use crate::route_rows::begin_routes;
use crate::style::{STYLE_OF_BUTTONS, put_boxes_style, put_lines_style};
use crate::tables_part::put_tables;
use map_tables::Hex;
use markup::PagePiece::{Count, Hex as Hexed, Words};
use markup::{Attr, Part, Tag, Writer, begin_plain_section, begin_section};
use page::{
    STYLE, STYLE_OF_DUE, chart_opens_at, map_opens_at, players_of, put_links, put_names, put_next,
    put_skip, put_source, thinned, tokens_of,
};
use page_charts::{begin_chart, end_chart, put_history};
use page_map::{Scene, begin_hex, begin_hexes, begin_picture, end_map, put_borders, put_key};
use picture::{centre, city_name};
use replay::{Lasting, put_if_before, put_replay, put_rules, replay_of};
use std::alloc::{AllocError, Global};
use std::collections::VecDeque;

/// What a page shows besides the rounds of its order file.
#[derive(Clone, Copy)]
pub(crate) struct Told<'a> {
    /// When sheets are due, in the umpire's words; empty if they did not say.
    pub(crate) due: &'a [u8],
    /// The style of a page for a script.
    pub(crate) style: Option<&'static str>,
}

/// Returns the page of some rounds up to its hexes in words, given the game at their end. With a
/// style it is a page for a script, and the style follows that of all pages.
pub(crate) fn page_to_hexes(
    alloc: Global,
    scene: &Scene,
    replayed: &Replayed,
    told: Told,
) -> Result<Writer, AllocError> {
    let entries = thinned(alloc, replayed.entries.as_slice())?;
    let mut out = match told.style {
        None => Writer::page(alloc),
        Some(_) => Writer::scripted_page(alloc),
    };
    begin_page(&mut out, scene, replayed, told);
    replayed.put_status(alloc, &mut out, scene, told.due)?;
    replayed.put_layer(alloc, &mut out, Layer::Result, Tag::Division)?;
    replayed.put_map(alloc, &mut out, scene)?;
    begin_plain_section(&mut out, "routes", "Routes");
    begin_routes(&mut out);
    replayed.put_layer(alloc, &mut out, Layer::Runs, Tag::TableBody)?;
    out.end();
    out.end();
    begin_section(&mut out, "bulletin", "What happened", "");
    replayed.put_layer(alloc, &mut out, Layer::Turns, Tag::Division)?;
    out.end();
    begin_section(&mut out, "chart", "Stock chart", "");
    begin_chart(&mut out);
    replayed.put_layer(alloc, &mut out, Layer::Chart, Tag::Group)?;
    end_chart(&mut out);
    let opens = Count(chart_opens_at(&tokens_of(scene.history)));
    out.begin(Tag::Span);
    out.value(Attr::Class, &[Words("at at"), opens]);
    out.end();
    out.end();
    put_history(&mut out, &players_of(scene), entries.as_slice());
    put_tables(alloc, &mut out, scene, replayed)?;
    Ok(out)
}

/// The sections and tables that the head links to.
const LINKS: [(&str, &str); 11] = [
    ("#bulletin", "Bulletin"),
    ("#map", "Map"),
    ("#routes", "Routes"),
    ("#chart", "Chart"),
    ("#history", "History"),
    ("#players", "Players"),
    ("#companies", "Companies"),
    ("#revenue", "Revenue"),
    ("#privates", "Privates"),
    ("#trains", "Trains"),
    ("#hexes", "Hexes"),
];

/// Adds what stands before the sections: the title, the styles, the buttons and the head.
fn begin_page(out: &mut Writer, scene: &Scene, replayed: &Replayed, told: Told) {
    put_title(out, replayed);
    out.element(Tag::Style, &[Words(STYLE)]);
    out.begin(Tag::Style);
    out.within();
    out.put(&[Words(STYLE_OF_BUTTONS)]);
    put_lines_style(out);
    put_rules(out, replayed.last());
    put_boxes_style(out, replayed);
    if let Some(style) = told.style {
        // What may be done next is shown with the last page alone.
        put_if_before(out, replayed.last());
        out.put(&[Words("~main :is(.do,#may){display:none}\n")]);
        out.end();
        out.begin(Tag::Style);
        out.within();
        out.put(&[Words(style)]);
    }
    out.end();
    if !told.due.is_empty() {
        out.element(Tag::Style, &[Words(STYLE_OF_DUE)]);
    }
    out.end();
    out.begin(Tag::Body);
    out.within();
    put_buttons(out, replayed);
    put_skip(out);
    out.begin(Tag::Header);
    put_heading(out, replayed);
    put_names(out, scene);
    put_links(out, &LINKS);
    out.end();
    put_words_of_buttons(out, replayed);
    out.begin(Tag::Main);
}

impl Replayed {
    /// Returns the layer of a number of all pages: the rule of style of each page leaves the parts
    /// of that page, in order. Fails only if allocation fails.
    pub(crate) fn lasting(
        &self,
        alloc: Global,
        number: usize,
    ) -> Result<VecDeque<Lasting>, AllocError>
        ensures { IfOk result (λ parts. LeavesEach parts.items number self.now.pages.items) }
    {
        replay_of(alloc, self.pages.as_slice(), number)
    }

    /// Adds a layer of all pages; a tag is for parts that some of them have not.
    pub(crate) fn put_layer(
        &self,
        alloc: Global,
        out: &mut Writer,
        layer: Layer,
        tag: Tag,
    ) -> Result<(), AllocError> {
        self.put_numbered(alloc, out, layer.number(), tag)
    }

    /// Adds the layer of a number of all pages.
    pub(crate) fn put_numbered(
        &self,
        alloc: Global,
        out: &mut Writer,
        number: usize,
        tag: Tag,
    ) -> Result<(), AllocError> {
        put_replay(out, self.lasting(alloc, number)?, self.last(), tag);
        Ok(())
    }

    /// Adds how the game stands in short: what stays as it is at the end of the file, with when
    /// sheets are due, and what changes.
    fn put_status(
        &self,
        alloc: Global,
        out: &mut Writer,
        scene: &Scene,
        due: &[u8],
    ) -> Result<(), AllocError> {
        out.begin_as(Tag::Listing, "status");
        for (number, words) in STATUS.iter().enumerate() {
            out.begin(Tag::Item);
            out.element(Tag::Small, &[Words(words)]);
            out.put(&[Words(" ")]);
            out.begin(Tag::Bold);
            let layer = FIRST_STATUS.saturating_add(number);
            self.put_numbered(alloc, out, layer, Tag::Span)?;
            out.end();
            out.end();
        }
        put_next(out, scene, due);
        put_source(out, self.source);
        out.end();
        Ok(())
    }

    /// Adds the map and the routes on it.
    fn put_map(&self, alloc: Global, out: &mut Writer, scene: &Scene) -> Result<(), AllocError> {
        let words = "Map and the routes of the last operating round";
        begin_section(out, "map", words, "");
        begin_picture(out, None);
        self.drawings.put(out);
        out.begin_as(Tag::Group, "ground");
        for &hex in &Hex::ALL {
            out.begin(Tag::Anchor);
            out.value(Attr::Href, &[Words("#hex-"), Hexed(hex)]);
            put_hex_title(out, hex);
            self.put_numbered(alloc, out, hex_layer(hex, HexLayer::Ground), Tag::Group)?;
            out.end();
        }
        out.end();
        out.begin_as(Tag::Group, "top");
        self.put_on_hexes(alloc, out, HexLayer::Track)?;
        put_borders(out);
        self.put_new(alloc, out, Layer::NewTiles)?;
        out.end();
        self.put_layer(alloc, out, Layer::Lines, Tag::Group)?;
        out.begin_as(Tag::Group, "top");
        self.put_on_hexes(alloc, out, HexLayer::Stops)?;
        self.put_layer(alloc, out, Layer::Sums, Tag::Group)?;
        self.put_new(alloc, out, Layer::NewTokens)?;
        end_map(out);
        put_key(out);
        let opens = Count(map_opens_at(scene.history));
        out.begin(Tag::Span);
        out.value(Attr::Class, &[Words("at at"), opens]);
        out.end();
        out.end();
        Ok(())
    }

    /// Adds a layer of what is new since an earlier page.
    fn put_new(&self, alloc: Global, out: &mut Writer, layer: Layer) -> Result<(), AllocError> {
        out.begin_as(Tag::Group, "new");
        self.put_layer(alloc, out, layer, Tag::Group)?;
        out.end();
        Ok(())
    }

    /// Adds a layer of each hex, in a group at its centre.
    fn put_on_hexes(
        &self,
        alloc: Global,
        out: &mut Writer,
        layer: HexLayer,
    ) -> Result<(), AllocError> {
        for &hex in &Hex::ALL {
            out.begin_at(centre(hex));
            self.put_numbered(alloc, out, hex_layer(hex, layer), Tag::Group)?;
            out.end();
        }
        Ok(())
    }

    /// Returns what is written of each hex in words, in the order of the hexes.
    pub(crate) fn hex_words(&self, alloc: Global) -> Result<Vec<Vec<Part>>, AllocError> {
        let mut words = Vec::new(alloc);
        for &hex in &Hex::ALL {
            let layer = hex_layer(hex, HexLayer::Words);
            let mut out = Writer::of_parts(alloc);
            self.put_numbered(alloc, &mut out, layer, Tag::Span)?;
            out.end_part();
            words.push(out.finish_parts()?)?;
        }
        Ok(words)
    }
}

/// Adds the hexes in words, given what is written of each.
pub(crate) fn put_hexes(out: &mut Writer, words: &[Vec<Part>]) {
    begin_hexes(out);
    for (hex, parts) in Hex::ALL.iter().zip(words) {
        begin_hex(out, *hex);
        for part in parts {
            out.put_part(part);
        }
        out.end();
    }
    out.end();
    out.end();
}

/// Adds the title of a hex on the map: its name, and that of its city.
fn put_hex_title(out: &mut Writer, hex: Hex) {
    out.begin(Tag::Title);
    out.within();
    out.put(&[Hexed(hex)]);
    if let Some(name) = city_name(hex) {
        out.put(&[Words(" "), Words(name)]);
    }
    out.end();
}
