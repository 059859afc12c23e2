//! Since which page each tile and token is on the map.
ghost use Rattle.std.specs.Prelude.{◌≡◌, []};

use crate::drawings::NEW_TILE;
use desk_base::has_token;
use history::History;
use map_tables::{Hex, Stop, StopNumber};
use markup::PagePiece::{Count, Words};
use markup::{Attr, Point, Tag, Writer};
use page_map::{laid_in_last_round, placed_in_last_round};
use picture::{Look, centre};
use std::alloc::{AllocError, Global};
use tables::Company;

/// The tiles and tokens that are on the map since a page after the first, each with the number of
/// that page.
#[derive(Drop)]
pub(crate) struct Since {
    tiles: Vec<(Hex, usize)>,
    tokens: Vec<(Stop, Company, usize)>,
}

impl Since {
    /// Returns no tiles and no tokens.
    pub(crate) fn new(alloc: Global) -> Since
        ensures tiles { result.tiles.items ≡ [] }
        ensures tokens { result.tokens.items ≡ [] }
    {
        Since {
            tiles: Vec::new(alloc),
            tokens: Vec::new(alloc),
        }
    }

    /// Adds those of the last round, given the number of its page. Fails only if allocation fails.
    pub(crate) fn add(&mut self, history: &History, page: usize) -> Result<(), AllocError> {
        if page == 0 {
            return Ok(());
        }
        for &hex in &Hex::ALL {
            if laid_in_last_round(history.events(), hex) {
                self.tiles.push((hex, page))?;
            }
        }
        for (place, company) in history.tokens() {
            if let Some(stop) = place.stop() {
                if placed_in_last_round(history.events(), stop, *company) {
                    self.tokens.push((stop, *company, page))?;
                }
            }
        }
        Ok(())
    }

    /// Returns the page since which the tile of a hex is on the map.
    fn of_tile(&self, hex: Hex) -> Option<usize> {
        let mut since = None;
        for tile in &self.tiles {
            if tile.0 == hex {
                since = Some(tile.1);
            }
        }
        since
    }

    /// Returns the page since which a company's token at a stop is on the map.
    fn of_token(&self, stop: Stop, company: Company) -> Option<usize> {
        for token in &self.tokens {
            if token.0 == stop && token.1 == company {
                return Some(token.2);
            }
        }
        None
    }
}

/// Adds the rims of the tiles that are new since a page, each with the class that names this page.
pub(crate) fn put_new_tiles(out: &mut Writer, since: &Since) {
    for &hex in &Hex::ALL {
        if let Some(page) = since.of_tile(hex) {
            put_rim(out, NEW_TILE, centre(hex), page);
        }
    }
}

/// Adds the rims of the tokens that are new since a page, likewise.
pub(crate) fn put_new_tokens(out: &mut Writer, history: &History, since: &Since) {
    for &hex in &Hex::ALL {
        let look = Look::on(history.lays(), hex);
        if look.slots > 0 {
            for &number in &[StopNumber::First, StopNumber::Second] {
                put_rims_at(out, history, since, &look, number);
            }
        }
    }
}

/// Adds the rims of the tokens at a stop: they fill its slots in the order of the companies.
fn put_rims_at(
    out: &mut Writer,
    history: &History,
    since: &Since,
    look: &Look,
    number: StopNumber,
) {
    let stop = Stop {
        hex: look.hex,
        number,
    };
    let slots = look.slot_places(number);
    let mut slot = slots.0;
    for &company in &Company::ALL {
        if has_token(history, stop, company) {
            if let Some(page) = since.of_token(stop, company) {
                put_rim(out, "nt", centre(look.hex).plus(slot), page);
            }
            slot = slots.1;
        }
    }
}

/// Adds the rim of a thing that is on the map since a page.
fn put_rim(out: &mut Writer, sign: &'static str, place: Point, page: usize) {
    out.begin(Tag::Use);
    out.value(Attr::Class, &[Words("n"), Count(page)]);
    out.value(Attr::Href, &[Words("#"), Words(sign)]);
    out.place_at(place);
    out.end();
}
