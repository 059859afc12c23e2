//! The page of a game.
ghost use Rattle.std.specs.Prelude.{◌≡◌, IfErr, IfOk, OnOk};
ghost use Rattle.desk_base.specs.Played.{IsMomentFault, moment_after};
ghost use Rattle.markup.specs.Reading.{IsWellFormed};
ghost use Rattle.page.specs.ChartToken.{chart_token, tokens_of};
ghost use Rattle.sheets.specs.File.{IsAccepted};

use crate::bulletin_part::{bulletin_text, put_bulletin};
use crate::checksum::{Source, source_of};
use crate::due::{due_shown, due_told};
use crate::opens_at::{chart_opens_at, map_opens_at};
use crate::phases_part::put_phases;
use crate::result_part::put_result;
use crate::revenue_part::put_revenue;
use crate::status_part::{self, LINKS};
use crate::style::STYLE;
use crate::tables_part::{PageRows, put_companies, put_players, put_stock};
use crate::worth_history::{entries_of, thinned};
use desk_base::{DeskFault, Moment, Stood, position_at};
use desk_cells::before_in_stack;
use history::History;
use markup::PagePiece::{Count, Round as Named, Words};
use markup::{Attr, Part, Tag, Writer, begin_plain_section, begin_section};
use page_ahead::{Panel, STYLE_OF_PANEL, put_panel};
use page_charts::{ChartToken, ChartTokens, Players, put_chart, put_history};
use page_map::{
    Scene, begin_map, end_map, moved_in_last_round, put_hexes, put_key, put_labels, put_laid,
    put_tiles_left, square_before_round,
};
use page_routes::{Routes, last_routes, names_beside, put_lines, put_table, put_tags};
use picture::PlacedName;
use rounds::End;
use sheets::{Sheets, collect};
use std::alloc::{AllocError, Global};
use tables::{Company, Round};

/// Which page is made.
#[derive(Clone, Copy)]
enum Form {
    /// All of it.
    Whole,
    /// With a script, up to its hexes in words, and with this style behind that of all pages.
    ToHexes(&'static str),
}

/// What a page shows besides the game of its order file.
#[derive(Clone, Copy)]
struct Told<'a> {
    form: Form,
    source: Source,
    /// When sheets are due, in the umpire's words; empty if they did not say.
    due: &'a [u8],
    /// The bulletin of the round.
    bulletin: &'a [u8],
}

/// A page up to its hexes in words, which the caller adds.
#[derive(Drop)]
pub struct PageToHexes {
    pub out: Writer,
    /// What is written of each hex in words, in the order of the hexes; empty if that is the hex as
    /// it is now.
    pub hexes: Vec<Vec<Part>>,
    /// The names on the map.
    pub names: Vec<PlacedName>,
}

/// Returns the page of the game of an order file after a round, or after the last one if none is
/// named: map, routes, stock chart, history, tables and tiles, as one file of HTML. `due` says when
/// the next sheets are due; it may be empty.
///
/// Fails with `File` if the file is refused, with `Round` if the round was not played, and with
/// `Memory` if allocation fails.
pub fn page(
    alloc: Global,
    file: &[u8],
    asked: Option<Round>,
    due: &str,
) -> Result<Vec<u8>, DeskFault>
    ensures accepted { OnOk result (IsAccepted file.now) }
    ensures well_formed { IfOk result (λ page. IsWellFormed page.items) }
    ensures fault { IfErr result (IsMomentFault file.now (moment_after asked)) }
{
    let PageToHexes { out, .. } = begun(alloc, file, asked, due, Form::Whole)?;
    Ok(out.finish()?)
}

/// Returns the same page for a script, up to its hexes in words, which the caller adds, with a
/// style for these. The errors are those of `page`.
pub fn page_to_hexes(
    alloc: Global,
    file: &[u8],
    asked: Option<Round>,
    due: &str,
    style: &'static str,
) -> Result<PageToHexes, DeskFault>
    ensures accepted { OnOk result (IsAccepted file.now) }
    ensures fault { IfErr result (IsMomentFault file.now (moment_after asked)) }
{
    begun(alloc, file, asked, due, Form::ToHexes(style))
}

/// Returns the page of the game of an order file, not yet ended.
#[tactic(auto, using(desk_base::proofs::Refusals::none_where_it_fails, desk_base::proofs::PlayedLemmas::no_moment_where_it_fails))]
fn begun(
    alloc: Global,
    file: &[u8],
    asked: Option<Round>,
    due: &str,
    form: Form,
) -> Result<PageToHexes, DeskFault>
    ensures accepted { OnOk result (IsAccepted file.now) }
    ensures fault { IfErr result (IsMomentFault file.now (moment_after asked)) }
{
    let sheets = collect(alloc, file)?;
    let due = due_shown(alloc, due)?;
    let told = Told {
        form,
        source: source_of(file),
        due: due.as_slice(),
        bulletin: &[],
    };
    page_of(alloc, &sheets, asked, told)
}

/// Returns the page of the game of some sheets, not yet ended.
fn page_of(
    alloc: Global,
    sheets: &Sheets,
    asked: Option<Round>,
    told: Told,
) -> Result<PageToHexes, DeskFault>
    ensures { IfErr result (IsMomentFault sheets.now (moment_after asked)) }
{
    let position = position_at(alloc, sheets, Moment::after(asked))?;
    Ok(page_of_stood(alloc, &position.stood(), told)?)
}

/// Returns the page of a game at a moment, not yet ended.
fn page_of_stood(alloc: Global, stood: &Stood, told: Told) -> Result<PageToHexes, AllocError> {
    let bulletin = bulletin_text(alloc, stood)?;
    let scene = Scene::of(stood);
    let told = Told {
        due: due_told(scene.owe.contains(&true), told.due),
        bulletin: bulletin.as_slice(),
        ..told
    };
    page_text(alloc, &scene, told)
}

/// Returns the page of what a scene shows, not yet ended.
fn page_text(alloc: Global, scene: &Scene, told: Told) -> Result<PageToHexes, AllocError> {
    let history = scene.history;
    let routes = last_routes(alloc, history)?;
    let names = names_beside(alloc, history, &routes)?;
    let entries = entries_of(alloc, history)?;
    let entries = thinned(alloc, entries.as_slice())?;
    let mut out = match told.form {
        Form::Whole => Writer::page(alloc),
        Form::ToHexes(_) => Writer::scripted_page(alloc),
    };
    begin_page(&mut out, scene, told);
    put_result(alloc, &mut out, scene)?;
    put_ahead(alloc, &mut out, scene, told)?;
    status_part::put_status(&mut out, scene, told.source);
    put_map_section(alloc, &mut out, scene, &routes, names.as_slice())?;
    put_bulletin(&mut out, scene, told.bulletin);
    begin_section(&mut out, "chart", "Stock chart", "");
    let tokens = tokens_of(history);
    put_chart(&mut out, &tokens);
    let opens = Count(chart_opens_at(&tokens));
    out.begin(Tag::Span);
    out.value(Attr::Class, &[Words("at at"), opens]);
    out.end();
    out.end();
    put_history(&mut out, &players_of(scene), entries.as_slice());
    put_tables(alloc, &mut out, scene)?;
    put_tiles_left(&mut out, history);
    put_laid(&mut out, history);
    out.begin_as(Tag::Anchor, "back");
    out.value(Attr::Href, &[Words("#map")]);
    out.within();
    out.put(&[Words("Back to the map")]);
    out.end();
    if let Form::Whole = told.form {
        put_hexes(&mut out, scene);
    }
    Ok(PageToHexes {
        out,
        hexes: Vec::new(alloc),
        names,
    })
}

/// Returns the players.
pub fn players_of<'a>(scene: &Scene<'a>) -> Players<'a>
    ensures { result.seats ≡ scene.now.seats }
{
    Players {
        names: scene.names,
        seats: scene.seats,
    }
}

/// Returns the tokens on the stock chart, in the order of the roster.
#[tactic(auto, unfolding(crate::specs::ChartToken::tokens_of))]
pub fn tokens_of(history: &History) -> ChartTokens
    ensures { result ≡ tokens_of history.now.events }
{
    [
        token_of(history, Company::Pennsylvania),
        token_of(history, Company::NewYorkCentral),
        token_of(history, Company::CanadianPacific),
        token_of(history, Company::BaltimoreOhio),
        token_of(history, Company::ChesapeakeOhio),
        token_of(history, Company::Erie),
        token_of(history, Company::NewHaven),
        token_of(history, Company::BostonMaine),
    ]
}

/// Returns the token of a company on the stock chart, if it is there.
fn token_of(history: &History, company: Company) -> Option<ChartToken>
    ensures { result ≡ chart_token history.now.events company }
{
    let view = history.now();
    let square = view.square(company)?;
    Some(ChartToken {
        company,
        square,
        place: before_in_stack(&view, square, company),
        is_new: moved_in_last_round(history.events(), company),
        from: square_before_round(history.events(), company),
    })
}

/// Adds what comes before the sections.
fn begin_page(out: &mut Writer, scene: &Scene, told: Told) {
    status_part::put_title(out, scene, Tag::Title);
    out.element(Tag::Style, &[Words(STYLE), Words(STYLE_OF_PANEL)]);
    if let Form::ToHexes(style) = told.form {
        out.element(Tag::Style, &[Words(style)]);
    }
    out.end();
    out.begin(Tag::Body);
    status_part::put_skip(out);
    put_head(out, scene);
    out.begin(Tag::Main);
}

/// Adds what a player must know before the next round, if one comes. Fails only if allocation
/// fails.
fn put_ahead(alloc: Global, out: &mut Writer, scene: &Scene, told: Told) -> Result<(), AllocError> {
    let End::Awaiting(round) = scene.end else {
        return Ok(());
    };
    let panel = Panel {
        scene,
        round,
        due: told.due,
    };
    put_panel(alloc, out, &panel)
}

/// Adds what is above the sections.
fn put_head(out: &mut Writer, scene: &Scene) {
    out.begin(Tag::Header);
    status_part::put_title(out, scene, Tag::H1);
    status_part::put_names(out, scene);
    status_part::put_links(out, &LINKS);
    out.end();
}

/// Adds the map and the routes. Fails only if allocation fails.
fn put_map_section(
    alloc: Global,
    out: &mut Writer,
    scene: &Scene,
    routes: &Routes,
    names: &[PlacedName],
) -> Result<(), AllocError> {
    begin_plain_section(out, "map", "Map and routes");
    out.begin_as(Tag::Anchor, "skip");
    out.value(Attr::Href, &[Words("#routes")]);
    out.within();
    out.put(&[Words("Skip past the map")]);
    out.end();
    match routes.round {
        Some(round) => out.element(Tag::H2, &[Words("Map and the routes of "), Named(round)]),
        None => out.element(Tag::H2, &[Words("Map")]),
    }
    begin_map(out, scene, routes.round);
    put_lines(alloc, out, scene.history, routes)?;
    put_labels(out, scene, names);
    put_tags(alloc, out, scene.history, routes, names)?;
    end_map(out);
    put_key(out);
    let opens = Count(map_opens_at(scene.history));
    out.begin(Tag::Span);
    out.value(Attr::Class, &[Words("at at"), opens]);
    out.end();
    out.end();
    begin_plain_section(out, "routes", "Routes");
    put_table(alloc, out, scene.history, routes)?;
    out.end();
    Ok(())
}

/// Adds the tables. Fails only if allocation fails.
fn put_tables(alloc: Global, out: &mut Writer, scene: &Scene) -> Result<(), AllocError> {
    let rows = PageRows::of(alloc, scene)?;
    begin_section(out, "tables", "Tables", "");
    put_players(out, scene, &rows);
    put_companies(out, scene, &rows);
    put_revenue(alloc, out, scene.history)?;
    out.begin_as(Tag::Division, "pair");
    put_stock(out, scene, &rows);
    put_phases(out, scene.history);
    out.end();
    out.end();
    Ok(())
}
