//! The page of all rounds of a game, with a button for each.
ghost use Rattle.std.specs.Prelude.{IfErr, IfOk, OnOk};
ghost use Rattle.desk_base.specs.Played.{IsMomentFault, moment_after};
ghost use Rattle.markup.specs.Reading.{IsWellFormed};
ghost use Rattle.sheets.specs.File.{IsAccepted};

use crate::replayed::Replayed;
use crate::whole_page::{Told, page_to_hexes, put_hexes};
use best_run::Search;
use desk_base::{DeskFault, Moment, Position, position_at, stood_now};
use markup::Writer;
use page::{PageToHexes, Source, due_shown, due_told, entries_of, source_of};
use page_map::Scene;
use rounds::{Play, Step};
use sheets::{Sheets, collect};
use std::alloc::{AllocError, Global};
use tables::Round;

/// Returns the page of the game of an order file with all its rounds up to one, or to the last if
/// none is named, and a button for each. Of more than 60 rounds it shows the last 60. `due` says
/// when the next sheets are due; it may be empty.
///
/// Fails with `File` if the file is refused, with `Round` if the round was not played, and with
/// `Memory` if allocation fails.
pub fn page_of_all(
    alloc: Global,
    file: &[u8],
    asked: Option<Round>,
    due: &str,
) -> Result<Vec<u8>, DeskFault>
    ensures accepted { OnOk result (IsAccepted file.now) }
    ensures well_formed { IfOk result (λ page. IsWellFormed page.items) }
    ensures fault { IfErr result (IsMomentFault file.now (moment_after asked)) }
{
    let page = begun(alloc, file, asked, due, None)?;
    Ok(ended_page(page)?)
}

/// Returns the same page for a script, up to its hexes in words, with a style for these. The errors
/// are those of `page_of_all`.
pub fn page_of_all_to_hexes(
    alloc: Global,
    file: &[u8],
    asked: Option<Round>,
    due: &str,
    style: &'static str,
) -> Result<PageToHexes, DeskFault>
    ensures accepted { OnOk result (IsAccepted file.now) }
    ensures fault { IfErr result (IsMomentFault file.now (moment_after asked)) }
{
    begun(alloc, file, asked, due, Some(style))
}

/// Adds the hexes in words, and ends a page.
fn ended_page(page: PageToHexes) -> Result<Vec<u8>, AllocError>
    ensures { IfOk result (λ page. IsWellFormed page.items) }
{
    let PageToHexes { out, hexes, .. } = page;
    let mut out = out;
    put_hexes(&mut out, hexes.as_slice());
    out.finish()
}

/// Returns the page of all rounds of the game of an order file, up to its hexes in words.
#[tactic(auto, using(desk_base::proofs::PlayedLemmas::no_moment_where_it_fails))]
fn begun(
    alloc: Global,
    file: &[u8],
    asked: Option<Round>,
    due: &str,
    style: Option<&'static str>,
) -> Result<PageToHexes, DeskFault>
    ensures accepted { OnOk result (IsAccepted file.now) }
    ensures fault { IfErr result (IsMomentFault file.now (moment_after asked)) }
{
    let sheets = collect(alloc, file)?;
    let due = due_shown(alloc, due)?;
    let told = Told {
        due: due.as_slice(),
        style,
    };
    page_of(alloc, &sheets, source_of(file), asked, told)
}

/// Returns the page of all rounds of the game of some sheets, up to its hexes in words.
fn page_of(
    alloc: Global,
    sheets: &Sheets,
    source: Source,
    asked: Option<Round>,
    told: Told,
) -> Result<PageToHexes, DeskFault>
    ensures { IfErr result (IsMomentFault sheets.now (moment_after asked)) }
{
    let position = position_at(alloc, sheets, Moment::after(asked))?;
    let replayed = replayed_to(alloc, &position, source)?;
    Ok(page_of_scene(alloc, &Scene::of(&position.stood()), &replayed, told)?)
}

/// Plays the game up to a position, and returns what a page shows of each round. Fails only if
/// allocation fails. (The game is played a second time, since a page of a round that is left out
/// would cost as much as one that is shown.)
fn replayed_to(alloc: Global, position: &Position, source: Source) -> Result<Replayed, AllocError> {
    let entries = entries_of(alloc, &position.history)?;
    let rounds = entries.len();
    let mut replayed = Replayed::new(alloc, source, entries);
    let mut play = Play::start(alloc, position.sheets)?;
    let mut search = Search::new(alloc);
    for _ in 1..rounds {
        match play.step(&mut search) {
            Ok(Step::Played(_)) => {
                if let Some(stood) = stood_now(&play) {
                    replayed.add(alloc, &stood)?;
                }
            }
            Ok(Step::Ended(_)) => break,
            Err(fault) => return Err(fault.want_of_memory()),
        }
    }
    replayed.add(alloc, &position.stood())?;
    Ok(replayed)
}

/// Returns the page of some rounds, given the game at their end.
fn page_of_scene(
    alloc: Global,
    scene: &Scene,
    replayed: &Replayed,
    told: Told,
) -> Result<PageToHexes, AllocError> {
    let told = Told {
        due: due_told(scene.owe.contains(&true), told.due),
        style: told.style,
    };
    Ok(PageToHexes {
        out: page_to_hexes(alloc, scene, replayed, told)?,
        hexes: replayed.hex_words(alloc)?,
        names: Vec::from_slice(alloc, replayed.names.as_slice())?,
    })
}
