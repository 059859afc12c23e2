//! The bulletin of a round: its turns as its players read them, and a statement of what they have
//! after it; and the same on a page.
ghost use Rattle.std.specs.Prelude.{IfErr, OnOk};
ghost use Rattle.desk_base.specs.Played.{HasNoRound, IsRoundFault};
ghost use Rattle.sheets.specs.File.{IsAccepted};

use desk_base::{DeskFault, Stood, played_round};
use desk_round::turns;
use desk_state::statement;
use markup::PagePiece::{Round as Named, Words};
use markup::{Attr, Tag, Writer, begin_section};
use page_ahead::put_story;
use page_map::Scene;
use sheets::{Sheets, collect};
use std::alloc::{AllocError, Global};
use tables::Round;

/// Returns the bulletin of a round of the game of a file, the named one or else the last one
/// played, in lines of at most 80 columns. `due` says when the next sheets are due; it may be
/// empty. Fails with `File` if the file is refused, with `Round` if that round was not played or no
/// round was, and with `Memory` if allocation fails.
#[tactic(auto, using(desk_base::proofs::Refusals::none_where_it_fails, desk_base::proofs::PlayedLemmas::no_round_where_it_fails))]
pub fn bulletin(
    alloc: Global,
    file: &[u8],
    asked: Option<Round>,
    due: &str,
) -> Result<Vec<u8>, DeskFault>
    ensures accepted { OnOk result (IsAccepted file.now) }
    ensures fault { IfErr result (IsRoundFault file.now asked) }
{
    let sheets = collect(alloc, file)?;
    bulletin_by(alloc, &sheets, asked, due)
}

/// Returns the bulletin of a round of the game of some sheets.
#[tactic(auto, using(crate::proofs::BulletinLemmas::has_bulletin))]
fn bulletin_by(
    alloc: Global,
    sheets: &Sheets,
    asked: Option<Round>,
    due: &str,
) -> Result<Vec<u8>, DeskFault>
    ensures { IfErr result (IsRoundFault sheets.now asked) }
{
    let its = played_round(alloc, sheets, asked)?;
    bulletin_of(alloc, &its.position.stood(), due)
}

/// Returns the bulletin of the last round of a game at a moment: its turns, and then the statement.
/// Fails with `Round` if no round has been played.
#[tactic(auto, using(desk_round::proofs::RoundParts::last_has_turns))]
fn bulletin_of(alloc: Global, stood: &Stood, due: &str) -> Result<Vec<u8>, DeskFault>
    ensures { IfErr result (HasNoRound stood.now.history.now.events) }
{
    let Some(round) = stood.history.now().round() else {
        return Err(DeskFault::Round);
    };
    let mut text = turns(alloc, stood.sheets, stood.history, round)?;
    text.extend_from_slice(statement(alloc, stood, due)?.as_slice())?;
    Ok(text)
}

/// Returns that bulletin; no text if no round has been played. Fails only if allocation fails.
pub(crate) fn bulletin_text(alloc: Global, stood: &Stood) -> Result<Vec<u8>, AllocError> {
    match bulletin_of(alloc, stood, "") {
        Ok(text) => Ok(text),
        // An allocation failed: passed on.
        Err(DeskFault::Memory) => Err(AllocError),
        Err(DeskFault::Round | DeskFault::File(_)) => Ok(Vec::new(alloc)),
    }
}

/// Adds what happened in the last round, if there is one: a sentence for each turn, and behind a
/// box that unfolds it the bulletin.
pub(crate) fn put_bulletin(out: &mut Writer, scene: &Scene, text: &[u8]) {
    begin_section(out, "bulletin", "What happened", "");
    match scene.history.now().round() {
        Some(round) => {
            out.element(Tag::H3, &[Words("Turns of "), Named(round)]);
            put_story(out, scene);
            out.begin(Tag::Input);
            out.value(Attr::Kind, &[Words("checkbox")]);
            out.value(Attr::Id, &[Words("whole")]);
            out.end();
            out.begin(Tag::InputLabel);
            out.value(Attr::For, &[Words("whole")]);
            out.within();
            out.put(&[Words("The bulletin, with the lines that were refused")]);
            out.end();
            out.begin_as(Tag::Preformatted, "told");
            out.text(text);
            out.end();
        }
        None => out.element(Tag::Paragraph, &[Words("No round has been played.")]),
    }
    out.end();
}
