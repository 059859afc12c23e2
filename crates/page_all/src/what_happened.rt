//! What happened in a round.

use markup::PagePiece::{Round as Named, Words};
use markup::{Tag, Writer};
use page::put_story;
use page_map::Scene;

/// Adds what happened in the last round, if one has been played: a sentence for each turn.
pub(crate) fn put_turns(out: &mut Writer, scene: &Scene) {
    match scene.history.now().round() {
        Some(round) => {
            out.element(Tag::H3, &[Words("Turns of "), Named(round)]);
            put_story(out, scene);
        }
        None => out.element(Tag::Paragraph, &[Words("No round has been played.")]),
    }
}
