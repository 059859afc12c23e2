//! The events of a round as JSON, each with the word and the fields of its line in the report.
ghost use Rattle.std.specs.Prelude.{IfErr, OnOk};
ghost use Rattle.desk_base.specs.Played.{IsRoundFault};
ghost use Rattle.sheets.specs.File.{IsAccepted};

use crate::event_facts::EventFacts;
use crate::facts::{FORM, Fact, Object, json_line};
use desk_base::{DeskFault, played_round};
use history::Event;
use serde::{Described, Serialize, Serializer};
use sheets::{Sheets, collect};
use std::alloc::Global;
use tables::Round;

/// Returns the events of a round of the game of an order file as JSON, in one line: the round
/// named, or else the last one played. Fails with `File` if the file is refused, with `Round` if
/// that round was not played, or no round was, and with `Memory` if allocation fails.
#[tactic(auto, using(desk_base::proofs::Refusals::none_where_it_fails, desk_base::proofs::PlayedLemmas::no_round_where_it_fails))]
pub fn round_facts(alloc: Global, file: &[u8], asked: Option<Round>) -> Result<Vec<u8>, DeskFault>
    ensures accepted { OnOk result (IsAccepted file.now) }
    ensures fault { IfErr result (IsRoundFault file.now asked) }
{
    let sheets = collect(alloc, file)?;
    facts_in(alloc, &sheets, asked)
}

/// Returns those events of the game of some sheets.
fn facts_in(alloc: Global, sheets: &Sheets, asked: Option<Round>) -> Result<Vec<u8>, DeskFault>
    ensures { IfErr result (IsRoundFault sheets.now asked) }
{
    let played = played_round(alloc, sheets, asked)?;
    let facts = RoundFacts {
        alloc,
        sheets,
        round: played.round,
        events: played.position.history.events(),
    };
    Ok(json_line(alloc, &facts)?)
}

/// A round with its events, which are among those of a game.
#[derive(Drop)]
struct RoundFacts<'a> {
    alloc: Global,
    sheets: &'a Sheets<'a>,
    round: Round,
    events: &'a [Event],
}

impl Described for RoundFacts<'_> {}

impl Serialize for RoundFacts<'_> {
    fn serialize<S: Serializer>(&self, out: &mut S) -> Result<(), S::Error> {
        let (alloc, sheets) = (self.alloc, self.sheets);
        let facts = &[FORM, ("round", Fact::from(self.round))];
        out.begin_map(None)?;
        out.flatten_next()?;
        Object { alloc, facts }.serialize(out)?;
        out.key("events")?;
        out.begin_seq(None)?;
        let mut is_within = false;
        for event in self.events {
            if let Some(begun) = event.round() {
                is_within = begun == self.round;
            }
            if is_within {
                EventFacts {
                    alloc,
                    sheets,
                    event,
                }
                .serialize(out)?;
            }
        }
        out.end_seq()?;
        out.end_map()
    }
}
