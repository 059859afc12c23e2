//! The rounds of a game, each with what a page shows of it.
ghost use Rattle.std.specs.Prelude.{◌≡◌, ◌-◌, [], length};

use crate::drawings::Drawings;
use crate::layers::{Shown, layers_of};
use crate::lines::line_numbers;
use crate::since::Since;
use desk_base::Stood;
use page::Source;
use page_charts::Entry;
use page_map::Scene;
use page_routes::{Routes, last_routes, names_beside};
use picture::PlacedName;
use replay::Layers;
use std::alloc::{AllocError, Global};
use tables::{Kind, Round};

/// The most rounds that a page shows.
const ROUNDS_MOST: usize = 60;

/// The rounds that a page shows, with what it shows of each.
#[derive(Drop)]
pub(crate) struct Replayed {
    pub(crate) source: Source,
    pub(crate) rounds: Vec<Round>,
    /// The phase at the end of each.
    pub(crate) phases: Vec<Kind>,
    pub(crate) pages: Vec<Layers>,
    /// For each page the numbers of the drawings of its routes' lines.
    pub(crate) lines: Vec<Vec<Option<usize>>>,
    /// How many rounds before them are left out.
    pub(crate) before: usize,
    /// How many of these have been played.
    passed: usize,
    /// The figures after each round, those left out too.
    pub(crate) entries: Vec<Entry>,
    /// What is drawn once.
    pub(crate) drawings: Drawings,
    /// The names on the map after the last of them.
    pub(crate) names: Vec<PlacedName>,
    /// The runs of the last operating round so far.
    routes: Option<Routes>,
    /// Since when the tiles and tokens are on the map.
    since: Since,
}

impl Replayed {
    /// Returns no rounds, given the figures after each round that will be added. Rounds before the
    /// last `ROUNDS_MOST` are left out.
    pub(crate) fn new(alloc: Global, source: Source, entries: Vec<Entry>) -> Replayed
        ensures { result.pages.items ≡ [] }
    {
        let before = entries.len().saturating_sub(ROUNDS_MOST);
        Replayed {
            source,
            rounds: Vec::new(alloc),
            phases: Vec::new(alloc),
            pages: Vec::new(alloc),
            lines: Vec::new(alloc),
            names: Vec::new(alloc),
            before,
            passed: 0,
            entries,
            drawings: Drawings::new(alloc),
            routes: None,
            since: Since::new(alloc),
        }
    }

    /// Adds the page of a game at a moment, with the round that it played last, unless this one is
    /// to be left out. Fails only if allocation fails.
    pub(crate) fn add(&mut self, alloc: Global, stood: &Stood) -> Result<(), AllocError> {
        if let Some(round) = stood.history.now().round() {
            if self.passed < self.before {
                self.passed += 1;
                return Ok(());
            }
            self.rounds.push(round)?;
            self.phases.push(stood.history.phase())?;
            if matches!(round, Round::Operating { .. }) {
                self.routes = None;
            }
        }
        self.add_page(alloc, stood)
    }

    /// Adds the page of a game at a moment.
    fn add_page(&mut self, alloc: Global, stood: &Stood) -> Result<(), AllocError> {
        let routes = match self.routes.take() {
            Some(routes) => routes,
            None => last_routes(alloc, stood.history)?,
        };
        self.since.add(stood.history, self.pages.len())?;
        let lines = line_numbers(alloc, stood.history, &routes, &mut self.drawings)?;
        let names = names_beside(alloc, stood.history, &routes)?;
        let shown = Shown {
            routes: &routes,
            lines: lines.as_slice(),
            names: names.as_slice(),
            since: &self.since,
        };
        let page = layers_of(alloc, &Scene::of(stood), shown, &mut self.drawings)?;
        self.pages.push(page)?;
        self.lines.push(lines)?;
        self.names = names;
        self.routes = Some(routes);
        Ok(())
    }

    /// Returns whether a drawing is the line of a route on some page.
    pub(crate) fn has_line(&self, number: usize) -> bool {
        self.lines
            .iter()
            .any(|drawn| drawn.iter().any(|other| *other == Some(number)))
    }

    /// Returns the number of its last page.
    pub(crate) fn last(&self) -> usize
        ensures { result ≡ length self.now.pages.items - 1 }
    {
        self.pages.len().saturating_sub(1)
    }
}
