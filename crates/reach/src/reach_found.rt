//! The stops and links that a company reaches, as lists.
ghost use Rattle.std.specs.Prelude.{◌≡◌, IsTrue, ◌↔◌, IfOk};
ghost use Rattle.reach.specs.Position.{IsAmong};
ghost use Rattle.reach.specs.Reached.{IsReach};

use crate::network::Network;
use crate::search::{Marks, mark_tokens, search};
use crate::stops::marked_stops;
use map_tables::{Link, Stop};
use std::alloc::{AllocError, Global};
use std::marker::Model;
use tables::Company;

/// How many links a search has room for at first. A usual map needs no more.
const LINKS_ROOM: usize = 96;

/// What a company reaches: stops and links. In a contract it is the two lists. Each link is listed
/// once, or twice if it was followed in both directions.
#[derive(Drop)]
pub struct Reach {
    stops: Vec<Stop>,
    links: Vec<Link>,
}

impl Model for Reach {
    ghost use Rattle.reach.specs.Reached.{Reaching};

    ghost Value = { Reaching };

    ghost view = { λ r. record { stops = r.stops.items; links = r.links.items } };
}

impl Reach {
    /// Returns the stops that are reached, in the order of the map. A stop that lies in two hexes
    /// is listed once, under its own name.
    pub fn stops(&self) -> &[Stop]
        ensures { result.now ≡ self.now.stops }
    {
        self.stops.as_slice()
    }

    /// Returns whether a link is reached.
    pub fn touches(&self, link: &Link) -> bool
        ensures { IsTrue result ↔ IsAmong link.now self.now.links }
    {
        self.links.contains(link)
    }
}

/// Returns what a company reaches: the stops where it has tokens, and each stop and link that a
/// walk from there touches. Such a walk may end in a city that is full for the company, but may not
/// pass through it. It may pass through a red stop. Fails only if the allocation of the lists
/// fails.
pub fn reached<N: Network>(
    alloc: Global,
    network: &N,
    company: Company,
) -> Result<Reach, AllocError>
    ensures { IfOk result (IsReach (N.position network.now) company) }
{
    network.keeps_laws();
    let mut links = Vec::with_capacity(alloc, LINKS_ROOM)?;
    let mut marks = Marks::none();
    mark_tokens(network, company, &mut marks);
    search(network, company, &mut marks, &mut links)?;
    let stops = marked_stops(&marks).stops().to_vec(alloc)?;
    Ok(Reach { stops, links })
}
