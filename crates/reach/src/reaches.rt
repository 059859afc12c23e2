//! Whether a company reaches a stop, or some track in a hex, given a list of the tokens. Nothing is
//! allocated.
ghost use Rattle.std.specs.Prelude.{◌≡◌, ◌↔◌, IsTrue, [], false, replicate};
ghost use Rattle.map_tables.specs.Place.{joined_hex};
ghost use Rattle.reach.specs.Pieces.{ReachesIn};
ghost use Rattle.reach.specs.Reached.{ReachesStop};
ghost use Rattle.reach.specs.Search.{AllArrive, HasAllTokens, IsClosed, map_spots};
ghost use Rattle.reach.specs.Tokens.{AreNamed};
ghost use Rattle.reach.specs.Walk.{IsTrack};

use crate::link_visitor::Forgetful;
use crate::network::Network;
use crate::search::{Marks, mark_named, search};
use map_tables::{Hex, Place, Stop};
use tables::Company;

/// Returns whether a company reaches a stop, given tokens that name each stop with a token of the
/// company. Looks for tokens only at the stops that they name. Allocates nothing.
pub fn reaches_stop<N: Network>(
    network: &N,
    company: Company,
    tokens: &[(Place, Company)],
    stop: Stop,
) -> bool
    requires { AreNamed (N.position network.now) company tokens.now }
    ensures { IsTrue result ↔ ReachesStop (N.position network.now) company stop }
{
    network.keeps_laws();
    let mut marks = Marks::none();
    mark_reached(network, company, tokens, &mut marks);
    marks.has_stop(stop)
}

/// Returns whether a company reaches a link or a stop of a hex that is not part of another hex's
/// stop, given tokens that name each stop with a token of the company. Looks for tokens only at the
/// stops that they name. Allocates nothing.
pub fn reaches_hex<N: Network>(
    network: &N,
    company: Company,
    tokens: &[(Place, Company)],
    hex: Hex,
) -> bool
    requires named { AreNamed (N.position network.now) company tokens.now }
    requires own { joined_hex hex ≡ hex }
    ensures { IsTrue result ↔ ReachesIn (N.position network.now) company hex }
{
    network.keeps_laws();
    let mut marks = Marks::none();
    mark_reached(network, company, tokens, &mut marks);
    marks.has_end(hex)
}

/// Marks all spots where walks of a company arrive; nothing may be marked before.
fn mark_reached<N: Network>(
    network: &N,
    company: Company,
    tokens: &[(Place, Company)],
    marks: &mut Marks,
)
    requires named { AreNamed (N.position network.now) company tokens.now }
    requires marks { marks.old.marks ≡ replicate map_spots false }
    requires waiting { marks.old.waiting ≡ [] }
    ensures arrive { AllArrive (N.position network.now) company marks.new.marks }
    ensures tokens { HasAllTokens (N.position network.now) company marks.new.marks }
    ensures closed { let position = N.position network.now in
        IsClosed position company (IsTrack position) marks.new.marks }
{
    network.keeps_laws();
    mark_named(network, company, tokens, marks);
    match search(network, company, marks, &mut Forgetful) {
        Ok(()) => {}
        Err(never) => match never {},
    }
}
