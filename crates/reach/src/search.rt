//! The search for all that a company reaches: from its tokens it follows the links, and marks each
//! end of a hex where a walk arrives.
ghost use Rattle.std.specs.Prelude.{◌≡◌, ◌<◌, ◌≤◌, ◌↔◌, IsTrue, OnOk, [], false, true, length, slice_index_or};
ghost use Rattle.std.specs.Prelude.{replicate};
ghost use Rattle.map_tables.specs.Hex.{index_of};
ghost use Rattle.reach.specs.Lawful.{IsLawful};
ghost use Rattle.reach.specs.Pieces.{HasEnd};
ghost use Rattle.reach.specs.Position.{IsAmong, links_of};
ghost use Rattle.reach.specs.Search.{AllArrive, AllWait, AreTaken, CanEnter, GoesOnAt, HasAllTokens, IsClosed};
ghost use Rattle.reach.specs.Search.{IsEnteredAt, IsFollowed, IsKept, IsMarked, IsMarkedStop, IsMarking, IsTokenMarked};
ghost use Rattle.reach.specs.Search.{KeepsNone, LeadsTo, Spreads, map_spots, marked, twin_of};
ghost use Rattle.reach.specs.Tokens.{AreNamed, IsListed, stop_of_token};
ghost use Rattle.reach.specs.Walk.{IsTrack, entered_at, left_at};
ghost use Rattle.reach.specs.declared.walk.WalkStep.{WalkStep};

use crate::link_visitor::Keeper;
use crate::network::Network;
use crate::stop_numbers::{SPOTS, spot_number};
use crate::waiting::Waiting;
use crate::walk::{Spot, WalkStep};
use map_tables::{ENDS, HEXES, Hex, Link, Place, SIDES, Stop, StopNumber, TrackEnd, joined_stop};
use tables::Company;

/// The ends of the map's hexes at which some walk of the company has arrived, or may begin, and
/// those of them still to look at. Only marked ends wait, so the table has room.
#[derive(Drop)]
pub(crate) struct Marks {
    marks: [bool; SPOTS],
    waiting: Waiting,
    ghost few: { length waiting ≤ marked marks },
}

impl Marks {
    /// Returns the marks before the search, when no walk has arrived anywhere.
    pub(crate) fn none() -> Marks
        ensures marks { result.marks ≡ replicate map_spots false }
        ensures waiting { result.waiting ≡ [] }
    {
        Marks {
            marks: [false; SPOTS],
            waiting: Waiting::none(),
        }
    }

    /// Returns whether a number is marked.
    fn is_marked(&self, number: usize) -> bool
        requires { number < map_spots }
        ensures { result ≡ slice_index_or self.now.marks number false }
    {
        self.marks[number]
    }

    /// Returns whether a walk has arrived at a stop that is listed under its own name.
    pub(crate) fn has_stop(&self, stop: Stop) -> bool
        ensures { IsTrue result ↔ IsMarkedStop self.now.marks stop }
    {
        let number = ENDS * stop.hex.index() + SIDES + stop.number.index();
        self.is_marked(number) && joined_stop(stop) == stop
    }

    /// Returns whether a walk has arrived at an end of a hex that lies in no other hex's stop.
    pub(crate) fn has_end(&self, hex: Hex) -> bool
        ensures { IsTrue result ↔ HasEnd self.now.marks hex }
    {
        let first = ENDS * hex.index();
        for number in 0..ENDS {
            if self.is_marked(first + number) {
                return true;
            }
        }
        false
    }

    /// Marks a spot, and puts it among those to look at if it was not marked before.
    fn mark(&mut self, spot: Spot)
        ensures { IsMarking spot
            self.old.marks self.old.waiting self.new.marks self.new.waiting }
    {
        let number = spot_number(spot);
        if !self.marks[number] {
            self.marks[number] = true;
            self.waiting.push(spot);
        }
    }
}

/// Returns the other hex of a stop that lies in two hexes, given the hex that names it; `None` if
/// it lies in one.
pub fn twin(hex: Hex) -> Option<Hex>
    ensures { result ≡ twin_of hex }
{
    match hex {
        Hex::J2 => Some(Hex::I1),
        Hex::A11 => Some(Hex::A9),
        _ => None,
    }
}

/// Returns whether a step enters its link at a spot of the same hex.
fn is_entered(step: WalkStep, at: Spot) -> bool
    requires { step.link.hex ≡ at.hex }
    ensures { IsTrue result ↔ IsEnteredAt at step }
{
    step.entered().end == at.end
}

/// Follows a step: keeps its link, and marks where it is left.
fn follow<K: Keeper>(step: WalkStep, marks: &mut Marks, keeper: &mut K) -> Result<(), K::Fault>
    ensures marking { OnOk result (IsMarking (left_at step)
        marks.old.marks marks.old.waiting marks.new.marks marks.new.waiting) }
    ensures link { OnOk result (IsKept step.link (K.keeps keeper.old) (K.keeps keeper.new)) }
{
    marks.mark(step.left());
    keeper.keep(step.link)?;
    Ok(())
}

/// Follows a step, if it enters its link at a spot.
fn follow_at<K: Keeper>(
    step: WalkStep,
    at: Spot,
    marks: &mut Marks,
    keeper: &mut K,
) -> Result<(), K::Fault>
    requires { step.link.hex ≡ at.hex }
    ensures { OnOk result (IsFollowed step at
        marks.old.marks marks.old.waiting (K.keeps keeper.old)
        marks.new.marks marks.new.waiting (K.keeps keeper.new)) }
{
    if is_entered(step, at) {
        follow(step, marks, keeper)?;
    }
    Ok(())
}

/// Follows a link in the directions in which it is entered at a spot.
fn follow_both<N: Network, K: Keeper>(
    network: &N,
    company: Company,
    link: Link,
    at: Spot,
    marks: &mut Marks,
    keeper: &mut K,
) -> Result<(), K::Fault>
    requires lawful { IsLawful (N.position network.now) }
    requires here { link.hex ≡ at.hex }
    requires track { IsAmong link (links_of (N.position network.now) link.hex) }
    requires may { CanEnter (N.position network.now) company marks.old.marks at }
    ensures { let takes = λ (taken : WalkStep). (taken.link ≡ link) × IsEnteredAt at taken in
        OnOk result (Spreads (N.position network.now) company takes
        marks.old.marks marks.old.waiting (K.keeps keeper.old)
        marks.new.marks marks.new.waiting (K.keeps keeper.new)) }
{
    let forward = WalkStep {
        link,
        turned: false,
    };
    let back = WalkStep { link, turned: true };
    follow_at(forward, at, marks, keeper)?;
    follow_at(back, at, marks, keeper)?;
    Ok(())
}

/// Follows the links of a hex that are entered at a spot of it.
fn follow_from<N: Network, K: Keeper>(
    network: &N,
    company: Company,
    at: Spot,
    marks: &mut Marks,
    keeper: &mut K,
) -> Result<(), K::Fault>
    requires lawful { IsLawful (N.position network.now) }
    requires may { CanEnter (N.position network.now) company marks.old.marks at }
    ensures { let position = N.position network.now in
        let takes = λ (taken : WalkStep).
        IsAmong taken.link (links_of position at.hex) × IsEnteredAt at taken in
        OnOk result (Spreads position company takes
        marks.old.marks marks.old.waiting (K.keeps keeper.old)
        marks.new.marks marks.new.waiting (K.keeps keeper.new)) }
{
    let links = network.links(at.hex);
    for link in links.as_slice() {
        follow_both(network, company, *link, at, marks, keeper)?;
    }
    Ok(())
}

/// Looks at a stop at which a walk has arrived: follows the links that end there, if the walk may
/// pass it.
fn look_from_stop<N: Network, K: Keeper>(
    network: &N,
    company: Company,
    stop: Stop,
    marks: &mut Marks,
    keeper: &mut K,
) -> Result<(), K::Fault>
    requires lawful { IsLawful (N.position network.now) }
    requires arrived { IsMarkedStop marks.old.marks stop }
    ensures { let position = N.position network.now in
        let takes = λ (taken : WalkStep). IsTrack position taken
        × GoesOnAt position company stop (entered_at taken) in
        OnOk result (Spreads position company takes
        marks.old.marks marks.old.waiting (K.keeps keeper.old)
        marks.new.marks marks.new.waiting (K.keeps keeper.new)) }
{
    if network.full(stop, company) {
        return Ok(());
    }
    let end = TrackEnd::Stop(stop.number);
    let at = Spot { hex: stop.hex, end };
    follow_from(network, company, at, marks, keeper)?;
    if let Some(hex) = twin(stop.hex) {
        follow_from(network, company, Spot { hex, end }, marks, keeper)?;
        return Ok(());
    }
    Ok(())
}

/// Looks at a spot where a walk has arrived: marks each end that one more link leads to.
fn look<N: Network, K: Keeper>(
    network: &N,
    company: Company,
    from: Spot,
    marks: &mut Marks,
    keeper: &mut K,
) -> Result<(), K::Fault>
    requires lawful { IsLawful (N.position network.now) }
    requires arrived { IsMarked marks.old.marks from }
    ensures { let position = N.position network.now in
        let takes = λ (taken : WalkStep). IsTrack position taken
        × LeadsTo position company from (entered_at taken) in
        OnOk result (Spreads position company takes
        marks.old.marks marks.old.waiting (K.keeps keeper.old)
        marks.new.marks marks.new.waiting (K.keeps keeper.new)) }
{
    if let Some(stop) = from.stop() {
        look_from_stop(network, company, stop, marks, keeper)?;
        return Ok(());
    }
    if let Some(at) = from.across() {
        follow_from(network, company, at, marks, keeper)?;
        return Ok(());
    }
    Ok(())
}

/// Marks the stops with a token of the company, where its walks begin; nothing may be marked
/// before. All of them are still to look at.
pub(crate) fn mark_tokens<N: Network>(network: &N, company: Company, marks: &mut Marks)
    requires marks { marks.old.marks ≡ replicate map_spots false }
    requires waiting { marks.old.waiting ≡ [] }
    ensures arrive { AllArrive (N.position network.now) company marks.new.marks }
    ensures tokens { HasAllTokens (N.position network.now) company marks.new.marks }
    ensures wait { AllWait marks.new.marks marks.new.waiting }
{
    for index in 0..HEXES {
        let hex = Hex::at_index(index);
        let first = StopNumber::First;
        let second = StopNumber::Second;
        mark_token(network, company, Stop { hex, number: first }, marks);
        mark_token(
            network,
            company,
            Stop {
                hex,
                number: second,
            },
            marks,
        );
    }
}

/// Marks the stops with a token of the company, where its walks begin; nothing may be marked
/// before. Looks only at the stops that these tokens name.
pub(crate) fn mark_named<N: Network>(
    network: &N,
    company: Company,
    tokens: &[(Place, Company)],
    marks: &mut Marks,
)
    requires named { AreNamed (N.position network.now) company tokens.now }
    requires marks { marks.old.marks ≡ replicate map_spots false }
    requires waiting { marks.old.waiting ≡ [] }
    ensures arrive { AllArrive (N.position network.now) company marks.new.marks }
    ensures tokens { HasAllTokens (N.position network.now) company marks.new.marks }
    ensures wait { AllWait marks.new.marks marks.new.waiting }
{
    for token in tokens {
        mark_listed(network, company, *token, marks);
    }
}

/// Marks the stop that a token names, if the company has a token there.
fn mark_listed<N: Network>(
    network: &N,
    company: Company,
    token: (Place, Company),
    marks: &mut Marks,
)
    ensures { IsListed (N.position network.now) company (stop_of_token company token)
        marks.old.marks marks.old.waiting marks.new.marks marks.new.waiting }
{
    if let Some(stop) = stop_of(token, company) {
        mark_token(network, company, stop, marks);
    }
}

/// Returns the stop that a token names, if it is the company's token.
fn stop_of(token: (Place, Company), company: Company) -> Option<Stop>
    ensures { result ≡ stop_of_token company token }
{
    if token.1.index() == company.index() {
        token.0.stop()
    } else {
        None
    }
}

/// Marks a stop if the company has a token there.
fn mark_token<N: Network>(network: &N, company: Company, stop: Stop, marks: &mut Marks)
    ensures { IsTokenMarked (N.position network.now) company stop
        marks.old.marks marks.old.waiting marks.new.marks marks.new.waiting }
{
    if network.token(stop, company) {
        let end = TrackEnd::Stop(stop.number);
        marks.mark(Spot { hex: stop.hex, end });
    }
}

/// Marks all spots where walks of the company arrive, given marks of its tokens: from each spot
/// found it marks the ends of the links that go on from there. It looks at each spot once, and
/// keeps the links that it follows. The marks are filled in place, since each call that had them
/// among its locals would pay for their bytes.
pub(crate) fn search<N: Network, K: Keeper>(
    network: &N,
    company: Company,
    marks: &mut Marks,
    keeper: &mut K,
) -> Result<(), K::Fault>
    requires lawful { IsLawful (N.position network.now) }
    requires arrive { AllArrive (N.position network.now) company marks.old.marks }
    requires tokens { HasAllTokens (N.position network.now) company marks.old.marks }
    requires wait { AllWait marks.old.marks marks.old.waiting }
    ensures arrive { OnOk result (AllArrive (N.position network.now) company marks.new.marks) }
    ensures tokens { OnOk result (HasAllTokens (N.position network.now) company marks.new.marks) }
    ensures closed { let position = N.position network.now in
        OnOk result (IsClosed position company (IsTrack position) marks.new.marks) }
    ensures taken { let position = N.position network.now in
        OnOk result (KeepsNone (K.keeps keeper.old)
        → AreTaken position company marks.new.marks (K.keeps keeper.new)) }
{
    while let Some(spot) = marks.waiting.pop() {
        look(network, company, spot, marks, keeper)?;
    }
    Ok(())
}
