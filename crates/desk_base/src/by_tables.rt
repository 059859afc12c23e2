//! Orders that the map and the tables alone show to be wrong, whatever the game.
ghost use Rattle.std.specs.Prelude.{◌≡◌};
ghost use Rattle.desk_base.specs.Objections.{is_of_opening, is_of_other_round, is_of_stock, is_opening};
ghost use Rattle.desk_base.specs.Objections.{objection_at_side, objection_at_stop, objection_by_tables};
ghost use Rattle.desk_base.specs.Objections.{objection_to, objection_to_end, way_of, way_then};
ghost use Rattle.desk_base.specs.Objections.{objection_to_ends, objection_to_its_stop, objection_to_lay};
ghost use Rattle.desk_base.specs.Objections.{objection_to_par, objection_to_place, objection_to_run};
ghost use Rattle.desk_base.specs.Objections.{objection_to_token, objection_to_value, objection_to_way};
ghost use Rattle.desk_base.specs.Objections.{rule_of_par, rule_of_round};

use crate::beyond::beyond_side;
use crate::map_facts::{bad_side, side_towards};
use crate::objection::Objection;
use board_state::{has_bad_side, is_open, is_wrong_kind};
use history::{OpeningRule, Refusal, StockRule};
use map_tables::{
    Hex, Lay, LayRule, Place, RunRule, Side, StopNumber, TokenRule, hex_kind, printed_slots,
    printed_stops,
};
use order_grammar::{Order, PlayOrder};
use tables::{Amount, Company, Round, par_square};

/// Returns why an order of a sheet for a round is wrong whatever the game, with the rule that it
/// breaks; `None` if the tables do not show it.
pub fn objection_to(round: Round, is_open: bool, order: &Order) -> Option<(Refusal, Objection)>
    ensures { result ≡ objection_to round is_open order.now }
{
    if is_open && is_of_other_round(round, order) {
        return Some((rule_of_round(round), Objection::Nothing));
    }
    objection_by_tables(round, order)
}

/// Returns why an order is wrong by itself.
fn objection_by_tables(round: Round, order: &Order) -> Option<(Refusal, Objection)>
    ensures { result ≡ objection_by_tables round order.now }
{
    match order {
        Order::Play(PlayOrder::Par { company, price }) => objection_to_par(round, *company, *price),
        Order::Play(PlayOrder::Lay(lay)) => objection_to_lay(*lay),
        Order::Play(PlayOrder::Token(place)) => objection_to_token(*place),
        Order::Run { run, .. } => objection_to_run(run.as_slice()),
        _ => None,
    }
}

/// Returns whether an order of a written turn never has a place in such a round.
fn is_of_other_round(round: Round, order: &Order) -> bool
    ensures { result ≡ is_of_other_round round order.now }
{
    match round {
        Round::Opening(_) => !is_of_opening(order),
        Round::Stock(_) => !is_of_stock(order),
        Round::Operating { .. } => false,
    }
}

/// Returns whether an order has a place in a turn of an opening.
fn is_of_opening(order: &Order) -> bool
    ensures { result ≡ is_of_opening order.now }
{
    matches!(
        order,
        Order::Play(PlayOrder::BuyPrivate(_) | PlayOrder::Bid { .. })
    )
}

/// Returns whether an order has a place in a turn of a stock round.
fn is_of_stock(order: &Order) -> bool
    ensures { result ≡ is_of_stock order.now }
{
    matches!(
        order,
        Order::Play(
            PlayOrder::Par { .. }
                | PlayOrder::BuyShare { .. }
                | PlayOrder::Sell { .. }
                | PlayOrder::ExchangeMohawk
        )
    )
}

/// Returns the rule that an order of another round breaks.
fn rule_of_round(round: Round) -> Refusal
    ensures { result ≡ rule_of_round round }
{
    match round {
        Round::Opening(_) => Refusal::Opening(OpeningRule::NotOfOpening),
        Round::Stock(_) | Round::Operating { .. } => Refusal::Stock(StockRule::NotOfStock),
    }
}

/// Returns why a PAR is wrong whatever the game: its value is none of the six, or it is given in an
/// opening and not for BO.
fn objection_to_par(round: Round, company: Company, price: Amount) -> Option<(Refusal, Objection)>
    ensures { result ≡ objection_to_par round company price }
{
    if is_opening(round) && company != Company::BaltimoreOhio {
        let rule = Refusal::Opening(OpeningRule::NotOfOpening);
        return Some((rule, Objection::NotBaltimore));
    }
    objection_to_value(round, price)
}

/// Returns whether a round is an opening.
fn is_opening(round: Round) -> bool
    ensures { result ≡ is_opening round }
{
    match round {
        Round::Opening(_) => true,
        Round::Stock(_) | Round::Operating { .. } => false,
    }
}

/// Returns that a par value is none of the six, if it is none.
fn objection_to_value(round: Round, price: Amount) -> Option<(Refusal, Objection)>
    ensures { result ≡ objection_to_value round price }
{
    if par_square(price).is_some() {
        return None;
    }
    Some((rule_of_par(round), Objection::NoPar))
}

/// Returns the rule that a par value breaks that is none of the six.
fn rule_of_par(round: Round) -> Refusal
    ensures { result ≡ rule_of_par round }
{
    match round {
        Round::Opening(_) => Refusal::Opening(OpeningRule::NotOfOpening),
        Round::Stock(_) | Round::Operating { .. } => Refusal::Stock(StockRule::NoParValue),
    }
}

/// Returns why a lay is wrong whatever the game: the hex takes no tiles, or none of this kind, or
/// the track leads to a side where it may not.
fn objection_to_lay(lay: Lay) -> Option<(Refusal, Objection)>
    ensures { result ≡ objection_to_lay lay }
{
    if !is_open(hex_kind(lay.hex)) {
        return Some((Refusal::Lay(LayRule::GreyOrRed), Objection::Nothing));
    }
    if is_wrong_kind(lay) {
        return Some((Refusal::Lay(LayRule::WrongTile), Objection::Kind(lay)));
    }
    if has_bad_side(lay) {
        return objection_at_side(lay, bad_side(lay));
    }
    None
}

/// Returns that the track of a tile leads to a side, if there is one.
fn objection_at_side(lay: Lay, side: Option<Side>) -> Option<(Refusal, Objection)>
    ensures { result ≡ objection_at_side lay side }
{
    match side {
        Some(side) => Some((
            Refusal::Lay(LayRule::BadSide),
            Objection::Side(side, beyond_side(lay.hex, side)),
        )),
        None => None,
    }
}

/// Returns why a token is wrong whatever the game: its place is no stop of a city.
fn objection_to_token(place: Place) -> Option<(Refusal, Objection)>
    ensures { result ≡ objection_to_token place }
{
    if printed_slots(place.hex) == 0 {
        let rule = Refusal::Token(TokenRule::NoFreeSlot);
        return Some((rule, Objection::NoCity(place.hex)));
    }
    objection_to_its_stop(place.hex, place.stop)
}

/// Returns why the stop of a token is none of its hex, if it is none.
fn objection_to_its_stop(hex: Hex, stop: Option<StopNumber>) -> Option<(Refusal, Objection)>
    ensures { result ≡ objection_to_its_stop hex stop }
{
    let rule = Refusal::Token(TokenRule::NoFreeSlot);
    match stop {
        Some(_) => objection_at_stop(rule, hex, stop),
        None => Some((rule, Objection::Stops(hex))),
    }
}

/// Returns why a run is wrong whatever the game: it names a stop that is not there, no track can
/// lead from a place to the next, or an end is no stop.
fn objection_to_run(places: &[Place]) -> Option<(Refusal, Objection)>
    ensures { result ≡ objection_to_run places.now }
{
    way_of(places).wrong.or(objection_to_ends(places))
}

/// The places of a run that have come.
#[derive(Clone, Copy)]
pub(crate) struct Way {
    /// The last of them; `None` before the first.
    before: Option<Place>,
    /// Why the first of them that is wrong is; `None` if none is.
    wrong: Option<(Refusal, Objection)>,
}

impl Way {
    /// Returns the way after one more place.
    fn then(self, place: Place) -> Way
        ensures { result ≡ way_then self place }
    {
        Way {
            before: Some(place),
            wrong: self.wrong.or(objection_to_place(self.before, place)),
        }
    }
}

/// Returns the way along the places of a run.
fn way_of(places: &[Place]) -> Way
    ensures { result ≡ way_of places.now }
{
    let mut way = Way {
        before: None,
        wrong: None,
    };
    for place in places {
        way = way.then(*place);
    }
    way
}

/// Returns why a place of a run is wrong: it names a stop that is not there, or no track can lead
/// to it from the place before.
fn objection_to_place(before: Option<Place>, place: Place) -> Option<(Refusal, Objection)>
    ensures { result ≡ objection_to_place before place }
{
    objection_at_stop(Refusal::Run(RunRule::NoTrack), place.hex, place.stop).or(objection_to_way(
        before, place,
    ))
}

/// Returns that no track can lead to a place from the one before, if none can.
fn objection_to_way(before: Option<Place>, place: Place) -> Option<(Refusal, Objection)>
    ensures { result ≡ objection_to_way before place }
{
    match before {
        Some(before) if side_towards(before.hex, place.hex).is_none() => Some((
            Refusal::Run(RunRule::NoTrack),
            Objection::Apart(before.hex, place.hex),
        )),
        _ => None,
    }
}

/// Returns why an end of a run is wrong: the first, or else the last, is no stop.
fn objection_to_ends(places: &[Place]) -> Option<(Refusal, Objection)>
    ensures { result ≡ objection_to_ends places.now }
{
    objection_to_end(places.first().copied()).or(objection_to_end(places.last().copied()))
}

/// Returns that an end of a run is no stop, if it is none.
fn objection_to_end(end: Option<Place>) -> Option<(Refusal, Objection)>
    ensures { result ≡ objection_to_end end }
{
    match end {
        Some(end) if end.stop.is_none() => Some((
            Refusal::Run(RunRule::NoTrack),
            Objection::Stops(end.hex),
        )),
        _ => None,
    }
}

/// Returns that a place names a stop that its hex does not have, by this rule; `None` if it has it,
/// or the place names none.
fn objection_at_stop(
    rule: Refusal,
    hex: Hex,
    stop: Option<StopNumber>,
) -> Option<(Refusal, Objection)>
    ensures { result ≡ objection_at_stop rule hex stop }
{
    match stop {
        Some(number) if number.index() >= printed_stops(hex) => Some((rule, Objection::Stops(hex))),
        _ => None,
    }
}
