//! Orders about what a seat or a company has: offers, discards, trains of other companies.
ghost use Rattle.std.specs.Prelude.{◌≡◌};
ghost use Rattle.desk_base.specs.Belongings.{is_owned_by, objection_by_president, objection_by_view};
ghost use Rattle.desk_base.specs.Belongings.{objection_to_discard, objection_to_offer, objection_to_owner};
ghost use Rattle.desk_base.specs.Belongings.{objection_to_seller, objection_to_source, objection_to_train};
ghost use Rattle.desk_base.specs.Belongings.{other_president};
ghost use Rattle.order_grammar.specs.declared.order.Order.TheVariants.{Play};

use crate::objection::Objection;
use history::{GameView, Holder, PrivateRule, Refusal, TrainRule};
use order_grammar::{Offer, Order, PlayOrder, TrainSource};
use purchases::{has_train, is_president};
use tables::{Company, Kind, Private, Seat};

/// Returns the president of a company, or `Some(None)` if it has none; `None` if the seat itself
/// presides.
pub fn other_president(view: &GameView, company: Company, seat: Seat) -> Option<Option<Seat>>
    ensures { result ≡ other_president view.now.events company seat }
{
    let president = view.president(company);
    if is_president(president, seat) {
        None
    } else {
        Some(president)
    }
}

/// Returns why a seat may not give this order, with the rule that it breaks: the seat does not own
/// the private, does not preside, or the seller has no such train. `None` if nothing of this holds.
pub fn objection_by_view(view: &GameView, seat: Seat, order: &Order) -> Option<(Refusal, Objection)>
    ensures { result ≡ objection_by_view view.now.events seat order.now }
{
    match order {
        Order::Play(order) => objection_to_play(view, seat, *order),
        _ => None,
    }
}

/// Returns why a seat may not give this order of play, with the rule that it breaks.
fn objection_to_play(view: &GameView, seat: Seat, order: PlayOrder) -> Option<(Refusal, Objection)>
    ensures { result ≡ objection_by_view view.now.events seat (Play order) }
{
    match order {
        PlayOrder::Offer(offer) => objection_to_offer(view, seat, &offer),
        PlayOrder::Discard { company, kind } => objection_to_discard(view, seat, company, kind),
        PlayOrder::BuyTrain { kind, from } => objection_to_source(view, kind, &from),
        _ => None,
    }
}

/// Returns why a seat may not make this offer.
fn objection_to_offer(view: &GameView, seat: Seat, offer: &Offer) -> Option<(Refusal, Objection)>
    ensures { result ≡ objection_to_offer view.now.events seat offer.now }
{
    match offer {
        Offer::Private { private, .. } => objection_to_owner(seat, *private, view.owner(*private)),
        Offer::Train { kind, seller, .. } => objection_to_seller(view, seat, *seller, *kind),
    }
}

/// Returns why a seat may not offer a train of a kind of this company.
fn objection_to_seller(
    view: &GameView,
    seat: Seat,
    seller: Company,
    kind: Kind,
) -> Option<(Refusal, Objection)>
    ensures { result ≡ objection_to_seller view.now.events seat seller kind }
{
    objection_by_president(view, Refusal::Train(TrainRule::NoConsent), seat, seller).or(
        objection_to_train(view, Refusal::Train(TrainRule::NotSellers), seller, kind),
    )
}

/// Returns why a seat may not have a company discard a train of a kind.
fn objection_to_discard(
    view: &GameView,
    seat: Seat,
    company: Company,
    kind: Kind,
) -> Option<(Refusal, Objection)>
    ensures { result ≡ objection_to_discard view.now.events seat company kind }
{
    let rule = Refusal::Train(TrainRule::NoDiscard);
    objection_by_president(view, rule, seat, company).or(objection_to_train(
        view, rule, company, kind,
    ))
}

/// Returns why no train of a kind is bought there: it would be of another company, which has none.
fn objection_to_source(
    view: &GameView,
    kind: Kind,
    from: &TrainSource,
) -> Option<(Refusal, Objection)>
    ensures { result ≡ objection_to_source view.now.events kind from.now }
{
    match from {
        TrainSource::Company { seller, .. } => {
            objection_to_train(view, Refusal::Train(TrainRule::NotSellers), *seller, kind)
        }
        _ => None,
    }
}

/// Returns the objection that a private is not a seat's but this holder's, if it is not.
fn objection_to_owner(
    seat: Seat,
    private: Private,
    owner: Option<Holder>,
) -> Option<(Refusal, Objection)>
    ensures { result ≡ objection_to_owner seat private owner }
{
    if is_owned_by(owner, seat) {
        return None;
    }
    Some((
        Refusal::Private(PrivateRule::NoConsent),
        Objection::Owner(private, owner),
    ))
}

/// Returns whether this owner is a seat.
fn is_owned_by(owner: Option<Holder>, seat: Seat) -> bool
    ensures { result ≡ is_owned_by owner seat }
{
    match owner {
        Some(Holder::Seat(its)) => its == seat,
        Some(Holder::Company(_)) | None => false,
    }
}

/// Returns the objection that another presides over a company than a seat, by this rule; `None` if
/// the seat presides.
fn objection_by_president(
    view: &GameView,
    rule: Refusal,
    seat: Seat,
    company: Company,
) -> Option<(Refusal, Objection)>
    ensures { result ≡ objection_by_president view.now.events rule seat company }
{
    match other_president(view, company, seat) {
        Some(president) => Some((rule, Objection::President(company, president))),
        None => None,
    }
}

/// Returns the objection that a company has no train of a kind, by this rule; `None` if it has one.
fn objection_to_train(
    view: &GameView,
    rule: Refusal,
    company: Company,
    kind: Kind,
) -> Option<(Refusal, Objection)>
    ensures { result ≡ objection_to_train view.now.events rule company kind }
{
    if has_train(view, company, kind) {
        return None;
    }
    Some((rule, Objection::NoTrain(company, kind)))
}
