//! The rule that an order above the first COMPANY line of a sheet breaks.
ghost use Rattle.std.specs.Prelude.{◌≡◌, IfOk};
ghost use Rattle.desk_map_rules.specs.Broken.{row_rule};
ghost use Rattle.desk_rules.specs.StandingAsked.{before_companies_broken, offer_broken};
ghost use Rattle.purchases.specs.Discard.{is_no_discard};
ghost use Rattle.totals.specs.LookBack.{is_owner, owner_of};

use desk_map_rules::{Row, rules_of};
use history::{GameView, Holder, PrivateRule, Refusal, TrainRule};
use order_grammar::{Offer, PlayOrder};
use purchases::{has_train, is_president};
use std::alloc::{AllocError, Global};
use tables::{Company, Kind, Private, Seat};

/// Returns the rule that an order of a seat breaks above the first COMPANY line of its sheet, if it
/// breaks it. Fails only if allocation fails.
pub(crate) fn before_companies_broken(
    alloc: Global,
    view: &GameView,
    seat: Seat,
    order: PlayOrder,
) -> Result<Vec<Refusal>, AllocError>
    ensures { IfOk result (λ rules. rules.items
        ≡ before_companies_broken view.now.events seat order) }
{
    match order {
        PlayOrder::Offer(sale) => offer_broken(alloc, view, seat, sale),
        PlayOrder::Discard { company, kind } => one_rule(
            alloc,
            Refusal::Train(TrainRule::NoDiscard),
            is_no_discard(view, seat, company, kind),
        ),
        _ => Ok(Vec::new(alloc)),
    }
}

/// Returns the rule that an offer of a seat breaks, if it breaks it.
fn offer_broken(
    alloc: Global,
    view: &GameView,
    seat: Seat,
    sale: Offer,
) -> Result<Vec<Refusal>, AllocError>
    ensures { IfOk result (λ rules. rules.items ≡ offer_broken view.now.events seat sale) }
{
    match sale {
        Offer::Train { seller, price, .. } => one_rule(
            alloc,
            Refusal::Train(TrainRule::NoConsent),
            price == 0 || !is_president(view.president(seller), seat),
        ),
        Offer::Private { private, .. } => one_rule(
            alloc,
            Refusal::Private(PrivateRule::NoConsent),
            !owns(view, seat, private),
        ),
    }
}

/// Returns a rule, if it is broken.
fn one_rule(alloc: Global, rule: Refusal, is_broken: bool) -> Result<Vec<Refusal>, AllocError>
    ensures { IfOk result (λ rules. rules.items
        ≡ row_rule (record { rule = rule; is_broken = is_broken })) }
{
    rules_of(alloc, &[Row { rule, is_broken }])
}

/// Returns whether a seat is not the president of a company, or the company has no train of a kind.
fn is_no_discard(view: &GameView, seat: Seat, company: Company, kind: Kind) -> bool
    ensures { result ≡ is_no_discard view.now.events seat company kind }
{
    !is_president(view.president(company), seat) || !has_train(view, company, kind)
}

/// Returns whether a seat owns a private.
fn owns(view: &GameView, seat: Seat, private: Private) -> bool
    ensures { result ≡ is_owner seat (owner_of view.now.events private) }
{
    match view.owner(private) {
        Some(Holder::Seat(owner)) => owner == seat,
        _ => false,
    }
}
