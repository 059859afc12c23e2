//! The rows of standing lines: LIMIT in an opening, DISCARD and OFFER in an operating round.
ghost use Rattle.std.specs.Prelude.{◌≡◌, ◌++◌, ◌∷◌, [], IfOk, OnOk, map, pos};
ghost use Rattle.moves.specs.StandingRows.{before_answer, before_cost, before_row, discard_of, discards, discards_of};
ghost use Rattle.moves.specs.StandingRows.{limit_on, limits, may_give, may_take_train, offers_of_kind};
ghost use Rattle.moves.specs.StandingRows.{private_offer, private_offers, private_offers_of, standing_orders};
ghost use Rattle.moves.specs.StandingRows.{standing_row, standing_rows, train_offer, train_offers, train_offers_of};
ghost use Rattle.totals.specs.LookBack.{is_owner, owner_of};
ghost use Rattle.order_grammar.specs.declared.order.Order.TheVariants.{Play};

use crate::row::{Answer, Row, answer_of, push_row};
use history::{History, Holder, Refusal};
use order_grammar::{Offer, PlayOrder};
use purchases::{has_train, is_president, judge_standing};
use std::alloc::{AllocError, Global};
use tables::{Company, Kind, Money, Private, Round, Seat, face, train};

/// Returns the outcome of the standing lines that a seat may consider for a round. In an opening
/// these are LIMIT lines for its bids. In an operating round they are DISCARD for each train of its
/// companies, and OFFER of their trains and of its own privates to each started company, at face
/// value. A stock round has none. Fails only if allocation fails.
pub fn standing_rows(
    alloc: Global,
    history: &History,
    seat: Seat,
    round: Round,
) -> Result<Vec<Row>, AllocError>
    ensures { IfOk result (λ rows. rows.items ≡ standing_rows history.now.events seat round) }
{
    let mut rows = Vec::new(alloc);
    push_lines(&mut rows, history, seat, round)?;
    Ok(rows)
}

/// Adds the rows of standing lines for a round.
fn push_lines(
    rows: &mut Vec<Row>,
    history: &History,
    seat: Seat,
    round: Round,
) -> Result<(), AllocError>
    ensures { OnOk result (rows.new.items
        ≡ rows.old.items ++ standing_rows history.now.events seat round) }
{
    match round {
        Round::Opening(_) => push_limits(rows, history, seat),
        Round::Stock(_) => Ok(()),
        Round::Operating { .. } => push_standing(rows, history, seat),
    }
}

/// Adds the rows of LIMIT lines.
fn push_limits(rows: &mut Vec<Row>, history: &History, seat: Seat) -> Result<(), AllocError>
    ensures { OnOk result (rows.new.items ≡ rows.old.items
        ++ map (before_row history.now.events) (limits history.now.events seat)) }
{
    for private in &Private::ALL {
        push_limit(rows, history, seat, *private)?;
    }
    Ok(())
}

/// Adds the row of a LIMIT line for a private at a seat's bid on it, if it has one.
fn push_limit(
    rows: &mut Vec<Row>,
    history: &History,
    seat: Seat,
    private: Private,
) -> Result<(), AllocError>
    ensures { OnOk result (rows.new.items ≡ rows.old.items
        ++ map (before_row history.now.events) (limit_on history.now.events seat private)) }
{
    let Some(amount) = history.now().standing_bid(private, seat) else {
        return Ok(());
    };
    let order = PlayOrder::Limit { private, amount };
    let answer = answer_before(history, order);
    push_row(rows, order, answer)
}

/// Returns the outcome of an order as a standing line of an opening.
fn answer_before(history: &History, order: PlayOrder) -> Answer
    ensures { result ≡ before_answer history.now.events (Play order) }
{
    let broken = privates::judge_standing(history, order).map(Refusal::Opening);
    answer_of(sum_of(order), broken)
}

/// Returns the sum that a standing line of an opening names, in dollars.
fn sum_of(order: PlayOrder) -> Money
    ensures { result ≡ pos (before_cost (Play order)) }
{
    match order {
        PlayOrder::Limit { amount, .. } => Money::from(amount),
        _ => 0,
    }
}

/// Adds the rows of DISCARD and OFFER lines.
fn push_standing(rows: &mut Vec<Row>, history: &History, seat: Seat) -> Result<(), AllocError>
    ensures { OnOk result (rows.new.items ≡ rows.old.items
        ++ map (standing_row history.now.events seat) (standing_orders history.now.events seat)) }
{
    push_discards(rows, history, seat)?;
    push_train_offers(rows, history, seat)?;
    push_private_offers(rows, history, seat)?;
    Ok(())
}

/// Adds the rows of DISCARD lines.
fn push_discards(rows: &mut Vec<Row>, history: &History, seat: Seat) -> Result<(), AllocError>
    ensures { OnOk result (rows.new.items ≡ rows.old.items
        ++ map (standing_row history.now.events seat) (discards history.now.events seat)) }
{
    for company in &Company::ALL {
        push_discards_of(rows, history, seat, *company)?;
    }
    Ok(())
}

/// Adds the rows of DISCARD lines of a company.
fn push_discards_of(
    rows: &mut Vec<Row>,
    history: &History,
    seat: Seat,
    company: Company,
) -> Result<(), AllocError>
    ensures { OnOk result (rows.new.items ≡ rows.old.items
        ++ map (standing_row history.now.events seat)
        (discards_of history.now.events seat company)) }
{
    for kind in &Kind::ALL {
        push_discard(rows, history, seat, company, *kind)?;
    }
    Ok(())
}

/// Adds the row of a DISCARD line, if the seat presides over the company and the company has such a
/// train.
fn push_discard(
    rows: &mut Vec<Row>,
    history: &History,
    seat: Seat,
    company: Company,
    kind: Kind,
) -> Result<(), AllocError>
    ensures { OnOk result (rows.new.items ≡ rows.old.items
        ++ map (standing_row history.now.events seat)
        (discard_of history.now.events seat company kind)) }
{
    if !may_give(history, seat, company, kind) {
        return Ok(());
    }
    push_order(rows, history, seat, PlayOrder::Discard { company, kind })
}

/// Returns whether a seat presides over a company that has a train of a kind.
fn may_give(history: &History, seat: Seat, company: Company, kind: Kind) -> bool
    ensures { result ≡ may_give history.now.events seat company kind }
{
    let now = history.now();
    is_president(now.president(company), seat) && has_train(&now, company, kind)
}

/// Adds the rows of OFFER lines of trains.
fn push_train_offers(rows: &mut Vec<Row>, history: &History, seat: Seat) -> Result<(), AllocError>
    ensures { OnOk result (rows.new.items ≡ rows.old.items
        ++ map (standing_row history.now.events seat) (train_offers history.now.events seat)) }
{
    for seller in &Company::ALL {
        push_train_offers_of(rows, history, seat, *seller)?;
    }
    Ok(())
}

/// Adds the rows of OFFER lines of the trains of a company.
fn push_train_offers_of(
    rows: &mut Vec<Row>,
    history: &History,
    seat: Seat,
    seller: Company,
) -> Result<(), AllocError>
    ensures { OnOk result (rows.new.items ≡ rows.old.items
        ++ map (standing_row history.now.events seat)
        (train_offers_of history.now.events seat seller)) }
{
    for kind in &Kind::ALL {
        push_offers_of_kind(rows, history, seat, seller, *kind)?;
    }
    Ok(())
}

/// Adds the rows of OFFER lines of a train of a kind of a company, to each company.
fn push_offers_of_kind(
    rows: &mut Vec<Row>,
    history: &History,
    seat: Seat,
    seller: Company,
    kind: Kind,
) -> Result<(), AllocError>
    ensures { OnOk result (rows.new.items ≡ rows.old.items
        ++ map (standing_row history.now.events seat)
        (offers_of_kind history.now.events seat seller kind)) }
{
    for buyer in &Company::ALL {
        push_train_offer(rows, history, seat, seller, kind, *buyer)?;
    }
    Ok(())
}

/// Adds the row of an OFFER line of a train to a company, if the seat presides over the seller, the
/// seller has such a train, and the buyer is another company that has started.
fn push_train_offer(
    rows: &mut Vec<Row>,
    history: &History,
    seat: Seat,
    seller: Company,
    kind: Kind,
    buyer: Company,
) -> Result<(), AllocError>
    ensures { OnOk result (rows.new.items ≡ rows.old.items
        ++ map (standing_row history.now.events seat)
        (train_offer history.now.events seat seller kind buyer)) }
{
    if !may_give(history, seat, seller, kind) || !may_take_train(history, seller, buyer) {
        return Ok(());
    }
    let offer = Offer::Train {
        kind,
        seller,
        buyer,
        price: train(kind).price,
    };
    push_order(rows, history, seat, PlayOrder::Offer(offer))
}

/// Returns whether a company has started and is not the seller.
fn may_take_train(history: &History, seller: Company, buyer: Company) -> bool
    ensures { result ≡ may_take_train history.now.events seller buyer }
{
    history.now().is_started(buyer) && seller != buyer
}

/// Adds the rows of OFFER lines of privates.
fn push_private_offers(rows: &mut Vec<Row>, history: &History, seat: Seat) -> Result<(), AllocError>
    ensures { OnOk result (rows.new.items ≡ rows.old.items
        ++ map (standing_row history.now.events seat) (private_offers history.now.events seat)) }
{
    for private in &Private::ALL {
        push_private_offers_of(rows, history, seat, *private)?;
    }
    Ok(())
}

/// Adds the rows of OFFER lines of a private, to each company.
fn push_private_offers_of(
    rows: &mut Vec<Row>,
    history: &History,
    seat: Seat,
    private: Private,
) -> Result<(), AllocError>
    ensures { OnOk result (rows.new.items ≡ rows.old.items
        ++ map (standing_row history.now.events seat)
        (private_offers_of history.now.events seat private)) }
{
    for buyer in &Company::ALL {
        push_private_offer(rows, history, seat, private, *buyer)?;
    }
    Ok(())
}

/// Adds the row of an OFFER line of a private to a company, if the seat owns the private and the
/// company has started.
fn push_private_offer(
    rows: &mut Vec<Row>,
    history: &History,
    seat: Seat,
    private: Private,
    buyer: Company,
) -> Result<(), AllocError>
    ensures { OnOk result (rows.new.items ≡ rows.old.items
        ++ map (standing_row history.now.events seat)
        (private_offer history.now.events seat private buyer)) }
{
    if !owns(history, seat, private) || !history.now().is_started(buyer) {
        return Ok(());
    }
    let offer = Offer::Private {
        private,
        buyer,
        price: face(private),
    };
    push_order(rows, history, seat, PlayOrder::Offer(offer))
}

/// Returns whether a seat owns a private.
fn owns(history: &History, seat: Seat, private: Private) -> bool
    ensures { result ≡ is_owner seat (owner_of history.now.events private) }
{
    matches!(history.owner(private), Some(Holder::Seat(owner)) if owner == seat)
}

/// Adds the row of a standing line of an operating round.
fn push_order(
    rows: &mut Vec<Row>,
    history: &History,
    seat: Seat,
    order: PlayOrder,
) -> Result<(), AllocError>
    ensures { OnOk result (rows.new.items ≡ rows.old.items
        ++ standing_row history.now.events seat order ∷ []) }
{
    let answer = answer_of(0, judge_standing(history, seat, order));
    push_row(rows, order, answer)
}
