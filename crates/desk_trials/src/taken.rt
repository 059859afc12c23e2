//! Who took the last tile, train, share or private before an order that wanted it.
ghost use Rattle.std.specs.Prelude.{◌≡◌};
ghost use Rattle.desk_trials.specs.Taken.{is_seller, leaves_none, wants_the_last, whose_then};

use desk_base::Piece::Bytes;
use desk_base::fill;
use history::{Event, LayRule, OpeningRule, Refusal, StockRule, TrainRule, TrainSeller};
use order_grammar::{Order, PlayOrder, TrainSource};
use report::name;
use sheets::Sheets;
use std::alloc::AllocError;
use tables::{Company, Seat};

/// Adds which other player's sheet took the last of what an order of a seat wanted, if an earlier
/// event of the same round shows that. The events are those before its ruling.
pub(crate) fn push_taker(
    out: &mut Vec<u8>,
    sheets: &Sheets,
    events: &[Event],
    seat: Seat,
    order: &Order,
    rule: Refusal,
) -> Result<(), AllocError> {
    match taker_of(events, order, rule) {
        Some(taker) if taker != seat => fill(
            out,
            "; %'s sheet takes the last one",
            &[Bytes(name(sheets, taker))],
        ),
        _ => Ok(()),
    }
}

/// Returns who last took one of what an order wanted, in the round that some events are in.
fn taker_of(events: &[Event], order: &Order, rule: Refusal) -> Option<Seat> {
    if !wants_the_last(rule) {
        return None;
    }
    let mut taker = None;
    let mut whose = None;
    for event in events_of_round(events) {
        whose = whose_then(whose, event);
        if leaves_none(event, order) {
            taker = None;
        } else if takes(event, order, rule) {
            taker = whose;
        }
    }
    taker
}

/// Returns whether an order breaks a rule because none is left of what it wants.
fn wants_the_last(rule: Refusal) -> bool
    ensures { result ≡ wants_the_last rule }
{
    matches!(
        rule,
        Refusal::Lay(LayRule::NoneLeft)
            | Refusal::Train(TrainRule::NotOnSale | TrainRule::NotSellers)
            | Refusal::Stock(StockRule::NoneThere)
            | Refusal::Opening(OpeningRule::Sold)
    )
}

/// Returns the events of the last round in a list.
fn events_of_round(events: &[Event]) -> &[Event] {
    let mut begun = 0;
    for (place, event) in events.iter().enumerate().rev() {
        if let Event::Round(_) = event {
            begun = place;
            break;
        }
    }
    events.get(begun..).unwrap_or(&[])
}

/// Returns whether an event removes from play all trains of the kind that an order wants, so that
/// nobody took the last.
fn leaves_none(event: &Event, order: &Order) -> bool
    ensures { result ≡ leaves_none event.now order.now }
{
    match (event, order) {
        (Event::Rusted { kind, .. }, Order::Play(PlayOrder::BuyTrain { kind: wanted, .. })) => kind
            == wanted,
        _ => false,
    }
}

/// Returns whose sheet the next events follow, after one more event: the sheet of the line that was
/// ruled last, or of the player who acts. A forced purchase follows no sheet.
fn whose_then(whose: Option<Seat>, event: &Event) -> Option<Seat>
    ensures { result ≡ whose_then whose event.now }
{
    match event {
        Event::Round(_) | Event::Forced(_) => None,
        Event::Ruled { seat, .. }
        | Event::Sold { seat, .. }
        | Event::Bought { seat, .. }
        | Event::Exchanged { seat, .. } => Some(*seat),
        _ => whose,
    }
}

/// Returns whether an event takes one of what an order wanted that was refused because none is
/// left.
fn takes(event: &Event, order: &Order, rule: Refusal) -> bool {
    match (rule, order, event) {
        (
            Refusal::Lay(LayRule::NoneLeft),
            Order::Play(PlayOrder::Lay(wanted)),
            Event::Laid { lay, .. },
        ) => { lay.tile == wanted.tile }
        (
            Refusal::Train(TrainRule::NotOnSale | TrainRule::NotSellers),
            Order::Play(
                PlayOrder::BuyTrain {
                    kind: wanted,
                    from: source,
                },
            ),
            Event::Train { kind, from, .. },
        ) => kind == wanted && is_seller(*source, *from),
        (
            Refusal::Stock(StockRule::NoneThere),
            Order::Play(
                PlayOrder::BuyShare {
                    company: wanted,
                    from: source,
                },
            ),
            Event::Bought { company, from, .. },
        ) => company == wanted && from == source,
        (
            Refusal::Stock(StockRule::NoneThere),
            Order::Play(
                PlayOrder::BuyShare {
                    company: Company::NewYorkCentral,
                    from: source,
                },
            ),
            Event::Exchanged { from, .. },
        ) => from == source,
        (
            Refusal::Opening(OpeningRule::Sold),
            Order::Play(
                PlayOrder::BuyPrivate(wanted)
                | PlayOrder::Bid {
                    private: wanted,
                    ..
                },
            ),
            Event::Sold { private, .. },
        ) => private == wanted,
        _ => false,
    }
}

/// Returns whether a train is bought from where an order wanted one.
fn is_seller(source: TrainSource, seller: TrainSeller) -> bool
    ensures { result ≡ is_seller source seller }
{
    match (source, seller) {
        (TrainSource::Bank | TrainSource::Trade(_), TrainSeller::Bank) => true,
        (TrainSource::BankPool, TrainSeller::BankPool) => true,
        (TrainSource::Company { seller: wanted, .. }, TrainSeller::Company(its)) => wanted == its,
        _ => false,
    }
}
