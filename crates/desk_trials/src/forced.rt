//! The train that a company must buy because its own orders leave it without one: what it is, who
//! pays for it, what is sold for it, and whether its president is bankrupt.
ghost use Rattle.std.specs.Prelude.{◌≡◌, if◌then◌else◌, None, Some};
ghost use Rattle.desk_trials.specs.Facts.{buyer_then, fact_of};
ghost use Rattle.purchases.specs.Discard.{is_president};
ghost use Rattle.totals.specs.Shares.{president_of};

use desk_base::Piece::{Bytes, Number, Words};
use desk_base::{fill, view_behind};
use forced_purchase::cheapest;
use history::{Event, GameView, ShareCount, Walk};
use report::name;
use rounds::Game;
use sheets::{SheetKey, Sheets};
use std::alloc::{AllocError, Global};
use tables::{Amount, Company, Kind, Money, Seat, train};

/// The numbers of shares that a sale may have, as words: the pool has at most five of a company.
static NUMBERS: [&str; 6] = ["no", "one", "two", "three", "four", "five"];

/// What happens when a company must buy a train.
#[derive(Clone, Copy, PartialEq, Eq)]
pub(crate) enum ForcedFact {
    /// The company has no train, and must buy one of this kind.
    Must(Kind),
    /// The president adds this to what the company pays, in dollars.
    Adds(Seat, Amount),
    /// The president sells shares of a company, for which they get this, in dollars.
    Sells {
        seat: Seat,
        company: Company,
        shares: u8,
        price: Amount,
    },
    /// The presidency of a company passes to this player.
    Presides(Company, Seat),
    /// The president is bankrupt.
    Bankrupt(Seat),
    /// A RAISE of so many shares of a company would bring the president more than as many single
    /// sales, in dollars.
    Raises {
        company: Company,
        shares: u8,
        brings: Money,
        singly: Money,
    },
}

/// A company that must buy a train, and something that happens as it does.
#[derive(Clone, Copy, PartialEq, Eq)]
pub(crate) struct Forced {
    /// The company that must buy a train.
    pub(crate) company: Company,
    pub(crate) fact: ForcedFact,
}

/// Returns what happens in a round as the companies over which a player presides must buy trains,
/// in its order. Fails only if allocation fails.
pub(crate) fn forced_of(
    alloc: Global,
    game: &Game,
    sent: SheetKey,
) -> Result<Vec<Forced>, AllocError> {
    let mut forced = Vec::new(alloc);
    let (events, seats) = (game.history().events(), game.history().seats());
    let mut walk = Walk::along(events);
    let mut is_within = false;
    let mut buyer = None;
    for (place, event) in events.iter().enumerate() {
        if let Event::Round(round) = event {
            is_within = *round == sent.round;
        }
        if let Event::Forced(company) = event
            && is_within
        {
            let view = view_behind(&mut walk, place, seats);
            buyer = buyer_of(&view, *company, sent.seat);
            push_must(
                &mut forced,
                &view,
                buyer,
                events.get(place..).unwrap_or(&[]),
            )?;
        } else if let Some(company) = buyer {
            if let Some(fact) = fact_of(event) {
                forced.push(Forced { company, fact })?;
            }
            buyer = buyer_then(company, event);
        }
    }
    Ok(forced)
}

/// Returns a company that must buy a train; `None` if a seat does not preside over it.
fn buyer_of(view: &GameView, company: Company, seat: Seat) -> Option<Company>
    ensures { result ≡ (if is_president (president_of view.now.events company) seat
        then Some company else None) }
{
    if view.president(company) == Some(seat) {
        Some(company)
    } else {
        None
    }
}

/// Returns the company that must still buy a train after one more event.
fn buyer_then(company: Company, event: &Event) -> Option<Company>
    ensures { result ≡ buyer_then company event.now }
{
    match event {
        Event::Train { .. } | Event::Bankrupt(_) | Event::Round(_) => None,
        _ => Some(company),
    }
}

/// Adds what a company must buy, if there is such a company, and what its president adds to the
/// price by these events.
fn push_must(
    forced: &mut Vec<Forced>,
    view: &GameView,
    buyer: Option<Company>,
    events: &[Event],
) -> Result<(), AllocError> {
    let Some(company) = buyer else {
        return Ok(());
    };
    forced.push(Forced {
        company,
        fact: ForcedFact::Must(cheapest(view).kind),
    })?;
    if let Some(fact) = aid_to(events, company) {
        forced.push(Forced { company, fact })?;
    }
    Ok(())
}

/// Returns what the president adds to the price of the train that a company must buy by the first
/// of some events; `None` if they add nothing.
fn aid_to(events: &[Event], buyer: Company) -> Option<ForcedFact> {
    for event in events {
        match event {
            Event::Aid {
                seat,
                company,
                amount,
            } if *company == buyer => return Some(ForcedFact::Adds(*seat, *amount)),
            Event::Train { .. } | Event::Bankrupt(_) => return None,
            _ => {}
        }
    }
    None
}

/// Returns what an event does while a company must buy a train; `None` if that is not reported.
fn fact_of(event: &Event) -> Option<ForcedFact>
    ensures { result ≡ fact_of event.now }
{
    match event {
        Event::Sells {
            company,
            seat,
            shares,
            price,
        } => Some(ForcedFact::Sells {
            seat: *seat,
            company: *company,
            shares: *shares,
            price: *price,
        }),
        Event::President { company, seat } => Some(ForcedFact::Presides(*company, *seat)),
        Event::Bankrupt(seat) => Some(ForcedFact::Bankrupt(*seat)),
        _ => None,
    }
}

/// Adds what happens when a company must buy a train, as a sentence without its full stop.
pub(crate) fn push_forced(
    out: &mut Vec<u8>,
    sheets: &Sheets,
    forced: Forced,
) -> Result<(), AllocError> {
    let buyer = Words(forced.company.code());
    match forced.fact {
        ForcedFact::Must(kind) => {
            let price = Number(Money::from(train(kind).price));
            let pieces = [buyer, Words(kind.code()), price];
            fill(out, "% has no train and must buy a % for %", &pieces)
        }
        ForcedFact::Adds(seat, amount) => {
            let pieces = [Bytes(name(sheets, seat)), Number(Money::from(amount))];
            fill(out, "% adds % to it", &pieces)
        }
        ForcedFact::Sells {
            seat,
            company,
            shares,
            price,
        } => {
            let count = Number(Money::from(ShareCount::from(shares)));
            let what = if shares == 1 { "share" } else { "shares" };
            let pieces = [
                Bytes(name(sheets, seat)),
                count,
                Words(what),
                Words(company.code()),
                Number(Money::from(price)),
            ];
            fill(out, "% sells % % of % for % to pay for it", &pieces)
        }
        ForcedFact::Presides(company, seat) => {
            let pieces = [Words(company.code()), Bytes(name(sheets, seat))];
            fill(out, "the presidency of % passes to %", &pieces)
        }
        ForcedFact::Bankrupt(seat) => fill(out, "% IS BANKRUPT", &[Bytes(name(sheets, seat))]),
        ForcedFact::Raises {
            company,
            shares,
            brings,
            singly,
        } => {
            let count = NUMBERS.get(usize::from(shares)).copied();
            let pieces = [
                Words(company.code()),
                Number(Money::from(shares)),
                Number(brings),
                Words(count.unwrap_or("as many")),
                Number(singly),
            ];
            fill(
                out,
                "RAISE % % brings %; without it % single sales bring %",
                &pieces,
            )
        }
    }
}
