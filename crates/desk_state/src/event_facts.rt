//! An event as JSON: an object with the word of its line in the report, and its fields by name.

use crate::facts::{Fact, MEMORY, Object};
use history::{Event, PackedRuling, TrainSeller, Verdict};
use report::{holder, name};
use serde::{Described, Serialize, Serializer};
use sheets::Sheets;
use std::alloc::Global;
use std::str;
use tables::{Amount, Money, Private, price};

/// The name of the member that says which event it is.
const EVENT: &str = "event";

impl From<TrainSeller> for Fact<'_> {
    fn from(seller: TrainSeller) -> Self {
        match seller {
            TrainSeller::Bank => Fact::from("BANK"),
            TrainSeller::BankPool => Fact::from("POOL"),
            TrainSeller::Company(company) => Fact::from(company),
        }
    }
}

/// An event of the game of some sheets. Its member `event` is the first word of its line in the
/// report; for a line of a sheet it is what became of the line.
#[derive(Clone, Copy)]
pub(crate) struct EventFacts<'a> {
    pub(crate) alloc: Global,
    pub(crate) sheets: &'a Sheets<'a>,
    pub(crate) event: &'a Event,
}

impl Described for EventFacts<'_> {}

impl Serialize for EventFacts<'_> {
    fn serialize<S: Serializer>(&self, out: &mut S) -> Result<(), S::Error> {
        match self.event {
            Event::Ruled { seat, line, ruling } => RuledFacts {
                alloc: self.alloc,
                name: name(self.sheets, *seat),
                line: *line,
                ruling,
            }
            .serialize(out),
            Event::Sold { .. }
            | Event::Bids { .. }
            | Event::Price { .. }
            | Event::Revenue { .. }
            | Event::Exchanged { .. }
            | Event::Closed(_)
            | Event::PrivateBought { .. } => PrivateEvent(*self).serialize(out),
            Event::Given { .. }
            | Event::Par { .. }
            | Event::President { .. }
            | Event::Bought { .. }
            | Event::Sells { .. }
            | Event::Floats { .. }
            | Event::Moves { .. } => ShareEvent(*self).serialize(out),
            Event::Home { .. }
            | Event::Token { .. }
            | Event::Laid { .. }
            | Event::Withheld { .. }
            | Event::Runs { .. }
            | Event::Dividend { .. } => RunEvent(*self).serialize(out),
            Event::Traded { .. }
            | Event::Train { .. }
            | Event::Phase(_)
            | Event::Rusted { .. }
            | Event::Discarded { .. }
            | Event::Forced(_) => TrainEvent(*self).serialize(out),
            Event::Round(_)
            | Event::Passes(_)
            | Event::Left { .. }
            | Event::Aid { .. }
            | Event::Bankrupt(_)
            | Event::Broken => PlayEvent(*self).serialize(out),
        }
    }
}

/// Writes an event as an object. Each row has a kind of event, the word of its line in the report,
/// and its other members by name.
macro_rules! write_event_of {
    (
        $event:expr, $alloc:ident, $out:ident
        $($kind:pat => $word:literal $(, $name:literal: $value:expr)*;)*
    ) => {
        match $event {
            $($kind => Object {
                alloc: $alloc,
                facts: &[(EVENT, Fact::from($word)) $(, ($name, Fact::from($value)))*],
            }
            .serialize($out),)*
            _ => $out.unit(), // (of another kind)
        }
    };
}

/// An event of privates.
#[derive(Drop)]
struct PrivateEvent<'a>(EventFacts<'a>);

impl Described for PrivateEvent<'_> {}

impl Serialize for PrivateEvent<'_> {
    fn serialize<S: Serializer>(&self, out: &mut S) -> Result<(), S::Error> {
        let EventFacts {
            alloc,
            sheets,
            event,
        } = self.0;
        write_event_of! { event, alloc, out
            Event::Sold { private, seat, price } =>
                "SOLD", "private": *private, "player": name(sheets, *seat), "amount": *price;
            Event::Bids { private, seat, amount } =>
                "BIDS", "private": *private, "player": name(sheets, *seat), "amount": *amount;
            Event::Price { price } =>
                "PRICE", "private": Private::SchuylkillValley, "amount": *price;
            Event::Revenue { private, owner, amount } =>
                "REVENUE", "private": *private, "owner": holder(sheets, *owner),
                "amount": *amount;
            Event::Exchanged { seat, from } =>
                "EXCHANGED", "private": Private::MohawkHudson, "player": name(sheets, *seat),
                "from": from.text();
            Event::Closed(private) => "CLOSED", "private": *private;
            Event::PrivateBought { private, company, seller, price } =>
                "PRIVATE", "private": *private, "company": *company,
                "player": name(sheets, *seller), "amount": *price;
        }
    }
}

/// An event of shares, and of tokens on the stock market.
#[derive(Drop)]
struct ShareEvent<'a>(EventFacts<'a>);

impl Described for ShareEvent<'_> {}

impl Serialize for ShareEvent<'_> {
    fn serialize<S: Serializer>(&self, out: &mut S) -> Result<(), S::Error> {
        let EventFacts {
            alloc,
            sheets,
            event,
        } = self.0;
        write_event_of! { event, alloc, out
            Event::Given { company, seat, shares } =>
                "GIVEN", "company": *company, "player": name(sheets, *seat),
                "shares": Amount::from(*shares);
            Event::Par { company, price } => "PAR", "company": *company, "amount": *price;
            Event::President { company, seat } =>
                "PRESIDENT", "company": *company, "player": name(sheets, *seat);
            Event::Bought { company, seat, shares, from, price } =>
                "BOUGHT", "company": *company, "player": name(sheets, *seat),
                "shares": Amount::from(*shares), "from": from.text(), "amount": *price;
            Event::Sells { company, seat, shares, price } =>
                "SELLS", "company": *company, "player": name(sheets, *seat),
                "shares": Amount::from(*shares), "amount": *price;
            Event::Floats { company, amount } =>
                "FLOATS", "company": *company, "amount": *amount;
            Event::Moves { company, square } =>
                "MOVES", "company": *company, "price": price(*square), "square": *square;
        }
    }
}

/// An event of tiles and tokens on the map, and of what a company earns.
#[derive(Drop)]
struct RunEvent<'a>(EventFacts<'a>);

impl Described for RunEvent<'_> {}

impl Serialize for RunEvent<'_> {
    fn serialize<S: Serializer>(&self, out: &mut S) -> Result<(), S::Error> {
        let EventFacts {
            alloc,
            sheets,
            event,
        } = self.0;
        write_event_of! { event, alloc, out
            Event::Home { company, place } =>
                "HOME", "company": *company, "place": place.text().as_slice();
            Event::Token { company, place, cost } =>
                "TOKEN", "company": *company, "place": place.text().as_slice(), "amount": *cost;
            Event::Laid { company, lay, cost } =>
                "LAID", "company": *company, "tile": Amount::from(lay.tile.number()),
                "hex": lay.hex.text().as_slice(), "rotation": lay.rot.turns(),
                "is_swapped": lay.swap, "amount": *cost;
            Event::Withheld { company, amount } =>
                "WITHHELD", "company": *company, "amount": *amount;
            Event::Runs { company, revenue } => "RUNS", "company": *company, "amount": *revenue;
            Event::Dividend { company, holder: paid, amount } =>
                "DIVIDEND", "company": *company, "owner": holder(sheets, *paid),
                "amount": *amount;
        }
    }
}

/// An event of trains.
#[derive(Drop)]
struct TrainEvent<'a>(EventFacts<'a>);

impl Described for TrainEvent<'_> {}

impl Serialize for TrainEvent<'_> {
    fn serialize<S: Serializer>(&self, out: &mut S) -> Result<(), S::Error> {
        let EventFacts { alloc, event, .. } = self.0;
        write_event_of! { event, alloc, out
            Event::Traded { company, kind } => "TRADED", "company": *company, "train": *kind;
            Event::Train { company, kind, from, price } =>
                "TRAIN", "company": *company, "train": *kind, "from": *from, "amount": *price;
            Event::Phase(kind) => "PHASE", "train": *kind;
            Event::Rusted { owner: Some(company), kind } =>
                "RUSTED", "owner": *company, "train": *kind;
            Event::Rusted { owner: None, kind } => "RUSTED", "owner": "POOL", "train": *kind;
            Event::Discarded { company, kind } =>
                "DISCARDED", "company": *company, "train": *kind;
            Event::Forced(company) => "FORCED", "company": *company;
        }
    }
}

/// An event of the course of play.
#[derive(Drop)]
struct PlayEvent<'a>(EventFacts<'a>);

impl Described for PlayEvent<'_> {}

impl Serialize for PlayEvent<'_> {
    fn serialize<S: Serializer>(&self, out: &mut S) -> Result<(), S::Error> {
        let EventFacts {
            alloc,
            sheets,
            event,
        } = self.0;
        write_event_of! { event, alloc, out
            Event::Round(round) => "ROUND", "round": *round;
            Event::Passes(seat) => "PASSES", "player": name(sheets, *seat);
            Event::Left { seat, lines } =>
                "LEFT", "player": name(sheets, *seat), "lines": *lines;
            Event::Aid { seat, company, amount } =>
                "AID", "player": name(sheets, *seat), "company": *company, "amount": *amount;
            Event::Bankrupt(seat) => "BANKRUPT", "player": name(sheets, *seat);
            Event::Broken => "BROKEN";
        }
    }
}

/// What became of a line of a player's sheet. A line with a fault has no order.
#[derive(Drop)]
struct RuledFacts<'a> {
    alloc: Global,
    name: &'a [u8],
    line: u32,
    ruling: &'a PackedRuling,
}

impl Described for RuledFacts<'_> {}

impl Serialize for RuledFacts<'_> {
    fn serialize<S: Serializer>(&self, out: &mut S) -> Result<(), S::Error> {
        let (word, code, has_order) = match self.ruling.verdict() {
            Verdict::Obeyed => ("OBEYED", None, true),
            Verdict::Refused(rule) => ("REFUSED", Some(rule.code()), true),
            Verdict::Faulty(fault) => ("REFUSED", Some(fault.code()), false),
        };
        out.begin_map(None)?;
        out.key(EVENT)?;
        out.str(word)?;
        out.key("player")?;
        out.str(str::from_utf8(self.name).unwrap_or(""))?;
        out.key("line")?;
        out.i128(Money::from(self.line))?;
        out.key("code")?;
        match code {
            Some(code) => out.str(code)?,
            None => out.unit()?,
        }
        out.key("order")?;
        if has_order {
            OrderText {
                alloc: self.alloc,
                ruling: self.ruling,
            }
            .serialize(out)?;
        } else {
            out.unit()?;
        }
        out.end_map()
    }
}

/// The order of a ruling, as the report prints it.
#[derive(Drop)]
struct OrderText<'a> {
    alloc: Global,
    ruling: &'a PackedRuling,
}

impl Described for OrderText<'_> {}

impl Serialize for OrderText<'_> {
    fn serialize<S: Serializer>(&self, out: &mut S) -> Result<(), S::Error> {
        let mut text = Vec::new(self.alloc);
        if self.ruling.print_order(&mut text).is_err() {
            return Err(out.custom(MEMORY));
        }
        out.str(str::from_utf8(text.as_slice()).unwrap_or(""))
    }
}
