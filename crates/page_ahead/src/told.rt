//! What a page tells of the events of a round: whose turn each belongs to, and the words of its
//! sentence: who, what they did, with what, and for how much.
ghost use Rattle.std.specs.Prelude.{◌≡◌};
ghost use Rattle.page_ahead.specs.Told.{before_sum, paid, sum_of, thing_of, verb_of, whose_then};
ghost use Rattle.page_ahead.specs.Told.{doer_of};

use history::{Event, Holder, TrainSeller};
use map_tables::{Lay, Place};
use order_grammar::ShareSource;
use tables::{Amount, Company, Kind, Private, Seat, price};

/// What a sentence names.
#[derive(Clone, Copy)]
pub(crate) enum Thing {
    Nothing,
    /// The player of a seat, or a company.
    Party(Holder),
    Private(Private),
    /// A private that a player sells.
    PrivateOf(Private, Seat),
    /// So many shares of a company, and where they come from.
    Shares(u8, Company, ShareSource),
    Tile(Lay),
    Stop(Place),
    Train(Kind),
    /// A train that is bought, and of whom.
    TrainFrom(Kind, TrainSeller),
    /// A train of a company, or of the bank pool if no company is named.
    TrainOf(Kind, Option<Company>),
}

/// Returns whose turn it is after an event, given whose it was before: in an opening or a stock
/// round that of each player whose line is ruled.
pub(crate) fn whose_then(is_operating: bool, whose: Option<Holder>, event: &Event) -> Option<Holder>
    ensures { result ≡ whose_then is_operating whose event.now }
{
    match event {
        Event::Ruled { seat, .. } if !is_operating => Some(Holder::Seat(*seat)),
        Event::Passes(seat)
        | Event::Sold { seat, .. }
        | Event::Bids { seat, .. }
        | Event::Bought { seat, .. }
        | Event::Sells { seat, .. }
        | Event::Exchanged { seat, .. }
        | Event::Aid { seat, .. } => Some(Holder::Seat(*seat)),
        Event::Home { company, .. }
        | Event::Laid { company, .. }
        | Event::Token { company, .. }
        | Event::Withheld { company, .. }
        | Event::Runs { company, .. }
        | Event::Dividend { company, .. }
        | Event::Traded { company, .. }
        | Event::Train { company, .. }
        | Event::PrivateBought { company, .. }
        | Event::Forced(company) => Some(Holder::Company(*company)),
        _ => whose,
    }
}

/// Returns who or what the sentence of an event begins with, unless that is the party whose turn it
/// is.
pub(crate) fn doer_of(event: &Event) -> Thing
    ensures { result ≡ doer_of event.now }
{
    match event {
        Event::Passes(seat)
        | Event::Given { seat, .. }
        | Event::President { seat, .. }
        | Event::Bankrupt(seat) => Thing::Party(Holder::Seat(*seat)),
        Event::Floats { company, .. }
        | Event::Moves { company, .. }
        | Event::Discarded { company, .. } => Thing::Party(Holder::Company(*company)),
        Event::Revenue { private, .. } | Event::Closed(private) => Thing::Private(*private),
        Event::Rusted { owner, kind } => Thing::TrainOf(*kind, *owner),
        _ => Thing::Nothing,
    }
}

/// Returns what an event is told as to have been done; no letters if nothing is told of it.
pub(crate) fn verb_of(event: &Event) -> &'static str
    ensures { result.now ≡ verb_of event.now }
{
    match event {
        Event::Round(_) | Event::Ruled { .. } | Event::Left { .. } => "",
        Event::Passes(_) => " passed",
        Event::Bids { .. } => "bid for ",
        Event::Price { .. } => "SV falls to ",
        Event::Revenue { .. } => " paid ",
        Event::Given { .. } => " got ",
        Event::Par { .. } => "set the par of ",
        Event::President { .. } => " presides over ",
        Event::Sells { .. } => "sold ",
        Event::Exchanged { .. } => "gave up MH for a share of NYC",
        Event::Floats { .. } => " floats with ",
        Event::Moves { .. } => " is at ",
        Event::Home { .. } => "placed the home token on ",
        Event::Laid { .. } => "laid ",
        Event::Token { .. } => "placed a token on ",
        Event::Withheld { .. } => "withheld ",
        Event::Runs { .. } => "ran for ",
        Event::Dividend { .. } | Event::Aid { .. } => "paid ",
        Event::Traded { .. } => "traded in a ",
        Event::Sold { .. } | Event::Bought { .. } | Event::PrivateBought { .. } => "bought ",
        Event::Train { .. } => "bought a ",
        Event::Phase(_) => "began phase ",
        Event::Rusted { .. } => " rusted",
        Event::Discarded { .. } => " gave up a ",
        Event::Closed(_) => " closed",
        Event::Forced(_) => "had to buy a train",
        Event::Bankrupt(_) => " is bankrupt",
        Event::Broken => "the bank is broken",
    }
}

/// Returns what was done with, or to whom.
pub(crate) fn thing_of(event: &Event) -> Thing
    ensures { result ≡ thing_of event.now }
{
    match event {
        Event::Sold { private, .. } | Event::Bids { private, .. } => Thing::Private(*private),
        Event::Revenue { owner, .. } => Thing::Party(*owner),
        Event::Dividend { holder, .. } => Thing::Party(*holder),
        Event::Given {
            company,
            shares,
            ..
        }
        | Event::Sells {
            company,
            shares,
            ..
        } => { Thing::Shares(*shares, *company, ShareSource::InitialOffering) }
        Event::Bought {
            company,
            shares,
            from,
            ..
        } => Thing::Shares(*shares, *company, *from),
        Event::Par { company, .. }
        | Event::President { company, .. }
        | Event::Aid { company, .. } => Thing::Party(Holder::Company(*company)),
        Event::Home { place, .. } | Event::Token { place, .. } => Thing::Stop(*place),
        Event::Laid { lay, .. } => Thing::Tile(*lay),
        Event::Traded { kind, .. } | Event::Discarded { kind, .. } | Event::Phase(kind) => {
            Thing::Train(*kind)
        }
        Event::Train { kind, from, .. } => Thing::TrainFrom(*kind, *from),
        Event::PrivateBought {
            private,
            seller,
            ..
        } => Thing::PrivateOf(*private, *seller),
        _ => Thing::Nothing,
    }
}

/// Returns the words before the sum of an event.
pub(crate) fn before_sum(event: &Event) -> &'static str
    ensures { result.now ≡ before_sum event.now }
{
    match event {
        Event::Sold { .. }
        | Event::Bought { .. }
        | Event::Sells { .. }
        | Event::Laid { .. }
        | Event::Token { .. }
        | Event::Train { .. }
        | Event::PrivateBought { .. } => " for ",
        Event::Bids { .. } => ": ",
        Event::Par { .. } => " at ",
        Event::Revenue { .. } | Event::Dividend { .. } | Event::Aid { .. } => " ",
        _ => "",
    }
}

/// Returns the sum of an event in dollars; `None` if it has none, or costs nothing.
pub(crate) fn sum_of(event: &Event) -> Option<Amount>
    ensures { result ≡ sum_of event.now }
{
    match event {
        Event::Laid { cost, .. } | Event::Token { cost, .. } => paid(*cost),
        Event::Moves { square, .. } => Some(price(*square)),
        Event::Floats { amount, .. }
        | Event::Bids { amount, .. }
        | Event::Revenue { amount, .. }
        | Event::Withheld { amount, .. }
        | Event::Dividend { amount, .. }
        | Event::Aid { amount, .. } => Some(*amount),
        Event::Runs { revenue, .. } => Some(*revenue),
        Event::Sold { price, .. }
        | Event::Price { price }
        | Event::Par { price, .. }
        | Event::Bought { price, .. }
        | Event::Sells { price, .. }
        | Event::Train { price, .. }
        | Event::PrivateBought { price, .. } => Some(*price),
        _ => None,
    }
}

/// Returns a cost; `None` if it is 0.
fn paid(cost: Amount) -> Option<Amount>
    ensures { result ≡ paid cost }
{
    if cost == 0 { None } else { Some(cost) }
}
