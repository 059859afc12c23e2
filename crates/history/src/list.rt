//! The game as one value: its seats and its events, with totals beside them that give at once what
//! the list says.
ghost use Rattle.std.specs.Prelude.{◌≡◌, ◌↔◌, ◌≤◌, ◌<◌, ◌++◌, IsTrue, IsOk, MatchResult, OnOk, OnErr, option_map, pos};
ghost use Rattle.std.specs.Prelude.{is_some, slice_get, vec_capacity, vec_len, []};
ghost use Rattle.std.specs.List.{cons_option};
ghost use Rattle.std.specs.Option.{option_copied};
ghost use Rattle.events.specs.Event.{obeyed_of, sum_of, tile_laid, token_placed};
ghost use Rattle.events.specs.Offers.{offered_in};
ghost use Rattle.events.specs.Orders.{said_by};
ghost use Rattle.events.specs.Packed.{TakesBox};
ghost use Rattle.totals.specs.Bids.{bid_of};
ghost use Rattle.totals.specs.LookBack.{FitsMemory, IsModerate, broken_in, cash_of, owner_of, sv_price_of, with_event};
ghost use Rattle.totals.specs.Offers.{is_among};
ghost use Rattle.totals.specs.Operating.{lays_of, tokens_of};
ghost use Rattle.totals.specs.Shares.{is_floated, par_of, shares_of, square_of};
ghost use Rattle.history.specs.Sound.{IsSound};
ghost use Rattle.totals.specs.Totals.{flag_then};
ghost use Rattle.totals.specs.Trains.{phase_of, trains_held};
ghost use Rattle.order_grammar.specs.Condition.{ordered};

use crate::boxed_totals::BoxedTotals;
use crate::offers_of_round::apply_offer;
use events::{Event, Holder, PackedLine, Party, SUM_MOST, Shareholder};
use map_tables::{Lay, Place};
use order_grammar::{Condition, Offer, Order};
use std::alloc::{AllocError, Global};
use std::marker::Model;
use tables::{Company, Kind, Money, Private, Seat, Square};
use totals::{GameView, ShareCount, TrainCount};

/// A game: the number of its seats and the list of its events, oldest first. Besides the list it
/// keeps its totals, the tiles and the tokens that lie on the map, and the sales offered in the
/// current round. It is passed by value, so it has few bytes.
#[derive(Drop)]
pub struct History {
    seats: usize,
    events: Vec<Event>,
    lays: Vec<Lay>,
    tokens: Vec<(Place, Company)>,
    offers: Vec<(Seat, Offer)>,
    totals: BoxedTotals,
}

// The totals, by far the largest part of a game, are in a box.
const _: () = prove!(size_of::<History>() <= 120);

impl Model for History {
    ghost use Rattle.std.specs.Prelude.{All, ◌≡◌, ◌≤◌};
    ghost use Rattle.events.specs.Event.{sum_of};
    ghost use Rattle.history.specs.BoxedTotals.{HasTotalsOf};
    ghost use Rattle.totals.specs.LookBack.{Game};
    ghost use Rattle.totals.specs.Offers.{AreOffersOf};
    ghost use Rattle.totals.specs.Operating.{lays_of, tokens_of};

    ghost Value = { Game };

    ghost view = { λ a. record { seats = a.seats; events = a.events.items } };

    ghost invariant = { λ a.
        All (λ event. sum_of event ≤ 1000000) a.events.items × HasTotalsOf a.totals a.events.items
        × (a.lays.items ≡ lays_of a.events.items) × (a.tokens.items ≡ tokens_of a.events.items)
        × AreOffersOf a.offers.items a.events.items };
}

impl History {
    /// Returns a game of this many seats in which nothing has happened.
    pub fn start(alloc: Global, seats: usize) -> History
        ensures empty { result ≡ record { seats = seats; events = [] } }
        ensures sound { IsSound result }
    {
        History {
            seats,
            events: Vec::new(alloc),
            lays: Vec::new(alloc),
            tokens: Vec::new(alloc),
            offers: Vec::new(alloc),
            totals: BoxedTotals::start(),
        }
    }

    /// Returns whether `append` may take the event: its sum of money is at most 1,000,000.
    pub fn has_room(&self, event: &Event) -> bool
        ensures { IsTrue result ↔ (sum_of event.now ≤ 1000000) }
    {
        event.sum() <= SUM_MOST
    }

    /// Adds an event at the end. Fails only if allocation fails, which leaves the list unchanged.
    pub fn append(&mut self, event: Event) -> Result<(), AllocError>
        requires { sum_of event ≤ 1000000 }
        ensures ok { OnOk result (self.new ≡ with_event self.old event) }
        ensures err { OnErr result (self.new ≡ self.old) }
    {
        self.events.reserve(1)?;
        self.totals.reserve(*self.events.allocator())?;
        make_room(&mut self.lays, &mut self.tokens, &mut self.offers)?;
        self.totals.apply(&event);
        keep(&mut self.lays, &mut self.tokens, &mut self.offers, &event)?;
        self.events.push(event)?;
        Ok(())
    }

    /// Returns the events, oldest first.
    pub fn events(&self) -> &[Event]
        ensures events { result.now ≡ self.now.events }
        ensures short { FitsMemory result.now }
    {
        self.events.as_slice()
    }

    /// Returns the number of seats.
    pub fn seats(&self) -> usize
        ensures { result ≡ self.now.seats }
    {
        self.seats
    }

    /// Returns a view of the game now.
    pub fn now(&self) -> GameView<'_>
        ensures { result ≡ self.now }
    {
        GameView::with_totals(
            self.seats,
            self.events.as_slice(),
            self.totals.totals(),
            self.offers.as_slice(),
        )
    }

    /// Returns a party's cash, in dollars; the bank's may be negative.
    pub fn cash(&self, party: Party) -> Money
        ensures sum { result ≡ cash_of self.now.seats self.now.events party }
        ensures within { IsModerate result }
    {
        self.now().cash(party)
    }

    /// Returns who owns a private; `None` while it is unsold, and once it is closed.
    pub fn owner(&self, private: Private) -> Option<Holder>
        ensures { result ≡ owner_of self.now.events private }
    {
        self.now().owner(private)
    }

    /// Returns the price of SV, in dollars, at first its face value. It is `Money`, like the cash
    /// that it is compared with; `GameView::sv_price` returns it as the `Amount` of a payment.
    pub fn sv_price(&self) -> Money
        ensures { result ≡ pos (sv_price_of self.now.events) }
    {
        Money::from(self.now().sv_price())
    }

    /// Returns whether the bank is broken.
    pub fn broken(&self) -> bool
        ensures { result ≡ broken_in self.now.events }
    {
        self.now().broken()
    }

    /// Packs a copy of an order with its condition, if it has one, with the list's own allocator.
    /// Fails only if the allocation of a box fails. Of the orders that are ruled, only conditional
    /// ones and runs of more than five places need a box.
    pub fn pack(
        &self,
        condition: Option<&Condition>,
        order: &Order,
    ) -> Result<PackedLine, AllocError>
        ensures { MatchResult result
            (λ packed. packed ≡ ordered (option_copied condition.entry) order.now)
            (λ _. TakesBox (option_copied condition.entry) order.now) }
    {
        PackedLine::pack(*self.events.allocator(), condition, order)
    }

    /// Returns a seat's standing bid on a private, in dollars.
    pub fn bid(&self, private: Private, seat: Seat) -> Option<Money>
        ensures { result ≡ option_map pos (bid_of self.now.events private seat) }
    {
        self.now().bid(private, seat)
    }

    /// Returns the shares of a company at a place.
    pub fn shares(&self, company: Company, place: Shareholder) -> ShareCount
        ensures { result ≡ shares_of self.now.events company place }
    {
        self.now().shares(company, place)
    }

    /// Returns whether a company has floated.
    pub fn floated(&self, company: Company) -> bool
        ensures { result ≡ is_floated self.now.events company }
    {
        self.now().floated(company)
    }

    /// Returns a company's par value in dollars; `None` while it has none.
    pub fn par(&self, company: Company) -> Option<Money>
        ensures { result ≡ option_map pos (par_of self.now.events company) }
    {
        self.now().par(company)
    }

    /// Returns the square of a company's token.
    pub fn square(&self, company: Company) -> Option<Square>
        ensures { result ≡ square_of self.now.events company }
    {
        self.now().square(company)
    }

    /// Returns the tiles that were laid, oldest first.
    pub fn lays(&self) -> &[Lay]
        ensures { result.now ≡ lays_of self.now.events }
    {
        self.lays.as_slice()
    }

    /// Returns the tokens that were placed, oldest first, including home tokens.
    pub fn tokens(&self) -> &[(Place, Company)]
        ensures { result.now ≡ tokens_of self.now.events }
    {
        self.tokens.as_slice()
    }

    /// Returns the tile that was laid at this place in the order of lays, from 0 for the oldest;
    /// `None` if there are fewer.
    pub fn laid(&self, place: usize) -> Option<Lay>
        ensures { result ≡ slice_get (lays_of self.now.events) place }
    {
        self.lays.get(place).copied()
    }

    /// Returns the token that was placed at this place in the order of tokens, including home
    /// tokens, from 0 for the oldest; `None` if there are fewer.
    pub fn token(&self, place: usize) -> Option<(Place, Company)>
        ensures { result ≡ slice_get (tokens_of self.now.events) place }
    {
        self.tokens.get(place).copied()
    }

    /// Returns the trains of a kind that a company has, or those of the bank pool if there is no
    /// owner.
    pub fn trains(&self, owner: Option<Company>, kind: Kind) -> TrainCount
        ensures { result ≡ trains_held self.now.events owner kind }
    {
        self.now().trains(owner, kind)
    }

    /// Returns the phase, at first that of the 2.
    pub fn phase(&self) -> Kind
        ensures { result ≡ phase_of self.now.events }
    {
        self.now().phase()
    }
}

/// Makes room for one more tile, token and offer. Fails only if allocation fails.
fn make_room(
    lays: &mut Vec<Lay>,
    tokens: &mut Vec<(Place, Company)>,
    offers: &mut Vec<(Seat, Offer)>,
) -> Result<(), AllocError>
    ensures lays { lays.new.items ≡ lays.old.items }
    ensures tokens { tokens.new.items ≡ tokens.old.items }
    ensures offers { offers.new.items ≡ offers.old.items }
    ensures room_of_lays { OnOk result (vec_len lays.new < vec_capacity lays.new) }
    ensures room_of_tokens { OnOk result (vec_len tokens.new < vec_capacity tokens.new) }
    ensures room_of_offers { OnOk result (vec_len offers.new < vec_capacity offers.new) }
{
    lays.reserve(1)?;
    tokens.reserve(1)?;
    offers.reserve(1)?;
    Ok(())
}

/// Adds the tile, the token and the offer of an event, if it has one, to lists that have room for
/// it.
fn keep(
    lays: &mut Vec<Lay>,
    tokens: &mut Vec<(Place, Company)>,
    offers: &mut Vec<(Seat, Offer)>,
    event: &Event,
) -> Result<(), AllocError>
    requires room_of_lays { vec_len lays.old < vec_capacity lays.old }
    requires room_of_tokens { vec_len tokens.old < vec_capacity tokens.old }
    requires room_of_offers { vec_len offers.old < vec_capacity offers.old }
    ensures lays { lays.new.items ≡ lays.old.items ++ cons_option (tile_laid event.now) [] }
    ensures tokens { tokens.new.items ≡ tokens.old.items ++ cons_option (token_placed event.now) [] }
    ensures offers { (seat : Seat) (sale : Offer) → is_among seat sale offers.new.items
        ≡ flag_then event.now (is_some (said_by seat (offered_in sale) (obeyed_of event.now)))
        (is_among seat sale offers.old.items) }
    ensures ok { IsOk result }
{
    push_any(lays, event.lay())?;
    push_any(tokens, event.token())?;
    apply_offer(offers, event)
}

/// Adds an item, if there is one, at the end of a list that has room for it.
pub(crate) fn push_any<T>(list: &mut Vec<T>, one: Option<T>) -> Result<(), AllocError>
where
    T: Drop,
    requires { vec_len list.old < vec_capacity list.old }
    ensures kept { list.new.items ≡ list.old.items ++ cons_option one [] }
    ensures ok { IsOk result }
{
    if let Some(one) = one {
        list.push(one)?;
    }
    Ok(())
}
