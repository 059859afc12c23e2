//! The totals of a list of events: what its readers return, kept up to date as events are added. So
//! reading a long list costs no more than reading a short one.
ghost use Rattle.std.specs.Prelude.{◌≡◌, ◌++◌, ◌∷◌, ◌<◌, ◌^◌, [], List, length, true};
ghost use Rattle.events.specs.declared.event.Event.{Event as TheEvent};
ghost use Rattle.totals.specs.Totals.{AreTotalsOf, says_little};

use crate::apply_event::{
    apply, apply_arrival, apply_bankrupt, apply_bids, apply_broken, apply_float,
    apply_greatest_bid, apply_limit, apply_par, apply_par_order, apply_president, apply_ruling,
    apply_sale, apply_square, apply_token, apply_turn, no_limits,
};
use crate::balances::{
    PARTIES, SHARE_PLACES, TRAIN_ENTRIES, TRAIN_PLACES, apply_payment, apply_train,
    apply_train_owner, apply_transfer,
};
use crate::owners::Owners;
use crate::shares::ShareCount;
use events::Event;
use tables::{
    Amount, COMPANIES, Company, Kind, Money, PLAYERS_MOST, PRIVATES, PerCompany, PerPrivate,
    PerSeat, Round, Seat, Square,
};

/// What a list of events says: the last word on each topic, `None` if there was none. Tables are by
/// the places of the privates and the companies in the roster, and by the numbers of seats.
/// Balances of cash, shares and trains are what came in to each party or place, minus what went
/// out. Companies' turns, seats' sales, rulings and limits are those of the round that began last.
/// The greatest bids are of all bids ever made.
#[derive(Clone, Copy)]
pub struct Totals {
    /// How many events there are.
    event_count: usize,
    pub(crate) owners: Owners,
    pub(crate) bids: PerPrivate<PerSeat<Option<Amount>>>,
    pub(crate) greatest_bids: PerPrivate<Option<Amount>>,
    pub(crate) sv_price: Option<Amount>,
    pub(crate) actor: Option<Seat>,
    pub(crate) round: Option<Round>,
    pub(crate) phase: Option<Kind>,
    pub(crate) broken: bool,
    pub(crate) bankrupt: bool,
    pub(crate) pars: PerCompany<Option<Amount>>,
    pub(crate) squares: PerCompany<Option<Square>>,
    pub(crate) presidents: PerCompany<Option<Seat>>,
    pub(crate) arrivals: PerCompany<Option<usize>>,
    pub(crate) floats: PerCompany<Option<Company>>,
    pub(crate) cash: [Money; PARTIES],
    pub(crate) shares: [ShareCount; SHARE_PLACES],
    pub(crate) trains: [Money; TRAIN_ENTRIES],
    pub(crate) train_owners: [Money; TRAIN_PLACES],
    pub(crate) tokens: PerCompany<usize>,
    pub(crate) operated: PerCompany<bool>,
    pub(crate) sales: PerCompany<PerSeat<bool>>,
    pub(crate) rulings: PerSeat<usize>,
    pub(crate) limits: PerPrivate<PerSeat<Option<Amount>>>,
    pub(crate) par_orders: PerSeat<Option<Amount>>,
}

// A walk holds them by value.
const _: () = prove!(size_of::<Totals>() < 4096);

impl Totals {
    /// Returns the totals of no events.
    pub fn start() -> Totals
        ensures { AreTotalsOf result [] }
    {
        Totals {
            event_count: 0,
            owners: Owners::unsold(),
            bids: [[None; PLAYERS_MOST]; PRIVATES],
            greatest_bids: [None; PRIVATES],
            sv_price: None,
            actor: None,
            round: None,
            phase: None,
            broken: false,
            bankrupt: false,
            pars: [None; COMPANIES],
            squares: [None; COMPANIES],
            presidents: [None; COMPANIES],
            arrivals: [None; COMPANIES],
            floats: [None; COMPANIES],
            cash: [0; PARTIES],
            shares: [0; SHARE_PLACES],
            trains: [0; TRAIN_ENTRIES],
            train_owners: [0; TRAIN_PLACES],
            tokens: [0; COMPANIES],
            operated: [false; COMPANIES],
            sales: [[false; PLAYERS_MOST]; COMPANIES],
            rulings: [0; PLAYERS_MOST],
            limits: no_limits(),
            par_orders: [None; PLAYERS_MOST],
        }
    }

    /// Applies one more event.
    pub fn apply(&mut self, event: &Event)
        ensures { (events : List TheEvent) →
            length events < 2 ^ 63 → AreTotalsOf self.old events →
            AreTotalsOf self.new (events ++ event.now ∷ []) }
    {
        if says_little(event) {
            self.apply_to_rulings(event);
        } else {
            self.apply_to_all(event);
        }
    }

    /// Applies one more event that says little. Most events are such, so that they cost little.
    fn apply_to_rulings(&mut self, event: &Event)
        requires { says_little event.now ≡ true }
        ensures { (events : List TheEvent) →
            length events < 2 ^ 63 → AreTotalsOf self.old events →
            AreTotalsOf self.new (events ++ event.now ∷ []) }
    {
        apply(&mut self.actor, event.actor());
        apply_ruling(&mut self.rulings, event);
        apply_limit(&mut self.limits, event);
        apply_par_order(&mut self.par_orders, event);
        self.event_count = self.event_count.saturating_add(1);
    }

    /// Applies one more event, whatever it says.
    fn apply_to_all(&mut self, event: &Event)
        ensures { (events : List TheEvent) →
            length events < 2 ^ 63 → AreTotalsOf self.old events →
            AreTotalsOf self.new (events ++ event.now ∷ []) }
    {
        self.owners.apply(event);
        apply_bids(&mut self.bids, event.bidding());
        apply_greatest_bid(&mut self.greatest_bids, event.bidding());
        apply(&mut self.sv_price, event.sv_price());
        apply(&mut self.actor, event.actor());
        apply(&mut self.round, event.round());
        apply(&mut self.phase, event.phase());
        apply_broken(&mut self.broken, event);
        apply_bankrupt(&mut self.bankrupt, event);
        apply_par(&mut self.pars, event);
        apply_square(&mut self.squares, event);
        apply_president(&mut self.presidents, event);
        apply_arrival(&mut self.arrivals, self.event_count, event);
        apply_float(&mut self.floats, event);
        apply_payment(&mut self.cash, event);
        apply_transfer(&mut self.shares, event);
        apply_train(&mut self.trains, event);
        apply_train_owner(&mut self.train_owners, event);
        apply_token(&mut self.tokens, event);
        apply_turn(&mut self.operated, event);
        apply_sale(&mut self.sales, event);
        apply_ruling(&mut self.rulings, event);
        apply_limit(&mut self.limits, event);
        apply_par_order(&mut self.par_orders, event);
        self.event_count = self.event_count.saturating_add(1);
    }
}

/// Returns whether an event only rules a line, lets a seat pass, or counts lines not reached.
fn says_little(event: &Event) -> bool
    ensures { result ≡ says_little event.now }
{
    matches!(
        event,
        Event::Ruled { .. } | Event::Passes(_) | Event::Left { .. }
    )
}
