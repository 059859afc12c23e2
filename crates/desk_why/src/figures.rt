//! The figures that a rule compares, which show why it refused an order.
ghost use Rattle.std.specs.Prelude.{◌≡◌, ◌<◌};
ghost use Rattle.certs.specs.Counted.{counted_of};
ghost use Rattle.desk_why.specs.Figures.{company_in, condition_figures, cost_of_order};
ghost use Rattle.desk_why.specs.Figures.{face_figures, figures_of, first_sold, offered};
ghost use Rattle.desk_why.specs.Figures.{opening_figures, operating_figures, private_in};
ghost use Rattle.desk_why.specs.Figures.{cost_in_turn, stock_figures, stops_figures};
ghost use Rattle.purchases.specs.Train.{purchase_of, train_purchase_cost};

use certs::{Holdings, market_price, share_price};
use desk_base::Piece::{Bytes, Count, Number, Words};
use desk_base::fill;
use history::{
    GameView, Holder, LayRule, OpeningRule, Party, PrivateRule, Refusal, RunRule, ShareCount,
    Shareholder, StockRule, TrainRule,
};
use map_tables::terrain_cost;
use order_grammar::{Condition, Order, PlayOrder, TrainSource};
use purchases::{purchase_of, sells};
use report::name;
use sheets::Sheets;
use std::alloc::AllocError;
use tables::{
    Amount, Company, Kind, Money, Private, Seat, certificate_limit, face, limit, token_price,
};

/// The figures that a rule compares.
#[derive(Clone, Copy)]
pub(crate) enum Figures {
    /// The owner of the private.
    Owner(Holder),
    /// The cheapest unsold private.
    Cheapest(Private),
    /// The face value of the private, and the highest bid on it, in dollars.
    Bids(Amount, Amount),
    /// The cash of the player, and what they bid on other privates, in dollars.
    Tied(Money, Money),
    /// The shares of the company that the player has.
    Held(ShareCount),
    /// The shares of the company in the initial offering, and in the bank pool.
    Offered(ShareCount, ShareCount),
    /// Whether the company has started.
    Started(Company, bool),
    /// What the order costs, and the player's free cash, in dollars.
    Cost(Money, Money),
    /// The player's certificates that count, and the limit.
    Certificates(ShareCount, usize),
    /// The phase.
    Phase(Kind),
    /// How many stops a run of the train may have.
    Stops(usize),
    /// The least kind of train that the bank sells.
    OnSale(Kind),
    /// How many trains a company may have.
    Trains(usize),
    /// The face value of the private, in dollars.
    Face(Amount),
    /// The price of the company's square, in dollars; 0 if it has none.
    Price(Company, Amount),
}

/// Returns the figures that a rule compares, for an order of a seat with its condition, given the
/// game before it; `None` if the rule compares none. The seat is one of six.
pub(crate) fn figures_of(
    view: &GameView,
    seat: Seat,
    condition: Option<Condition>,
    order: &Order,
    rule: Refusal,
) -> Option<Figures>
    ensures { seat.0 < 6 → result
        ≡ figures_of view.now seat condition order.now rule }
{
    match rule {
        Refusal::Opening(rule) => opening_figures(view, seat, private_in(order)?, rule),
        Refusal::Stock(rule) => stock_figures(view, seat, order, company_in(order)?, rule),
        Refusal::Condition => condition_figures(view, condition?),
        _ => operating_figures(view, order, rule),
    }
}

/// Returns the private that an order of an opening is about; `None` for other orders.
fn private_in(order: &Order) -> Option<Private>
    ensures { result ≡ private_in order.now }
{
    match order {
        Order::Play(
            PlayOrder::BuyPrivate(private)
            | PlayOrder::Bid { private, .. }
            | PlayOrder::Limit { private, .. },
        ) => Some(*private),
        _ => None,
    }
}

/// Returns the company that an order of a stock round, or a RAISE, is about; `None` for other
/// orders.
fn company_in(order: &Order) -> Option<Company>
    ensures { result ≡ company_in order.now }
{
    match order {
        Order::Play(
            PlayOrder::Par { company, .. }
            | PlayOrder::BuyShare { company, .. }
            | PlayOrder::Sell { company, .. }
            | PlayOrder::Raise { company, .. },
        ) => Some(*company),
        _ => None,
    }
}

/// Returns the figures of a rule of an opening, for an order of this seat about a private.
fn opening_figures(
    view: &GameView,
    seat: Seat,
    private: Private,
    rule: OpeningRule,
) -> Option<Figures>
    ensures { result
        ≡ opening_figures view.now seat private rule }
{
    match rule {
        OpeningRule::Sold => Some(Figures::Owner(view.owner(private)?)),
        OpeningRule::NotCheapest | OpeningRule::BidForCheapest => {
            Some(Figures::Cheapest(view.cheapest_unsold()?))
        }
        OpeningRule::BidTooLow => {
            let highest = view.greatest_bid(private).unwrap_or(0);
            Some(Figures::Bids(face(private), highest))
        }
        OpeningRule::CashTooSmall => {
            let cash = view.cash(Party::of_seat(seat));
            Some(Figures::Tied(cash, view.bids_elsewhere(seat, private)))
        }
        OpeningRule::NotOfOpening | OpeningRule::TurnUsed => None,
    }
}

/// Returns the figures of a rule of a stock round, for an order of this seat about a company.
fn stock_figures(
    view: &GameView,
    seat: Seat,
    order: &Order,
    company: Company,
    rule: StockRule,
) -> Option<Figures>
    ensures { seat.0 < 6 → result
        ≡ stock_figures view.now seat order.now company rule }
{
    match rule {
        StockRule::NotHeld | StockRule::OverSixShares => {
            Some(Figures::Held(view.shares(company, Shareholder::Seat(seat))))
        }
        StockRule::PoolFull | StockRule::NoneThere => Some(offered(view, company)),
        StockRule::WrongStart => Some(Figures::Started(company, view.is_started(company))),
        StockRule::CashTooSmall => {
            Some(Figures::Cost(cost_of_order(view, order), view.free_cash(seat)))
        }
        StockRule::CertificateLimit => {
            let most = certificate_limit(view.seats());
            Some(Figures::Certificates(counted(view, seat), most))
        }
        _ => None,
    }
}

/// Returns the shares of a company in the initial offering, and in the bank pool.
fn offered(view: &GameView, company: Company) -> Figures
    ensures { result ≡ offered view.now.events company }
{
    Figures::Offered(
        view.shares(company, Shareholder::InitialOffering),
        view.shares(company, Shareholder::BankPool),
    )
}

/// Returns how many certificates of a seat count against the limit. The seat is one of six.
fn counted(view: &GameView, seat: Seat) -> ShareCount
    ensures { seat.0 < 6 → result ≡ counted_of view.now.events seat }
{
    // A law, which does nothing when it runs: the tables count what the events say.
    certs::laws::counted_by_the_game();
    Holdings::at(view).counted(seat)
}

/// Returns what an order that starts a company or buys a share costs, in dollars; 0 for other
/// orders.
fn cost_of_order(view: &GameView, order: &Order) -> Money
    ensures { result ≡ cost_of_order view.now.events order.now }
{
    match order {
        Order::Play(PlayOrder::Par { price, .. }) => 2 * Money::from(*price),
        Order::Play(PlayOrder::BuyShare { company, from }) => share_price(view, *company, *from),
        _ => 0,
    }
}

/// Returns the figures of a rule of an operating round.
fn operating_figures(view: &GameView, order: &Order, rule: Refusal) -> Option<Figures>
    ensures { result ≡ operating_figures view.now.events order.now rule }
{
    match rule {
        Refusal::Lay(LayRule::ColourClosed) | Refusal::Private(PrivateRule::TooEarly) => {
            Some(Figures::Phase(view.phase()))
        }
        Refusal::Run(RunRule::WrongNumber) => stops_figures(order),
        Refusal::Train(TrainRule::NotOnSale) => {
            Some(Figures::OnSale(first_sold(view, &Kind::ALL)?))
        }
        Refusal::Train(TrainRule::TrainLimit) => Some(Figures::Trains(limit(view.phase()))),
        Refusal::Private(PrivateRule::WrongPrice) => face_figures(order),
        _ => None,
    }
}

/// Returns the most stops of the train of a run; `None` for other orders, and for a D.
fn stops_figures(order: &Order) -> Option<Figures>
    ensures { result ≡ stops_figures order.now }
{
    match order {
        Order::Run { kind, .. } => Some(Figures::Stops(kind.stops()?)),
        _ => None,
    }
}

/// Returns the face value of the private that an order buys; `None` for other orders.
fn face_figures(order: &Order) -> Option<Figures>
    ensures { result ≡ face_figures order.now }
{
    match order {
        Order::Play(PlayOrder::BuyOwnedPrivate { private, .. }) => Some(Figures::Face(face(
            *private,
        ))),
        _ => None,
    }
}

/// Returns the first of some kinds of trains that the bank sells; `None` if it sells none of them.
fn first_sold(view: &GameView, kinds: &[Kind]) -> Option<Kind>
    ensures { result ≡ first_sold view.now.events kinds.now }
{
    match kinds {
        [] => None,
        [kind, ..] if sells(view, *kind) => Some(*kind),
        [_, others @ ..] => first_sold(view, others),
    }
}

/// Returns the figures of a condition that does not hold.
fn condition_figures(view: &GameView, condition: Condition) -> Option<Figures>
    ensures { result ≡ condition_figures view.now.events condition }
{
    match condition {
        Condition::Price(company, _) => {
            Some(Figures::Price(company, market_price(view, company)))
        }
        Condition::Phase(_) => Some(Figures::Phase(view.phase())),
        _ => None,
    }
}

/// Returns what an order of a company's turn costs, in dollars; `None` if the order costs no money.
pub(crate) fn cost_in_turn(view: &GameView, company: Company, order: &Order) -> Option<Amount>
    ensures { result ≡ cost_in_turn view.now.events company order.now }
{
    match order {
        Order::Play(PlayOrder::Lay(lay)) => Some(terrain_cost(lay.hex)),
        Order::Play(PlayOrder::Token(_)) => Some(token_price(view.tokens_placed(company))),
        Order::Play(PlayOrder::BuyTrain { kind, from }) => Some(cost_of_train(*kind, *from)),
        Order::Play(PlayOrder::BuyOwnedPrivate { price, .. }) => Some(*price),
        _ => None,
    }
}

/// Returns what a company pays for a train at its source, in dollars.
fn cost_of_train(kind: Kind, from: TrainSource) -> Amount
    ensures { result ≡ train_purchase_cost (purchase_of kind from) }
{
    match from {
        TrainSource::Company { price, .. } => price,
        TrainSource::Bank => purchase_of(kind, TrainSource::Bank).price(),
        TrainSource::BankPool => purchase_of(kind, TrainSource::BankPool).price(),
        TrainSource::Trade(traded) => purchase_of(kind, TrainSource::Trade(traded)).price(),
    }
}

/// Adds the words of some figures. Each row has figures, their words, and what stands in place of
/// each `%`.
macro_rules! fill_for {
    ($out:ident, $figures:ident; $($kind:pat => $words:literal, $($piece:expr),+;)*) => {
        match $figures {
            $($kind => fill($out, $words, &[$($piece),+]),)*
        }
    };
}

/// Adds the figures that a rule compared, for an order of the player of a seat.
pub(crate) fn push_figures(
    out: &mut Vec<u8>,
    sheets: &Sheets,
    seat: Seat,
    figures: Figures,
) -> Result<(), AllocError> {
    let player = Bytes(name(sheets, seat));
    fill_for! { out, figures;
        Figures::Owner(Holder::Seat(owner)) => " (% owns it)", Bytes(name(sheets, owner));
        Figures::Owner(Holder::Company(owner)) => " (% owns it)", Words(owner.code());
        Figures::Cheapest(private) => " (that is %)", Words(private.code());
        Figures::Bids(face, highest) => " (the face value is %, the highest bid %)",
            Number(Money::from(face)), Number(Money::from(highest));
        Figures::Tied(cash, bids) => " (% has %, less % bid elsewhere)",
            player, Number(cash), Number(bids);
        Figures::Held(shares) => " (% has %)", player, Number(shares);
        Figures::Offered(ipo, pool) => " (% are in IPO, % in POOL)", Number(ipo), Number(pool);
        Figures::Started(company, true) => " (% is started)", Words(company.code());
        Figures::Started(company, false) => " (% is not started)", Words(company.code());
        Figures::Cost(cost, cash) => " (it costs %, % has %)",
            Number(cost), player, Number(cash);
        Figures::Certificates(counted, most) => " (% has % of %)",
            player, Number(counted), Count(most);
        Figures::Price(company, 0) => " (% has no price)", Words(company.code());
        Figures::Price(company, price) => " (the price of % is %)",
            Words(company.code()), Number(Money::from(price));
        Figures::Phase(phase) => " (the phase is %)", Words(phase.code());
        Figures::OnSale(kind) => " (the bank sells a %)", Words(kind.code());
        Figures::Stops(most) | Figures::Trains(most) => " (which is %)", Count(most);
        Figures::Face(face) => " (the face value is %)", Number(Money::from(face));
    }
}
