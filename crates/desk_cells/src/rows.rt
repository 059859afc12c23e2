//! The rows of the tables: the figures of the game, a player, a private, a company and a kind of
//! train.
ghost use Rattle.std.specs.Prelude.{◌≡◌, ◌<◌, ◌≤◌};
ghost use Rattle.desk_cells.specs.Rows.{above_on, cash_of_player, company_row, game_row};
ghost use Rattle.desk_cells.specs.Rows.{player_row, private_row, rank_of_player, train_row};

use crate::earnings::earnings_of;
use crate::stack::before_in_stack;
use crate::standing::{rank_of, worths_of};
use certs::Holdings;
use desk_base::{tokens_left, trains_left};
use history::{GameView, History, Holder, Party, ShareCount, Shareholder, TrainCount};
use market::operates;
use privates::price_of_private;
use report::player_worth;
use tables::{
    Amount, Company, Kind, Money, Private, Round, Seat, Square, certificate_limit, face, limit,
    revenue, rusts, train,
};

/// The figures of the whole game.
#[derive(Clone, Copy)]
pub struct GameRow {
    /// The phase, by its kind of train.
    pub phase: Kind,
    /// The seat with priority.
    pub priority: Seat,
    /// The most certificates of a player.
    pub certificates: usize,
    /// The most trains of a company.
    pub trains: usize,
}

/// Returns the figures of a game.
pub fn game_row(view: &GameView) -> GameRow
    ensures { result ≡ game_row view.now }
{
    GameRow {
        phase: view.phase(),
        priority: view.priority(),
        certificates: certificate_limit(view.seats()),
        trains: limit(view.phase()),
    }
}

/// A player. Sums are in dollars.
#[derive(Clone, Copy)]
pub struct PlayerRow {
    pub seat: Seat,
    pub cash: Money,
    /// The cash before the last round.
    pub cash_before: Money,
    /// The cash that is not tied up in bids.
    pub free: Money,
    /// How many certificates count against the limit.
    pub certificates: ShareCount,
    /// That limit.
    pub limit: usize,
    /// Cash, shares at their market price and privates at their face value.
    pub worth: Money,
    /// The rank by worth, from 1: one more than the number of players who are worth more.
    pub rank: usize,
}

/// Returns the figures of one of this many players, by the seat: now, and before the last round.
pub fn player_row(history: &History, before: &GameView, players: usize, seat: Seat) -> PlayerRow
    requires few { players ≤ 6 }
    requires one { seat.0 < 6 }
    ensures { result ≡ player_row history.now before.now players seat }
{
    // A law, which does nothing when it runs: the tables count what the events say.
    certs::laws::counted_by_the_game();
    let view = history.now();
    let worth = player_worth(&view, seat);
    PlayerRow {
        seat,
        cash: cash_of_player(&view, seat),
        cash_before: cash_of_player(before, seat),
        free: view.free_cash(seat),
        certificates: Holdings::of(history).counted(seat),
        limit: certificate_limit(history.seats()),
        worth,
        rank: rank_of_player(history, players, worth),
    }
}

/// Returns the cash of the player of a seat.
fn cash_of_player(view: &GameView, seat: Seat) -> Money
    ensures { result ≡ cash_of_player view.now seat }
{
    view.cash(Party::of_seat(seat))
}

/// Returns the rank of a player who is worth this, among this many.
fn rank_of_player(history: &History, players: usize, worth: Money) -> usize
    requires few { players ≤ 6 }
    ensures { result ≡ rank_of_player history.now players worth }
{
    let worths = worths_of(history, players);
    rank_of(&worths[..players], worth)
}

/// A private.
#[derive(Clone, Copy)]
pub struct PrivateRow {
    pub private: Private,
    /// Its face value, in dollars.
    pub face: Amount,
    /// Its price while it is unsold, in dollars.
    pub price: Amount,
    /// What it pays in each operating round, in dollars.
    pub revenue: Amount,
    /// Whether it is sold.
    pub is_sold: bool,
    /// Who owns it; `None` before it is sold, and once it is closed.
    pub owner: Option<Holder>,
}

/// Returns the figures of a private.
pub fn private_row(view: &GameView, private: Private) -> PrivateRow
    ensures { result ≡ private_row view.now.events private }
{
    PrivateRow {
        private,
        face: face(private),
        price: price_of_private(view, private),
        revenue: revenue(private),
        is_sold: view.is_sold(private),
        owner: view.owner(private),
    }
}

/// A company. Sums are in dollars.
#[derive(Clone, Copy)]
pub struct CompanyRow {
    pub company: Company,
    pub president: Option<Seat>,
    /// The square of its token; `None` before it has started.
    pub square: Option<Square>,
    /// The same before the last round.
    pub square_before: Option<Square>,
    /// How many tokens are above its own in the stack on its square; 0 if it has no square.
    pub above: usize,
    pub is_started: bool,
    pub operates: bool,
    pub cash: Money,
    /// What it earned in the last round in which it operated.
    pub revenue: Money,
    /// That round; `None` if it has never operated.
    pub revenue_round: Option<Round>,
    /// Its par value; `None` before it has started.
    pub par: Option<Money>,
    /// The shares in the initial offering.
    pub offering: ShareCount,
    /// The shares in the bank pool.
    pub pool: ShareCount,
    /// The tokens that it has left.
    pub tokens_left: usize,
}

/// Returns the figures of a company: now, and before the last round.
pub fn company_row(view: &GameView, before: &GameView, company: Company) -> CompanyRow
    ensures { result ≡ company_row view.now before.now company }
{
    let earnings = earnings_of(view.events(), company);
    CompanyRow {
        company,
        president: view.president(company),
        square: view.square(company),
        square_before: before.square(company),
        above: above_on(view, company, view.square(company)),
        is_started: view.is_started(company),
        operates: operates(view, company),
        cash: view.cash(Party::of_company(company)),
        revenue: earnings.dollars as Money,
        revenue_round: earnings.round,
        par: view.par(company),
        offering: view.shares(company, Shareholder::InitialOffering),
        pool: view.shares(company, Shareholder::BankPool),
        tokens_left: tokens_left(view, company),
    }
}

/// Returns how many tokens are above a company's own, if it has this square.
fn above_on(view: &GameView, company: Company, square: Option<Square>) -> usize
    ensures { result ≡ above_on view.now.events company square }
{
    match square {
        Some(square) => before_in_stack(view, square, company),
        None => 0,
    }
}

/// A kind of train.
#[derive(Clone, Copy)]
pub struct TrainRow {
    pub kind: Kind,
    /// How many the bank has not sold; `None` if there is no limit.
    pub left: Option<usize>,
    /// How many are in the bank pool.
    pub pool: TrainCount,
    /// Its price, in dollars.
    pub price: Amount,
    /// How many stops it visits at most; `None` if there is no limit.
    pub stops: Option<usize>,
    /// The kind of train with the first of which it rusts.
    pub rusts: Option<Kind>,
}

/// Returns the figures of a kind of train.
pub fn train_row(view: &GameView, kind: Kind) -> TrainRow
    ensures { result ≡ train_row view.now.events kind }
{
    TrainRow {
        kind,
        left: trains_left(view, kind),
        pool: view.trains(None, kind),
        price: train(kind).price,
        stops: kind.stops(),
        rusts: rusts(kind),
    }
}
