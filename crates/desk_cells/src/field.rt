//! What each column shows of a row.
ghost use Rattle.std.specs.Prelude.{◌≡◌};
ghost use Rattle.desk_cells.specs.Cells.{cell_of, company_cell, company_stock_cell, number_or_all};
ghost use Rattle.desk_cells.specs.Cells.{number_or_nothing, owner_cell, place_cell, player_cell};
ghost use Rattle.desk_cells.specs.Cells.{player_name, price_and_square, price_cell, priced_square};
ghost use Rattle.desk_cells.specs.Cells.{private_cell, revenue_cell, round_cell, rust_cell};
ghost use Rattle.desk_cells.specs.Cells.{square_and_place, square_cell, train_cell, trains_cell};

use crate::cell::{Cell, Holding};
use crate::rows::{CompanyRow, PlayerRow, PrivateRow, TrainRow};
use history::{GameView, Holder};
use tables::{Company, Kind, Money, Round, Seat, Square, price};

/// What a column shows. A row that has no such thing shows nothing there.
#[derive(Clone, Copy)]
pub enum Field {
    /// The player, private, company or kind of train of the row.
    Name,
    /// A company's full name.
    FullName,
    /// Cash; that of a company even if it does not operate.
    Cash,
    /// A company's cash, if it operates.
    Treasury,
    /// A player's cash before the last round.
    CashBefore,
    /// The cash of a player that is not tied up in bids.
    Free,
    /// How many certificates of a player count.
    Certificates,
    /// The same, with the limit.
    CertificatesOf,
    /// What a player is worth.
    Worth,
    /// A player's rank by worth.
    Rank,
    /// A player's shares of a company.
    SharesOf(Company),
    /// A company's shares that the player of a seat holds.
    SharesAt(Seat),
    /// All of these.
    Shares,
    /// The privates of a player or a company.
    Privates,
    /// The face value of a private.
    Face,
    /// The price: of a share, of a private while it is unsold, of a train.
    Price,
    /// What a private pays in each operating round; what a company last earned.
    Revenue,
    /// What a company last earned, if it operates.
    LastRun,
    /// The round of that.
    RevenueRound,
    /// The same round, if the company operates.
    LastRunRound,
    /// The hexes of a private.
    Hexes,
    /// Who owns a private.
    Owner,
    /// The bids on a private.
    Bids,
    /// Whether a private is closed.
    IsClosed,
    /// Whether a company has started.
    IsStarted,
    /// Whether a company operates.
    Operates,
    /// A company's president.
    President,
    /// The par value of a company.
    Par,
    /// The shares of a company in the initial offering.
    Offering,
    /// How many shares of a company, or trains of a kind, are in the bank pool.
    Pool,
    /// The square of a company's token.
    Square,
    /// The place of the token in the stack there, from 1.
    Place,
    /// Both of these.
    SquareAndPlace,
    /// The price of a company's share, with its square.
    PriceAndSquare,
    /// The same before the last round.
    PriceAndSquareBefore,
    /// A company's trains, or why it does not operate.
    Trains,
    /// The places of a company's tokens.
    Tokens,
    /// The tokens that a company has left, or the trains of a kind that the bank has.
    Left,
    /// How many stops a train visits.
    Stops,
    /// When a train rusts.
    Rusts,
}

/// A row of a table.
#[derive(Clone, Copy)]
pub enum TableRow {
    OfPlayer(PlayerRow),
    OfPrivate(PrivateRow),
    OfCompany(CompanyRow),
    OfTrain(TrainRow),
}

impl TableRow {
    /// Returns what a column shows of this row, in the game that the row is from.
    pub fn cell(&self, view: &GameView, field: Field) -> Cell
        ensures { result ≡ cell_of view.now.events self.now field }
    {
        match self {
            TableRow::OfPlayer(row) => player_cell(view, row, field),
            TableRow::OfPrivate(row) => private_cell(row, field),
            TableRow::OfCompany(row) => company_cell(view, row, field),
            TableRow::OfTrain(row) => train_cell(row, field),
        }
    }
}

/// Returns what a column shows of a player.
fn player_cell(view: &GameView, row: &PlayerRow, field: Field) -> Cell
    ensures { result ≡ player_cell view.now.events row.now field }
{
    match field {
        Field::Name => Cell::PlayerName(row.seat),
        Field::Cash => Cell::Number(row.cash),
        Field::CashBefore => Cell::Number(row.cash_before),
        Field::Free => Cell::Number(row.free),
        Field::Certificates => Cell::Number(row.certificates),
        Field::CertificatesOf => Cell::Of(row.certificates, row.limit as Money),
        Field::Worth => Cell::Number(row.worth),
        Field::Rank => Cell::Number(row.rank as Money),
        Field::SharesOf(company) => Cell::Held(Holding::of(view, company, row.seat)),
        Field::Privates => Cell::PrivatesOf(Holder::Seat(row.seat)),
        _ => Cell::Nothing,
    }
}

/// Returns what a column shows of a private.
fn private_cell(row: &PrivateRow, field: Field) -> Cell
    ensures { result ≡ private_cell row.now field }
{
    match field {
        Field::Name => Cell::PrivateCode(row.private),
        Field::Face => Cell::Number(Money::from(row.face)),
        Field::Price => price_cell(row),
        Field::Revenue => Cell::Number(Money::from(row.revenue)),
        Field::Hexes => Cell::HexesOf(row.private),
        Field::Owner => owner_cell(row),
        Field::Bids => Cell::BidsOn(row.private),
        Field::IsClosed => Cell::Flag(row.is_sold && row.owner.is_none()),
        _ => Cell::Nothing,
    }
}

/// Returns the price of a private, while it is unsold.
fn price_cell(row: &PrivateRow) -> Cell
    ensures { result ≡ price_cell row.now }
{
    if row.is_sold {
        Cell::Nothing
    } else {
        Cell::Number(Money::from(row.price))
    }
}

/// Returns who owns a private, or why nobody does.
fn owner_cell(row: &PrivateRow) -> Cell
    ensures { result ≡ owner_cell row.now }
{
    match row.owner {
        Some(holder) => Cell::OwnedBy(holder),
        None if row.is_sold => Cell::Closed,
        None => Cell::Unsold,
    }
}

/// Returns what a column shows of a company.
fn company_cell(view: &GameView, row: &CompanyRow, field: Field) -> Cell
    ensures { result ≡ company_cell view.now.events row.now field }
{
    match field {
        Field::Name => Cell::CompanyCode(row.company),
        Field::FullName => Cell::CompanyName(row.company),
        Field::IsStarted => Cell::Flag(row.is_started),
        Field::Operates => Cell::Flag(row.operates),
        Field::President => player_name(row.president),
        Field::Cash => Cell::Sum(row.cash),
        Field::Treasury if row.operates => Cell::Sum(row.cash),
        Field::Treasury => Cell::Blank,
        Field::Revenue => revenue_cell(row),
        Field::LastRun if row.operates => revenue_cell(row),
        Field::LastRun => Cell::Blank,
        Field::RevenueRound => round_cell(row.revenue_round),
        Field::LastRunRound if row.operates => round_cell(row.revenue_round),
        Field::LastRunRound => Cell::Blank,
        Field::Trains => trains_cell(row),
        Field::Tokens => Cell::TokensOf(row.company),
        Field::Left => Cell::Number(row.tokens_left as Money),
        Field::Privates => Cell::PrivatesOf(Holder::Company(row.company)),
        Field::Shares => Cell::SharesIn(row.company),
        Field::SharesAt(seat) => Cell::Held(Holding::of(view, row.company, seat)),
        _ => company_stock_cell(row, field),
    }
}

/// Returns what a column on the stock market shows of a company.
fn company_stock_cell(row: &CompanyRow, field: Field) -> Cell
    ensures { result ≡ company_stock_cell row.now field }
{
    match field {
        Field::Par => number_or_nothing(row.par),
        Field::Offering => Cell::Number(row.offering),
        Field::Pool => Cell::Number(row.pool),
        Field::Price => priced_square(row.square),
        Field::Square => square_cell(row.square),
        Field::Place => place_cell(row),
        Field::SquareAndPlace => square_and_place(row),
        Field::PriceAndSquare => price_and_square(row.square),
        Field::PriceAndSquareBefore => price_and_square(row.square_before),
        _ => Cell::Nothing,
    }
}

/// Returns the name of a player, if there is one.
fn player_name(seat: Option<Seat>) -> Cell
    ensures { result ≡ player_name seat }
{
    match seat {
        Some(seat) => Cell::PlayerName(seat),
        None => Cell::Nothing,
    }
}

/// Returns a number, if there is one.
fn number_or_nothing(number: Option<Money>) -> Cell
    ensures { result ≡ number_or_nothing number }
{
    match number {
        Some(number) => Cell::Number(number),
        None => Cell::Nothing,
    }
}

/// Returns what a company last earned; nothing if it has never operated.
fn revenue_cell(row: &CompanyRow) -> Cell
    ensures { result ≡ revenue_cell row.now }
{
    match row.revenue_round {
        Some(_) => Cell::Sum(row.revenue),
        None => Cell::Nothing,
    }
}

/// Returns the name of a round, if there is one.
fn round_cell(round: Option<Round>) -> Cell
    ensures { result ≡ round_cell round }
{
    match round {
        Some(round) => Cell::RoundName(round),
        None => Cell::Nothing,
    }
}

/// Returns the trains of a company, or why it does not operate.
fn trains_cell(row: &CompanyRow) -> Cell
    ensures { result ≡ trains_cell row.now }
{
    if row.operates {
        Cell::TrainsOf(row.company)
    } else if row.is_started {
        Cell::NotFloated(row.offering)
    } else {
        Cell::NotStarted
    }
}

/// Returns the price of a square, if there is one.
fn priced_square(square: Option<Square>) -> Cell
    ensures { result ≡ priced_square square }
{
    match square {
        Some(square) => Cell::Number(Money::from(price(square))),
        None => Cell::Nothing,
    }
}

/// Returns a square, if there is one.
fn square_cell(square: Option<Square>) -> Cell
    ensures { result ≡ square_cell square }
{
    match square {
        Some(square) => Cell::SquareName(square),
        None => Cell::Nothing,
    }
}

/// Returns the place of a company's token in its stack, if it has one.
fn place_cell(row: &CompanyRow) -> Cell
    ensures { result ≡ place_cell row.now }
{
    match row.square {
        Some(_) => Cell::Number(row.above as Money + 1),
        None => Cell::Nothing,
    }
}

/// Returns the square of a company's token with the place in the stack there, if it has one.
fn square_and_place(row: &CompanyRow) -> Cell
    ensures { result ≡ square_and_place row.now }
{
    match row.square {
        Some(square) => Cell::SquareAndPlace(square, row.above as Money + 1),
        None => Cell::Nothing,
    }
}

/// Returns a square with its price, if there is one.
fn price_and_square(square: Option<Square>) -> Cell
    ensures { result ≡ price_and_square square }
{
    match square {
        Some(square) => Cell::PriceAndSquare(square),
        None => Cell::Nothing,
    }
}

/// Returns what a column shows of a kind of train.
fn train_cell(row: &TrainRow, field: Field) -> Cell
    ensures { result ≡ train_cell row.now field }
{
    match field {
        Field::Name => Cell::KindCode(row.kind),
        Field::Left => number_or_all(row.left),
        Field::Pool => Cell::Number(Money::from(row.pool)),
        Field::Price => Cell::Number(Money::from(row.price)),
        Field::Stops => number_or_all(row.stops),
        Field::Rusts => rust_cell(row.rusts),
        _ => Cell::Nothing,
    }
}

/// Returns a count; that there is no limit, if there is none.
fn number_or_all(count: Option<usize>) -> Cell
    ensures { result ≡ number_or_all count }
{
    match count {
        Some(count) => Cell::Number(count as Money),
        None => Cell::Unlimited,
    }
}

/// Returns with which kind a train rusts, if it does.
fn rust_cell(kind: Option<Kind>) -> Cell
    ensures { result ≡ rust_cell kind }
{
    match kind {
        Some(kind) => Cell::RustsAt(kind),
        None => Cell::Nothing,
    }
}
