//! What a cell of a table shows.
ghost use Rattle.std.specs.Prelude.{◌≡◌};
ghost use Rattle.desk_cells.specs.Cells.{holding_of, presides};

use history::{GameView, Holder, ShareCount, Shareholder};
use tables::{Company, Kind, Money, Private, Round, Seat, Square};

/// What a cell shows. It borrows nothing: whoever prints it looks up names and lists.
#[derive(Clone, Copy)]
pub enum Cell {
    /// There is nothing: no president, no par value.
    Nothing,
    /// The row has no such figure: the cash of a company that does not operate.
    Blank,
    /// A number, or a sum in dollars, of which 0 need not be printed.
    Number(Money),
    /// A sum in dollars, of which 0 is printed.
    Sum(Money),
    /// A number and the most that it may be.
    Of(Money, Money),
    /// There is no limit.
    Unlimited,
    /// True or false.
    Flag(bool),
    /// The name of a player.
    PlayerName(Seat),
    /// The code of a company.
    CompanyCode(Company),
    /// The full name of a company.
    CompanyName(Company),
    /// The code of a private.
    PrivateCode(Private),
    /// The code of a kind of train.
    KindCode(Kind),
    /// The name of a round.
    RoundName(Round),
    /// A square of the stock market.
    SquareName(Square),
    /// A square, and the place of a company's token in the stack there, from 1.
    SquareAndPlace(Square, Money),
    /// A square with its price.
    PriceAndSquare(Square),
    /// How many shares somebody holds, and whether they preside.
    Held(Holding),
    /// Who owns a private; nobody before it is sold.
    OwnedBy(Holder),
    /// The private is not sold.
    Unsold,
    /// The private is closed.
    Closed,
    /// The company has not started.
    NotStarted,
    /// The company has not floated; this many of its shares are in the initial offering.
    NotFloated(ShareCount),
    /// The kind of train with which another rusts.
    RustsAt(Kind),
    /// The trains of a company.
    TrainsOf(Company),
    /// The places of a company's tokens.
    TokensOf(Company),
    /// The privates of a player or a company.
    PrivatesOf(Holder),
    /// The bids on a private.
    BidsOn(Private),
    /// The hexes of a private.
    HexesOf(Private),
    /// The shares of a company that each player holds.
    SharesIn(Company),
}

/// How many shares of a company a player holds, and whether they preside over it.
#[derive(Clone, Copy)]
pub struct Holding {
    pub shares: ShareCount,
    pub presides: bool,
}

impl Holding {
    /// Returns what a player holds of a company.
    pub(crate) fn of(view: &GameView, company: Company, seat: Seat) -> Holding
        ensures { result ≡ holding_of view.now.events company seat }
    {
        Holding {
            shares: view.shares(company, Shareholder::Seat(seat)),
            presides: presides(view.president(company), seat),
        }
    }
}

/// Returns whether a president, if there is one, is the player of this seat.
fn presides(president: Option<Seat>, seat: Seat) -> bool
    ensures { result ≡ presides president seat }
{
    match president {
        Some(president) => president == seat,
        None => false,
    }
}
