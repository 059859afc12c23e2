//! The laws of the definitions. Each is the contract of a function that does nothing.
ghost use Rattle.std.specs.Prelude.{◌≡◌, ℕ, List};
ghost use Rattle.privates.specs.Auction.{AuctionIsWon};
ghost use Rattle.privates.specs.BidsRise.{OpeningBidsRise};
ghost use Rattle.events.specs.declared.event.Event.{Event};
ghost use Rattle.totals.specs.LookBack.{Game};
ghost use Rattle.privates.specs.Opening.{EndsSoon, IsOpeningRound};
ghost use Rattle.privates.specs.Sale.{settle_auctions, settled};
ghost use Rattle.privates.specs.Turn.{opening_rules};
ghost use Rattle.tables.specs.declared.round.Round.{Round};
ghost use Rattle.turns.specs.Acted.{TurnsSayWhoActed};

/// States that an auction is won by the bidder who is ahead of all, by limit and then by bid. The
/// price is the greatest limit of the others plus 5, but no more than the winner's limit and no
/// less than the highest bid.
pub fn auction_is_won()
    ensures { AuctionIsWon }
{}

/// States that the sales that follow from a sale come to an end, after which there are no bids on
/// the cheapest unsold private.
pub fn nothing_is_left_to_settle()
    ensures { (seats : ℕ) (events : List Event) → settle_auctions seats (settled seats events)
        ≡ settled seats events }
{}

/// States that an opening round has at most one outcome: the sheets and the game before it
/// determine the game after it.
pub fn one_opening_round()
    ensures { (file : List ℕ) (round : Round) (old : Game) (a : Game) (b : Game)
        → IsOpeningRound file round old a → IsOpeningRound file round old b → a ≡ b }
{}

/// States that an opening round has an outcome, whatever the sheets say: its turns end, after at
/// most 513 for each seat.
pub fn opening_round_ends()
    ensures { (file : List ℕ) (round : Round) (old : Game) → EndsSoon file round old }
{}

/// States that a seat acted in its turn exactly if the list of events says so. If it acted, the
/// turn's events name it as the last seat to act; if not, they name nobody.
pub fn opening_turns_say_who_acted()
    ensures { TurnsSayWhoActed opening_rules }
{}

/// States that an opening round keeps this true: each bid is at least 5 above every earlier bid on
/// its private, whether or not that still holds.
pub fn opening_bids_rise()
    ensures { OpeningBidsRise }
{}
