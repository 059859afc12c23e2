//! A LIMIT: a standing line that says how far a seat goes in an auction of a private, which must be
//! unsold.
ghost use Rattle.std.specs.Prelude.{◌≡◌};
ghost use Rattle.privates.specs.Limit.{auction_limit, limit_rules};
ghost use Rattle.tables.specs.Rules.{first_broken};

use history::{Bid, GameView, OpeningRule};
use tables::{Money, Private, rules};

/// Returns the rule that a LIMIT breaks.
pub(crate) fn judge_limit(view: &GameView, private: Private) -> Option<OpeningRule>
    ensures { result ≡ first_broken (limit_rules view.now.events private) }
{
    rules! { OpeningRule
        Sold: view.is_sold(private),
    }
}

/// Returns how far a bidder goes in the auction of a private, in dollars: to the limit that they
/// ordered, or to what they can spend if that is less; without a limit only to their bid. It is at
/// least their bid.
pub(crate) fn auction_limit(view: &GameView, private: Private, bid: Bid) -> Money
    ensures { result ≡ auction_limit view.now.seats view.now.events private bid }
{
    let amount = Money::from(bid.amount);
    match view.limit(private, bid.seat) {
        Some(ordered) => amount.max(Money::from(ordered).min(view.free_for(bid.seat, private))),
        None => amount,
    }
}
