//! The laws of bids and of sales to companies in a company's turn. Each is the contract of a
//! function that does nothing.
ghost use Rattle.operating.specs.BidLaws.{TurnsSayNoBid};
ghost use Rattle.operating.specs.SaleLaws.{TurnsKeepAgreed};

/// States that nobody bids on a private in a company's turn.
pub fn turns_say_no_bid()
    ensures { TurnsSayNoBid }
{}

/// States that whoever sells a train or a private to a company in its turn has agreed to exactly
/// this sale, in the list of events before it.
pub fn sellers_agree_in_turns()
    ensures { TurnsKeepAgreed }
{}
